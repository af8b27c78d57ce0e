//! One user alone.
ghost use Rattle.std.specs.Prelude.{◌≡◌, List, [], ◌∷◌, ◌++◌, Option, Some, None, IfSome};
ghost use Rattle.fsl_turn.specs.Told.{Tells, Went};

use crate::machine::{Machine, step_uncounted};
use crate::turns::Turns;
use http_server::Log;
use std::marker::PhantomData;
use std::sync::Wait;

/// The turns of one user, whose pass has the machine and records its calls. Nothing is locked, and nothing waits.
#[derive(Drop)]
pub struct Solo<M> {
    of: PhantomData<M>,
}

/// The machine, and the events and answers so far.
pub struct SoloPass<M: Machine> {
    /// The machine in its present state.
    pub machine: M,
    /// The events and answers so far. It takes no bytes.
    pub told: Log<M::Event, M::Answer>,
}

impl<M: Machine> Solo<M> {
    /// Makes the turns of a machine, with their one pass, which has recorded no call.
    pub fn make(machine: M) -> (Solo<M>, SoloPass<M>)
        ensures machine { result.1.machine ≡ machine }
        ensures told { result.1.told.items ≡ [] }
    {
        (
            Solo { of: PhantomData },
            SoloPass {
                machine,
                told: Log::new(),
            },
        )
    }
}

impl<M: Machine> Turns<M> for Solo<M> {
    type Pass = SoloPass<M>;

    ghost use Rattle.std.specs.Prelude.{Some};

    ghost calls = { λ p. Some p.told.items };

    ghost use Rattle.fsl_turn.specs.Told.{Went, went_self, went_through};

    ghost grows = { λ p q. Went M.may_step p.machine p.told.items q.machine q.told.items };

    ghost grows_self = { λ p. went_self M.may_step p.machine p.told.items };

    ghost grows_through = { λ p q r a b. went_through M.may_step p.machine q.machine r.machine p.told.items q.told.items r.told.items a b };

    fn turn<R: Wait>(&self, _rt: &R, pass: &mut SoloPass<M>, event: &M::Event) -> M::Answer
        ensures step { (a : M) × (b : M) × M.may_step a event.now result b }
        ensures told { Tells (Some pass.old.told.items) (Some pass.new.told.items) (λ made. made ≡ (event.now, result) ∷ []) }
        ensures grown { Went M.may_step pass.old.machine pass.old.told.items pass.new.machine pass.new.told.items }
        ensures items { pass.new.told.items ≡ pass.old.told.items ++ (event.now, result) ∷ [] }
        ensures machine { M.may_step pass.old.machine event.now result pass.new.machine }
    {
        let answer = step_uncounted(&mut pass.machine, event);
        pass.told = pass.told.and(event, &answer);
        answer
    }

    fn stand_back(&self) {}
}
