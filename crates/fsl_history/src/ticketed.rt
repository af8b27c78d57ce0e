//! Makes turns by ticket.
ghost use Rattle.std.specs.Prelude.{◌≡◌, ℕ, ◌<◌, ◌≤◌, ◌+◌, List, [], ◌∷◌, ◌++◌, map, length, vec_len, Some, IfOk, IfErr, IfSome};
ghost use Rattle.std.specs.Option.{ForSome};
ghost use Rattle.fsl_turn.specs.Told.{Tells};
ghost use Rattle.fsl_history.specs.declared.view.Stage.TheVariants as at;
ghost use Rattle.fsl_history.specs.declared.view.View.TheVariants as view;
ghost use Rattle.fsl_history.specs.Entries.{newcomer, newcomers, shares_in, IsFinished, Grows};
ghost use Rattle.fsl_history.specs.Plays.{sat, IsCalled, IsShown};
ghost use Rattle.fsl_history.specs.Rule.{tale_in, most_turns};

use crate::chronicle::Chronicle;
use crate::housed::{Desk, Housed, emptied};
use crate::lane::Lane;
use crate::rule::{Chair, Gathers, Issues};
use fsl_turn::{Machine, Turns};
use std::alloc::Global;
use std::marker::{Model, PhantomData};
use std::sync::{Mutex, Wait};

/// The most turns of one pass.
const MOST_TURNS: u64 = 1 << 58;

/// Keeps the seat that takes the passes back. It is under a lock that nobody takes while turns are made, since a seat can't be
/// shared.
#[derive(Drop)]
struct Keeper<M: Machine, B: Chronicle<M>> {
    seat: Chair<M, M::Event, M::Answer>,
    of: PhantomData<B>,
    ghost named: { seat.table_id ≡ B.table },
    ghost kept: { (seat.id ≡ 0) × (seat.me ≡ (view.Keeper B.passes [], [])) },
}

/// A machine whose turns are made by ticket, with the history of all turns.
pub struct Ticketed<M: Machine, B: Chronicle<M>> {
    pub(crate) table: Desk<M, M::Event, M::Answer>,
    keeper: Mutex<Keeper<M, B>>,
    /// The lock whose holder may draw a ticket. So no pass sleeps with a ticket, which would hold up all that drew theirs behind
    /// it.
    pub(crate) lane: Lane,
    /// The machine's count when the table was made.
    began: u64,
    of: PhantomData<B>,
    ghost sized: { (table.shared.table_id.words ≡ 2) × (table.shared.table_id.slots ≡ 1) },
    ghost named: { table.shared.table_id ≡ B.table },
    ghost born: { ForSome B.first (λ f. map (λ b. b.0) table.shared.key.items ≡ f ∷ []) },
    ghost counted: { map (λ b. b.1) table.shared.key.items ≡ began ∷ [] },
}

/// One user's part of the turns. Contracts see the history that it has seen, and its calls.
#[derive(Drop)]
pub struct TicketPass<M: Machine, B: Chronicle<M>> {
    /// The turns that this pass may still make.
    left: u64,
    chair: Chair<M, M::Event, M::Answer>,
    of: PhantomData<(M, B)>,
}

impl<M: Machine, B: Chronicle<M>> Model for TicketPass<M, B> {
    ghost use Rattle.std.specs.Prelude.{◌≡◌};
    ghost use Rattle.fsl_history.specs.declared.view.Tale.{Tale};
    ghost use Rattle.fsl_history.specs.declared.view.Stage.TheVariants as at;
    ghost use Rattle.fsl_history.specs.Plays.{sat};
    ghost use Rattle.fsl_history.specs.Rule.{tale_in};

    ghost Value = { Tale M.Event M.Answer };

    ghost view = { λ p. tale_in p.chair.me.0 };

    ghost invariant = { λ p. (p.chair.table_id ≡ B.table) × (p.chair.me ≡ sat (tale_in p.chair.me.0) p.left at.Idle) };
}

/// Makes one more pass.
fn issue<M: Machine, B: Chronicle<M>>(
    table: &Desk<M, M::Event, M::Answer>,
    seat: &mut Chair<M, M::Event, M::Answer>,
) -> TicketPass<M, B>
    requires table { (seat.old.table_id ≡ B.table) × (table.now.shared.table_id ≡ B.table) × (B.table.words ≡ 2) }
    requires keeper { (n : ℕ) × (n < 16) × (seat.old.id ≡ 0) × (seat.old.me ≡ (view.Keeper n [], [])) }
    ensures table { (seat.new.table_id ≡ seat.old.table_id) × (seat.new.id ≡ seat.old.id) }
    ensures issued { (n : ℕ) → seat.old.me ≡ (view.Keeper n [], []) → (seat.new.me ≡ (view.Keeper (n + 1) [], [])) × (result ≡ newcomer n) }
{
    let chair = table.shared.split_seat::<Issues>(seat);
    TicketPass {
        left: MOST_TURNS,
        chair,
        of: PhantomData,
    }
}

/// Takes a pass back.
fn gather<M: Machine, B: Chronicle<M>>(
    table: &Desk<M, M::Event, M::Answer>,
    seat: &mut Chair<M, M::Event, M::Answer>,
    pass: TicketPass<M, B>,
)
    requires table { (seat.old.table_id ≡ B.table) × (table.now.shared.table_id ≡ B.table) × (B.table.words ≡ 2) }
    requires keeper { (n : ℕ) × (back : _) × (seat.old.id ≡ 0) × (seat.old.me ≡ (view.Keeper n back, [])) }
    ensures table { (seat.new.table_id ≡ seat.old.table_id) × (seat.new.id ≡ seat.old.id) }
    ensures gathered { (n : ℕ) (back : _) → seat.old.me ≡ (view.Keeper n back, []) → seat.new.me ≡ (view.Keeper n (back ++ pass ∷ []), []) }
{
    let TicketPass {
        left: _,
        chair,
        of: _,
    } = pass;
    table.shared.join_seat::<Gathers>(seat, chair);
}

/// Never returns.
fn wait_for_ever<R: Wait>(rt: &R)
    ensures { ⊥ }
{
    for _round in rt.forever() {}
    unreachable!()
}

impl<M: Machine, B: Chronicle<M>> Ticketed<M, B> {
    /// Makes passes for this many users, 1 to 16, on a machine in its slot. Fails only if out of memory, and then gives the
    /// machine back as it was.
    pub fn make(
        alloc: Global,
        housed: Housed<M>,
        passes: u64,
    ) -> Result<(Ticketed<M, B>, Vec<TicketPass<M, B>>), M>
        requires table { housed.table.shared.table_id ≡ B.table }
        requires first { (f : M) × (B.first ≡ Some f) × (map (λ b. b.0) housed.table.shared.key.items ≡ f ∷ []) }
        requires all { passes ≡ B.passes }
        requires few { (0 < passes) × (passes ≤ 16) }
        ensures passes { IfOk result (λ r. r.1.items ≡ newcomers passes) }
        ensures refused { IfErr result (λ m. B.first ≡ Some m) }
    {
        let Housed {
            table,
            mut seat,
            began,
        } = housed;
        let Ok(mut out) = Vec::with_capacity(alloc, passes as usize) else {
            return Err(emptied::<M>(table, seat));
        };
        for _number in 0..passes {
            out.push_reserved(issue(&table, &mut seat));
        }
        let keeper = Keeper {
            seat,
            of: PhantomData,
        };
        let ticketed = Ticketed {
            table,
            keeper: Mutex::new(keeper),
            lane: Lane::new(),
            began,
            of: PhantomData,
        };
        Ok((ticketed, out))
    }

    /// Returns how many turns were made. The pass has then seen them all.
    pub fn look(&self, pass: &mut TicketPass<M, B>) -> u64
        ensures { IsShown M.may_step B.first pass.old pass.new result }
    {
        self.count(&mut pass.chair)
    }

    /// Takes the machine out, once all its passes came back, and returns the sum of their shares. It is as the history of all
    /// turns left it. The calls of the passes make up that history.
    pub fn finish(self, passes: Vec<TicketPass<M, B>>) -> (M, u64)
        requires { vec_len passes ≡ B.passes }
        ensures history { IfSome B.first (λ f. IsFinished M.may_step M.stored_count f passes.items result.0) }
        ensures sum { result.1 ≡ shares_in passes.items }
        ensures later { IfSome B.first (λ f. M.later f result.0) }
        ensures rise { IfSome B.first (λ f. M.stored_count result.0 ≡ M.stored_count f + result.1) }
    {
        let Ticketed {
            table,
            keeper,
            lane: _,
            began,
            of: _,
        } = self;
        let Keeper { mut seat, of: _ } = keeper.into_inner();
        for pass in passes {
            gather(&table, &mut seat, pass);
        }
        let machine = emptied::<M>(table, seat);
        let stored = machine.stored() - began;
        (machine, stored)
    }
}

impl<M: Machine, B: Chronicle<M>> Turns<M> for Ticketed<M, B> {
    type Pass = TicketPass<M, B>;

    ghost use Rattle.std.specs.Prelude.{Some};
    ghost use Rattle.fsl_history.specs.Entries.{Grows, grows_self, grows_through};

    ghost calls = { λ p. Some p.mine };

    ghost grows = { λ p q. Grows p q };

    ghost grows_self = { grows_self };

    ghost grows_through = { grows_through };

    fn turn<R: Wait>(&self, rt: &R, pass: &mut TicketPass<M, B>, event: &M::Event) -> M::Answer
        ensures step { (a : M) × (b : M) × M.may_step a event.now result b }
        ensures told { Tells (Some pass.old.mine) (Some pass.new.mine) (λ made. made ≡ (event.now, result) ∷ []) }
        ensures grown { Grows pass.old pass.new }
        ensures called { IsCalled M.may_step M.stored_count B.first pass.old pass.new event.now result }
    {
        if pass.left == 0 {
            wait_for_ever(rt);
            unreachable!()
        }
        let answer = self.step(rt, &mut pass.chair, event);
        pass.left -= 1;
        answer
    }

    fn stand_back(&self) {
        self.lane.stand_back();
    }
}
