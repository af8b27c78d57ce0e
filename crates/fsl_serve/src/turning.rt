//! Gives turns to callers that may not wait themselves.
ghost use Rattle.std.specs.Prelude.{◌≡◌, List, [], ◌∷◌, Option};
ghost use Rattle.fsl_turn.specs.Told.{Tells};

use fsl_turn::{Machine, Turns};
use std::sync::Wait;

/// Turns on a machine, for a caller that can't wait itself. Only a turn may wait, and nothing else that the caller does.
pub trait Calls<M: Machine> {
    /// The pass by which a user steps the machine.
    type Pass;

    /// The calls of a pass, as in [`Turns`].
    ghost calls: { Self.Pass → Option (List (M.Event × M.Answer)) };

    /// Says that the second pass is the first after any number of turns, as in [`Turns`].
    ghost grows: { Self.Pass → Self.Pass → Type 0 };

    /// Makes the step of an event, between two states of the machine, while no other user makes one.
    fn call(&self, pass: &mut Self::Pass, event: &M::Event) -> M::Answer
        ensures step { (a : M) × (b : M) × M.may_step a event.now result b }
        ensures told { Tells (calls pass.old) (calls pass.new) (λ made. made ≡ (event.now, result) ∷ []) }
        ensures grown { grows pass.old pass.new };

    /// Lets others go first, as in [`Turns`].
    fn stand_back(&self);

    ghost grows_self: { (p : Self.Pass) → grows p p };

    ghost grows_through: { (p q r : Self.Pass) → grows p q → grows q r → grows p r };
}

/// Turns with the handle by which they wait. Nobody else gets at the handle.
#[derive(Drop)]
pub struct Waiting<'a, T, R> {
    turns: &'a T,
    rt: &'a R,
}

impl<'a, T, R> Waiting<'a, T, R> {
    /// Makes turns that wait by this handle.
    pub fn new(turns: &'a T, rt: &'a R) -> Waiting<'a, T, R>
        ensures turns { result.turns.now ≡ turns.now }
    {
        Waiting { turns, rt }
    }
}

impl<'a, M: Machine, T: Turns<M>, R: Wait> Calls<M> for Waiting<'a, T, R> {
    type Pass = T::Pass;

    ghost calls = { λ p. T.calls p };

    ghost grows = { λ p q. T.grows p q };

    ghost grows_self = { λ p. T.grows_self p };

    ghost grows_through = { λ p q r a b. T.grows_through p q r a b };

    fn call(&self, pass: &mut T::Pass, event: &M::Event) -> M::Answer {
        self.turns.turn(self.rt, pass, event)
    }

    fn stand_back(&self) {
        self.turns.stand_back();
    }
}
