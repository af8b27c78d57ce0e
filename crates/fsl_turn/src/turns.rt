//! Lets users step one machine in turns.
ghost use Rattle.std.specs.Prelude.{◌≡◌, List, [], ◌∷◌, Option};
ghost use Rattle.fsl_turn.specs.Told.{Tells};

use crate::machine::Machine;
use std::sync::Wait;

/// A way to let several users step one machine in turns.
pub trait Turns<M: Machine> {
    /// The pass of a user.
    type Pass;

    /// The calls of a pass, in their order, or none if the pass doesn't record them.
    ghost calls: { Self.Pass → Option (List (M.Event × M.Answer)) };

    /// Says that the second pass is the first after any number of turns.
    ghost grows: { Self.Pass → Self.Pass → Type 0 };

    /// Makes the step of an event, between two states of the machine, while no other user makes one. It may wait.
    fn turn<R: Wait>(&self, rt: &R, pass: &mut Self::Pass, event: &M::Event) -> M::Answer
        ensures step { (a : M) × (b : M) × M.may_step a event.now result b }
        ensures told { Tells (calls pass.old) (calls pass.new) (λ made. made ≡ (event.now, result) ∷ []) }
        ensures grown { grows pass.old pass.new };

    /// Lets others that wait for a turn go first, for a short while at most. It makes no turn, and may do nothing.
    fn stand_back(&self);

    ghost grows_self: { (p : Self.Pass) → grows p p };

    ghost grows_through: { (p q r : Self.Pass) → grows p q → grows q r → grows p r };
}
