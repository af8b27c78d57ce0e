//! Machines that make steps.
ghost use Rattle.std.specs.Prelude.{◌≡◌, ℕ, ◌≤◌, ◌<◌};

use fsl_text::Steps;
use std::marker::Brand;
use std::sync::ledger::{Blank, Ledger};

/// A value that makes one step for each event. The machine names a relation that each step keeps.
pub trait Machine {
    /// The events that it takes.
    type Event;

    /// The answers that it gives.
    type Answer;

    /// The relation of one step: the state before, the event, the answer and the state after.
    ghost may_step: { Self → Self.Event → Self.Answer → Self → Type 0 };

    /// Says that the second state may follow the first, by any number of steps.
    ghost later: { Self → Self → Type 0 };

    /// A count that never falls. The shares of the users add up to it.
    ghost stored_count: { Self → ℕ };

    /// Makes the step of an event. The counter rises by the touches of its tables.
    fn step<L: Ledger>(&mut self, event: &Self::Event, steps: &mut Steps<L>) -> Self::Answer
        ensures { may_step self.old event.now result self.new };

    /// Returns the count.
    fn stored(&self) -> u64
        ensures { result ≡ stored_count self.now };

    ghost later_self: { (a : Self) → later a a };

    ghost later_through: { (a b c : Self) → later a b → later b c → later a c };

    ghost step_later: { (a : Self) (e : Self.Event) (r : Self.Answer) (b : Self) → may_step a e r b → later a b };

    ghost never_falls: { (a b : Self) → later a b → stored_count a ≤ stored_count b };
}

/// Makes one step, with a counter of its own that nobody reads.
pub fn step_uncounted<M: Machine>(machine: &mut M, event: &M::Event) -> M::Answer
    ensures { M.may_step machine.old event.now result machine.new }
{
    counted::<M, Brand>(machine, event, Blank::new(1))
}

fn counted<M: Machine, L: Ledger>(machine: &mut M, event: &M::Event, blank: Blank) -> M::Answer
    requires name { blank.name ≡ L.name }
    requires parts { blank.parts ≡ L.parts }
    requires counts { 0 < L.parts }
    ensures { M.may_step machine.old event.now result machine.new }
{
    let mut steps = Steps::<L>::new(blank);
    machine.step(event, &mut steps)
}
