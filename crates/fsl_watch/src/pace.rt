//! Puts out at most one line a second.
ghost use Rattle.std.specs.Prelude.{◌≡◌, ◌≤◌, ℕ, List, IfOk};
ghost use Rattle.fsl_watch.specs.Lines.{Notes};
ghost use Rattle.fsl_watch.specs.Watched.{Ticks};

use crate::lines::put_out;
use crate::traffic::millis;
use fsl_outside::Sink;
use fsl_text::{Memory, Text};
use std::marker::Model;
use std::time::Clock;

/// The milliseconds between two lines, and before the first.
const SECOND: u64 = 1000;

/// The sink of the lines, and the millisecond of the clock from which the next one may come.
#[derive(Drop)]
pub(crate) struct Pace<K: Sink, C: Clock> {
    out: K,
    clock: C,
    due: u64,
}

impl<K: Sink, C: Clock> Model for Pace<K, C> {
    ghost use Rattle.fsl_watch.specs.Watched.{Paced};

    ghost Value = { Paced K };

    ghost view = { λ p. record { out = p.out; due = p.due } };
}

impl<K: Sink, C: Clock> Pace<K, C> {
    /// Returns lines to `out`, the first of them not before a second has passed.
    pub(crate) fn new(out: K, clock: C) -> Pace<K, C>
        ensures out { result.out ≡ out }
        ensures later { 1000 ≤ result.due }
    {
        let due = millis(&clock).saturating_add(SECOND);
        Pace { out, clock, due }
    }

    /// Returns the sink of the lines.
    pub(crate) fn out(&self) -> &K
        ensures { result.now ≡ self.now.out }
    {
        &self.out
    }

    /// Returns whether a line is due, and then the next is a second later.
    pub(crate) fn is_due(&mut self) -> bool
        ensures ticks { Ticks self.old.due self.new.due result }
        ensures out { self.new.out ≡ self.old.out }
    {
        let now = millis(&self.clock);
        let is_due = self.due <= now;
        if is_due {
            self.due = now.saturating_add(SECOND);
        }
        is_due
    }

    /// Puts a due line out.
    pub(crate) fn put(&mut self, line: Result<Text, Memory>)
        ensures due { self.new.due ≡ self.old.due }
        ensures notes { (text : List ℕ) → IfOk line (λ t. t ≡ text) → Notes (K.state self.old.out) (K.state self.new.out) text }
    {
        put_out(&mut self.out, line);
    }
}
