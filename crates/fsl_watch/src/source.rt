//! A source that reports how much of it was read.
ghost use Rattle.std.specs.Prelude.{◌≡◌, ◌≤◌, IfOk, OnOk, OnErr};
ghost use Rattle.std.specs.Io.{ReadsAtMost};
ghost use Rattle.std.specs.Io.KnownBytes.{ReadConsumes};
ghost use Rattle.fsl_order.specs.Causes.{HasCause};
ghost use Rattle.fsl_watch.specs.Lines.{more, input_line as input_text};
ghost use Rattle.fsl_watch.specs.Watched.{TellsSoFar};

use crate::lines::input_line;
use crate::pace::Pace;
use fsl_outside::{Failed, Sink, Source};
use std::alloc::Global;
use std::marker::Model;
use std::time::Clock;

/// Reports the progress of another source, whose bytes and answers come through unchanged. A read writes a line of the bytes that
/// were read so far. It does so at most once a second, and not in the first second.
#[derive(Drop)]
pub struct WatchedSource<S: Source, K: Sink, C: Clock> {
    source: S,
    lines: Pace<K, C>,
    count: u64,
    alloc: Global,
}

impl<S: Source, K: Sink, C: Clock> Model for WatchedSource<S, K, C> {
    ghost use Rattle.fsl_watch.specs.Watched.{WatchedFrom};

    ghost Value = { WatchedFrom S K };

    ghost view = { λ s. record { source = s.source; lines = s.lines; count = s.count } };
}

impl<S: Source, K: Sink, C: Clock> WatchedSource<S, K, C> {
    /// Returns a source around `source` whose lines go to `out`. Its first second begins now.
    pub fn new(alloc: Global, source: S, out: K, clock: C) -> WatchedSource<S, K, C>
        ensures source { result.source ≡ source }
        ensures out { result.lines.out ≡ out }
        ensures later { 1000 ≤ result.lines.due }
        ensures count { result.count ≡ 0 }
    {
        WatchedSource {
            source,
            lines: Pace::new(out, clock),
            count: 0,
            alloc,
        }
    }

    /// Returns the sink of its lines.
    pub fn out(&self) -> &K
        ensures { result.now ≡ self.now.lines.out }
    {
        self.lines.out()
    }

    /// Writes how much was read, if that is due.
    fn tell(&mut self)
        ensures source { self.new.source ≡ self.old.source }
        ensures count { self.new.count ≡ self.old.count }
        ensures tells { TellsSoFar K.state self.old.lines self.new.lines (input_text self.old.count) }
    {
        if self.lines.is_due() {
            self.lines.put(input_line(self.alloc, self.count));
        }
    }
}

impl<S: Source, K: Sink, C: Clock> Source for WatchedSource<S, K, C> {
    ghost state = { λ s. S.state s.source };

    fn faults(&self) -> u64 {
        self.source.faults()
    }

    fn read(&mut self, into: &mut [u8]) -> Result<usize, Failed>
        ensures bound { ReadsAtMost result into.new }
        ensures bytes { ReadConsumes (S.state self.old.source).left (S.state self.new.source).left result into.new }
        ensures cause { HasCause (S.state self.old.source).faults (S.state self.new.source).faults result }
        ensures counted { IfOk result (λ n. self.new.count ≡ more n self.old.count) }
        ensures tells { OnOk result (TellsSoFar K.state self.old.lines self.new.lines (input_text self.new.count)) }
        ensures failed { OnErr result ((self.new.count ≡ self.old.count) × (self.new.lines ≡ self.old.lines)) }
    {
        let count = self.source.read(into)?;
        self.count = self.count.saturating_add(count as u64);
        self.tell();
        Ok(count)
    }
}
