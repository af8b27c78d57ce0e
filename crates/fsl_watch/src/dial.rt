//! A dial that writes a line for each connection, which is a round of a sync.
ghost use Rattle.std.specs.Prelude.{◌≡◌, ◌<◌, length, take, None, Some, IfOk, OnOk, OnErr, option_map};
ghost use Rattle.std.specs.Io.{ReadsAtMost, WritesAtMost};
ghost use Rattle.fsl_order.specs.Causes.{HasCause};
ghost use Rattle.fsl_outside.specs.Connections.{LinkReads, LinkWrites};
ghost use Rattle.fsl_outside.specs.Accepts.{Begins};
ghost use Rattle.fsl_watch.specs.Lines.{more};
ghost use Rattle.fsl_watch.specs.Logged.{nothing_moved, came_more, went_more, NotesRound};

use crate::lines::{put_out, round_line};
use crate::traffic::{Traffic, count_come, count_gone};
use fsl_outside::{Dial, Failed, Link, Sink};
use std::alloc::Global;
use std::marker::Model;
use std::time::Clock;

/// Writes a line for each connection of another dial, whose connections, answers and counts come through unchanged. The line is
/// written before the next connection begins, and at `end`. It gives the connection's number, counted from 1, the bytes in both
/// directions, and the milliseconds from its beginning to its last byte by the clock.
#[derive(Drop)]
pub struct LoggedDial<N: Dial, K: Sink, C: Clock> {
    dial: N,
    out: K,
    clock: C,
    rounds: u64,
    traffic: Option<Traffic>,
    alloc: Global,
}

impl<N: Dial, K: Sink, C: Clock> Model for LoggedDial<N, K, C> {
    ghost use Rattle.fsl_watch.specs.Logged.{LoggedTo};

    ghost Value = { LoggedTo N K };

    ghost view = { λ s. record { dial = s.dial; out = s.out; rounds = s.rounds; traffic = s.traffic } };
}

impl<N: Dial, K: Sink, C: Clock> LoggedDial<N, K, C> {
    /// Returns a dial around `dial` whose lines go to `out`.
    pub fn new(alloc: Global, dial: N, out: K, clock: C) -> LoggedDial<N, K, C>
        ensures { result ≡ record { dial = dial; out = out; rounds = 0; traffic = None } }
    {
        LoggedDial {
            dial,
            out,
            clock,
            rounds: 0,
            traffic: None,
            alloc,
        }
    }

    /// Returns the dial behind it.
    pub fn dial(&self) -> &N
        ensures { result.now ≡ self.now.dial }
    {
        &self.dial
    }

    /// Returns the sink of its lines.
    pub fn out(&self) -> &K
        ensures { result.now ≡ self.now.out }
    {
        &self.out
    }

    /// Writes the line of the present connection, if there is one. The last connection of a sync has no next one to end it.
    pub fn end(&mut self)
        ensures dial { self.new.dial ≡ self.old.dial }
        ensures rounds { self.new.rounds ≡ self.old.rounds }
        ensures ended { self.new.traffic ≡ None }
        ensures notes { NotesRound self.old.rounds self.old.traffic (K.state self.old.out) (K.state self.new.out) }
    {
        if let Some(traffic) = self.traffic.take() {
            let ms = traffic.time();
            put_out(
                &mut self.out,
                round_line(self.alloc, self.rounds, &traffic, ms),
            );
        }
    }
}

impl<N: Dial, K: Sink, C: Clock> Link for LoggedDial<N, K, C> {
    ghost state = { λ s. N.state s.dial };

    fn faults(&self) -> u64 {
        self.dial.faults()
    }

    fn read(&mut self, into: &mut [u8]) -> Result<usize, Failed>
        ensures bound { ReadsAtMost result into.new }
        ensures moves { LinkReads (N.state self.old.dial).present (N.state self.new.dial).present result into.new }
        ensures stands { (N.state self.new.dial).standing ≡ (N.state self.old.dial).standing }
        ensures cause { HasCause (N.state self.old.dial).faults (N.state self.new.dial).faults result }
        ensures counted { IfOk result (λ n. self.new.traffic ≡ option_map (came_more n) self.old.traffic) }
        ensures failed { OnErr result (self.new.traffic ≡ self.old.traffic) }
        ensures silent { (self.new.out ≡ self.old.out) × (self.new.rounds ≡ self.old.rounds) }
    {
        let count = self.dial.read(into)?;
        count_come(&mut self.traffic, &self.clock, count);
        Ok(count)
    }

    fn write(&mut self, piece: &[u8]) -> Result<usize, Failed>
        ensures bound { WritesAtMost result piece.now }
        ensures some { IfOk result (λ n. 0 < length piece.now → 0 < n) }
        ensures moves { LinkWrites (N.state self.old.dial).present (N.state self.new.dial).present result piece.now }
        ensures stands { (N.state self.new.dial).standing ≡ (N.state self.old.dial).standing }
        ensures cause { HasCause (N.state self.old.dial).faults (N.state self.new.dial).faults result }
        ensures counted { IfOk result (λ n. self.new.traffic ≡ option_map (went_more (take n piece.now)) self.old.traffic) }
        ensures failed { OnErr result (self.new.traffic ≡ self.old.traffic) }
        ensures silent { (self.new.out ≡ self.old.out) × (self.new.rounds ≡ self.old.rounds) }
    {
        let count = self.dial.write(piece)?;
        count_gone(&mut self.traffic, &self.clock, &piece[..count]);
        Ok(count)
    }
}

impl<N: Dial, K: Sink, C: Clock> Dial for LoggedDial<N, K, C> {
    /// Writes the line of the present connection, and then tries the next one.
    fn connect(&mut self) -> Result<(), Failed>
        ensures begins { OnOk result (Begins (N.state self.old.dial) (N.state self.new.dial)) }
        ensures accepts { (N.state self.new.dial).standing.accept_faults ≡ (N.state self.old.dial).standing.accept_faults }
        ensures closings { (N.state self.new.dial).standing.closings ≡ (N.state self.old.dial).standing.closings }
        ensures kept { OnErr result ((N.state self.new.dial).present ≡ (N.state self.old.dial).present) }
        ensures stands { OnErr result ((N.state self.new.dial).standing ≡ (N.state self.old.dial).standing) }
        ensures cause { HasCause (N.state self.old.dial).faults (N.state self.new.dial).faults result }
        ensures counted { OnOk result ((self.new.traffic ≡ Some nothing_moved) × (self.new.rounds ≡ more 1 self.old.rounds)) }
        ensures failed { OnErr result ((self.new.traffic ≡ None) × (self.new.rounds ≡ self.old.rounds)) }
        ensures notes { NotesRound self.old.rounds self.old.traffic (K.state self.old.out) (K.state self.new.out) }
    {
        self.end();
        self.dial.connect()?;
        self.rounds = self.rounds.saturating_add(1);
        self.traffic = Some(Traffic::new(&self.clock));
        Ok(())
    }
}
