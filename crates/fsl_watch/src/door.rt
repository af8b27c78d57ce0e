//! A door that writes a line for each connection.
ghost use Rattle.std.specs.Prelude.{◌≡◌, ◌<◌, length, take, None, IfOk, OnErr, option_map};
ghost use Rattle.std.specs.Io.{ReadsAtMost, WritesAtMost};
ghost use Rattle.fsl_order.specs.Causes.{HasCause};
ghost use Rattle.fsl_outside.specs.Connections.{LinkReads, LinkWrites};
ghost use Rattle.fsl_outside.specs.Accepts.{AcceptLists, AcceptCounts};
ghost use Rattle.fsl_watch.specs.Logged.{came_more, went_more, begun, begun_by, NotesRequest};

use crate::lines::{put_out, request_line};
use crate::traffic::{Traffic, count_come, count_gone};
use fsl_outside::{Accepted, Door, Failed, Link, Sink};
use std::alloc::Global;
use std::marker::Model;
use std::time::Clock;

/// Writes a line for each connection of another door, whose connections, answers and counts come through unchanged. The line is
/// written when a connection ends, by `leave` or by the next `accept`. It gives the status of the reply, the bytes in both
/// directions, and the milliseconds from its beginning to its last byte by the clock. It doesn't give the peer's address, since a
/// door doesn't tell it.
#[derive(Drop)]
pub struct LoggedDoor<A: Door, K: Sink, C: Clock> {
    door: A,
    out: K,
    clock: C,
    traffic: Option<Traffic>,
    alloc: Global,
}

impl<A: Door, K: Sink, C: Clock> Model for LoggedDoor<A, K, C> {
    ghost use Rattle.fsl_watch.specs.Logged.{LoggedAt};

    ghost Value = { LoggedAt A K };

    ghost view = { λ s. record { door = s.door; out = s.out; traffic = s.traffic } };
}

impl<A: Door, K: Sink, C: Clock> LoggedDoor<A, K, C> {
    /// Returns a door around `door` whose lines go to `out`.
    pub fn new(alloc: Global, door: A, out: K, clock: C) -> LoggedDoor<A, K, C>
        ensures { result ≡ record { door = door; out = out; traffic = None } }
    {
        LoggedDoor {
            door,
            out,
            clock,
            traffic: None,
            alloc,
        }
    }

    /// Returns the door behind it.
    pub fn door(&self) -> &A
        ensures { result.now ≡ self.now.door }
    {
        &self.door
    }

    /// Returns the sink of its lines.
    pub fn out(&self) -> &K
        ensures { result.now ≡ self.now.out }
    {
        &self.out
    }

    /// Writes the line of the present connection, if there is one.
    fn end(&mut self)
        ensures door { self.new.door ≡ self.old.door }
        ensures ended { self.new.traffic ≡ None }
        ensures notes { NotesRequest self.old.traffic (K.state self.old.out) (K.state self.new.out) }
    {
        if let Some(traffic) = self.traffic.take() {
            let ms = traffic.time();
            put_out(&mut self.out, request_line(self.alloc, &traffic, ms));
        }
    }

    /// Begins the counts for this answer of an accept.
    fn begun(&self, accepted: Accepted) -> Option<Traffic>
        ensures { result ≡ begun_by accepted }
    {
        match accepted {
            Accepted::Connection => Some(Traffic::new(&self.clock)),
            Accepted::Closed => None,
        }
    }
}

impl<A: Door, K: Sink, C: Clock> Link for LoggedDoor<A, K, C> {
    ghost state = { λ s. A.state s.door };

    fn faults(&self) -> u64 {
        self.door.faults()
    }

    fn read(&mut self, into: &mut [u8]) -> Result<usize, Failed>
        ensures bound { ReadsAtMost result into.new }
        ensures moves { LinkReads (A.state self.old.door).present (A.state self.new.door).present result into.new }
        ensures stands { (A.state self.new.door).standing ≡ (A.state self.old.door).standing }
        ensures cause { HasCause (A.state self.old.door).faults (A.state self.new.door).faults result }
        ensures counted { IfOk result (λ n. self.new.traffic ≡ option_map (came_more n) self.old.traffic) }
        ensures failed { OnErr result (self.new.traffic ≡ self.old.traffic) }
        ensures silent { self.new.out ≡ self.old.out }
    {
        let count = self.door.read(into)?;
        count_come(&mut self.traffic, &self.clock, count);
        Ok(count)
    }

    fn write(&mut self, piece: &[u8]) -> Result<usize, Failed>
        ensures bound { WritesAtMost result piece.now }
        ensures some { IfOk result (λ n. 0 < length piece.now → 0 < n) }
        ensures moves { LinkWrites (A.state self.old.door).present (A.state self.new.door).present result piece.now }
        ensures stands { (A.state self.new.door).standing ≡ (A.state self.old.door).standing }
        ensures cause { HasCause (A.state self.old.door).faults (A.state self.new.door).faults result }
        ensures counted { IfOk result (λ n. self.new.traffic ≡ option_map (went_more (take n piece.now)) self.old.traffic) }
        ensures failed { OnErr result (self.new.traffic ≡ self.old.traffic) }
        ensures silent { self.new.out ≡ self.old.out }
    {
        let count = self.door.write(piece)?;
        count_gone(&mut self.traffic, &self.clock, &piece[..count]);
        Ok(count)
    }
}

impl<A: Door, K: Sink, C: Clock> Door for LoggedDoor<A, K, C> {
    fn accept_faults(&self) -> u64 {
        self.door.accept_faults()
    }

    fn closings(&self) -> u64 {
        self.door.closings()
    }

    /// Writes the line of the present connection, and then waits for the next one.
    fn accept(&mut self) -> Result<Accepted, Failed>
        ensures lists { IfOk result (AcceptLists (A.state self.old.door) (A.state self.new.door)) }
        ensures counts { AcceptCounts result (A.state self.old.door).standing (A.state self.new.door).standing }
        ensures kept { OnErr result ((A.state self.new.door).present ≡ (A.state self.old.door).present) }
        ensures earlier { OnErr result ((A.state self.new.door).standing.earlier ≡ (A.state self.old.door).standing.earlier) }
        ensures same { (A.state self.new.door).faults ≡ (A.state self.old.door).faults }
        ensures counted { self.new.traffic ≡ begun result }
        ensures notes { NotesRequest self.old.traffic (K.state self.old.out) (K.state self.new.out) }
    {
        self.end();
        let accepted = self.door.accept()?;
        self.traffic = self.begun(accepted);
        Ok(accepted)
    }

    /// Drops the present connection, and then writes its line, if there is one. So its peer doesn't wait for a slow sink.
    fn leave(&mut self)
        ensures same { A.state self.new.door ≡ A.state self.old.door }
        ensures counted { self.new.traffic ≡ None }
        ensures notes { NotesRequest self.old.traffic (K.state self.old.out) (K.state self.new.out) }
    {
        self.door.leave();
        self.end();
    }
}
