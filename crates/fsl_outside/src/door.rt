//! A door over memory, which fails at listed calls.
ghost use Rattle.std.specs.Prelude.{◌≡◌, ◌<◌, ◌≤◌, length, min, map, Contains, IsErr, IsNone, IsSome, IfSome, IfOk, OnErr};
ghost use Rattle.std.specs.Io.{ReadsAtMost, WritesAtMost};
ghost use Rattle.fsl_order.specs.Causes.{HasCause};
ghost use Rattle.fsl_outside.specs.Memory.{next};
ghost use Rattle.fsl_outside.specs.Connections.{LinkReads, LinkWrites};
ghost use Rattle.fsl_outside.specs.declared.link.Accepted.TheVariants as accepted;
ghost use Rattle.fsl_outside.specs.Accepts.{AcceptLists, AcceptCounts};
ghost use Rattle.fsl_outside.specs.Lines.{none_yet, line_count, IsOneCall, SentBy};
ghost use Rattle.fsl_outside.specs.Dials.{door_state, door_standing, DoorGives};

use super::lines::Connections;
use super::link::{Accepted, Door, Link};
use super::outside::Failed;
use std::alloc::Global;
use std::marker::Model;

/// A door over memory. It is closed behind the last of its connections. `fails` lists the numbers of the reads and writes that
/// fail, and `accept_fails` those of the accepts, both counted from 1. A call that is out of memory fails, too, and so does a
/// read or a write without a connection.
#[derive(Drop)]
pub struct MemoryDoor {
    lines: Connections,
    connections: Vec<Vec<u8>>,
    accept_fails: Vec<u64>,
    accepts: u64,
    accept_faults: u64,
    closings: u64,
    alloc: Global,
}

impl Model for MemoryDoor {
    ghost use Rattle.std.specs.Prelude.{map};
    ghost use Rattle.fsl_outside.specs.Dials.{MemoryAccepts};

    ghost Value = { MemoryAccepts };

    ghost view = { λ s. record {
      lines = s.lines;
      connections = map (λ v. v.items) s.connections.items;
      accept_fails = s.accept_fails.items;
      accepts = s.accepts;
      accept_faults = s.accept_faults;
      closings = s.closings;
    } };
}

impl MemoryDoor {
    /// Returns a door that has accepted no connection. Its reads and writes, and its accepts, of these numbers fail.
    pub fn new(
        alloc: Global,
        connections: Vec<Vec<u8>>,
        fails: Vec<u64>,
        accept_fails: Vec<u64>,
    ) -> MemoryDoor
        ensures { result ≡ record {
          lines = none_yet fails.items;
          connections = map (λ v. v.items) connections.items;
          accept_fails = accept_fails.items;
          accepts = 0;
          accept_faults = 0;
          closings = 0;
        } }
    {
        MemoryDoor {
            lines: Connections::new(alloc, fails),
            connections,
            accept_fails,
            accepts: 0,
            accept_faults: 0,
            closings: 0,
            alloc,
        }
    }

    /// Returns the bytes that a connection took, or `None` if it wasn't accepted. Connections are counted from 0.
    pub fn sent(&self, connection: u64) -> Option<&[u8]>
        ensures { SentBy self.now.lines connection result }
    {
        self.lines.sent(connection)
    }

    // Takes the next connection, if there is one more.
    fn take_next(&mut self) -> Result<Accepted, Failed>
        ensures only { self.new ≡ record self.old { lines = self.new.lines } }
        ensures gives { IfOk result (DoorGives self.old self.new.lines) }
        ensures shut { OnErr result (line_count self.old.lines < length self.old.connections) }
        ensures err { OnErr result (self.new.lines ≡ self.old.lines) }
    {
        let at = self.lines.count();
        if at >= self.connections.len() {
            return Ok(Accepted::Closed);
        }
        match self.connections[at].to_vec(self.alloc) {
            Ok(bytes) => {
                self.lines.begin(self.alloc, bytes)?;
                Ok(Accepted::Connection)
            }
            Err(_) => Err(Failed),
        }
    }
}

impl Link for MemoryDoor {
    ghost state = { λ s. door_state s };

    fn faults(&self) -> u64 {
        self.lines.faults()
    }

    fn read(&mut self, into: &mut [u8]) -> Result<usize, Failed>
        ensures bound { ReadsAtMost result into.new }
        ensures moves { LinkReads self.old.lines.present self.new.lines.present result into.new }
        ensures cause { HasCause self.old.lines.faults self.new.lines.faults result }
        ensures counted { OnErr result (self.new.lines.faults ≡ next self.old.lines.faults) }
        ensures only { self.new ≡ record self.old { lines = self.new.lines } }
        ensures call { IsOneCall self.old.lines self.new.lines }
        ensures told { Contains self.old.lines.fails (next self.old.lines.calls) → IsErr result }
        ensures none { IsNone self.old.lines.present → IsErr result }
        ensures serves { IsErr result → IsSome self.old.lines.present → Contains self.old.lines.fails (next self.old.lines.calls) }
        ensures most { IfOk result (λ n. IfSome self.old.lines.present (λ c. n ≡ min (length into.old) (length c.left))) }
    {
        self.lines.read(into)
    }

    fn write(&mut self, piece: &[u8]) -> Result<usize, Failed>
        ensures bound { WritesAtMost result piece.now }
        ensures some { IfOk result (λ n. 0 < length piece.now → 0 < n) }
        ensures moves { LinkWrites self.old.lines.present self.new.lines.present result piece.now }
        ensures cause { HasCause self.old.lines.faults self.new.lines.faults result }
        ensures counted { OnErr result (self.new.lines.faults ≡ next self.old.lines.faults) }
        ensures only { self.new ≡ record self.old { lines = self.new.lines } }
        ensures call { IsOneCall self.old.lines self.new.lines }
        ensures told { Contains self.old.lines.fails (next self.old.lines.calls) → IsErr result }
        ensures none { IsNone self.old.lines.present → IsErr result }
        ensures whole { IfOk result (λ n. n ≡ length piece.now) }
    {
        self.lines.write(piece)
    }
}

impl Door for MemoryDoor {
    fn accept_faults(&self) -> u64 {
        self.accept_faults
    }

    fn closings(&self) -> u64 {
        self.closings
    }

    fn accept(&mut self) -> Result<Accepted, Failed>
        ensures lists { IfOk result (AcceptLists (door_state self.old) (door_state self.new)) }
        ensures counts { AcceptCounts result (door_standing self.old) (door_standing self.new) }
        ensures failed { OnErr result (self.new.accept_faults ≡ next self.old.accept_faults) }
        ensures closed { IfOk result (λ a. a ≡ accepted.Closed → self.new.closings ≡ next self.old.closings) }
        ensures kept { OnErr result (self.new.lines ≡ self.old.lines) }
        ensures same { self.new.lines.faults ≡ self.old.lines.faults }
        ensures gives { IfOk result (DoorGives self.old self.new.lines) }
        ensures calls { self.new.accepts ≡ next self.old.accepts }
        ensures fails { self.new.accept_fails ≡ self.old.accept_fails }
        ensures connections { self.new.connections ≡ self.old.connections }
        ensures told { Contains self.old.accept_fails (next self.old.accepts) → IsErr result }
        // Behind the last connection it fails only if its number is listed, and else is closed.
        ensures shut { IsErr result → length self.old.connections ≤ line_count self.old.lines → Contains self.old.accept_fails (next self.old.accepts) }
    {
        self.accepts = self.accepts.saturating_add(1);
        if self.accept_fails.contains(&self.accepts) {
            self.accept_faults = self.accept_faults.saturating_add(1);
            return Err(Failed);
        }
        match self.take_next() {
            Ok(Accepted::Connection) => Ok(Accepted::Connection),
            Ok(Accepted::Closed) => {
                self.closings = self.closings.saturating_add(1);
                Ok(Accepted::Closed)
            }
            Err(_) => {
                self.accept_faults = self.accept_faults.saturating_add(1);
                Err(Failed)
            }
        }
    }

    /// Leaves everything as it is: nobody waits at the other side.
    fn leave(&mut self)
        ensures same { self.new ≡ self.old }
    {}
}
