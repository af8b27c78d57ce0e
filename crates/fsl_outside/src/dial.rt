//! A dial over memory, which fails at listed calls.
ghost use Rattle.std.specs.Prelude.{◌≡◌, ◌<◌, length, min, map, Contains, IsErr, IsNone, IsSome, IfSome, IfOk, OnOk, OnErr};
ghost use Rattle.std.specs.Io.{ReadsAtMost, WritesAtMost};
ghost use Rattle.fsl_order.specs.Causes.{HasCause};
ghost use Rattle.fsl_outside.specs.Memory.{next};
ghost use Rattle.fsl_outside.specs.Connections.{LinkReads, LinkWrites};
ghost use Rattle.fsl_outside.specs.Accepts.{Begins};
ghost use Rattle.fsl_outside.specs.Lines.{none_yet, line_count, called, refused, begin, IsOneCall, SentBy};
ghost use Rattle.fsl_outside.specs.Dials.{dial_state, reply_at};

use super::lines::Connections;
use super::link::{Dial, Link};
use super::outside::Failed;
use std::alloc::Global;
use std::marker::Model;

/// A dial over memory. Each connection gives the next reply, and the last one again once all are given. Without any reply it
/// gives no byte. `fails` lists the numbers of the calls that fail, counted from 1. A call that is out of memory fails, too, and
/// so does a read or a write without a connection.
#[derive(Drop)]
pub struct MemoryDial {
    lines: Connections,
    replies: Vec<Vec<u8>>,
    alloc: Global,
}

impl Model for MemoryDial {
    ghost use Rattle.std.specs.Prelude.{map};
    ghost use Rattle.fsl_outside.specs.Dials.{MemoryCalls};

    ghost Value = { MemoryCalls };

    ghost view = { λ s. record { lines = s.lines; replies = map (λ v. v.items) s.replies.items } };
}

impl MemoryDial {
    /// Returns a dial that has begun no connection. Its calls of these numbers fail.
    pub fn new(alloc: Global, replies: Vec<Vec<u8>>, fails: Vec<u64>) -> MemoryDial
        ensures { result ≡ record { lines = none_yet fails.items; replies = map (λ v. v.items) replies.items } }
    {
        MemoryDial {
            lines: Connections::new(alloc, fails),
            replies,
            alloc,
        }
    }

    /// Returns the bytes that a connection took, or `None` if it wasn't begun. Connections are counted from 0.
    pub fn sent(&self, connection: u64) -> Option<&[u8]>
        ensures { SentBy self.now.lines connection result }
    {
        self.lines.sent(connection)
    }

    // Returns the bytes of the next connection.
    fn next_reply(&self) -> Result<Vec<u8>, Failed>
        ensures { IfOk result (λ bytes. bytes.items ≡ reply_at self.now.replies (line_count self.now.lines)) }
    {
        if self.replies.is_empty() {
            return Ok(Vec::new(self.alloc));
        }
        let at = self.lines.count().min(self.replies.len() - 1);
        match self.replies[at].to_vec(self.alloc) {
            Ok(bytes) => Ok(bytes),
            Err(_) => Err(Failed),
        }
    }

    // Begins the next connection.
    fn begin(&mut self) -> Result<(), Failed>
        ensures ok { OnOk result (self.new.lines ≡ begin self.old.lines (reply_at self.old.replies (line_count self.old.lines))) }
        ensures err { OnErr result (self.new.lines ≡ self.old.lines) }
        ensures replies { self.new.replies ≡ self.old.replies }
    {
        let bytes = self.next_reply()?;
        self.lines.begin(self.alloc, bytes)
    }
}

impl Link for MemoryDial {
    ghost state = { λ s. dial_state s };

    fn faults(&self) -> u64 {
        self.lines.faults()
    }

    fn read(&mut self, into: &mut [u8]) -> Result<usize, Failed>
        ensures bound { ReadsAtMost result into.new }
        ensures moves { LinkReads self.old.lines.present self.new.lines.present result into.new }
        ensures cause { HasCause self.old.lines.faults self.new.lines.faults result }
        ensures counted { OnErr result (self.new.lines.faults ≡ next self.old.lines.faults) }
        ensures only { IsOneCall self.old.lines self.new.lines }
        ensures replies { self.new.replies ≡ self.old.replies }
        ensures told { Contains self.old.lines.fails (next self.old.lines.calls) → IsErr result }
        ensures none { IsNone self.old.lines.present → IsErr result }
        ensures serves { IsErr result → IsSome self.old.lines.present → Contains self.old.lines.fails (next self.old.lines.calls) }
        ensures most { IfOk result (λ n. IfSome self.old.lines.present (λ c. n ≡ min (length into.old) (length c.left))) }
    {
        self.lines.read(into)
    }

    fn write(&mut self, piece: &[u8]) -> Result<usize, Failed>
        ensures bound { WritesAtMost result piece.now }
        ensures some { IfOk result (λ n. 0 < length piece.now → 0 < n) }
        ensures moves { LinkWrites self.old.lines.present self.new.lines.present result piece.now }
        ensures cause { HasCause self.old.lines.faults self.new.lines.faults result }
        ensures counted { OnErr result (self.new.lines.faults ≡ next self.old.lines.faults) }
        ensures only { IsOneCall self.old.lines self.new.lines }
        ensures replies { self.new.replies ≡ self.old.replies }
        ensures told { Contains self.old.lines.fails (next self.old.lines.calls) → IsErr result }
        ensures none { IsNone self.old.lines.present → IsErr result }
        ensures whole { IfOk result (λ n. n ≡ length piece.now) }
    {
        self.lines.write(piece)
    }
}

impl Dial for MemoryDial {
    fn connect(&mut self) -> Result<(), Failed>
        ensures begins { OnOk result (Begins (dial_state self.old) (dial_state self.new)) }
        ensures gives { OnOk result (self.new.lines ≡ begin (called self.old.lines) (reply_at self.old.replies (line_count self.old.lines))) }
        ensures kept { OnErr result (self.new.lines ≡ refused self.old.lines) }
        ensures replies { self.new.replies ≡ self.old.replies }
        ensures cause { HasCause self.old.lines.faults self.new.lines.faults result }
        ensures fails { Contains self.old.lines.fails (next self.old.lines.calls) → IsErr result }
    {
        match self.lines.call() {
            Ok(()) => {}
            Err(_) => return Err(self.lines.refuse()),
        }
        match self.begin() {
            Ok(()) => Ok(()),
            Err(_) => Err(self.lines.refuse()),
        }
    }
}
