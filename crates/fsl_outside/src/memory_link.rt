//! A link over memory, which fails at listed calls.
ghost use Rattle.std.specs.Prelude.{◌≡◌, ◌↔◌, ◌<◌, length, min, IsErr, IfOk, Some, Contains};
ghost use Rattle.std.specs.Io.{ReadsAtMost, WritesAtMost};
ghost use Rattle.fsl_order.specs.Causes.{HasCause};
ghost use Rattle.fsl_outside.specs.Memory.{next};
ghost use Rattle.fsl_outside.specs.Connections.{LinkReads, LinkWrites, fresh};
ghost use Rattle.fsl_outside.specs.Dials.{first_standing};

use super::lines::Line;
use super::link::Link;
use super::outside::Failed;
use std::alloc::Global;
use std::marker::Model;

/// A link over bytes. `fails` lists the numbers of the calls that fail, counted from 1. A call that is out of memory fails, too.
#[derive(Drop)]
pub struct MemoryLink {
    line: Line,
    fails: Vec<u64>,
    calls: u64,
}

impl Model for MemoryLink {
    ghost use Rattle.fsl_outside.specs.Dials.{MemoryLine};

    ghost Value = { MemoryLine };

    ghost view = { λ s. record { line = s.line; fails = s.fails.items; calls = s.calls } };
}

impl MemoryLink {
    /// Returns a link whose connection gives these bytes. Its calls of these numbers fail.
    pub fn new(alloc: Global, bytes: Vec<u8>, fails: Vec<u64>) -> MemoryLink
        ensures { result ≡ record { line = fresh bytes.items; fails = fails.items; calls = 0 } }
    {
        MemoryLink {
            line: Line::new(alloc, bytes),
            fails,
            calls: 0,
        }
    }

    /// Returns the bytes that it took.
    pub fn sent(&self) -> &[u8]
        ensures { result.now ≡ self.now.line.taken }
    {
        self.line.sent()
    }
}

impl Link for MemoryLink {
    ghost state = { λ s. record { present = Some s.line; standing = first_standing; faults = s.line.failed } };

    fn faults(&self) -> u64 {
        self.line.failed()
    }

    fn read(&mut self, into: &mut [u8]) -> Result<usize, Failed>
        ensures bound { ReadsAtMost result into.new }
        ensures moves { LinkReads (Some self.old.line) (Some self.new.line) result into.new }
        ensures cause { HasCause self.old.line.failed self.new.line.failed result }
        ensures calls { self.new.calls ≡ next self.old.calls }
        ensures fails { self.new.fails ≡ self.old.fails }
        ensures told { IsErr result ↔ Contains self.old.fails (next self.old.calls) }
        ensures most { IfOk result (λ n. n ≡ min (length into.old) (length self.old.line.left)) }
    {
        self.calls = self.calls.saturating_add(1);
        if self.fails.contains(&self.calls) {
            return Err(self.line.fail());
        }
        Ok(self.line.read(into))
    }

    fn write(&mut self, piece: &[u8]) -> Result<usize, Failed>
        ensures bound { WritesAtMost result piece.now }
        ensures some { IfOk result (λ n. 0 < length piece.now → 0 < n) }
        ensures moves { LinkWrites (Some self.old.line) (Some self.new.line) result piece.now }
        ensures cause { HasCause self.old.line.failed self.new.line.failed result }
        ensures calls { self.new.calls ≡ next self.old.calls }
        ensures fails { self.new.fails ≡ self.old.fails }
        ensures told { Contains self.old.fails (next self.old.calls) → IsErr result }
        ensures whole { IfOk result (λ n. n ≡ length piece.now) }
    {
        self.calls = self.calls.saturating_add(1);
        if self.fails.contains(&self.calls) {
            return Err(self.line.fail());
        }
        match self.line.write(piece) {
            Ok(()) => Ok(piece.len()),
            Err(_) => Err(self.line.fail()),
        }
    }
}
