//! Objects over memory, which fail at listed calls.
ghost use Rattle.std.specs.Prelude.{◌≡◌, ◌↔◌, ◌<◌, ◌≤◌, min, length, IsErr, IfOk, OnErr, Some, [], Contains};
ghost use Rattle.std.specs.Io.{ReadsAtMost, WritesAtMost};
ghost use Rattle.std.specs.Io.KnownBytes.{ReadConsumes, WriteAppends};
ghost use Rattle.fsl_order.specs.Causes.{HasCause};
ghost use Rattle.fsl_outside.specs.Memory.{next};

use super::outside::{Failed, Sink, Source};
use std::alloc::Global;
use std::marker::Model;

/// A source over bytes. `fails` lists the numbers of the calls that fail, counted from 1.
#[derive(Drop)]
pub struct MemorySource {
    bytes: Vec<u8>,
    at: usize,
    fails: Vec<u64>,
    calls: u64,
    faults: u64,
}

impl Model for MemorySource {
    ghost use Rattle.std.specs.Prelude.{◌≤◌, drop, length};
    ghost use Rattle.fsl_outside.specs.Memory.{MemoryIn};

    ghost Value = { MemoryIn };

    ghost view = { λ s. record { left = drop s.at s.bytes.items; fails = s.fails.items; calls = s.calls; faults = s.faults } };

    ghost invariant = { λ s. s.at ≤ length s.bytes.items };
}

impl MemorySource {
    /// Returns a source that gives these bytes. Its calls of these numbers fail.
    pub fn new(bytes: Vec<u8>, fails: Vec<u64>) -> MemorySource
        ensures { result ≡ record { left = bytes.items; fails = fails.items; calls = 0; faults = 0 } }
    {
        MemorySource {
            bytes,
            at: 0,
            fails,
            calls: 0,
            faults: 0,
        }
    }
}

impl Source for MemorySource {
    ghost state = { λ s. record { left = Some s.left; faults = s.faults } };

    fn faults(&self) -> u64 {
        self.faults
    }

    fn read(&mut self, into: &mut [u8]) -> Result<usize, Failed>
        ensures bound { ReadsAtMost result into.new }
        ensures bytes { ReadConsumes (Some self.old.left) (Some self.new.left) result into.new }
        ensures cause { HasCause self.old.faults self.new.faults result }
        ensures calls { self.new.calls ≡ next self.old.calls }
        ensures fails { self.new.fails ≡ self.old.fails }
        ensures told { IsErr result ↔ Contains self.old.fails (next self.old.calls) }
        ensures most { IfOk result (λ n. n ≡ min (length into.old) (length self.old.left)) }
    {
        self.calls = self.calls.saturating_add(1);
        if self.fails.contains(&self.calls) {
            self.faults = self.faults.saturating_add(1);
            return Err(Failed);
        }
        let rest = &self.bytes[self.at..];
        let count = into.len().min(rest.len());
        into[..count].copy_from_slice(&rest[..count]);
        self.at += count;
        Ok(count)
    }
}

/// A sink that keeps what it takes. `fails` lists the numbers of the calls that fail, counted from 1. A call that is out of
/// memory fails, too.
#[derive(Drop)]
pub struct MemorySink {
    bytes: Vec<u8>,
    fails: Vec<u64>,
    calls: u64,
    faults: u64,
}

impl Model for MemorySink {
    ghost use Rattle.fsl_outside.specs.Memory.{MemoryOut};

    ghost Value = { MemoryOut };

    ghost view = { λ s. record { taken = s.bytes.items; fails = s.fails.items; calls = s.calls; faults = s.faults } };
}

impl MemorySink {
    /// Returns a sink that has taken nothing. Its calls of these numbers fail.
    pub fn new(alloc: Global, fails: Vec<u64>) -> MemorySink
        ensures { result ≡ record { taken = []; fails = fails.items; calls = 0; faults = 0 } }
    {
        MemorySink {
            bytes: Vec::new(alloc),
            fails,
            calls: 0,
            faults: 0,
        }
    }

    /// Returns the bytes that it took.
    pub fn taken(&self) -> &[u8]
        ensures { result.now ≡ self.now.taken }
    {
        self.bytes.as_slice()
    }

    fn fail(&mut self) -> Failed
        ensures counted { self.new ≡ record self.old { faults = next self.old.faults } }
        ensures later { self.old.faults ≤ self.new.faults }
    {
        self.faults = self.faults.saturating_add(1);
        Failed
    }
}

impl Sink for MemorySink {
    ghost state = { λ s. record { taken = Some s.taken; faults = s.faults } };

    fn faults(&self) -> u64 {
        self.faults
    }

    fn write(&mut self, piece: &[u8]) -> Result<usize, Failed>
        ensures bound { WritesAtMost result piece.now }
        ensures some { IfOk result (λ n. 0 < length piece.now → 0 < n) }
        ensures bytes { WriteAppends (Some self.old.taken) (Some self.new.taken) result piece.now }
        ensures cause { HasCause self.old.faults self.new.faults result }
        ensures calls { self.new.calls ≡ next self.old.calls }
        ensures fails { self.new.fails ≡ self.old.fails }
        ensures told { Contains self.old.fails (next self.old.calls) → IsErr result }
        ensures whole { IfOk result (λ n. n ≡ length piece.now) }
    {
        self.calls = self.calls.saturating_add(1);
        if self.fails.contains(&self.calls) {
            return Err(self.fail());
        }
        match self.bytes.extend_from_slice(piece) {
            Ok(()) => Ok(piece.len()),
            Err(_) => Err(self.fail()),
        }
    }
}
