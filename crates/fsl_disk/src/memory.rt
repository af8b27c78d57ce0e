ghost use Rattle.std.specs.Prelude.{◌≡◌, ◌↔◌, ◌+◌, ◌^◌, ◌<◌, ◌≤◌, ◌∷◌, [], ℕ, List, length, take, drop, IsTrue, IsErr, IfOk, OnErr, OnOk, Some, Contains};
ghost use Rattle.fsl_order.specs.Causes.{HasCause};
ghost use Rattle.fsl_outside.specs.Memory.{next};
ghost use Rattle.fsl_disk.specs.Disk.{Told, Calls, Same, Torn, CutShort, Only, written};
ghost use Rattle.fsl_disk.specs.Change.{Leaves, stable};
ghost use Rattle.fsl_disk.specs.Images.{IsImage};
ghost use Rattle.fsl_disk.specs.Memory.{held, memory_state, memory_reads, memory_counts, memory_only};

use crate::Disk;
use crate::disk::MAX_LEN;
use crate::history::History;
use fsl_outside::Failed;
use fsl_text::Memory;
use std::alloc::Global;
use std::marker::Model;

/// A disk in memory. It meets the disk model, and keeps a record of its writes, cuts and syncs, so that it can tell of
/// every moment.
///
/// `fails` has the numbers of the calls that fail, counted from 1. Of a write or a cut that fails so, a half is done. A
/// growth that finds no memory is a failed call, too.
#[derive(Drop)]
pub struct MemoryDisk {
    history: History,
    fails: Vec<u64>,
    made: u64,
    faults: u64,
}

impl Model for MemoryDisk {
    ghost use Rattle.fsl_disk.specs.Memory.{InMemory};

    ghost Value = { InMemory };

    ghost view = { λ d. record { first = d.history.first; past = d.history.changes; fails = d.fails.items; made = d.made; faults = d.faults } };
}

impl MemoryDisk {
    /// Makes a disk with these bytes, all of them stable. Its calls of these numbers fail.
    pub fn new(alloc: Global, bytes: Vec<u8>, fails: Vec<u64>) -> MemoryDisk
        ensures { result ≡ record { first = bytes.items; past = []; fails = fails.items; made = 0; faults = 0 } }
    {
        MemoryDisk {
            history: History::new(alloc, bytes),
            fails,
            made: 0,
            faults: 0,
        }
    }

    /// Returns what a read gives.
    pub fn bytes(&self) -> &[u8]
        ensures { result.now ≡ held self.now }
    {
        self.history.bytes()
    }

    /// Says place by place what a crash may leave now. It has no code.
    pub fn images_are_by_place(&self)
        ensures { (c : List ℕ) → (memory_state self.now).images c ↔ IsImage self.now.first self.now.past c }
    {
        self.history.are_inside();
    }

    /// Makes a disk with what a crash may leave now, all of it stable. None of its calls is to fail. For 0 it has the bytes
    /// of the last sync, or of the beginning, and for 1 what a read gives. Each other `pick` takes some of the changes since,
    /// leaves some out, and does some in part, with other bytes in the places behind.
    ///
    /// Errors: `Memory` where there was none for these bytes.
    pub fn crash(&self, alloc: Global, pick: u64) -> Result<MemoryDisk, Memory>
        ensures fresh { IfOk result (λ disk. disk ≡ record { first = held disk; past = []; fails = []; made = 0; faults = 0 }) }
        ensures image { IfOk result (λ disk. (memory_state self.now).images (held disk)) }
        ensures stable { pick ≡ 0 → IfOk result (λ disk. held disk ≡ stable self.now.first self.now.past) }
        ensures reads { pick ≡ 1 → IfOk result (λ disk. held disk ≡ held self.now) }
    {
        let bytes = self.history.crashed(alloc, pick)?;
        Ok(MemoryDisk::new(alloc, bytes, Vec::new(alloc)))
    }
}

// Counts a call. Whether it is one that is to fail.
fn admit(made: &mut u64, fails: &[u64]) -> bool
    ensures made { made.new ≡ next made.old }
    ensures told { IsTrue result ↔ Contains fails.now (next made.old) }
{
    *made = made.saturating_add(1);
    fails.contains(made)
}

// Counts a fault.
fn fail(faults: &mut u64) -> Failed
    ensures counted { faults.new ≡ next faults.old }
    ensures later { faults.old ≤ faults.new }
{
    *faults = faults.saturating_add(1);
    Failed
}

impl Disk for MemoryDisk {
    ghost state = { memory_state };

    ghost reads_as_image = { λ d bytes model told. memory_reads d.first d.past bytes told };

    ghost counts_now = { λ d t c model le now. memory_counts d.first d.past t c now };

    ghost only_now = { λ d c model left. memory_only d.first d.past c left };

    fn faults(&self) -> u64 {
        self.faults
    }

    fn len(&mut self) -> Result<u64, Failed>
        ensures answer { IfOk result (λ len. (len < 2 ^ 63) × Told (memory_state self.old) (λ held. len ≡ length held)) }
        ensures contents { (memory_state self.new).contents ≡ (memory_state self.old).contents }
        ensures call { Calls Same (memory_state self.old) (memory_state self.new) }
        ensures cause { HasCause self.old.faults self.new.faults result }
        ensures made { (self.new.made ≡ next self.old.made) × (self.new.fails ≡ self.old.fails) }
        ensures told { IsErr result ↔ Contains self.old.fails (next self.old.made) }
    {
        if admit(&mut self.made, &self.fails) {
            return Err(fail(&mut self.faults));
        }
        Ok(self.history.bytes().len() as u64)
    }

    fn read_at(&mut self, at: u64, into: &mut [u8]) -> Result<(), Failed>
        requires { Told (memory_state self.old) (λ held. at + length into.old ≤ length held) }
        ensures answer { OnOk result (Told (memory_state self.old) (λ held. into.new ≡ take (length into.old) (drop at held))) }
        ensures contents { (memory_state self.new).contents ≡ (memory_state self.old).contents }
        ensures call { Calls Same (memory_state self.old) (memory_state self.new) }
        ensures cause { HasCause self.old.faults self.new.faults result }
        ensures made { (self.new.made ≡ next self.old.made) × (self.new.fails ≡ self.old.fails) }
        ensures told { IsErr result ↔ Contains self.old.fails (next self.old.made) }
    {
        if admit(&mut self.made, &self.fails) {
            return Err(fail(&mut self.faults));
        }
        let from = at as usize;
        into.copy_from_slice(&self.history.bytes()[from..from + into.len()]);
        Ok(())
    }

    fn write_at(&mut self, at: u64, bytes: &[u8]) -> Result<(), Failed>
        requires { Told (memory_state self.old) (λ held. at ≤ length held) }
        ensures fits { OnOk result (at + length bytes.now < 2 ^ 63) }
        ensures written { OnOk result (Told (memory_state self.old) (λ held. (memory_state self.new).contents ≡ Some (written at bytes.now held))) }
        ensures call { Calls (Torn at (length bytes.now)) (memory_state self.old) (memory_state self.new) }
        ensures cause { HasCause self.old.faults self.new.faults result }
        ensures made { (self.new.made ≡ next self.old.made) × (self.new.fails ≡ self.old.fails) }
        ensures told { Contains self.old.fails (next self.old.made) → IsErr result }
    {
        let stops = admit(&mut self.made, &self.fails);
        if at >= MAX_LEN || bytes.len() as u64 >= MAX_LEN - at {
            return Err(fail(&mut self.faults));
        }
        let done = if stops { bytes.len() / 2 } else { bytes.len() };
        match self.history.write(at, &bytes[..done], bytes.len() as u64) {
            Ok(()) if !stops => Ok(()),
            _ => Err(fail(&mut self.faults)),
        }
    }

    fn cut(&mut self, len: u64) -> Result<(), Failed>
        requires { Told (memory_state self.old) (λ held. len ≤ length held) }
        ensures cut { OnOk result (Told (memory_state self.old) (λ held. (memory_state self.new).contents ≡ Some (take len held))) }
        ensures call { Calls (CutShort len) (memory_state self.old) (memory_state self.new) }
        ensures cause { HasCause self.old.faults self.new.faults result }
        ensures made { (self.new.made ≡ next self.old.made) × (self.new.fails ≡ self.old.fails) }
        ensures told { Contains self.old.fails (next self.old.made) → IsErr result }
    {
        let stops = admit(&mut self.made, &self.fails);
        let away = self.history.bytes().len() as u64 - len;
        let left = if stops { len + away / 2 } else { len };
        match self.history.cut(len, left) {
            Ok(()) if !stops => Ok(()),
            _ => Err(fail(&mut self.faults)),
        }
    }

    fn sync(&mut self) -> Result<(), Failed>
        ensures durable { OnOk result (IsTrue (memory_state self.old).is_model → Told (memory_state self.old) (λ held. Only held (memory_state self.new).images)) }
        ensures contents { (memory_state self.new).contents ≡ (memory_state self.old).contents }
        ensures call { Calls Same (memory_state self.old) (memory_state self.new) }
        ensures cause { HasCause self.old.faults self.new.faults result }
        ensures made { (self.new.made ≡ next self.old.made) × (self.new.fails ≡ self.old.fails) }
        ensures told { Contains self.old.fails (next self.old.made) → IsErr result }
    {
        if admit(&mut self.made, &self.fails) {
            return Err(fail(&mut self.faults));
        }
        match self.history.sync() {
            Ok(()) => Ok(()),
            Err(_) => Err(fail(&mut self.faults)),
        }
    }
}
