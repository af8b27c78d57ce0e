//! Reads a part of a file at once, so that small groups take few reads.
ghost use Rattle.std.specs.Prelude.{◌≡◌, ◌+◌, ◌-◌, ◌≤◌, ◌^◌, ◌<◌, length, take, drop, min, true, IfOk, IfErr, OnOk};
ghost use Rattle.fsl_disk.specs.Disk.{DiskState, Told, Quiet};
ghost use Rattle.fsl_journal.specs.Reading.{Holds, Covers, ReadFailed};

use crate::contents::read_text;
use crate::{BytesFault, LoadFault};
use fsl_disk::Disk;
use fsl_text::Text;
use std::alloc::Global;

/// So many bytes are read at once. What is longer is read by itself.
pub(crate) const MOST: u64 = 65_536;

/// A part of a file that was read at once.
#[derive(Drop)]
pub(crate) struct Window {
    /// The length of the file.
    pub(crate) len: u64,
    /// Where the part begins.
    pub(crate) from: u64,
    pub(crate) part: Text,
}

/// The bytes of a file from this place on.
pub(crate) fn read_part<D: Disk>(
    alloc: Global,
    disk: &mut D,
    at: u64,
    size: u64,
) -> Result<Text, LoadFault>
    requires inside { Told (D.state disk.old) (λ held. at + size ≤ length held) }
    ensures sized { IfOk result (λ part. length part ≡ size) }
    ensures held { IfOk result (λ part. Told (D.state disk.old) (λ held. part ≡ take size (drop at held))) }
    ensures count { OnOk result ((D.state disk.new).faults ≡ (D.state disk.old).faults) }
    ensures later { (D.state disk.old).faults ≤ (D.state disk.new).faults }
    ensures fault { IfErr result (λ fault. ReadFailed fault (D.state disk.old) (D.state disk.new)) }
    ensures quiet { Quiet (D.state disk.old) (D.state disk.new) }
{
    match read_text(alloc, disk, at, size) {
        Ok(part) => Ok(part),
        Err(BytesFault::Disk) => Err(LoadFault::Disk),
        Err(BytesFault::Memory) => Err(LoadFault::Memory),
    }
}

impl Window {
    /// Reads the first part of a file of this length.
    pub(crate) fn first<D: Disk>(alloc: Global, disk: &mut D, len: u64) -> Result<Window, LoadFault>
        requires held { Told (D.state disk.old) (λ held. length held ≡ len) }
        ensures len { IfOk result (λ window. window.len ≡ len) }
        ensures part { IfOk result (λ window. length window.part ≡ min 65536 len) }
        ensures held { IfOk result (λ window. Told (D.state disk.old) (λ held. window.part ≡ take (min 65536 len) held)) }
        ensures holds { IfOk result (λ window. Holds window (D.state disk.new)) }
        ensures count { OnOk result ((D.state disk.new).faults ≡ (D.state disk.old).faults) }
        ensures fault { IfErr result (λ fault. ReadFailed fault (D.state disk.old) (D.state disk.new)) }
        ensures quiet { Quiet (D.state disk.old) (D.state disk.new) }
    {
        let part = read_part(alloc, disk, 0, len.min(MOST))?;
        Ok(Window { len, from: 0, part })
    }

    /// Reads the part from this place on, unless it has so many bytes from there on already.
    pub(crate) fn cover<D: Disk>(
        &mut self,
        alloc: Global,
        disk: &mut D,
        at: u64,
        size: u64,
    ) -> Result<(), LoadFault>
        requires holds { Holds self.old (D.state disk.old) }
        requires inside { at + size ≤ self.old.len }
        requires fits { self.old.len < 2 ^ 63 }
        requires few { size ≤ 65536 }
        ensures covers { OnOk result (Covers self.new at size) }
        ensures holds { OnOk result (Holds self.new (D.state disk.new)) }
        ensures len { self.new.len ≡ self.old.len }
        ensures count { OnOk result ((D.state disk.new).faults ≡ (D.state disk.old).faults) }
        ensures fault { IfErr result (λ fault. ReadFailed fault (D.state disk.old) (D.state disk.new)) }
        ensures quiet { Quiet (D.state disk.old) (D.state disk.new) }
    {
        if self.has(at, size) {
            return Ok(());
        }
        let part = read_part(alloc, disk, at, (self.len - at).min(MOST))?;
        self.from = at;
        self.part = part;
        Ok(())
    }

    /// Whether it has so many bytes from this place on.
    fn has(&self, at: u64, size: u64) -> bool
        requires fits { at + size < 2 ^ 63 }
        ensures { result ≡ true → Covers self.now at size }
    {
        let len = self.part.bytes().len() as u64;
        self.from <= at && at - self.from <= len && size <= len - (at - self.from)
    }

    /// So many bytes from this place on, which it has.
    pub(crate) fn part(&self, at: u64, size: u64) -> &[u8]
        requires { Covers self.now at size }
        ensures { result.now ≡ take size (drop (at - self.now.from) self.now.part) }
    {
        let start = (at - self.from) as usize;
        &self.part.bytes()[start..start + size as usize]
    }
}
