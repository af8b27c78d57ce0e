//! Reads the contents of records again.
ghost use Rattle.std.specs.Prelude.{◌≡◌, ◌+◌, ◌≤◌, ◌<◌, ◌^◌, length, take, drop, IfOk, OnOk, IfErr};
ghost use Rattle.fsl_disk.specs.Disk.{DiskState, Told, Quiet};
ghost use Rattle.fsl_journal.specs.Journal.{BytesFailed};
ghost use Rattle.fsl_journal.specs.declared.BytesFault.TheVariants as bytes_fault;

use crate::BytesFault;
use fsl_disk::Disk;
use fsl_text::Text;
use std::alloc::Global;

/// A copy of so many bytes from `start` on.
pub(crate) fn copy_part(
    alloc: Global,
    bytes: &[u8],
    start: usize,
    size: usize,
) -> Result<Text, BytesFault>
    requires inside { start + size ≤ length bytes.now }
    ensures ok { IfOk result (λ text. text ≡ take size (drop start bytes.now)) }
    ensures fault { IfErr result (λ fault. fault ≡ bytes_fault.Memory) }
{
    let part = &bytes[start..start + size];
    Ok(Text::of(alloc, part)?)
}

/// The bytes of a file from this place on.
pub(crate) fn read_text<D: Disk>(
    alloc: Global,
    disk: &mut D,
    at: u64,
    size: u64,
) -> Result<Text, BytesFault>
    requires inside { Told (D.state disk.old) (λ held. at + size ≤ length held) }
    ensures sized { IfOk result (λ text. length text ≡ size) }
    ensures held { IfOk result (λ text. Told (D.state disk.old) (λ held. text ≡ take size (drop at held))) }
    ensures count { OnOk result ((D.state disk.new).faults ≡ (D.state disk.old).faults) }
    ensures later { (D.state disk.old).faults ≤ (D.state disk.new).faults }
    ensures fault { IfErr result (λ fault. BytesFailed fault (D.state disk.old) (D.state disk.new)) }
    ensures quiet { Quiet (D.state disk.old) (D.state disk.new) }
{
    let mut bytes = vec![in alloc; 0; size as usize]?;
    disk.read_at(at, &mut bytes)?;
    Ok(Text::from_vec(bytes))
}

/// The bytes of a file from this place on, where it has as many.
pub(crate) fn read_if_there<D: Disk>(
    alloc: Global,
    disk: &mut D,
    at: u64,
    size: u64,
) -> Result<Text, BytesFault>
    requires fits { at + size < 2 ^ 64 }
    ensures sized { IfOk result (λ text. length text ≡ size) }
    ensures held { IfOk result (λ text. Told (D.state disk.old) (λ held. text ≡ take size (drop at held))) }
    ensures count { OnOk result ((D.state disk.new).faults ≡ (D.state disk.old).faults) }
    ensures later { (D.state disk.old).faults ≤ (D.state disk.new).faults }
    ensures fault { IfErr result (λ fault. BytesFailed fault (D.state disk.old) (D.state disk.new)) }
    ensures quiet { Quiet (D.state disk.old) (D.state disk.new) }
{
    let len = disk.len()?;
    if at + size > len {
        return Err(BytesFault::Memory);
    }
    read_text(alloc, disk, at, size)
}
