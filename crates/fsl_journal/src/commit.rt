//! Writes one group behind the closed gate at the end of a file, and then opens that gate.
ghost use Rattle.std.specs.Prelude.{◌≡◌, ◌==◌, if◌then◌else◌, ◌+◌, ◌^◌, ◌<◌, ◌++◌, ℕ, List, length, IsTrue, Some, OnOk};
ghost use Rattle.fsl_order.specs.Causes.{HasCause};
ghost use Rattle.fsl_disk.specs.Disk.{DiskState, Told, Keeps, Only, LeavesOnly, Begins};
ghost use Rattle.fsl_journal.specs.Commit.{body_of, gated, marked, carried, HeldOrGated, HeldOrMarked, OnTheWay, HeldOrCarried, EndsAt};
ghost use Rattle.fsl_journal.specs.File.{mark_1, mark_2};

use crate::reading::{MARK_1, MARK_2};
use fsl_disk::Disk;
use fsl_outside::Failed;

/// The byte of an open gate.
pub(crate) const OPEN: u8 = b'O';

/// The closed gate that is written.
const CLOSED: u8 = b'C';

/// Where the mark of the version stands in the header.
const MARK_AT: u64 = 13;

/// Writes a length, the bytes and a closed gate behind the closed gate at this place. None of it is stable yet.
fn write_body<D: Disk>(disk: &mut D, place: u64, bytes: &[u8]) -> Result<(), Failed>
    requires fits { place < 2 ^ 63 }
    requires ends { EndsAt place (D.state disk.old) }
    ensures fits { OnOk result (place + 1 + length (body_of bytes.now) < 2 ^ 63) }
    ensures contents { OnOk result (Told (D.state disk.old) (λ held. (D.state disk.new).contents ≡ Some (held ++ body_of bytes.now))) }
    ensures any_moment { IsTrue (D.state disk.old).is_model → Told (D.state disk.old) (λ held. LeavesOnly (D.state disk.old) (D.state disk.new) (Begins held)) }
    ensures keeps { Keeps (D.state disk.old) (D.state disk.new) }
    ensures cause { HasCause (D.state disk.old).faults (D.state disk.new).faults result }
{
    let head = (bytes.len() as u64).to_be_bytes();
    disk.write_at(place + 1, &head)?;
    disk.write_at(place + 9, bytes)?;
    disk.write_at(place + 9 + bytes.len() as u64, &[CLOSED])
}

/// Writes the group of these bytes behind the closed gate at this place, makes it stable, opens the gate, and makes
/// this stable too.
pub(crate) fn write_group<D: Disk>(disk: &mut D, place: u64, bytes: &[u8]) -> Result<(), Failed>
    requires fits { place < 2 ^ 63 }
    requires ends { EndsAt place (D.state disk.old) }

    ensures fits { OnOk result (place + 1 + length (body_of bytes.now) < 2 ^ 63) }
    ensures contents { OnOk result (Told (D.state disk.old) (λ held. (D.state disk.new).contents ≡ Some (gated held place 79 (body_of bytes.now)))) }
    ensures durable { OnOk result (IsTrue (D.state disk.old).is_model → Told (D.state disk.old) (λ held. Only (gated held place 79 (body_of bytes.now)) (D.state disk.new).images)) }

    // At each moment of the call, and after it.
    ensures any_moment { IsTrue (D.state disk.old).is_model → Told (D.state disk.old) (λ held. LeavesOnly (D.state disk.old) (D.state disk.new) (HeldOrGated held place (body_of bytes.now))) }
    ensures keeps { Keeps (D.state disk.old) (D.state disk.new) }
    ensures cause { HasCause (D.state disk.old).faults (D.state disk.new).faults result }
{
    write_body(disk, place, bytes)?;
    disk.sync()?;
    disk.write_at(place, &[OPEN])?;
    disk.sync()
}

/// Writes the mark of version 2 into the header, and makes it stable.
fn write_mark<D: Disk>(disk: &mut D, place: u64) -> Result<(), Failed>
    requires header { 13 < place }
    requires ends { EndsAt place (D.state disk.old) }
    ensures contents { OnOk result (Told (D.state disk.old) (λ held. (D.state disk.new).contents ≡ Some (marked mark_2 held))) }
    ensures ends { OnOk result (EndsAt place (D.state disk.new)) }
    ensures any_moment { IsTrue (D.state disk.old).is_model → Told (D.state disk.old) (λ held. LeavesOnly (D.state disk.old) (D.state disk.new) (HeldOrMarked held)) }
    ensures keeps { Keeps (D.state disk.old) (D.state disk.new) }
    ensures cause { HasCause (D.state disk.old).faults (D.state disk.new).faults result }
{
    let _place = place;
    disk.write_at(MARK_AT, &[MARK_2])?;
    disk.sync()
}

/// The mark of a file that is carried over to version 2.
pub(crate) fn carried_mark(mark: u8) -> u8
    ensures { result ≡ (if mark == mark_1 then mark_2 else mark) }
{
    if mark == MARK_1 { MARK_2 } else { mark }
}

/// Carries a file over to version 2 whose mark is that of version 1. Another file stays.
fn carry_over<D: Disk>(disk: &mut D, mark: u8, place: u64) -> Result<(), Failed>
    requires header { 13 < place }
    requires ends { EndsAt place (D.state disk.old) }
    ensures contents { OnOk result (Told (D.state disk.old) (λ held. (D.state disk.new).contents ≡ Some (carried mark held))) }
    ensures ends { OnOk result (EndsAt place (D.state disk.new)) }
    ensures any_moment { IsTrue (D.state disk.old).is_model → Told (D.state disk.old) (λ held. LeavesOnly (D.state disk.old) (D.state disk.new) (OnTheWay mark held)) }
    ensures keeps { Keeps (D.state disk.old) (D.state disk.new) }
    ensures cause { HasCause (D.state disk.old).faults (D.state disk.new).faults result }
{
    if mark != MARK_1 {
        return Ok(());
    }
    write_mark(disk, place)
}

/// Carries a file over to version 2, and then writes the group of these bytes behind the closed gate at this place, as
/// `write_group` does.
pub(crate) fn write_commit<D: Disk>(
    disk: &mut D,
    mark: u8,
    place: u64,
    bytes: &[u8],
) -> Result<(), Failed>
    requires header { 13 < place }
    requires fits { place < 2 ^ 63 }
    requires ends { EndsAt place (D.state disk.old) }

    ensures fits { OnOk result (place + 1 + length (body_of bytes.now) < 2 ^ 63) }
    ensures contents { OnOk result (Told (D.state disk.old) (λ held. (D.state disk.new).contents ≡ Some (gated (carried mark held) place 79 (body_of bytes.now)))) }
    ensures durable { OnOk result (IsTrue (D.state disk.old).is_model → Told (D.state disk.old) (λ held. Only (gated (carried mark held) place 79 (body_of bytes.now)) (D.state disk.new).images)) }

    // At each moment of the call, and after it.
    ensures any_moment { IsTrue (D.state disk.old).is_model → Told (D.state disk.old) (λ held. LeavesOnly (D.state disk.old) (D.state disk.new) (HeldOrCarried mark held place (body_of bytes.now))) }
    ensures keeps { Keeps (D.state disk.old) (D.state disk.new) }
    ensures cause { HasCause (D.state disk.old).faults (D.state disk.new).faults result }
{
    carry_over(disk, mark, place)?;
    write_group(disk, place, bytes)
}
