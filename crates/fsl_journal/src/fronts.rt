//! Finds the front of a file that has its committed records, while another process may append to it.
ghost use Rattle.std.specs.Prelude.{◌≡◌, ◌⊎◌, ◌<◌, ◌≤◌, ◌+◌, ◌^◌, None, IfOk, IfSome, OnOk, OnErr};
ghost use Rattle.fsl_order.specs.Causes.{HasCause, Rose};
ghost use Rattle.fsl_disk.specs.Shared.{ToldOf, Sees, AreOf, IsLengthOf, ReadCause};
ghost use Rattle.fsl_journal.specs.Beside.{HasOpen, IsByteOf, IsClosedFront, IsGrowing, LeadsTo, ShowsFront};
ghost use Rattle.fsl_journal.specs.Commit.{eight};
ghost use Rattle.fsl_journal.specs.Still.{IsBehind, IsLengthOr, ShowsStill};

use crate::commit::OPEN;
use fsl_disk::{Front, Seen, Shared};
use fsl_outside::Failed;

/// The place of the mark of the version in the header.
const MARK_AT: u64 = 13;

/// The byte at this place.
fn byte_at<F: Shared>(file: &mut F, at: u64) -> Result<u8, Failed>
    ensures sees { Sees (F.state file.old) (F.state file.new) }
    ensures answer { IfOk result (λ byte. ToldOf (F.state file.old) (λ held. IsByteOf (F.state file.old) (F.state file.new) held at byte)) }
    ensures cause { ReadCause (F.state file.old) (F.state file.new) (at + 1) result }
{
    let mut byte = [0];
    file.read_at(at, &mut byte)?;
    Ok(byte[0])
}

/// The number in 8 bytes.
fn number_of(head: &[u8; 8]) -> u64
    ensures { eight result ≡ head.now }
{
    u64::from_be_bytes(*head)
}

/// The number in the 8 bytes at this place.
fn number_at<F: Shared>(file: &mut F, at: u64) -> Result<u64, Failed>
    ensures sees { Sees (F.state file.old) (F.state file.new) }
    ensures fits { IfOk result (λ number. number < 2 ^ 64) }
    ensures answer { IfOk result (λ number. ToldOf (F.state file.old) (λ held. AreOf (F.state file.old) (F.state file.new) held at (eight number))) }
    ensures cause { ReadCause (F.state file.old) (F.state file.new) (at + 8) result }
{
    let mut head = [0; 8];
    file.read_at(at, &mut head)?;
    Ok(number_of(&head))
}

/// A length of the file with a byte at this place, or its present length: the one that is known, unless it is too short.
fn len_with<F: Shared>(file: &mut F, at: u64, len: u64) -> Result<u64, Failed>
    requires { len < 2 ^ 63 }
    ensures fits { IfOk result (λ found. found < 2 ^ 63) }
    ensures answer { IfOk result (λ found. (at < found) ⊎ ToldOf (F.state file.old) (λ held. IsLengthOf (F.state file.old) (F.state file.new) held found)) }
    ensures known { IfOk result (IsLengthOr (F.state file.old) (F.state file.new) len) }
    ensures sees { Sees (F.state file.old) (F.state file.new) }
    ensures cause { HasCause (F.state file.old).faults (F.state file.new).faults result }
{
    if at < len { Ok(len) } else { file.len() }
}

/// The place of the next gate behind an open one, and a length of the file that has it. A writer opens a gate after the bytes
/// behind it, so the length is asked for after the gate. None where the group isn't whole, and the file's length.
fn next_gate<F: Shared>(file: &mut F, gate: u64, len: u64) -> Result<(Option<u64>, u64), Failed>
    requires fits { gate < 2 ^ 63 }
    requires len { len < 2 ^ 63 }
    ensures len { IfOk result (λ next. next.1 < 2 ^ 63) }
    ensures known { IfOk result (λ next. IsLengthOr (F.state file.old) (F.state file.new) len next.1) }
    ensures next { IfOk result (λ next. IfSome next.0 (λ place. (gate + 9 ≤ place) × (place < next.1))) }
    // Of a group that stays there it is the gate behind it, ..
    ensures on { IfOk result (λ next. LeadsTo (F.state file.old) gate next.0) }
    ensures behind { IfOk result (λ next. IfSome next.0 (IsBehind (F.state file.old) (F.state file.new) gate)) }
    ensures sees { Sees (F.state file.old) (F.state file.new) }
    // .. and such a group is read, unless a call of the file fails.
    ensures cause { OnErr result (HasOpen (F.state file.old) gate → Rose (F.state file.old).faults (F.state file.new).faults) }
    ensures count { OnOk result ((F.state file.new).faults ≡ (F.state file.old).faults) }
{
    let len = len_with(file, gate + 9, len)?;
    if gate + 9 >= len {
        return Ok((None, len));
    }
    let size = number_at(file, gate + 1)?;
    let place = size.saturating_add(gate + 9);
    let len = len_with(file, place, len)?;
    if place >= len {
        return Ok((None, len));
    }
    Ok((Some(place), len))
}

/// The front of a file whose first gates are open up to a closed one with this byte. It ends with that gate, and keeps it and
/// the mark as they were seen.
fn closed_at<F: Shared>(file: &mut F, gate: u64, byte: u8) -> Result<Front, Failed>
    requires { gate + 1 < 2 ^ 63 }
    ensures fits { IfOk result (λ front. front.len < 2 ^ 63) }
    ensures front { IfOk result (IsClosedFront (F.state file.old) (F.state file.new) gate byte) }
    ensures sees { Sees (F.state file.old) (F.state file.new) }
    ensures cause { ReadCause (F.state file.old) (F.state file.new) 14 result }
{
    let mark = byte_at(file, MARK_AT)?;
    Ok(Front {
        len: gate + 1,
        mark: Some(Seen {
            at: MARK_AT,
            byte: mark,
        }),
        gate: Some(Seen { at: gate, byte }),
    })
}

/// The front that has a file to this length.
fn whole(len: u64) -> Front
    requires { len < 2 ^ 63 }
    ensures fits { result.len < 2 ^ 63 }
    ensures all { result ≡ record { len = len; mark = None; gate = None } }
{
    Front {
        len,
        mark: None,
        gate: None,
    }
}

/// Finds the front of a file that has its committed records, while another process may append groups to it. The front ends
/// with the first gate that isn't open, and keeps that gate and the mark of the version as this call sees them. It reads each
/// gate before the bytes behind it. Of a file in which a group isn't whole it is all that is there.
///
/// Errors: `Failed` where a call of the file failed. A writer that appends groups, or cuts the bytes behind the closed gate,
/// is no reason.
///
/// FORMATS: The repository file
pub fn front_of<F: Shared>(file: &mut F) -> Result<Front, Failed>
    ensures fits { IfOk result (λ front. front.len < 2 ^ 63) }
    ensures sees { Sees (F.state file.old) (F.state file.new) }
    // Of a file that grows it shows what the file held at one moment of the call, and that stays.
    ensures front { IfOk result (ShowsFront (F.state file.old) (F.state file.new)) }
    // Of a file that stays in the call an opening makes of it what it makes of the file.
    ensures still { IfOk result (ShowsStill (F.state file.old) (F.state file.new)) }
    // It is never refused because of a writer.
    ensures refused { OnErr result (IsGrowing (F.state file.old) → Rose (F.state file.old).faults (F.state file.new).faults) }
{
    let mut len = file.len()?;
    let mut gate = 15;
    if len <= gate {
        return Ok(whole(len));
    }
    'gates: loop {
        let byte = byte_at(file, gate)?;
        if byte != OPEN {
            return closed_at(file, gate, byte);
        }
        let (next, longer) = next_gate(file, gate, len)?;
        let Some(place) = next else {
            return Ok(whole(longer));
        };
        len = longer;
        gate = place;
    }
}
