//! Reads a file as groups of records, one group at a time.
ghost use Rattle.std.specs.Prelude.{◌≡◌, ◌≢◌, ◌⊎◌, ◌++◌, ◌∷◌, [], ◌+◌, ◌-◌, ◌<◌, ◌≤◌, ◌^◌, ℕ, List, None, Some, length, min, take, drop, MatchOption, IfSome, IfOk, IfErr, OnOk, slice_index};
ghost use Rattle.std.specs.List.{AllByRecursion};
ghost use Rattle.fsl_disk.specs.Disk.{DiskState, Told, Quiet};
ghost use Rattle.fsl_record.specs.declared.Record.{Record};
ghost use Rattle.fsl_record.specs.Records.{records_bytes, AreRecords, IsVersion, IsFit};
ghost use Rattle.fsl_record.specs.declared.RecordFault.TheVariants.{Memory as MemoryFault};
ghost use Rattle.fsl_journal.specs.Commit.{eight};
ghost use Rattle.fsl_journal.specs.File.{header, version_of, AreRecordsOf};
ghost use Rattle.fsl_journal.specs.Journal.{OfBytes};
ghost use Rattle.fsl_journal.specs.Places.{content_places};
ghost use Rattle.fsl_journal.specs.Reading.{records_of, places_of, HasTaken, IsNothing, IsGate, IsCutOff, IsBody, BodyFailed, IsGroupMore, AreAll, IsFound, Holds, GroupFailed, FileFailed};
ghost use Rattle.fsl_journal.specs.declared.LoadFault.TheVariants.{NotRepository, Memory};

use crate::LoadFault;
use crate::commit::OPEN;
use crate::found::Found;
use crate::taking::Taker;
use crate::window::{MOST, Window, read_part};
use fsl_disk::Disk;
use fsl_record::{Record, RecordFault, group};
use fsl_text::List;
use std::alloc::Global;

/// The first bytes of a file, up to the mark of the version.
const BEFORE_MARK: [u8; 13] = *b"fossil-blobs-";

/// The mark of version 1.
pub(crate) const MARK_1: u8 = b'1';

/// The mark of version 2 that is written.
pub(crate) const MARK_2: u8 = b'2';

/// The number in the first 8 bytes, and the rest.
#[tactic(auto, unfolding(crate::specs::Commit::eight))]
fn read_number(bytes: &[u8]) -> Option<(u64, &[u8])>
    ensures { MatchOption result (length bytes.now < 8) (λ p. (bytes.now ≡ eight p.0 ++ p.1.now) × (p.0 < 2 ^ 64)) }
{
    let [a, b, c, d, e, f, g, h, rest @ ..] = bytes else {
        return None;
    };
    let number = u64::from_be_bytes([*a, *b, *c, *d, *e, *f, *g, *h]);
    Some((number, rest))
}

/// What it means for a file that the group behind the gate at this place doesn't read.
fn fault_at(fault: RecordFault, at: u64) -> LoadFault
    ensures { ((fault ≡ MemoryFault) × (result ≡ Memory)) ⊎ ((fault ≢ MemoryFault) × (result ≡ NotRepository at)) }
{
    match fault {
        RecordFault::Memory => LoadFault::Memory,
        _ => LoadFault::NotRepository { at },
    }
}

/// The version that a mark tells.
fn version_of(mark: u8) -> u8
    ensures value { result ≡ version_of mark }
    ensures version { IsVersion result }
{
    if mark == MARK_1 { 1 } else { 2 }
}

/// What stands behind an open gate.
fn behind_gate(rest: &[u8]) -> Option<&[u8]>
    ensures { MatchOption result (0 < length rest.now → slice_index rest.now 0 ≢ 79) (λ body. rest.now ≡ 79 ∷ body.now) }
{
    if !rest.is_empty() && rest[0] == OPEN {
        Some(&rest[1..])
    } else {
        None
    }
}

/// The mark of the version, and what stands behind the header.
fn behind_header(head: &[u8]) -> Option<(u8, &[u8])>
    ensures { MatchOption result ((mark : ℕ) (rest : List ℕ) → head.now ≢ header mark ++ rest) (λ read. head.now ≡ header read.0 ++ read.1.now) }
{
    let [mark, b'\n', rest @ ..] = head.strip_prefix(&BEFORE_MARK)? else {
        return None;
    };
    Some((*mark, rest))
}

/// The mark of the version in the bytes of a header.
fn mark_in(head: &[u8]) -> Option<u8>
    ensures { MatchOption result ((mark : ℕ) (rest : List ℕ) → head.now ≢ header mark ++ rest) (λ mark. (rest : List ℕ) × (head.now ≡ header mark ++ rest)) }
{
    match behind_header(head) {
        Some((mark, _)) => Some(mark),
        None => None,
    }
}

/// The number of bytes of the records behind the gate at this place, by the bytes there, the gate and 8 more where the file
/// of this length has as many; none where the gate isn't open. A byte has to stand behind these records.
fn size_in(head: &[u8], at: u64, len: u64) -> Result<Option<u64>, LoadFault>
    requires inside { at ≤ len }
    requires fits { len < 2 ^ 63 }
    requires head { length head.now ≡ min 9 (len - at) }
    ensures none { IfOk result (λ found. found ≡ None → 0 < length head.now → slice_index head.now 0 ≢ 79) }
    ensures some { IfOk result (λ found. IfSome found (λ size. (head.now ≡ 79 ∷ eight size) × (at + 9 + size < len))) }
    ensures fault { IfErr result (λ fault. (fault ≡ NotRepository at) × IsCutOff head.now at len) }
{
    let Some(behind) = behind_gate(head) else {
        return Ok(None);
    };
    let Some((size, _)) = read_number(behind) else {
        return Err(LoadFault::NotRepository { at });
    };
    if size >= len - at - 9 {
        return Err(LoadFault::NotRepository { at });
    }
    Ok(Some(size))
}

/// Reads the gate at this place, and where it is open the number of bytes of the records behind it. None where it isn't open,
/// or where the file ends.
fn read_gate<D: Disk>(
    alloc: Global,
    disk: &mut D,
    window: &mut Window,
    at: u64,
) -> Result<Option<u64>, LoadFault>
    requires holds { Holds window.old (D.state disk.old) }
    requires inside { at ≤ window.old.len }
    requires fits { window.old.len < 2 ^ 63 }
    ensures inside { IfOk result (λ found. IfSome found (λ size. at + 9 + size < window.old.len)) }
    ensures gate { IfOk result (λ found. Told (D.state disk.old) (λ held. IsGate found (drop at held))) }
    ensures holds { OnOk result (Holds window.new (D.state disk.new)) }
    ensures len { window.new.len ≡ window.old.len }
    ensures count { OnOk result ((D.state disk.new).faults ≡ (D.state disk.old).faults) }
    ensures fault { IfErr result (λ fault. (version : ℕ) (records : List Record) → GroupFailed version at records fault (D.state disk.old) (D.state disk.new)) }
    ensures quiet { Quiet (D.state disk.old) (D.state disk.new) }
{
    let size = (window.len - at).min(9);
    window.cover(alloc, disk, at, size)?;
    size_in(window.part(at, size), at, window.len)
}

/// Reads the records behind a gate at this place, which have so many bytes, by themselves.
fn read_alone<D: Disk>(
    alloc: Global,
    disk: &mut D,
    at: u64,
    size: u64,
    version: u8,
    first: bool,
) -> Result<List<Record>, LoadFault>
    requires inside { Told (D.state disk.old) (λ held. at + 9 + size < length held) }
    requires fits { at + 9 + size < 2 ^ 63 }
    requires version { IsVersion version }
    ensures ok { IfOk result (λ group. IsBody version first at size group (D.state disk.old)) }
    ensures count { OnOk result ((D.state disk.new).faults ≡ (D.state disk.old).faults) }
    ensures fault { IfErr result (λ fault. BodyFailed version first at size fault (D.state disk.old) (D.state disk.new)) }
    ensures quiet { Quiet (D.state disk.old) (D.state disk.new) }
{
    let part = read_part(alloc, disk, at + 9, size)?;
    let read = group(alloc, part.bytes(), first, version);
    drop(part);
    match read {
        Ok(records) => Ok(records),
        Err(fault) => Err(fault_at(fault, at)),
    }
}

/// Reads the records behind a gate at this place, which have so many bytes: from the window where they are few.
fn read_body<D: Disk>(
    alloc: Global,
    disk: &mut D,
    window: &mut Window,
    at: u64,
    size: u64,
    version: u8,
    first: bool,
) -> Result<List<Record>, LoadFault>
    requires holds { Holds window.old (D.state disk.old) }
    requires inside { at + 9 + size < window.old.len }
    requires fits { window.old.len < 2 ^ 63 }
    requires version { IsVersion version }
    ensures ok { IfOk result (λ group. IsBody version first at size group (D.state disk.old)) }
    ensures holds { OnOk result (Holds window.new (D.state disk.new)) }
    ensures len { window.new.len ≡ window.old.len }
    ensures count { OnOk result ((D.state disk.new).faults ≡ (D.state disk.old).faults) }
    ensures fault { IfErr result (λ fault. BodyFailed version first at size fault (D.state disk.old) (D.state disk.new)) }
    ensures quiet { Quiet (D.state disk.old) (D.state disk.new) }
{
    if size > MOST {
        return read_alone(alloc, disk, at, size, version, first);
    }
    window.cover(alloc, disk, at + 9, size)?;
    match group(alloc, window.part(at + 9, size), first, version) {
        Ok(group) => Ok(group),
        Err(fault) => Err(fault_at(fault, at)),
    }
}

/// Notes a group that stands behind the gate, hands it on, and goes behind it.
fn hand_on<T: Taker>(
    alloc: Global,
    size: u64,
    group: List<Record>,
    found: &mut Found,
    taker: &mut T,
) -> Result<(), LoadFault>
    requires size { size ≡ length (records_bytes group) }
    requires fits { found.old.place + 9 + size < 2 ^ 63 }
    requires records { AreRecords (records_of found.old ++ group) }
    requires fit { AllByRecursion IsFit group }
    requires taken { HasTaken found.old (T.taken taker.old) (T.starts taker.old) }
    requires sound { T.is_sound taker.old }
    ensures records { OnOk result (records_of found.new ≡ records_of found.old ++ group) }
    ensures places { OnOk result (places_of found.new ≡ places_of found.old ++ content_places (found.old.place + 9) group) }
    ensures place { OnOk result (found.new.place ≡ found.old.place + 9 + size) }
    ensures mark { found.new.mark ≡ found.old.mark }
    ensures taken { OnOk result (HasTaken found.new (T.taken taker.new) (T.starts taker.new)) }
    ensures sound { OnOk result (T.is_sound taker.new) }
    ensures fault { IfErr result (λ fault. fault ≡ Memory) }
{
    match found.note(alloc, group.items()) {
        Ok(places) => {
            taker.take(places, group)?;
            found.place += 9 + size;
            Ok(())
        }
        Err(_) => {
            drop(group);
            Err(LoadFault::Memory)
        }
    }
}

/// Reads the group behind the open gate, whose records have so many bytes, and hands it on. A byte stands behind it.
fn read_group<D: Disk, T: Taker>(
    alloc: Global,
    disk: &mut D,
    window: &mut Window,
    size: u64,
    found: &mut Found,
    taker: &mut T,
) -> Result<(), LoadFault>
    requires holds { Holds window.old (D.state disk.old) }
    requires gate { Told (D.state disk.old) (λ held. IsGate (Some size) (drop found.old.place held)) }
    requires inside { found.old.place + 9 + size < window.old.len }
    requires fits { window.old.len < 2 ^ 63 }
    requires read { (records_of found.old ≡ []) ⊎ AreRecordsOf (version_of found.old.mark) (records_of found.old) }
    requires taken { HasTaken found.old (T.taken taker.old) (T.starts taker.old) }
    requires sound { T.is_sound taker.old }
    ensures ok { OnOk result (IsGroupMore size found.old found.new (D.state disk.old)) }
    ensures taken { OnOk result (HasTaken found.new (T.taken taker.new) (T.starts taker.new)) }
    ensures sound { OnOk result (T.is_sound taker.new) }
    ensures holds { OnOk result (Holds window.new (D.state disk.new)) }
    ensures len { window.new.len ≡ window.old.len }
    ensures count { OnOk result ((D.state disk.new).faults ≡ (D.state disk.old).faults) }
    ensures fault { IfErr result (λ fault. GroupFailed (version_of found.old.mark) found.old.place (records_of found.old) fault (D.state disk.old) (D.state disk.new)) }
    ensures quiet { Quiet (D.state disk.old) (D.state disk.new) }
{
    let version = version_of(found.mark);
    let first = found.records.is_empty();
    let group = read_body(alloc, disk, window, found.place, size, version, first)?;
    hand_on(alloc, size, group, found, taker)
}

/// Reads the groups of a file, from behind its header up to the first gate that isn't open, and hands each on before the next
/// one is read.
fn read_groups<D: Disk, T: Taker>(
    alloc: Global,
    disk: &mut D,
    window: &mut Window,
    found: &mut Found,
    taker: &mut T,
) -> Result<(), LoadFault>
    requires holds { Holds window.old (D.state disk.old) }
    requires header { Told (D.state disk.old) (λ held. (rest : List ℕ) × (held ≡ header found.old.mark ++ rest)) }
    requires inside { 15 ≤ window.old.len }
    requires fits { window.old.len < 2 ^ 63 }
    requires nothing { IsNothing found.old }
    requires taken { HasTaken found.old (T.taken taker.old) (T.starts taker.old) }
    requires sound { T.is_sound taker.old }
    ensures ok { OnOk result ((groups : List (List Record)) × AreAll groups window.old.len found.new (D.state disk.old)) }
    ensures taken { OnOk result (HasTaken found.new (T.taken taker.new) (T.starts taker.new)) }
    ensures sound { OnOk result (T.is_sound taker.new) }
    ensures count { OnOk result ((D.state disk.new).faults ≡ (D.state disk.old).faults) }
    ensures fault { IfErr result (λ fault. FileFailed fault (D.state disk.old) (D.state disk.new)) }
    ensures quiet { Quiet (D.state disk.old) (D.state disk.new) }
{
    'groups: while let Some(size) = read_gate(alloc, disk, window, found.place)? {
        read_group(alloc, disk, window, size, found, taker)?;
    }
    Ok(())
}

/// What the header of a file tells, by its first window, with nothing read behind it.
fn read_header(alloc: Global, window: &Window) -> Result<Found, LoadFault>
    requires part { length window.now.part ≡ min 65536 window.now.len }
    ensures inside { OnOk result (15 ≤ window.now.len) }
    ensures nothing { IfOk result IsNothing }
    ensures mark { IfOk result (λ found. (rest : List ℕ) × (window.now.part ≡ header found.mark ++ rest)) }
    ensures fault { IfErr result (λ fault. (fault ≡ NotRepository 0) × ((mark : ℕ) (rest : List ℕ) → window.now.part ≢ header mark ++ rest)) }
{
    match mark_in(window.part.bytes()) {
        Some(mark) => Ok(Found::nothing(alloc, mark)),
        None => Err(LoadFault::NotRepository { at: 0 }),
    }
}

/// Reads what stands behind a header: what the groups have, each of which is handed on before the next one is read.
fn read_behind<D: Disk, T: Taker>(
    alloc: Global,
    disk: &mut D,
    window: &mut Window,
    empty: Found,
    taker: &mut T,
) -> Result<Found, LoadFault>
    requires holds { Holds window.old (D.state disk.old) }
    requires header { Told (D.state disk.old) (λ held. (rest : List ℕ) × (held ≡ header empty.mark ++ rest)) }
    requires inside { 15 ≤ window.old.len }
    requires fits { window.old.len < 2 ^ 63 }
    requires nothing { IsNothing empty }
    requires taken { (T.taken taker.old ≡ []) × (T.starts taker.old ≡ []) }
    requires sound { T.is_sound taker.old }
    ensures ok { IfOk result (λ found. OfBytes (D.state disk.old) (IsFound found)) }
    ensures inside { IfOk result (λ found. found.place < window.old.len) }
    ensures taken { IfOk result (λ found. HasTaken found (T.taken taker.new) (T.starts taker.new)) }
    ensures sound { OnOk result (T.is_sound taker.new) }
    ensures count { OnOk result ((D.state disk.new).faults ≡ (D.state disk.old).faults) }
    ensures fault { IfErr result (λ fault. FileFailed fault (D.state disk.old) (D.state disk.new)) }
    ensures quiet { Quiet (D.state disk.old) (D.state disk.new) }
{
    let mut found = empty;
    match read_groups(alloc, disk, window, &mut found, taker) {
        Ok(()) => {
            if found.records.is_empty() {
                drop(found);
                Err(LoadFault::NotRepository { at: 15 })
            } else {
                Ok(found)
            }
        }
        Err(fault) => {
            drop(found);
            Err(fault)
        }
    }
}

/// Reads a file of this length: what its groups have, each of which is handed on before the next one is read.
fn read_sized<D: Disk, T: Taker>(
    alloc: Global,
    disk: &mut D,
    len: u64,
    taker: &mut T,
) -> Result<Found, LoadFault>
    requires held { Told (D.state disk.old) (λ held. length held ≡ len) }
    requires fits { len < 2 ^ 63 }
    requires taken { (T.taken taker.old ≡ []) × (T.starts taker.old ≡ []) }
    requires sound { T.is_sound taker.old }
    ensures ok { IfOk result (λ found. OfBytes (D.state disk.old) (IsFound found)) }
    ensures inside { IfOk result (λ found. found.place < len) }
    ensures taken { IfOk result (λ found. HasTaken found (T.taken taker.new) (T.starts taker.new)) }
    ensures sound { OnOk result (T.is_sound taker.new) }
    ensures count { OnOk result ((D.state disk.new).faults ≡ (D.state disk.old).faults) }
    ensures fault { IfErr result (λ fault. FileFailed fault (D.state disk.old) (D.state disk.new)) }
    ensures quiet { Quiet (D.state disk.old) (D.state disk.new) }
{
    let mut window = Window::first(alloc, disk, len)?;
    match read_header(alloc, &window) {
        Ok(empty) => read_behind(alloc, disk, &mut window, empty, taker),
        Err(fault) => Err(fault),
    }
}

/// Reads a file group by group, each of which is handed on before the next one is read, and answers what they have and the
/// length of the file.
pub(crate) fn read_file<D: Disk, T: Taker>(
    alloc: Global,
    disk: &mut D,
    taker: &mut T,
) -> Result<(Found, u64), LoadFault>
    requires taken { (T.taken taker.old ≡ []) × (T.starts taker.old ≡ []) }
    requires sound { T.is_sound taker.old }
    ensures ok { IfOk result (λ read. OfBytes (D.state disk.old) (IsFound read.0)) }
    ensures len { IfOk result (λ read. (read.1 < 2 ^ 63) × Told (D.state disk.old) (λ held. length held ≡ read.1)) }
    ensures inside { IfOk result (λ read. read.0.place < read.1) }
    ensures taken { IfOk result (λ read. HasTaken read.0 (T.taken taker.new) (T.starts taker.new)) }
    ensures sound { OnOk result (T.is_sound taker.new) }
    ensures count { OnOk result ((D.state disk.new).faults ≡ (D.state disk.old).faults) }
    ensures fault { IfErr result (λ fault. FileFailed fault (D.state disk.old) (D.state disk.new)) }
    ensures quiet { Quiet (D.state disk.old) (D.state disk.new) }
{
    let len = disk.len()?;
    let found = read_sized(alloc, disk, len, taker)?;
    Ok((found, len))
}
