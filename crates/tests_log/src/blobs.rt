ghost use Rattle.std.specs.Prelude.{◌≡◌, None, false, IfOk, OnOk};
ghost use Rattle.fsl_record.specs.Records.{IsWritable, is_config};
ghost use Rattle.tests_log.specs.Open.{IsInStep};

use crate::cases::CASES;
use crate::versions::disk_of;
use fsl_blobs::*;
use fsl_disk::{Disk, FlipDisk, FuseDisk, MemoryDisk};
use fsl_journal::Journal;
use fsl_name::Name;
use fsl_record::Record;
use fsl_text::{Memory, Text};
use std::alloc::Global;
use std::test::Fail;

// A file with a Config without fields, 68 bytes.
pub(crate) const CONFIG_ALONE: &[u8] =
    b"fossil-blobs-2\nO\0\0\0\0\0\0\0\x2BCabcdefghijklmnopqrstABCDEFGHIJKLMNOPQRST\0\0C";

// And with a blob `abc` in a group of its own, 110 bytes.
pub(crate) const ONE_BLOB: &[u8] =
    b"fossil-blobs-2\nO\0\0\0\0\0\0\0\x2BCabcdefghijklmnopqrstABCDEFGHIJKLMNOPQRST\0\0O\0\0\0\0\0\0\0\x21B\0\xA9\x99>6G\x06\x81j\xBA>%qxP\xC2l\x9C\xD0\xD8\x9D\0\0\0\0\0\0\0\x03abcC";

/// The journal of a file, and what its records leave.
fn opened<D: Disk>(alloc: Global, disk: &mut D) -> Result<(Journal, Blobs), Fail>
    ensures open { IfOk result (λ r. IsInStep r.0 r.1 (D.state disk.new)) }
    ensures runs { IfOk result (λ r. r.0.stopped ≡ None) }
{
    let (journal, places, records) = Journal::load(alloc, disk)?;
    let blobs = Blobs::fold(alloc, &places, records)?;
    Ok((journal, blobs))
}

/// A record that adds a text of at most 16 bytes.
fn blob(alloc: Global, private: bool, bytes: &[u8]) -> Result<Record, Memory>
    ensures { IfOk result (λ entry. IsWritable entry × (is_config entry ≡ false)) }
{
    if bytes.len() > 16 {
        return Err(Memory);
    }
    Ok(Record::Blob {
        private,
        name: Name::of(bytes),
        receipt: None,
        bytes: Text::of(alloc, bytes)?,
    })
}

/// Appends a record, and reads it.
fn add<D: Disk>(
    journal: &mut Journal,
    blobs: &mut Blobs,
    disk: &D,
    entry: Record,
) -> Result<(), Memory>
    requires open { IsInStep journal.old blobs.old (D.state disk.now) }
    requires runs { journal.old.stopped ≡ None }
    requires fit { IsWritable entry }
    requires place { is_config entry ≡ false }
    ensures open { OnOk result (IsInStep journal.new blobs.new (D.state disk.now)) }
    ensures runs { journal.new.stopped ≡ None }
{
    let _ = disk.faults();
    let at = journal.append(&entry)?;
    blobs.apply(at, entry)
}

/// Whether the appended records are committed.
fn commit<D: Disk>(journal: &mut Journal, blobs: &Blobs, disk: &mut D) -> bool
    requires { IsInStep journal.old blobs.now (D.state disk.old) }
    ensures { IsInStep journal.new blobs.now (D.state disk.new) }
{
    let _ = blobs.count();
    match journal.commit(disk) {
        Ok(_) => true,
        Err(_) => false,
    }
}

/// Whether a content is answered as these bytes.
fn reads<D: Disk>(
    alloc: Global,
    journal: &Journal,
    blobs: &mut Blobs,
    disk: &mut D,
    bytes: &[u8],
) -> Result<bool, BlobFault>
    requires { IsInStep journal.now blobs.old (D.state disk.old) }
    ensures { IsInStep journal.now blobs.new (D.state disk.new) }
{
    match blobs.content(alloc, journal, disk, Name::of(bytes)) {
        Ok(text) => Ok(text.bytes() == bytes),
        Err(fault) => Err(fault),
    }
}

/// A private artifact and its publication, one more, one that stays private, and a name that is shunned.
fn fill<D: Disk>(
    alloc: Global,
    journal: &mut Journal,
    blobs: &mut Blobs,
    disk: &D,
) -> Result<(), Memory>
    requires open { IsInStep journal.old blobs.old (D.state disk.now) }
    requires runs { journal.old.stopped ≡ None }
    ensures open { OnOk result (IsInStep journal.new blobs.new (D.state disk.now)) }
{
    add(journal, blobs, disk, blob(alloc, true, b"abc")?)?;
    let name = Name::of(b"abc");
    add(journal, blobs, disk, Record::Publish { name })?;
    add(journal, blobs, disk, blob(alloc, false, b"2939")?)?;
    add(journal, blobs, disk, blob(alloc, true, b"secret")?)?;
    let name = Name::of(b"");
    add(journal, blobs, disk, Record::Shun { name })
}

/// What names are, and what prefixes find. The names of `abc` and `2939` begin with the same three digits, and no more.
fn are_found(blobs: &Blobs) -> bool {
    let (first, second) = (Name::of(b"abc"), Name::of(b"2939"));
    blobs.config().project == Name::from_bytes(*b"abcdefghijklmnopqrst")
        && blobs.state(first) == BlobState::Public { size: 3 }
        && blobs.state(second) == BlobState::Public { size: 4 }
        && blobs.state(Name::of(b"")) == BlobState::Shunned
        && blobs.find(b"a99") == Found::Several
        && blobs.find(b"a9993") == Found::One(first)
}

/// How many artifacts are held from the fourth record on, how many as private ones, and how many in all.
fn counts(alloc: Global, blobs: &Blobs) -> Result<(usize, usize, usize), Memory> {
    let later = blobs.held(alloc, 4)?.items().len();
    let private = blobs.privates(alloc)?.items().len();
    Ok((later, private, blobs.holdings(alloc)?.len()))
}

/// The same over a file.
fn found(alloc: Global) -> Result<(bool, (usize, usize, usize)), Fail> {
    let mut disk = disk_of(alloc, CONFIG_ALONE)?;
    let (mut journal, mut blobs) = opened(alloc, &mut disk)?;
    fill(alloc, &mut journal, &mut blobs, &disk)?;
    Ok((are_found(&blobs), counts(alloc, &blobs)?))
}

#[test]
fn finds_names(rt: HostRuntime) -> Result<(), Fail> {
    assert_eq!(rt; found(rt.alloc())?, (true, (2, 1, 3)));
    Ok(())
}

/// Adds a text and commits it: whether that was done, and whether this text and `abc` are read then.
fn committed<D: Disk>(
    alloc: Global,
    disk: &mut D,
) -> Result<(bool, [Result<bool, BlobFault>; 2]), Fail> {
    let (mut journal, mut blobs) = opened(alloc, disk)?;
    add(&mut journal, &mut blobs, disk, blob(alloc, false, b"new")?)?;
    let done = commit(&mut journal, &blobs, disk);
    let new = reads(alloc, &journal, &mut blobs, disk, b"new");
    let old = reads(alloc, &journal, &mut blobs, disk, b"abc");
    Ok((done, [new, old]))
}

/// The same where the sixth call fails, the write of the new gate, and behind a fuse of as many calls.
#[test]
fn reads_contents_after_a_failed_commit(rt: HostRuntime) -> Result<(), Fail> {
    let alloc = rt.alloc();
    let mut disk = MemoryDisk::new(alloc, ONE_BLOB.to_vec(alloc)?, [6].to_vec(alloc)?);
    let once = committed(alloc, &mut disk)?;
    assert_eq!(rt; once, (false, [Ok(true), Ok(true)]));
    let mut fuse = FuseDisk::new(disk_of(alloc, ONE_BLOB)?, 5);
    let ever = committed(alloc, &mut fuse)?;
    assert_eq!(rt; ever, (false, [Ok(true), Err(BlobFault::Disk)]));
    Ok(())
}

/// Adds one byte each of a row of contents.
fn add_all<D: Disk>(
    alloc: Global,
    journal: &mut Journal,
    blobs: &mut Blobs,
    disk: &D,
) -> Result<(), Memory>
    requires open { IsInStep journal.old blobs.old (D.state disk.now) }
    requires runs { journal.old.stopped ≡ None }
    ensures open { OnOk result (IsInStep journal.new blobs.new (D.state disk.now)) }
{
    for byte in 0..65u8 {
        add(journal, blobs, disk, blob(alloc, false, &[byte])?)?;
    }
    Ok(())
}

/// Whether each of these contents is read, one after another.
fn read_all<D: Disk>(alloc: Global, journal: &Journal, blobs: &mut Blobs, disk: &mut D) -> bool
    requires { IsInStep journal.now blobs.old (D.state disk.old) }
    ensures { IsInStep journal.now blobs.new (D.state disk.new) }
{
    let mut all = true;
    for byte in 0..65u8 {
        if reads(alloc, journal, blobs, disk, &[byte]) != Ok(true) {
            all = false;
        }
    }
    all
}

/// Commits 65 contents and reads each, and then the last one and the first one again.
fn cached<D: Disk>(
    alloc: Global,
    disk: &mut D,
) -> Result<(bool, bool, [Result<bool, BlobFault>; 2]), Fail> {
    let (mut journal, mut blobs) = opened(alloc, disk)?;
    add_all(alloc, &mut journal, &mut blobs, disk)?;
    let done = commit(&mut journal, &blobs, disk);
    let all = read_all(alloc, &journal, &mut blobs, disk);
    let last = reads(alloc, &journal, &mut blobs, disk, &[64]);
    let first = reads(alloc, &journal, &mut blobs, disk, &[0]);
    Ok((done, all, [last, first]))
}

/// The disk passes 3 calls of the opening, 6 of the commit and 65 reads: the last content is kept in memory, and the first
/// one isn't.
#[test]
fn keeps_64_contents(rt: HostRuntime) -> Result<(), Fail> {
    let mut fuse = FuseDisk::new(disk_of(rt.alloc(), CONFIG_ALONE)?, 74);
    let found = cached(rt.alloc(), &mut fuse)?;
    assert_eq!(rt; found, (true, true, [Ok(true), Err(BlobFault::Disk)]));
    Ok(())
}

/// Whether `abc` is read twice from a disk that gives its first byte wrong from the read after so many.
fn flipped(alloc: Global, reads_right: u64) -> Result<[Result<bool, BlobFault>; 2], Fail> {
    let mut disk = FlipDisk::new(disk_of(alloc, ONE_BLOB)?, 106, reads_right);
    let (journal, mut blobs) = opened(alloc, &mut disk)?;
    let first = reads(alloc, &journal, &mut blobs, &mut disk, b"abc");
    let again = reads(alloc, &journal, &mut blobs, &mut disk, b"abc");
    Ok([first, again])
}

/// Of 0x61 the lowest bit is turned: a backquote. What was read well is kept.
#[test]
fn tests_what_it_reads(rt: HostRuntime) -> Result<(), Fail> {
    let found = Name::of(b"`bc");
    assert!(rt; Name::read(b"885e43e86d71878441d4f5bbb98feba890c007be") == Ok(found));
    let damaged = Err(BlobFault::Damaged { found });
    assert_eq!(rt; flipped(rt.alloc(), 1)?, [damaged, damaged]);
    assert_eq!(rt; flipped(rt.alloc(), 2)?, [Ok(true), Ok(true)]);
    Ok(())
}

/// What a name is, its place, and the first byte of the login that brought it.
fn told(blobs: &Blobs, name: Name) -> [u8; 3] {
    let state = match blobs.state(name) {
        BlobState::Public { .. } => b'P',
        BlobState::Private { .. } => b'p',
        BlobState::Shunned => b'S',
        BlobState::Absent => b'A',
    };
    let place = match blobs.holding(name) {
        Some(holding) => (holding.place & 255) as u8,
        None => 0,
    };
    let brought = match blobs.receipt(name) {
        Some(receipt) => *receipt.login().first().unwrap_or(&0),
        None => b'-',
    };
    [state, place, brought]
}

/// Whether a file leaves this of a text, and its content is read where it is held.
fn agrees(alloc: Global, file: &[u8], text: &[u8], want: [u8; 3]) -> Result<bool, Fail> {
    let mut disk = disk_of(alloc, file)?;
    let (journal, mut blobs) = opened(alloc, &mut disk)?;
    let seen = told(&blobs, Name::of(text));
    let held = seen[0] == b'P' || seen[0] == b'p';
    let read = reads(alloc, &journal, &mut blobs, &mut disk, text);
    let due = if held {
        Ok(true)
    } else {
        Err(BlobFault::Absent)
    };
    Ok(seen == want && read == due)
}

#[test]
fn agrees_with_another_program(rt: HostRuntime) -> Result<(), Fail> {
    for (file, want) in CASES {
        let [a, b, c, d, e, f, g, h, i] = *want;
        assert!(rt; agrees(rt.alloc(), file, b"abc", [a, b, c])?);
        assert!(rt; agrees(rt.alloc(), file, b"", [d, e, f])?);
        assert!(rt; agrees(rt.alloc(), file, b"x", [g, h, i])?);
    }
    Ok(())
}

fn counted(number: u32) -> Name {
    let mut bytes = [0u8; 20];
    let [a, b, c, d] = number.to_be_bytes();
    (bytes[0], bytes[1], bytes[2], bytes[3]) = (a, b, c, d);
    Name::from_bytes(bytes)
}

/// How many names are announced as new, one after another, before one is not.
fn count_new(blobs: &mut Blobs) -> Result<u32, Memory> {
    for number in 0..70_000u32 {
        if blobs.announce(counted(number))? != Known::New {
            return Ok(number);
        }
    }
    Ok(70_000)
}

/// The same over a file with `abc`.
fn new_names(alloc: Global) -> Result<(Option<Known>, u32), Fail> {
    let mut disk = disk_of(alloc, ONE_BLOB)?;
    let (_, mut blobs) = opened(alloc, &mut disk)?;
    let known = blobs.announce(Name::of(b"abc")).ok();
    Ok((known, count_new(&mut blobs)?))
}

#[test]
fn announces_so_many_names(rt: HostRuntime) -> Result<(), Fail> {
    assert_eq!(rt; new_names(rt.alloc())?, (Some(Known::Held), 65_536));
    Ok(())
}
