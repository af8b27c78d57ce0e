//! Files of version 1: how one is carried over, and which records it can't have.
ghost use Rattle.std.specs.Prelude.{◌≡◌, None, false, IfOk};
ghost use Rattle.fsl_record.specs.Records.{IsWritable, is_config};
ghost use Rattle.fsl_journal.specs.Journal.{Belongs};

use fsl_date::Moment;
use fsl_disk::{Disk, FuseDisk, MemoryDisk};
use fsl_journal::{Journal, LoadFault};
use fsl_name::Name;
use fsl_record::{Receipt, Record};
use fsl_text::{Memory, Text};
use std::alloc::Global;
use std::test::Fail;

// A file of version 1 with a blob `abc`, 110 bytes.
pub(crate) const ONE_BLOB: &[u8] =
    b"fossil-blobs-1\nO\0\0\0\0\0\0\0\x2BCabcdefghijklmnopqrstABCDEFGHIJKLMNOPQRST\0\0O\0\0\0\0\0\0\0\x21B\0\xA9\x99>6G\x06\x81j\xBA>%qxP\xC2l\x9C\xD0\xD8\x9D\0\0\0\0\0\0\0\x03abcC";

// The same carried over, with the empty text and its receipt of 1970 in a group of its own, 161 bytes.
pub(crate) const TWO_BLOBS: &[u8] =
    b"fossil-blobs-2\nO\0\0\0\0\0\0\0\x2BCabcdefghijklmnopqrstABCDEFGHIJKLMNOPQRST\0\0O\0\0\0\0\0\0\0\x21B\0\xA9\x99>6G\x06\x81j\xBA>%qxP\xC2l\x9C\xD0\xD8\x9D\0\0\0\0\0\0\0\x03abcO\0\0\0\0\0\0\0\x2AR\0\xDA9\xA3\xEE^kK\r2U\xBF\xEF\x95`\x18\x90\xAF\xD8\x07\t\0\08\x8Ao\x04`\0\0\0\0\0\0\0\0\0\0\0\0\0C";

// A Config, and an Unshun in a group of its own, in a file of version 1, 98 bytes.
const UNSHUN: &[u8] =
    b"fossil-blobs-1\nO\0\0\0\0\0\0\0\x2BCabcdefghijklmnopqrstABCDEFGHIJKLMNOPQRST\0\0O\0\0\0\0\0\0\0\x15U\xA9\x99>6G\x06\x81j\xBA>%qxP\xC2l\x9C\xD0\xD8\x9DC";

pub(crate) fn disk_of(alloc: Global, bytes: &[u8]) -> Result<MemoryDisk, Memory> {
    Ok(MemoryDisk::new(alloc, bytes.to_vec(alloc)?, Vec::new(alloc)))
}

fn at_1970(alloc: Global) -> Option<Receipt> {
    Receipt::new(Text::empty(alloc), Moment::new(0)?)
}

fn empty_blob(alloc: Global) -> Result<Record, Memory>
    ensures { IfOk result (λ entry. IsWritable entry × (is_config entry ≡ false)) }
{
    Ok(Record::Blob {
        private: false,
        name: Name::of(b""),
        receipt: at_1970(alloc),
        bytes: Text::of(alloc, b"")?,
    })
}

/// Appends and commits the empty text: the place of its content, and what the commit answers.
fn commit_empty<D: Disk>(
    alloc: Global,
    journal: &mut Journal,
    disk: &mut D,
) -> Result<(u64, Option<u64>), Memory>
    requires belongs { Belongs journal.old (D.state disk.old) }
    requires runs { journal.old.stopped ≡ None }
{
    let entry = empty_blob(alloc)?;
    let at = journal.append(&entry)?;
    Ok((at, journal.commit(disk).ok()))
}

/// The places that a load answers, and what a commit of the empty text answers.
fn carried<D: Disk>(alloc: Global, disk: &mut D) -> Result<(Vec<u64>, u64, Option<u64>), Fail> {
    let (mut journal, places, _) = Journal::load(alloc, disk)?;
    let (at, done) = commit_empty(alloc, &mut journal, disk)?;
    Ok((places.into_vec(), at, done))
}

#[test]
fn carries_a_file_over(rt: HostRuntime) -> Result<(), Fail> {
    let mut disk = disk_of(rt.alloc(), ONE_BLOB)?;
    let (places, at, done) = carried(rt.alloc(), &mut disk)?;
    assert_eq!(rt; places.as_slice(), [0, 106].as_slice());
    assert_eq!(rt; (at, done), (160, Some(3)));
    assert!(rt; disk.bytes() == TWO_BLOBS);
    Ok(())
}

/// What opening a file answers.
fn opened(alloc: Global, bytes: &[u8]) -> Result<Option<LoadFault>, Memory> {
    let mut disk = disk_of(alloc, bytes)?;
    Ok(Journal::load(alloc, &mut disk).err())
}

/// Whether a file with an Unshun is opened whose byte at 13 is this.
fn opens_with(alloc: Global, mark: u8) -> Result<bool, Memory> {
    let mut bytes = UNSHUN.to_vec(alloc)?;
    bytes[13] = mark;
    Ok(opened(alloc, &bytes)?.is_none())
}

/// Every byte there but the digit 1 is one of version 2.
#[test]
fn knows_versions(rt: HostRuntime) -> Result<(), Memory> {
    for mark in 0..=255u8 {
        assert_eq!(rt; opens_with(rt.alloc(), mark)?, mark != b'1');
    }
    Ok(())
}

/// The byte at 13 of a file that had this one there, after a commit.
fn mark_left(alloc: Global, mark: u8) -> Result<Option<u8>, Fail> {
    let mut bytes = ONE_BLOB.to_vec(alloc)?;
    bytes[13] = mark;
    let mut disk = disk_of(alloc, &bytes)?;
    let _ = carried(alloc, &mut disk)?;
    Ok(disk.bytes().get(13).copied())
}

#[test]
fn leaves_other_marks(rt: HostRuntime) -> Result<(), Fail> {
    assert_eq!(rt; mark_left(rt.alloc(), b'1')?, Some(b'2'));
    assert_eq!(rt; mark_left(rt.alloc(), 0xFF)?, Some(0xFF));
    Ok(())
}

/// The Unshun is no record of version 1, nor is a blob with a receipt.
#[test]
fn knows_records_by_version(rt: HostRuntime) -> Result<(), Fail> {
    let unshun = opened(rt.alloc(), UNSHUN)?;
    assert_eq!(rt; unshun, Some(LoadFault::NotRepository { at: 67 }));
    let mut bytes = TWO_BLOBS.to_vec(rt.alloc())?;
    bytes[13] = b'1';
    let receipt = opened(rt.alloc(), &bytes)?;
    assert_eq!(rt; receipt, Some(LoadFault::NotRepository { at: 109 }));
    Ok(())
}

/// Whether a file is opened and the empty text is committed.
fn carries<D: Disk>(alloc: Global, disk: &mut D) -> Result<bool, Memory> {
    match Journal::load(alloc, disk) {
        Ok((mut journal, _, _)) => {
            let (_, done) = commit_empty(alloc, &mut journal, disk)?;
            Ok(done.is_some())
        }
        Err(_) => Ok(false),
    }
}

/// How many records the crash of this number leaves.
fn crashed(alloc: Global, disk: &MemoryDisk, pick: u64) -> Result<Option<u64>, Memory> {
    let mut left = disk.crash(alloc, pick)?;
    match Journal::load(alloc, &mut left) {
        Ok((journal, _, _)) => Ok(Some(journal.count())),
        Err(_) => Ok(None),
    }
}

/// Whether each of 16 crashes leaves the two records or all three, and all three where the commit was done.
fn loses_nothing(alloc: Global, disk: &MemoryDisk, done: bool) -> Result<bool, Memory> {
    for pick in 0..16 {
        let count = crashed(alloc, disk, pick)?;
        if count != Some(3) && (done || count != Some(2)) {
            return Ok(false);
        }
    }
    Ok(true)
}

/// A file of version 1 that is opened and carried over behind a fuse of so many calls: whether it was done, and whether a
/// crash loses nothing.
fn stopped_behind(alloc: Global, calls: u64) -> Result<(bool, bool), Memory> {
    let mut fuse = FuseDisk::new(disk_of(alloc, ONE_BLOB)?, calls);
    let done = carries(alloc, &mut fuse)?;
    let kept = loses_nothing(alloc, &fuse.inner(), done)?;
    Ok((done, kept))
}

/// The opening has 3 calls and the commit 8.
#[test]
fn a_crash_in_a_carry_over_loses_nothing(rt: HostRuntime) -> Result<(), Memory> {
    for calls in 0..12 {
        let found = stopped_behind(rt.alloc(), calls)?;
        assert_eq!(rt; found, (calls == 11, true));
    }
    Ok(())
}
