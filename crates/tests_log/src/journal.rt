// The bytes of a file. A disk that fails, and what crashes leave, are tried by runs of the program, in `tests_serve`, and over a
// repository, in `tests_repo`.
ghost use Rattle.std.specs.Prelude.{◌≡◌, None, false, IfOk};
ghost use Rattle.fsl_record.specs.Records.{IsWritable, is_config};
ghost use Rattle.fsl_journal.specs.Journal.{Belongs};

use crate::blobs::{CONFIG_ALONE, ONE_BLOB};
use crate::versions::disk_of;
use fsl_disk::Disk;
use fsl_journal::Journal;
use fsl_name::Name;
use fsl_record::Record;
use fsl_text::{Memory, Text};
use std::alloc::Global;
use std::test::Fail;

fn blob(alloc: Global) -> Result<Record, Memory>
    ensures { IfOk result (λ entry. IsWritable entry × (is_config entry ≡ false)) }
{
    Ok(Record::Blob {
        receipt: None,
        private: false,
        name: Name::of(b"abc"),
        bytes: Text::of(alloc, b"abc")?,
    })
}

/// Appends a record; the disk still belongs to the journal.
fn add<D: Disk>(journal: &mut Journal, disk: &D, entry: &Record) -> Result<(), Memory>
    requires belongs { Belongs journal.old (D.state disk.now) }
    requires runs { journal.old.stopped ≡ None }
    requires place { is_config entry.now ≡ false }
    requires fit { IsWritable entry.now }
    ensures belongs { Belongs journal.new (D.state disk.now) }
    ensures runs { journal.new.stopped ≡ None }
{
    let _ = disk.faults();
    journal.append(entry)?;
    Ok(())
}

/// Commits a blob, and appends it once more and takes it back: what the commit answers.
fn commit_one<D: Disk>(
    alloc: Global,
    journal: &mut Journal,
    disk: &mut D,
) -> Result<Option<u64>, Memory>
    requires belongs { Belongs journal.old (D.state disk.old) }
    requires runs { journal.old.stopped ≡ None }
{
    let entry = blob(alloc)?;
    add(journal, disk, &entry)?;
    let done = journal.commit(disk).ok();
    if done.is_some() && journal.append(&entry).is_ok() {
        journal.take_back();
    }
    Ok(done)
}

/// The same over a file: what the commit answers, how many records there are, and how many of them are stable.
fn committed<D: Disk>(alloc: Global, disk: &mut D) -> Result<(Option<u64>, u64, u64), Fail> {
    let (mut journal, _, _) = Journal::load(alloc, disk)?;
    let done = commit_one(alloc, &mut journal, disk)?;
    Ok((done, journal.count(), journal.stable()))
}

/// The same, and whether the file has the blob then.
fn committed_file(alloc: Global) -> Result<((Option<u64>, u64, u64), bool), Fail> {
    let mut disk = disk_of(alloc, CONFIG_ALONE)?;
    let found = committed(alloc, &mut disk)?;
    Ok((found, disk.bytes() == ONE_BLOB))
}

#[test]
fn commits_a_blob(rt: HostRuntime) -> Result<(), Fail> {
    let found = committed_file(rt.alloc())?;
    assert_eq!(rt; found, ((Some(2), 2, 2), true));
    Ok(())
}
