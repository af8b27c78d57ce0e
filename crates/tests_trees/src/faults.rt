//! Trees over a disk that fails, or that gives a byte of a content wrong once it was loaded.
use crate::EMPTY;
use fsl_checkin::{Export, ExportFault, Verdict, export, verify};
use fsl_disk::{Disk, FlipDisk, FuseDisk, MemoryDisk};
use fsl_name::Name;
use fsl_repo::Repo;
use std::alloc::Global;
use std::test::Fail;
use tests_kit::{arrives, disk_of, loaded, opened};

const CHECKIN: &[u8] =
    b"C first\nD 1970-01-01T00:00:00.000\nF a.txt a9993e364706816aba3e25717850c26c9cd0d89d\nR 6bee3e4d66f0e718f92afb7a3c77d92f\nU ann\nZ 0097365ae02228957f4ffa9e1a281475\n";

/// The name of the check-in's text with its first byte turned, a `B`, as `sha1sum` says.
const TURNED: [u8; 20] =
    *b"\x4f\x37\x5b\x1a\xfc\xe6\x75\xfb\x6f\xd3\x0e\xa4\x23\xb9\xa1\xfd\x0c\x28\xa7\xd4";

/// The file of a repository with the check-in, whose first byte stands at 139, and its content `abc`, whose first one at 106.
fn file(alloc: Global) -> Option<MemoryDisk> {
    let mut repo = opened(alloc, EMPTY)?;
    let all = arrives(&mut repo, b"abc") & arrives(&mut repo, CHECKIN) & repo.commit().is_ok();
    let disk = repo.close();
    match all {
        true => Some(disk),
        false => {
            drop(disk);
            None
        }
    }
}

/// Whether an export and a test of the checksum answer the tree and that it's right, or this fault.
fn answer<D: Disk>(alloc: Global, repo: &mut Repo<D>, fault: ExportFault) -> (bool, bool) {
    let name = Name::of(CHECKIN);
    let (exported, first) = match export(alloc, repo, name) {
        Ok(Export::Tree(items)) => (items.items().len() == 1, true),
        Ok(_) => (false, false),
        Err(why) => (why == fault, false),
    };
    let (verified, second) = match verify(alloc, repo, name) {
        Ok(verdict) => (verdict == Verdict::Right, true),
        Err(why) => (why == fault, false),
    };
    (exported & verified, first & second)
}

/// The answers over a disk that fails after so many calls; none where the file isn't loaded by then.
fn over_fuse(alloc: Global, calls: u64) -> Option<(bool, bool)> {
    let mut repo = loaded(alloc, FuseDisk::new(file(alloc)?, calls))?;
    let answers = answer(alloc, &mut repo, ExportFault::Disk);
    let disk = repo.close();
    drop(disk);
    Some(answers)
}

/// The answers over a disk that gives the byte at a place wrong after so many reads of it, so that an artifact is read as another.
fn over_flip(alloc: Global, at: u64, reads: u64, name: Name, found: Name) -> Option<(bool, bool)> {
    let mut repo = loaded(alloc, FlipDisk::new(file(alloc)?, at, reads))?;
    let answers = answer(alloc, &mut repo, ExportFault::Damaged { name, found });
    let disk = repo.close();
    drop(disk);
    Some(answers)
}

#[test]
fn a_failing_disk_is_told(rt: HostRuntime) -> Result<(), Fail> {
    let mut has_failed = false;
    let mut is_done = false;
    for calls in 0..24 {
        if let Some((right, whole)) = over_fuse(rt.alloc(), calls) {
            assert!(rt; right);
            has_failed |= !whole;
            is_done |= whole;
        }
    }
    assert!(rt; has_failed);
    assert!(rt; is_done);
    Ok(())
}

#[test]
fn a_damaged_content_is_told(rt: HostRuntime) -> Result<(), Fail> {
    let alloc = rt.alloc();
    let name = Name::of(b"abc");
    let found = Name::of(b"\x60bc");
    assert!(rt; over_flip(alloc, 106, 1, name, found) == Some((true, false)));
    assert!(rt; over_flip(alloc, 106, 3, name, found) == Some((true, true)));
    Ok(())
}

#[test]
fn a_damaged_check_in_is_told_of_its_sum_alone(rt: HostRuntime) -> Result<(), Fail> {
    let alloc = rt.alloc();
    let name = Name::of(CHECKIN);
    let found = Name::from_bytes(TURNED);
    assert!(rt; over_flip(alloc, 139, 1, name, found) == Some((true, false)));
    assert!(rt; over_flip(alloc, 139, 2, name, found) == Some((true, true)));
    Ok(())
}
