//! A repository whose disk fails, or gives a content wrong, while it is scrubbed.
use super::files::OLD;
use fsl_disk::{FlipDisk, FuseDisk, MemoryDisk};
use fsl_journal::LoadFault;
use fsl_name::Name;
use fsl_repo::Repo;
use fsl_scrub::{ScrubFault, Scrubbed, scrub};
use std::alloc::Global;
use std::test::Fail;
use tests_kit::{disk_of, loaded, spare_of};

/// Where a spare file fails to be a repository; none where it is one.
fn fails_at(alloc: Global, spare: MemoryDisk) -> Option<LoadFault> {
    match Repo::load(alloc, spare) {
        Ok(repo) => {
            drop(repo.close());
            None
        }
        Err((disk, fault)) => {
            drop(disk);
            Some(fault)
        }
    }
}

/// What a scrub answers over a disk that gives the first byte of `second` wrong after so many reads, and what its file is.
fn spoilt(alloc: Global, reads: u64) -> Option<(Result<Scrubbed, ScrubFault>, Option<LoadFault>)> {
    let mut repo = loaded(alloc, FlipDisk::new(disk_of(alloc, OLD).ok()?, 226, reads))?;
    let mut spare = spare_of(alloc);
    let answer = scrub(alloc, &mut repo, &mut spare);
    drop(repo.close().inner());
    Some((answer, fails_at(alloc, spare)))
}

/// One read loads the file, and one reads the content.
#[test]
fn a_damaged_content_is_not_written(rt: HostRuntime) -> Result<(), Fail> {
    let damaged = ScrubFault::Damaged {
        name: Name::of(b"second"),
        found: Name::of(b"recond"),
    };
    assert_eq!(rt;
        spoilt(rt.alloc(), 1),
        Some((Err(damaged), Some(LoadFault::NotRepository { at: 15 })))
    );
    let told = Scrubbed {
        blobs: 4,
        shuns: 2,
        len: 290,
    };
    assert_eq!(rt; spoilt(rt.alloc(), 2), Some((Ok(told), None)));
    Ok(())
}

/// What a scrub answers over a repository's disk that fails after so many calls, and what its file is; none where the
/// repository doesn't load.
fn unread(alloc: Global, calls: u64) -> Option<(Result<Scrubbed, ScrubFault>, Option<LoadFault>)> {
    let mut repo = loaded(alloc, FuseDisk::new(disk_of(alloc, OLD).ok()?, calls))?;
    let mut spare = spare_of(alloc);
    let answer = scrub(alloc, &mut repo, &mut spare);
    drop(repo.close().inner());
    Some((answer, fails_at(alloc, spare)))
}

/// A call of the repository's disk that fails is a fault of the disk too. Three calls load the file, and one reads each of the
/// four contents.
#[test]
fn a_repository_that_is_not_read_is_not_written(rt: HostRuntime) -> Result<(), Fail> {
    let failed = Some((
        Err(ScrubFault::Disk),
        Some(LoadFault::NotRepository { at: 15 }),
    ));
    assert_eq!(rt; unread(rt.alloc(), 2), None);
    for calls in 3..7 {
        assert_eq!(rt; unread(rt.alloc(), calls), failed, "after {calls} calls");
    }
    let told = Scrubbed {
        blobs: 4,
        shuns: 2,
        len: 290,
    };
    assert_eq!(rt; unread(rt.alloc(), 7), Some((Ok(told), None)));
    Ok(())
}
