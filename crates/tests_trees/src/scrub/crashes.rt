//! What a scrub leaves that is stopped at a call of the spare file's disk.
use super::files::{NEW, OLD, ROW_NEW, ROW_SHUNNED};
use fsl_disk::{FuseDisk, MemoryDisk};
use fsl_journal::LoadFault;
use fsl_repo::Repo;
use fsl_scrub::{ScrubFault, scrub};
use std::alloc::Global;
use std::test::Fail;
use tests_kit::{opened, spare_of};

/// Whether a crashed file is no repository or this one.
fn is_none_or_whole(alloc: Global, crashed: MemoryDisk, whole: &[u8]) -> bool {
    match Repo::load(alloc, crashed) {
        Ok(repo) => {
            let disk = repo.close();
            let is_whole = disk.bytes() == whole;
            drop(disk);
            is_whole
        }
        Err((disk, fault)) => {
            drop(disk);
            (fault == LoadFault::NotRepository { at: 0 })
                | (fault == LoadFault::NotRepository { at: 15 })
        }
    }
}

/// Whether each of 16 files that crashes leave is.
fn are_none_or_whole(alloc: Global, spare: &MemoryDisk, whole: &[u8]) -> bool {
    let mut good = true;
    for pick in 0..16 {
        good = match spare.crash(alloc, pick) {
            Ok(crashed) => is_none_or_whole(alloc, crashed, whole) & good,
            Err(_) => false,
        };
    }
    good
}

/// Whether a scrub is done over a spare disk that fails after so many calls, and leaves none or the whole to each crash; whatever
/// isn't done failed by the disk.
fn stops(alloc: Global, bytes: &[u8], whole: &[u8], calls: u64) -> Option<(bool, bool)> {
    let mut repo = opened(alloc, bytes)?;
    let mut spare = FuseDisk::new(spare_of(alloc), calls);
    let answer = scrub(alloc, &mut repo, &mut spare);
    let is_done = answer.is_ok();
    let is_fair = is_done | (answer == Err(ScrubFault::Disk));
    let disk = spare.inner();
    let good = are_none_or_whole(alloc, &disk, whole);
    drop(disk);
    drop(repo.close());
    Some((is_done, good & is_fair))
}

/// Sixteen calls scrub four artifacts and two names: a look at the length, the header and a sync, a place for the length, the
/// Config, four Blobs, two Shuns, a closed gate, the length and a sync, and the gate with a sync. Eleven scrub a file of one name.
#[test]
fn crashes_leave_none_or_the_whole(rt: HostRuntime) -> Result<(), Fail> {
    for calls in 0..18 {
        assert_eq!(rt;
            stops(rt.alloc(), OLD, NEW, calls),
            Some((16 <= calls, true)),
            "after {calls} calls"
        );
        assert_eq!(rt;
            stops(rt.alloc(), ROW_SHUNNED, ROW_NEW, calls),
            Some((11 <= calls, true)),
            "after {calls} calls"
        );
    }
    Ok(())
}
