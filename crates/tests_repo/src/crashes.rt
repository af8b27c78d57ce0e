//! What crashes leave of a commit, as repositories that are loaded again.
use crate::histories::artifact;
use crate::printing::{Shown, show_all, shown_by, unlike_all};
use crate::repo::{ONE_BLOB, ONE_LATER_BLOB, fused};
use fsl_disk::{FuseDisk, MemoryDisk};
use fsl_name::Name;
use fsl_repo::Repo;
use std::alloc::Global;
use std::test::Fail;
use tests_kit::arrives;

/// What a repository showed before three steps and behind them, whether these were taken and committed, and the disk that it
/// left behind.
#[derive(Drop)]
struct Left {
    before: Shown,
    behind: Shown,
    are_taken: bool,
    is_committed: bool,
    disk: MemoryDisk,
}

/// Whether a check-in and a file of it arrive, and `abc`, which was held, is shunned.
fn takes_three(repo: &mut Repo<FuseDisk<MemoryDisk>>) -> bool {
    let checkin = arrives(repo, artifact(4));
    let file = arrives(repo, artifact(0));
    let shunned = repo.shun(Name::of(b"abc")).is_ok();
    checkin & file & shunned
}

/// Takes the three steps and commits them, as far as the disk doesn't fail.
fn take_and_commit(alloc: Global, mut repo: Repo<FuseDisk<MemoryDisk>>) -> Left {
    let before = show_all(alloc, &mut repo);
    let are_taken = takes_three(&mut repo);
    let behind = show_all(alloc, &mut repo);
    let is_committed = repo.commit().is_ok();
    Left {
        before,
        behind,
        are_taken,
        is_committed,
        disk: repo.close().inner(),
    }
}

/// What the file of one crash shows.
fn shown_after(alloc: Global, disk: &MemoryDisk, pick: u64) -> Shown {
    match disk.crash(alloc, pick) {
        Ok(image) => shown_by(alloc, image),
        Err(_) => unlike_all(alloc),
    }
}

/// Whether the file of one crash shows the repository as it is behind all three steps, or, where the commit failed, as it was.
fn is_none_or_all(alloc: Global, left: &Left, pick: u64) -> bool {
    let shown = shown_after(alloc, &left.disk, pick);
    let is_all = shown.is_like(&left.behind);
    let is_none = shown.is_like(&left.before);
    drop(shown);
    is_all | (!left.is_committed & is_none)
}

/// Whether each of 16 files that crashes leave shows none or all of the three steps.
fn are_none_or_all(alloc: Global, left: &Left) -> bool {
    let mut good = left.are_taken;
    for pick in 0..16 {
        good = is_none_or_all(alloc, left, pick) & good;
    }
    good
}

/// Whether the three steps were committed, and each crash leaves none or all of them, over a disk that fails after so many
/// calls; nothing where it fails before the repository is loaded.
fn is_committed_after(alloc: Global, bytes: &[u8], calls: u64) -> Option<(bool, bool)> {
    let repo = fused(alloc, bytes, calls)?;
    let left = take_and_commit(alloc, repo);
    let good = are_none_or_all(alloc, &left);
    let is_committed = left.is_committed;
    drop(left);
    Some((is_committed, good))
}

/// The same, as it has to be where three calls load the repository, and so many are enough for the commit too.
fn wanted(calls: u64, enough: u64) -> Option<(bool, bool)> {
    if calls < 3 {
        None
    } else {
        Some((enough <= calls, true))
    }
}

/// Whatever device call fails, a crash leaves none or all of a commit; and all where the commit was done. A file of version 1 is
/// carried over by two calls more.
#[test]
fn crashes_leave_none_or_all(rt: HostRuntime) -> Result<(), Fail> {
    for calls in 0..16 {
        assert_eq!(rt;
            is_committed_after(rt.alloc(), ONE_LATER_BLOB, calls),
            wanted(calls, 9),
            "after {calls} calls"
        );
        assert_eq!(rt;
            is_committed_after(rt.alloc(), ONE_BLOB, calls),
            wanted(calls, 11),
            "after {calls} calls, over version 1"
        );
    }
    Ok(())
}
