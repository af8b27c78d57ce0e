//! A commit that stops after so many calls of its disk, a crash, an opening that stops after so many, another crash, and a whole opening.
use crate::crashing::{Kind, Version, file_of, kind_after};
use fsl_disk::{FuseDisk, MemoryDisk};
use fsl_journal::LoadFault;
use fsl_name::Name;
use fsl_repo::Repo;
use std::alloc::Global;
use std::test::Fail;
use tests_kit::arrives;

type Fused = FuseDisk<MemoryDisk>;

/// Whether `abc` and the empty text arrive, and this one is shunned.
fn takes_three(repo: &mut Repo<Fused>) -> bool {
    let abc = arrives(repo, b"abc");
    let empty = arrives(repo, b"");
    let shunned = repo.shun(Name::of(b"")).is_ok();
    abc & empty & shunned
}

/// What is left of a commit: the disk, whether all went well in memory, and whether it was done.
#[derive(Drop)]
struct Left {
    disk: MemoryDisk,
    is_taken: bool,
    is_done: bool,
}

fn take_and_commit(mut repo: Repo<Fused>) -> Left {
    let is_taken = takes_three(&mut repo);
    let is_done = repo.commit().is_ok();
    Left {
        disk: repo.close().inner(),
        is_taken,
        is_done,
    }
}

/// Opens a repository, takes the three steps and commits them, as far as the disk goes.
fn commit_over(alloc: Global, disk: Fused) -> Left {
    match Repo::load(alloc, disk) {
        Ok(repo) => take_and_commit(repo),
        Err((disk, fault)) => Left {
            disk: disk.inner(),
            is_taken: fault == LoadFault::Disk,
            is_done: false,
        },
    }
}

/// What is left of an opening: the disk, and whether the file was a repository as far as it was seen.
#[derive(Drop)]
struct Opened {
    disk: MemoryDisk,
    is_good: bool,
}

/// Opens a repository, as far as the disk goes.
fn open_over(alloc: Global, disk: Fused) -> Opened {
    match Repo::load(alloc, disk) {
        Ok(repo) => Opened {
            disk: repo.close().inner(),
            is_good: true,
        },
        Err((disk, fault)) => Opened {
            disk: disk.inner(),
            is_good: fault == LoadFault::Disk,
        },
    }
}

/// Whether each of 16 crashes leaves this.
fn is_left_by_each(alloc: Global, version: Version, disk: &MemoryDisk, kind: Kind) -> bool {
    let mut good = true;
    for pick in 0..16 {
        good = (kind_after(alloc, version, disk, pick) == kind) & good;
    }
    good
}

/// Whether what a crash leaves still stands for this behind an opening that stops after so many calls, and a crash of it.
fn stays(
    alloc: Global,
    version: Version,
    disk: &MemoryDisk,
    pick: u64,
    calls: u64,
    kind: Kind,
) -> bool {
    match disk.crash(alloc, pick) {
        Ok(image) => {
            let opened = open_over(alloc, FuseDisk::new(image, calls));
            let stays = is_left_by_each(alloc, version, &opened.disk, kind) & opened.is_good;
            drop(opened);
            stays
        }
        Err(_) => false,
    }
}

/// Whether a crash leaves none or all of the three records, or all where they were committed, and openings that stop lose nothing
/// of this.
fn is_recovered(
    alloc: Global,
    version: Version,
    disk: &MemoryDisk,
    pick: u64,
    is_done: bool,
) -> bool {
    let kind = kind_after(alloc, version, disk, pick);
    let mut good = (kind == Kind::All) | ((kind == Kind::Config) & !is_done);
    for calls in 0..9 {
        good = stays(alloc, version, disk, pick, calls, kind) & good;
    }
    good
}

/// Whether the commit of a file was done over a disk that stops after so many calls, and each of 16 crashes is recovered from.
fn stopped_after(alloc: Global, version: Version, calls: u64) -> Option<(bool, bool)> {
    let Ok(bytes) = file_of(version).to_vec(alloc) else {
        return None;
    };
    let disk = MemoryDisk::new(alloc, bytes, Vec::new(alloc));
    let left = commit_over(alloc, FuseDisk::new(disk, calls));
    let is_done = left.is_done;
    let mut good = left.is_taken;
    for pick in 0..16 {
        good = is_recovered(alloc, version, &left.disk, pick, is_done) & good;
    }
    drop(left);
    Some((is_done, good))
}

/// The first number of calls that stops nothing, where all are recovered from up to it.
fn enough(alloc: Global, version: Version) -> Option<u64> {
    for calls in 0..32 {
        let (is_done, good) = stopped_after(alloc, version, calls)?;
        if !good {
            return None;
        }
        if is_done {
            return Some(calls);
        }
    }
    None
}

/// Wherever a commit stops, and wherever the openings behind a crash of it stop, nothing is lost that was there.
#[test]
fn nothing_is_lost_by_stops(rt: HostRuntime) -> Result<(), Fail> {
    assert!(rt; enough(rt.alloc(), Version::Two).is_some());
    Ok(())
}

/// A file of version 1, which is carried over by the commit.
#[test]
fn nothing_is_lost_by_stops_of_a_carry_over(rt: HostRuntime) -> Result<(), Fail> {
    assert!(rt; enough(rt.alloc(), Version::One).is_some());
    Ok(())
}
