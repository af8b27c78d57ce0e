//! A repository whose disk fails.
use crate::events::cluster;
use crate::repo::{ONE_BLOB, fused};
use fsl_blobs::Known;
use fsl_disk::{FuseDisk, MemoryDisk};
use fsl_journal::CommitFault;
use fsl_name::Name;
use fsl_repo::{ArriveFault, Repo, ShunFault};
use std::alloc::Global;
use std::test::Fail;
use tests_kit::{arrive, arrives};

/// Whether an arrival, a shun, a cluster and a commit are answered as behind a commit that failed.
fn are_stopped(repo: &mut Repo<FuseDisk<MemoryDisk>>) -> bool {
    let arrival = matches!(
        arrive(repo, Name::of(b"def"), b"def", false),
        Err(ArriveFault::Stopped { faults: 1 })
    );
    let shun = matches!(
        repo.shun(Name::of(b"abc")),
        Err(ShunFault::Stopped { faults: 1 })
    );
    let clustering = matches!(cluster(repo), Err(ArriveFault::Stopped { faults: 1 }));
    let commit = matches!(repo.commit(), Err(CommitFault::Stopped { faults: 1 }));
    arrival & shun & clustering & commit
}

/// Whether a commit that the disk fails stops all but announcements.
fn stops(repo: &mut Repo<FuseDisk<MemoryDisk>>) -> bool {
    let arrived = arrives(repo, b"def");
    let failed = matches!(repo.commit(), Err(CommitFault::Disk));
    let stopped = are_stopped(repo);
    arrived & failed & stopped & announces(repo)
}

/// Whether a new name is announced.
fn announces(repo: &mut Repo<FuseDisk<MemoryDisk>>) -> bool {
    matches!(repo.announce(Name::of(b"xyz")), Ok(Known::New))
}

/// Whether a repository stops whose disk fails behind the three calls that load it.
fn stopped_at_commit(alloc: Global) -> bool {
    let Some(mut repo) = fused(alloc, ONE_BLOB, 3) else {
        return false;
    };
    let stopped = stops(&mut repo);
    drop(repo.close());
    stopped
}

/// A disk that fails stops a repository.
#[test]
fn stops_where_the_disk_fails(rt: HostRuntime) -> Result<(), Fail> {
    assert!(rt; stopped_at_commit(rt.alloc()));
    Ok(())
}
