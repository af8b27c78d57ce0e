//! `pull-local`: artifacts come from the repository of another file.
ghost use Rattle.fsl_disk.specs.Disk.{Keeps};
ghost use Rattle.fsl_repo.specs.Whole.{IsWholeOn};
ghost use Rattle.fsl_pull.specs.Reading.{IsOnlyRead};
ghost use Rattle.fossil.specs.Syncing.{HasPulledFrom, PullsInto, PullsLocal};

use crate::answers::due::Due;
use crate::answers::sync_due::{sync_due, unopened_peer};
use crate::reading::load::not_loaded;
use fsl_disk::Disk;
use fsl_repo::Repo;
use std::alloc::Global;

/// Pulls from one repository into another, and answers what is due of that.
fn pull_between<D: Disk, P: Disk>(alloc: Global, repo: &mut Repo<D>, peer: &mut Repo<P>) -> Due
    ensures pulled { HasPulledFrom (D.state repo.old.disk, D.state repo.new.disk) repo.old.seen repo.new.seen (peer.old.seen, peer.new.seen) result }
    ensures whole { IsWholeOn (D.state repo.new.disk) repo.new }
    ensures keeps { Keeps (D.state repo.old.disk) (D.state repo.new.disk) }
    ensures peer { IsOnlyRead P.state peer.old peer.new }
    ensures peer_whole { IsWholeOn (P.state peer.new.disk) peer.new }
{
    let made = fsl_pull::pull_local(alloc, repo, peer);
    repo.is_whole();
    peer.is_whole();
    sync_due(alloc, made)
}

/// Opens the peer, and pulls from it into a repository that was opened. The peer's disk comes back.
fn pull_from<D: Disk, P: Disk>(alloc: Global, repo: &mut Repo<D>, peer: P) -> (Due, P)
    ensures { PullsInto (D.state, repo.old, repo.new) (P.state, peer, result.1) result.0 }
{
    match Repo::load(alloc, peer) {
        Ok(mut there) => {
            there.is_whole();
            let due = pull_between(alloc, repo, &mut there);
            (due, there.close())
        }
        Err((peer, fault)) => (unopened_peer(alloc, fault), peer),
    }
}

/// Opens the repository and then its peer, and pulls from this into that. What is due of that is answered, and the disks
/// come back.
pub(crate) fn pull_local<D: Disk, P: Disk>(alloc: Global, disk: D, peer: P) -> (Due, D, P)
    ensures { PullsLocal (D.state, disk, result.1) (P.state, peer, result.2) result.0 }
{
    match Repo::load(alloc, disk) {
        Ok(mut repo) => {
            repo.is_whole();
            let (due, peer) = pull_from(alloc, &mut repo, peer);
            (due, repo.close(), peer)
        }
        Err((disk, fault)) => (not_loaded(alloc, fault), disk, peer),
    }
}
