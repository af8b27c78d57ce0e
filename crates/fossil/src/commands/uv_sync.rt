//! `uv-sync`: the newest unversioned files go both ways between two files.
ghost use Rattle.std.specs.Prelude.{◌≡◌, IfOk};
ghost use Rattle.fsl_uv.specs.Stores.{IsStore, IsSettled};
ghost use Rattle.fossil.specs.Syncs.{no_peer};
ghost use Rattle.fossil.specs.UvCalls.{IsNoStoreAs};
ghost use Rattle.fossil.specs.UvMerging.{counted, IsUvSyncDue, Talks, MergesInto, MergesFiles};

use crate::answers::answer::{Answer, refusal};
use crate::answers::due::{Due, answered};
use crate::answers::fault::Fault;
use crate::answers::status::DONE;
use crate::answers::sync_text::{no_peer, other_project};
use crate::commands::unversioned::{no_store, not_unversioned};
use fsl_disk::Disk;
use fsl_text::{Memory, Text};
use fsl_uv::{Store, SyncFault, UvLoadFault};
use std::alloc::Global;

/// How many entries were stored here and at the peer.
fn counts(alloc: Global, received: u64, sent: u64) -> Result<Answer, Memory>
    ensures { IfOk result (λ a. a ≡ counted received sent) }
{
    let here = received.to_string(alloc)?;
    let there = sent.to_string(alloc)?;
    let mut text = Text::of(alloc, b"received ")?;
    text.append(here.as_bytes())?;
    text.append(b"\nsent ")?;
    text.append(there.as_bytes())?;
    text.append(b"\n")?;
    Ok(Answer { status: DONE, text })
}

/// What is due of a sync that was made.
fn uv_sync_due(alloc: Global, made: Result<(u64, u64), SyncFault>) -> Due
    ensures { IsUvSyncDue made result }
{
    match made {
        Ok((received, sent)) => answered(counts(alloc, received, sent)),
        Err(SyncFault::Full) => answered(refusal(alloc, b"full")),
        Err(SyncFault::Disk) => Err(Fault::Disk),
        Err(SyncFault::Memory) => Err(Fault::Memory),
    }
}

/// What is due of a peer's file that isn't opened as a store.
fn no_peer_store(alloc: Global, fault: UvLoadFault) -> Due
    ensures { IsNoStoreAs no_peer fault result }
{
    match fault {
        UvLoadFault::Disk => Err(Fault::Disk),
        UvLoadFault::NotRepository { at } => answered(no_peer(alloc, at)),
        UvLoadFault::NotEntry { name } => answered(not_unversioned(alloc, name)),
        UvLoadFault::Memory => Err(Fault::Memory),
    }
}

/// Syncs two stores of one project, and answers what is due of that.
fn talk<D: Disk, P: Disk>(alloc: Global, here: &mut Store<D>, there: &mut Store<P>) -> Due
    requires here { IsSettled here.old.seen.log }
    requires there { IsSettled there.old.seen.log }
    ensures talks { Talks D.state P.state here.old there.old here.new there.new result }
    ensures here { IsStore (D.state here.new.disk) here.new.seen }
    ensures there { IsStore (P.state there.new.disk) there.new.seen }
{
    let found = there.config().project;
    let same = found == here.config().project;
    let due = if same {
        uv_sync_due(alloc, fsl_uv::sync(here, there))
    } else {
        answered(other_project(alloc, found))
    };
    here.is_store();
    there.is_store();
    due
}

/// Opens the peer's file as a store, and syncs one that was opened with it. The peer's disk comes back.
fn sync_with<D: Disk, P: Disk>(alloc: Global, here: &mut Store<D>, peer: P) -> (Due, P)
    requires { IsSettled here.old.seen.log }
    ensures { MergesInto (D.state, here.old, here.new) (P.state, peer, result.1) result.0 }
{
    match Store::load(alloc, peer) {
        Ok(mut there) => {
            there.is_store();
            let due = talk(alloc, here, &mut there);
            (due, there.close())
        }
        Err((peer, fault)) => (no_peer_store(alloc, fault), peer),
    }
}

/// Opens a file of unversioned files and then its peer's, and syncs both. What is due of that is answered, and the disks come
/// back.
pub(crate) fn uv_sync<D: Disk, P: Disk>(alloc: Global, disk: D, peer: P) -> (Due, D, P)
    ensures { MergesFiles (D.state, disk, result.1) (P.state, peer, result.2) result.0 }
{
    match Store::load(alloc, disk) {
        Ok(mut here) => {
            here.is_store();
            let (due, peer) = sync_with(alloc, &mut here, peer);
            (due, here.close(), peer)
        }
        Err((disk, fault)) => (no_store(alloc, fault), disk, peer),
    }
}
