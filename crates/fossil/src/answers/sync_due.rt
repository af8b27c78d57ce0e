//! Says what a sync came to.
ghost use Rattle.fossil.specs.Due.{IsNotLoadedAs};
ghost use Rattle.fossil.specs.Syncs.{no_peer};
ghost use Rattle.fossil.specs.Syncing.{IsFaultDue, IsSyncDue};

use crate::answers::answer::{full, not_repository, numbered_refusal, too_large};
use crate::answers::due::{Due, answered};
use crate::answers::fault::Fault;
use crate::answers::sync_text::{
    missing, no_peer, other_project, synced, too_many_rounds, wrong_reply,
};
use fsl_journal::LoadFault;
use fsl_pull::{PullFault, Pulled};
use std::alloc::Global;

/// What is due of a fault of a sync.
fn fault_due(alloc: Global, fault: PullFault) -> Due
    ensures { IsFaultDue fault result }
{
    match fault {
        PullFault::NotEmpty { len } => answered(numbered_refusal(alloc, b"file not empty ", len)),
        PullFault::NotRepository { at } => answered(not_repository(alloc, at)),
        PullFault::Project { found } => answered(other_project(alloc, found)),
        PullFault::Stopped { .. } => Err(Fault::Disk),
        PullFault::Link => Err(Fault::Link),
        PullFault::Disk => Err(Fault::Disk),
        PullFault::Peer(why) => answered(wrong_reply(alloc, &why)),
        PullFault::TooLarge { name, size } => answered(too_large(alloc, name, size)),
        PullFault::Full { name } => answered(full(alloc, name)),
        PullFault::Missing { name } => answered(missing(alloc, name)),
        PullFault::Rounds => answered(too_many_rounds(alloc)),
        PullFault::Damaged { name, found } => Err(Fault::Damaged { name, found }),
        PullFault::Memory => Err(Fault::Memory),
    }
}

/// What is due of a sync that was made.
pub(crate) fn sync_due(alloc: Global, made: Result<Pulled, PullFault>) -> Due
    ensures { IsSyncDue made result }
{
    match made {
        Ok(pulled) => answered(synced(alloc, &pulled)),
        Err(fault) => fault_due(alloc, fault),
    }
}

/// What is due of a peer's file that isn't loaded.
pub(crate) fn unopened_peer(alloc: Global, fault: LoadFault) -> Due
    ensures { IsNotLoadedAs no_peer fault result }
{
    match fault {
        LoadFault::Disk => Err(Fault::Disk),
        LoadFault::NotRepository { at } => answered(no_peer(alloc, at)),
        LoadFault::Memory => Err(Fault::Memory),
    }
}
