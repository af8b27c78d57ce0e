//! `scrub`: writes a new file of a repository, without what is shunned.
ghost use Rattle.std.specs.Prelude.{◌≡◌, length, IfOk};
ghost use Rattle.fossil.specs.Scrubs as scrubs;
ghost use Rattle.fossil.specs.ScrubCall.{IsScrubDue, IsUnscrubbedDue, ScrubsFile, ScrubsInto};

use crate::answers::answer::{Answer, numbered_refusal};
use crate::answers::due::{Due, answered};
use crate::answers::fault::Fault;
use crate::answers::status::DONE;
use crate::reading::load::not_loaded;
use crate::worked::append_line;
use fsl_disk::Disk;
use fsl_repo::Repo;
use fsl_scrub::{ScrubFault, Scrubbed};
use fsl_text::{Memory, Text};
use std::alloc::Global;

/// How many artifacts and shunned names a new file has, and its length.
fn counts(alloc: Global, made: Scrubbed) -> Result<Answer, Memory>
    ensures { IfOk result (λ a. a ≡ scrubs.counts made.blobs made.shuns made.len) }
{
    let mut text = Text::empty(alloc);
    append_line(alloc, &mut text, b"blobs ", made.blobs)?;
    append_line(alloc, &mut text, b"shuns ", made.shuns)?;
    append_line(alloc, &mut text, b"length ", made.len)?;
    Ok(Answer { status: DONE, text })
}

/// What is due of a scrub that wasn't made.
fn unscrubbed_due(alloc: Global, fault: ScrubFault) -> Due
    ensures { IsUnscrubbedDue fault result }
{
    match fault {
        ScrubFault::NotEmpty { len } => answered(numbered_refusal(alloc, b"file not empty ", len)),
        ScrubFault::Disk => Err(Fault::Disk),
        ScrubFault::Damaged { name, found } => Err(Fault::Damaged { name, found }),
        ScrubFault::Memory => Err(Fault::Memory),
    }
}

/// What is due of a scrub.
fn scrub_due(alloc: Global, made: Result<Scrubbed, ScrubFault>) -> Due
    ensures { IsScrubDue made result }
{
    match made {
        Ok(made) => answered(counts(alloc, made)),
        Err(fault) => unscrubbed_due(alloc, fault),
    }
}

/// Writes the new file of a repository that was opened over a peer's file without bytes, and answers what is due of that.
fn scrub_into<D: Disk, P: Disk>(alloc: Global, repo: &mut Repo<D>, peer: &mut P) -> Due
    requires { length repo.old.seen.state.records ≡ repo.old.seen.state.committed }
    ensures { ScrubsInto (D.state, repo.old, repo.new) (P.state, peer.old, peer.new) result }
{
    repo.is_whole();
    let made = fsl_scrub::scrub(alloc, repo, peer);
    repo.is_whole();
    scrub_due(alloc, made)
}

/// Opens a repository, which stays, and then writes its new file over a peer's file without bytes. What is due of that is
/// answered, and the disks come back.
pub(crate) fn scrub<D: Disk, P: Disk>(alloc: Global, disk: D, peer: P) -> (Due, D, P)
    ensures { ScrubsFile (D.state, disk, result.1) (P.state, peer, result.2) result.0 }
{
    let mut peer = peer;
    match Repo::load(alloc, disk) {
        Ok(mut repo) => {
            repo.is_whole();
            let due = scrub_into(alloc, &mut repo, &mut peer);
            (due, repo.close(), peer)
        }
        Err((disk, fault)) => (not_loaded(alloc, fault), disk, peer),
    }
}
