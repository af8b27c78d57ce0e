//! Commits a round.
ghost use Rattle.std.specs.Prelude.{◌≡◌, ◌≤◌, None};
ghost use Rattle.fsl_disk.specs.Disk.{Keeps};
ghost use Rattle.fsl_pull.specs.Steps.{IsCommitted};

use fsl_disk::Disk;
use fsl_journal::CommitFault;
use fsl_repo::Repo;

/// Commits what a round appended.
pub(crate) fn commit<D: Disk>(repo: &mut Repo<D>) -> Result<(), CommitFault>
    requires { repo.old.seen.state.stopped ≡ None }
    ensures committed { IsCommitted (D.state repo.old.disk) (D.state repo.new.disk) repo.old.seen repo.new.seen result }
    ensures later { repo.old.seen.state.faults ≤ repo.new.seen.state.faults }
    ensures keeps { Keeps (D.state repo.old.disk) (D.state repo.new.disk) }
{
    match repo.commit() {
        Ok(_) => Ok(()),
        Err(fault) => Err(fault),
    }
}
