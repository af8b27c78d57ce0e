//! Reads files from a disk.
ghost use Rattle.std.specs.Prelude.{◌≡◌, IfOk, IfErr, OnOk};
ghost use Rattle.fsl_pull.specs.Reading.{IsOnlyRead};
ghost use Rattle.fsl_pull.specs.Reads.{IsPublicRead, FileFails, read_fault};

use crate::PullFault;
use fsl_blobs::{BlobFault, BlobState};
use fsl_disk::Disk;
use fsl_name::Name;
use fsl_repo::Repo;
use fsl_text::Text;

/// Why a file isn't read.
fn read_fault(name: Name, fault: BlobFault) -> PullFault
    ensures { result ≡ read_fault name fault }
{
    match fault {
        BlobFault::Disk => PullFault::Disk,
        BlobFault::Damaged { found } => PullFault::Damaged { name, found },
        _ => PullFault::Memory,
    }
}

/// The content of a name as it is read, where it is held as public. Its bytes have their own name and are within the limit
/// of an artifact, whatever the disk is.
pub(crate) fn read_public<D: Disk>(
    repo: &mut Repo<D>,
    name: Name,
) -> Result<Option<Text>, PullFault>
    ensures read { IfOk result (IsPublicRead repo.old.seen.state name) }
    ensures fault { IfErr result (λ why. FileFails why repo.old.seen.state name repo.new.seen.state) }
    ensures count { OnOk result (repo.new.seen.state ≡ repo.old.seen.state) }
    ensures repo { IsOnlyRead D.state repo.old repo.new }
{
    repo.is_whole();
    match repo.state(name) {
        BlobState::Public { .. } => {}
        _ => return Ok(None),
    }
    match repo.content(name) {
        Ok(bytes) => Ok(Some(bytes)),
        Err(fault) => Err(read_fault(name, fault)),
    }
}
