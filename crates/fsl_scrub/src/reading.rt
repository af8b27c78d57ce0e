//! Reads a held artifact as its record in a new file.
ghost use Rattle.std.specs.Prelude.{◌≡◌, IfOk, IfErr};
ghost use Rattle.std.specs.FinMap as map_of;
ghost use Rattle.fsl_record.specs.Records.{IsWritable};
ghost use Rattle.fsl_repo.specs.Arriving.{is_private};
ghost use Rattle.fsl_repo.specs.Machine.{now};
ghost use Rattle.fsl_scrub.specs.Copying.{IsBlobNow, OnlyReads};
ghost use Rattle.fsl_scrub.specs.Faults.{IsOfRead, unread_as};

use crate::faults::WriteFault;
use fsl_blobs::{BlobFault, BlobState};
use fsl_disk::Disk;
use fsl_name::Name;
use fsl_record::{Receipt, Record};
use fsl_repo::Repo;
use fsl_text::Memory;
use std::alloc::Global;

/// Whether a name is held as private.
fn is_private(state: BlobState) -> bool
    ensures { result ≡ is_private state }
{
    matches!(state, BlobState::Private { .. })
}

/// The receipt of a held artifact, in memory of its own.
fn receipt_of<D: Disk>(alloc: Global, repo: &Repo<D>, name: Name) -> Result<Option<Receipt>, Memory>
    ensures { IfOk result (λ receipt. receipt ≡ map_of.get (now repo.now.seen.state).receipts name) }
{
    match repo.receipt(name) {
        Some(receipt) => match receipt.copied(alloc) {
            Ok(copy) => Ok(Some(copy)),
            Err(_) => Err(Memory),
        },
        None => Ok(None),
    }
}

/// Why a Blob isn't written, by why its content isn't read. A name that isn't held has none: only held ones are asked for.
fn unread(name: Name, fault: BlobFault) -> WriteFault
    ensures { result ≡ unread_as name fault }
{
    match fault {
        BlobFault::Disk => WriteFault::Unread,
        BlobFault::Damaged { found } => WriteFault::Damaged { name, found },
        BlobFault::Absent | BlobFault::Memory => WriteFault::Memory,
    }
}

/// The record of a held artifact, with its present privacy and its receipt.
pub(crate) fn blob_at<D: Disk>(
    alloc: Global,
    repo: &mut Repo<D>,
    name: Name,
) -> Result<Record, WriteFault>
    ensures blob { IfOk result (IsBlobNow repo.old.seen.state name) }
    ensures fit { IfOk result IsWritable }
    ensures own { IfErr result IsOfRead }
    ensures reads { OnlyReads (D.state repo.old.disk) (D.state repo.new.disk) repo.old repo.new result }
{
    repo.is_whole();
    let private = is_private(repo.state(name));
    let receipt = receipt_of(alloc, repo, name)?;
    match repo.content(name) {
        Ok(bytes) => Ok(Record::Blob {
            private,
            name,
            receipt,
            bytes,
        }),
        Err(fault) => Err(unread(name, fault)),
    }
}
