//! Opens a repository, or its file alone.
ghost use Rattle.std.specs.Prelude.{◌≡◌, ℕ, List, length, IfOk, IfErr, None as NoneSeen};
ghost use Rattle.fsl_blobs.specs.Fold.{contents};
ghost use Rattle.fsl_disk.specs.Disk.{DiskState, IsModelled, Told, Keeps, Quiet, LeavesOnly};
ghost use Rattle.fsl_journal.specs.File.{IsFileOf, FailsAt};
ghost use Rattle.fsl_journal.specs.Journal.{HeldOrSame, IsSpared};
ghost use Rattle.fsl_journal.specs.Log.{IsBetween, StandsBetween, WhereBetween};
ghost use Rattle.fsl_journal.specs.declared.LoadFault.TheVariants as load_fault;
ghost use Rattle.fsl_repo.specs.Opening.{IsOpened, IsFileOpened, HasItems, OpenFailed, SparesFile, disk_of};

use crate::gathering::{Gathered, Named, derived, held};
use crate::{Opened, Repo};
use fsl_disk::Disk;
use fsl_journal::{Journal, LoadFault};
use std::alloc::Global;

impl<D: Disk> Repo<D> {
    /// Opens the repository of a disk. It makes the disk's contents stable, reads the file, cuts the bytes behind the closed
    /// gate, and derives all tables. It reads the file group by group, and drops a group's contents before it reads the next one.
    /// It may be stopped at any moment. The disk comes back with an error.
    ///
    /// Errors: `Disk` where a call of the disk failed; `NotRepository` where the file stands for no records, with the place at
    /// which it fails to; `Memory`.
    /// FORMATS: The repository file
    pub fn load(alloc: Global, mut disk: D) -> Result<Repo<D>, (D, LoadFault)>
        ensures opened { IfOk result (λ repo. IsOpened (D.state disk) (D.state repo.disk) repo) }
        ensures fault { IfErr result (λ failed. OpenFailed failed.1 (D.state disk) (D.state failed.0)) }
        ensures keeps { Keeps (D.state disk) (D.state (disk_of result)) }
        // A file that fails to stand for records stays, at each moment, whatever the answer.
        ensures refused { Told (D.state disk) (λ held. (at : ℕ) → FailsAt held at → Quiet (D.state disk) (D.state (disk_of result))) }
        // Whatever the file holds, a crash at each moment leaves what one before the call might have left, or a file of the
        // records that it stood for; and so does the call.
        ensures harmless { IsModelled (D.state disk) → LeavesOnly (D.state disk) (D.state (disk_of result)) (HeldOrSame (D.state disk)) }
        ensures spared { IsSpared (D.state disk) (D.state (disk_of result)) }

        // Where each image stands for records between two lists, each does so at each moment, and so do the records.
        ensures any_moment { WhereBetween (D.state disk) (λ low high. LeavesOnly (D.state disk) (D.state (disk_of result)) (StandsBetween low high)) }
        ensures between { IfOk result (λ repo. WhereBetween (D.state disk) (λ low high. IsBetween low high repo.seen.state.records)) }
        // And each image then stands for exactly these records.
        ensures durable { IfOk result (λ repo. IsModelled (D.state disk) → (c : List ℕ) → (D.state repo.disk).images c → IsFileOf c repo.seen.state.records) }
        // It isn't `NotRepository` then.
        ensures stays { IfErr result (λ failed. (at : ℕ) → failed.1 ≡ load_fault.NotRepository at → WhereBetween (D.state disk) (λ _ _. ⊥)) }
    {
        let mut gathered = Gathered::nothing(alloc);
        match Journal::load_into(alloc, &mut disk, &mut gathered) {
            Ok(journal) => {
                let loaded = journal.count();
                match derived(gathered) {
                    Ok((blobs, tables)) => Ok(Repo {
                        alloc,
                        disk,
                        journal,
                        blobs,
                        tables,
                        loaded,
                        stored: 0,
                    }),
                    Err(_) => Err((disk, LoadFault::Memory)),
                }
            }
            Err(fault) => {
                drop(gathered);
                Err((disk, fault))
            }
        }
    }
}

/// Opens the file of a repository by its held names. It makes the disk's contents stable, reads the file, and cuts the bytes
/// behind the closed gate. It reads the file group by group, tests each content against its name, and drops it before it reads
/// the next group. It parses nothing. So it takes memory for one group, and for the names, sizes, receipts and places of the
/// blobs. It may be stopped at any moment.
///
/// Errors: `Disk` where a call of the disk failed; `NotRepository` where the file stands for no records, with the place at which
/// it fails to; `Memory`.
pub fn names_of_file<D: Disk>(alloc: Global, disk: &mut D) -> Result<Opened, LoadFault>
    ensures opened { IfOk result (λ f. IsFileOpened (D.state disk.old) (D.state disk.new) f.journal f.blobs) }
    ensures items { IfOk result (λ f. f.items ≡ NoneSeen) }
    ensures fault { IfErr result (λ fault. OpenFailed fault (D.state disk.old) (D.state disk.new)) }
    ensures file { SparesFile (D.state disk.old) (D.state disk.new) }
    // Where each image stands for records, it isn't `NotRepository`.
    ensures stays { IfErr result (λ fault. (at : ℕ) → fault ≡ load_fault.NotRepository at → WhereBetween (D.state disk.old) (λ _ _. ⊥)) }
{
    let mut named = Named::nothing(alloc);
    match Journal::load_into(alloc, disk, &mut named) {
        Ok(journal) => Ok(Opened {
            journal,
            blobs: named.blobs(),
            items: None,
        }),
        Err(fault) => {
            drop(named);
            Err(fault)
        }
    }
}

/// Opens the file of a repository as `names_of_file` does, with the same errors, and parses the held artifacts too. It parses the
/// bytes of each blob once, before they go, also of one that a later record takes out, as a shun does. So it takes memory for one
/// group, for the names, and for the parsed artifacts. It makes no table.
pub fn artifacts_of_file<D: Disk>(alloc: Global, disk: &mut D) -> Result<Opened, LoadFault>
    ensures opened { IfOk result (λ f. IsFileOpened (D.state disk.old) (D.state disk.new) f.journal f.blobs) }
    ensures items { IfOk result (λ f. HasItems (contents f.blobs.records) f.items) }
    ensures fault { IfErr result (λ fault. OpenFailed fault (D.state disk.old) (D.state disk.new)) }
    ensures file { SparesFile (D.state disk.old) (D.state disk.new) }
    // Where each image stands for records, it isn't `NotRepository`.
    ensures stays { IfErr result (λ fault. (at : ℕ) → fault ≡ load_fault.NotRepository at → WhereBetween (D.state disk.old) (λ _ _. ⊥)) }
{
    let mut gathered = Gathered::nothing(alloc);
    match Journal::load_into(alloc, disk, &mut gathered) {
        Ok(journal) => match held(gathered) {
            Ok((blobs, items)) => Ok(Opened {
                journal,
                blobs,
                items: Some(items),
            }),
            Err(_) => {
                drop(journal);
                Err(LoadFault::Memory)
            }
        },
        Err(fault) => {
            drop(gathered);
            Err(fault)
        }
    }
}
