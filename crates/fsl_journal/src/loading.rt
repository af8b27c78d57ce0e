//! Opens a journal: reads the file, and cuts the bytes behind its closed gate.
ghost use Rattle.std.specs.Prelude.{◌≡◌, [], ◌+◌, ◌<◌, ◌≤◌, ◌^◌, ℕ, List, length, take, None, Some, IsTrue, IfOk, OnOk, IfErr};
ghost use Rattle.fsl_order.specs.Causes.{HasCause};
ghost use Rattle.fsl_disk.specs.Disk.{DiskState, IsModelled, Told, Keeps, Calls, CutShort, Quiet, Only, LeavesOnly};
ghost use Rattle.fsl_journal.specs.File.{IsFileOf, FailsAt};
ghost use Rattle.fsl_journal.specs.Log.{Log, IsBetween, StandsBetween, WhereBetween, IsLoaded};
ghost use Rattle.fsl_journal.specs.Places.{AreNumbered, IsPlacedFile};
ghost use Rattle.fsl_journal.specs.Journal.{Belongs, OfBytes, LoadFailed, HeldOrSame, IsSpared};
ghost use Rattle.fsl_journal.specs.declared.LoadFault.TheVariants as load_fault;

use crate::reading::read_file;
use crate::taking::{Collected, Taker};
use crate::{Journal, LoadFault};
use fsl_disk::Disk;
use fsl_outside::Failed;
use fsl_record::Record;
use fsl_text::List;
use std::alloc::Global;

/// Cuts what stands behind this place, where anything does.
fn cut_behind<D: Disk>(disk: &mut D, place: u64, len: u64) -> Result<(), Failed>
    requires len { len < 2 ^ 63 }
    requires held { Told (D.state disk.old) (λ held. length held ≡ len) }
    requires inside { place < len }
    ensures cut { OnOk result (Told (D.state disk.old) (λ held. (D.state disk.new).contents ≡ Some (take (place + 1) held))) }
    ensures call { Calls (CutShort (place + 1)) (D.state disk.old) (D.state disk.new) }
    ensures cause { HasCause (D.state disk.old).faults (D.state disk.new).faults result }
{
    if place + 1 == len {
        return Ok(());
    }
    disk.cut(place + 1)
}

impl Journal {
    /// Opens the journal of a disk, and hands its records on, group after group, with the places of their contents. The
    /// taker has none before. It makes stable what the disk holds, reads the file, of either version, and cuts the bytes
    /// behind the closed gate. It reads a part at a time, with no more than one group, and tests each content once. It may
    /// be stopped at any moment.
    ///
    /// Errors: `Disk` where a call of the disk failed; `NotRepository` with the place at which the file fails to be a
    /// repository's; `Memory`, also where the taker answers that.
    ///
    /// FORMATS: The repository file
    pub fn load_into<D: Disk, T: Taker>(
        alloc: Global,
        disk: &mut D,
        taker: &mut T,
    ) -> Result<Journal, LoadFault>
        requires taken { (T.taken taker.old ≡ []) × (T.starts taker.old ≡ []) }
        requires sound { T.is_sound taker.old }
        ensures loaded { IfOk result (λ journal. IsLoaded journal (T.taken taker.new)) }
        ensures places { IfOk result (λ journal. (journal.places ≡ T.starts taker.new) × AreNumbered (T.taken taker.new) (T.starts taker.new)) }
        ensures sound { OnOk result (T.is_sound taker.new) }
        // They are those of the groups of the bytes that were read.
        ensures numbered { IfOk result (λ journal. OfBytes (D.state disk.old) (λ bytes. IsPlacedFile bytes (T.taken taker.new) (T.starts taker.new))) }
        ensures stands { IfOk result (λ journal. OfBytes (D.state disk.old) (λ bytes. IsFileOf bytes (T.taken taker.new))) }
        ensures cut { IfOk result (λ journal. Told (D.state disk.old) (λ held. (D.state disk.new).contents ≡ Some (take (journal.place + 1) held))) }
        ensures belongs { IfOk result (λ journal. Belongs journal (D.state disk.new)) }
        ensures count { OnOk result ((D.state disk.new).faults ≡ (D.state disk.old).faults) }
        ensures fault { IfErr result (λ fault. LoadFailed fault (D.state disk.old) (D.state disk.new)) }
        ensures keeps { Keeps (D.state disk.old) (D.state disk.new) }
        // A file that fails to stand for records stays, at each moment, whatever the answer.
        ensures refused { Told (D.state disk.old) (λ held. (at : ℕ) → FailsAt held at → Quiet (D.state disk.old) (D.state disk.new)) }

        // Where each image stands for records between two lists, each does so at each moment, and so do the records.
        ensures any_moment { WhereBetween (D.state disk.old) (λ low high. LeavesOnly (D.state disk.old) (D.state disk.new) (StandsBetween low high)) }
        // Whatever it holds, a crash at each moment leaves what one before the call might have left, or a file of the records that it stood for.
        ensures harmless { IsModelled (D.state disk.old) → LeavesOnly (D.state disk.old) (D.state disk.new) (HeldOrSame (D.state disk.old)) }
        ensures spared { IsSpared (D.state disk.old) (D.state disk.new) }
        ensures between { IfOk result (λ journal. WhereBetween (D.state disk.old) (λ low high. IsBetween low high (T.taken taker.new))) }
        // And each image then stands for exactly these records.
        ensures durable { IfOk result (λ journal. IsModelled (D.state disk.old) → (c : List ℕ) → (D.state disk.new).images c → IsFileOf c (T.taken taker.new)) }
        // It isn't `NotRepository` then.
        ensures stays { IfErr result (λ fault. (at : ℕ) → fault ≡ load_fault.NotRepository at → WhereBetween (D.state disk.old) (λ _ _. ⊥)) }
    {
        disk.sync()?;
        let (found, len) = read_file(alloc, disk, taker)?;
        match cut_behind(disk, found.place, len) {
            Ok(()) => Ok(Journal::resumed(alloc, found)),
            Err(_) => {
                drop(found);
                Err(LoadFault::Disk)
            }
        }
    }

    /// Opens the journal of a disk, and answers its records and the places of their contents, with 0 for a record that is
    /// no Blob. It makes stable what the disk holds, reads the file, of either version, and cuts the bytes behind the closed
    /// gate. It may be stopped at any moment.
    ///
    /// Errors: `Disk` where a call of the disk failed; `NotRepository` with the place at which the file fails to be a
    /// repository's; `Memory`.
    ///
    /// FORMATS: The repository file
    pub fn load<D: Disk>(
        alloc: Global,
        disk: &mut D,
    ) -> Result<(Journal, List<u64>, List<Record>), LoadFault>
        ensures loaded { IfOk result (λ loaded. IsLoaded loaded.0 loaded.2) }
        ensures places { IfOk result (λ loaded. (loaded.0.places ≡ loaded.1) × AreNumbered loaded.2 loaded.1) }
        // They are those of the groups of the bytes that were read.
        ensures numbered { IfOk result (λ loaded. OfBytes (D.state disk.old) (λ bytes. IsPlacedFile bytes loaded.2 loaded.1)) }
        ensures stands { IfOk result (λ loaded. OfBytes (D.state disk.old) (λ bytes. IsFileOf bytes loaded.2)) }
        ensures cut { IfOk result (λ loaded. Told (D.state disk.old) (λ held. (D.state disk.new).contents ≡ Some (take (loaded.0.place + 1) held))) }
        ensures belongs { IfOk result (λ loaded. Belongs loaded.0 (D.state disk.new)) }
        ensures count { OnOk result ((D.state disk.new).faults ≡ (D.state disk.old).faults) }
        ensures fault { IfErr result (λ fault. LoadFailed fault (D.state disk.old) (D.state disk.new)) }
        ensures keeps { Keeps (D.state disk.old) (D.state disk.new) }
        // A file that fails to stand for records stays, at each moment, whatever the answer.
        ensures refused { Told (D.state disk.old) (λ held. (at : ℕ) → FailsAt held at → Quiet (D.state disk.old) (D.state disk.new)) }

        // Where each image stands for records between two lists, each does so at each moment, and so do the records.
        ensures any_moment { WhereBetween (D.state disk.old) (λ low high. LeavesOnly (D.state disk.old) (D.state disk.new) (StandsBetween low high)) }
        // Whatever it holds, a crash at each moment leaves what one before the call might have left, or a file of the records that it stood for.
        ensures harmless { IsModelled (D.state disk.old) → LeavesOnly (D.state disk.old) (D.state disk.new) (HeldOrSame (D.state disk.old)) }
        ensures spared { IsSpared (D.state disk.old) (D.state disk.new) }
        ensures between { IfOk result (λ loaded. WhereBetween (D.state disk.old) (λ low high. IsBetween low high loaded.2)) }
        // And each image then stands for exactly these records.
        ensures durable { IfOk result (λ loaded. IsModelled (D.state disk.old) → (c : List ℕ) → (D.state disk.new).images c → IsFileOf c loaded.2) }
        // It isn't `NotRepository` then.
        ensures stays { IfErr result (λ fault. (at : ℕ) → fault ≡ load_fault.NotRepository at → WhereBetween (D.state disk.old) (λ _ _. ⊥)) }
    {
        let mut all = Collected::none(alloc);
        match Journal::load_into(alloc, disk, &mut all) {
            Ok(journal) => {
                let Collected { records, places } = all;
                Ok((journal, List::from_vec(places), List::from_vec(records)))
            }
            Err(fault) => {
                drop(all);
                Err(fault)
            }
        }
    }
}
