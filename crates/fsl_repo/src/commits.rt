//! Commits records, and announces names.
ghost use Rattle.std.specs.Prelude.{◌≡◌, ◌⊎◌, List, ℕ, length, IsSome, OnOk};
ghost use Rattle.fsl_disk.specs.Disk.{DiskState, IsModelled, Keeps, LeavesOnly};
ghost use Rattle.fsl_journal.specs.File.{IsFileOf};
ghost use Rattle.fsl_journal.specs.Log.{BeforeOrAll};
ghost use Rattle.fsl_repo.specs.Machine.{IsCommit, IsIdleCommit, AnnounceStep};
ghost use Rattle.fsl_repo.specs.Whole.{log_of};

use crate::Repo;
use fsl_blobs::Known;
use fsl_disk::Disk;
use fsl_journal::CommitFault;
use fsl_name::Name;
use fsl_text::Memory;

impl<D: Disk> Repo<D> {
    /// Puts the appended records on the disk, all of them or none, and returns the number of committed records. It takes no
    /// memory.
    ///
    /// Errors: `Stopped` with the disk's count of faults when an earlier commit failed; `Disk` where a call of the disk
    /// failed, after which the repository is stopped.
    pub fn commit(&mut self) -> Result<u64, CommitFault>
        ensures step { IsCommit self.old.seen.state.stopped self.old.seen.state result self.new.seen.state }
        ensures items { self.new.seen.items ≡ self.old.seen.items }
        ensures loaded { self.new.seen.loaded ≡ self.old.seen.loaded }
        ensures keeps { Keeps (D.state self.old.disk) (D.state self.new.disk) }
        // With nothing to write it calls no device, and a stopped repository never does.
        ensures idle { IsSome self.old.seen.state.stopped ⊎ (self.old.seen.state.committed ≡ length self.old.seen.state.records) → self.new.disk ≡ self.old.disk }
        ensures nothing { IsIdleCommit self.old.seen.state result }

        // At each moment since its start each image stands for the committed records or for all.
        ensures any_moment { IsModelled (D.state self.old.disk) → LeavesOnly (D.state self.old.disk) (D.state self.new.disk) (BeforeOrAll (log_of self.old)) }
        // After Ok each stands for all.
        ensures durable { OnOk result (IsModelled (D.state self.old.disk) → (c : List ℕ) → (D.state self.new.disk).images c → IsFileOf c self.old.seen.state.records) }
    {
        self.journal.commit(&mut self.disk)
    }

    /// Announces a name, also to a stopped repository. It takes memory for `New` alone. `Memory` is the only error.
    pub fn announce(&mut self, name: Name) -> Result<Known, Memory>
        ensures step { AnnounceStep self.old.seen.state name result self.new.seen.state }
        ensures items { self.new.seen.items ≡ self.old.seen.items }
        ensures loaded { self.new.seen.loaded ≡ self.old.seen.loaded }
        ensures disk { self.new.disk ≡ self.old.disk }
    {
        let known = self.blobs.announce(name);
        self.blobs.announced_are_new();
        known
    }
}
