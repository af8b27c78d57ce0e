//! Answers questions without a change.
ghost use Rattle.std.specs.Prelude.{◌≡◌, ◌↔◌, Some, None, Err, IfOk, IfErr, OnOk, map};
ghost use Rattle.std.specs.Option.{option_copied};
ghost use Rattle.std.specs.FinMap as map_of;
ghost use Rattle.std.specs.FinSet as set;
ghost use Rattle.fsl_order.specs.Rows.{ascending};
ghost use Rattle.fsl_blobs.specs.Fold.{held_bytes, held_from, private_names};
ghost use Rattle.fsl_blobs.specs.Held.{state_of, matching, found};
ghost use Rattle.fsl_blobs.specs.declared.BlobFault.TheVariants.{Absent as AbsentFault};
ghost use Rattle.fsl_disk.specs.Disk.{Quiet};
ghost use Rattle.fsl_repo.specs.Contents.{IsContentNow, ContentFails};
ghost use Rattle.fsl_repo.specs.Machine.{Leaves, now, configured, wants};
ghost use Rattle.fsl_repo.specs.Whole.{log_of, stored};

use crate::Repo;
use crate::wanting::wanted;
use fsl_blobs::{BlobFault, BlobState, Found, Placed};
use fsl_cross::Tables;
use fsl_disk::Disk;
use fsl_name::Name;
use fsl_record::{Config, Receipt};
use fsl_text::{List, Memory, Text};

impl<D: Disk> Repo<D> {
    /// Returns all tables.
    pub fn tables(&self) -> &Tables
        ensures fields { result.now.fields ≡ configured (now self.now.seen.state) }
        ensures items { result.now.items ≡ self.now.seen.items }
    {
        &self.tables
    }

    /// Counts the artifacts that were stored since the repository was loaded.
    pub fn stored(&self) -> u64
        ensures { result ≡ stored self.now.seen }
    {
        self.stored
    }

    /// Returns the codes of the repository, and its configured ticket fields.
    pub fn config(&self) -> &Config
        ensures { (now self.now.seen.state).config ≡ Some result.now }
    {
        self.blobs.config()
    }

    /// Returns the sum of the sizes of all held artifacts, in bytes. Takes no memory.
    pub fn bytes(&self) -> u128
        ensures { result ≡ held_bytes (now self.now.seen.state).held }
    {
        self.blobs.bytes()
    }

    /// Counts the held artifacts. Takes no memory.
    pub fn count(&self) -> u64
        ensures { result ≡ map_of.len (now self.now.seen.state).held }
    {
        self.blobs.count()
    }

    /// Returns the names of the held artifacts that are private, ascending. `Memory` is the only error.
    pub fn privates(&self) -> Result<List<Name>, Memory>
        ensures { IfOk result (λ names. names ≡ private_names (now self.now.seen.state).held) }
    {
        self.blobs.privates(self.alloc)
    }

    /// Returns the state of a name. Takes no memory.
    pub fn state(&self, name: Name) -> BlobState
        ensures { result ≡ state_of (now self.now.seen.state) name }
    {
        self.blobs.state(name)
    }

    /// Finds the held name that begins with these digits. Takes no memory.
    pub fn find(&self, prefix: &[u8]) -> Found
        ensures { result ≡ found (matching (now self.now.seen.state).held prefix.now) }
    {
        self.blobs.find(prefix)
    }

    /// Returns the held names at this place and behind it, by place. `Memory` is the only error.
    pub fn held(&self, from: u64) -> Result<List<Placed>, Memory>
        ensures { IfOk result (λ names. map (λ p. (p.place, p.name)) names ≡ held_from self.now.seen.state.records from) }
    {
        self.blobs.held(self.alloc, from)
    }

    /// Returns the names that an artifact refers to and that are neither held nor shunned, ascending. `Memory` is the only error.
    pub fn wants(&self) -> Result<List<Name>, Memory>
        ensures { IfOk result (λ names. names ≡ wants (now self.now.seen.state) self.now.seen.items) }
    {
        wanted(self.alloc, self.tables.cluster(), &self.blobs)
    }

    /// Returns the shunned names, ascending. `Memory` is the only error.
    pub fn shuns(&self) -> Result<List<Name>, Memory>
        ensures { IfOk result (λ names. names ≡ ascending (set.items (now self.now.seen.state).shunned)) }
    {
        self.blobs.shuns(self.alloc)
    }

    /// Returns the disk's count of faults when a commit failed. It is `None` where the repository isn't stopped. Takes no memory.
    pub fn stopped(&self) -> Option<u64>
        ensures { result ≡ self.now.seen.state.stopped }
    {
        self.journal.stopped()
    }

    /// Returns the receipt of a held artifact, which says who brought it and when. It is `None` where the artifact has none, or
    /// the name isn't held. Takes no memory.
    pub fn receipt(&self, name: Name) -> Option<&Receipt>
        ensures { option_copied result ≡ map_of.get (now self.now.seen.state).receipts name }
    {
        self.blobs.receipt(name)
    }

    /// Returns the content of a held artifact, public or private. It reads the content from the disk and tests its name, or takes
    /// it from the last that were read. Over a disk that tells its contents and meets the disk model these are the held bytes;
    /// over every other disk they are bytes of the same name and size.
    ///
    /// Errors: `Absent` where the name isn't held; `Disk` where a call of the disk failed; `Damaged` with the name of the bytes
    /// that were read, where it is another one; `Memory`.
    pub fn content(&mut self, name: Name) -> Result<Text, BlobFault>
        ensures bytes { IfOk result (IsContentNow self.old.seen.state name) }
        ensures absent { (result ≡ Err AbsentFault) ↔ (map_of.get (now self.old.seen.state).held name ≡ None) }
        ensures fault { IfErr result (λ fault. ContentFails fault self.old.seen.state name self.new.seen.state) }
        ensures count { OnOk result (self.new.seen.state ≡ self.old.seen.state) }
        ensures state { Leaves self.old.seen.state self.old.seen.state self.new.seen.state }
        ensures items { self.new.seen.items ≡ self.old.seen.items }
        ensures loaded { self.new.seen.loaded ≡ self.old.seen.loaded }
        ensures log { log_of self.new ≡ log_of self.old }
        // It only reads.
        ensures quiet { Quiet (D.state self.old.disk) (D.state self.new.disk) }
    {
        self.blobs
            .content(self.alloc, &self.journal, &mut self.disk, name)
    }
}
