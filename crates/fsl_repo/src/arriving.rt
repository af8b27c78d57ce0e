//! Takes artifacts that arrive.
ghost use Rattle.std.specs.Prelude.{◌≡◌, ◌⊎◌, ◌++◌, ◌∷◌, [], ◌≤◌, ◌+◌, ◌^◌, length, Some, None, Err, ⊤, IfOk, OnOk, OnErr, false, true};
ghost use Rattle.std.specs.Option.{option_copied};
ghost use Rattle.std.specs.FinMap as map_of;
ghost use Rattle.std.specs.FinSet as set;
ghost use Rattle.fsl_name.specs.Name.{name_of};
ghost use Rattle.fsl_record.specs.Records.{AreRecords, IsWritable, is_config};
ghost use Rattle.fsl_blobs.specs.Fold.{contents, held_bytes};
ghost use Rattle.fsl_blobs.specs.Held.{state_of};
ghost use Rattle.fsl_blobs.specs.Seen.{applied};
ghost use Rattle.fsl_blobs.specs.declared.BlobState.TheVariants.{Absent as AbsentName};
ghost use Rattle.fsl_cluster.specs.Clusters as clusters;
ghost use Rattle.fsl_cross.specs.Tables.{tables};
ghost use Rattle.fsl_repo.specs.Machine.{ArriveStep, IsDueOrMemory, IsStoring, room_of, now};
ghost use Rattle.fsl_journal.specs.Places.{next_place};
ghost use Rattle.fsl_repo.specs.Arriving.{appended, as_stored, is_private, IsPublishing};
ghost use Rattle.fsl_repo.specs.Touches.{IsWithin, is_idle, is_published};
ghost use Rattle.fsl_repo.specs.declared.ArriveFault.TheVariants as arrive_fault;

use crate::wanting::wanted;
use crate::{Arrival, ArriveFault, Repo};
use fsl_artifact::parse;
use fsl_blobs::{BlobState, Blobs, shunned_are_not_held};
use fsl_cross::{Item, Tables};
use fsl_disk::Disk;
use fsl_journal::Journal;
use fsl_name::Name;
use fsl_record::{Receipt, Record};
use fsl_text::{MOST_HELD_BYTES, MOST_NAMES, MOST_OF_ARTIFACT, Memory, Steps, Text};
use std::alloc::Global;
use std::sync::ledger::Ledger;

/// Adds a record to the journal and to what its records leave, or to neither.
pub(crate) fn keep(journal: &mut Journal, blobs: &mut Blobs, entry: Record) -> Result<(), Memory>
    requires runs { journal.old.stopped ≡ None }
    requires counts { journal.old.stable ≤ length journal.old.records }
    requires as_many { length journal.old.places ≡ length journal.old.records }
    requires place { is_config entry ≡ false }
    requires fit { IsWritable entry }
    ensures journal { OnOk result (journal.new ≡ appended journal.old entry) }
    ensures blobs { OnOk result (blobs.new ≡ applied blobs.old (next_place journal.old entry) entry) }
    ensures fit { OnOk result (AreRecords journal.new.records) }
    ensures journal_err { OnErr result (journal.new ≡ journal.old) }
    ensures blobs_err { OnErr result (blobs.new ≡ blobs.old) }
{
    let at = journal.append(&entry)?;
    match blobs.apply(at, entry) {
        Ok(()) => Ok(()),
        Err(_) => {
            journal.take_back();
            Err(Memory)
        }
    }
}

/// A copy of a receipt that may be missing.
fn copied(alloc: Global, receipt: Option<&Receipt>) -> Result<Option<Receipt>, Memory>
    ensures { IfOk result (λ copy. copy ≡ option_copied receipt.entry) }
{
    match receipt {
        Some(receipt) => Ok(Some(receipt.copied(alloc)?)),
        None => Ok(None),
    }
}

/// Whether there is room for one artifact more, of this size, which the tables have already.
fn room(alloc: Global, blobs: &Blobs, all: &Tables, size: u64) -> Result<(), ArriveFault>
    ensures told { (as_stored result ≡ Err arrive_fault.Memory) ⊎ (as_stored result ≡ room_of (held_bytes (contents blobs.now.records).held + size) (map_of.len (contents blobs.now.records).held + 1)
        (length (clusters.wants (tables all.now.fields all.now.items).clusters (set.items (contents blobs.now.records).shunned)))) }
    ensures busy { is_idle (as_stored result) ≡ false }
{
    let bytes = blobs.bytes() + u128::from(size);
    let count = blobs.count() + 1;
    let table = all.cluster();
    let missing = table.missing_count();
    if bytes <= MOST_HELD_BYTES && count <= MOST_NAMES && missing <= MOST_NAMES {
        return Ok(());
    }
    let Ok(wanted) = wanted(alloc, table, blobs) else {
        return Err(ArriveFault::Memory);
    };
    let wants = wanted.items().len() as u64;
    if bytes > MOST_HELD_BYTES || count > MOST_NAMES || wants > MOST_NAMES {
        return Err(ArriveFault::Full {
            bytes,
            count,
            wants,
        });
    }
    Ok(())
}

impl<D: Disk> Repo<D> {
    /// Takes an artifact that arrives under a name, as a public or a private one. Where it is held as private and arrives as
    /// public, it becomes public. A fault changes nothing.
    ///
    /// Whatever it answers, it takes at most twice the touches that `Tables::add` states for an artifact of these bytes, where
    /// that states any. `Published` takes at most 16. An answer that only says what is known, as `Present`, takes none.
    ///
    /// Errors, the first of these: `Stopped` where a commit has failed; `TooLarge` above 16,777,216 bytes; `NameWrong` where the
    /// bytes have another name; `Full` where a limit would be passed with it. `Memory` comes in place of `Published`, `Full` or
    /// `Stored` alone.
    /// FORMATS: Messages of files
    pub fn arrive<L: Ledger>(
        &mut self,
        name: Name,
        bytes: &[u8],
        private: bool,
        steps: &mut Steps<L>,
    ) -> Result<Arrival, ArriveFault>
        ensures step { ArriveStep self.old.seen.state name None bytes.now private result self.new.seen.state }
        ensures loaded { self.new.seen.loaded ≡ self.old.seen.loaded }
        ensures disk { self.new.disk ≡ self.old.disk }
        // Whatever the answer, and so for `Stored` and `Published`.
        ensures cost { IsWithin self.old.seen.items name private bytes.now steps.old steps.new }
        // Where that states no bound too.
        ensures published { is_published result ≡ true → steps.new ≤ steps.old + 16 }
        ensures idle { is_idle result ≡ true → steps.new ≡ steps.old }
    {
        self.take(name, bytes, private, None, steps)
    }

    /// Takes an artifact that arrives under a name with a receipt. The receipt says who brought it and when. All answers and
    /// touches are those of `arrive`. An artifact that is stored is stored with this receipt.
    ///
    /// Errors: those of `arrive`.
    pub fn receive<L: Ledger>(
        &mut self,
        name: Name,
        bytes: &[u8],
        private: bool,
        receipt: &Receipt,
        steps: &mut Steps<L>,
    ) -> Result<Arrival, ArriveFault>
        ensures step { ArriveStep self.old.seen.state name (Some receipt.now) bytes.now private result self.new.seen.state }
        ensures loaded { self.new.seen.loaded ≡ self.old.seen.loaded }
        ensures disk { self.new.disk ≡ self.old.disk }
        ensures cost { IsWithin self.old.seen.items name private bytes.now steps.old steps.new }
        ensures published { is_published result ≡ true → steps.new ≤ steps.old + 16 }
        ensures idle { is_idle result ≡ true → steps.new ≡ steps.old }
    {
        self.take(name, bytes, private, Some(receipt), steps)
    }

    /// An artifact arrives, with a receipt or without.
    fn take<L: Ledger>(
        &mut self,
        name: Name,
        bytes: &[u8],
        private: bool,
        receipt: Option<&Receipt>,
        steps: &mut Steps<L>,
    ) -> Result<Arrival, ArriveFault>
        ensures step { ArriveStep self.old.seen.state name (option_copied receipt.entry) bytes.now private result self.new.seen.state }
        ensures loaded { self.new.seen.loaded ≡ self.old.seen.loaded }
        ensures disk { self.new.disk ≡ self.old.disk }
        ensures cost { IsWithin self.old.seen.items name private bytes.now steps.old steps.new }
        ensures published { is_published result ≡ true → steps.new ≤ steps.old + 16 }
        ensures idle { is_idle result ≡ true → steps.new ≡ steps.old }
    {
        if let Some(faults) = self.journal.stopped() {
            return Err(ArriveFault::Stopped { faults });
        }
        let size = bytes.len() as u64;
        if size > MOST_OF_ARTIFACT {
            return Err(ArriveFault::TooLarge { size });
        }
        let found = Name::of(bytes);
        if found != name {
            return Err(ArriveFault::NameWrong { found });
        }
        shunned_are_not_held();
        match self.blobs.state(name) {
            BlobState::Shunned => Ok(Arrival::Shunned),
            BlobState::Public { .. } => Ok(Arrival::Present),
            BlobState::Private { .. } if private => Ok(Arrival::Present),
            BlobState::Private { .. } => self.publish(name, steps),
            BlobState::Absent => self.store(name, bytes, private, receipt, steps),
        }
    }

    /// Publishes an artifact that is held as private.
    fn publish<L: Ledger>(
        &mut self,
        name: Name,
        steps: &mut Steps<L>,
    ) -> Result<Arrival, ArriveFault>
        requires runs { self.old.seen.state.stopped ≡ None }
        requires private { is_private (state_of (now self.old.seen.state) name) ≡ true }
        ensures step { IsDueOrMemory self.old.seen.state (IsPublishing self.old.seen.state name) (Err arrive_fault.Memory) ⊤ result self.new.seen.state }
        ensures loaded { self.new.seen.loaded ≡ self.old.seen.loaded }
        ensures disk { self.new.disk ≡ self.old.disk }
        ensures cost { steps.new ≤ steps.old + 16 }
        ensures busy { is_idle result ≡ false }
    {
        let back = match self.tables.publish(self.alloc, name, steps) {
            Ok(back) => back,
            Err(_) => return Err(ArriveFault::Memory),
        };
        let entry = Record::Publish { name };
        if let Err(_) = keep(&mut self.journal, &mut self.blobs, entry) {
            self.tables.undo(back);
            return Err(ArriveFault::Memory);
        }
        back.settle();
        self.blobs.announced_are_new();
        Ok(Arrival::Published)
    }

    /// Stores an artifact whose name is neither held nor shunned, where there is room.
    fn store<L: Ledger>(
        &mut self,
        name: Name,
        bytes: &[u8],
        private: bool,
        receipt: Option<&Receipt>,
        steps: &mut Steps<L>,
    ) -> Result<Arrival, ArriveFault>
        requires runs { self.old.seen.state.stopped ≡ None }
        requires absent { state_of (now self.old.seen.state) name ≡ AbsentName }
        requires named { name ≡ name_of bytes.now }
        requires small { length bytes.now ≤ 2 ^ 24 }
        ensures step { IsDueOrMemory self.old.seen.state (IsStoring self.old.seen.state name (option_copied receipt.entry) bytes.now private) (Err arrive_fault.Memory) ⊤ result self.new.seen.state }
        ensures loaded { self.new.seen.loaded ≡ self.old.seen.loaded }
        ensures disk { self.new.disk ≡ self.old.disk }
        ensures cost { IsWithin self.old.seen.items name private bytes.now steps.old steps.new }
        ensures stores { is_published result ≡ false }
        ensures busy { is_idle result ≡ false }
    {
        let size = bytes.len() as u64;
        let Ok(text) = Text::of(self.alloc, bytes) else {
            return Err(ArriveFault::Memory);
        };
        let Ok(receipt) = copied(self.alloc, receipt) else {
            return Err(ArriveFault::Memory);
        };
        let Ok(artifact) = parse(self.alloc, bytes, steps) else {
            return Err(ArriveFault::Memory);
        };
        let item = Item {
            name,
            private,
            artifact,
        };
        let back = match self.tables.add(self.alloc, item, steps) {
            Ok(back) => back,
            Err(_) => return Err(ArriveFault::Memory),
        };
        if let Err(fault) = room(self.alloc, &self.blobs, &self.tables, size) {
            self.tables.undo(back);
            return Err(fault);
        }
        let entry = Record::Blob {
            private,
            name,
            receipt,
            bytes: text,
        };
        if let Err(_) = keep(&mut self.journal, &mut self.blobs, entry) {
            self.tables.undo(back);
            return Err(ArriveFault::Memory);
        }
        back.settle();
        self.blobs.announced_are_new();
        let _ = self.journal.count();
        self.stored += 1;
        Ok(Arrival::Stored)
    }
}
