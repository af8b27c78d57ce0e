//! Shuns names, and takes them off the list.
ghost use Rattle.std.specs.Prelude.{◌≡◌, ◌≤◌, ◌++◌, ◌∷◌, [], None, Err, ⊤, OnOk, OnErr, false, true, length};
ghost use Rattle.std.specs.FinSet as set;
ghost use Rattle.fsl_record.specs.declared.Record.TheVariants as record_of;
ghost use Rattle.fsl_record.specs.Records.{AreRecords, IsWritable, is_config};
ghost use Rattle.fsl_blobs.specs.Seen.{applied};
ghost use Rattle.fsl_journal.specs.Places.{next_place};
ghost use Rattle.fsl_repo.specs.Arriving.{appended};
ghost use Rattle.fsl_repo.specs.Machine.{ShunStep, UnshunStep, IsDueOrMemory, IsUnshunning, now, unshunned};
ghost use Rattle.fsl_repo.specs.declared.UnshunFault.TheVariants as unshun_fault;

use crate::arriving::keep;
use crate::wanting::wanted;
use crate::{Repo, ShunFault, Shunning, UnshunFault, Unshunning};
use fsl_blobs::{BlobState, Blobs, shunned_are_not_held};
use fsl_cross::Tables;
use fsl_disk::Disk;
use fsl_journal::Journal;
use fsl_name::Name;
use fsl_record::Record;
use fsl_text::{MOST_NAMES, Memory};
use std::mem::replace;

impl<D: Disk> Repo<D> {
    /// Shuns a name. Its artifact isn't held any more, nor ever again.
    ///
    /// Errors: `Stopped` where a commit has failed; `Memory` in place of `Removed` or `Listed` alone. An error changes nothing.
    /// FORMATS: Messages of files
    pub fn shun(&mut self, name: Name) -> Result<Shunning, ShunFault>
        ensures step { ShunStep self.old.seen.state name result self.new.seen.state }
        ensures loaded { self.new.seen.loaded ≡ self.old.seen.loaded }
        ensures disk { self.new.disk ≡ self.old.disk }
    {
        if let Some(faults) = self.journal.stopped() {
            return Err(ShunFault::Stopped { faults });
        }
        shunned_are_not_held();
        match self.blobs.state(name) {
            BlobState::Shunned => Ok(Shunning::Already),
            BlobState::Absent => match self.list_name(name) {
                Ok(()) => Ok(Shunning::Listed),
                Err(_) => Err(ShunFault::Memory),
            },
            BlobState::Public { .. } => match self.list_name(name) {
                Ok(()) => Ok(Shunning::Removed),
                Err(_) => Err(ShunFault::Memory),
            },
            BlobState::Private { .. } => match self.list_name(name) {
                Ok(()) => Ok(Shunning::Removed),
                Err(_) => Err(ShunFault::Memory),
            },
        }
    }

    /// Takes a name off the list of the shunned ones. Its artifact may arrive again. The tables know no shuns, and stay as they
    /// are.
    ///
    /// Errors: `Stopped` where a commit has failed; `Full` where without it in the list more than 1,048,576 names would be
    /// wanted; `Memory` in place of `Full` or `Unshunned` alone. An error changes nothing.
    /// FORMATS: Messages of files
    pub fn unshun(&mut self, name: Name) -> Result<Unshunning, UnshunFault>
        ensures step { UnshunStep self.old.seen.state name result self.new.seen.state }
        ensures items { self.new.seen.items ≡ self.old.seen.items }
        ensures loaded { self.new.seen.loaded ≡ self.old.seen.loaded }
        ensures disk { self.new.disk ≡ self.old.disk }
    {
        if let Some(faults) = self.journal.stopped() {
            return Err(UnshunFault::Stopped { faults });
        }
        if !self.blobs.is_shunned(name) {
            return Ok(Unshunning::NotShunned);
        }
        self.unlist(name)
    }

    /// Takes a shunned name off the list, where there is room.
    fn unlist(&mut self, name: Name) -> Result<Unshunning, UnshunFault>
        requires runs { self.old.seen.state.stopped ≡ None }
        requires listed { set.contains (now self.old.seen.state).shunned name ≡ true }
        ensures step { IsDueOrMemory self.old.seen.state (λ r due. IsUnshunning self.old.seen.state name r × (due ≡ unshunned self.old.seen.state name r)) (Err unshun_fault.Memory) ⊤ result self.new.seen.state }
        ensures items { self.new.seen.items ≡ self.old.seen.items }
        ensures loaded { self.new.seen.loaded ≡ self.old.seen.loaded }
        ensures disk { self.new.disk ≡ self.old.disk }
    {
        let Ok(wanted) = wanted(self.alloc, self.tables.cluster(), &self.blobs) else {
            return Err(UnshunFault::Memory);
        };
        // A name that is missing and shunned isn't among these.
        let missing = u64::from(self.tables.cluster().is_missing(name));
        let wants = wanted.items().len() as u64 + missing;
        if wants > MOST_NAMES {
            return Err(UnshunFault::Full { wants });
        }
        match keep(&mut self.journal, &mut self.blobs, Record::Unshun { name }) {
            Ok(()) => {
                self.blobs.announced_are_new();
                Ok(Unshunning::Unshunned)
            }
            Err(_) => Err(UnshunFault::Memory),
        }
    }

    /// Takes a name out of the held ones, and lists it as shunned.
    fn list_name(&mut self, name: Name) -> Result<(), Memory>
        requires runs { self.old.seen.state.stopped ≡ None }
        ensures ok { OnOk result (self.new.seen.state ≡ record self.old.seen.state { records = self.old.seen.state.records ++ record_of.Shun name ∷ []; announced = set.remove self.old.seen.state.announced name }) }
        ensures err { OnErr result (self.new.seen.state ≡ self.old.seen.state) }
        ensures loaded { self.new.seen.loaded ≡ self.old.seen.loaded }
        ensures disk { self.new.disk ≡ self.old.disk }
    {
        let next = self.tables.without(self.alloc, name)?;
        let entry = Record::Shun { name };
        exchange(
            &mut self.journal,
            &mut self.blobs,
            &mut self.tables,
            next,
            entry,
        )?;
        self.blobs.announced_are_new();
        Ok(())
    }
}

/// Adds a record to the journal and to what its records leave, and exchanges the tables for others; or does none of it.
fn exchange(
    journal: &mut Journal,
    blobs: &mut Blobs,
    tables: &mut Tables,
    next: Tables,
    entry: Record,
) -> Result<(), Memory>
    requires runs { journal.old.stopped ≡ None }
    requires counts { journal.old.stable ≤ length journal.old.records }
    requires as_many { length journal.old.places ≡ length journal.old.records }
    requires place { is_config entry ≡ false }
    requires fit { IsWritable entry }
    ensures journal { OnOk result (journal.new ≡ appended journal.old entry) }
    ensures blobs { OnOk result (blobs.new ≡ applied blobs.old (next_place journal.old entry) entry) }
    ensures fit { OnOk result (AreRecords journal.new.records) }
    ensures tables { OnOk result (tables.new ≡ next) }
    ensures journal_err { OnErr result (journal.new ≡ journal.old) }
    ensures blobs_err { OnErr result (blobs.new ≡ blobs.old) }
    ensures tables_err { OnErr result (tables.new ≡ tables.old) }
{
    match keep(journal, blobs, entry) {
        Ok(()) => {
            replace(tables, next).close();
            Ok(())
        }
        Err(Memory) => {
            next.close();
            Err(Memory)
        }
    }
}
