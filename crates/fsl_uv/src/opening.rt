//! Opens the journal of a store, and takes the greatest entry of each path.
ghost use Rattle.std.specs.Prelude.{◌≡◌, ◌++◌, ◌∷◌, [], ℕ, List, IfOk, IfErr, OnOk, IsTrue};
ghost use Rattle.fsl_disk.specs.Disk.{DiskState, IsModelled, Told, Keeps, Quiet, LeavesOnly};
ghost use Rattle.fsl_record.specs.declared.Record as record_type;
ghost use Rattle.fsl_record.specs.declared.Record.TheVariants as record_of;
ghost use Rattle.fsl_record.specs.Records.{AreRecords, is_config};
ghost use Rattle.fsl_journal.specs.File.{IsFileOf, FailsAt};
ghost use Rattle.fsl_journal.specs.Journal.{HeldOrSame, IsSpared};
ghost use Rattle.fsl_journal.specs.Log.{IsBetween, StandsBetween, WhereBetween};
ghost use Rattle.fsl_uv.specs.declared.UvLoadFault.TheVariants as load_fault;
ghost use Rattle.fsl_uv.specs.Stores.{IsUv, IsStore, IsOpened, OpenFailed};
ghost use Rattle.fsl_uv.specs.Opening.{RecordFails, RecordsFail, AreKept, seen_of, fault_meant};

use crate::UvLoadFault;
use crate::entries::read_entry;
use crate::held::Held;
use fsl_disk::Disk;
use fsl_journal::{Journal, LoadFault};
use fsl_record::{Config, Record};
use fsl_text::List;
use std::alloc::Global;

/// The parts of a store's file that it keeps.
#[derive(Drop)]
pub(crate) struct Opened {
    pub(crate) journal: Journal,
    pub(crate) config: Config,
    pub(crate) held: Held,
}

/// Takes the entry of a record in, if the record is a Blob.
fn take_record(alloc: Global, held: &mut Held, entry: &Record) -> Result<(), UvLoadFault>
    ensures ok { OnOk result ((records : List record_type.Record) → IsUv records held.old → IsUv (records ++ entry.now ∷ []) held.new) }
    ensures fault { IfErr result (RecordFails entry.now) }
{
    let Record::Blob { name, bytes, .. } = entry else {
        return Ok(());
    };
    match read_entry(alloc, bytes.bytes()) {
        Ok(Some(entry)) => match held.put(entry) {
            Ok(_) => Ok(()),
            Err(_) => Err(UvLoadFault::Memory),
        },
        Ok(None) => Err(UvLoadFault::NotEntry { name: *name }),
        Err(_) => Err(UvLoadFault::Memory),
    }
}

/// Makes the map of some records.
fn held_of(alloc: Global, records: &[Record]) -> Result<Held, UvLoadFault>
    ensures ok { IfOk result (IsUv records.now) }
    ensures fault { IfErr result (RecordsFail records.now) }
{
    let mut held = Held::new(alloc);
    for entry in records {
        match take_record(alloc, &mut held, entry) {
            Ok(()) => {}
            Err(fault) => return Err(fault),
        }
    }
    Ok(held)
}

/// Returns the Config of a record.
fn config_in(first: Record) -> Config
    requires { IsTrue (is_config first) }
    ensures { first ≡ record_of.Config result }
{
    let Record::Config(config) = first else {
        unreachable!()
    };
    config
}

/// Returns the Config of some records.
fn config_of(records: List<Record>) -> Config
    requires { AreRecords records }
    ensures { (rest : List record_type.Record) × (records ≡ record_of.Config result ∷ rest) }
{
    let mut rest = records.into_vec().into_iter();
    let Some(first) = rest.next() else {
        unreachable!()
    };
    drop(rest);
    config_in(first)
}

/// Returns the parts that are kept of these records, beside their journal.
fn kept(alloc: Global, records: List<Record>) -> Result<(Config, Held), UvLoadFault>
    requires { AreRecords records }
    ensures ok { IfOk result (λ k. AreKept records k.0 k.1) }
    ensures fault { IfErr result (RecordsFail records) }
{
    match held_of(alloc, records.items()) {
        Ok(held) => Ok((config_of(records), held)),
        Err(fault) => Err(fault),
    }
}

/// Returns the fault of a store whose journal didn't open.
fn fault_of(fault: LoadFault) -> UvLoadFault
    ensures { result ≡ fault_meant fault }
{
    match fault {
        LoadFault::Disk => UvLoadFault::Disk,
        LoadFault::NotRepository { at } => UvLoadFault::NotRepository { at },
        LoadFault::Memory => UvLoadFault::Memory,
    }
}

/// Opens the journal of a disk, and takes the greatest entry of each path.
pub(crate) fn open<D: Disk>(alloc: Global, disk: &mut D) -> Result<Opened, UvLoadFault>
    ensures opened { IfOk result (λ o. IsOpened (D.state disk.old) (D.state disk.new) (seen_of o)) }
    ensures store { IfOk result (λ o. IsStore (D.state disk.new) (seen_of o)) }
    ensures fault { IfErr result (λ fault. OpenFailed fault (D.state disk.old) (D.state disk.new)) }
    ensures keeps { Keeps (D.state disk.old) (D.state disk.new) }
    ensures refused { Told (D.state disk.old) (λ held. (at : ℕ) → FailsAt held at → Quiet (D.state disk.old) (D.state disk.new)) }
    ensures harmless { IsModelled (D.state disk.old) → LeavesOnly (D.state disk.old) (D.state disk.new) (HeldOrSame (D.state disk.old)) }
    ensures spared { IsSpared (D.state disk.old) (D.state disk.new) }
    ensures any_moment { WhereBetween (D.state disk.old) (λ low high. LeavesOnly (D.state disk.old) (D.state disk.new) (StandsBetween low high)) }
    ensures between { IfOk result (λ o. WhereBetween (D.state disk.old) (λ low high. IsBetween low high o.journal.records)) }
    ensures durable { IfOk result (λ o. IsModelled (D.state disk.old) → (c : List ℕ) → (D.state disk.new).images c → IsFileOf c o.journal.records) }
    ensures stays { IfErr result (λ fault. (at : ℕ) → fault ≡ load_fault.NotRepository at → WhereBetween (D.state disk.old) (λ _ _. ⊥)) }
{
    match Journal::load(alloc, disk) {
        Ok((journal, places, records)) => {
            drop(places);
            match kept(alloc, records) {
                Ok((config, held)) => Ok(Opened {
                    journal,
                    config,
                    held,
                }),
                Err(fault) => Err(fault),
            }
        }
        Err(fault) => Err(fault_of(fault)),
    }
}
