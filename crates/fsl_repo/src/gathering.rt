//! Gathers the blobs that the records of a file leave, while it is read group by group.
ghost use Rattle.std.specs.Prelude.{◌≡◌, ◌++◌, [], length, All, IfOk, OnOk, None as NoneSeen, List as ItemList};
ghost use Rattle.std.specs.List.{AllZip};
ghost use Rattle.fsl_blobs.specs.Fold.{contents};
ghost use Rattle.fsl_cross.specs.Tables.{IsItem};
ghost use Rattle.fsl_record.specs.Records.{AreRecords};
ghost use Rattle.fsl_record.specs.declared.Record.{Record as RecordSeen};
ghost use Rattle.fsl_repo.specs.Machine.{AreItems, configured};
ghost use Rattle.fsl_repo.specs.Opening.{IsReadOf, IsFolded, AreDerived, AreFresh, AreGathered, AreHeld, records_in, starts_in};

use crate::parsing::{artifacts_of, item_set, items_in};
use fsl_artifact::Artifact;
use fsl_blobs::Blobs;
use fsl_cross::{Items, Tables};
use fsl_journal::Taker;
use fsl_record::Record;
use fsl_text::{List, Memory};
use std::alloc::Global;
use std::mem::replace;

/// What the groups of a file leave so far: the held names without their contents. Nothing is parsed, and a group's contents
/// go before the next group is read.
#[derive(Drop)]
pub(crate) struct Named {
    alloc: Global,
    /// The blobs so far. It is `None` before the first group.
    blobs: Option<Blobs>,
}

/// The blobs of a file so far, and the parsed artifact of each.
#[derive(Drop)]
pub(crate) struct Gathered {
    alloc: Global,
    /// The blobs so far. It is `None` before the first group.
    blobs: Option<Blobs>,
    /// The parsed artifact of each record, in order, where the record has one.
    artifacts: Vec<Option<Artifact>>,
}

/// Adds what the bytes of each blob among some records are, in the order of the records.
fn add_artifacts(
    alloc: Global,
    entries: &[Record],
    list: &mut Vec<Option<Artifact>>,
) -> Result<(), Memory>
    ensures { OnOk result ((before : ItemList RecordSeen) → AllZip IsReadOf before list.old.items → AllZip IsReadOf (before ++ entries.now) list.new.items) }
{
    let mut more = artifacts_of(alloc, entries)?;
    list.append(&mut more)?;
    Ok(())
}

/// What a group more leaves.
fn folded_on(
    alloc: Global,
    before: Option<Blobs>,
    places: &List<u64>,
    group: List<Record>,
) -> Result<Blobs, Memory>
    requires records { AreRecords (records_in before ++ group) }
    requires places { length places.now ≡ length group }
    requires fresh { AreFresh before }
    ensures { IfOk result (IsFolded (records_in before ++ group) (starts_in before ++ places.now)) }
{
    match before {
        None => Blobs::fold(alloc, places, group),
        Some(blobs) => blobs.and_more(places, group),
    }
}

impl Named {
    /// Nothing yet. Takes no memory.
    pub(crate) fn nothing(alloc: Global) -> Named
        ensures { result.blobs ≡ NoneSeen }
    {
        Named { alloc, blobs: None }
    }

    /// What the records of a file leave.
    pub(crate) fn blobs(self) -> Blobs
        requires records { AreRecords (records_in self.blobs) }
        requires fresh { AreFresh self.blobs }
        ensures { IsFolded (records_in self.blobs) (starts_in self.blobs) result }
    {
        match self.blobs {
            Some(blobs) => blobs,
            None => unreachable!(),
        }
    }
}

impl Taker for Named {
    ghost taken = { λ g. records_in g.blobs };

    ghost starts = { λ g. starts_in g.blobs };

    ghost is_sound = { λ g. AreFresh g.blobs };

    fn take(&mut self, places: List<u64>, group: List<Record>) -> Result<(), Memory> {
        let before = replace(&mut self.blobs, None);
        let blobs = folded_on(self.alloc, before, &places, group)?;
        self.blobs = Some(blobs);
        Ok(())
    }
}

impl Gathered {
    /// Nothing yet. Takes no memory.
    pub(crate) fn nothing(alloc: Global) -> Gathered
        ensures blobs { result.blobs ≡ NoneSeen }
        ensures artifacts { result.artifacts.items ≡ [] }
    {
        Gathered {
            alloc,
            blobs: None,
            artifacts: Vec::new(alloc),
        }
    }
}

impl Taker for Gathered {
    ghost taken = { λ g. records_in g.blobs };

    ghost starts = { λ g. starts_in g.blobs };

    ghost is_sound = { λ g. AreGathered g.blobs g.artifacts.items };

    fn take(&mut self, places: List<u64>, group: List<Record>) -> Result<(), Memory> {
        match add_artifacts(self.alloc, group.items(), &mut self.artifacts) {
            Ok(()) => {
                let before = replace(&mut self.blobs, None);
                let blobs = folded_on(self.alloc, before, &places, group)?;
                self.blobs = Some(blobs);
                Ok(())
            }
            Err(_) => {
                drop(group);
                Err(Memory)
            }
        }
    }
}

/// Held artifacts, and all tables of them, by what was read of their records.
fn with_tables(
    alloc: Global,
    blobs: Blobs,
    artifacts: Vec<Option<Artifact>>,
) -> Result<(Blobs, Tables), Memory>
    requires { AllZip IsReadOf blobs.records artifacts.items }
    ensures blobs { IfOk result (λ d. d.0 ≡ blobs) }
    ensures items { IfOk result (λ d. AreItems (contents blobs.records).held d.1.items) }
    ensures fields { IfOk result (λ d. d.1.fields ≡ configured (contents blobs.records)) }
{
    let items = items_in(alloc, &blobs, artifacts)?;
    let tables = Tables::build(alloc, &blobs.config().fields, items)?;
    Ok((blobs, tables))
}

/// What the records of a file leave, and all tables of the held artifacts, with the fields of tickets that the Config has.
/// `Memory` is the only error.
pub(crate) fn derived(gathered: Gathered) -> Result<(Blobs, Tables), Memory>
    requires records { AreRecords (records_in gathered.blobs) }
    requires gathered { AreGathered gathered.blobs gathered.artifacts.items }
    ensures { IfOk result (λ d. AreDerived (records_in gathered.blobs) (starts_in gathered.blobs) d.0 d.1) }
{
    let Gathered {
        alloc,
        blobs,
        artifacts,
    } = gathered;
    match blobs {
        Some(blobs) => with_tables(alloc, blobs, artifacts),
        None => unreachable!(),
    }
}

/// Held artifacts, and what their bytes are, by what was read of their records.
fn with_items(
    alloc: Global,
    blobs: Blobs,
    artifacts: Vec<Option<Artifact>>,
) -> Result<(Blobs, Items), Memory>
    requires { AllZip IsReadOf blobs.records artifacts.items }
    ensures blobs { IfOk result (λ f. f.0 ≡ blobs) }
    ensures items { IfOk result (λ f. AreItems (contents blobs.records).held f.1) }
    ensures kinds { IfOk result (λ f. All IsItem f.1) }
{
    match item_set(alloc, &blobs, artifacts) {
        Ok(items) => Ok((blobs, items)),
        Err(_) => {
            drop(blobs);
            Err(Memory)
        }
    }
}

/// What the records of a file leave, and the held artifacts with what their bytes are; no table is made. `Memory` is the only
/// error.
pub(crate) fn held(gathered: Gathered) -> Result<(Blobs, Items), Memory>
    requires records { AreRecords (records_in gathered.blobs) }
    requires gathered { AreGathered gathered.blobs gathered.artifacts.items }
    ensures { IfOk result (λ f. AreHeld (records_in gathered.blobs) (starts_in gathered.blobs) f.0 f.1) }
{
    let Gathered {
        alloc,
        blobs,
        artifacts,
    } = gathered;
    match blobs {
        Some(blobs) => with_items(alloc, blobs, artifacts),
        None => unreachable!(),
    }
}
