//! Keeps what a load has found in a file so far.
ghost use Rattle.std.specs.Prelude.{◌≡◌, ◌++◌, [], ◌+◌, ◌<◌, ◌^◌, length, map, IfOk, OnOk};
ghost use Rattle.std.specs.List.{AllByRecursion};
ghost use Rattle.fsl_record.specs.Records.{records_bytes, IsFit};
ghost use Rattle.fsl_journal.specs.Places.{content_places};
ghost use Rattle.fsl_journal.specs.Reading.{records_of, places_of};

use crate::places::add_places;
use fsl_record::Record;
use fsl_text::{List, Memory};
use std::alloc::{AllocError, Global};
use std::snapshot::Snapshot;

/// What was found in a file so far: the mark of its version, and where the gate stands behind the groups that were read.
/// Clauses see their records too, and where the contents of these begin.
#[derive(Drop)]
pub(crate) struct Found {
    // no bytes: clauses alone see them
    pub(crate) records: Vec<Snapshot<Record>>,
    pub(crate) places: Vec<Snapshot<u64>>,
    pub(crate) mark: u8,
    pub(crate) place: u64,
}

/// Adds records as contracts see them.
fn note_records(kept: &mut Vec<Snapshot<Record>>, group: &[Record]) -> Result<(), AllocError>
    ensures { OnOk result (map (λ s. s.value) kept.new.items ≡ map (λ s. s.value) kept.old.items ++ group.now) }
{
    for record in group {
        kept.push(Snapshot::of(record))?;
    }
    Ok(())
}

/// Adds places as contracts see them.
fn note_places(kept: &mut Vec<Snapshot<u64>>, places: &[u64]) -> Result<(), AllocError>
    ensures { OnOk result (map (λ s. s.value) kept.new.items ≡ map (λ s. s.value) kept.old.items ++ places.now) }
{
    for place in places {
        kept.push(Snapshot::of(place))?;
    }
    Ok(())
}

/// The places of a group's contents, whose records stand from `start` on.
fn places_in(alloc: Global, group: &[Record], start: u64) -> Result<List<u64>, AllocError>
    requires fit { AllByRecursion IsFit group.now }
    requires fits { start + length (records_bytes group.now) < 2 ^ 64 }
    ensures { IfOk result (λ places. places ≡ content_places start group.now) }
{
    let mut places = Vec::new(alloc);
    add_places(group, start, &mut places)?;
    Ok(List::from_vec(places))
}

impl Found {
    /// What stands behind the header of a file with this mark: nothing was read.
    pub(crate) fn nothing(alloc: Global, mark: u8) -> Found
        ensures records { records_of result ≡ [] }
        ensures places { places_of result ≡ [] }
        ensures mark { result.mark ≡ mark }
        ensures place { result.place ≡ 15 }
    {
        Found {
            records: Vec::new(alloc),
            places: Vec::new(alloc),
            mark,
            place: 15,
        }
    }

    /// Notes the records of the group behind the gate, and answers where their contents begin.
    pub(crate) fn note(&mut self, alloc: Global, group: &[Record]) -> Result<List<u64>, Memory>
        requires fit { AllByRecursion IsFit group.now }
        requires fits { self.old.place + 9 + length (records_bytes group.now) < 2 ^ 64 }
        ensures records { OnOk result (records_of self.new ≡ records_of self.old ++ group.now) }
        ensures places { OnOk result (places_of self.new ≡ places_of self.old ++ content_places (self.old.place + 9) group.now) }
        ensures answer { IfOk result (λ places. places ≡ content_places (self.old.place + 9) group.now) }
        ensures mark { self.new.mark ≡ self.old.mark }
        ensures place { self.new.place ≡ self.old.place }
    {
        let places = places_in(alloc, group, self.place + 9)?;
        note_records(&mut self.records, group)?;
        note_places(&mut self.places, places.items())?;
        Ok(places)
    }
}
