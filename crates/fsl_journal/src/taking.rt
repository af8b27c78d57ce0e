//! A taker gets the records of a file while it is read.
ghost use Rattle.std.specs.Prelude.{◌≡◌, ◌++◌, [], ℕ, List as Items, length, OnOk, ⊤};
ghost use Rattle.fsl_record.specs.declared.Record.{Record as RecordSeen};
ghost use Rattle.fsl_record.specs.Records.{AreRecords};

use fsl_record::Record;
use fsl_text::{List, Memory};
use std::alloc::Global;

/// Takes the records of a file while it is read, group after group, in the order of the file. So no more of the file is in
/// memory at a time than one group, and what the taker keeps of those before it.
pub trait Taker {
    /// Clauses see the records that it took.
    ghost taken: { Self → Items RecordSeen };

    /// Clauses see where their contents begin in the file, with 0 for a record that is no Blob.
    ghost starts: { Self → Items ℕ };

    /// The taker keeps this from one group to the next.
    ghost is_sound: { Self → Type 0 };

    /// Takes the next group, whose contents begin at these places.
    ///
    /// Errors: `Memory` alone, after which a load asks it for nothing more.
    fn take(&mut self, places: List<u64>, group: List<Record>) -> Result<(), Memory>
        requires sound { is_sound self.old }
        requires records { AreRecords (taken self.old ++ group) }
        requires as_many { length places ≡ length group }
        ensures sound { OnOk result (is_sound self.new) }
        ensures taken { OnOk result (taken self.new ≡ taken self.old ++ group) }
        ensures starts { OnOk result (starts self.new ≡ starts self.old ++ places) };
}

/// All records of a file, and where their contents begin.
#[derive(Drop)]
pub(crate) struct Collected {
    pub(crate) records: Vec<Record>,
    pub(crate) places: Vec<u64>,
}

impl Collected {
    /// Nothing yet. Takes no memory.
    pub(crate) fn none(alloc: Global) -> Collected
        ensures records { result.records.items ≡ [] }
        ensures places { result.places.items ≡ [] }
    {
        Collected {
            records: Vec::new(alloc),
            places: Vec::new(alloc),
        }
    }
}

impl Taker for Collected {
    ghost taken = { λ all. all.records.items };

    ghost starts = { λ all. all.places.items };

    ghost is_sound = { λ _. ⊤ };

    fn take(&mut self, places: List<u64>, group: List<Record>) -> Result<(), Memory> {
        self.places.append(&mut places.into_vec())?;
        self.records.append(&mut group.into_vec())?;
        Ok(())
    }
}
