//! Stores one entry in the journal and in the map.
ghost use Rattle.std.specs.Prelude.{◌≡◌, ◌≤◌, ◌∷◌, [], None, false, length, IfOk, OnOk, OnErr};
ghost use Rattle.fsl_record.specs.Records.{IsWritable, AreRecords};
ghost use Rattle.fsl_uv.specs.Entries.{IsEntry, content, most_of_content};
ghost use Rattle.fsl_uv.specs.Syncing.{is_kept, with_entry};
ghost use Rattle.fsl_uv.specs.Stores.{blob_of, log_with, IsPutIn};

use crate::entries::entry_text;
use crate::held::{Held, Place, copied};
use crate::{Entry, Put, UvFault};
use fsl_journal::Journal;
use fsl_name::Name;
use fsl_record::Record;
use fsl_text::{Memory, Text};
use std::alloc::Global;

/// Makes the record of an entry: a public Blob of its text, without a receipt.
fn record_of(alloc: Global, entry: &Entry) -> Result<Record, Memory>
    requires { IsEntry entry.now }
    ensures is { IfOk result (λ r. r ≡ blob_of entry.now) }
    ensures fit { IfOk result IsWritable }
{
    let bytes = entry_text(alloc, entry)?;
    Ok(Record::Blob {
        private: false,
        name: Name::of(bytes.bytes()),
        receipt: None,
        bytes,
    })
}

/// Copies an entry.
pub(crate) fn copy_of(alloc: Global, entry: &Entry) -> Result<Entry, Memory>
    ensures { IfOk result (λ copy. copy ≡ entry.now) }
{
    let path = Text::of(alloc, entry.path.bytes())?;
    let bytes = copied(alloc, &entry.bytes)?;
    Ok(Entry {
        path,
        moment: entry.moment,
        bytes,
    })
}

/// Appends the record of an entry to a journal that isn't stopped. If out of memory, everything stays.
pub(crate) fn append_entry(
    alloc: Global,
    journal: &mut Journal,
    entry: &Entry,
) -> Result<(), Memory>
    requires runs { journal.old.stopped ≡ None }
    requires good { IsEntry entry.now }
    ensures ok { OnOk result (journal.new ≡ log_with journal.old (entry.now ∷ [])) }
    ensures err { OnErr result (journal.new ≡ journal.old) }
    ensures fit { OnOk result (AreRecords journal.new.records) }
{
    let blob = record_of(alloc, entry)?;
    let appended = journal.append(&blob);
    drop(blob);
    match appended {
        Ok(_) => Ok(()),
        Err(fault) => Err(fault),
    }
}

/// Appends the record of an entry, and puts the entry into the map, in which it isn't outdone. If out of memory, everything
/// stays.
fn store_in(
    alloc: Global,
    journal: &mut Journal,
    held: &mut Held,
    entry: &Entry,
) -> Result<(), Memory>
    requires runs { journal.old.stopped ≡ None }
    requires stable { journal.old.stable ≤ length journal.old.records }
    requires as_many { length journal.old.places ≡ length journal.old.records }
    requires good { IsEntry entry.now }
    requires new { is_kept held.old entry.now ≡ false }
    ensures journal { OnOk result (journal.new ≡ log_with journal.old (entry.now ∷ [])) }
    ensures held { OnOk result (held.new ≡ with_entry held.old entry.now) }
    ensures journal_err { OnErr result (journal.new ≡ journal.old) }
    ensures held_err { OnErr result (held.new ≡ held.old) }
    ensures fit { OnOk result (AreRecords journal.new.records) }
{
    let copy = copy_of(alloc, entry)?;
    append_entry(alloc, journal, entry)?;
    match held.put(copy) {
        Ok(_) => Ok(()),
        Err(_) => {
            journal.take_back();
            Err(Memory)
        }
    }
}

/// Puts an entry in whose content isn't too large, unless its path has an equal or a greater one.
pub(crate) fn put_in(
    alloc: Global,
    journal: &mut Journal,
    held: &mut Held,
    entry: &Entry,
) -> Result<Put, UvFault>
    requires runs { journal.old.stopped ≡ None }
    requires stable { journal.old.stable ≤ length journal.old.records }
    requires as_many { length journal.old.places ≡ length journal.old.records }
    requires good { IsEntry entry.now }
    requires records { AreRecords journal.old.records }
    ensures put { IsPutIn journal.old held.old entry.now result journal.new held.new }
    ensures fit { AreRecords journal.new.records }
{
    match held.place_for(entry) {
        Place::Kept => Ok(Put::Kept),
        Place::Over { bytes, count } => Err(UvFault::Full { bytes, count }),
        Place::Free => match store_in(alloc, journal, held, entry) {
            Ok(()) => Ok(Put::Stored),
            Err(_) => Err(UvFault::Memory),
        },
    }
}
