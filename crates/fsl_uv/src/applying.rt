//! Puts the files of a message into the journal and the map, all of them or none.
ghost use Rattle.std.specs.Prelude.{◌≡◌, ◌≤◌, ◌∷◌, [], None, length, OnOk, OnErr};
ghost use Rattle.fsl_uv.specs.Entries.{IsEntry};
ghost use Rattle.fsl_uv.specs.Syncing.{stored, with_entry, files, applied};
ghost use Rattle.std.specs.List.{AllByRecursion};
ghost use Rattle.fsl_uv.specs.Applying.{
  IsTaken,
  refusal,
  CanPutBack,
  CanTakeBack,
  StillLeadsBack,
  without_change,
  without_changes,
  log_without,
  due_of,
  IsTakenAll,
};
ghost use Rattle.std.specs.Prelude.{◌<◌};
ghost use Rattle.fsl_record.specs.Records.{AreRecords};
ghost use Rattle.fsl_journal.specs.Places.{without_last};
ghost use Rattle.fsl_uv.specs.Cards.{IsCard};
ghost use Rattle.fsl_uv.specs.Laws.{Rises};
ghost use Rattle.fsl_uv.specs.Stores.{log_with};

use crate::held::{Held, is_over};
use crate::storing::append_entry;
use crate::version::Version;
use crate::{ApplyFault, Card, Entry, UvMessageFault};
use fsl_journal::Journal;
use fsl_text::{List, Memory, Text};
use std::alloc::Global;

/// The change that takes one path back to its version before.
#[derive(Drop)]
pub(crate) struct Change {
    path: Text,
    before: Option<Version>,
}

/// Puts one entry in, unless its path has an equal or a greater one, and notes the change that takes it back. If out of memory,
/// everything stays.
fn take_in(
    alloc: Global,
    journal: &mut Journal,
    held: &mut Held,
    entry: Entry,
    changes: &mut Vec<Change>,
) -> Result<(), Memory>
    requires runs { journal.old.stopped ≡ None }
    requires stable { journal.old.stable ≤ length journal.old.records }
    requires as_many { length journal.old.places ≡ length journal.old.records }
    requires good { IsEntry entry }
    ensures journal { OnOk result (journal.new ≡ log_with journal.old (stored held.old (entry ∷ []))) }
    ensures held { OnOk result (held.new ≡ with_entry held.old entry) }
    ensures journal_err { OnErr result (journal.new ≡ journal.old) }
    ensures held_err { OnErr result (held.new ≡ held.old) }
    ensures changes_err { OnErr result (changes.new.items ≡ changes.old.items) }
    ensures undo { StillLeadsBack journal.old held.old changes.old.items journal.new held.new changes.new.items }
{
    if held.keeps(&entry) {
        return Ok(());
    }
    let path = Text::of(alloc, entry.path.bytes())?;
    changes.reserve(1)?;
    append_entry(alloc, journal, &entry)?;
    let Entry {
        path: key,
        moment,
        bytes,
    } = entry;
    match held.set(key, Version::of(moment, bytes)) {
        Ok(before) => {
            changes.push_reserved(Change { path, before });
            Ok(())
        }
        Err(_) => {
            journal.take_back();
            Err(Memory)
        }
    }
}

/// Puts the file of a card in, if the card is one.
fn take_card(
    alloc: Global,
    journal: &mut Journal,
    held: &mut Held,
    card: Card,
    changes: &mut Vec<Change>,
) -> Result<(), Memory>
    requires runs { journal.old.stopped ≡ None }
    requires stable { journal.old.stable ≤ length journal.old.records }
    requires as_many { length journal.old.places ≡ length journal.old.records }
    requires rises { Rises held.old }
    requires good { IsCard card }
    ensures taken { OnOk result (IsTaken journal.old held.old card journal.new held.new) }
    ensures undo { StillLeadsBack journal.old held.old changes.old.items journal.new held.new changes.new.items }
{
    match card {
        Card::File { entry } => take_in(alloc, journal, held, entry, changes),
        _ => Ok(()),
    }
}

/// Puts the files of some cards in, in order. If out of memory, some may be in, and the changes list them.
fn take_files(
    alloc: Global,
    journal: &mut Journal,
    held: &mut Held,
    cards: Vec<Card>,
    changes: &mut Vec<Change>,
) -> Result<(), Memory>
    requires runs { journal.old.stopped ≡ None }
    requires stable { journal.old.stable ≤ length journal.old.records }
    requires as_many { length journal.old.places ≡ length journal.old.records }
    requires rises { Rises held.old }
    requires good { AllByRecursion IsCard cards.items }
    ensures journal { OnOk result (journal.new ≡ log_with journal.old (stored held.old (files cards.items))) }
    ensures held { OnOk result (held.new ≡ applied held.old cards.items) }
    ensures undo { StillLeadsBack journal.old held.old changes.old.items journal.new held.new changes.new.items }
{
    for card in cards {
        take_card(alloc, journal, held, card, changes)?;
    }
    Ok(())
}

/// Takes one change back, and the record that it appended. It takes no memory.
fn take_one_back(journal: &mut Journal, held: &mut Held, change: Change)
    requires runs { journal.old.stopped ≡ None }
    requires appended { journal.old.stable < length journal.old.records }
    requires turns { CanPutBack held.old change.path change.before }
    ensures journal { journal.new ≡ without_last journal.old }
    ensures held { held.new ≡ without_change held.old change }
{
    let Change { path, before } = change;
    match before {
        Some(version) => held.put_back(path, version),
        None => held.unset(&path),
    }
    journal.take_back();
}

/// Takes changes back, the last one first. It takes no memory.
fn take_back(journal: &mut Journal, held: &mut Held, changes: Vec<Change>)
    requires { CanTakeBack journal.old held.old changes.items }
    ensures journal { journal.new ≡ log_without journal.old changes.items }
    ensures held { held.new ≡ without_changes held.old changes.items }
{
    let mut left = changes;
    while let Some(change) = left.pop() {
        take_one_back(journal, held, change);
    }
}

/// Returns the result once the files were put in, or memory ran out.
fn due(held: &Held, taken: Result<(), Memory>, count: usize) -> Result<u64, ApplyFault>
    ensures { result ≡ due_of held.now taken count }
{
    let Ok(()) = taken else {
        return Err(ApplyFault::Memory);
    };
    let bytes = held.bytes();
    let paths = held.count();
    if is_over(bytes, paths) {
        Err(ApplyFault::Full {
            bytes,
            count: paths,
        })
    } else {
        Ok(count as u64)
    }
}

/// Puts the files of some cards in, if the map with them keeps all limits, and returns how many were stored. Else everything
/// stays.
pub(crate) fn take_all(
    alloc: Global,
    journal: &mut Journal,
    held: &mut Held,
    cards: List<Card>,
) -> Result<u64, ApplyFault>
    requires runs { journal.old.stopped ≡ None }
    requires stable { journal.old.stable ≤ length journal.old.records }
    requires as_many { length journal.old.places ≡ length journal.old.records }
    requires rises { Rises held.old }
    requires records { AreRecords journal.old.records }
    requires good { AllByRecursion IsCard cards }
    ensures taken { IsTakenAll journal.old held.old cards result journal.new held.new }
    ensures fit { AreRecords journal.new.records }
{
    let mut changes = Vec::new(alloc);
    let taken = take_files(alloc, journal, held, cards.into_vec(), &mut changes);
    match due(held, taken, changes.len()) {
        Ok(count) => {
            drop(changes);
            Ok(count)
        }
        Err(fault) => {
            take_back(journal, held, changes);
            Err(fault)
        }
    }
}

/// Returns the fault of a message that doesn't read.
pub(crate) fn refused(fault: &UvMessageFault) -> ApplyFault
    ensures { result ≡ refusal fault.now }
{
    match fault {
        UvMessageFault::Line { line } => ApplyFault::Line { line: *line },
        UvMessageFault::NameWrong { kept, found } => ApplyFault::NameWrong {
            kept: *kept,
            found: *found,
        },
        UvMessageFault::Memory => ApplyFault::Memory,
    }
}
