//! Finds the kind of an attachment by its target.
ghost use Rattle.std.specs.Prelude.{◌≡◌, ◌||◌, ℕ, List, OnOk, IfOk, cond, true};
ghost use Rattle.std.specs.BTreeMap.{is_at};
ghost use Rattle.fsl_order.specs.Names.{bytes_cmp};
ghost use Rattle.fsl_name.specs.Name.{name_text};
ghost use Rattle.fsl_tags.specs.Gathered.{in_set};
ghost use Rattle.fsl_cross.specs.Inside.{has_ticket, has_note, is_ticket, is_note, kind_by};

use crate::held::Held;
use crate::items::Items;
use fsl_artifact::Artifact;
use fsl_name::Name;
use fsl_text::{Memory, Text};
use fsl_timeline::RowKind;
use std::alloc::Global;
use std::collections::BTreeSet;

/// The ids of tickets and of technotes, in 40 digits.
#[derive(Drop)]
pub(crate) struct Targets {
    tickets: BTreeSet<Text>,
    notes: BTreeSet<Text>,
}

/// Puts the digits of an id into a set.
fn insert(alloc: Global, set: &mut BTreeSet<Text>, id: Name) -> Result<(), Memory>
    ensures { OnOk result ((q : List ℕ) → in_set set.new q ≡ cond (is_at (bytes_cmp (name_text id)) q) true (in_set set.old q)) }
{
    let digits = Text::of(alloc, &id.text())?;
    set.insert(digits)?;
    Ok(())
}

/// Puts the id of an artifact into a set, where it is a ticket change.
fn insert_ticket(alloc: Global, set: &mut BTreeSet<Text>, item: &Held) -> Result<(), Memory>
    ensures { OnOk result ((q : List ℕ) → in_set set.new q ≡ (in_set set.old q || has_ticket item.now q)) }
{
    match item.artifact() {
        Artifact::Ticket(ticket) => insert(alloc, set, ticket.id),
        _ => Ok(()),
    }
}

/// Puts the id of an artifact into a set, where it is a technote.
fn insert_note(alloc: Global, set: &mut BTreeSet<Text>, item: &Held) -> Result<(), Memory>
    ensures { OnOk result ((q : List ℕ) → in_set set.new q ≡ (in_set set.old q || has_note item.now q)) }
{
    match item.artifact() {
        Artifact::Technote(note) => insert(alloc, set, note.id),
        _ => Ok(()),
    }
}

/// The ids of ticket changes.
fn tickets(alloc: Global, items: &Items) -> Result<BTreeSet<Text>, Memory>
    ensures { IfOk result (λ set. (q : List ℕ) → in_set set q ≡ is_ticket items.now q) }
{
    let mut set = BTreeSet::new(alloc);
    for item in items.iter() {
        insert_ticket(alloc, &mut set, item)?;
    }
    Ok(set)
}

/// The ids of technotes.
fn notes(alloc: Global, items: &Items) -> Result<BTreeSet<Text>, Memory>
    ensures { IfOk result (λ set. (q : List ℕ) → in_set set q ≡ is_note items.now q) }
{
    let mut set = BTreeSet::new(alloc);
    for item in items.iter() {
        insert_note(alloc, &mut set, item)?;
    }
    Ok(set)
}

impl Targets {
    /// The ids of ticket changes and technotes. `Memory` is the only error.
    pub(crate) fn of(alloc: Global, items: &Items) -> Result<Targets, Memory>
        ensures tickets { IfOk result (λ t. (q : List ℕ) → in_set t.tickets q ≡ is_ticket items.now q) }
        ensures notes { IfOk result (λ t. (q : List ℕ) → in_set t.notes q ≡ is_note items.now q) }
    {
        Ok(Targets {
            tickets: tickets(alloc, items)?,
            notes: notes(alloc, items)?,
        })
    }

    /// The kind of an attachment: it belongs to a ticket or a technote whose id is its target, else to the wiki.
    pub(crate) fn kind(&self, target: &Text) -> RowKind
        ensures { result ≡ kind_by (in_set self.now.tickets target.now) (in_set self.now.notes target.now) }
    {
        kind_where(self.tickets.contains(target), self.notes.contains(target))
    }
}

/// The kind of what belongs to a ticket, or else to a technote, or else to the wiki.
pub(crate) fn kind_where(on_ticket: bool, on_note: bool) -> RowKind
    ensures { result ≡ kind_by on_ticket on_note }
{
    if on_ticket {
        RowKind::Ticket
    } else if on_note {
        RowKind::Note
    } else {
        RowKind::Wiki
    }
}
