//! Finds the attachments that name an id as their target, and the ticket changes that have it.
ghost use Rattle.std.specs.Prelude.{◌≡◌, ◌<◌, ◌||◌, is_some, filter_map, OnOk, IfOk};
ghost use Rattle.fsl_name.specs.Name.{name_in};
ghost use Rattle.fsl_table.specs.Contents.{value_at};
ghost use Rattle.fsl_table.specs.Exact.{pair_cmp};
ghost use Rattle.fsl_table.specs.declared.key.Pair as key;
ghost use Rattle.fsl_cross.specs.Attached.{target_id, change_id, target_pair, change_pair, is_pair_of, AreOrdered, ArePairs};
ghost use Rattle.fsl_cross.specs.Built.{IsAttachedOf};

use crate::items::Items;
use fsl_artifact::Artifact;
use fsl_name::Name;
use fsl_table::{Pair, Table};
use fsl_text::{Memory, Steps};
use std::alloc::Global;
use std::marker::Brand;
use std::sync::ledger::{Blank, Ledger};

/// What attachments are found by, where their kind changes: it does when the first ticket change or technote of an id comes.
#[derive(Drop)]
pub(crate) struct Attached {
    /// A pair for each attachment whose target is an id, with that id first.
    pub(crate) targets: Table<Pair, ()>,
    /// A pair for each ticket change, with the id of its ticket first.
    pub(crate) changes: Table<Pair, ()>,
}

/// The id that a text is, where it is one.
fn id_in(text: &[u8]) -> Option<Name>
    ensures { result ≡ name_in text.now }
{
    match Name::read(text) {
        Ok(name) => Some(name),
        Err(_) => None,
    }
}

/// The id that the target of an attachment is, where it is one.
pub(crate) fn target_of(artifact: &Artifact) -> Option<Name>
    ensures { result ≡ target_id artifact.now }
{
    match artifact {
        Artifact::Attachment(file) => id_in(file.target.bytes()),
        _ => None,
    }
}

/// The id of the ticket of a ticket change.
pub(crate) fn change_of(artifact: &Artifact) -> Option<Name>
    ensures { result ≡ change_id artifact.now }
{
    match artifact {
        Artifact::Ticket(ticket) => Some(ticket.id),
        _ => None,
    }
}

/// Puts the pair of an id and a name in, where there is an id.
fn put<L: Ledger>(
    pairs: &mut Table<Pair, ()>,
    id: Option<Name>,
    name: Name,
    steps: &mut Steps<L>,
) -> Result<(), Memory>
    ensures there { OnOk result ((k : key.Pair) → is_some (value_at pair_cmp k pairs.new.entries) ≡ (is_pair_of k id name || is_some (value_at pair_cmp k pairs.old.entries))) }
    ensures ordered { OnOk result (AreOrdered pairs.old.entries → AreOrdered pairs.new.entries) }
{
    let Some(first) = id else {
        return Ok(());
    };
    let second = Some(name);
    match pairs.put(Pair { first, second }, (), steps) {
        Ok(_) => Ok(()),
        Err(_) => Err(Memory),
    }
}

/// The pairs of the targets of attachments.
fn targets<L: Ledger>(
    alloc: Global,
    items: &Items,
    steps: &mut Steps<L>,
) -> Result<Table<Pair, ()>, Memory>
    ensures { IfOk result (λ t. ArePairs (filter_map target_pair items.now) t.entries) }
{
    let mut pairs = Table::new(alloc);
    for item in items.iter() {
        put(&mut pairs, target_of(item.artifact()), item.name(), steps)?;
    }
    Ok(pairs)
}

/// The pairs of ticket changes.
fn changes<L: Ledger>(
    alloc: Global,
    items: &Items,
    steps: &mut Steps<L>,
) -> Result<Table<Pair, ()>, Memory>
    ensures { IfOk result (λ t. ArePairs (filter_map change_pair items.now) t.entries) }
{
    let mut pairs = Table::new(alloc);
    for item in items.iter() {
        put(&mut pairs, change_of(item.artifact()), item.name(), steps)?;
    }
    Ok(pairs)
}

/// The pairs of some artifacts, with a counter.
fn build_counted<L: Ledger>(alloc: Global, items: &Items, blank: Blank) -> Result<Attached, Memory>
    requires name { blank.name ≡ L.name }
    requires parts { blank.parts ≡ L.parts }
    requires counts { 0 < L.parts }
    ensures { IfOk result (IsAttachedOf items.now) }
{
    let mut steps: Steps<L> = Steps::new(blank);
    let targets = targets(alloc, items, &mut steps)?;
    let changes = changes(alloc, items, &mut steps)?;
    Ok(Attached { targets, changes })
}

impl Attached {
    /// The pairs of some artifacts. `Memory` is the only error.
    pub(crate) fn build(alloc: Global, items: &Items) -> Result<Attached, Memory>
        ensures { IfOk result (IsAttachedOf items.now) }
    {
        build_counted::<Brand>(alloc, items, Blank::new(1))
    }
}
