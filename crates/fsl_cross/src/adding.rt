//! Takes one artifact more into all tables.
ghost use Rattle.std.specs.Prelude.{◌≡◌, ◌≤◌, ◌+◌, true, false, All, Some, map, is_some, option_map, OnOk, IfSome, option_and_then};
ghost use Rattle.std.specs.List.Sorted.{IsStrictlySortedBy};
ghost use Rattle.fsl_order.specs.Names.{bytes_cmp};
ghost use Rattle.fsl_order.specs.Rows.{named};
ghost use Rattle.fsl_cross.specs.Marks.{private_at};
ghost use Rattle.fsl_cross.specs.Back.{AllLed};
ghost use Rattle.fsl_cross.specs.Built.{AreTablesOf};
ghost use Rattle.fsl_cross.specs.Fresh.{AreNone};
ghost use Rattle.fsl_cross.specs.Mixed.{IsIn};
ghost use Rattle.fsl_cross.specs.Tables.{IsItem, without};
ghost use Rattle.fsl_cross.specs.Touches.{IsCalm, added_most, add_touches};

use super::change::{attached, clusters, contents, history, kinds, row};
use super::derived::Derived;
use super::held::Held;
use super::items::Items;
use super::undos::Undos;
use fsl_name::Name;
use fsl_text::{Memory, Steps};
use std::alloc::Global;
use std::sync::ledger::Ledger;

/// Takes an artifact in that is new in a set. `Memory` is the only error.
fn take_in<L: Ledger>(
    alloc: Global,
    derived: &mut Derived,
    undos: &mut Undos,
    items: &Items,
    item: &Held,
    steps: &mut Steps<L>,
) -> Result<(), Memory>
    requires new { IsIn items.now item.now }
    requires items { All IsItem items.now }
    requires is_item { IsItem item.now }
    requires tables { AreTablesOf derived.old.contents.tickets.fields (without item.now.name items.now) derived.old }
    requires none { AreNone undos.old }
    ensures tables { OnOk result (AreTablesOf derived.old.contents.tickets.fields items.now derived.new) }
    ensures led { AllLed derived.old undos.old derived.new undos.new }
    ensures cost { IsCalm items.now item.now → steps.new ≤ steps.old + added_most items.now item.now }
{
    let before = kinds::own_kind(&derived.attached, &derived.contents.pages, item, steps);
    history::take_in(
        alloc,
        &mut derived.history,
        &mut undos.history,
        items,
        item,
        steps,
    )?;
    contents::take_in(
        alloc,
        &mut derived.contents,
        &mut undos.contents,
        items,
        item,
        steps,
    )?;
    attached::take_in(
        &mut derived.attached,
        &mut undos.attached,
        items,
        item,
        steps,
    )?;
    row::take_in(
        alloc,
        &derived.history.tags,
        &undos.history.tags,
        &derived.contents,
        &undos.contents,
        &derived.attached,
        before,
        &mut derived.timeline,
        &mut undos.timeline,
        items,
        item,
        steps,
    )
}

/// Takes the artifact of a name in, as `take_in` does. `Memory` is the only error.
pub(crate) fn take_named<L: Ledger>(
    alloc: Global,
    derived: &mut Derived,
    undos: &mut Undos,
    items: &Items,
    name: Name,
    steps: &mut Steps<L>,
) -> Result<(), Memory>
    requires rising { IsStrictlySortedBy bytes_cmp (map (λ i. i.name) items.now) }
    requires items { All IsItem items.now }
    requires there { is_some (named (λ i. i.name) items.now name) ≡ true }
    requires tables { AreTablesOf derived.old.contents.tickets.fields (without name items.now) derived.old }
    requires none { AreNone undos.old }
    ensures tables { OnOk result (AreTablesOf derived.old.contents.tickets.fields items.now derived.new) }
    ensures led { AllLed derived.old undos.old derived.new undos.new }
    ensures cost { IfSome (option_and_then (add_touches (without name items.now)) (named (λ i. i.name) items.now name)) (λ most. steps.new ≤ steps.old + most) }
{
    match items.get(name) {
        Some(item) => take_in(alloc, derived, undos, items, item, steps),
        None => Ok(()),
    }
}

/// Makes the artifact of a name public in the table of clusters, which is so among the artifacts already. `Memory` is the only error.
pub(crate) fn publish_named<L: Ledger>(
    alloc: Global,
    derived: &mut Derived,
    undos: &mut Undos,
    items: &Items,
    name: Name,
    steps: &mut Steps<L>,
) -> Result<(), Memory>
    requires rising { IsStrictlySortedBy bytes_cmp (map (λ i. i.name) items.now) }
    requires items { All IsItem items.now }
    requires public { option_map (λ i. i.private) (named (λ i. i.name) items.now name) ≡ Some false }
    requires tables { AreTablesOf derived.old.contents.tickets.fields (map (private_at name true) items.now) derived.old }
    ensures tables { OnOk result (AreTablesOf derived.old.contents.tickets.fields items.now derived.new) }
    ensures led { AllLed derived.old undos.old derived.new undos.new }
    ensures cost { steps.new ≤ steps.old + 6 }
{
    match items.get(name) {
        Some(item) => clusters::publish(
            alloc,
            &mut derived.contents.clusters,
            &mut undos.contents.clusters,
            items,
            item,
            steps,
        ),
        None => Ok(()),
    }
}
