//! One artifact more in the table of leaves, and check-ins whose tags change.
ghost use Rattle.std.specs.Prelude.{◌≡◌, ◌*◌, ◌+◌, ◌≤◌, ◌∷◌, [], true, false, map, OnOk, IfOk, option_and_then, None, length};
ghost use Rattle.fsl_order.specs.Names.{has};
ghost use Rattle.fsl_order.specs.Rows.{by_name, named};
ghost use Rattle.fsl_cross.specs.Checkins.{tags_facts};
ghost use Rattle.fsl_cross.specs.Inside.{leaves_fact_over};
ghost use Rattle.fsl_cross.specs.Mixed.{IsIn, LeavesGo, IsMixture, IsTagsTrail, leaves_mixed, all_changed, is_other_checkin};
ghost use Rattle.fsl_cross.specs.Tables.{leaves_facts, without};
ghost use Rattle.fsl_cross.specs.Trails.{Led};
ghost use Rattle.fsl_cross.specs.Facts.{as_manifest};
ghost use Rattle.fsl_cross.specs.Touches.{NoneOf, NoneRetagged, IsNoParent, NoneFollow, Untouched, parents_most};

use crate::facts::leaves::fact_of;
use crate::held::Held;
use crate::items::Items;
use crate::reversible::keep;
use fsl_leaves::{Fact, Leaves, Undo};
use fsl_name::Name;
use fsl_tags as tagging;
use fsl_tags::{Tags, effective_by_row};
use fsl_text::{List, Memory, Steps};
use std::alloc::Global;
use std::sync::ledger::Ledger;

/// Adds a fact, and keeps what takes that back. `Memory` is the only error.
fn put<L: Ledger>(
    alloc: Global,
    leaves: &mut Leaves,
    undos: &mut List<Undo>,
    fact: Fact,
    steps: &mut Steps<L>,
) -> Result<(), Memory>
    requires { has (map (λ f. f.name) leaves.old.facts) fact.name ≡ false }
    ensures facts { OnOk result (leaves.new.facts ≡ by_name (λ f. f.name) (fact ∷ leaves.old.facts)) }
    ensures led { Led leaves.old undos.old leaves.new undos.new }
    ensures cost { IsNoParent leaves.old.facts fact.name → steps.new ≤ steps.old + 6 * (1 + length fact.parents) }
{
    let undo = leaves.add(alloc, fact, steps)?;
    keep(leaves, undos, undo)
}

/// Puts a fact in the place of that of its name, and keeps what takes that back. `Memory` is the only error.
fn change<L: Ledger>(
    alloc: Global,
    leaves: &mut Leaves,
    undos: &mut List<Undo>,
    fact: Fact,
    steps: &mut Steps<L>,
) -> Result<(), Memory>
    requires { has (map (λ f. f.name) leaves.old.facts) fact.name ≡ true }
    ensures facts { OnOk result (leaves.new.facts ≡ by_name (λ f. f.name) (fact ∷ leaves.old.facts)) }
    ensures led { Led leaves.old undos.old leaves.new undos.new }
{
    let undo = leaves.change(alloc, fact, steps)?;
    keep(leaves, undos, undo)
}

/// Takes an artifact in that is new in a set. Check-ins whose tags it changes keep their facts. `Memory` is the only error.
fn add<L: Ledger>(
    alloc: Global,
    tags: &Tags,
    leaves: &mut Leaves,
    undos: &mut List<Undo>,
    items: &Items,
    item: &Held,
    steps: &mut Steps<L>,
) -> Result<(), Memory>
    requires new { IsIn items.now item.now }
    requires tags { tags.now.facts ≡ tags_facts items.now }
    requires facts { leaves.old.facts ≡ leaves_facts (without item.now.name items.now) }
    ensures facts { OnOk result (leaves.new.facts ≡ leaves_mixed items.now item.now.name (item.now.name ∷ [])) }
    ensures led { Led leaves.old undos.old leaves.new undos.new }
    ensures idle { as_manifest item.now.artifact ≡ None → Untouched steps.old steps.new undos.old undos.new }
    ensures cost { IsNoParent leaves.old.facts item.now.name → steps.new ≤ steps.old + parents_most item.now.artifact }
{
    match fact_of(alloc, tags, item)? {
        Some(fact) => put(alloc, leaves, undos, fact, steps),
        None => Ok(()),
    }
}

/// The fact of the artifact of a name. None where it isn't a check-in.
fn fact_at(alloc: Global, tags: &Tags, items: &Items, name: Name) -> Result<Option<Fact>, Memory>
    ensures { IfOk result (λ fact. fact ≡ option_and_then (leaves_fact_over tags.now.facts) (named (λ i. i.name) items.now name)) }
{
    match items.get(name) {
        Some(item) => fact_of(alloc, tags, item),
        None => Ok(None),
    }
}

/// Works the fact of a name out anew, where that is another check-in than the new artifact. `Memory` is the only error.
fn retag<L: Ledger>(
    alloc: Global,
    tags: &Tags,
    leaves: &mut Leaves,
    undos: &mut List<Undo>,
    items: &Items,
    item: &Held,
    name: Name,
    steps: &mut Steps<L>,
) -> Result<(), Memory>
    requires new { IsIn items.now item.now }
    requires tags { tags.now.facts ≡ tags_facts items.now }
    requires facts { IsMixture (leaves_mixed items.now item.now.name) leaves.old.facts }
    ensures facts { OnOk result (LeavesGo items.now item.now.name (name ∷ []) leaves.old.facts leaves.new.facts) }
    ensures led { Led leaves.old undos.old leaves.new undos.new }
    ensures idle { is_other_checkin items.now item.now.name name ≡ false → Untouched steps.old steps.new undos.old undos.new }
{
    if name == item.name() {
        return Ok(());
    }
    match fact_at(alloc, tags, items, name)? {
        Some(fact) => change(alloc, leaves, undos, fact, steps),
        None => Ok(()),
    }
}

/// Works the facts of some names out anew. `Memory` is the only error.
fn retag_each<L: Ledger>(
    alloc: Global,
    tags: &Tags,
    leaves: &mut Leaves,
    undos: &mut List<Undo>,
    items: &Items,
    item: &Held,
    names: &[Name],
    steps: &mut Steps<L>,
) -> Result<(), Memory>
    requires new { IsIn items.now item.now }
    requires tags { tags.now.facts ≡ tags_facts items.now }
    requires facts { IsMixture (leaves_mixed items.now item.now.name) leaves.old.facts }
    ensures facts { OnOk result (LeavesGo items.now item.now.name names.now leaves.old.facts leaves.new.facts) }
    ensures led { Led leaves.old undos.old leaves.new undos.new }
    ensures idle { NoneOf (is_other_checkin items.now item.now.name) names.now → Untouched steps.old steps.new undos.old undos.new }
{
    for name in names {
        retag(alloc, tags, leaves, undos, items, item, *name, steps)?;
    }
    Ok(())
}

/// Works the facts of those names out anew whose rows of tags some changes changed. `Memory` is the only error.
fn retag_changed<L: Ledger>(
    alloc: Global,
    tags: &Tags,
    leaves: &mut Leaves,
    undos: &mut List<Undo>,
    items: &Items,
    item: &Held,
    changes: &[tagging::Undo],
    steps: &mut Steps<L>,
) -> Result<(), Memory>
    requires new { IsIn items.now item.now }
    requires tags { tags.now.facts ≡ tags_facts items.now }
    requires facts { IsMixture (leaves_mixed items.now item.now.name) leaves.old.facts }
    ensures facts { OnOk result (LeavesGo items.now item.now.name (all_changed changes.now) leaves.old.facts leaves.new.facts) }
    ensures led { Led leaves.old undos.old leaves.new undos.new }
    ensures idle { NoneRetagged items.now item.now.name changes.now → Untouched steps.old steps.new undos.old undos.new }
{
    for change in changes {
        let names = change.changed();
        retag_each(
            alloc,
            tags,
            leaves,
            undos,
            items,
            item,
            names.items(),
            steps,
        )?;
    }
    Ok(())
}

/// Takes an artifact in that is new in a set, and works the facts of those check-ins out anew whose tags changed. The table of tags has
/// the artifact already, by some changes. `Memory` is the only error.
pub(crate) fn take_in<L: Ledger>(
    alloc: Global,
    tags: &Tags,
    changes: &List<tagging::Undo>,
    leaves: &mut Leaves,
    undos: &mut List<Undo>,
    items: &Items,
    item: &Held,
    steps: &mut Steps<L>,
) -> Result<(), Memory>
    requires new { IsIn items.now item.now }
    requires tags { tags.now.facts ≡ tags_facts items.now }
    requires trail { IsTagsTrail items.now item.now.name changes.now tags.now }
    requires facts { leaves.old.facts ≡ leaves_facts (without item.now.name items.now) }
    ensures facts { OnOk result (leaves.new.facts ≡ leaves_facts items.now) }
    ensures led { Led leaves.old undos.old leaves.new undos.new }
    ensures idle { as_manifest item.now.artifact ≡ None → NoneRetagged items.now item.now.name changes.now → steps.new ≡ steps.old }
    ensures cost { NoneFollow leaves.old.facts items.now item.now.name changes.now → steps.new ≤ steps.old + parents_most item.now.artifact }
{
    add(alloc, tags, leaves, undos, items, item, steps)?;
    effective_by_row();
    retag_changed(
        alloc,
        tags,
        leaves,
        undos,
        items,
        item,
        changes.items(),
        steps,
    )
}
