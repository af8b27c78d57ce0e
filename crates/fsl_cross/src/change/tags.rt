//! One artifact more in the table of tags, and check-ins whose primary parent comes late.
ghost use Rattle.std.specs.Prelude.{◌≡◌, ◌*◌, ◌+◌, ◌≤◌, ◌∷◌, [], ◌&&◌, not, false, map, OnOk, IfOk, option_and_then, None, true, length};
ghost use Rattle.std.specs.Str.{bytes_eq};
ghost use Rattle.std.specs.List.Sorted.{IsStrictlySortedBy};
ghost use Rattle.fsl_order.specs.Names.{bytes_cmp, has};
ghost use Rattle.fsl_order.specs.Rows.{by_name, named};
ghost use Rattle.fsl_table.specs.Pairs.{is_name};
ghost use Rattle.fsl_links.specs.Links.{primary};
ghost use Rattle.fsl_tags.specs.Conditions.{IsParentChange};
ghost use Rattle.fsl_tags.specs.Tags.{IsTagFact};
ghost use Rattle.fsl_cross.specs.Checkins.{links_facts, tags_facts};
ghost use Rattle.fsl_cross.specs.Inside.{tags_fact_over};
ghost use Rattle.fsl_cross.specs.Mixed.{IsIn, TagsGo, IsMixture, IsLinksTrail, tags_mixed, all_changed, is_child};
ghost use Rattle.fsl_cross.specs.Tables.{without};
ghost use Rattle.fsl_cross.specs.Trails.{Led, TagsTold};
ghost use Rattle.std.specs.List.{AllByRecursion};
ghost use Rattle.fsl_cross.specs.Facts.{tag_cards};
ghost use Rattle.fsl_cross.specs.Touches.{NoneOf, NoneLate, Untouched, has_own_tags, tags_most};

use crate::facts::tags::fact_of;
use crate::held::Held;
use crate::items::Items;
use crate::reversible::keep;
use fsl_links as links;
use fsl_links::Links;
use fsl_name::Name;
use fsl_tags::{Fact, Tags, Undo};
use fsl_text::{List, Memory, Steps};
use std::alloc::Global;
use std::sync::ledger::Ledger;

/// Adds a fact, and keeps what takes that back. `Memory` is the only error.
fn put<L: Ledger>(
    alloc: Global,
    tags: &mut Tags,
    undos: &mut List<Undo>,
    fact: Fact,
    steps: &mut Steps<L>,
) -> Result<(), Memory>
    requires absent { has (map (λ f. f.name) tags.old.facts) fact.name ≡ false }
    requires fit { IsTagFact (fact ∷ tags.old.facts) fact }
    ensures facts { OnOk result (tags.new.facts ≡ by_name (λ f. f.name) (fact ∷ tags.old.facts)) }
    ensures led { Led tags.old undos.old tags.new undos.new }
    ensures told { OnOk result (TagsTold undos.old → TagsTold undos.new) }
    ensures single { OnOk result (undos.old ≡ [] → length undos.new ≤ 1) }
    ensures cost { AllByRecursion (λ a. a.target ≡ fact.name) fact.tags → steps.new ≤ steps.old + 20 * (1 + length fact.tags) }
{
    let undo = tags.add(alloc, fact, steps)?;
    keep(tags, undos, undo)
}

/// Gives a fact another primary parent, and keeps what takes that back. `Memory` is the only error.
fn change<L: Ledger>(
    alloc: Global,
    tags: &mut Tags,
    undos: &mut List<Undo>,
    fact: Fact,
    steps: &mut Steps<L>,
) -> Result<(), Memory>
    requires change { IsParentChange tags.old.facts fact }
    requires fit { IsTagFact tags.old.facts fact }
    ensures facts { OnOk result (tags.new.facts ≡ by_name (λ f. f.name) (fact ∷ tags.old.facts)) }
    ensures led { Led tags.old undos.old tags.new undos.new }
    ensures told { OnOk result (TagsTold undos.old → TagsTold undos.new) }
{
    let undo = tags.change(alloc, fact, steps)?;
    keep(tags, undos, undo)
}

/// Takes an artifact in that is new in a set. Check-ins of which it is the primary parent keep their facts. `Memory` is the only error.
fn add<L: Ledger>(
    alloc: Global,
    links: &Links,
    tags: &mut Tags,
    undos: &mut List<Undo>,
    items: &Items,
    item: &Held,
    steps: &mut Steps<L>,
) -> Result<(), Memory>
    requires new { IsIn items.now item.now }
    requires links { links.now.facts ≡ links_facts items.now }
    requires facts { tags.old.facts ≡ tags_facts (without item.now.name items.now) }
    ensures facts { OnOk result (tags.new.facts ≡ tags_mixed items.now item.now.name (item.now.name ∷ [])) }
    ensures led { Led tags.old undos.old tags.new undos.new }
    ensures told { OnOk result (TagsTold undos.old → TagsTold undos.new) }
    ensures idle { tag_cards item.now.artifact ≡ None → Untouched steps.old steps.new undos.old undos.new }
    ensures single { OnOk result (undos.old ≡ [] → length undos.new ≤ 1) }
    ensures cost { has_own_tags item.now.artifact ≡ true → steps.new ≤ steps.old + tags_most item.now.artifact }
{
    match fact_of(alloc, links, item)? {
        Some(fact) => put(alloc, tags, undos, fact, steps),
        None => Ok(()),
    }
}

/// The fact of the artifact of a name. None where it isn't there, or gives none.
fn fact_at(alloc: Global, links: &Links, items: &Items, name: Name) -> Result<Option<Fact>, Memory>
    ensures { IfOk result (λ fact. fact ≡ option_and_then (tags_fact_over links.now.facts) (named (λ i. i.name) items.now name)) }
{
    match items.get(name) {
        Some(item) => fact_of(alloc, links, item),
        None => Ok(None),
    }
}

/// Whether another check-in has a name as its primary parent.
fn has_parent(links: &Links, child: Name, parent: Name) -> bool
    ensures { result ≡ (not (bytes_eq child parent) && is_name (primary links.now.facts child) parent) }
{
    if child == parent {
        return false;
    }
    match links.primary(child) {
        Some(primary) => primary == parent,
        None => false,
    }
}

/// Gives a check-in its primary parent, where that is the new artifact. `Memory` is the only error.
fn give_parent<L: Ledger>(
    alloc: Global,
    links: &Links,
    tags: &mut Tags,
    undos: &mut List<Undo>,
    items: &Items,
    item: &Held,
    child: Name,
    steps: &mut Steps<L>,
) -> Result<(), Memory>
    requires new { IsIn items.now item.now }
    requires links { links.now.facts ≡ links_facts items.now }
    requires facts { IsMixture (tags_mixed items.now item.now.name) tags.old.facts }
    ensures facts { OnOk result (TagsGo items.now item.now.name (child ∷ []) tags.old.facts tags.new.facts) }
    ensures led { Led tags.old undos.old tags.new undos.new }
    ensures told { OnOk result (TagsTold undos.old → TagsTold undos.new) }
    ensures idle { is_child items.now item.now.name child ≡ false → Untouched steps.old steps.new undos.old undos.new }
{
    if !has_parent(links, child, item.name()) {
        return Ok(());
    }
    match fact_at(alloc, links, items, child)? {
        Some(fact) => change(alloc, tags, undos, fact, steps),
        None => Ok(()),
    }
}

/// Gives each of some check-ins its primary parent, where that is the new artifact. `Memory` is the only error.
fn give_parents<L: Ledger>(
    alloc: Global,
    links: &Links,
    tags: &mut Tags,
    undos: &mut List<Undo>,
    items: &Items,
    item: &Held,
    children: &[Name],
    steps: &mut Steps<L>,
) -> Result<(), Memory>
    requires new { IsIn items.now item.now }
    requires links { links.now.facts ≡ links_facts items.now }
    requires facts { IsMixture (tags_mixed items.now item.now.name) tags.old.facts }
    ensures facts { OnOk result (TagsGo items.now item.now.name children.now tags.old.facts tags.new.facts) }
    ensures led { Led tags.old undos.old tags.new undos.new }
    ensures told { OnOk result (TagsTold undos.old → TagsTold undos.new) }
    ensures idle { NoneOf (is_child items.now item.now.name) children.now → Untouched steps.old steps.new undos.old undos.new }
{
    for child in children {
        give_parent(alloc, links, tags, undos, items, item, *child, steps)?;
    }
    Ok(())
}

/// Gives each check-in its primary parent, of those whose rows of parentage some changes changed, where that is the new artifact.
/// `Memory` is the only error.
fn give_late<L: Ledger>(
    alloc: Global,
    links: &Links,
    tags: &mut Tags,
    undos: &mut List<Undo>,
    items: &Items,
    item: &Held,
    changes: &[links::Undo],
    steps: &mut Steps<L>,
) -> Result<(), Memory>
    requires new { IsIn items.now item.now }
    requires links { links.now.facts ≡ links_facts items.now }
    requires facts { IsMixture (tags_mixed items.now item.now.name) tags.old.facts }
    ensures facts { OnOk result (TagsGo items.now item.now.name (all_changed changes.now) tags.old.facts tags.new.facts) }
    ensures led { Led tags.old undos.old tags.new undos.new }
    ensures told { OnOk result (TagsTold undos.old → TagsTold undos.new) }
    ensures idle { NoneLate items.now item.now.name changes.now → Untouched steps.old steps.new undos.old undos.new }
{
    for change in changes {
        let names = change.changed();
        give_parents(alloc, links, tags, undos, items, item, names.items(), steps)?;
    }
    Ok(())
}

/// Takes an artifact in that is new in a set, and gives check-ins of which it is the primary parent that parent. The table of parentage
/// has it already, by some changes. `Memory` is the only error.
pub(crate) fn take_in<L: Ledger>(
    alloc: Global,
    links: &Links,
    changes: &List<links::Undo>,
    tags: &mut Tags,
    undos: &mut List<Undo>,
    items: &Items,
    item: &Held,
    steps: &mut Steps<L>,
) -> Result<(), Memory>
    requires new { IsIn items.now item.now }
    requires links { links.now.facts ≡ links_facts items.now }
    requires trail { IsLinksTrail items.now item.now.name changes.now links.now }
    requires facts { tags.old.facts ≡ tags_facts (without item.now.name items.now) }
    ensures facts { OnOk result (tags.new.facts ≡ tags_facts items.now) }
    ensures led { Led tags.old undos.old tags.new undos.new }
    ensures told { OnOk result (TagsTold undos.old → TagsTold undos.new) }
    ensures idle { tag_cards item.now.artifact ≡ None → NoneLate items.now item.now.name changes.now → Untouched steps.old steps.new undos.old undos.new }
    ensures single { OnOk result (NoneLate items.now item.now.name changes.now → undos.old ≡ [] → length undos.new ≤ 1) }
    ensures cost { has_own_tags item.now.artifact ≡ true → NoneLate items.now item.now.name changes.now → steps.new ≤ steps.old + tags_most item.now.artifact }
{
    add(alloc, links, tags, undos, items, item, steps)?;
    give_late(
        alloc,
        links,
        tags,
        undos,
        items,
        item,
        changes.items(),
        steps,
    )
}
