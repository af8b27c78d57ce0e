//! Facts fill the maps of facts, of children and of own rows.
ghost use Rattle.std.specs.List.Sorted.{IsStrictlySortedBy};
ghost use Rattle.std.specs.Map.{keys_of};
ghost use Rattle.std.specs.Prelude.{◌≡◌, ◌∷◌, [], List, ℕ, None, All, OnOk, cond};
ghost use Rattle.std.specs.Str.{bytes_eq};
ghost use Rattle.fsl_order.specs.Names.{bytes_cmp};
ghost use Rattle.fsl_order.specs.Rows.{by_name, named};
ghost use Rattle.fsl_table.specs.Contents.{value_at};
ghost use Rattle.fsl_tags.specs.Held.{facts_of};
ghost use Rattle.fsl_tags.specs.InMaps.{IsGroupedBy};
ghost use Rattle.fsl_tags.specs.Kept.{newest_of};
ghost use Rattle.fsl_tags.specs.Laid.{row_in, AreFull};
ghost use Rattle.fsl_tags.specs.Laying.{AreOwn, HasTaken, IsLaying, AreElsewhere, AreAllElsewhere};
ghost use Rattle.fsl_tags.specs.Tags as table;

use super::Fact;
use super::blend::folded;
use super::changed::pop;
use super::group::add_all;
use super::maps::Graph;
use super::node::Node;
use super::row::Row;
use super::rows::{row_of, set};
use super::shared::{Shared, share_copies};
use fsl_name::Name;
use fsl_table::Tracked;
use fsl_text::{List, Memory, Steps};
use std::alloc::Global;
use std::collections::BTreeMap;
use std::sync::ledger::Ledger;

/// Puts the row of a name, or takes it out where it is empty. The way back begins here.
pub(crate) fn put_row<L: Ledger>(
    rows: &mut Tracked<Name, Row>,
    name: Name,
    row: Row,
    steps: &mut Steps<L>,
) -> Result<(), Memory>
    requires { AreFull rows.old.held.entries }
    ensures full { OnOk result (AreFull rows.new.held.entries) }
    ensures row { OnOk result ((x : List ℕ) → row_in rows.new.held.entries x ≡ cond (bytes_eq x name) row (row_in rows.old.held.entries x)) }
{
    rows.begin();
    set(rows, name, row, steps)
}

/// Puts the newest assertions of a group, which are all on one name, into the own row of that name.
fn put_newest<L: Ledger>(
    alloc: Global,
    own: &mut Tracked<Name, Row>,
    target: Name,
    group: &[Shared],
    steps: &mut Steps<L>,
) -> Result<(), Memory>
    requires { AreOwn own.old.held.entries }
    ensures kept { OnOk result (AreOwn own.new.held.entries) }
    ensures own { OnOk result (HasTaken target group.now own.old.held.entries own.new.held.entries) }
{
    let none = Row::new();
    let near = row_of(own, target, &none, steps);
    let row = folded(alloc, near, group)?;
    put_row(own, target, row, steps)
}

/// Fills an empty map with the own rows that groups of assertions make, each on its name.
fn put_groups<L: Ledger>(
    alloc: Global,
    groups: BTreeMap<Name, List<Shared>>,
    own: &mut Tracked<Name, Row>,
    steps: &mut Steps<L>,
) -> Result<(), Memory>
    requires ordered { IsStrictlySortedBy bytes_cmp (keys_of groups.entries) }
    requires empty { own.old.held.entries ≡ [] }
    ensures kept { OnOk result (AreOwn own.new.held.entries) }
    ensures newest { OnOk result ((x tag : List ℕ) → named (λ a. a.tag) (row_in own.new.held.entries x) tag ≡ newest_of tag (row_in groups.entries x)) }
{
    let mut left = groups;
    while let Some(entry) = pop(&mut left) {
        let (target, group) = entry;
        put_newest(alloc, own, target, group.items(), steps)?;
    }
    Ok(())
}

/// Puts a fact whose artifact isn't there, the pair of it and its parent, and what it asserts. The ways back begin here.
fn lay_one<L: Ledger>(
    alloc: Global,
    graph: &mut Graph,
    groups: &mut BTreeMap<Name, List<Shared>>,
    fact: &Fact,
    steps: &mut Steps<L>,
) -> Result<(), Memory>
    requires grouped { IsGroupedBy graph.old groups.old.entries }
    requires absent { value_at bytes_cmp fact.now.name graph.old.facts.held.entries ≡ None }
    requires sources { All (λ a. a.source ≡ fact.now.name) fact.now.tags }
    ensures grouped { OnOk result (IsGroupedBy graph.new groups.new.entries) }
    ensures facts { OnOk result (facts_of graph.new.facts.held.entries ≡ by_name (λ f. f.name) (fact.now ∷ facts_of graph.old.facts.held.entries)) }
    ensures away { OnOk result ((x : List ℕ) → AreElsewhere x fact.now.tags → row_in groups.new.entries x ≡ row_in groups.old.entries x) }
{
    let tags = share_copies(alloc, fact.tags.items())?;
    add_all(alloc, groups, tags.items())?;
    graph.children.begin();
    graph.children.link(fact.name, fact.parent, steps)?;
    let node = Node {
        checkin: fact.checkin,
        parent: fact.parent,
        tags,
    };
    graph.facts.begin();
    graph.facts.put(fact.name, fact.name, node, steps)
}

/// Fills empty maps from facts, and groups what these assert by targets.
fn lay_all<L: Ledger>(
    alloc: Global,
    given: &[Fact],
    graph: &mut Graph,
    groups: &mut BTreeMap<Name, List<Shared>>,
    steps: &mut Steps<L>,
) -> Result<(), Memory>
    requires fit { table.AreTagFacts given.now }
    requires facts { graph.old.facts.held.entries ≡ [] }
    requires children { graph.old.children.held.entries ≡ [] }
    requires groups { groups.old.entries ≡ [] }
    ensures grouped { OnOk result (IsGroupedBy graph.new groups.new.entries) }
    ensures facts { OnOk result (facts_of graph.new.facts.held.entries ≡ by_name (λ f. f.name) given.now) }
    ensures away { OnOk result ((x : List ℕ) → AreAllElsewhere x given.now → row_in groups.new.entries x ≡ []) }
{
    let mut left = given.len();
    while left > 0 {
        left -= 1;
        lay_one(alloc, graph, groups, &given[left], steps)?;
    }
    Ok(())
}

/// Fills empty maps from facts. The assertions of all facts on one name make its own row at once, so that n of them take time by n log n.
pub(crate) fn lay<L: Ledger>(
    alloc: Global,
    given: &[Fact],
    graph: &mut Graph,
    own: &mut Tracked<Name, Row>,
    steps: &mut Steps<L>,
) -> Result<(), Memory>
    requires fit { table.AreTagFacts given.now }
    requires facts { graph.old.facts.held.entries ≡ [] }
    requires children { graph.old.children.held.entries ≡ [] }
    requires own { own.old.held.entries ≡ [] }
    ensures laying { OnOk result (IsLaying graph.new.facts.held.entries graph.new.children.held.entries own.new.held.entries) }
    ensures facts { OnOk result (facts_of graph.new.facts.held.entries ≡ by_name (λ f. f.name) given.now) }
    ensures away { OnOk result ((x : List ℕ) → AreAllElsewhere x given.now → row_in own.new.held.entries x ≡ []) }
{
    let mut groups = BTreeMap::new(alloc);
    lay_all(alloc, given, graph, &mut groups, steps)?;
    put_groups(alloc, groups, own, steps)
}
