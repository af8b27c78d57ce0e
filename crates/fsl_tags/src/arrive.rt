//! A fact arrives, or gets another parent, and all maps follow.
ghost use Rattle.std.specs.List.Sorted.{IsStrictlySortedBy};
ghost use Rattle.std.specs.Map.{keys_of};
ghost use Rattle.std.specs.Prelude.{◌≡◌, ◌+◌, ◌*◌, ◌≤◌, [], ◌∷◌, length, OnOk, IfOk};
ghost use Rattle.fsl_order.specs.Names.{bytes_cmp};
ghost use Rattle.fsl_order.specs.Rows.{by_name, ListsChanged};
ghost use Rattle.fsl_table.specs.Contents.{with_entry};
ghost use Rattle.fsl_tags.specs.Conditions.{IsParentChange};
ghost use Rattle.fsl_tags.specs.Held.{IsKept, facts_in, rows_before, rows_of, steps_back};
ghost use Rattle.fsl_tags.specs.InMaps.{AreRightBy, IsOnItself, StayNoted, kids_of};
ghost use Rattle.fsl_tags.specs.Tags as table;

use super::Fact;
use super::changed::changed_names;
use super::maps::{Flow, Graph, Maps};
use super::node::Node;
use super::row::Row;
use super::shared::share;
use super::take::{cut, set_node, take_all};
use fsl_name::Name;
use fsl_table::Tracked;
use fsl_text::{List, Memory, Steps};
use std::alloc::Global;
use std::sync::ledger::Ledger;

/// Takes a fact in, and lists the names whose rows that changes.
pub(crate) fn take_in<L: Ledger>(
    alloc: Global,
    maps: &mut Maps,
    fact: Fact,
    steps: &mut Steps<L>,
) -> Result<List<Name>, Memory>
    requires kept { IsKept (rows_of maps.old) }
    requires fit { table.AreTagFacts (fact ∷ facts_in maps.old) }
    requires noted { maps.old.flow.noted.entries ≡ [] }
    ensures facts { OnOk result (facts_in maps.new ≡ by_name (λ f. f.name) (fact ∷ facts_in maps.old)) }
    ensures kept { OnOk result (IsKept (rows_of maps.new)) }
    ensures changed { IfOk result (ListsChanged (table.tags_row (facts_in maps.old)) (table.tags_row (facts_in maps.new))) }
    ensures was { rows_before maps.new ≡ rows_before maps.old }
    ensures touches { kids_of maps.old.graph fact.name ≡ [] → IsOnItself fact → steps.new ≤ steps.old + (15 + 12 * length fact.tags) }
    ensures back { kids_of maps.old.graph fact.name ≡ [] → IsOnItself fact → steps_back maps.new ≤ steps_back maps.old + (3 + 2 * length fact.tags) }
{
    let Fact {
        name,
        checkin,
        parent,
        tags,
    } = fact;
    let tags = share(alloc, tags)?;
    match take_all(
        alloc,
        &maps.graph,
        &mut maps.own,
        &mut maps.flow,
        tags.items(),
        steps,
    ) {
        Ok(()) => {
            let node = Node {
                checkin,
                parent,
                tags,
            };
            match set_node(
                alloc,
                &mut maps.graph,
                &maps.own,
                &mut maps.flow,
                name,
                node,
                steps,
            ) {
                Ok(()) => changed_names(alloc, &mut maps.flow.noted, &maps.flow.rows, steps),
                Err(Memory) => Err(Memory),
            }
        }
        Err(Memory) => {
            drop(tags);
            Err(Memory)
        }
    }
}

/// Takes the parent of a node out, where it has one, and then puts the node with its own.
fn move_node<L: Ledger>(
    alloc: Global,
    graph: &mut Graph,
    own: &Tracked<Name, Row>,
    flow: &mut Flow,
    name: Name,
    node: Node,
    steps: &mut Steps<L>,
) -> Result<(), Memory>
    requires right { AreRightBy graph.old own.now flow.old }
    requires ordered { IsStrictlySortedBy bytes_cmp (keys_of graph.old.facts.held.entries) }
    ensures right { OnOk result (AreRightBy graph.new own.now flow.new) }
    ensures facts { OnOk result (graph.new.facts.held.entries ≡ with_entry bytes_cmp name node graph.old.facts.held.entries) }
    ensures noted { OnOk result (StayNoted flow.old flow.new) }
    ensures facts_was { graph.new.facts.was ≡ graph.old.facts.was }
    ensures children_was { graph.new.children.was ≡ graph.old.children.was }
    ensures rows_was { flow.new.rows.was ≡ flow.old.rows.was }
{
    match cut(alloc, graph, own, flow, name, &node, steps) {
        Ok(()) => set_node(alloc, graph, own, flow, name, node, steps),
        Err(Memory) => Err(Memory),
    }
}

/// Gives a fact another parent, and lists the names whose rows that changes.
pub(crate) fn give_parent<L: Ledger>(
    alloc: Global,
    maps: &mut Maps,
    fact: Fact,
    steps: &mut Steps<L>,
) -> Result<List<Name>, Memory>
    requires kept { IsKept (rows_of maps.old) }
    requires change { IsParentChange (facts_in maps.old) fact }
    requires fit { table.AreTagFacts (by_name (λ f. f.name) (fact ∷ facts_in maps.old)) }
    requires noted { maps.old.flow.noted.entries ≡ [] }
    ensures facts { OnOk result (facts_in maps.new ≡ by_name (λ f. f.name) (fact ∷ facts_in maps.old)) }
    ensures kept { OnOk result (IsKept (rows_of maps.new)) }
    ensures changed { IfOk result (ListsChanged (table.tags_row (facts_in maps.old)) (table.tags_row (facts_in maps.new))) }
    ensures was { rows_before maps.new ≡ rows_before maps.old }
{
    let Fact {
        name,
        checkin,
        parent,
        tags,
    } = fact;
    let tags = share(alloc, tags)?;
    let node = Node {
        checkin,
        parent,
        tags,
    };
    move_node(
        alloc,
        &mut maps.graph,
        &maps.own,
        &mut maps.flow,
        name,
        node,
        steps,
    )?;
    changed_names(alloc, &mut maps.flow.noted, &maps.flow.rows, steps)
}
