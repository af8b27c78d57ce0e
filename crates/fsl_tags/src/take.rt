//! Own rows take assertions in, and a fact is put, with another parent or as a new one.
ghost use Rattle.std.specs.List.Sorted.{IsStrictlySortedBy};
ghost use Rattle.std.specs.Map.{keys_of};
ghost use Rattle.std.specs.Prelude.{◌≡◌, ◌⊎◌, List, ℕ, None, OnOk, cond, ◌+◌, ◌*◌, ◌≤◌, length, []};
ghost use Rattle.std.specs.Str.{bytes_eq};
ghost use Rattle.fsl_order.specs.Names.{bytes_cmp};
ghost use Rattle.fsl_table.specs.Contents.{with_entry};
ghost use Rattle.fsl_tags.specs.InMaps.{AreButFor, AreChildless, AreRightBy, IfAlone, StayNoted, back_of, kids_of, notes, parents};
ghost use Rattle.fsl_tags.specs.Laid.{row_in, AreFull, parent_in};
ghost use Rattle.fsl_tags.specs.Laying.{HasTaken, HaveTaken};

use super::blend::folded;
use super::group::{grouped, take_out};
use super::maps::{Flow, Graph};
use super::node::Node;
use super::renew::renew;
use super::row::Row;
use super::rows::{row_of, set};
use super::shared::{Shared, again};
use fsl_name::Name;
use fsl_table::Tracked;
use fsl_text::{List, Memory, Steps};
use std::alloc::Global;
use std::collections::BTreeMap;
use std::sync::ledger::Ledger;

/// The primary parent of a name.
pub(crate) fn parent_of<L: Ledger>(
    facts: &Tracked<Name, Node>,
    name: Name,
    steps: &mut Steps<L>,
) -> Option<Name>
    ensures parent { result ≡ parent_in facts.now.held.entries name }
    ensures cost { steps.new ≡ steps.old + 1 }
{
    match facts.get(&name, steps) {
        Some(node) => node.parent,
        None => None,
    }
}

/// Takes the assertions of a group in, which are all on one name: its row and those of its descendants follow, each put once.
fn take_group<L: Ledger>(
    alloc: Global,
    graph: &Graph,
    own: &mut Tracked<Name, Row>,
    flow: &mut Flow,
    target: Name,
    group: &[Shared],
    steps: &mut Steps<L>,
) -> Result<(), Memory>
    requires right { AreRightBy graph.now own.old flow.old }
    ensures right { OnOk result (AreRightBy graph.now own.new flow.new) }
    ensures own { OnOk result (HasTaken target group.now own.old.held.entries own.new.held.entries) }
    ensures noted { OnOk result (StayNoted flow.old flow.new) }
    ensures own_was { own.new.was ≡ own.old.was }
    ensures rows_was { flow.new.rows.was ≡ flow.old.rows.was }
    ensures more { kids_of graph.now target ≡ [] → notes flow.new ≤ notes flow.old + 1 }
    ensures touches { kids_of graph.now target ≡ [] → steps.new ≤ steps.old + 11 }
    ensures back { kids_of graph.now target ≡ [] → own.new.back + flow.new.rows.back ≤ own.old.back + flow.old.rows.back + 2 }
{
    let none = Row::new();
    let near = row_of(own, target, &none, steps);
    let row = folded(alloc, near, group)?;
    set(own, target, row, steps)?;
    let up = parent_of(&graph.facts, target, steps);
    renew(alloc, graph, own, flow, target, up, steps)
}

/// Takes the group of a name in, where there is one, and out of the groups.
fn take_left<L: Ledger>(
    alloc: Global,
    graph: &Graph,
    own: &mut Tracked<Name, Row>,
    flow: &mut Flow,
    groups: &mut BTreeMap<Name, List<Shared>>,
    target: Name,
    steps: &mut Steps<L>,
) -> Result<(), Memory>
    requires right { AreRightBy graph.now own.old flow.old }
    requires full { AreFull groups.old.entries }
    ensures right { OnOk result (AreRightBy graph.now own.new flow.new) }
    ensures full { AreFull groups.new.entries }
    ensures groups { (x : List ℕ) → row_in groups.new.entries x ≡ cond (bytes_eq x target) [] (row_in groups.old.entries x) }
    ensures own { OnOk result (HasTaken target (row_in groups.old.entries target) own.old.held.entries own.new.held.entries) }
    ensures noted { OnOk result (StayNoted flow.old flow.new) }
    ensures own_was { own.new.was ≡ own.old.was }
    ensures rows_was { flow.new.rows.was ≡ flow.old.rows.was }
    ensures more { kids_of graph.now target ≡ [] → notes flow.new ≤ notes flow.old + 1 }
    ensures touches { kids_of graph.now target ≡ [] → steps.new ≤ steps.old + 11 }
    ensures back { kids_of graph.now target ≡ [] → own.new.back + flow.new.rows.back ≤ own.old.back + flow.old.rows.back + 2 }
{
    let group = take_out(alloc, groups, target);
    if group.items().is_empty() {
        return Ok(());
    }
    take_group(alloc, graph, own, flow, target, group.items(), steps)
}

/// Puts a fact that isn't there, or that is there without a parent or with this one: its row and those of its descendants follow.
pub(crate) fn set_node<L: Ledger>(
    alloc: Global,
    graph: &mut Graph,
    own: &Tracked<Name, Row>,
    flow: &mut Flow,
    name: Name,
    node: Node,
    steps: &mut Steps<L>,
) -> Result<(), Memory>
    requires right { AreRightBy graph.old own.now flow.old }
    requires before { (node.parent ≡ None) ⊎ ((parents graph.old name ≡ None) ⊎ (parents graph.old name ≡ node.parent)) }
    ensures right { OnOk result (AreRightBy graph.new own.now flow.new) }
    ensures facts { OnOk result (graph.new.facts.held.entries ≡ with_entry bytes_cmp name node graph.old.facts.held.entries) }
    ensures noted { OnOk result (StayNoted flow.old flow.new) }
    ensures facts_was { graph.new.facts.was ≡ graph.old.facts.was }
    ensures children_was { graph.new.children.was ≡ graph.old.children.was }
    ensures rows_was { flow.new.rows.was ≡ flow.old.rows.was }
    ensures more { IfAlone graph.old name (notes flow.new ≤ notes flow.old + 1) }
    ensures touches { IfAlone graph.old name (steps.new ≤ steps.old + 14) }
    ensures back { IfAlone graph.old name (back_of graph.new + flow.new.rows.back ≤ back_of graph.old + flow.old.rows.back + 3) }
{
    let old = parent_of(&graph.facts, name, steps);
    graph.children.unlink(name, old, steps)?;
    graph.children.link(name, node.parent, steps)?;
    graph.facts.put(name, name, node, steps)?;
    let above = parent_of(&graph.facts, name, steps);
    renew(alloc, graph, own, flow, name, above, steps)
}

/// Takes some assertions in, those on one name at once, so that its row is put once. The names come from the last assertion to the first:
/// where those of one tag are on a line of check-ins, the newest goes down first, and stops the others.
pub(crate) fn take_all<L: Ledger>(
    alloc: Global,
    graph: &Graph,
    own: &mut Tracked<Name, Row>,
    flow: &mut Flow,
    assertions: &[Shared],
    steps: &mut Steps<L>,
) -> Result<(), Memory>
    requires right { AreRightBy graph.now own.old flow.old }
    ensures right { OnOk result (AreRightBy graph.now own.new flow.new) }
    ensures own { OnOk result (HaveTaken assertions.now own.old.held.entries own.new.held.entries) }
    ensures noted { OnOk result (StayNoted flow.old flow.new) }
    ensures own_was { own.new.was ≡ own.old.was }
    ensures rows_was { flow.new.rows.was ≡ flow.old.rows.was }
    ensures more { AreChildless graph.now assertions.now → notes flow.new ≤ notes flow.old + length assertions.now }
    ensures touches { AreChildless graph.now assertions.now → steps.new ≤ steps.old + 11 * length assertions.now }
    ensures back { AreChildless graph.now assertions.now → own.new.back + flow.new.rows.back ≤ own.old.back + flow.old.rows.back + 2 * length assertions.now }
{
    let mut groups = grouped(alloc, assertions)?;
    let mut at = assertions.len();
    while at > 0 {
        at -= 1;
        let target = assertions[at].get().target;
        take_left(alloc, graph, own, flow, &mut groups, target, steps)?;
    }
    Ok(())
}

/// Takes the primary parent of a fact out, where it has one.
pub(crate) fn cut<L: Ledger>(
    alloc: Global,
    graph: &mut Graph,
    own: &Tracked<Name, Row>,
    flow: &mut Flow,
    name: Name,
    node: &Node,
    steps: &mut Steps<L>,
) -> Result<(), Memory>
    requires right { AreRightBy graph.old own.now flow.old }
    requires ordered { IsStrictlySortedBy bytes_cmp (keys_of graph.old.facts.held.entries) }
    ensures right { OnOk result (AreRightBy graph.new own.now flow.new) }
    ensures alone { OnOk result (parents graph.new name ≡ None) }
    ensures facts { OnOk result (AreButFor name graph.old graph.new) }
    ensures noted { OnOk result (StayNoted flow.old flow.new) }
    ensures facts_was { graph.new.facts.was ≡ graph.old.facts.was }
    ensures children_was { graph.new.children.was ≡ graph.old.children.was }
    ensures rows_was { flow.new.rows.was ≡ flow.old.rows.was }
{
    match parent_of(&graph.facts, name, steps) {
        None => Ok(()),
        Some(_) => {
            let tags = again(alloc, node.tags.items())?;
            let alone = Node {
                checkin: node.checkin,
                parent: None,
                tags,
            };
            set_node(alloc, graph, own, flow, name, alone, steps)
        }
    }
}
