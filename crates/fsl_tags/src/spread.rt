//! A new row of a name goes down to its descendants, as far as their rows differ.
ghost use Rattle.std.specs.List.{AllByRecursion};
ghost use Rattle.std.specs.Prelude.{◌≡◌, ◌+◌, ◌++◌, ◌∷◌, [], ◌≤◌, List, ℕ, Some, length, OnOk, MatchOption, cond};
ghost use Rattle.std.specs.Str.{bytes_eq};
ghost use Rattle.fsl_tags.specs.InMaps.{AreEvenBelow, AreLaidBy, AreOnly, IsBrief, IsComingDown, IsStill, IsTakenDown, StayNoted, kids_of, left_to_do, notes, own_at, parents, right_at, row_at, waiting_with};
ghost use Rattle.fsl_tags.specs.Joined.{joined};
ghost use Rattle.fsl_tags.specs.Laid.{Rises, AreFull};

use super::maps::{Flow, Graph};
use super::merge::merged;
use super::row::Row;
use super::rows::{place, row_of};
use super::same::is_same;
use fsl_name::Name;
use fsl_table::Tracked;
use fsl_text::{Memory, Steps};
use std::alloc::Global;
use std::sync::ledger::Ledger;

/// A name whose row is taken down to its children. The root, where that began, stays as it is.
#[derive(Drop)]
struct Above {
    root: Name,
    at: Name,
    row: Row,
}

/// Works out the row of a child from its own and from what is above it, and where it isn't the one that it has, puts it and lets the
/// child wait.
fn refresh<L: Ledger>(
    alloc: Global,
    own: &Tracked<Name, Row>,
    flow: &mut Flow,
    name: Name,
    above: &Row,
    steps: &mut Steps<L>,
) -> Result<(), Memory>
    requires full { AreFull flow.old.rows.held.entries }
    requires rise { Rises (own_at own.now name) }
    requires above { Rises above.now }
    ensures full { OnOk result (AreFull flow.new.rows.held.entries) }
    ensures row { OnOk result ((x : List ℕ) → row_at flow.new x ≡ cond (bytes_eq x name) (joined above.now (own_at own.now name)) (row_at flow.old x)) }
    ensures waiting { OnOk result (flow.new.waiting.items ≡ waiting_with flow.old name (joined above.now (own_at own.now name))) }
    ensures noted { OnOk result (StayNoted flow.old flow.new) }
    ensures was { flow.new.rows.was ≡ flow.old.rows.was }
{
    let none = Row::new();
    let near = row_of(own, name, &none, steps);
    let row = merged(alloc, near, above)?;
    let before = row_of(&flow.rows, name, &none, steps);
    if is_same(before, &row) {
        return Ok(());
    }
    flow.waiting.push(name)?;
    place(flow, name, row, steps)
}

/// Takes the row of a name down to some of its children.
fn follow<L: Ledger>(
    alloc: Global,
    graph: &Graph,
    own: &Tracked<Name, Row>,
    flow: &mut Flow,
    above: &Above,
    kids: &[Name],
    steps: &mut Steps<L>,
) -> Result<(), Memory>
    requires rise { (x : List ℕ) → Rises (own_at own.now x) }
    requires full { AreFull flow.old.rows.held.entries }
    requires kids { AllByRecursion (λ c. parents graph.now c ≡ Some above.now.at) kids.now }
    requires above { above.now.row ≡ right_at graph.now own.now above.now.at }
    requires spread { IsComingDown graph.now own.now above.now.root above.now.at kids.now flow.old flow.old }
    ensures full { OnOk result (AreFull flow.new.rows.held.entries) }
    ensures spread { OnOk result (IsComingDown graph.now own.now above.now.root above.now.at [] flow.old flow.new) }
    ensures less { OnOk result (left_to_do graph.now own.now flow.new ≤ left_to_do graph.now own.now flow.old) }
    ensures noted { OnOk result (StayNoted flow.old flow.new) }
    ensures was { flow.new.rows.was ≡ flow.old.rows.was }
    ensures idle { AreOnly above.now.root kids.now → IsStill steps.old steps.new flow.old flow.new }
    ensures noted_idle { AreOnly above.now.root kids.now → notes flow.new ≡ notes flow.old }
{
    for child in kids {
        if *child == above.root {
            continue;
        }
        refresh(alloc, own, flow, *child, &above.row, steps)?;
    }
    Ok(())
}

/// Takes the row of a name down to its children.
fn spread_one<L: Ledger>(
    alloc: Global,
    graph: &Graph,
    own: &Tracked<Name, Row>,
    flow: &mut Flow,
    root: Name,
    at: Name,
    steps: &mut Steps<L>,
) -> Result<(), Memory>
    requires laid { AreLaidBy graph.now own.now }
    requires full { AreFull flow.old.rows.held.entries }
    requires spread { IsTakenDown graph.now own.now root (flow.old.waiting.items ++ at ∷ []) flow.old flow.old }
    ensures full { OnOk result (AreFull flow.new.rows.held.entries) }
    ensures spread { OnOk result (IsTakenDown graph.now own.now root flow.new.waiting.items flow.old flow.new) }
    ensures less { OnOk result (left_to_do graph.now own.now flow.new ≤ left_to_do graph.now own.now flow.old) }
    ensures noted { OnOk result (StayNoted flow.old flow.new) }
    ensures was { flow.new.rows.was ≡ flow.old.rows.was }
    ensures idle { AreOnly root (kids_of graph.now at) → IsBrief (2 + length (kids_of graph.now at)) steps.old steps.new flow.old flow.new }
    ensures noted_idle { AreOnly root (kids_of graph.now at) → notes flow.new ≡ notes flow.old }
    ensures done { OnOk result (AreOnly root (kids_of graph.now at) → flow.new.waiting.items ≡ flow.old.waiting.items) }
{
    let none = Row::new();
    let row = row_of(&flow.rows, at, &none, steps).again()?;
    let kids = graph.children.seconds(alloc, at, steps)?;
    let above = Above { root, at, row };
    follow(alloc, graph, own, flow, &above, kids.items(), steps)
}

/// Takes the last name out.
pub(crate) fn pop(names: &mut Vec<Name>) -> Option<Name>
    ensures { MatchOption result ((names.old.items ≡ []) × (names.new.items ≡ [])) (λ name. names.old.items ≡ names.new.items ++ name ∷ []) }
{
    names.pop()
}

/// Takes the row of the root down to its descendants.
pub(crate) fn spread<L: Ledger>(
    alloc: Global,
    graph: &Graph,
    own: &Tracked<Name, Row>,
    flow: &mut Flow,
    root: Name,
    steps: &mut Steps<L>,
) -> Result<(), Memory>
    requires laid { AreLaidBy graph.now own.now }
    requires full { AreFull flow.old.rows.held.entries }
    requires root { row_at flow.old root ≡ right_at graph.now own.now root }
    requires even { AreEvenBelow graph.now own.now root flow.old }
    ensures full { OnOk result (AreFull flow.new.rows.held.entries) }
    ensures spread { OnOk result (IsTakenDown graph.now own.now root [] flow.old flow.new) }
    ensures noted { OnOk result (StayNoted flow.old flow.new) }
    ensures was { flow.new.rows.was ≡ flow.old.rows.was }
    ensures idle { AreOnly root (kids_of graph.now root) → IsBrief (2 + length (kids_of graph.now root)) steps.old steps.new flow.old flow.new }
    ensures noted_idle { AreOnly root (kids_of graph.now root) → notes flow.new ≡ notes flow.old }
{
    flow.waiting.clear();
    flow.waiting.push(root)?;
    while let Some(at) = pop(&mut flow.waiting) {
        spread_one(alloc, graph, own, flow, root, at, steps)?;
    }
    Ok(())
}
