//! A name gets a new row, and its descendants follow.
ghost use Rattle.std.specs.Prelude.{◌≡◌, [], ◌+◌, ◌≤◌, length, OnOk};
ghost use Rattle.fsl_tags.specs.Climbed.{row_up};
ghost use Rattle.fsl_tags.specs.InMaps.{AreEven, AreLaidBy, AreOldOrRight, AreOnly, StayNoted, kids_of, notes, own_at, right_at, row_at};
ghost use Rattle.fsl_tags.specs.Joined.{joined};
ghost use Rattle.fsl_tags.specs.Laid.{row_in, Rises, AreFull};

use super::maps::{Flow, Graph};
use super::merge::merged;
use super::row::Row;
use super::rows::{place, row_of};
use super::same::is_same;
use super::spread::spread;
use fsl_name::Name;
use fsl_table::Tracked;
use fsl_text::{Memory, Steps};
use std::alloc::Global;
use std::sync::ledger::Ledger;

/// The row of what may be there.
fn row_above<'a, L: Ledger>(
    rows: &'a Tracked<Name, Row>,
    up: Option<Name>,
    none: &'a Row,
    steps: &mut Steps<L>,
) -> &'a Row
    requires { none.now ≡ [] }
    ensures row { result.now ≡ row_up (row_in rows.now.held.entries) up }
    ensures cost { steps.new ≤ steps.old + 1 }
{
    match up {
        Some(up) => row_of(rows, up, none, steps),
        None => none,
    }
}

/// Puts the row that the root has by its own and its parent's, and takes it down to the descendants.
pub(crate) fn renew<L: Ledger>(
    alloc: Global,
    graph: &Graph,
    own: &Tracked<Name, Row>,
    flow: &mut Flow,
    root: Name,
    up: Option<Name>,
    steps: &mut Steps<L>,
) -> Result<(), Memory>
    requires laid { AreLaidBy graph.now own.now }
    requires full { AreFull flow.old.rows.held.entries }
    requires above { Rises (row_up (row_at flow.old) up) }
    requires root { joined (row_up (row_at flow.old) up) (own_at own.now root) ≡ right_at graph.now own.now root }
    requires even { AreEven graph.now own.now root flow.old }
    ensures full { OnOk result (AreFull flow.new.rows.held.entries) }
    ensures each { OnOk result (AreOldOrRight graph.now own.now flow.old flow.new) }
    ensures root { OnOk result (row_at flow.new root ≡ right_at graph.now own.now root) }
    ensures even { OnOk result (AreEven graph.now own.now root flow.new) }
    ensures noted { OnOk result (StayNoted flow.old flow.new) }
    ensures was { flow.new.rows.was ≡ flow.old.rows.was }
    ensures touches { AreOnly root (kids_of graph.now root) → steps.new ≤ steps.old + (7 + length (kids_of graph.now root)) }
    ensures more { AreOnly root (kids_of graph.now root) → notes flow.new ≤ notes flow.old + 1 }
    ensures back { AreOnly root (kids_of graph.now root) → flow.new.rows.back ≤ flow.old.rows.back + 1 }
{
    let none = Row::new();
    let empty = Row::new();
    let above = row_above(&flow.rows, up, &empty, steps);
    let near = row_of(own, root, &none, steps);
    let row = merged(alloc, near, above)?;
    let before = row_of(&flow.rows, root, &none, steps);
    if is_same(before, &row) {
        return Ok(());
    }
    place(flow, root, row, steps)?;
    spread(alloc, graph, own, flow, root, steps)
}
