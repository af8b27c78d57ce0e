//! These calls read and put the row of a name.
ghost use Rattle.std.specs.Prelude.{◌≡◌, ◌+◌, ◌≤◌, [], List, ℕ, length, OnOk, cond};
ghost use Rattle.std.specs.Str.{bytes_eq};
ghost use Rattle.fsl_tags.specs.Laid.{row_in, AreFull};
ghost use Rattle.fsl_tags.specs.InMaps.{HasNoted, StayNoted, notes, row_at};

use super::maps::Flow;
use super::row::Row;
use fsl_name::Name;
use fsl_table::Tracked;
use fsl_text::{Memory, Steps};
use std::collections::BTreeMap;
use std::sync::ledger::Ledger;

/// The row of a name, or one that is empty.
pub(crate) fn row_of<'a, L: Ledger>(
    rows: &'a Tracked<Name, Row>,
    name: Name,
    none: &'a Row,
    steps: &mut Steps<L>,
) -> &'a Row
    requires { none.now ≡ [] }
    ensures row { result.now ≡ row_in rows.now.held.entries name }
    ensures cost { steps.new ≡ steps.old + 1 }
{
    match rows.get(&name, steps) {
        Some(row) => row,
        None => none,
    }
}

/// Puts the row of a name, or takes it out where it is empty.
pub(crate) fn set<L: Ledger>(
    rows: &mut Tracked<Name, Row>,
    name: Name,
    row: Row,
    steps: &mut Steps<L>,
) -> Result<(), Memory>
    requires { AreFull rows.old.held.entries }
    ensures full { OnOk result (AreFull rows.new.held.entries) }
    ensures row { OnOk result ((x : List ℕ) → row_in rows.new.held.entries x ≡ cond (bytes_eq x name) row (row_in rows.old.held.entries x)) }
    ensures was { rows.new.was ≡ rows.old.was }
    ensures most { steps.new ≤ steps.old + 1 }
    ensures back { rows.new.back ≤ rows.old.back + 1 }
{
    if row.len() == 0 {
        rows.remove(name, steps)
    } else {
        rows.put(name, name, row, steps)
    }
}

/// Notes the row of a name as it was, where none is noted.
fn note(noted: &mut BTreeMap<Name, Row>, name: Name, row: &Row) -> Result<(), Memory>
    ensures more { length noted.new.entries ≤ length noted.old.entries + 1 }
    ensures noted { OnOk result (HasNoted name row.now noted.old.entries noted.new.entries) }
{
    if noted.contains_key(&name) {
        return Ok(());
    }
    let copy = row.again()?;
    match noted.insert(name, copy) {
        Ok(_) => Ok(()),
        Err(_) => Err(Memory),
    }
}

/// Puts the row of a name, and notes what it was.
pub(crate) fn place<L: Ledger>(
    flow: &mut Flow,
    name: Name,
    row: Row,
    steps: &mut Steps<L>,
) -> Result<(), Memory>
    requires { AreFull flow.old.rows.held.entries }
    ensures full { OnOk result (AreFull flow.new.rows.held.entries) }
    ensures row { OnOk result ((x : List ℕ) → row_at flow.new x ≡ cond (bytes_eq x name) row (row_at flow.old x)) }
    ensures noted { OnOk result (StayNoted flow.old flow.new) }
    ensures waiting { flow.new.waiting.items ≡ flow.old.waiting.items }
    ensures was { flow.new.rows.was ≡ flow.old.rows.was }
    ensures more { notes flow.new ≤ notes flow.old + 1 }
    ensures most { steps.new ≤ steps.old + 2 }
    ensures back { flow.new.rows.back ≤ flow.old.rows.back + 1 }
{
    let none = Row::new();
    let before = row_of(&flow.rows, name, &none, steps);
    note(&mut flow.noted, name, before)?;
    set(&mut flow.rows, name, row, steps)
}
