//! A change tells the names whose rows it changed.
ghost use Rattle.std.specs.Prelude.{◌+◌, ◌≤◌, length, ◌≡◌, ◌++◌, ◌∷◌, [], OnOk, IfOk, MatchOption, cond};
ghost use Rattle.fsl_tags.specs.Changed.{HaveChanged, changed_of};
ghost use Rattle.fsl_tags.specs.Laid.{row_in};
ghost use Rattle.fsl_tags.specs.Same.{same_rows};

use super::row::Row;
use super::rows::row_of;
use super::same::is_same;
use fsl_name::Name;
use fsl_table::Tracked;
use fsl_text::{List, Memory, Steps};
use std::alloc::Global;
use std::collections::BTreeMap;
use std::sync::ledger::Ledger;

/// Puts a name at the end, unless its row is the same.
fn append_unless(same: bool, list: &mut List<Name>, name: Name) -> Result<(), Memory>
    ensures { OnOk result (list.new ≡ list.old ++ cond same [] (name ∷ [])) }
{
    if same {
        return Ok(());
    }
    match list.push(name) {
        Ok(()) => Ok(()),
        Err(_) => Err(Memory),
    }
}

/// Whether the row of a name is this.
fn is_row<L: Ledger>(rows: &Tracked<Name, Row>, name: Name, row: &Row, steps: &mut Steps<L>) -> bool
    ensures cost { steps.new ≡ steps.old + 1 }
    ensures same { result ≡ same_rows row.now (row_in rows.now.held.entries name) }
{
    let none = Row::new();
    is_same(row, row_of(rows, name, &none, steps))
}

/// The first of what was noted.
pub(crate) fn pop<V: Drop>(noted: &mut BTreeMap<Name, V>) -> Option<(Name, V)>
    ensures { MatchOption result ((noted.old.entries ≡ []) × (noted.new.entries ≡ [])) (λ e. noted.old.entries ≡ e ∷ noted.new.entries) }
{
    noted.pop_first()
}

/// Puts a name at the end, unless its row is the one that was noted.
fn append_changed<L: Ledger>(
    rows: &Tracked<Name, Row>,
    list: &mut List<Name>,
    name: Name,
    row: Row,
    steps: &mut Steps<L>,
) -> Result<(), Memory>
    ensures cost { steps.new ≡ steps.old + 1 }
    ensures list { OnOk result (list.new ≡ list.old ++ cond (same_rows row (row_in rows.now.held.entries name)) [] (name ∷ [])) }
{
    let same = is_row(rows, name, &row, steps);
    append_unless(same, list, name)
}

/// Lists the names whose rows aren't those that are noted, and takes all that is noted out.
fn list_changed<L: Ledger>(
    noted: &mut BTreeMap<Name, Row>,
    rows: &Tracked<Name, Row>,
    list: &mut List<Name>,
    steps: &mut Steps<L>,
) -> Result<(), Memory>
    requires { list.old ≡ [] }
    ensures cost { steps.new ≤ steps.old + length noted.old.entries }
    ensures list { OnOk result (list.new ≡ changed_of noted.old.entries rows.now.held.entries) }
{
    while let Some((name, row)) = pop(noted) {
        append_changed(rows, list, name, row, steps)?;
    }
    Ok(())
}

/// The names whose rows aren't those that were noted.
fn listed<L: Ledger>(
    alloc: Global,
    noted: &mut BTreeMap<Name, Row>,
    rows: &Tracked<Name, Row>,
    steps: &mut Steps<L>,
) -> Result<List<Name>, Memory>
    ensures cost { steps.new ≤ steps.old + length noted.old.entries }
    ensures list { IfOk result (λ list. list ≡ changed_of noted.old.entries rows.now.held.entries) }
{
    let mut list = List::new(alloc);
    match list_changed(noted, rows, &mut list, steps) {
        Ok(()) => Ok(list),
        Err(Memory) => Err(Memory),
    }
}

/// The names whose rows have changed since the first was noted, ascending. All that is noted is taken out.
pub(crate) fn changed_names<L: Ledger>(
    alloc: Global,
    noted: &mut BTreeMap<Name, Row>,
    rows: &Tracked<Name, Row>,
    steps: &mut Steps<L>,
) -> Result<List<Name>, Memory>
    ensures cost { steps.new ≤ steps.old + length noted.old.entries }
    ensures list { IfOk result (HaveChanged noted.old.entries rows.now.held.entries) }
{
    if noted.len() == 0 {
        return Ok(List::new(alloc));
    }
    listed(alloc, noted, rows, steps)
}
