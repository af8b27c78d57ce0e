//! These calls gather the tags that are in force on a name, and the names on which a tag is.
ghost use Rattle.std.specs.List.Sorted.{IsStrictlySortedBy};
ghost use Rattle.std.specs.Map.{keys_of};
ghost use Rattle.std.specs.Option.{option_copied};
ghost use Rattle.std.specs.Prelude.{◌≡◌, ◌++◌, ◌∷◌, [], ℕ, List, OnOk, IfOk, cond, filter, option_map};
ghost use Rattle.fsl_order.specs.Names.{bytes_cmp};
ghost use Rattle.fsl_table.specs.Contents.{first_of, entries_after};
ghost use Rattle.fsl_tags.specs.Gathered.{puts, is_shown};
ghost use Rattle.fsl_tags.specs.Laid.{Rises, row_in};
ghost use Rattle.fsl_tags.specs.Laying.{shows};

use super::order::cancels;
use super::row::{Row, find, listed};
use super::rows::row_of;
use super::shared::Shared;
use super::{Assertion, copy};
use fsl_name::Name;
use fsl_table::Tracked;
use fsl_text::{List, Memory, Steps};
use std::alloc::Global;
use std::sync::ledger::Ledger;

/// Whether there is an assertion, and it doesn't take the tag away.
fn is_shown(found: Option<&Assertion>) -> bool
    ensures { result ≡ is_shown (option_copied found.entry) }
{
    match found {
        Some(assertion) => !cancels(assertion.prefix),
        None => false,
    }
}

/// Puts a copy of an assertion at the end of a list, where it doesn't take the tag away.
fn append_shown(
    alloc: Global,
    list: &mut List<Assertion>,
    assertion: &Assertion,
) -> Result<(), Memory>
    ensures { OnOk result (list.new ≡ list.old ++ cond (puts assertion.now) (assertion.now ∷ []) []) }
{
    if cancels(assertion.prefix) {
        return Ok(());
    }
    match list.push(copy(alloc, assertion)?) {
        Ok(()) => Ok(()),
        Err(_) => Err(Memory),
    }
}

/// Copies of those of some assertions that don't take their tag away. `Memory` is the only error.
fn shown(alloc: Global, row: &[Shared]) -> Result<List<Assertion>, Memory>
    ensures { IfOk result (λ list. list ≡ filter puts row.now) }
{
    let mut list = List::new(alloc);
    for shared in row {
        append_shown(alloc, &mut list, shared.get())?;
    }
    Ok(list)
}

/// Copies of those assertions of a row that don't take their tag away. `Memory` is the only error.
pub(crate) fn in_force(alloc: Global, row: &Row) -> Result<List<Assertion>, Memory>
    ensures { IfOk result (λ list. list ≡ filter puts row.now) }
{
    let items = listed(alloc, row)?;
    shown(alloc, items.items())
}

/// Puts a name at the end of a list, where it is wanted.
fn append_if(wanted: bool, list: &mut List<Name>, name: Name) -> Result<(), Memory>
    ensures { OnOk result (list.new ≡ list.old ++ cond wanted (name ∷ []) []) }
{
    if !wanted {
        return Ok(());
    }
    match list.push(name) {
        Ok(()) => Ok(()),
        Err(_) => Err(Memory),
    }
}

/// The first name that has a row.
fn first_name<L: Ledger>(rows: &Tracked<Name, Row>, steps: &mut Steps<L>) -> Option<Name>
    ensures { result ≡ option_map (λ e. e.0) (first_of rows.now.held.entries) }
{
    let (name, _) = rows.map().first(steps)?;
    Some(*name)
}

/// The name after another that has a row.
fn name_after<L: Ledger>(
    rows: &Tracked<Name, Row>,
    name: Name,
    steps: &mut Steps<L>,
) -> Option<Name>
    ensures { result ≡ option_map (λ e. e.0) (first_of (entries_after bytes_cmp name rows.now.held.entries)) }
{
    let (next, _) = rows.map().next_after(&name, steps)?;
    Some(*next)
}

/// The names whose rows show a tag, ascending.
pub(crate) fn holders<L: Ledger>(
    alloc: Global,
    rows: &Tracked<Name, Row>,
    tag: &[u8],
    steps: &mut Steps<L>,
) -> Result<List<Name>, Memory>
    requires ordered { IsStrictlySortedBy bytes_cmp (keys_of rows.now.held.entries) }
    requires rise { (x : List ℕ) → Rises (row_in rows.now.held.entries x) }
    ensures { IfOk result (λ names. names ≡ filter (shows rows.now.held.entries tag.now) (keys_of rows.now.held.entries)) }
{
    let mut list = List::new(alloc);
    let none = Row::new();
    let mut next = first_name(rows, steps);
    while let Some(name) = next {
        let wanted = is_shown(find(row_of(rows, name, &none, steps), tag));
        append_if(wanted, &mut list, name)?;
        next = name_after(rows, name, steps);
    }
    Ok(list)
}
