//! Tells whether a new change alters the row of its ticket. Only the fields that it touches matter. An appended value makes its
//! field longer. A replacement is compared with the value that the field has since the last change that replaced it. Where a
//! newer change replaces the field, that stays as it was.
ghost use Rattle.std.specs.Prelude.{◌≡◌, ◌&&◌, ◌==◌, not, length, ℕ, [], List, Some, IfOk};
ghost use Rattle.std.specs.List.{list_any};
ghost use Rattle.std.specs.List.Sorted.{IsStrictlySortedBy};
ghost use Rattle.std.specs.Map.{keys_of};
ghost use Rattle.fsl_order.specs.Names.{bytes_cmp};
ghost use Rattle.fsl_table.specs.Within.{within};
ghost use Rattle.fsl_ticket.specs.Kept.{IsKept, rows_of, spot_cmp};
ghost use Rattle.fsl_ticket.specs.Seen.{value_in};
ghost use Rattle.fsl_ticket.specs.Walked.{down_from, made, is_other_by, is_row_other_by, names_of, value_below, value_down};

use crate::entry::Entry;
use crate::maps::Maps;
use crate::place::Place;
use crate::sets::is_masked;
use crate::walk::{next_place, values_from};
use crate::{Fact, values};
use fsl_name::Name;
use fsl_table::{Tracked, Within};
use fsl_text::{Memory, Steps, Text};
use std::alloc::Global;
use std::collections::BTreeMap;
use std::sync::ledger::Ledger;

/// The value that changes give a field from one of them down.
fn value_from<L: Ledger>(
    alloc: Global,
    facts: &Tracked<Name, Entry>,
    spots: &Tracked<Within<Name, Place>, ()>,
    id: Name,
    first: Place,
    field: &Text,
    steps: &mut Steps<L>,
) -> Result<Text, Memory>
    requires { IsStrictlySortedBy spot_cmp (keys_of spots.now.held.entries) }
    ensures { IfOk result (λ value. value ≡ value_down facts.now.held.entries (names_of (down_from (Some first) id spots.now.held.entries)) field.now) }
{
    let end = Some(Text::of(alloc, field.bytes())?);
    let values = values_from(alloc, facts, spots, id, first, &end, steps);
    drop(end);
    match values {
        Ok(values) => {
            let value = values::copied(alloc, &values, field);
            drop(values);
            value
        }
        Err(Memory) => Err(Memory),
    }
}

/// The value of a field below a place.
fn value_below<L: Ledger>(
    alloc: Global,
    facts: &Tracked<Name, Entry>,
    spots: &Tracked<Within<Name, Place>, ()>,
    id: Name,
    place: Place,
    field: &Text,
    steps: &mut Steps<L>,
) -> Result<Text, Memory>
    requires { IsStrictlySortedBy spot_cmp (keys_of spots.now.held.entries) }
    ensures { IfOk result (λ value. value ≡ value_below facts.now.held.entries place field.now (within bytes_cmp id spots.now.held.entries)) }
{
    match next_place(spots, id, Some(place), steps) {
        None => Ok(Text::empty(alloc)),
        Some(first) => value_from(alloc, facts, spots, id, first, field, steps),
    }
}

/// Whether cards leave a field as it is: they don't replace it, and put nothing at its end.
fn is_untouched(replaced: bool, value: &[u8]) -> bool
    ensures { result ≡ (not replaced && length value.now == 0) }
{
    !replaced && value.is_empty()
}

/// Whether a change, which isn't there, makes another value of a field. `own` has what its cards alone make of each field.
fn is_other<L: Ledger>(
    alloc: Global,
    maps: &Maps,
    fact: &Fact,
    own: &BTreeMap<Text, Text>,
    field: &Text,
    steps: &mut Steps<L>,
) -> Result<bool, Memory>
    requires kept { IsKept (rows_of maps.now) }
    requires own { (q : List ℕ) → value_in own.now.entries q ≡ made fact.now.changes q [] }
    ensures { IfOk result (λ b. b ≡ is_other_by (rows_of maps.now) fact.now field.now) }
{
    let place = Place::new(fact.date, fact.name);
    let value = values::value_of(own, field);
    let replaced = values::is_set(fact.changes.items(), field);
    if is_untouched(replaced, value) {
        return Ok(false);
    }
    if is_masked(alloc, &maps.sets, fact.id, field, place, steps)? {
        return Ok(false);
    }
    if !replaced {
        return Ok(true);
    }
    match value_below(
        alloc,
        &maps.facts,
        &maps.spots,
        fact.id,
        place,
        field,
        steps,
    ) {
        Ok(before) => {
            let same = before.bytes() == value;
            drop(before);
            Ok(!same)
        }
        Err(Memory) => Err(Memory),
    }
}

/// Whether a change, which isn't there, makes another value of one of the fields.
fn any_other<L: Ledger>(
    alloc: Global,
    configured: &[Text],
    maps: &Maps,
    fact: &Fact,
    own: &BTreeMap<Text, Text>,
    steps: &mut Steps<L>,
) -> Result<bool, Memory>
    requires kept { IsKept (rows_of maps.now) }
    requires own { (q : List ℕ) → value_in own.now.entries q ≡ made fact.now.changes q [] }
    ensures { IfOk result (λ b. b ≡ list_any (is_other_by (rows_of maps.now) fact.now) configured.now) }
{
    for field in configured {
        if is_other(alloc, maps, fact, own, field, steps)? {
            return Ok(true);
        }
    }
    Ok(false)
}

/// Whether a change, which isn't there, makes another row of its ticket. For each configured field that it touches it takes one look
/// at the newest change that replaces that. Where the change itself replaces it and none that is newer does, it walks those of the
/// ticket that are older, down to the last that replaced it: no later change walks those again for this field, save that last one.
pub(crate) fn is_row_other<L: Ledger>(
    alloc: Global,
    configured: &[Text],
    maps: &Maps,
    fact: &Fact,
    steps: &mut Steps<L>,
) -> Result<bool, Memory>
    requires { IsKept (rows_of maps.now) }
    ensures { IfOk result (λ b. b ≡ is_row_other_by configured.now (rows_of maps.now) fact.now) }
{
    if next_place(&maps.spots, fact.id, None, steps).is_none() {
        return Ok(true);
    }
    match values::made(alloc, fact.changes.items()) {
        Ok(own) => {
            let other = any_other(alloc, configured, maps, fact, &own, steps);
            drop(own);
            other
        }
        Err(Memory) => Err(Memory),
    }
}
