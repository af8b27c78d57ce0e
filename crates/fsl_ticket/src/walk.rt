//! Walks the changes of a ticket from the newest down, and finds the values that they give its fields.
ghost use Rattle.std.specs.Prelude.{◌≡◌, ℕ, List, Some, IfOk, OnOk};
ghost use Rattle.std.specs.List.Sorted.{IsStrictlySortedBy};
ghost use Rattle.std.specs.Map.{keys_of};
ghost use Rattle.fsl_order.specs.Names.{bytes_cmp};
ghost use Rattle.fsl_table.specs.Contents.{value_at};
ghost use Rattle.fsl_table.specs.Within.{within, above};
ghost use Rattle.fsl_ticket.specs.Kept.{IsLaid, is_set_at, spot_cmp, facts_of};
ghost use Rattle.fsl_ticket.specs.Newest.{newest_cmp};
ghost use Rattle.fsl_ticket.specs.Seen.{value_in};
ghost use Rattle.fsl_ticket.specs.Tickets as table;
ghost use Rattle.fsl_ticket.specs.Walked.{AreWalked, down_from, ends_at, made_by, names_until, value_down, walk_on};

use crate::entry::Entry;
use crate::place::Place;
use crate::values;
use fsl_name::Name;
use fsl_table::within::next_within;
use fsl_table::{Tracked, Within};
use fsl_text::{List, Memory, Steps, Text};
use std::alloc::Global;
use std::collections::BTreeMap;
use std::sync::ledger::Ledger;

/// The key of a change of a ticket.
pub(crate) fn key(id: Name, place: Option<Place>) -> Within<Name, Place>
    ensures { result ≡ record { first = id; second = place } }
{
    Within {
        first: id,
        second: place,
    }
}

/// The newest change of a ticket, or the newest that is older than one.
pub(crate) fn next_place<L: Ledger>(
    spots: &Tracked<Within<Name, Place>, ()>,
    id: Name,
    place: Option<Place>,
    steps: &mut Steps<L>,
) -> Option<Place>
    requires { IsStrictlySortedBy spot_cmp (keys_of spots.now.held.entries) }
    ensures { down_from result id spots.now.held.entries ≡ above newest_cmp place (within bytes_cmp id spots.now.held.entries) }
{
    next_within(spots.map(), &key(id, place), steps)
}

/// Whether a change replaces a field, where it is there.
fn replaces<L: Ledger>(
    facts: &Tracked<Name, Entry>,
    name: Name,
    field: &Text,
    steps: &mut Steps<L>,
) -> bool
    ensures { result ≡ is_set_at (value_at bytes_cmp name facts.now.held.entries) field.now }
{
    match facts.get(&name, steps) {
        None => false,
        Some(entry) => values::is_set(entry.changes.items(), field),
    }
}

/// Whether a walk ends with a change: where that replaces the field, if one is given.
fn is_end<L: Ledger>(
    facts: &Tracked<Name, Entry>,
    name: Name,
    field: &Option<Text>,
    steps: &mut Steps<L>,
) -> bool
    ensures { result ≡ ends_at (value_at bytes_cmp name facts.now.held.entries) field.now }
{
    match field {
        None => false,
        Some(field) => replaces(facts, name, field, steps),
    }
}

/// Where a walk goes on: nowhere behind its end.
fn next_in_walk<L: Ledger>(
    facts: &Tracked<Name, Entry>,
    spots: &Tracked<Within<Name, Place>, ()>,
    id: Name,
    place: Place,
    field: &Option<Text>,
    steps: &mut Steps<L>,
) -> Option<Place>
    requires { IsStrictlySortedBy spot_cmp (keys_of spots.now.held.entries) }
    ensures { down_from result id spots.now.held.entries ≡ walk_on facts.now.held.entries field.now place id spots.now.held.entries }
{
    if is_end(facts, place.name(), field, steps) {
        None
    } else {
        next_place(spots, id, Some(place), steps)
    }
}

/// The names of the changes of a ticket from one of them down, to the first that replaces the field, or all where none is given.
fn names_from<L: Ledger>(
    alloc: Global,
    facts: &Tracked<Name, Entry>,
    spots: &Tracked<Within<Name, Place>, ()>,
    id: Name,
    first: Place,
    field: &Option<Text>,
    steps: &mut Steps<L>,
) -> Result<List<Name>, Memory>
    requires { IsStrictlySortedBy spot_cmp (keys_of spots.now.held.entries) }
    ensures { IfOk result (λ names. names ≡ names_until facts.now.held.entries field.now (down_from (Some first) id spots.now.held.entries)) }
{
    let mut names = List::new(alloc);
    let mut next = Some(first);
    while let Some(place) = next {
        names.append(place.name())?;
        next = next_in_walk(facts, spots, id, place, field, steps);
    }
    Ok(names)
}

/// Takes the cards of a change into the values, where the change is there.
fn take_change<L: Ledger>(
    alloc: Global,
    values: &mut BTreeMap<Text, Text>,
    facts: &Tracked<Name, Entry>,
    name: Name,
    steps: &mut Steps<L>,
) -> Result<(), Memory>
    ensures taken { OnOk result ((q : List ℕ) → value_in values.new.entries q ≡ made_by facts.now.held.entries name q (value_in values.old.entries q)) }
{
    match facts.get(&name, steps) {
        None => Ok(()),
        Some(entry) => values::take_all(alloc, values, entry.changes.items()),
    }
}

/// The values that changes give the fields, where the newest stands first.
fn values_of<L: Ledger>(
    alloc: Global,
    facts: &Tracked<Name, Entry>,
    names: &[Name],
    steps: &mut Steps<L>,
) -> Result<BTreeMap<Text, Text>, Memory>
    ensures { IfOk result (λ values. (q : List ℕ) → value_in values.entries q ≡ value_down facts.now.held.entries names.now q) }
{
    let mut values = BTreeMap::new(alloc);
    let mut left = names.len();
    while left > 0 {
        left -= 1;
        take_change(alloc, &mut values, facts, names[left], steps)?;
    }
    Ok(values)
}

/// The values that the changes of a ticket give its fields, from one of them down to the first that replaces a field, where one is
/// given: the value of that field is right then.
pub(crate) fn values_from<L: Ledger>(
    alloc: Global,
    facts: &Tracked<Name, Entry>,
    spots: &Tracked<Within<Name, Place>, ()>,
    id: Name,
    first: Place,
    field: &Option<Text>,
    steps: &mut Steps<L>,
) -> Result<BTreeMap<Text, Text>, Memory>
    requires { IsStrictlySortedBy spot_cmp (keys_of spots.now.held.entries) }
    ensures { IfOk result (λ values. AreWalked facts.now.held.entries field.now (down_from (Some first) id spots.now.held.entries) values.entries) }
{
    let Ok(names) = names_from(alloc, facts, spots, id, first, field, steps) else {
        return Err(Memory);
    };
    let values = values_of(alloc, facts, names.items(), steps);
    drop(names);
    values
}

/// The values of the configured fields of a ticket, in their order. None where it has no change.
pub(crate) fn fields_of<L: Ledger>(
    alloc: Global,
    configured: &[Text],
    facts: &Tracked<Name, Entry>,
    spots: &Tracked<Within<Name, Place>, ()>,
    id: Name,
    steps: &mut Steps<L>,
) -> Result<Option<List<Text>>, Memory>
    requires { IsLaid (record { facts = facts.now.held; spots = spots.now.held }) }
    ensures { IfOk result (λ values. values ≡ table.fields configured.now (facts_of facts.now.held.entries) id) }
{
    let Some(first) = next_place(spots, id, None, steps) else {
        return Ok(None);
    };
    let values = values_from(alloc, facts, spots, id, first, &None, steps)?;
    let found = values::of_fields(alloc, &values, configured)?;
    Ok(Some(found))
}
