//! Puts a change into the maps, takes it out, and finds the ids whose rows differ then.
ghost use Rattle.std.specs.Prelude.{◌≡◌, [], ◌&&◌, ◌||◌, not, ℕ, List, Option, Some, None, ◌∷◌, ◌++◌, if◌then◌else◌, IfOk, OnOk, is_some, map};
ghost use Rattle.std.specs.List.{filter_map};
ghost use Rattle.std.specs.Option.{option_to_list};
ghost use Rattle.std.specs.List.Sorted.{IsStrictlySortedBy};
ghost use Rattle.std.specs.Map.{keys_of};
ghost use Rattle.std.specs.Str.{bytes_eq};
ghost use Rattle.fsl_order.specs.Names.{bytes_cmp, has};
ghost use Rattle.fsl_order.specs.Rows.{by_name, AreDistinct};
ghost use Rattle.fsl_table.specs.Contents.{value_at, without_key};
ghost use Rattle.fsl_ticket.specs.Kept.{AreSpots, AreTouched, IsKept, IsLaid, ListsOthers, spot_cmp, facts_of, if_other, is_id, is_same, row_of, rows_before, rows_of, with_fact};

use crate::Fact;
use crate::differs::is_row_other;
use crate::entry::Entry;
use crate::maps::Maps;
use crate::place::Place;
use crate::sets::{put_sets, unset};
use crate::walk::{fields_of, key};
use fsl_name::{Name, Named};
use fsl_table::{Tracked, Within, names};
use fsl_text::{List, Memory, Steps, Text};
use std::alloc::Global;
use std::collections::BTreeSet;
use std::sync::ledger::Ledger;

/// The row of an id as it was before a change.
#[derive(Drop)]
pub(crate) struct Row {
    pub(crate) id: Name,
    pub(crate) values: Option<List<Text>>,
}

/// Puts a new change and the key of its ticket. After `Memory` a part may be done.
fn lay<L: Ledger>(
    facts: &mut Tracked<Name, Entry>,
    spots: &mut Tracked<Within<Name, Place>, ()>,
    fact: Fact,
    steps: &mut Steps<L>,
) -> Result<(), Memory>
    requires laid { IsLaid (record { facts = facts.old.held; spots = spots.old.held }) }
    requires absent { value_at bytes_cmp fact.name facts.old.held.entries ≡ None }
    ensures entries { OnOk result (facts.new.held.entries ≡ with_fact fact facts.old.held.entries) }
    ensures laid { OnOk result (IsLaid (record { facts = facts.new.held; spots = spots.new.held })) }
    ensures facts_was { facts.new.was ≡ facts.old.was }
    ensures spots_was { spots.new.was ≡ spots.old.was }
{
    let Fact {
        name,
        date,
        id,
        changes,
    } = fact;
    let spot = key(id, Some(Place::new(date, name)));
    let again = key(id, Some(Place::new(date, name)));
    spots.put(spot, again, (), steps)?;
    let entry = Entry { date, id, changes };
    facts.put(name, name, entry, steps)
}

/// Puts a new change. The names of the fields that it replaces are copied, and nothing else. After `Memory` a part may be done.
pub(crate) fn put_fact<L: Ledger>(
    alloc: Global,
    maps: &mut Maps,
    fact: Fact,
    steps: &mut Steps<L>,
) -> Result<(), Memory>
    requires kept { IsKept (rows_of maps.old) }
    requires absent { value_at bytes_cmp fact.name maps.old.facts.held.entries ≡ None }
    ensures entries { OnOk result (maps.new.facts.held.entries ≡ with_fact fact maps.old.facts.held.entries) }
    ensures kept { OnOk result (IsKept (rows_of maps.new)) }
    ensures was { rows_before maps.new ≡ rows_before maps.old }
{
    let place = Place::new(fact.date, fact.name);
    match put_sets(
        alloc,
        &mut maps.sets,
        fact.id,
        place,
        fact.changes.items(),
        steps,
    ) {
        Ok(()) => lay(&mut maps.facts, &mut maps.spots, fact, steps),
        Err(Memory) => Err(Memory),
    }
}

/// Puts a copy of a new change. After `Memory` a part may be done.
fn put_copy<L: Ledger>(
    alloc: Global,
    maps: &mut Maps,
    fact: &Fact,
    steps: &mut Steps<L>,
) -> Result<(), Memory>
    requires kept { IsKept (rows_of maps.old) }
    requires absent { value_at bytes_cmp fact.now.name maps.old.facts.held.entries ≡ None }
    ensures entries { OnOk result (maps.new.facts.held.entries ≡ with_fact fact.now maps.old.facts.held.entries) }
    ensures kept { OnOk result (IsKept (rows_of maps.new)) }
{
    let Ok(copy) = fact.copied(alloc) else {
        return Err(Memory);
    };
    put_fact(alloc, maps, copy, steps)
}

/// Puts copies of new changes, of which no two have one name, into maps without any. After `Memory` a part may be done.
pub(crate) fn put_all<L: Ledger>(
    alloc: Global,
    maps: &mut Maps,
    all: &[Fact],
    steps: &mut Steps<L>,
) -> Result<(), Memory>
    requires none { maps.old.facts.held.entries ≡ [] }
    requires kept { IsKept (rows_of maps.old) }
    requires distinct { AreDistinct (map (λ f. f.name) all.now) }
    ensures facts { OnOk result (facts_of maps.new.facts.held.entries ≡ by_name (λ f. f.name) all.now) }
    ensures kept { OnOk result (IsKept (rows_of maps.new)) }
{
    let mut left = all.len();
    while left > 0 {
        left -= 1;
        maps.begin();
        let Ok(()) = put_copy(alloc, maps, &all[left], steps) else {
            return Err(Memory);
        };
    }
    Ok(())
}

/// Takes the key of a change out, where the change is there.
fn unplace<L: Ledger>(
    facts: &Tracked<Name, Entry>,
    spots: &mut Tracked<Within<Name, Place>, ()>,
    name: Name,
    steps: &mut Steps<L>,
) -> Result<(), Memory>
    requires laid { IsLaid (record { facts = facts.now.held; spots = spots.old.held }) }
    ensures ordered { OnOk result (IsStrictlySortedBy spot_cmp (keys_of spots.new.held.entries)) }
    ensures spots { OnOk result (AreSpots (without_key bytes_cmp name facts.now.held.entries) spots.new.held.entries) }
    ensures was { spots.new.was ≡ spots.old.was }
{
    match facts.get(&name, steps) {
        None => Ok(()),
        Some(entry) => {
            let spot = key(entry.id, Some(Place::new(entry.date, name)));
            spots.remove(spot, steps)
        }
    }
}

/// Takes a change and the key of its ticket out. After `Memory` a part may be done.
fn lift<L: Ledger>(
    facts: &mut Tracked<Name, Entry>,
    spots: &mut Tracked<Within<Name, Place>, ()>,
    name: Name,
    steps: &mut Steps<L>,
) -> Result<(), Memory>
    requires laid { IsLaid (record { facts = facts.old.held; spots = spots.old.held }) }
    ensures entries { OnOk result (facts.new.held.entries ≡ without_key bytes_cmp name facts.old.held.entries) }
    ensures laid { OnOk result (IsLaid (record { facts = facts.new.held; spots = spots.new.held })) }
    ensures facts_was { facts.new.was ≡ facts.old.was }
    ensures spots_was { spots.new.was ≡ spots.old.was }
{
    unplace(facts, spots, name, steps)?;
    facts.remove(name, steps)
}

/// Takes a change out. After `Memory` a part may be done.
fn take_out<L: Ledger>(
    alloc: Global,
    maps: &mut Maps,
    name: Name,
    steps: &mut Steps<L>,
) -> Result<(), Memory>
    requires kept { IsKept (rows_of maps.old) }
    ensures entries { OnOk result (maps.new.facts.held.entries ≡ without_key bytes_cmp name maps.old.facts.held.entries) }
    ensures kept { OnOk result (IsKept (rows_of maps.new)) }
    ensures was { rows_before maps.new ≡ rows_before maps.old }
{
    unset(alloc, &maps.facts, &mut maps.sets, name, steps)?;
    lift(&mut maps.facts, &mut maps.spots, name, steps)
}

/// Puts the id of the change of a name in, where it is there.
fn note_id<L: Ledger>(
    ids: &mut BTreeSet<Name>,
    facts: &Tracked<Name, Entry>,
    name: Name,
    steps: &mut Steps<L>,
) -> Result<(), Memory>
    ensures noted { OnOk result ((q : List ℕ) → has ids.new.keys q ≡ (is_id (value_at bytes_cmp name facts.now.held.entries) q || has ids.old.keys q)) }
{
    match facts.get(&name, steps) {
        None => Ok(()),
        Some(entry) => names::note(ids, entry.id),
    }
}

/// The ids of the tickets that another change of this name and id may touch, ascending.
fn ids_of<L: Ledger>(
    alloc: Global,
    facts: &Tracked<Name, Entry>,
    name: Name,
    id: Name,
    steps: &mut Steps<L>,
) -> Result<List<Name>, Memory>
    ensures ids { IfOk result (λ list. (q : List ℕ) → has list q ≡ (is_id (value_at bytes_cmp name facts.now.held.entries) q || bytes_eq q id)) }
    ensures rising { IfOk result (λ list. IsStrictlySortedBy bytes_cmp list) }
{
    let mut ids = BTreeSet::new(alloc);
    names::note(&mut ids, id)?;
    note_id(&mut ids, facts, name, steps)?;
    names::listed(alloc, &ids)
}

/// The rows of some ids.
fn rows_at<L: Ledger>(
    alloc: Global,
    configured: &[Text],
    facts: &Tracked<Name, Entry>,
    spots: &Tracked<Within<Name, Place>, ()>,
    ids: &[Name],
    steps: &mut Steps<L>,
) -> Result<List<Row>, Memory>
    requires { IsLaid (record { facts = facts.now.held; spots = spots.now.held }) }
    ensures { IfOk result (λ rows. rows ≡ map (row_of configured.now facts.now.held.entries) ids.now) }
{
    let mut rows = List::new(alloc);
    for id in ids {
        let values = fields_of(alloc, configured, facts, spots, *id, steps)?;
        rows.append(Row { id: *id, values })?;
    }
    Ok(rows)
}

/// Whether two rows are the same.
fn is_same(a: &Option<List<Text>>, b: &Option<List<Text>>) -> bool
    ensures { result ≡ is_same a.now b.now }
{
    match (a, b) {
        (None, None) => true,
        (Some(a), Some(b)) => a.items() == b.items(),
        _ => false,
    }
}

/// The id of a row that isn't the same any more.
fn other_of<L: Ledger>(
    alloc: Global,
    configured: &[Text],
    facts: &Tracked<Name, Entry>,
    spots: &Tracked<Within<Name, Place>, ()>,
    row: &Row,
    steps: &mut Steps<L>,
) -> Result<Option<Name>, Memory>
    requires { IsLaid (record { facts = facts.now.held; spots = spots.now.held }) }
    ensures { IfOk result (λ id. id ≡ if_other configured.now facts.now.held.entries row.now) }
{
    let values = fields_of(alloc, configured, facts, spots, row.id, steps)?;
    if is_same(&row.values, &values) {
        Ok(None)
    } else {
        Ok(Some(row.id))
    }
}

/// Puts an id at the end, where there is one.
fn append_some(list: &mut List<Name>, id: Option<Name>) -> Result<(), Memory>
    ensures { OnOk result (list.new ≡ list.old ++ option_to_list id) }
{
    match id {
        None => Ok(()),
        Some(id) => list.append(id),
    }
}

/// The ids of those rows that aren't the same any more.
fn others<L: Ledger>(
    alloc: Global,
    configured: &[Text],
    facts: &Tracked<Name, Entry>,
    spots: &Tracked<Within<Name, Place>, ()>,
    rows: &[Row],
    steps: &mut Steps<L>,
) -> Result<List<Name>, Memory>
    requires { IsLaid (record { facts = facts.now.held; spots = spots.now.held }) }
    ensures { IfOk result (λ list. list ≡ filter_map (if_other configured.now facts.now.held.entries) rows.now) }
{
    let mut list = List::new(alloc);
    for row in rows {
        let other = other_of(alloc, configured, facts, spots, row, steps)?;
        append_some(&mut list, other)?;
    }
    Ok(list)
}

/// The rows that another change of this name and id may touch, ascending.
fn rows_touched<L: Ledger>(
    alloc: Global,
    configured: &[Text],
    facts: &Tracked<Name, Entry>,
    spots: &Tracked<Within<Name, Place>, ()>,
    name: Name,
    id: Name,
    steps: &mut Steps<L>,
) -> Result<List<Row>, Memory>
    requires { IsLaid (record { facts = facts.now.held; spots = spots.now.held }) }
    ensures { IfOk result (AreTouched configured.now facts.now.held.entries name id) }
{
    let Ok(ids) = ids_of(alloc, facts, name, id, steps) else {
        return Err(Memory);
    };
    let rows = rows_at(alloc, configured, facts, spots, ids.items(), steps);
    drop(ids);
    rows
}

/// Puts a change in the place of that of its name, where there is one. After `Memory` a part may be done.
fn replace_fact<L: Ledger>(
    alloc: Global,
    maps: &mut Maps,
    fact: Fact,
    steps: &mut Steps<L>,
) -> Result<(), Memory>
    requires kept { IsKept (rows_of maps.old) }
    ensures entries { OnOk result (maps.new.facts.held.entries ≡ with_fact fact maps.old.facts.held.entries) }
    ensures kept { OnOk result (IsKept (rows_of maps.new)) }
    ensures was { rows_before maps.new ≡ rows_before maps.old }
{
    take_out(alloc, maps, fact.name, steps)?;
    put_fact(alloc, maps, fact, steps)
}

/// The id, where its row differs.
fn listed(alloc: Global, id: Name, differs: bool) -> Result<List<Name>, Memory>
    ensures { IfOk result (λ list. list ≡ (if differs then id ∷ [] else [])) }
{
    let mut list = List::new(alloc);
    match differs {
        false => Ok(list),
        true => match list.append(id) {
            Ok(()) => Ok(list),
            Err(_) => Err(Memory),
        },
    }
}

/// Puts a new change, and tells the id of its ticket where the row of that differs. After `Memory` a part may be done.
fn put_new<L: Ledger>(
    alloc: Global,
    configured: &[Text],
    maps: &mut Maps,
    fact: Fact,
    steps: &mut Steps<L>,
) -> Result<List<Name>, Memory>
    requires kept { IsKept (rows_of maps.old) }
    requires absent { value_at bytes_cmp fact.name maps.old.facts.held.entries ≡ None }
    ensures entries { OnOk result (maps.new.facts.held.entries ≡ with_fact fact maps.old.facts.held.entries) }
    ensures kept { OnOk result (IsKept (rows_of maps.new)) }
    ensures changed { IfOk result (ListsOthers configured.now maps.old.facts.held.entries fact) }
    ensures was { rows_before maps.new ≡ rows_before maps.old }
{
    let id = fact.id;
    match is_row_other(alloc, configured, maps, &fact, steps) {
        Ok(differs) => match put_fact(alloc, maps, fact, steps) {
            Ok(()) => listed(alloc, id, differs),
            Err(Memory) => Err(Memory),
        },
        Err(Memory) => Err(Memory),
    }
}

/// Puts a change in the place of that of its name, where there is one, and tells the ids whose rows differ. It folds their tickets
/// before and after. After `Memory` a part may be done.
fn put_again<L: Ledger>(
    alloc: Global,
    configured: &[Text],
    maps: &mut Maps,
    fact: Fact,
    steps: &mut Steps<L>,
) -> Result<List<Name>, Memory>
    requires kept { IsKept (rows_of maps.old) }
    ensures entries { OnOk result (maps.new.facts.held.entries ≡ with_fact fact maps.old.facts.held.entries) }
    ensures kept { OnOk result (IsKept (rows_of maps.new)) }
    ensures changed { IfOk result (ListsOthers configured.now maps.old.facts.held.entries fact) }
    ensures was { rows_before maps.new ≡ rows_before maps.old }
{
    let Ok(before) = rows_touched(
        alloc,
        configured,
        &maps.facts,
        &maps.spots,
        fact.name,
        fact.id,
        steps,
    ) else {
        return Err(Memory);
    };
    match replace_fact(alloc, maps, fact, steps) {
        Ok(()) => {
            let changed = others(
                alloc,
                configured,
                &maps.facts,
                &maps.spots,
                before.items(),
                steps,
            );
            drop(before);
            changed
        }
        Err(Memory) => Err(Memory),
    }
}

/// Puts a change, in the place of that of its name where there is one, and tells the ids whose rows differ. After `Memory` a part
/// may be done.
pub(crate) fn put_either<L: Ledger>(
    alloc: Global,
    configured: &[Text],
    maps: &mut Maps,
    fact: Fact,
    steps: &mut Steps<L>,
) -> Result<List<Name>, Memory>
    requires kept { IsKept (rows_of maps.old) }
    ensures entries { OnOk result (maps.new.facts.held.entries ≡ with_fact fact maps.old.facts.held.entries) }
    ensures kept { OnOk result (IsKept (rows_of maps.new)) }
    ensures changed { IfOk result (ListsOthers configured.now maps.old.facts.held.entries fact) }
    ensures was { rows_before maps.new ≡ rows_before maps.old }
{
    if maps.facts.get(&fact.name, steps).is_none() {
        put_new(alloc, configured, maps, fact, steps)
    } else {
        put_again(alloc, configured, maps, fact, steps)
    }
}
