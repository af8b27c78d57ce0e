//! Puts a fact into the maps, takes it out, and finds the rows that change by it.
ghost use Rattle.std.specs.Prelude.{◌≡◌, ◌+◌, ◌≤◌, ◌||◌, ◌&&◌, [], ◌∷◌, not, true, ℕ, List, None, OnOk, IfOk};
ghost use Rattle.std.specs.Str.{bytes_eq};
ghost use Rattle.std.specs.List.Sorted.{IsStrictlySortedBy};
ghost use Rattle.std.specs.Map.{keys_of};
ghost use Rattle.fsl_order.specs.Names.{bytes_cmp, has};
ghost use Rattle.fsl_table.specs.Contents.{value_at, with_entry, without_key};
ghost use Rattle.fsl_wiki.specs.Kept.{AddsDiffering, AreSince, IsKept, ListsPut, in_one, is_either, is_first, is_only, is_page, is_placed, race_at, race_in, row_at, rows_before, rows_of, same_row, spot_at, spot_cmp, spot_of, steps_back, target_at, target_of, top, with_target, without_spot, without_target};

use crate::entry::{Entry, Row};
use crate::group::Group;
use crate::late::Late;
use crate::maps::Maps;
use fsl_name::Name;
use fsl_table::within::next_within;
use fsl_table::{Tracked, Within, names};
use fsl_text::{List, Memory, Steps, Text};
use std::alloc::Global;
use std::collections::BTreeSet;
use std::sync::ledger::Ledger;

/// Puts the key of an entry among the versions of what it is one of.
fn put_spot<L: Ledger>(
    alloc: Global,
    spots: &mut Tracked<Within<Group, Late>, ()>,
    name: Name,
    entry: &Entry,
    steps: &mut Steps<L>,
) -> Result<(), Memory>
    ensures entries { OnOk result (spots.new.held.entries ≡ with_entry spot_cmp (spot_of name entry.now) tt spots.old.held.entries) }
    ensures was { spots.new.was ≡ spots.old.was }
    ensures cost { steps.new ≤ steps.old + 1 }
    ensures back { spots.new.back ≤ spots.old.back + 1 }
{
    let spot = entry.spot(alloc, name)?;
    let again = entry.spot(alloc, name)?;
    spots.put(spot, again, (), steps)
}

/// Puts the key of an attachment among those of its target, where there is one.
fn put_target<L: Ledger>(
    targets: &mut Tracked<Within<Text, Late>, ()>,
    target: Option<Within<Text, Late>>,
    again: Option<Within<Text, Late>>,
    steps: &mut Steps<L>,
) -> Result<(), Memory>
    requires { again ≡ target }
    ensures entries { OnOk result (targets.new.held.entries ≡ with_target target targets.old.held.entries) }
    ensures was { targets.new.was ≡ targets.old.was }
    ensures cost { target ≡ None → steps.new ≡ steps.old }
    ensures back { target ≡ None → targets.new.back ≡ targets.old.back }
{
    match (target, again) {
        (Some(target), Some(again)) => targets.put(target, again, (), steps),
        _ => Ok(()),
    }
}

/// Puts the key of an entry among the attachments of its target, where it is one.
fn put_attachment<L: Ledger>(
    alloc: Global,
    targets: &mut Tracked<Within<Text, Late>, ()>,
    name: Name,
    entry: &Entry,
    steps: &mut Steps<L>,
) -> Result<(), Memory>
    ensures entries { OnOk result (targets.new.held.entries ≡ with_target (target_of name entry.now) targets.old.held.entries) }
    ensures was { targets.new.was ≡ targets.old.was }
    ensures cost { target_of name entry.now ≡ None → steps.new ≡ steps.old }
    ensures back { target_of name entry.now ≡ None → targets.new.back ≡ targets.old.back }
{
    let target = entry.target(alloc, name)?;
    let again = entry.target(alloc, name)?;
    put_target(targets, target, again, steps)
}

/// Puts the keys of an entry.
fn place<L: Ledger>(
    alloc: Global,
    spots: &mut Tracked<Within<Group, Late>, ()>,
    targets: &mut Tracked<Within<Text, Late>, ()>,
    name: Name,
    entry: &Entry,
    steps: &mut Steps<L>,
) -> Result<(), Memory>
    ensures spots { OnOk result (spots.new.held.entries ≡ with_entry spot_cmp (spot_of name entry.now) tt spots.old.held.entries) }
    ensures targets { OnOk result (targets.new.held.entries ≡ with_target (target_of name entry.now) targets.old.held.entries) }
    ensures spots_was { spots.new.was ≡ spots.old.was }
    ensures targets_was { targets.new.was ≡ targets.old.was }
    ensures cost { target_of name entry.now ≡ None → steps.new ≤ steps.old + 1 }
    ensures back { target_of name entry.now ≡ None → spots.new.back + targets.new.back ≤ spots.old.back + targets.old.back + 1 }
{
    put_spot(alloc, spots, name, entry, steps)?;
    put_attachment(alloc, targets, name, entry, steps)
}

/// Puts a new fact. Its texts are copied for its keys alone. After `Memory` a part may be done.
pub(crate) fn put_fact<L: Ledger>(
    alloc: Global,
    maps: &mut Maps,
    name: Name,
    entry: Entry,
    steps: &mut Steps<L>,
) -> Result<(), Memory>
    requires kept { IsKept (rows_of maps.old) }
    requires absent { value_at bytes_cmp name maps.old.facts.held.entries ≡ None }
    ensures entries { OnOk result (maps.new.facts.held.entries ≡ with_entry bytes_cmp name entry maps.old.facts.held.entries) }
    ensures kept { OnOk result (IsKept (rows_of maps.new)) }
    ensures was { rows_before maps.new ≡ rows_before maps.old }
    ensures cost { target_of name entry ≡ None → steps.new ≤ steps.old + 2 }
    ensures back { target_of name entry ≡ None → steps_back maps.new ≤ steps_back maps.old + 2 }
{
    match place(
        alloc,
        &mut maps.spots,
        &mut maps.targets,
        name,
        &entry,
        steps,
    ) {
        Ok(()) => maps.facts.put(name, name, entry, steps),
        Err(Memory) => {
            drop(entry);
            Err(Memory)
        }
    }
}

/// Takes the key of an attachment out, where it is one.
fn remove_target<L: Ledger>(
    targets: &mut Tracked<Within<Text, Late>, ()>,
    target: Option<Within<Text, Late>>,
    steps: &mut Steps<L>,
) -> Result<(), Memory>
    ensures entries { OnOk result (targets.new.held.entries ≡ without_target target targets.old.held.entries) }
    ensures was { targets.new.was ≡ targets.old.was }
{
    match target {
        Some(target) => targets.remove(target, steps),
        None => Ok(()),
    }
}

/// Takes the keys of a fact out, where it is there.
fn unplace<L: Ledger>(
    alloc: Global,
    facts: &Tracked<Name, Entry>,
    spots: &mut Tracked<Within<Group, Late>, ()>,
    targets: &mut Tracked<Within<Text, Late>, ()>,
    name: Name,
    steps: &mut Steps<L>,
) -> Result<(), Memory>
    ensures spots { OnOk result (spots.new.held.entries ≡ without_spot (spot_at facts.now.held.entries name) spots.old.held.entries) }
    ensures targets { OnOk result (targets.new.held.entries ≡ without_target (target_at facts.now.held.entries name) targets.old.held.entries) }
    ensures spots_was { spots.new.was ≡ spots.old.was }
    ensures targets_was { targets.new.was ≡ targets.old.was }
{
    match facts.get(&name, steps) {
        None => Ok(()),
        Some(entry) => {
            let spot = entry.spot(alloc, name)?;
            spots.remove(spot, steps)?;
            let target = entry.target(alloc, name)?;
            remove_target(targets, target, steps)
        }
    }
}

/// Takes a fact out, where it is there. After `Memory` a part may be done.
fn take_out<L: Ledger>(
    alloc: Global,
    maps: &mut Maps,
    name: Name,
    steps: &mut Steps<L>,
) -> Result<(), Memory>
    requires kept { IsKept (rows_of maps.old) }
    ensures entries { OnOk result (maps.new.facts.held.entries ≡ without_key bytes_cmp name maps.old.facts.held.entries) }
    ensures kept { OnOk result (IsKept (rows_of maps.new)) }
    ensures was { rows_before maps.new ≡ rows_before maps.old }
{
    unplace(
        alloc,
        &maps.facts,
        &mut maps.spots,
        &mut maps.targets,
        name,
        steps,
    )?;
    maps.facts.remove(name, steps)
}

/// The place of the current version, where there is one: the latest.
pub(crate) fn current<L: Ledger>(
    spots: &Tracked<Within<Group, Late>, ()>,
    race: &Option<Within<Group, Late>>,
    steps: &mut Steps<L>,
) -> Option<Late>
    requires { IsStrictlySortedBy spot_cmp (keys_of spots.now.held.entries) }
    ensures { result ≡ top spots.now.held.entries race.now }
{
    match race {
        None => None,
        Some(race) => next_within(spots.map(), race, steps),
    }
}

/// Whether what may be a place has a name.
fn is_called(late: Option<Late>, name: Name) -> bool
    ensures { result ≡ is_placed name late }
{
    match late {
        None => false,
        Some(late) => name == late.name(),
    }
}

/// Before the versions among which the one of a name may be current.
fn race_of<L: Ledger>(
    alloc: Global,
    facts: &Tracked<Name, Entry>,
    name: Name,
    steps: &mut Steps<L>,
) -> Result<Option<Within<Group, Late>>, Memory>
    ensures { IfOk result (λ race. race ≡ race_at facts.now.held.entries name) }
{
    match facts.get(&name, steps) {
        None => Ok(None),
        Some(entry) => entry.race(alloc),
    }
}

/// The row of a name.
fn row_of<L: Ledger>(
    alloc: Global,
    maps: &Maps,
    name: Name,
    steps: &mut Steps<L>,
) -> Result<Row, Memory>
    requires { IsStrictlySortedBy spot_cmp (keys_of maps.now.spots.held.entries) }
    ensures { IfOk result (λ row. row ≡ row_at (rows_of maps.now) name) }
{
    match maps.facts.get(&name, steps) {
        None => Ok(Row {
            page: false,
            note: false,
            attached: false,
        }),
        Some(entry) => {
            let race = entry.race(alloc)?;
            let late = current(&maps.spots, &race, steps);
            Ok(entry.row(is_called(late, name)))
        }
    }
}

/// Puts the name of a current version in, unless it is this one.
fn note_current<L: Ledger>(
    names: &mut BTreeSet<Name>,
    spots: &Tracked<Within<Group, Late>, ()>,
    race: &Option<Within<Group, Late>>,
    but: Name,
    steps: &mut Steps<L>,
) -> Result<(), Memory>
    requires { IsStrictlySortedBy spot_cmp (keys_of spots.now.held.entries) }
    ensures noted { OnOk result ((q : List ℕ) → has names.new.keys q ≡ (is_first spots.now.held.entries but race.now q || has names.old.keys q)) }
{
    match current(spots, race, steps) {
        None => Ok(()),
        Some(late) => {
            let name = late.name();
            if name == but {
                Ok(())
            } else {
                names::note(names, name)
            }
        }
    }
}

/// The names of two current versions, but not this one.
fn leaders<L: Ledger>(
    alloc: Global,
    spots: &Tracked<Within<Group, Late>, ()>,
    old_race: &Option<Within<Group, Late>>,
    race: &Option<Within<Group, Late>>,
    but: Name,
    steps: &mut Steps<L>,
) -> Result<BTreeSet<Name>, Memory>
    requires { IsStrictlySortedBy spot_cmp (keys_of spots.now.held.entries) }
    ensures { IfOk result (λ names. (q : List ℕ) → has names.keys q ≡ is_either spots.now.held.entries but race.now old_race.now q) }
{
    let mut names = BTreeSet::new(alloc);
    note_current(&mut names, spots, old_race, but, steps)?;
    note_current(&mut names, spots, race, but, steps)?;
    Ok(names)
}

/// Whether two rows are the same.
fn is_same(a: Row, b: Row) -> bool
    ensures { result ≡ same_row a b }
{
    a.page == b.page && (a.note == b.note && a.attached == b.attached)
}

/// Puts a name in, where it is wanted.
fn note_if(names: &mut BTreeSet<Name>, name: Name, wanted: bool) -> Result<(), Memory>
    ensures noted { OnOk result ((q : List ℕ) → has names.new.keys q ≡ ((bytes_eq q name && wanted) || has names.old.keys q)) }
{
    if wanted {
        names::note(names, name)
    } else {
        Ok(())
    }
}

/// Puts those of a set in that another hasn't.
fn note_missing(
    alloc: Global,
    names: &mut BTreeSet<Name>,
    set: &BTreeSet<Name>,
    other: &BTreeSet<Name>,
) -> Result<(), Memory>
    ensures { OnOk result ((q : List ℕ) → has names.new.keys q ≡ (is_only set.now.keys other.now.keys q || has names.old.keys q)) }
{
    let list = names::listed(alloc, set)?;
    names::note_others(names, list.items(), other)
}

/// Puts the names in that are in one of two sets and not in the other, and a name, if it is wanted.
fn note_differing(
    alloc: Global,
    names: &mut BTreeSet<Name>,
    name: Name,
    wanted: bool,
    before: &BTreeSet<Name>,
    after: &BTreeSet<Name>,
) -> Result<(), Memory>
    ensures { OnOk result (AddsDiffering name wanted before.now.keys after.now.keys names.old.keys names.new.keys) }
{
    note_missing(alloc, names, before, after)?;
    note_missing(alloc, names, after, before)?;
    note_if(names, name, wanted)
}

/// The names that are in one of two sets and not in the other, and a name, if it is wanted.
fn differing(
    alloc: Global,
    name: Name,
    wanted: bool,
    before: &BTreeSet<Name>,
    after: &BTreeSet<Name>,
) -> Result<List<Name>, Memory>
    ensures names { IfOk result (λ list. (q : List ℕ) → has list q ≡ ((bytes_eq q name && wanted) || in_one (has before.now.keys q) (has after.now.keys q))) }
    ensures rising { IfOk result (λ list. IsStrictlySortedBy bytes_cmp list) }
{
    let mut names = BTreeSet::new(alloc);
    note_differing(alloc, &mut names, name, wanted, before, after)?;
    names::listed(alloc, &names)
}

/// What is known of a name before its fact changes: the races that the old fact and the new one are in, its row, and the other names
/// that lead these races.
#[derive(Drop)]
struct Known {
    old_race: Option<Within<Group, Late>>,
    race: Option<Within<Group, Late>>,
    row: Row,
    leaders: BTreeSet<Name>,
}

/// Before the versions among which a name may be current, and before those where it may be once an entry is put to it.
fn races_of<L: Ledger>(
    alloc: Global,
    facts: &Tracked<Name, Entry>,
    name: Name,
    entry: &Entry,
    steps: &mut Steps<L>,
) -> Result<(Option<Within<Group, Late>>, Option<Within<Group, Late>>), Memory>
    ensures { IfOk result (λ races. races ≡ (race_at facts.now.held.entries name, race_in entry.now)) }
{
    let old_race = race_of(alloc, facts, name, steps)?;
    match entry.race(alloc) {
        Ok(race) => Ok((old_race, race)),
        Err(Memory) => {
            drop(old_race);
            Err(Memory)
        }
    }
}

/// What is known of a name to which an entry is to be put.
fn known_of<L: Ledger>(
    alloc: Global,
    maps: &Maps,
    name: Name,
    entry: &Entry,
    steps: &mut Steps<L>,
) -> Result<Known, Memory>
    requires { IsStrictlySortedBy spot_cmp (keys_of maps.now.spots.held.entries) }
    ensures old_race { IfOk result (λ known. known.old_race ≡ race_at maps.now.facts.held.entries name) }
    ensures race { IfOk result (λ known. known.race ≡ race_in entry.now) }
    ensures row { IfOk result (λ known. known.row ≡ row_at (rows_of maps.now) name) }
    ensures leaders { IfOk result (λ known. (q : List ℕ) → has known.leaders.keys q ≡ is_either maps.now.spots.held.entries name known.race known.old_race q) }
{
    let row = row_of(alloc, maps, name, steps)?;
    let (old_race, race) = races_of(alloc, &maps.facts, name, entry, steps)?;
    match leaders(alloc, &maps.spots, &old_race, &race, name, steps) {
        Ok(leaders) => Ok(Known {
            old_race,
            race,
            row,
            leaders,
        }),
        Err(Memory) => {
            drop(old_race);
            drop(race);
            Err(Memory)
        }
    }
}

/// The names whose rows differ from those that are known.
fn changed_since<L: Ledger>(
    alloc: Global,
    maps: &Maps,
    name: Name,
    known: &Known,
    steps: &mut Steps<L>,
) -> Result<List<Name>, Memory>
    requires { IsStrictlySortedBy spot_cmp (keys_of maps.now.spots.held.entries) }
    ensures names { IfOk result (AreSince known.now (rows_of maps.now) name) }
    ensures rising { IfOk result (λ list. IsStrictlySortedBy bytes_cmp list) }
{
    let row = row_of(alloc, maps, name, steps)?;
    let after = leaders(
        alloc,
        &maps.spots,
        &known.old_race,
        &known.race,
        name,
        steps,
    )?;
    let names = differing(
        alloc,
        name,
        !is_same(known.row, row),
        &known.leaders,
        &after,
    );
    drop(after);
    names
}

/// Puts a fact, in the place of that of its name where there is one. After `Memory` a part may be done.
fn replace<L: Ledger>(
    alloc: Global,
    maps: &mut Maps,
    name: Name,
    entry: Entry,
    steps: &mut Steps<L>,
) -> Result<(), Memory>
    requires kept { IsKept (rows_of maps.old) }
    ensures entries { OnOk result (maps.new.facts.held.entries ≡ with_entry bytes_cmp name entry maps.old.facts.held.entries) }
    ensures kept { OnOk result (IsKept (rows_of maps.new)) }
    ensures was { rows_before maps.new ≡ rows_before maps.old }
{
    match take_out(alloc, maps, name, steps) {
        Ok(()) => put_fact(alloc, maps, name, entry, steps),
        Err(Memory) => {
            drop(entry);
            Err(Memory)
        }
    }
}

/// Puts a fact, in the place of that of its name where there is one, and tells the names whose rows differ.
fn put_among<L: Ledger>(
    alloc: Global,
    maps: &mut Maps,
    name: Name,
    entry: Entry,
    steps: &mut Steps<L>,
) -> Result<List<Name>, Memory>
    requires kept { IsKept (rows_of maps.old) }
    ensures entries { OnOk result (maps.new.facts.held.entries ≡ with_entry bytes_cmp name entry maps.old.facts.held.entries) }
    ensures kept { OnOk result (IsKept (rows_of maps.new)) }
    ensures changed { IfOk result (ListsPut name entry maps.old.facts.held.entries) }
    ensures was { rows_before maps.new ≡ rows_before maps.old }
{
    match known_of(alloc, maps, name, &entry, steps) {
        Ok(known) => match replace(alloc, maps, name, entry, steps) {
            Ok(()) => {
                let changed = changed_since(alloc, maps, name, &known, steps);
                drop(known);
                changed
            }
            Err(Memory) => {
                drop(known);
                Err(Memory)
            }
        },
        Err(Memory) => {
            drop(entry);
            Err(Memory)
        }
    }
}

/// The list of a name.
fn one(alloc: Global, name: Name) -> Result<List<Name>, Memory>
    ensures { IfOk result (λ list. list ≡ name ∷ []) }
{
    let mut list = List::new(alloc);
    list.append(name)?;
    Ok(list)
}

/// Puts a new version of a page. Its row alone differs.
fn put_page<L: Ledger>(
    alloc: Global,
    maps: &mut Maps,
    name: Name,
    entry: Entry,
    steps: &mut Steps<L>,
) -> Result<List<Name>, Memory>
    requires kept { IsKept (rows_of maps.old) }
    requires absent { value_at bytes_cmp name maps.old.facts.held.entries ≡ None }
    requires page { is_page entry ≡ true }
    ensures entries { OnOk result (maps.new.facts.held.entries ≡ with_entry bytes_cmp name entry maps.old.facts.held.entries) }
    ensures kept { OnOk result (IsKept (rows_of maps.new)) }
    ensures changed { IfOk result (ListsPut name entry maps.old.facts.held.entries) }
    ensures was { rows_before maps.new ≡ rows_before maps.old }
    ensures cost { steps.new ≤ steps.old + 2 }
    ensures back { steps_back maps.new ≤ steps_back maps.old + 2 }
{
    put_fact(alloc, maps, name, entry, steps)?;
    one(alloc, name)
}

/// Puts a fact, a new one where `new` says so, or in the place of that of its name, and tells the names whose rows differ. After
/// `Memory` a part may be done.
pub(crate) fn put_either<L: Ledger>(
    alloc: Global,
    maps: &mut Maps,
    name: Name,
    entry: Entry,
    new: bool,
    steps: &mut Steps<L>,
) -> Result<List<Name>, Memory>
    requires kept { IsKept (rows_of maps.old) }
    requires absent { new ≡ true → value_at bytes_cmp name maps.old.facts.held.entries ≡ None }
    ensures entries { OnOk result (maps.new.facts.held.entries ≡ with_entry bytes_cmp name entry maps.old.facts.held.entries) }
    ensures kept { OnOk result (IsKept (rows_of maps.new)) }
    ensures changed { IfOk result (ListsPut name entry maps.old.facts.held.entries) }
    ensures was { rows_before maps.new ≡ rows_before maps.old }
    ensures cost { (new && is_page entry) ≡ true → steps.new ≤ steps.old + 2 }
    ensures back { (new && is_page entry) ≡ true → steps_back maps.new ≤ steps_back maps.old + 2 }
{
    if new && entry.is_page() {
        put_page(alloc, maps, name, entry, steps)
    } else {
        put_among(alloc, maps, name, entry, steps)
    }
}
