//! Puts a row into the two maps, takes it out, and finds the latest ones.
ghost use Rattle.std.specs.Prelude.{List, ◌≡◌, ◌+◌, ◌-◌, ◌<◌, ◌≤◌, ◌++◌, [], ◌∷◌, take, OnOk, IfOk, None, true, false, map, is_some, ◌&&◌, if◌then◌else◌};
ghost use Rattle.std.specs.Str.{bytes_eq};
ghost use Rattle.std.specs.List.Sorted.{IsStrictlySortedBy};
ghost use Rattle.std.specs.Map.{keys_of};
ghost use Rattle.fsl_order.specs.Names.{bytes_cmp, latest_first};
ghost use Rattle.fsl_order.specs.Rows.{by_name, AreDistinct};
ghost use Rattle.fsl_table.specs.Contents.{without_key, value_at};
ghost use Rattle.fsl_timeline.specs.declared.Row as row_type;
ghost use Rattle.fsl_timeline.specs.Kept.{AreChanged, AreWithout, IsKept, is_same, kind_number, put_before, row_at, rows_at, rows_before, rows_in, rows_of, stands, steps_back, with_row};

use crate::entry::Entry;
use crate::maps::Maps;
use crate::place::Place;
use crate::{Row, RowKind};
use fsl_name::Name;
use fsl_table::{Table, Tracked};
use fsl_text::{List, Memory, Steps, Text};
use std::alloc::Global;
use std::sync::ledger::Ledger;

/// Puts a new row. Nothing is copied. After `Memory` a part may be done.
pub(crate) fn put_row<L: Ledger>(
    maps: &mut Maps,
    row: Row,
    steps: &mut Steps<L>,
) -> Result<(), Memory>
    requires kept { IsKept (rows_in maps.old) }
    requires absent { value_at bytes_cmp row.name maps.old.rows.held.entries ≡ None }
    ensures entries { OnOk result (maps.new.rows.held.entries ≡ with_row row maps.old.rows.held.entries) }
    ensures kept { OnOk result (IsKept (rows_in maps.new)) }
    ensures was { rows_before maps.new ≡ rows_before maps.old }
    ensures cost { steps.new ≤ steps.old + 2 }
    ensures back { steps_back maps.new ≤ steps_back maps.old + 2 }
{
    let Row {
        time,
        name,
        kind,
        user,
        text,
    } = row;
    let place = Place::new(time, name);
    let again = Place::new(time, name);
    maps.places.put(place, again, (), steps)?;
    let entry = Entry {
        time,
        kind,
        user,
        text,
    };
    maps.rows.put(name, name, entry, steps)
}

/// Puts new rows, of which no two have one name, into maps without any. After `Memory` a part may be done.
pub(crate) fn put_all<L: Ledger>(
    maps: &mut Maps,
    all: List<Row>,
    steps: &mut Steps<L>,
) -> Result<(), Memory>
    requires no_rows { maps.old.rows.held.entries ≡ [] }
    requires no_places { maps.old.places.held.entries ≡ [] }
    requires distinct { AreDistinct (map (λ r. r.name) all) }
    ensures rows { OnOk result (rows_of maps.new.rows.held.entries ≡ by_name (λ r. r.name) all) }
    ensures kept { OnOk result (IsKept (rows_in maps.new)) }
{
    let mut left = all.into_vec();
    while let Some(row) = left.pop() {
        maps.begin();
        let Ok(()) = put_row(maps, row, steps) else {
            return Err(Memory);
        };
    }
    Ok(())
}

/// Takes the place of a row out, where the row is there.
fn unplace<L: Ledger>(
    rows: &Tracked<Name, Entry>,
    places: &mut Tracked<Place, ()>,
    name: Name,
    steps: &mut Steps<L>,
) -> Result<(), Memory>
    requires ordered { IsStrictlySortedBy latest_first (keys_of places.old.held.entries) }
    ensures ordered { OnOk result (IsStrictlySortedBy latest_first (keys_of places.new.held.entries)) }
    ensures places { OnOk result (AreWithout rows.now.held name places.old.held places.new.held) }
    ensures was { places.new.was ≡ places.old.was }
{
    match rows.get(&name, steps) {
        None => Ok(()),
        Some(entry) => places.remove(Place::new(entry.time, name), steps),
    }
}

/// Takes a row out. After `Memory` a part may be done.
fn take_out<L: Ledger>(maps: &mut Maps, name: Name, steps: &mut Steps<L>) -> Result<(), Memory>
    requires kept { IsKept (rows_in maps.old) }
    ensures entries { OnOk result (maps.new.rows.held.entries ≡ without_key bytes_cmp name maps.old.rows.held.entries) }
    ensures kept { OnOk result (IsKept (rows_in maps.new)) }
    ensures was { rows_before maps.new ≡ rows_before maps.old }
{
    unplace(&maps.rows, &mut maps.places, name, steps)?;
    maps.rows.remove(name, steps)
}

/// A number for each kind.
fn number(kind: RowKind) -> u8
    ensures { result ≡ kind_number kind }
{
    match kind {
        RowKind::Checkin => 0,
        RowKind::Wiki => 1,
        RowKind::Ticket => 2,
        RowKind::Note => 3,
        RowKind::Forum => 4,
        RowKind::Tag => 5,
    }
}

/// Whether two texts are the same, and two others.
fn are_same(a: &Text, b: &Text, c: &Text, d: &Text) -> bool
    ensures { result ≡ (bytes_eq a.now b.now && bytes_eq c.now d.now) }
{
    *a == *b && *c == *d
}

/// Whether a row is an entry.
fn is_same(entry: &Entry, row: &Row) -> bool
    ensures { result ≡ is_same entry.now row.now }
{
    let head = entry.time == row.time && number(entry.kind) == number(row.kind);
    let tail = are_same(&entry.user, &row.user, &entry.text, &row.text);
    head && tail
}

/// Whether a row is the one that is there.
fn stands<L: Ledger>(rows: &Tracked<Name, Entry>, row: &Row, steps: &mut Steps<L>) -> bool
    ensures { result ≡ stands (value_at bytes_cmp row.now.name rows.now.held.entries) row.now }
{
    match rows.get(&row.name, steps) {
        None => false,
        Some(entry) => is_same(entry, row),
    }
}

/// The list of a name, or none.
fn one(alloc: Global, name: Name, wanted: bool) -> Result<List<Name>, Memory>
    ensures { IfOk result (λ list. list ≡ (if wanted then name ∷ [] else [])) }
{
    let mut list = List::new(alloc);
    if wanted {
        list.append(name)?;
    }
    Ok(list)
}

/// Puts a new row, and tells the names whose rows differ.
fn put_new<L: Ledger>(
    alloc: Global,
    maps: &mut Maps,
    row: Row,
    steps: &mut Steps<L>,
) -> Result<List<Name>, Memory>
    requires kept { IsKept (rows_in maps.old) }
    requires absent { value_at bytes_cmp row.name maps.old.rows.held.entries ≡ None }
    ensures entries { OnOk result (maps.new.rows.held.entries ≡ with_row row maps.old.rows.held.entries) }
    ensures kept { OnOk result (IsKept (rows_in maps.new)) }
    ensures changed { IfOk result (AreChanged maps.old.rows.held.entries (with_row row maps.old.rows.held.entries)) }
    ensures was { rows_before maps.new ≡ rows_before maps.old }
    ensures cost { steps.new ≤ steps.old + 2 }
    ensures back { steps_back maps.new ≤ steps_back maps.old + 2 }
{
    let name = row.name;
    put_row(maps, row, steps)?;
    one(alloc, name, true)
}

/// Puts a row in the place of that of its name. After `Memory` a part may be done.
fn replace_row<L: Ledger>(maps: &mut Maps, row: Row, steps: &mut Steps<L>) -> Result<(), Memory>
    requires kept { IsKept (rows_in maps.old) }
    ensures entries { OnOk result (maps.new.rows.held.entries ≡ with_row row maps.old.rows.held.entries) }
    ensures kept { OnOk result (IsKept (rows_in maps.new)) }
    ensures was { rows_before maps.new ≡ rows_before maps.old }
{
    take_out(maps, row.name, steps)?;
    put_row(maps, row, steps)
}

/// Puts a row in the place of that of its name, and tells the names whose rows differ.
fn put_other<L: Ledger>(
    alloc: Global,
    maps: &mut Maps,
    row: Row,
    steps: &mut Steps<L>,
) -> Result<List<Name>, Memory>
    requires kept { IsKept (rows_in maps.old) }
    ensures entries { OnOk result (maps.new.rows.held.entries ≡ with_row row maps.old.rows.held.entries) }
    ensures kept { OnOk result (IsKept (rows_in maps.new)) }
    ensures changed { IfOk result (AreChanged maps.old.rows.held.entries (with_row row maps.old.rows.held.entries)) }
    ensures was { rows_before maps.new ≡ rows_before maps.old }
{
    let name = row.name;
    let same = stands(&maps.rows, &row, steps);
    replace_row(maps, row, steps)?;
    one(alloc, name, !same)
}

/// Puts a row, a new one where `new` says so, or in the place of that of its name, and tells the names whose rows differ. After
/// `Memory` a part may be done.
pub(crate) fn put_either<L: Ledger>(
    alloc: Global,
    maps: &mut Maps,
    row: Row,
    new: bool,
    steps: &mut Steps<L>,
) -> Result<List<Name>, Memory>
    requires kept { IsKept (rows_in maps.old) }
    requires absent { new ≡ true → value_at bytes_cmp row.name maps.old.rows.held.entries ≡ None }
    ensures entries { OnOk result (maps.new.rows.held.entries ≡ with_row row maps.old.rows.held.entries) }
    ensures kept { OnOk result (IsKept (rows_in maps.new)) }
    ensures changed { IfOk result (AreChanged maps.old.rows.held.entries (with_row row maps.old.rows.held.entries)) }
    ensures was { rows_before maps.new ≡ rows_before maps.old }
    ensures cost { new ≡ true → steps.new ≤ steps.old + 2 }
    ensures back { new ≡ true → steps_back maps.new ≤ steps_back maps.old + 2 }
{
    if new {
        put_new(alloc, maps, row, steps)
    } else {
        put_other(alloc, maps, row, steps)
    }
}

/// Takes a row out that is there, and tells the names whose rows differ. After `Memory` a part may be done.
pub(crate) fn retire_row<L: Ledger>(
    alloc: Global,
    maps: &mut Maps,
    name: Name,
    steps: &mut Steps<L>,
) -> Result<List<Name>, Memory>
    requires kept { IsKept (rows_in maps.old) }
    requires there { is_some (value_at bytes_cmp name maps.old.rows.held.entries) ≡ true }
    ensures entries { OnOk result (maps.new.rows.held.entries ≡ without_key bytes_cmp name maps.old.rows.held.entries) }
    ensures kept { OnOk result (IsKept (rows_in maps.new)) }
    ensures changed { IfOk result (AreChanged maps.old.rows.held.entries (without_key bytes_cmp name maps.old.rows.held.entries)) }
    ensures was { rows_before maps.new ≡ rows_before maps.old }
{
    let changed = one(alloc, name, true)?;
    take_out(maps, name, steps)?;
    Ok(changed)
}

/// A copy of the row of a name.
fn row_again<L: Ledger>(
    alloc: Global,
    rows: &Table<Name, Entry>,
    name: Name,
    steps: &mut Steps<L>,
) -> Result<Option<Row>, Memory>
    ensures { IfOk result (λ row. row ≡ row_at rows.now.entries name) }
{
    match rows.get(&name, steps) {
        None => Ok(None),
        Some(entry) => Ok(Some(Row {
            time: entry.time,
            name,
            kind: entry.kind,
            user: Text::of(alloc, entry.user.bytes())?,
            text: Text::of(alloc, entry.text.bytes())?,
        })),
    }
}

/// Puts a row at the end of a list, where there is one, and tells how many more are wanted.
fn take_row(list: &mut List<Row>, left: u64, row: Option<Row>) -> Result<u64, Memory>
    requires { 0 < left }
    ensures step { IfOk result (λ more. (rest : List row_type.Row) → list.new ++ take more rest ≡ list.old ++ take left (put_before row rest)) }
{
    match row {
        None => Ok(left),
        Some(row) => {
            list.append(row)?;
            Ok(left - 1)
        }
    }
}

/// Copies of so many of the first rows, or of all where there are fewer.
pub(crate) fn first_rows<L: Ledger>(
    alloc: Global,
    rows: &Table<Name, Entry>,
    places: &Table<Place, ()>,
    count: u64,
    steps: &mut Steps<L>,
) -> Result<List<Row>, Memory>
    requires { IsStrictlySortedBy latest_first (keys_of places.now.entries) }
    ensures first { IfOk result (λ first. first ≡ take count (rows_at rows.now.entries places.now.entries)) }
{
    let mut list = List::new(alloc);
    let mut left = count;
    let mut next = places.first(steps);
    while let Some((place, _)) = next {
        if left == 0 {
            return Ok(list);
        }
        let row = row_again(alloc, rows, place.name(), steps)?;
        left = take_row(&mut list, left, row)?;
        next = places.next_after(place, steps);
    }
    Ok(list)
}
