//! Tables of rows, of parents and of leaves that change by one fact: what each change tells of the names whose rows differ, and
//! that it can be taken back.
ghost use Rattle.std.specs.Prelude.{◌≡◌, [], true, map, IfOk, OnOk};
ghost use Rattle.fsl_order.specs.Names.{has};
ghost use Rattle.fsl_order.specs.TableState.{IsAsBefore};

use crate::names::{are_distinct, letter, names_of};
use crate::wanting::want;
use fsl_leaves::Leaves;
use fsl_links::Links;
use fsl_name::Name;
use fsl_text::{Memory, Steps, Text};
use fsl_timeline::{Row, RowKind, Timeline, Undo};
use std::alloc::Global;
use std::sync::ledger::Ledger;
use tests_kit::{Play, add, moment, put_names, shown};

/// A row at a time.
fn row_at(alloc: Global, time: i64, name: Name, text: &[u8]) -> Result<Row, Memory>
    ensures { IfOk result (λ row. row.name ≡ name) }
{
    let time = moment(time)?;
    let text = Text::of(alloc, text)?;
    Ok(Row {
        time,
        name,
        kind: RowKind::Checkin,
        user: Text::empty(alloc),
        text,
    })
}

/// Adds the texts of the latest rows.
fn add_latest(alloc: Global, table: &Timeline, into: &mut Text) -> Result<(), Memory> {
    for row in table.latest(alloc, 9)?.items() {
        add(into, row.text.bytes())?;
    }
    Ok(())
}

/// The same, as far as there is memory.
fn show_latest(alloc: Global, table: &Timeline, into: &mut Text) {
    let _ = add_latest(alloc, table, into);
}

/// Takes a row in.
fn come<L: Ledger>(
    alloc: Global,
    table: &mut Timeline,
    name: Name,
    steps: &mut Steps<L>,
) -> Result<(), Memory>
    requires { table.old.facts ≡ [] }
    ensures { OnOk result (has (map (λ r. r.name) table.new.facts) name ≡ true) }
{
    let fact = row_at(alloc, 1, name, b"old")?;
    match table.add(alloc, fact, steps) {
        Ok(undo) => {
            drop(undo);
            Ok(())
        }
        Err(Memory) => Err(Memory),
    }
}

/// Takes the last change back: what it tells, and what stands before and after.
fn take_back(alloc: Global, table: &mut Timeline, undo: Undo, into: &mut Text)
    requires { undo.after ≡ table.old }
    ensures { IsAsBefore undo.before table.new }
{
    put_names(into, undo.changed().items());
    show_latest(alloc, table, into);
    table.undo(undo);
    show_latest(alloc, table, into);
}

/// Puts a row in the place of one of its name and takes that back.
fn change_back<L: Ledger>(
    alloc: Global,
    table: &mut Timeline,
    name: Name,
    into: &mut Text,
    steps: &mut Steps<L>,
) -> Result<(), Memory>
    requires { has (map (λ r. r.name) table.old.facts) name ≡ true }
    ensures { OnOk result (has (map (λ r. r.name) table.new.facts) name ≡ true) }
{
    let changed = row_at(alloc, 1, name, b"new")?;
    match table.change(alloc, changed, steps) {
        Ok(undo) => {
            take_back(alloc, table, undo, into);
            Ok(())
        }
        Err(Memory) => Err(Memory),
    }
}

/// Takes a row out and puts it back.
fn retire_back<L: Ledger>(
    alloc: Global,
    table: &mut Timeline,
    name: Name,
    into: &mut Text,
    steps: &mut Steps<L>,
) -> Result<(), Memory>
    requires { has (map (λ r. r.name) table.old.facts) name ≡ true }
{
    match table.retire(alloc, name, steps) {
        Ok(retired) => {
            take_back(alloc, table, retired, into);
            Ok(())
        }
        Err(Memory) => Err(Memory),
    }
}

fn change_and_retire<L: Ledger>(
    alloc: Global,
    table: &mut Timeline,
    into: &mut Text,
    steps: &mut Steps<L>,
) -> Result<(), Memory>
    requires { table.old.facts ≡ [] }
{
    let name = letter(b'p');
    come(alloc, table, name, steps)?;
    change_back(alloc, table, name, into, steps)?;
    retire_back(alloc, table, name, into, steps)
}

/// A row is changed, and then taken out.
struct OfRows;

impl Play for OfRows {
    fn play<L: Ledger>(
        &self,
        alloc: Global,
        into: &mut Text,
        steps: &mut Steps<L>,
    ) -> Result<(), Memory> {
        let mut table = Timeline::new(alloc);
        change_and_retire(alloc, &mut table, into, steps)
    }
}

/// A row in the place of one of its name is told, and one that is taken out, and both go back.
#[test]
fn rows_change_and_go(rt: HostRuntime) -> Result<(), Memory> {
    want(&rt, shown(rt.alloc(), &OfRows)?, b" 516b new old 516b old");
    Ok(())
}

/// Two rows, of which the later one stands first.
fn two_rows(alloc: Global) -> Result<Timeline, Memory> {
    let rows = [
        row_at(alloc, 1, letter(b'p'), b"early")?,
        row_at(alloc, 2, letter(b'q'), b"late")?,
    ];
    if !are_distinct(rows[0].name, rows[1].name) {
        return Err(Memory);
    }
    Timeline::build(alloc, &rows)
}

fn latest_of_two(alloc: Global) -> Result<Text, Memory> {
    let table = two_rows(alloc)?;
    let mut into = Text::empty(alloc);
    show_latest(alloc, &table, &mut into);
    drop(table);
    Ok(into)
}

/// The latest row comes first.
#[test]
fn rows_are_built(rt: HostRuntime) -> Result<(), Memory> {
    want(&rt, latest_of_two(rt.alloc())?, b" late early");
    Ok(())
}

/// A check-in with a parent.
fn child_of(alloc: Global, name: Name, parent: u8) -> Result<fsl_links::Fact, Memory>
    ensures { IfOk result (λ fact. fact.name ≡ name) }
{
    let parents = names_of(alloc, &[parent])?;
    Ok(fsl_links::Fact { name, parents })
}

/// A check-in comes.
fn link<L: Ledger>(
    alloc: Global,
    table: &mut Links,
    name: Name,
    steps: &mut Steps<L>,
) -> Result<(), Memory>
    requires { table.old.facts ≡ [] }
    ensures { OnOk result (has (map (λ f. f.name) table.new.facts) name ≡ true) }
{
    let fact = child_of(alloc, name, b'q')?;
    match table.add(alloc, fact, steps) {
        Ok(undo) => {
            drop(undo);
            Ok(())
        }
        Err(Memory) => Err(Memory),
    }
}

/// One of its name with another parent: the names whose rows this changes.
fn relink<L: Ledger>(
    alloc: Global,
    table: &mut Links,
    name: Name,
    into: &mut Text,
    steps: &mut Steps<L>,
) -> Result<(), Memory>
    requires { has (map (λ f. f.name) table.old.facts) name ≡ true }
{
    let changed = child_of(alloc, name, b'r')?;
    match table.change(alloc, changed, steps) {
        Ok(undo) => {
            put_names(into, undo.changed().items());
            table.undo(undo);
            Ok(())
        }
        Err(Memory) => Err(Memory),
    }
}

fn link_twice<L: Ledger>(
    alloc: Global,
    table: &mut Links,
    into: &mut Text,
    steps: &mut Steps<L>,
) -> Result<(), Memory>
    requires { table.old.facts ≡ [] }
{
    let name = letter(b'p');
    link(alloc, table, name, steps)?;
    relink(alloc, table, name, into, steps)
}

/// A check-in gets another parent.
struct OfLinks;

impl Play for OfLinks {
    fn play<L: Ledger>(
        &self,
        alloc: Global,
        into: &mut Text,
        steps: &mut Steps<L>,
    ) -> Result<(), Memory> {
        let mut table = Links::new(alloc);
        link_twice(alloc, &mut table, into, steps)
    }
}

/// Another parent changes the rows of the old parent and of the new one.
#[test]
fn other_parents_are_told(rt: HostRuntime) -> Result<(), Memory> {
    want(&rt, shown(rt.alloc(), &OfLinks)?, b" 22ea 4dc7");
    Ok(())
}

/// A check-in with a parent, in a branch without a name.
fn leaf_of(alloc: Global, name: Name, parent: u8) -> Result<fsl_leaves::Fact, Memory>
    ensures { IfOk result (λ fact. fact.name ≡ name) }
{
    let parents = names_of(alloc, &[parent])?;
    Ok(fsl_leaves::Fact {
        name,
        parents,
        branch: Text::empty(alloc),
    })
}

/// A check-in comes.
fn grow<L: Ledger>(
    alloc: Global,
    table: &mut Leaves,
    name: Name,
    steps: &mut Steps<L>,
) -> Result<(), Memory>
    requires { table.old.facts ≡ [] }
    ensures { OnOk result (has (map (λ f. f.name) table.new.facts) name ≡ true) }
{
    let fact = leaf_of(alloc, name, b'q')?;
    match table.add(alloc, fact, steps) {
        Ok(undo) => {
            drop(undo);
            Ok(())
        }
        Err(Memory) => Err(Memory),
    }
}

/// One of its name that names itself: the names whose rows this changes.
fn regrow<L: Ledger>(
    alloc: Global,
    table: &mut Leaves,
    name: Name,
    into: &mut Text,
    steps: &mut Steps<L>,
) -> Result<(), Memory>
    requires { has (map (λ f. f.name) table.old.facts) name ≡ true }
{
    let changed = leaf_of(alloc, name, b'p')?;
    match table.change(alloc, changed, steps) {
        Ok(undo) => {
            put_names(into, undo.changed().items());
            table.undo(undo);
            Ok(())
        }
        Err(Memory) => Err(Memory),
    }
}

fn grow_twice<L: Ledger>(
    alloc: Global,
    table: &mut Leaves,
    into: &mut Text,
    steps: &mut Steps<L>,
) -> Result<(), Memory>
    requires { table.old.facts ≡ [] }
{
    let name = letter(b'p');
    grow(alloc, table, name, steps)?;
    regrow(alloc, table, name, into, steps)
}

/// A check-in comes to name itself.
struct OfLeaves;

impl Play for OfLeaves {
    fn play<L: Ledger>(
        &self,
        alloc: Global,
        into: &mut Text,
        steps: &mut Steps<L>,
    ) -> Result<(), Memory> {
        let mut table = Leaves::new(alloc);
        grow_twice(alloc, &mut table, into, steps)
    }
}

/// A check-in that comes to name itself is no leaf any more.
#[test]
fn its_own_parent_is_told(rt: HostRuntime) -> Result<(), Memory> {
    want(&rt, shown(rt.alloc(), &OfLeaves)?, b" 516b");
    Ok(())
}
