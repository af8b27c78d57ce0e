//! A build works out the row of each name after that of its primary parent, and merges it from that by the law `effective_by_parent`.
//! Only in a circle of parents, which no hashes make, it takes as many names above as there are facts.
ghost use Rattle.std.specs.List.{AllByRecursion};
ghost use Rattle.std.specs.Prelude.{◌≡◌, List, ℕ, [], length, IfOk, OnOk};
ghost use Rattle.fsl_tags.specs.Climbed.{climbed as climbed_row};
ghost use Rattle.fsl_tags.specs.Laid.{row_in, Rises, parent_in, settled as settled_row};
ghost use Rattle.fsl_tags.specs.Laying.{AreSettled, IsKnown, AreKnown, line, down};

use super::merge::merged;
use super::node::Node;
use super::row::Row;
use super::rows::row_of;
use super::spread::pop as pop_name;
use super::take::parent_of;
use super::{Assertion, Fact};
use fsl_name::Name;
use fsl_table::Tracked;
use fsl_text::{Memory, Steps};
use std::alloc::Global;
use std::collections::BTreeMap;
use std::sync::ledger::Ledger;

/// A name and its primary ancestors, nearest first, and not more than `most` of these.
fn ancestors<L: Ledger>(
    alloc: Global,
    facts: &Tracked<Name, Node>,
    name: Name,
    most: u64,
    steps: &mut Steps<L>,
) -> Result<Vec<Name>, Memory>
    ensures { IfOk result (λ names. names.items ≡ line (parent_in facts.now.held.entries) most name) }
{
    let mut names = Vec::new(alloc);
    names.push(name)?;
    let mut at = name;
    let mut left = most;
    while left > 0 {
        let Some(up) = parent_of(facts, at, steps) else {
            return Ok(names);
        };
        names.push(up)?;
        at = up;
        left -= 1;
    }
    Ok(names)
}

/// The row that own rows make along a line of names, from the last to the first.
fn descend<L: Ledger>(
    alloc: Global,
    own: &Tracked<Name, Row>,
    names: Vec<Name>,
    steps: &mut Steps<L>,
) -> Result<Row, Memory>
    requires { (x : List ℕ) → Rises (row_in own.now.held.entries x) }
    ensures { IfOk result (λ row. row ≡ down (row_in own.now.held.entries) names.items []) }
{
    let mut left = names;
    let none = Row::new();
    let mut row = Row::new();
    while let Some(at) = pop_name(&mut left) {
        let near = row_of(own, at, &none, steps);
        row = merged(alloc, near, &row)?;
    }
    Ok(row)
}

/// The row of a name by so many steps up at most.
fn climbed<L: Ledger>(
    alloc: Global,
    facts: &Tracked<Name, Node>,
    own: &Tracked<Name, Row>,
    name: Name,
    most: u64,
    steps: &mut Steps<L>,
) -> Result<Row, Memory>
    requires { (x : List ℕ) → Rises (row_in own.now.held.entries x) }
    ensures { IfOk result (λ row. row ≡ climbed_row (parent_in facts.now.held.entries) (row_in own.now.held.entries) most name) }
{
    let names = ancestors(alloc, facts, name, most, steps)?;
    descend(alloc, own, names, steps)
}

/// The row of a name: from that of its primary parent, where this is worked out, and else from all names above.
fn row_for<L: Ledger>(
    alloc: Global,
    facts: &Tracked<Name, Node>,
    own: &Tracked<Name, Row>,
    settled: &BTreeMap<Name, Row>,
    name: Name,
    most: u64,
    steps: &mut Steps<L>,
) -> Result<Row, Memory>
    requires rise { (x : List ℕ) → Rises (row_in own.now.held.entries x) }
    requires most { most ≡ length facts.now.held.entries }
    requires right { AreSettled facts.now.held.entries own.now.held.entries settled.now.entries }
    ensures { IfOk result (λ row. row ≡ settled_row facts.now.held.entries own.now.held.entries name) }
{
    let none = Row::new();
    let near = row_of(own, name, &none, steps);
    let Some(up) = parent_of(facts, name, steps) else {
        return near.again();
    };
    match settled.get(&up) {
        Some(above) => merged(alloc, near, above),
        None => climbed(alloc, facts, own, name, most, steps),
    }
}

/// Works the row of a name out, unless it is.
fn settle_one<L: Ledger>(
    alloc: Global,
    facts: &Tracked<Name, Node>,
    own: &Tracked<Name, Row>,
    settled: &mut BTreeMap<Name, Row>,
    name: Name,
    most: u64,
    steps: &mut Steps<L>,
) -> Result<(), Memory>
    requires rise { (x : List ℕ) → Rises (row_in own.now.held.entries x) }
    requires most { most ≡ length facts.now.held.entries }
    requires right { AreSettled facts.now.held.entries own.now.held.entries settled.old.entries }
    ensures right { OnOk result (AreSettled facts.now.held.entries own.now.held.entries settled.new.entries) }
    ensures there { OnOk result (IsKnown settled.new.entries name) }
    ensures stay { OnOk result ((q : List ℕ) → IsKnown settled.old.entries q → IsKnown settled.new.entries q) }
{
    if settled.contains_key(&name) {
        return Ok(());
    }
    let row = row_for(alloc, facts, own, settled, name, most, steps)?;
    match settled.insert(name, row) {
        Ok(_) => Ok(()),
        Err(_) => Err(Memory),
    }
}

/// The primary ancestors of a name up to the first whose row is worked out, nearest first, and not more than `most` of them.
fn waiting<L: Ledger>(
    alloc: Global,
    facts: &Tracked<Name, Node>,
    settled: &BTreeMap<Name, Row>,
    name: Name,
    most: u64,
    steps: &mut Steps<L>,
) -> Result<Vec<Name>, Memory> {
    let mut above = Vec::new(alloc);
    let mut at = name;
    let mut left = most;
    while left > 0 {
        let Some(up) = parent_of(facts, at, steps) else {
            break;
        };
        if settled.contains_key(&up) {
            break;
        }
        above.push(up)?;
        at = up;
        left -= 1;
    }
    Ok(above)
}

/// Works the row of a name out, and before it those of its ancestors, the farthest first.
fn settle<L: Ledger>(
    alloc: Global,
    facts: &Tracked<Name, Node>,
    own: &Tracked<Name, Row>,
    settled: &mut BTreeMap<Name, Row>,
    name: Name,
    most: u64,
    steps: &mut Steps<L>,
) -> Result<(), Memory>
    requires rise { (x : List ℕ) → Rises (row_in own.now.held.entries x) }
    requires most { most ≡ length facts.now.held.entries }
    requires right { AreSettled facts.now.held.entries own.now.held.entries settled.old.entries }
    ensures right { OnOk result (AreSettled facts.now.held.entries own.now.held.entries settled.new.entries) }
    ensures there { OnOk result (IsKnown settled.new.entries name) }
    ensures stay { OnOk result ((q : List ℕ) → IsKnown settled.old.entries q → IsKnown settled.new.entries q) }
{
    let mut above = waiting(alloc, facts, settled, name, most, steps)?;
    while let Some(at) = above.pop() {
        settle_one(alloc, facts, own, settled, at, most, steps)?;
    }
    settle_one(alloc, facts, own, settled, name, most, steps)
}

/// Works the rows of the targets of assertions out.
fn settle_targets<L: Ledger>(
    alloc: Global,
    facts: &Tracked<Name, Node>,
    own: &Tracked<Name, Row>,
    settled: &mut BTreeMap<Name, Row>,
    assertions: &[Assertion],
    most: u64,
    steps: &mut Steps<L>,
) -> Result<(), Memory>
    requires rise { (x : List ℕ) → Rises (row_in own.now.held.entries x) }
    requires most { most ≡ length facts.now.held.entries }
    requires right { AreSettled facts.now.held.entries own.now.held.entries settled.old.entries }
    ensures right { OnOk result (AreSettled facts.now.held.entries own.now.held.entries settled.new.entries) }
    ensures there { OnOk result (AllByRecursion (λ a. IsKnown settled.new.entries a.target) assertions.now) }
    ensures stay { OnOk result ((q : List ℕ) → IsKnown settled.old.entries q → IsKnown settled.new.entries q) }
{
    for assertion in assertions {
        settle(alloc, facts, own, settled, assertion.target, most, steps)?;
    }
    Ok(())
}

/// Works out the rows of facts and of the targets of their assertions. `Memory` is the only error.
pub(crate) fn settle_all<L: Ledger>(
    alloc: Global,
    given: &[Fact],
    facts: &Tracked<Name, Node>,
    own: &Tracked<Name, Row>,
    settled: &mut BTreeMap<Name, Row>,
    most: u64,
    steps: &mut Steps<L>,
) -> Result<(), Memory>
    requires rise { (x : List ℕ) → Rises (row_in own.now.held.entries x) }
    requires most { most ≡ length facts.now.held.entries }
    requires right { AreSettled facts.now.held.entries own.now.held.entries settled.old.entries }
    ensures right { OnOk result (AreSettled facts.now.held.entries own.now.held.entries settled.new.entries) }
    ensures all { OnOk result (AllByRecursion (AreKnown settled.new.entries) given.now) }
{
    for fact in given {
        settle(alloc, facts, own, settled, fact.name, most, steps)?;
        settle_targets(alloc, facts, own, settled, fact.tags.items(), most, steps)?;
    }
    Ok(())
}
