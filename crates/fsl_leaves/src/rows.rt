//! Puts a check-in into the three maps, and takes it out.
ghost use Rattle.std.specs.Prelude.{ℕ, List, Bool, ◌≡◌, ◌+◌, ◌*◌, ◌≤◌, length, OnOk, IfOk, None, true, false, map, not, is_some, ◌&&◌, ◌||◌, [], if◌then◌else◌};
ghost use Rattle.std.specs.Str.{bytes_eq};
ghost use Rattle.std.specs.List.Sorted.{IsStrictlySortedBy};
ghost use Rattle.std.specs.Map.{keys_of};
ghost use Rattle.fsl_order.specs.Names.{bytes_cmp, has};
ghost use Rattle.fsl_order.specs.Rows.{by_name, AreDistinct, ListsChanged};
ghost use Rattle.fsl_table.specs.Contents.{without_key, value_at};
ghost use Rattle.fsl_table.specs.Pairs.{is_name};
ghost use Rattle.fsl_leaves.specs.Keys.{Kin, kin_cmp, has_kin, is_kin, walked};
ghost use Rattle.fsl_leaves.specs.Kept.{facts_of, IsKept, StayFlipped, counted, continues_in, is_in, lists, rows_before, rows_of, stands, steps_back, with_fact};
ghost use Rattle.fsl_leaves.specs.Leaves.{leaves_row};

use crate::Fact;
use crate::branch::Branch;
use crate::ends::{end_leaves, recount, set_leaf};
use crate::kin::{Twig, is_continued, link_each, unlink_each};
use crate::line::Line;
use crate::maps::Maps;
use fsl_name::Name;
use fsl_table::names::listed;
use fsl_table::{Tracked, Within};
use fsl_text::{List, Memory, Steps, Text};
use std::alloc::Global;
use std::collections::BTreeSet;
use std::sync::ledger::Ledger;

/// Whether a name is among some.
fn stands_in(names: &[Name], name: Name) -> bool
    ensures { result ≡ has names.now name }
{
    names.contains(&name)
}

/// Whether neither is so.
fn neither(a: bool, b: bool) -> bool
    ensures { result ≡ not (a || b) }
{
    if a { false } else { !b }
}

/// What is kept of a check-in beside its name. `Memory` is the only error.
fn line_of(alloc: Global, parents: List<Name>, branch: Text) -> Result<Line, Memory>
    ensures { IfOk result (λ line. line ≡ record { parents = parents; branch = branch }) }
{
    match Branch::new(alloc, branch) {
        Ok(branch) => Ok(Line { parents, branch }),
        Err(Memory) => Err(Memory),
    }
}

/// Puts the pairs of a new check-in in, takes its parents in its branch out of the leaves, and puts it in where it is one.
/// After `Memory` a part may be done.
fn link_line<L: Ledger>(
    facts: &Tracked<Name, Line>,
    children: &mut Tracked<Within<Twig, Name>, ()>,
    leaves: &mut Tracked<Name, ()>,
    changed: &mut BTreeSet<Name>,
    name: Name,
    line: &Line,
    steps: &mut Steps<L>,
) -> Result<(), Memory>
    requires pairs { IsStrictlySortedBy kin_cmp (keys_of children.old.held.entries) }
    requires leaves { IsStrictlySortedBy bytes_cmp (keys_of leaves.old.held.entries) }
    ensures pairs_ordered { OnOk result (IsStrictlySortedBy kin_cmp (keys_of children.new.held.entries)) }
    ensures leaves_ordered { OnOk result (IsStrictlySortedBy bytes_cmp (keys_of leaves.new.held.entries)) }
    ensures pairs { OnOk result ((k : Kin) → has_kin children.new.held k ≡ (has_kin children.old.held k || is_kin name line.now.parents line.now.branch k)) }
    ensures leaves { OnOk result ((q : List ℕ) → stands leaves.new.held q ≡ (if bytes_eq q name then not (walked children.old.held.entries name line.now.branch || has line.now.parents name) else (stands leaves.old.held q && not (has line.now.parents q && is_in (value_at bytes_cmp q facts.now.held.entries) line.now.branch)))) }
    ensures flips { OnOk result (StayFlipped changed.old.keys leaves.old.held changed.new.keys leaves.new.held) }
    ensures children_was { children.new.was ≡ children.old.was }
    ensures leaves_was { leaves.new.was ≡ leaves.old.was }
    ensures cost { steps.new ≤ steps.old + (3 + 4 * length line.now.parents) }
    ensures back { children.new.back + leaves.new.back ≤ children.old.back + leaves.old.back + (1 + 2 * length line.now.parents) }
{
    let parents = line.parents.items();
    let continued = is_continued(children, name, &line.branch, steps)?;
    link_each(children, name, parents, &line.branch, steps)?;
    end_leaves(facts, leaves, changed, parents, &line.branch, steps)?;
    let ended = neither(continued, stands_in(parents, name));
    set_leaf(leaves, changed, name, ended, steps)
}

/// Puts a new check-in. After `Memory` a part may be done.
pub(crate) fn put_fact<L: Ledger>(
    alloc: Global,
    maps: &mut Maps,
    changed: &mut BTreeSet<Name>,
    fact: Fact,
    steps: &mut Steps<L>,
) -> Result<(), Memory>
    requires kept { IsKept (rows_of maps.old) }
    requires absent { value_at bytes_cmp fact.name maps.old.facts.held.entries ≡ None }
    ensures entries { OnOk result (maps.new.facts.held.entries ≡ with_fact fact maps.old.facts.held.entries) }
    ensures kept { OnOk result (IsKept (rows_of maps.new)) }
    ensures flips { OnOk result (StayFlipped changed.old.keys maps.old.leaves.held changed.new.keys maps.new.leaves.held) }
    ensures was { rows_before maps.new ≡ rows_before maps.old }
    ensures cost { steps.new ≤ steps.old + (4 + 4 * length fact.parents) }
    ensures back { steps_back maps.new ≤ steps_back maps.old + (2 + 2 * length fact.parents) }
{
    let name = fact.name;
    let Ok(line) = line_of(alloc, fact.parents, fact.branch) else {
        return Err(Memory);
    };
    match link_line(
        &maps.facts,
        &mut maps.children,
        &mut maps.leaves,
        changed,
        name,
        &line,
        steps,
    ) {
        Ok(()) => maps.facts.put(name, name, line, steps),
        Err(Memory) => Err(Memory),
    }
}

/// Puts a new check-in. After `Memory` a part may be done.
fn put_new<L: Ledger>(
    alloc: Global,
    maps: &mut Maps,
    fact: Fact,
    steps: &mut Steps<L>,
) -> Result<(), Memory>
    requires kept { IsKept (rows_of maps.old) }
    requires absent { value_at bytes_cmp fact.name maps.old.facts.held.entries ≡ None }
    ensures entries { OnOk result (maps.new.facts.held.entries ≡ with_fact fact maps.old.facts.held.entries) }
    ensures kept { OnOk result (IsKept (rows_of maps.new)) }
{
    maps.begin();
    put_fact(alloc, maps, &mut BTreeSet::new(alloc), fact, steps)
}

/// Puts new check-ins, of which no two have one name, into tables without any. After `Memory` a part may be done.
pub(crate) fn put_all<L: Ledger>(
    alloc: Global,
    maps: &mut Maps,
    all: List<Fact>,
    steps: &mut Steps<L>,
) -> Result<(), Memory>
    requires no_facts { maps.old.facts.held.entries ≡ [] }
    requires no_children { maps.old.children.held.entries ≡ [] }
    requires no_leaves { maps.old.leaves.held.entries ≡ [] }
    requires distinct { AreDistinct (map (λ f. f.name) all) }
    ensures facts { OnOk result (facts_of maps.new.facts.held.entries ≡ by_name (λ f. f.name) all) }
    ensures kept { OnOk result (IsKept (rows_of maps.new)) }
{
    let mut left = all.into_vec();
    while let Some(fact) = left.pop() {
        let Ok(()) = put_new(alloc, maps, fact, steps) else {
            return Err(Memory);
        };
    }
    Ok(())
}

/// Takes the pairs of a check-in that is there out, counts its parents anew, and takes it out of the leaves.
fn unlink_line<L: Ledger>(
    facts: &Tracked<Name, Line>,
    children: &mut Tracked<Within<Twig, Name>, ()>,
    leaves: &mut Tracked<Name, ()>,
    changed: &mut BTreeSet<Name>,
    name: Name,
    line: &Line,
    steps: &mut Steps<L>,
) -> Result<(), Memory>
    requires pairs { IsStrictlySortedBy kin_cmp (keys_of children.old.held.entries) }
    requires leaves { IsStrictlySortedBy bytes_cmp (keys_of leaves.old.held.entries) }
    ensures pairs_ordered { OnOk result (IsStrictlySortedBy kin_cmp (keys_of children.new.held.entries)) }
    ensures leaves_ordered { OnOk result (IsStrictlySortedBy bytes_cmp (keys_of leaves.new.held.entries)) }
    ensures pairs { OnOk result ((k : Kin) → has_kin children.new.held k ≡ (not (is_kin name line.now.parents line.now.branch k) && has_kin children.old.held k)) }
    ensures leaves { OnOk result ((q : List ℕ) → stands leaves.new.held q ≡ (if bytes_eq q name then false else (if has line.now.parents q then counted facts.now.held.entries children.new.held.entries q else stands leaves.old.held q))) }
    ensures flips { OnOk result (StayFlipped changed.old.keys leaves.old.held changed.new.keys leaves.new.held) }
    ensures children_was { children.new.was ≡ children.old.was }
    ensures leaves_was { leaves.new.was ≡ leaves.old.was }
{
    let parents = line.parents.items();
    unlink_each(children, name, parents, &line.branch, steps)?;
    recount(facts, children, leaves, changed, parents, steps)?;
    set_leaf(leaves, changed, name, false, steps)
}

/// The same of a name, where it is there.
fn unlink_name<L: Ledger>(
    facts: &Tracked<Name, Line>,
    children: &mut Tracked<Within<Twig, Name>, ()>,
    leaves: &mut Tracked<Name, ()>,
    changed: &mut BTreeSet<Name>,
    name: Name,
    steps: &mut Steps<L>,
) -> Result<(), Memory>
    requires kept { IsKept (record { facts = facts.now.held; children = children.old.held; leaves = leaves.old.held }) }
    ensures pairs_ordered { OnOk result (IsStrictlySortedBy kin_cmp (keys_of children.new.held.entries)) }
    ensures leaves_ordered { OnOk result (IsStrictlySortedBy bytes_cmp (keys_of leaves.new.held.entries)) }
    ensures pairs { OnOk result ((k : Kin) → has_kin children.new.held k ≡ (not (is_name k.second name && continues_in (value_at bytes_cmp name facts.now.held.entries) k.first.parent k.first.branch) && has_kin children.old.held k)) }
    ensures leaves { OnOk result ((q : List ℕ) → stands leaves.new.held q ≡ (if bytes_eq q name then false else (if lists (value_at bytes_cmp name facts.now.held.entries) q then counted facts.now.held.entries children.new.held.entries q else stands leaves.old.held q))) }
    ensures flips { OnOk result (StayFlipped changed.old.keys leaves.old.held changed.new.keys leaves.new.held) }
    ensures children_was { children.new.was ≡ children.old.was }
    ensures leaves_was { leaves.new.was ≡ leaves.old.was }
{
    match facts.get(&name, steps) {
        None => Ok(()),
        Some(line) => unlink_line(facts, children, leaves, changed, name, line, steps),
    }
}

/// Takes a check-in out. After `Memory` a part may be done.
fn take_out<L: Ledger>(
    maps: &mut Maps,
    changed: &mut BTreeSet<Name>,
    name: Name,
    steps: &mut Steps<L>,
) -> Result<(), Memory>
    requires kept { IsKept (rows_of maps.old) }
    ensures entries { OnOk result (maps.new.facts.held.entries ≡ without_key bytes_cmp name maps.old.facts.held.entries) }
    ensures kept { OnOk result (IsKept (rows_of maps.new)) }
    ensures flips { OnOk result (StayFlipped changed.old.keys maps.old.leaves.held changed.new.keys maps.new.leaves.held) }
    ensures was { rows_before maps.new ≡ rows_before maps.old }
{
    unlink_name(
        &maps.facts,
        &mut maps.children,
        &mut maps.leaves,
        changed,
        name,
        steps,
    )?;
    maps.facts.remove(name, steps)
}

/// Puts a check-in in the place of that of its name. After `Memory` a part may be done.
fn put_other<L: Ledger>(
    alloc: Global,
    maps: &mut Maps,
    changed: &mut BTreeSet<Name>,
    fact: Fact,
    steps: &mut Steps<L>,
) -> Result<(), Memory>
    requires kept { IsKept (rows_of maps.old) }
    ensures entries { OnOk result (maps.new.facts.held.entries ≡ with_fact fact maps.old.facts.held.entries) }
    ensures kept { OnOk result (IsKept (rows_of maps.new)) }
    ensures flips { OnOk result (StayFlipped changed.old.keys maps.old.leaves.held changed.new.keys maps.new.leaves.held) }
    ensures was { rows_before maps.new ≡ rows_before maps.old }
{
    take_out(maps, changed, fact.name, steps)?;
    put_fact(alloc, maps, changed, fact, steps)
}

/// Puts a check-in, a new one where `new` says so, or in the place of that of its name. After `Memory` a part may be
/// done.
fn put_either<L: Ledger>(
    alloc: Global,
    maps: &mut Maps,
    changed: &mut BTreeSet<Name>,
    fact: Fact,
    new: bool,
    steps: &mut Steps<L>,
) -> Result<(), Memory>
    requires kept { IsKept (rows_of maps.old) }
    requires absent { new ≡ true → value_at bytes_cmp fact.name maps.old.facts.held.entries ≡ None }
    ensures entries { OnOk result (maps.new.facts.held.entries ≡ with_fact fact maps.old.facts.held.entries) }
    ensures kept { OnOk result (IsKept (rows_of maps.new)) }
    ensures flips { OnOk result (StayFlipped changed.old.keys maps.old.leaves.held changed.new.keys maps.new.leaves.held) }
    ensures was { rows_before maps.new ≡ rows_before maps.old }
    ensures cost { new ≡ true → steps.new ≤ steps.old + (4 + 4 * length fact.parents) }
    ensures back { new ≡ true → steps_back maps.new ≤ steps_back maps.old + (2 + 2 * length fact.parents) }
{
    if new {
        put_fact(alloc, maps, changed, fact, steps)
    } else {
        put_other(alloc, maps, changed, fact, steps)
    }
}

/// The same, with the names whose rows differ, ascending.
pub(crate) fn put_listed<L: Ledger>(
    alloc: Global,
    maps: &mut Maps,
    fact: Fact,
    new: bool,
    steps: &mut Steps<L>,
) -> Result<List<Name>, Memory>
    requires kept { IsKept (rows_of maps.old) }
    requires absent { new ≡ true → value_at bytes_cmp fact.name maps.old.facts.held.entries ≡ None }
    ensures entries { OnOk result (maps.new.facts.held.entries ≡ with_fact fact maps.old.facts.held.entries) }
    ensures kept { OnOk result (IsKept (rows_of maps.new)) }
    ensures changed { IfOk result (ListsChanged (leaves_row (facts_of maps.old.facts.held.entries)) (leaves_row (facts_of maps.new.facts.held.entries))) }
    ensures was { rows_before maps.new ≡ rows_before maps.old }
    ensures cost { new ≡ true → steps.new ≤ steps.old + (4 + 4 * length fact.parents) }
    ensures back { new ≡ true → steps_back maps.new ≤ steps_back maps.old + (2 + 2 * length fact.parents) }
{
    let mut changed = BTreeSet::new(alloc);
    put_either(alloc, maps, &mut changed, fact, new, steps)?;
    listed(alloc, &changed)
}
