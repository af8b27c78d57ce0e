//! Keeps the rows of parentage: the parents of each check-in, and a pair for each parent and child.
ghost use Rattle.std.specs.Prelude.{ℕ, List, ◌≡◌, ◌+◌, ◌*◌, ◌≤◌, length, OnOk, IfOk, None, Some, true, not, is_some, ◌||◌, ◌&&◌, option_and_then, slice_get};
ghost use Rattle.std.specs.List.Sorted.{IsStrictlySortedBy};
ghost use Rattle.std.specs.Map.{keys_of};
ghost use Rattle.fsl_order.specs.Names.{bytes_cmp, has};
ghost use Rattle.fsl_order.specs.Rows.{ListsChanged};
ghost use Rattle.fsl_table.specs.Exact.{pair_cmp};
ghost use Rattle.fsl_table.specs.Contents.{with_entry, without_key, value_at};
ghost use Rattle.fsl_table.specs.Pairs.{is_name, seconds};
ghost use Rattle.fsl_table.specs.declared.key.Pair as pair;
ghost use Rattle.fsl_links.specs.Kept.{facts_of, IsKept, in_one, leader, leads, lists, rows_before, rows_of, same_name, steps_back, waits};
ghost use Rattle.fsl_links.specs.Links.{links_row};

use crate::Fact;
use crate::maps::Maps;
use fsl_name::Name;
use fsl_table::names::{listed, note, note_all, note_others};
use fsl_table::{Pair, Tracked};
use fsl_text::{List, Memory, Steps};
use std::alloc::Global;
use std::collections::BTreeSet;
use std::sync::ledger::Ledger;

/// Whether the check-in is there.
pub(crate) fn is_there<L: Ledger>(
    facts: &Tracked<Name, List<Name>>,
    name: &Name,
    steps: &mut Steps<L>,
) -> bool
    ensures there { result ≡ is_some (value_at bytes_cmp name.now facts.now.held.entries) }
    ensures cost { steps.new ≡ steps.old + 1 }
{
    match facts.get(name, steps) {
        None => false,
        Some(_) => true,
    }
}

/// The first parent of a check-in.
pub(crate) fn first_parent<L: Ledger>(
    facts: &Tracked<Name, List<Name>>,
    child: Name,
    steps: &mut Steps<L>,
) -> Option<Name>
    ensures parent { result ≡ option_and_then (λ ps. slice_get ps 0) (value_at bytes_cmp child facts.now.held.entries) }
    ensures cost { steps.new ≡ steps.old + 1 }
{
    match facts.get(&child, steps) {
        None => None,
        Some(parents) => match parents.items().first() {
            None => None,
            Some(first) => Some(*first),
        },
    }
}

/// Whether the check-in of this name is there and has the other as its first parent.
fn is_waiting<L: Ledger>(
    facts: &Tracked<Name, List<Name>>,
    child: Name,
    parent: Name,
    steps: &mut Steps<L>,
) -> bool
    ensures waits { result ≡ waits facts.now.held.entries parent child }
    ensures cost { steps.new ≡ steps.old + 1 }
{
    match facts.get(&child, steps) {
        None => false,
        Some(parents) => match parents.items().first() {
            None => false,
            Some(first) => *first == parent,
        },
    }
}

/// Notes the check-ins that have this as their first parent.
fn note_waiting<L: Ledger>(
    names: &mut BTreeSet<Name>,
    facts: &Tracked<Name, List<Name>>,
    children: &Tracked<Pair, ()>,
    parent: Name,
    steps: &mut Steps<L>,
) -> Result<(), Memory>
    requires { IsKept (record { facts = facts.now.held; children = children.now.held }) }
    ensures noted { OnOk result ((q : List ℕ) → has names.new.keys q ≡ (waits facts.now.held.entries parent q || has names.old.keys q)) }
    ensures cost { steps.new ≤ steps.old + (1 + 2 * length (seconds parent children.now.held.entries)) }
{
    let mut next = children.second_after(parent, None, steps);
    while let Some(child) = next {
        if is_waiting(facts, child, parent, steps) {
            note(names, child)?;
        }
        next = children.second_after(parent, Some(child), steps);
    }
    Ok(())
}

/// Whether the first parent is there, where the check-in itself is.
fn is_led<L: Ledger>(
    facts: &Tracked<Name, List<Name>>,
    name: Name,
    parents: &[Name],
    steps: &mut Steps<L>,
) -> bool
    ensures leads { result ≡ leads facts.now.held.entries name parents.now }
    ensures cost { steps.new ≤ steps.old + 1 }
{
    match parents.first() {
        None => false,
        Some(first) => *first == name || is_there(facts, first, steps),
    }
}

/// The names whose rows a new check-in will change, ascending.
fn changed_by<L: Ledger>(
    alloc: Global,
    facts: &Tracked<Name, List<Name>>,
    children: &Tracked<Pair, ()>,
    fact: &Fact,
    steps: &mut Steps<L>,
) -> Result<List<Name>, Memory>
    requires kept { IsKept (record { facts = facts.now.held; children = children.now.held }) }
    requires absent { value_at bytes_cmp fact.now.name facts.now.held.entries ≡ None }
    ensures changed { IfOk result (ListsChanged (links_row (facts_of facts.now.held.entries)) (links_row (facts_of (with_entry bytes_cmp fact.now.name fact.now.parents facts.now.held.entries)))) }
    ensures cost { steps.new ≤ steps.old + (2 + 2 * length (seconds fact.now.name children.now.held.entries)) }
{
    let parents = fact.parents.items();
    let mut names = BTreeSet::new(alloc);
    note_all(&mut names, parents)?;
    if is_led(facts, fact.name, parents, steps) {
        note(&mut names, fact.name)?;
    }
    note_waiting(&mut names, facts, children, fact.name, steps)?;
    listed(alloc, &names)
}

/// The first of some parents, where it is there.
fn leading<L: Ledger>(
    facts: &Tracked<Name, List<Name>>,
    parents: &[Name],
    steps: &mut Steps<L>,
) -> Option<Name>
    ensures { result ≡ leader facts.now.held.entries (slice_get parents.now 0) }
{
    match parents.first() {
        None => None,
        Some(first) => {
            if is_there(facts, first, steps) {
                Some(*first)
            } else {
                None
            }
        }
    }
}

/// Whether two names that may be there are the same.
fn is_same(a: Option<Name>, b: Option<Name>) -> bool
    ensures { result ≡ same_name a b }
{
    match a {
        None => b.is_none(),
        Some(x) => match b {
            None => false,
            Some(y) => x == y,
        },
    }
}

/// A set of some names.
fn set_of(alloc: Global, names: &[Name]) -> Result<BTreeSet<Name>, Memory>
    ensures { IfOk result (λ set. (q : List ℕ) → has set.keys q ≡ has names.now q) }
{
    let mut set = BTreeSet::new(alloc);
    note_all(&mut set, names)?;
    Ok(set)
}

/// The names that are in one list and not in the other.
fn differing(alloc: Global, before: &[Name], after: &[Name]) -> Result<BTreeSet<Name>, Memory>
    ensures { IfOk result (λ set. (q : List ℕ) → has set.keys q ≡ in_one before.now after.now q) }
{
    let old = set_of(alloc, before)?;
    let new = set_of(alloc, after)?;
    let mut names = BTreeSet::new(alloc);
    note_others(&mut names, before, &new)?;
    note_others(&mut names, after, &old)?;
    Ok(names)
}

/// The names whose rows differ where a check-in has other parents, ascending.
fn changed_between<L: Ledger>(
    alloc: Global,
    facts: &Tracked<Name, List<Name>>,
    name: Name,
    before: &[Name],
    after: &[Name],
    steps: &mut Steps<L>,
) -> Result<List<Name>, Memory>
    requires ordered { IsStrictlySortedBy bytes_cmp (keys_of facts.now.held.entries) }
    requires there { value_at bytes_cmp name facts.now.held.entries ≡ Some before.now }
    ensures changed { IfOk result (ListsChanged (links_row (facts_of facts.now.held.entries)) (links_row (facts_of (with_entry bytes_cmp name after.now facts.now.held.entries)))) }
{
    let mut names = differing(alloc, before, after)?;
    let old = leading(facts, before, steps);
    let new = leading(facts, after, steps);
    if !is_same(old, new) {
        note(&mut names, name)?;
    }
    listed(alloc, &names)
}

/// Takes the pairs of a check-in and its parents out, where it is there.
fn unlink_parents<L: Ledger>(
    facts: &Tracked<Name, List<Name>>,
    children: &mut Tracked<Pair, ()>,
    name: Name,
    steps: &mut Steps<L>,
) -> Result<(), Memory>
    requires ordered { IsStrictlySortedBy pair_cmp (keys_of children.old.held.entries) }
    ensures ordered { OnOk result (IsStrictlySortedBy pair_cmp (keys_of children.new.held.entries)) }
    ensures pairs { OnOk result ((k : pair.Pair) → is_some (value_at pair_cmp k children.new.held.entries) ≡ (not (is_name k.second name && lists (value_at bytes_cmp name facts.now.held.entries) k.first) && is_some (value_at pair_cmp k children.old.held.entries))) }
    ensures was { children.new.was ≡ children.old.was }
{
    match facts.get(&name, steps) {
        None => Ok(()),
        Some(parents) => children.unlink_each(name, parents.items(), steps),
    }
}

/// Takes a check-in out. After `Memory` a part may be done.
fn take_out<L: Ledger>(maps: &mut Maps, name: Name, steps: &mut Steps<L>) -> Result<(), Memory>
    requires kept { IsKept (rows_of maps.old) }
    ensures entries { OnOk result (maps.new.facts.held.entries ≡ without_key bytes_cmp name maps.old.facts.held.entries) }
    ensures kept { OnOk result (IsKept (rows_of maps.new)) }
    ensures was { rows_before maps.new ≡ rows_before maps.old }
{
    unlink_parents(&maps.facts, &mut maps.children, name, steps)?;
    maps.facts.remove(name, steps)
}

/// Puts a new check-in. After `Memory` a part may be done.
pub(crate) fn put_fact<L: Ledger>(
    maps: &mut Maps,
    fact: Fact,
    steps: &mut Steps<L>,
) -> Result<(), Memory>
    requires kept { IsKept (rows_of maps.old) }
    requires absent { value_at bytes_cmp fact.name maps.old.facts.held.entries ≡ None }
    ensures entries { OnOk result (maps.new.facts.held.entries ≡ with_entry bytes_cmp fact.name fact.parents maps.old.facts.held.entries) }
    ensures kept { OnOk result (IsKept (rows_of maps.new)) }
    ensures was { rows_before maps.new ≡ rows_before maps.old }
    ensures cost { steps.new ≤ steps.old + (length fact.parents + 1) }
    ensures back { steps_back maps.new ≤ steps_back maps.old + (length fact.parents + 1) }
{
    let Fact { name, parents } = fact;
    maps.children.link_each(name, parents.items(), steps)?;
    maps.facts.put(name, name, parents, steps)
}

/// Puts a check-in that isn't there, and tells the names whose rows differ.
fn put_new<L: Ledger>(
    alloc: Global,
    maps: &mut Maps,
    fact: Fact,
    steps: &mut Steps<L>,
) -> Result<List<Name>, Memory>
    requires kept { IsKept (rows_of maps.old) }
    requires absent { value_at bytes_cmp fact.name maps.old.facts.held.entries ≡ None }
    ensures entries { OnOk result (maps.new.facts.held.entries ≡ with_entry bytes_cmp fact.name fact.parents maps.old.facts.held.entries) }
    ensures kept { OnOk result (IsKept (rows_of maps.new)) }
    ensures changed { IfOk result (ListsChanged (links_row (facts_of maps.old.facts.held.entries)) (links_row (facts_of (with_entry bytes_cmp fact.name fact.parents maps.old.facts.held.entries)))) }
    ensures was { rows_before maps.new ≡ rows_before maps.old }
    ensures cost { steps.new ≤ steps.old + (2 + 2 * length (seconds fact.name maps.old.children.held.entries)) + (length fact.parents + 1) }
    ensures back { steps_back maps.new ≤ steps_back maps.old + (length fact.parents + 1) }
{
    let changed = changed_by(alloc, &maps.facts, &maps.children, &fact, steps)?;
    put_fact(maps, fact, steps)?;
    Ok(changed)
}

/// The names whose rows differ where a check-in that is there has other parents, ascending.
fn changed_from<L: Ledger>(
    alloc: Global,
    facts: &Tracked<Name, List<Name>>,
    fact: &Fact,
    steps: &mut Steps<L>,
) -> Result<List<Name>, Memory>
    requires ordered { IsStrictlySortedBy bytes_cmp (keys_of facts.now.held.entries) }
    requires there { is_some (value_at bytes_cmp fact.now.name facts.now.held.entries) ≡ true }
    ensures changed { IfOk result (ListsChanged (links_row (facts_of facts.now.held.entries)) (links_row (facts_of (with_entry bytes_cmp fact.now.name fact.now.parents facts.now.held.entries)))) }
{
    match facts.get(&fact.name, steps) {
        None => Ok(List::new(alloc)),
        Some(before) => changed_between(
            alloc,
            facts,
            fact.name,
            before.items(),
            fact.parents.items(),
            steps,
        ),
    }
}

/// Puts a check-in in the place of that of its name, and tells the names whose rows differ.
fn put_other<L: Ledger>(
    alloc: Global,
    maps: &mut Maps,
    fact: Fact,
    steps: &mut Steps<L>,
) -> Result<List<Name>, Memory>
    requires kept { IsKept (rows_of maps.old) }
    requires there { is_some (value_at bytes_cmp fact.name maps.old.facts.held.entries) ≡ true }
    ensures entries { OnOk result (maps.new.facts.held.entries ≡ with_entry bytes_cmp fact.name fact.parents maps.old.facts.held.entries) }
    ensures kept { OnOk result (IsKept (rows_of maps.new)) }
    ensures changed { IfOk result (ListsChanged (links_row (facts_of maps.old.facts.held.entries)) (links_row (facts_of (with_entry bytes_cmp fact.name fact.parents maps.old.facts.held.entries)))) }
    ensures was { rows_before maps.new ≡ rows_before maps.old }
{
    let changed = changed_from(alloc, &maps.facts, &fact, steps)?;
    take_out(maps, fact.name, steps)?;
    put_fact(maps, fact, steps)?;
    Ok(changed)
}

/// Puts a check-in, in the place of that of its name where there is one, and tells the names whose rows differ. After `Memory` a
/// part may be done.
pub(crate) fn put_either<L: Ledger>(
    alloc: Global,
    maps: &mut Maps,
    fact: Fact,
    steps: &mut Steps<L>,
) -> Result<List<Name>, Memory>
    requires kept { IsKept (rows_of maps.old) }
    ensures entries { OnOk result (maps.new.facts.held.entries ≡ with_entry bytes_cmp fact.name fact.parents maps.old.facts.held.entries) }
    ensures kept { OnOk result (IsKept (rows_of maps.new)) }
    ensures changed { IfOk result (ListsChanged (links_row (facts_of maps.old.facts.held.entries)) (links_row (facts_of (with_entry bytes_cmp fact.name fact.parents maps.old.facts.held.entries)))) }
    ensures was { rows_before maps.new ≡ rows_before maps.old }
    ensures cost { value_at bytes_cmp fact.name maps.old.facts.held.entries ≡ None → steps.new ≤ steps.old + (3 + 2 * length (seconds fact.name maps.old.children.held.entries)) + (length fact.parents + 1) }
    ensures back { value_at bytes_cmp fact.name maps.old.facts.held.entries ≡ None → steps_back maps.new ≤ steps_back maps.old + (length fact.parents + 1) }
{
    if is_there(&maps.facts, &fact.name, steps) {
        put_other(alloc, maps, fact, steps)
    } else {
        put_new(alloc, maps, fact, steps)
    }
}
