//! Puts a fact into the maps, and takes it out.
ghost use Rattle.std.specs.Prelude.{ℕ, List, ◌≡◌, ◌+◌, ◌*◌, ◌≤◌, length, OnOk, OnErr, IfOk, None, true, false, not, is_some, ◌&&◌, ◌||◌};
ghost use Rattle.std.specs.Str.{bytes_eq};
ghost use Rattle.std.specs.List.Sorted.{IsStrictlySortedBy};
ghost use Rattle.std.specs.Map.{keys_of};
ghost use Rattle.std.specs.Cmp.Lexicographic.{pointwise};
ghost use Rattle.fsl_order.specs.Names.{bytes_cmp, has};
ghost use Rattle.fsl_order.specs.Rows.{ListsChanged};
ghost use Rattle.fsl_table.specs.Exact.{pair_cmp};
ghost use Rattle.fsl_table.specs.Contents.{with_entry, without_key, value_at};
ghost use Rattle.fsl_cluster.specs.Kept.{AreFewer, AreFreed, AreLost, AreMissed, AreMore, IsKept, StayFlipped, StayTurned, entry_of, facts_of, is_named, is_publication, stands, steps_back, tables_before, tables_in};
ghost use Rattle.fsl_cluster.specs.Clusters.{clusters_row};

use crate::Fact;
use crate::entry::{Entry, entry_from};
use crate::maps::Maps;
use crate::sets::{
    enter_wanted, flip_wanted, is_first, put_missing, put_unclustered, take_missing, take_names,
};
use crate::tables::Flips;
use fsl_name::Name;
use fsl_table::names::{listed, note_all};
use fsl_table::{Pair, Tracked};
use fsl_text::{List, Memory, Steps};
use std::alloc::Global;
use std::collections::BTreeSet;
use std::sync::ledger::Ledger;

/// The names that were turned over in one of the sets, ascending.
fn all_turned(alloc: Global, flips: &Flips) -> Result<List<Name>, Memory>
    ensures names { IfOk result (λ list. (q : List ℕ) → has list q ≡ (has flips.now.missing.keys q || has flips.now.unclustered.keys q)) }
    ensures rising { IfOk result (λ list. IsStrictlySortedBy bytes_cmp list) }
{
    let mut names = BTreeSet::new(alloc);
    let unclustered = listed(alloc, &flips.unclustered)?;
    note_all(&mut names, unclustered.items())?;
    let missing = listed(alloc, &flips.missing)?;
    note_all(&mut names, missing.items())?;
    listed(alloc, &names)
}

/// Makes a name unclustered that isn't, where it is wanted, and tells all names that were turned over. The list is made before the
/// name is put in, so that after `Memory` the set is as before.
fn enter_last<L: Ledger>(
    alloc: Global,
    unclustered: &mut Tracked<Name, ()>,
    flips: &mut Flips,
    name: Name,
    wanted: bool,
    steps: &mut Steps<L>,
) -> Result<List<Name>, Memory>
    requires ordered { IsStrictlySortedBy bytes_cmp (keys_of unclustered.old.held.entries) }
    requires absent { stands unclustered.old.held name ≡ false }
    ensures names { OnOk result ((q : List ℕ) → stands unclustered.new.held q ≡ (stands unclustered.old.held q || (bytes_eq q name && wanted))) }
    ensures turned { OnOk result (StayTurned flips.old.unclustered.keys unclustered.old.held flips.new.unclustered.keys unclustered.new.held) }
    ensures missing { flips.new.missing ≡ flips.old.missing }
    ensures list { IfOk result (λ list. (q : List ℕ) → has list q ≡ (has flips.new.missing.keys q || has flips.new.unclustered.keys q)) }
    ensures rising { IfOk result (λ list. IsStrictlySortedBy bytes_cmp list) }
    ensures ordered { OnOk result (IsStrictlySortedBy bytes_cmp (keys_of unclustered.new.held.entries)) }
    ensures was { unclustered.new.was ≡ unclustered.old.was }
    ensures most { steps.new ≤ steps.old + 1 }
    ensures err { OnErr result (unclustered.new ≡ unclustered.old) }
{
    flip_wanted(&mut flips.unclustered, name, wanted)?;
    let list = all_turned(alloc, flips)?;
    enter_wanted(unclustered, name, wanted, steps)?;
    Ok(list)
}

/// Whether a new fact is unclustered, once its members are in the pairs.
fn is_unclustered<L: Ledger>(
    private: bool,
    members: &Tracked<Pair, ()>,
    name: Name,
    steps: &mut Steps<L>,
) -> bool
    requires { IsStrictlySortedBy pair_cmp (keys_of members.now.held.entries) }
    ensures is { result ≡ (not private && not (is_named members.now.held.entries name)) }
    ensures most { steps.new ≤ steps.old + 1 }
{
    if private {
        return false;
    }
    !is_first(members, name, steps)
}

/// Puts the pairs of a new fact in. After `Memory` a part may be done.
fn link_both<L: Ledger>(
    members: &mut Tracked<Pair, ()>,
    refs: &mut Tracked<Pair, ()>,
    fact: &Fact,
    steps: &mut Steps<L>,
) -> Result<(), Memory>
    requires members_ordered { IsStrictlySortedBy pair_cmp (keys_of members.old.held.entries) }
    requires refs_ordered { IsStrictlySortedBy pair_cmp (keys_of refs.old.held.entries) }
    ensures members { OnOk result (AreMore members.old.held.entries members.new.held.entries fact.now.name fact.now.members) }
    ensures refs { OnOk result (AreMore refs.old.held.entries refs.new.held.entries fact.now.name fact.now.refs) }
    ensures members_ordered { OnOk result (IsStrictlySortedBy pair_cmp (keys_of members.new.held.entries)) }
    ensures refs_ordered { OnOk result (IsStrictlySortedBy pair_cmp (keys_of refs.new.held.entries)) }
    ensures members_was { members.new.was ≡ members.old.was }
    ensures refs_was { refs.new.was ≡ refs.old.was }
    ensures cost { steps.new ≤ steps.old + (length fact.now.members + length fact.now.refs) }
    ensures back { members.new.back + refs.new.back ≤ members.old.back + refs.old.back + (length fact.now.members + length fact.now.refs) }
{
    members.link_each(fact.name, fact.members.items(), steps)?;
    refs.link_each(fact.name, fact.refs.items(), steps)
}

/// Puts the names of a new fact into the pairs and into the sets. After `Memory` a part may be done.
fn spread<L: Ledger>(
    maps: &mut Maps,
    flips: &mut Flips,
    fact: &Fact,
    steps: &mut Steps<L>,
) -> Result<(), Memory>
    requires kept { IsKept (tables_in maps.old) }
    ensures facts { maps.new.facts ≡ maps.old.facts }
    ensures members { OnOk result (AreMore maps.old.members.held.entries maps.new.members.held.entries fact.now.name fact.now.members) }
    ensures refs { OnOk result (AreMore maps.old.refs.held.entries maps.new.refs.held.entries fact.now.name fact.now.refs) }
    ensures unclustered { OnOk result ((q : List ℕ) → stands maps.new.unclustered.held q ≡ (stands maps.old.unclustered.held q && not (has fact.now.members q))) }
    ensures missing { OnOk result (AreMissed maps.old.facts.held fact.now.name fact.now.refs maps.old.missing.held maps.new.missing.held) }
    ensures flips { OnOk result (StayFlipped flips.old maps.old flips.new maps.new) }
    ensures members_ordered { OnOk result (IsStrictlySortedBy pair_cmp (keys_of maps.new.members.held.entries)) }
    ensures refs_ordered { OnOk result (IsStrictlySortedBy pair_cmp (keys_of maps.new.refs.held.entries)) }
    ensures unclustered_ordered { OnOk result (IsStrictlySortedBy bytes_cmp (keys_of maps.new.unclustered.held.entries)) }
    ensures missing_ordered { OnOk result (IsStrictlySortedBy bytes_cmp (keys_of maps.new.missing.held.entries)) }
    ensures was { tables_before maps.new ≡ tables_before maps.old }
    ensures cost { steps.new ≤ steps.old + (1 + 2 * length fact.now.members + 3 * length fact.now.refs) }
    ensures back { steps_back maps.new ≤ steps_back maps.old + (1 + 2 * length fact.now.members + 2 * length fact.now.refs) }
{
    link_both(&mut maps.members, &mut maps.refs, fact, steps)?;
    take_names(
        &mut maps.unclustered,
        &mut flips.unclustered,
        fact.members.items(),
        steps,
    )?;
    put_missing(
        &maps.facts,
        &mut maps.missing,
        &mut flips.missing,
        fact.name,
        fact.refs.items(),
        steps,
    )
}

/// Puts what is kept of a fact in, and makes its name unclustered, where it is wanted there and isn't, and tells all names that were
/// turned over. After `Memory` a part may be done.
fn enter_fact<L: Ledger>(
    alloc: Global,
    maps: &mut Maps,
    flips: &mut Flips,
    fact: Fact,
    wanted: bool,
    steps: &mut Steps<L>,
) -> Result<List<Name>, Memory>
    requires ordered { IsStrictlySortedBy bytes_cmp (keys_of maps.old.unclustered.held.entries) }
    requires absent { stands maps.old.unclustered.held fact.name ≡ false }
    ensures entries { OnOk result (maps.new.facts.held.entries ≡ with_entry bytes_cmp fact.name (entry_of fact) maps.old.facts.held.entries) }
    ensures names { OnOk result ((q : List ℕ) → stands maps.new.unclustered.held q ≡ (stands maps.old.unclustered.held q || (bytes_eq q fact.name && wanted))) }
    ensures unclustered_ordered { OnOk result (IsStrictlySortedBy bytes_cmp (keys_of maps.new.unclustered.held.entries)) }
    ensures members { maps.new.members ≡ maps.old.members }
    ensures refs { maps.new.refs ≡ maps.old.refs }
    ensures missing { maps.new.missing ≡ maps.old.missing }
    ensures flips { OnOk result (StayFlipped flips.old maps.old flips.new maps.new) }
    ensures list { IfOk result (λ list. (q : List ℕ) → has list q ≡ (has flips.new.missing.keys q || has flips.new.unclustered.keys q)) }
    ensures rising { IfOk result (λ list. IsStrictlySortedBy bytes_cmp list) }
    ensures was { tables_before maps.new ≡ tables_before maps.old }
    ensures cost { steps.new ≤ steps.old + 2 }
    ensures back { OnErr result (steps_back maps.new ≤ steps_back maps.old + 1) }
{
    let name = fact.name;
    let entry = entry_from(fact);
    maps.facts.put(name, name, entry, steps)?;
    enter_last(alloc, &mut maps.unclustered, flips, name, wanted, steps)
}

/// Puts a new fact, and tells all names that were turned over. After `Memory` a part may be done.
fn put_fact<L: Ledger>(
    alloc: Global,
    maps: &mut Maps,
    flips: &mut Flips,
    fact: Fact,
    steps: &mut Steps<L>,
) -> Result<List<Name>, Memory>
    requires kept { IsKept (tables_in maps.old) }
    requires absent { value_at bytes_cmp fact.name maps.old.facts.held.entries ≡ None }
    ensures entries { OnOk result (maps.new.facts.held.entries ≡ with_entry bytes_cmp fact.name (entry_of fact) maps.old.facts.held.entries) }
    ensures kept { OnOk result (IsKept (tables_in maps.new)) }
    ensures flips { OnOk result (StayFlipped flips.old maps.old flips.new maps.new) }
    ensures list { IfOk result (λ list. (q : List ℕ) → has list q ≡ (has flips.new.missing.keys q || has flips.new.unclustered.keys q)) }
    ensures rising { IfOk result (λ list. IsStrictlySortedBy bytes_cmp list) }
    ensures was { tables_before maps.new ≡ tables_before maps.old }
    ensures cost { steps.new ≤ steps.old + (4 + 2 * length fact.members + 3 * length fact.refs) }
    ensures back { OnErr result (steps_back maps.new ≤ steps_back maps.old + (2 + 2 * length fact.members + 2 * length fact.refs)) }
{
    spread(maps, flips, &fact, steps)?;
    let free = is_unclustered(fact.private, &maps.members, fact.name, steps);
    enter_fact(alloc, maps, flips, fact, free, steps)
}

/// Takes the members of a fact that is there out of the pairs, and puts those in the set that become unclustered, but for the fact
/// itself. After `Memory` a part may be done.
fn take_members<L: Ledger>(
    facts: &Tracked<Name, Entry>,
    members: &mut Tracked<Pair, ()>,
    unclustered: &mut Tracked<Name, ()>,
    turned: &mut BTreeSet<Name>,
    name: Name,
    some: &[Name],
    steps: &mut Steps<L>,
) -> Result<(), Memory>
    requires members { IsStrictlySortedBy pair_cmp (keys_of members.old.held.entries) }
    requires unclustered { IsStrictlySortedBy bytes_cmp (keys_of unclustered.old.held.entries) }
    ensures members { OnOk result (AreFewer members.old.held.entries members.new.held.entries name some.now) }
    ensures names { OnOk result (AreFreed facts.now.held members.new.held name some.now unclustered.old.held unclustered.new.held) }
    ensures turned { OnOk result (StayTurned turned.old.keys unclustered.old.held turned.new.keys unclustered.new.held) }
    ensures members_ordered { OnOk result (IsStrictlySortedBy pair_cmp (keys_of members.new.held.entries)) }
    ensures unclustered_ordered { OnOk result (IsStrictlySortedBy bytes_cmp (keys_of unclustered.new.held.entries)) }
    ensures members_was { members.new.was ≡ members.old.was }
    ensures unclustered_was { unclustered.new.was ≡ unclustered.old.was }
{
    members.unlink_each(name, some, steps)?;
    put_unclustered(facts, members, unclustered, turned, name, some, steps)
}

/// Takes the names that a fact refers to out of the pairs, and those out of the set that nothing refers to any more, and puts the
/// fact itself in where something refers to it. After `Memory` a part may be done.
fn take_refs<L: Ledger>(
    refs: &mut Tracked<Pair, ()>,
    missing: &mut Tracked<Name, ()>,
    turned: &mut BTreeSet<Name>,
    name: Name,
    some: &[Name],
    steps: &mut Steps<L>,
) -> Result<(), Memory>
    requires refs { IsStrictlySortedBy pair_cmp (keys_of refs.old.held.entries) }
    requires missing { IsStrictlySortedBy bytes_cmp (keys_of missing.old.held.entries) }
    ensures refs { OnOk result (AreFewer refs.old.held.entries refs.new.held.entries name some.now) }
    ensures names { OnOk result (AreLost refs.new.held name some.now missing.old.held missing.new.held) }
    ensures turned { OnOk result (StayTurned turned.old.keys missing.old.held turned.new.keys missing.new.held) }
    ensures refs_ordered { OnOk result (IsStrictlySortedBy pair_cmp (keys_of refs.new.held.entries)) }
    ensures missing_ordered { OnOk result (IsStrictlySortedBy bytes_cmp (keys_of missing.new.held.entries)) }
    ensures refs_was { refs.new.was ≡ refs.old.was }
    ensures missing_was { missing.new.was ≡ missing.old.was }
{
    refs.unlink_each(name, some, steps)?;
    take_missing(refs, missing, turned, name, some, steps)
}

/// Takes a fact that is there out. After `Memory` a part may be done.
fn take_out<L: Ledger>(
    maps: &mut Maps,
    flips: &mut Flips,
    name: Name,
    steps: &mut Steps<L>,
) -> Result<(), Memory>
    requires kept { IsKept (tables_in maps.old) }
    requires there { is_some (value_at bytes_cmp name maps.old.facts.held.entries) ≡ true }
    ensures entries { OnOk result (maps.new.facts.held.entries ≡ without_key bytes_cmp name maps.old.facts.held.entries) }
    ensures kept { OnOk result (IsKept (tables_in maps.new)) }
    ensures flips { OnOk result (StayFlipped flips.old maps.old flips.new maps.new) }
    ensures was { tables_before maps.new ≡ tables_before maps.old }
{
    let Some(entry) = maps.facts.get(&name, steps) else {
        return Ok(());
    };
    take_members(
        &maps.facts,
        &mut maps.members,
        &mut maps.unclustered,
        &mut flips.unclustered,
        name,
        entry.members.items(),
        steps,
    )?;
    take_refs(
        &mut maps.refs,
        &mut maps.missing,
        &mut flips.missing,
        name,
        entry.refs.items(),
        steps,
    )?;
    maps.facts.remove(name, steps)
}

/// Whether two lists of names are the same.
fn is_same(a: &List<Name>, b: &List<Name>) -> bool
    ensures { result ≡ pointwise bytes_eq a.now b.now }
{
    a.items() == b.items()
}

/// Whether a fact is there, and private, and another is the same but for that.
fn is_publication<L: Ledger>(
    facts: &Tracked<Name, Entry>,
    fact: &Fact,
    steps: &mut Steps<L>,
) -> bool
    ensures is { result ≡ is_publication facts.now.held fact.now }
    ensures cost { steps.new ≡ steps.old + 1 }
{
    let Some(old) = facts.get(&fact.name, steps) else {
        return false;
    };
    if !old.private || fact.private {
        return false;
    }
    is_same(&old.members, &fact.members) && is_same(&old.refs, &fact.refs)
}

/// Makes a private fact public, and tells all names that were turned over. After `Memory` a part may be done.
fn publish<L: Ledger>(
    alloc: Global,
    maps: &mut Maps,
    flips: &mut Flips,
    fact: Fact,
    steps: &mut Steps<L>,
) -> Result<List<Name>, Memory>
    requires kept { IsKept (tables_in maps.old) }
    requires private { is_publication maps.old.facts.held fact ≡ true }
    ensures entries { OnOk result (maps.new.facts.held.entries ≡ with_entry bytes_cmp fact.name (entry_of fact) maps.old.facts.held.entries) }
    ensures kept { OnOk result (IsKept (tables_in maps.new)) }
    ensures flips { OnOk result (StayFlipped flips.old maps.old flips.new maps.new) }
    ensures list { IfOk result (λ list. (q : List ℕ) → has list q ≡ (has flips.new.missing.keys q || has flips.new.unclustered.keys q)) }
    ensures rising { IfOk result (λ list. IsStrictlySortedBy bytes_cmp list) }
    ensures was { tables_before maps.new ≡ tables_before maps.old }
    ensures cost { steps.new ≤ steps.old + 3 }
    ensures back { OnErr result (steps_back maps.new ≤ steps_back maps.old + 1) }
{
    let named = is_first(&maps.members, fact.name, steps);
    enter_fact(alloc, maps, flips, fact, !named, steps)
}

/// Puts a fact in the place of that of its name by taking the old one out, and tells all names that were turned over. After `Memory`
/// a part may be done.
fn put_anew<L: Ledger>(
    alloc: Global,
    maps: &mut Maps,
    flips: &mut Flips,
    fact: Fact,
    steps: &mut Steps<L>,
) -> Result<List<Name>, Memory>
    requires kept { IsKept (tables_in maps.old) }
    requires there { is_some (value_at bytes_cmp fact.name maps.old.facts.held.entries) ≡ true }
    ensures entries { OnOk result (maps.new.facts.held.entries ≡ with_entry bytes_cmp fact.name (entry_of fact) maps.old.facts.held.entries) }
    ensures kept { OnOk result (IsKept (tables_in maps.new)) }
    ensures flips { OnOk result (StayFlipped flips.old maps.old flips.new maps.new) }
    ensures list { IfOk result (λ list. (q : List ℕ) → has list q ≡ (has flips.new.missing.keys q || has flips.new.unclustered.keys q)) }
    ensures rising { IfOk result (λ list. IsStrictlySortedBy bytes_cmp list) }
    ensures was { tables_before maps.new ≡ tables_before maps.old }
{
    take_out(maps, flips, fact.name, steps)?;
    put_fact(alloc, maps, flips, fact, steps)
}

/// Puts a fact in the place of that of its name.
fn put_other<L: Ledger>(
    alloc: Global,
    maps: &mut Maps,
    flips: &mut Flips,
    fact: Fact,
    steps: &mut Steps<L>,
) -> Result<List<Name>, Memory>
    requires kept { IsKept (tables_in maps.old) }
    requires there { is_some (value_at bytes_cmp fact.name maps.old.facts.held.entries) ≡ true }
    ensures entries { OnOk result (maps.new.facts.held.entries ≡ with_entry bytes_cmp fact.name (entry_of fact) maps.old.facts.held.entries) }
    ensures kept { OnOk result (IsKept (tables_in maps.new)) }
    ensures flips { OnOk result (StayFlipped flips.old maps.old flips.new maps.new) }
    ensures list { IfOk result (λ list. (q : List ℕ) → has list q ≡ (has flips.new.missing.keys q || has flips.new.unclustered.keys q)) }
    ensures rising { IfOk result (λ list. IsStrictlySortedBy bytes_cmp list) }
    ensures was { tables_before maps.new ≡ tables_before maps.old }
    ensures cost { is_publication maps.old.facts.held fact ≡ true → steps.new ≤ steps.old + 4 }
    ensures back { is_publication maps.old.facts.held fact ≡ true → OnErr result (steps_back maps.new ≤ steps_back maps.old + 1) }
{
    if is_publication(&maps.facts, &fact, steps) {
        publish(alloc, maps, flips, fact, steps)
    } else {
        put_anew(alloc, maps, flips, fact, steps)
    }
}

/// Puts a new fact, and tells the names whose rows differ. After `Memory` a part may be done.
pub(crate) fn put_new<L: Ledger>(
    alloc: Global,
    maps: &mut Maps,
    fact: Fact,
    steps: &mut Steps<L>,
) -> Result<List<Name>, Memory>
    requires kept { IsKept (tables_in maps.old) }
    requires absent { value_at bytes_cmp fact.name maps.old.facts.held.entries ≡ None }
    ensures entries { OnOk result (maps.new.facts.held.entries ≡ with_entry bytes_cmp fact.name (entry_of fact) maps.old.facts.held.entries) }
    ensures kept { OnOk result (IsKept (tables_in maps.new)) }
    ensures changed { IfOk result (ListsChanged (clusters_row (facts_of maps.old.facts.held.entries)) (clusters_row (facts_of maps.new.facts.held.entries))) }
    ensures was { tables_before maps.new ≡ tables_before maps.old }
    ensures cost { steps.new ≤ steps.old + (4 + 2 * length fact.members + 3 * length fact.refs) }
    ensures back { OnErr result (steps_back maps.new ≤ steps_back maps.old + (2 + 2 * length fact.members + 2 * length fact.refs)) }
{
    let mut flips = Flips::new(alloc);
    put_fact(alloc, maps, &mut flips, fact, steps)
}

/// Puts a fact in the place of that of its name, and tells the names whose rows differ. After `Memory` a part may be done.
pub(crate) fn put_over<L: Ledger>(
    alloc: Global,
    maps: &mut Maps,
    fact: Fact,
    steps: &mut Steps<L>,
) -> Result<List<Name>, Memory>
    requires kept { IsKept (tables_in maps.old) }
    requires there { is_some (value_at bytes_cmp fact.name maps.old.facts.held.entries) ≡ true }
    ensures entries { OnOk result (maps.new.facts.held.entries ≡ with_entry bytes_cmp fact.name (entry_of fact) maps.old.facts.held.entries) }
    ensures kept { OnOk result (IsKept (tables_in maps.new)) }
    ensures changed { IfOk result (ListsChanged (clusters_row (facts_of maps.old.facts.held.entries)) (clusters_row (facts_of maps.new.facts.held.entries))) }
    ensures was { tables_before maps.new ≡ tables_before maps.old }
    ensures cost { is_publication maps.old.facts.held fact ≡ true → steps.new ≤ steps.old + 4 }
    ensures back { is_publication maps.old.facts.held fact ≡ true → OnErr result (steps_back maps.new ≤ steps_back maps.old + 1) }
{
    let mut flips = Flips::new(alloc);
    put_other(alloc, maps, &mut flips, fact, steps)
}
