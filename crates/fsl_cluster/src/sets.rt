//! Keeps sets of names as maps. It puts names in, takes them out, and notes the names at which a set differs from before.
ghost use Rattle.std.specs.Prelude.{ℕ, List, ◌≡◌, ◌+◌, ◌*◌, ◌≤◌, length, OnOk, OnErr, not, is_some, ◌&&◌, ◌||◌, if◌then◌else◌};
ghost use Rattle.std.specs.Str.{bytes_eq};
ghost use Rattle.std.specs.List.Sorted.{IsStrictlySortedBy};
ghost use Rattle.std.specs.Map.{keys_of};
ghost use Rattle.fsl_order.specs.Names.{bytes_cmp, has};
ghost use Rattle.fsl_table.specs.Exact.{pair_cmp};
ghost use Rattle.fsl_table.specs.Contents.{value_at};
ghost use Rattle.fsl_cluster.specs.Kept.{AreFreed, AreLost, AreMissed, StayTurned, is_freed, is_named, is_public, is_unheld, stands};

use crate::entry::Entry;
use fsl_name::Name;
use fsl_table::names::flip;
use fsl_table::{Pair, Tracked};
use fsl_text::{Memory, Steps};
use std::collections::BTreeSet;
use std::sync::ledger::Ledger;

/// Whether a fact is there.
fn is_there<L: Ledger>(facts: &Tracked<Name, Entry>, name: &Name, steps: &mut Steps<L>) -> bool
    ensures there { result ≡ is_some (value_at bytes_cmp name.now facts.now.held.entries) }
    ensures cost { steps.new ≡ steps.old + 1 }
{
    match facts.get(name, steps) {
        None => false,
        Some(_) => true,
    }
}

/// Whether a name is in a set.
pub(crate) fn is_entered<L: Ledger>(
    names: &Tracked<Name, ()>,
    name: &Name,
    steps: &mut Steps<L>,
) -> bool
    ensures { result ≡ stands names.now.held name.now }
{
    match names.get(name, steps) {
        None => false,
        Some(_) => true,
    }
}

/// Whether a fact is there, and public.
fn is_there_public<L: Ledger>(
    facts: &Tracked<Name, Entry>,
    name: &Name,
    steps: &mut Steps<L>,
) -> bool
    ensures { result ≡ is_public (value_at bytes_cmp name.now facts.now.held.entries) }
{
    match facts.get(name, steps) {
        None => false,
        Some(entry) => !entry.private,
    }
}

/// Whether a pair has the name first.
pub(crate) fn is_first<L: Ledger>(
    pairs: &Tracked<Pair, ()>,
    name: Name,
    steps: &mut Steps<L>,
) -> bool
    requires { IsStrictlySortedBy pair_cmp (keys_of pairs.now.held.entries) }
    ensures named { result ≡ is_named pairs.now.held.entries name }
    ensures cost { steps.new ≡ steps.old + 1 }
{
    pairs.second_after(name, None, steps).is_some()
}

/// Puts a name in, and turns it over where it wasn't there. After `Memory` a part may be done.
fn put_name<L: Ledger>(
    names: &mut Tracked<Name, ()>,
    turned: &mut BTreeSet<Name>,
    name: Name,
    steps: &mut Steps<L>,
) -> Result<(), Memory>
    requires { IsStrictlySortedBy bytes_cmp (keys_of names.old.held.entries) }
    ensures names { OnOk result ((q : List ℕ) → stands names.new.held q ≡ (bytes_eq q name || stands names.old.held q)) }
    ensures turned { OnOk result (StayTurned turned.old.keys names.old.held turned.new.keys names.new.held) }
    ensures ordered { OnOk result (IsStrictlySortedBy bytes_cmp (keys_of names.new.held.entries)) }
    ensures was { names.new.was ≡ names.old.was }
    ensures most { steps.new ≤ steps.old + 1 }
    ensures back { names.new.back ≤ names.old.back + 1 }
{
    let there = names.insert(name, name, (), steps)?;
    if there {
        return Ok(());
    }
    flip(turned, name)
}

/// Takes a name out, and turns it over where it was there. After `Memory` a part may be done.
fn take_name<L: Ledger>(
    names: &mut Tracked<Name, ()>,
    turned: &mut BTreeSet<Name>,
    name: Name,
    steps: &mut Steps<L>,
) -> Result<(), Memory>
    requires { IsStrictlySortedBy bytes_cmp (keys_of names.old.held.entries) }
    ensures names { OnOk result ((q : List ℕ) → stands names.new.held q ≡ (stands names.old.held q && not (bytes_eq q name))) }
    ensures turned { OnOk result (StayTurned turned.old.keys names.old.held turned.new.keys names.new.held) }
    ensures ordered { OnOk result (IsStrictlySortedBy bytes_cmp (keys_of names.new.held.entries)) }
    ensures was { names.new.was ≡ names.old.was }
    ensures most { steps.new ≤ steps.old + 1 }
    ensures back { names.new.back ≤ names.old.back + 1 }
{
    let there = names.take(name, steps)?;
    if !there {
        return Ok(());
    }
    flip(turned, name)
}

/// Puts a name in where it is wanted, and turns it over where it wasn't there.
fn put_wanted<L: Ledger>(
    names: &mut Tracked<Name, ()>,
    turned: &mut BTreeSet<Name>,
    name: Name,
    wanted: bool,
    steps: &mut Steps<L>,
) -> Result<(), Memory>
    requires { IsStrictlySortedBy bytes_cmp (keys_of names.old.held.entries) }
    ensures names { OnOk result ((q : List ℕ) → stands names.new.held q ≡ (stands names.old.held q || (bytes_eq q name && wanted))) }
    ensures turned { OnOk result (StayTurned turned.old.keys names.old.held turned.new.keys names.new.held) }
    ensures ordered { OnOk result (IsStrictlySortedBy bytes_cmp (keys_of names.new.held.entries)) }
    ensures was { names.new.was ≡ names.old.was }
    ensures most { steps.new ≤ steps.old + 1 }
    ensures back { names.new.back ≤ names.old.back + 1 }
{
    if !wanted {
        return Ok(());
    }
    put_name(names, turned, name, steps)
}

/// Takes a name out unless it is kept, and turns it over where it was there.
fn take_unless<L: Ledger>(
    names: &mut Tracked<Name, ()>,
    turned: &mut BTreeSet<Name>,
    name: Name,
    kept: bool,
    steps: &mut Steps<L>,
) -> Result<(), Memory>
    requires { IsStrictlySortedBy bytes_cmp (keys_of names.old.held.entries) }
    ensures names { OnOk result ((q : List ℕ) → stands names.new.held q ≡ (stands names.old.held q && not (bytes_eq q name && not kept))) }
    ensures turned { OnOk result (StayTurned turned.old.keys names.old.held turned.new.keys names.new.held) }
    ensures ordered { OnOk result (IsStrictlySortedBy bytes_cmp (keys_of names.new.held.entries)) }
    ensures was { names.new.was ≡ names.old.was }
{
    if kept {
        return Ok(());
    }
    take_name(names, turned, name, steps)
}

/// Takes some names out. After `Memory` some may be out.
pub(crate) fn take_names<L: Ledger>(
    names: &mut Tracked<Name, ()>,
    turned: &mut BTreeSet<Name>,
    some: &[Name],
    steps: &mut Steps<L>,
) -> Result<(), Memory>
    requires { IsStrictlySortedBy bytes_cmp (keys_of names.old.held.entries) }
    ensures names { OnOk result ((q : List ℕ) → stands names.new.held q ≡ (stands names.old.held q && not (has some.now q))) }
    ensures turned { OnOk result (StayTurned turned.old.keys names.old.held turned.new.keys names.new.held) }
    ensures ordered { OnOk result (IsStrictlySortedBy bytes_cmp (keys_of names.new.held.entries)) }
    ensures was { names.new.was ≡ names.old.was }
    ensures most { steps.new ≤ steps.old + length some.now }
    ensures back { names.new.back ≤ names.old.back + length some.now }
{
    for one in some {
        take_name(names, turned, *one, steps)?;
    }
    Ok(())
}

/// Whether a name is neither a given one nor held.
fn is_wanting<L: Ledger>(
    facts: &Tracked<Name, Entry>,
    name: Name,
    one: &Name,
    steps: &mut Steps<L>,
) -> bool
    ensures is { result ≡ is_unheld facts.now.held.entries name one.now }
    ensures most { steps.new ≤ steps.old + 1 }
{
    if *one == name {
        return false;
    }
    !is_there(facts, one, steps)
}

/// Puts those of some names in that are neither a given one nor held. After `Memory` some may be in.
fn put_unheld<L: Ledger>(
    facts: &Tracked<Name, Entry>,
    names: &mut Tracked<Name, ()>,
    turned: &mut BTreeSet<Name>,
    name: Name,
    some: &[Name],
    steps: &mut Steps<L>,
) -> Result<(), Memory>
    requires { IsStrictlySortedBy bytes_cmp (keys_of names.old.held.entries) }
    ensures names { OnOk result ((q : List ℕ) → stands names.new.held q ≡ (stands names.old.held q || (has some.now q && is_unheld facts.now.held.entries name q))) }
    ensures turned { OnOk result (StayTurned turned.old.keys names.old.held turned.new.keys names.new.held) }
    ensures ordered { OnOk result (IsStrictlySortedBy bytes_cmp (keys_of names.new.held.entries)) }
    ensures was { names.new.was ≡ names.old.was }
    ensures most { steps.new ≤ steps.old + 2 * length some.now }
    ensures back { names.new.back ≤ names.old.back + length some.now }
{
    for one in some {
        let wanted = is_wanting(facts, name, one, steps);
        put_wanted(names, turned, *one, wanted, steps)?;
    }
    Ok(())
}

/// Puts those of some names in that are neither this one nor held, and then takes this one out.
pub(crate) fn put_missing<L: Ledger>(
    facts: &Tracked<Name, Entry>,
    names: &mut Tracked<Name, ()>,
    turned: &mut BTreeSet<Name>,
    name: Name,
    some: &[Name],
    steps: &mut Steps<L>,
) -> Result<(), Memory>
    requires { IsStrictlySortedBy bytes_cmp (keys_of names.old.held.entries) }
    ensures names { OnOk result (AreMissed facts.now.held name some.now names.old.held names.new.held) }
    ensures turned { OnOk result (StayTurned turned.old.keys names.old.held turned.new.keys names.new.held) }
    ensures ordered { OnOk result (IsStrictlySortedBy bytes_cmp (keys_of names.new.held.entries)) }
    ensures was { names.new.was ≡ names.old.was }
    ensures most { steps.new ≤ steps.old + (1 + 2 * length some.now) }
    ensures back { names.new.back ≤ names.old.back + (1 + length some.now) }
{
    put_unheld(facts, names, turned, name, some, steps)?;
    take_name(names, turned, name, steps)
}

/// Whether another name than a given one is that of a public fact, and first in no pair.
fn is_left<L: Ledger>(
    facts: &Tracked<Name, Entry>,
    pairs: &Tracked<Pair, ()>,
    name: Name,
    one: &Name,
    steps: &mut Steps<L>,
) -> bool
    requires { IsStrictlySortedBy pair_cmp (keys_of pairs.now.held.entries) }
    ensures { result ≡ is_freed facts.now.held.entries pairs.now.held.entries name one.now }
{
    if *one == name {
        return false;
    }
    if !is_there_public(facts, one, steps) {
        return false;
    }
    !is_first(pairs, *one, steps)
}

/// Puts those of some names in that are left of public facts and first in no pair. After `Memory` some may be in.
fn put_freed<L: Ledger>(
    facts: &Tracked<Name, Entry>,
    pairs: &Tracked<Pair, ()>,
    names: &mut Tracked<Name, ()>,
    turned: &mut BTreeSet<Name>,
    name: Name,
    some: &[Name],
    steps: &mut Steps<L>,
) -> Result<(), Memory>
    requires pairs { IsStrictlySortedBy pair_cmp (keys_of pairs.now.held.entries) }
    requires names { IsStrictlySortedBy bytes_cmp (keys_of names.old.held.entries) }
    ensures names { OnOk result ((q : List ℕ) → stands names.new.held q ≡ (stands names.old.held q || (has some.now q && is_freed facts.now.held.entries pairs.now.held.entries name q))) }
    ensures turned { OnOk result (StayTurned turned.old.keys names.old.held turned.new.keys names.new.held) }
    ensures ordered { OnOk result (IsStrictlySortedBy bytes_cmp (keys_of names.new.held.entries)) }
    ensures was { names.new.was ≡ names.old.was }
{
    for one in some {
        let wanted = is_left(facts, pairs, name, one, steps);
        put_wanted(names, turned, *one, wanted, steps)?;
    }
    Ok(())
}

/// Takes those of some names out that are first in no pair. After `Memory` some may be out.
fn take_unnamed<L: Ledger>(
    pairs: &Tracked<Pair, ()>,
    names: &mut Tracked<Name, ()>,
    turned: &mut BTreeSet<Name>,
    some: &[Name],
    steps: &mut Steps<L>,
) -> Result<(), Memory>
    requires pairs { IsStrictlySortedBy pair_cmp (keys_of pairs.now.held.entries) }
    requires names { IsStrictlySortedBy bytes_cmp (keys_of names.old.held.entries) }
    ensures names { OnOk result ((q : List ℕ) → stands names.new.held q ≡ (stands names.old.held q && not (has some.now q && not (is_named pairs.now.held.entries q)))) }
    ensures turned { OnOk result (StayTurned turned.old.keys names.old.held turned.new.keys names.new.held) }
    ensures ordered { OnOk result (IsStrictlySortedBy bytes_cmp (keys_of names.new.held.entries)) }
    ensures was { names.new.was ≡ names.old.was }
{
    for one in some {
        let kept = is_first(pairs, *one, steps);
        take_unless(names, turned, *one, kept, steps)?;
    }
    Ok(())
}

/// Puts those of some names in that are another's than this, public and in no pair, and then takes this one out.
pub(crate) fn put_unclustered<L: Ledger>(
    facts: &Tracked<Name, Entry>,
    pairs: &Tracked<Pair, ()>,
    names: &mut Tracked<Name, ()>,
    turned: &mut BTreeSet<Name>,
    name: Name,
    some: &[Name],
    steps: &mut Steps<L>,
) -> Result<(), Memory>
    requires pairs { IsStrictlySortedBy pair_cmp (keys_of pairs.now.held.entries) }
    requires names { IsStrictlySortedBy bytes_cmp (keys_of names.old.held.entries) }
    ensures names { OnOk result (AreFreed facts.now.held pairs.now.held name some.now names.old.held names.new.held) }
    ensures turned { OnOk result (StayTurned turned.old.keys names.old.held turned.new.keys names.new.held) }
    ensures ordered { OnOk result (IsStrictlySortedBy bytes_cmp (keys_of names.new.held.entries)) }
    ensures was { names.new.was ≡ names.old.was }
{
    put_freed(facts, pairs, names, turned, name, some, steps)?;
    take_name(names, turned, name, steps)
}

/// Takes those of some names out that are in no pair, and then puts this one in where it is in a pair.
pub(crate) fn take_missing<L: Ledger>(
    pairs: &Tracked<Pair, ()>,
    names: &mut Tracked<Name, ()>,
    turned: &mut BTreeSet<Name>,
    name: Name,
    some: &[Name],
    steps: &mut Steps<L>,
) -> Result<(), Memory>
    requires pairs { IsStrictlySortedBy pair_cmp (keys_of pairs.now.held.entries) }
    requires names { IsStrictlySortedBy bytes_cmp (keys_of names.old.held.entries) }
    ensures names { OnOk result (AreLost pairs.now.held name some.now names.old.held names.new.held) }
    ensures turned { OnOk result (StayTurned turned.old.keys names.old.held turned.new.keys names.new.held) }
    ensures ordered { OnOk result (IsStrictlySortedBy bytes_cmp (keys_of names.new.held.entries)) }
    ensures was { names.new.was ≡ names.old.was }
{
    take_unnamed(pairs, names, turned, some, steps)?;
    let named = is_first(pairs, name, steps);
    put_wanted(names, turned, name, named, steps)
}

/// Turns a name over where it is wanted.
pub(crate) fn flip_wanted(
    turned: &mut BTreeSet<Name>,
    name: Name,
    wanted: bool,
) -> Result<(), Memory>
    ensures { OnOk result ((q : List ℕ) → has turned.new.keys q ≡ (if (bytes_eq q name && wanted) then not (has turned.old.keys q) else has turned.old.keys q)) }
{
    if !wanted {
        return Ok(());
    }
    flip(turned, name)
}

/// Puts a name in where it is wanted.
pub(crate) fn enter_wanted<L: Ledger>(
    names: &mut Tracked<Name, ()>,
    name: Name,
    wanted: bool,
    steps: &mut Steps<L>,
) -> Result<(), Memory>
    requires { IsStrictlySortedBy bytes_cmp (keys_of names.old.held.entries) }
    ensures names { OnOk result ((q : List ℕ) → stands names.new.held q ≡ (stands names.old.held q || (bytes_eq q name && wanted))) }
    ensures ordered { OnOk result (IsStrictlySortedBy bytes_cmp (keys_of names.new.held.entries)) }
    ensures was { names.new.was ≡ names.old.was }
    ensures most { steps.new ≤ steps.old + 1 }
    ensures err { OnErr result (names.new ≡ names.old) }
{
    if !wanted {
        return Ok(());
    }
    names.put(name, name, (), steps)
}
