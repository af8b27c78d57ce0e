//! Finds where lines of check-ins in one branch end, and keeps the set of those ends.
ghost use Rattle.std.specs.Prelude.{ℕ, List, Bool, ◌≡◌, ◌+◌, ◌*◌, ◌≤◌, length, OnOk, IfOk, not, is_some, ◌&&◌, if◌then◌else◌};
ghost use Rattle.std.specs.Str.{bytes_eq};
ghost use Rattle.std.specs.List.Sorted.{IsStrictlySortedBy};
ghost use Rattle.std.specs.Map.{keys_of};
ghost use Rattle.fsl_order.specs.Names.{bytes_cmp, has};
ghost use Rattle.fsl_table.specs.Contents.{value_at};
ghost use Rattle.fsl_leaves.specs.Keys.{kin_cmp, walked};
ghost use Rattle.fsl_leaves.specs.Kept.{is_in, counted, differs, stands, StayFlipped};

use crate::branch::Branch;
use crate::kin::{Twig, is_continued};
use crate::line::Line;
use fsl_name::Name;
use fsl_table::names::flip;
use fsl_table::{Tracked, Within};
use fsl_text::{Memory, Steps};
use std::collections::BTreeSet;
use std::sync::ledger::Ledger;

/// Whether the check-in of a name is there, in a branch.
fn is_in<L: Ledger>(
    facts: &Tracked<Name, Line>,
    name: Name,
    branch: &Branch,
    steps: &mut Steps<L>,
) -> bool
    ensures is { result ≡ is_in (value_at bytes_cmp name facts.now.held.entries) branch.now }
    ensures cost { steps.new ≡ steps.old + 1 }
{
    match facts.get(&name, steps) {
        None => false,
        Some(line) => line.branch == *branch,
    }
}

/// Whether a name has no child in a branch. `Memory` is the only error.
fn is_end<L: Ledger>(
    children: &Tracked<Within<Twig, Name>, ()>,
    name: Name,
    branch: &Branch,
    steps: &mut Steps<L>,
) -> Result<bool, Memory>
    requires { IsStrictlySortedBy kin_cmp (keys_of children.now.held.entries) }
    ensures is { IfOk result (λ ended. ended ≡ not (walked children.now.held.entries name branch.now)) }
{
    let continued = is_continued(children, name, branch, steps)?;
    Ok(!continued)
}

/// Whether the check-in of a name is there and has no child in its own branch. `Memory` is the only error.
fn has_ended<L: Ledger>(
    facts: &Tracked<Name, Line>,
    children: &Tracked<Within<Twig, Name>, ()>,
    name: Name,
    steps: &mut Steps<L>,
) -> Result<bool, Memory>
    requires { IsStrictlySortedBy kin_cmp (keys_of children.now.held.entries) }
    ensures is { IfOk result (λ ended. ended ≡ counted facts.now.held.entries children.now.held.entries name) }
{
    match facts.get(&name, steps) {
        None => Ok(false),
        Some(line) => is_end(children, name, &line.branch, steps),
    }
}

/// Whether a name is among the leaves.
fn is_leaf<L: Ledger>(leaves: &Tracked<Name, ()>, name: &Name, steps: &mut Steps<L>) -> bool
    ensures is { result ≡ is_some (value_at bytes_cmp name.now leaves.now.held.entries) }
    ensures cost { steps.new ≡ steps.old + 1 }
{
    match leaves.get(name, steps) {
        None => false,
        Some(_) => true,
    }
}

/// Whether two answers differ.
fn differ(a: bool, b: bool) -> bool
    ensures { result ≡ differs a b }
{
    if a { !b } else { b }
}

/// Puts a name among the leaves, or takes it out.
fn write_leaf<L: Ledger>(
    leaves: &mut Tracked<Name, ()>,
    name: Name,
    wanted: bool,
    steps: &mut Steps<L>,
) -> Result<(), Memory>
    requires { IsStrictlySortedBy bytes_cmp (keys_of leaves.old.held.entries) }
    ensures leaves { OnOk result ((q : List ℕ) → stands leaves.new.held q ≡ (if bytes_eq q name then wanted else stands leaves.old.held q)) }
    ensures ordered { OnOk result (IsStrictlySortedBy bytes_cmp (keys_of leaves.new.held.entries)) }
    ensures was { leaves.new.was ≡ leaves.old.was }
    ensures most { steps.new ≤ steps.old + 1 }
    ensures back { leaves.new.back ≤ leaves.old.back + 1 }
{
    if wanted {
        leaves.put(name, name, (), steps)
    } else {
        leaves.remove(name, steps)
    }
}

/// Makes a name a leaf or none, and notes it where it was the other. After `Memory` a part may be done.
pub(crate) fn set_leaf<L: Ledger>(
    leaves: &mut Tracked<Name, ()>,
    changed: &mut BTreeSet<Name>,
    name: Name,
    wanted: bool,
    steps: &mut Steps<L>,
) -> Result<(), Memory>
    requires { IsStrictlySortedBy bytes_cmp (keys_of leaves.old.held.entries) }
    ensures leaves { OnOk result ((q : List ℕ) → stands leaves.new.held q ≡ (if bytes_eq q name then wanted else stands leaves.old.held q)) }
    ensures flips { OnOk result (StayFlipped changed.old.keys leaves.old.held changed.new.keys leaves.new.held) }
    ensures ordered { OnOk result (IsStrictlySortedBy bytes_cmp (keys_of leaves.new.held.entries)) }
    ensures was { leaves.new.was ≡ leaves.old.was }
    ensures most { steps.new ≤ steps.old + 2 }
    ensures back { leaves.new.back ≤ leaves.old.back + 1 }
{
    let there = is_leaf(leaves, &name, steps);
    if !differ(there, wanted) {
        return Ok(());
    }
    flip(changed, name)?;
    write_leaf(leaves, name, wanted, steps)
}

/// Takes a parent out of the leaves, where it is in the branch of a new child.
fn end_leaf<L: Ledger>(
    facts: &Tracked<Name, Line>,
    leaves: &mut Tracked<Name, ()>,
    changed: &mut BTreeSet<Name>,
    parent: Name,
    branch: &Branch,
    steps: &mut Steps<L>,
) -> Result<(), Memory>
    requires { IsStrictlySortedBy bytes_cmp (keys_of leaves.old.held.entries) }
    ensures leaves { OnOk result ((q : List ℕ) → stands leaves.new.held q ≡ (stands leaves.old.held q && not (bytes_eq q parent && is_in (value_at bytes_cmp q facts.now.held.entries) branch.now))) }
    ensures flips { OnOk result (StayFlipped changed.old.keys leaves.old.held changed.new.keys leaves.new.held) }
    ensures ordered { OnOk result (IsStrictlySortedBy bytes_cmp (keys_of leaves.new.held.entries)) }
    ensures was { leaves.new.was ≡ leaves.old.was }
    ensures most { steps.new ≤ steps.old + 3 }
    ensures back { leaves.new.back ≤ leaves.old.back + 1 }
{
    if !is_in(facts, parent, branch, steps) {
        return Ok(());
    }
    set_leaf(leaves, changed, parent, false, steps)
}

/// Takes the parents out of the leaves that are in the branch of a new child. After `Memory` a part may be done.
pub(crate) fn end_leaves<L: Ledger>(
    facts: &Tracked<Name, Line>,
    leaves: &mut Tracked<Name, ()>,
    changed: &mut BTreeSet<Name>,
    parents: &[Name],
    branch: &Branch,
    steps: &mut Steps<L>,
) -> Result<(), Memory>
    requires { IsStrictlySortedBy bytes_cmp (keys_of leaves.old.held.entries) }
    ensures leaves { OnOk result ((q : List ℕ) → stands leaves.new.held q ≡ (stands leaves.old.held q && not (has parents.now q && is_in (value_at bytes_cmp q facts.now.held.entries) branch.now))) }
    ensures flips { OnOk result (StayFlipped changed.old.keys leaves.old.held changed.new.keys leaves.new.held) }
    ensures ordered { OnOk result (IsStrictlySortedBy bytes_cmp (keys_of leaves.new.held.entries)) }
    ensures was { leaves.new.was ≡ leaves.old.was }
    ensures most { steps.new ≤ steps.old + 3 * length parents.now }
    ensures back { leaves.new.back ≤ leaves.old.back + length parents.now }
{
    for parent in parents {
        end_leaf(facts, leaves, changed, *parent, branch, steps)?;
    }
    Ok(())
}

/// Makes each of some names a leaf or none, as its children tell. After `Memory` a part may be done.
pub(crate) fn recount<L: Ledger>(
    facts: &Tracked<Name, Line>,
    children: &Tracked<Within<Twig, Name>, ()>,
    leaves: &mut Tracked<Name, ()>,
    changed: &mut BTreeSet<Name>,
    names: &[Name],
    steps: &mut Steps<L>,
) -> Result<(), Memory>
    requires leaves { IsStrictlySortedBy bytes_cmp (keys_of leaves.old.held.entries) }
    requires pairs { IsStrictlySortedBy kin_cmp (keys_of children.now.held.entries) }
    ensures leaves { OnOk result ((q : List ℕ) → stands leaves.new.held q ≡ (if has names.now q then counted facts.now.held.entries children.now.held.entries q else stands leaves.old.held q)) }
    ensures flips { OnOk result (StayFlipped changed.old.keys leaves.old.held changed.new.keys leaves.new.held) }
    ensures ordered { OnOk result (IsStrictlySortedBy bytes_cmp (keys_of leaves.new.held.entries)) }
    ensures was { leaves.new.was ≡ leaves.old.was }
{
    for name in names {
        let ended = has_ended(facts, children, *name, steps)?;
        set_leaf(leaves, changed, *name, ended, steps)?;
    }
    Ok(())
}
