//! Finds the posts whose chains lead to one.
ghost use Rattle.std.specs.Prelude.{◌≡◌, ◌⊎◌, ◌++◌, ◌∷◌, [], List, ℕ, OnOk, IfOk, MatchOption, None, Some, if◌then◌else◌};
ghost use Rattle.std.specs.List.Sorted.{IsStrictlySortedBy};
ghost use Rattle.std.specs.Map.{keys_of};
ghost use Rattle.fsl_order.specs.Names.{bytes_cmp, has};
ghost use Rattle.fsl_table.specs.Contents.{value_at};
ghost use Rattle.fsl_table.specs.Exact.{pair_cmp};
ghost use Rattle.fsl_table.specs.Pairs.{seconds};
ghost use Rattle.fsl_forum.specs.Reached.{IsReached, IsVisited, AreAffected, stands, end_above as end_over};

use super::rows::end_of;
use fsl_name::Name;
use fsl_table::names::listed;
use fsl_table::{Pair, Tracked};
use fsl_text::{List, Memory, Steps};
use std::alloc::Global;
use std::collections::BTreeSet;
use std::sync::ledger::Ledger;

/// Lets a name wait that wasn't seen yet.
fn visit(seen: &mut BTreeSet<Name>, waiting: &mut Vec<Name>, name: Name) -> Result<(), Memory>
    requires { IsStrictlySortedBy bytes_cmp seen.old.keys }
    ensures visited { OnOk result (IsVisited (name ∷ []) seen.old.keys waiting.old.items seen.new.keys waiting.new.items) }
    ensures rising { OnOk result (IsStrictlySortedBy bytes_cmp seen.new.keys) }
{
    if seen.contains(&name) {
        return Ok(());
    }
    waiting.push(name)?;
    match seen.insert(name) {
        Ok(_) => Ok(()),
        Err(_) => Err(Memory),
    }
}

/// Lets those of some names wait that weren't seen yet.
fn visit_each(
    seen: &mut BTreeSet<Name>,
    waiting: &mut Vec<Name>,
    names: &[Name],
) -> Result<(), Memory>
    requires { IsStrictlySortedBy bytes_cmp seen.old.keys }
    ensures visited { OnOk result (IsVisited names.now seen.old.keys waiting.old.items seen.new.keys waiting.new.items) }
    ensures rising { OnOk result (IsStrictlySortedBy bytes_cmp seen.new.keys) }
{
    for name in names {
        visit(seen, waiting, *name)?;
    }
    Ok(())
}

/// Lets the followers of a post wait that weren't seen yet.
fn visit_followers<L: Ledger>(
    alloc: Global,
    followers: &Tracked<Pair, ()>,
    seen: &mut BTreeSet<Name>,
    waiting: &mut Vec<Name>,
    at: Name,
    steps: &mut Steps<L>,
) -> Result<(), Memory>
    requires followers { IsStrictlySortedBy pair_cmp (keys_of followers.now.held.entries) }
    requires seen { IsStrictlySortedBy bytes_cmp seen.old.keys }
    ensures rising { OnOk result (IsStrictlySortedBy bytes_cmp seen.new.keys) }
    ensures visited { OnOk result (IsVisited (seconds at followers.now.held.entries) seen.old.keys waiting.old.items seen.new.keys waiting.new.items) }
{
    let names = followers.seconds(alloc, at, steps)?;
    visit_each(seen, waiting, names.items())
}

/// Takes the last name out.
fn pop(names: &mut Vec<Name>) -> Option<Name>
    ensures { MatchOption result ((names.old.items ≡ []) × (names.new.items ≡ [])) (λ name. names.old.items ≡ names.new.items ++ name ∷ []) }
{
    names.pop()
}

/// A post and all whose chains lead to it. Each is seen once.
fn reached<L: Ledger>(
    alloc: Global,
    followers: &Tracked<Pair, ()>,
    root: Name,
    steps: &mut Steps<L>,
) -> Result<BTreeSet<Name>, Memory>
    requires { IsStrictlySortedBy pair_cmp (keys_of followers.now.held.entries) }
    ensures { IfOk result (λ names. IsReached followers.now.held.entries root names.keys) }
{
    let mut seen = BTreeSet::new(alloc);
    let mut waiting = Vec::new(alloc);
    visit(&mut seen, &mut waiting, root)?;
    while let Some(at) = pop(&mut waiting) {
        visit_followers(alloc, followers, &mut seen, &mut waiting, at, steps)?;
    }
    Ok(seen)
}

/// One name.
fn alone(alloc: Global, name: Name) -> Result<List<Name>, Memory>
    ensures { IfOk result (λ names. names ≡ name ∷ []) }
{
    let mut names = List::new(alloc);
    names.append(name)?;
    Ok(names)
}

/// The end of the chain that goes on at what may be there, else the post itself.
pub(crate) fn end_above<L: Ledger>(
    ends: &Tracked<Name, Name>,
    name: Name,
    up: &Option<Name>,
    steps: &mut Steps<L>,
) -> Option<Name>
    ensures { result ≡ end_over ends.now.held.entries name up.now }
{
    match up {
        Some(up) => end_of(ends, *up, steps),
        None => Some(name),
    }
}

/// The posts whose ends may change, ascending: a post and all whose chains lead to it; or it alone, where it neither has an end nor
/// gets one, since these have none either then.
pub(crate) fn affected<L: Ledger>(
    alloc: Global,
    followers: &Tracked<Pair, ()>,
    ends: &Tracked<Name, Name>,
    name: Name,
    near: &Option<Name>,
    steps: &mut Steps<L>,
) -> Result<List<Name>, Memory>
    requires { IsStrictlySortedBy pair_cmp (keys_of followers.now.held.entries) }
    ensures affected { IfOk result (λ names. AreAffected followers.now.held.entries ends.now.held.entries name near.now names) }
    ensures rising { IfOk result (λ names. IsStrictlySortedBy bytes_cmp names) }
{
    if near.is_none() && end_of(ends, name, steps).is_none() {
        return alone(alloc, name);
    }
    let seen = reached(alloc, followers, name, steps)?;
    listed(alloc, &seen)
}

/// Whether a name is among some.
fn stands_in(names: &[Name], name: Name) -> bool
    ensures { result ≡ has names.now name }
{
    names.contains(&name)
}

/// The end that a post gets: that above it, unless the chain comes back to it.
pub(crate) fn end_for(names: &[Name], up: &Option<Name>, near: Option<Name>) -> Option<Name>
    ensures { result ≡ stands names.now up.now near }
{
    match up {
        Some(up) => {
            if stands_in(names, *up) {
                return None;
            }
            near
        }
        None => near,
    }
}
