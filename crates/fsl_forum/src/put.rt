//! Puts a new post in, or replaces one.
ghost use Rattle.std.specs.Prelude.{◌≡◌, OnOk, IfOk, map};
ghost use Rattle.std.specs.List.Sorted.{IsStrictlySortedBy};
ghost use Rattle.std.specs.Map.{keys_of};
ghost use Rattle.fsl_order.specs.Names.{bytes_cmp};
ghost use Rattle.fsl_table.specs.Contents.{with_entry};
ghost use Rattle.fsl_table.specs.Exact.{pair_cmp};
ghost use Rattle.fsl_forum.specs.Held.{AreEnded, HaveChanged, IsEnded, IsKept, IsLinked, next_at, node_of, rows_before, rows_of};
ghost use Rattle.fsl_forum.specs.Reached.{IsPlanned};
ghost use Rattle.fsl_forum.specs.Rows.{noted_in, row_in};

use super::Fact;
use super::maps::Maps;
use super::node::Node;
use super::reached::{affected, end_above, end_for};
use super::rows::{Noted, move_each, note_rows, relink};
use fsl_name::Name;
use fsl_table::{Pair, Tracked};
use fsl_text::{List, Memory, Steps};
use std::alloc::Global;
use std::sync::ledger::Ledger;

/// What is to be written for a post: the names whose ends are to be one, and that end; and the rows that these names have before.
#[derive(Drop)]
pub(crate) struct Plan {
    pub names: List<Name>,
    pub end: Option<Name>,
    pub noted: Vec<Noted>,
}

/// Puts the end of the chain of a name, or takes it out where the chain is broken.
pub(crate) fn set_end<L: Ledger>(
    ends: &mut Tracked<Name, Name>,
    name: Name,
    end: &Option<Name>,
    steps: &mut Steps<L>,
) -> Result<(), Memory>
    requires { IsStrictlySortedBy bytes_cmp (keys_of ends.old.held.entries) }
    ensures ordered { OnOk result (IsStrictlySortedBy bytes_cmp (keys_of ends.new.held.entries)) }
    ensures ends { OnOk result (IsEnded name end.now ends.old.held.entries ends.new.held.entries) }
    ensures was { ends.new.was ≡ ends.old.was }
{
    match end {
        Some(end) => ends.put(name, name, *end, steps),
        None => ends.remove(name, steps),
    }
}

/// The same for some names.
fn set_ends<L: Ledger>(
    ends: &mut Tracked<Name, Name>,
    names: &[Name],
    end: &Option<Name>,
    steps: &mut Steps<L>,
) -> Result<(), Memory>
    requires { IsStrictlySortedBy bytes_cmp (keys_of ends.old.held.entries) }
    ensures ordered { OnOk result (IsStrictlySortedBy bytes_cmp (keys_of ends.new.held.entries)) }
    ensures ends { OnOk result (AreEnded names.now end.now ends.old.held.entries ends.new.held.entries) }
    ensures was { ends.new.was ≡ ends.old.was }
{
    for name in names {
        set_end(ends, *name, end, steps)?;
    }
    Ok(())
}

/// The next post of a name.
fn next_in<L: Ledger>(posts: &Tracked<Name, Node>, name: Name, steps: &mut Steps<L>) -> Option<Name>
    ensures { result ≡ next_at posts.now.held.entries name }
{
    match posts.get(&name, steps) {
        Some(node) => node.next(),
        None => None,
    }
}

/// What is to be written where the post of a name has this next post from now on.
fn planned<L: Ledger>(
    alloc: Global,
    maps: &Maps,
    name: Name,
    up: &Option<Name>,
    steps: &mut Steps<L>,
) -> Result<Plan, Memory>
    requires { IsStrictlySortedBy pair_cmp (keys_of maps.now.followers.held.entries) }
    ensures step { IfOk result (λ plan. IsPlanned maps.now.followers.held.entries maps.now.ends.held.entries name up.now plan.names plan.end) }
    ensures rising { IfOk result (λ plan. IsStrictlySortedBy bytes_cmp plan.names) }
    ensures noted { IfOk result (λ plan. plan.noted.items ≡ map (noted_in (row_in maps.now.posts.held.entries maps.now.ends.held.entries)) plan.names) }
{
    let near = end_above(&maps.ends, name, up, steps);
    let names = affected(alloc, &maps.followers, &maps.ends, name, &near, steps)?;
    let end = end_for(names.items(), up, near);
    match note_rows(alloc, &maps.posts, &maps.ends, names.items(), steps) {
        Ok(noted) => Ok(Plan { names, end, noted }),
        Err(Memory) => {
            drop(names);
            Err(Memory)
        }
    }
}

/// Puts the post, the pair of it and its next one, and the ends of the plan.
fn write<L: Ledger>(
    posts: &mut Tracked<Name, Node>,
    followers: &mut Tracked<Pair, ()>,
    ends: &mut Tracked<Name, Name>,
    fact: Fact,
    plan: &Plan,
    steps: &mut Steps<L>,
) -> Result<(), Memory>
    requires followers { IsStrictlySortedBy pair_cmp (keys_of followers.old.held.entries) }
    requires ends { IsStrictlySortedBy bytes_cmp (keys_of ends.old.held.entries) }
    ensures posts { OnOk result (posts.new.held.entries ≡ with_entry bytes_cmp fact.name (node_of fact) posts.old.held.entries) }
    ensures followers { OnOk result (IsLinked fact posts.old.held.entries followers.old.held.entries followers.new.held.entries) }
    ensures ordered { OnOk result (IsStrictlySortedBy bytes_cmp (keys_of ends.new.held.entries)) }
    ensures ends { OnOk result (AreEnded plan.now.names plan.now.end ends.old.held.entries ends.new.held.entries) }
    ensures was_posts { posts.new.was ≡ posts.old.was }
    ensures was_followers { followers.new.was ≡ followers.old.was }
    ensures was_ends { ends.new.was ≡ ends.old.was }
{
    let Fact {
        name,
        date,
        user,
        root,
        reply,
        prior,
    } = fact;
    let node = Node {
        date,
        user,
        root,
        reply,
        prior,
    };
    let old = next_in(posts, name, steps);
    relink(followers, name, old, node.next(), steps)?;
    set_ends(ends, plan.names.items(), &plan.end, steps)?;
    posts.put(name, name, node, steps)
}

/// Puts a post, in the place of that of its name where there is one, and tells the names whose rows differ, ascending. After `Memory`
/// a part may be done.
pub(crate) fn put<L: Ledger>(
    alloc: Global,
    maps: &mut Maps,
    fact: Fact,
    steps: &mut Steps<L>,
) -> Result<List<Name>, Memory>
    requires kept { IsKept (rows_of maps.old) }
    ensures posts { OnOk result (maps.new.posts.held.entries ≡ with_entry bytes_cmp fact.name (node_of fact) maps.old.posts.held.entries) }
    ensures kept { OnOk result (IsKept (rows_of maps.new)) }
    ensures changed { IfOk result (λ changed. HaveChanged maps.old.posts.held.entries maps.new.posts.held.entries changed) }
    ensures was { rows_before maps.new ≡ rows_before maps.old }
{
    match planned(alloc, maps, fact.name, &fact.next(), steps) {
        Ok(plan) => match write(
            &mut maps.posts,
            &mut maps.followers,
            &mut maps.ends,
            fact,
            &plan,
            steps,
        ) {
            Ok(()) => {
                let changed = move_each(
                    alloc,
                    &maps.posts,
                    &maps.ends,
                    &mut maps.placed,
                    &plan.noted,
                    steps,
                );
                drop(plan);
                changed
            }
            Err(Memory) => {
                drop(plan);
                Err(Memory)
            }
        },
        Err(Memory) => {
            drop(fact);
            Err(Memory)
        }
    }
}
