//! Builds all maps from posts at once: first the ends of all chains, then each post, once.
ghost use Rattle.std.specs.Prelude.{◌≡◌, [], OnOk, IfOk, IfSome, None, map};
ghost use Rattle.std.specs.List.Sorted.{IsStrictlySortedBy};
ghost use Rattle.std.specs.Map.{keys_of};
ghost use Rattle.fsl_order.specs.Maps.{value_at as found_at};
ghost use Rattle.fsl_order.specs.Names.{bytes_cmp};
ghost use Rattle.fsl_order.specs.Rows.{by_name, AreDistinct};
ghost use Rattle.fsl_table.specs.Contents.{with_entry};
ghost use Rattle.fsl_table.specs.Exact.{pair_cmp};
ghost use Rattle.fsl_forum.specs.Held.{AreMoved, IsEnded, IsKept, facts_of, node_of, rows_of};
ghost use Rattle.fsl_forum.specs.Kept.{place_by};
ghost use Rattle.fsl_forum.specs.Threads.{next as next_post};

use super::Fact;
use super::chains::{Ends, ends_of};
use super::maps::Maps;
use super::node::Node;
use super::put::set_end;
use super::rows::relink;
use fsl_name::Name;
use fsl_table::{Pair, Tracked};
use fsl_text::{Memory, Steps, Text};
use std::alloc::Global;
use std::sync::ledger::Ledger;

/// The end that is known of a post.
fn known_end(ends: &Ends, name: Name) -> Option<Name>
    ensures { IfSome (found_at ends.now.entries name) (λ end. result ≡ end) }
{
    *ends.get(&name)?
}

/// The post without its name. `Memory` is the only error.
fn node_for(alloc: Global, fact: &Fact) -> Result<Node, Memory>
    ensures { IfOk result (λ node. node ≡ node_of fact.now) }
{
    Ok(Node {
        date: fact.date,
        user: Text::of(alloc, fact.user.bytes())?,
        root: fact.root,
        reply: fact.reply,
        prior: fact.prior,
    })
}

/// Puts a new post whose chain has this end, and the pair of it and its thread.
fn place_new<L: Ledger>(
    alloc: Global,
    posts: &mut Tracked<Name, Node>,
    placed: &mut Tracked<Pair, ()>,
    fact: &Fact,
    end: Option<Name>,
    steps: &mut Steps<L>,
) -> Result<(), Memory>
    requires { IsStrictlySortedBy pair_cmp (keys_of placed.old.held.entries) }
    ensures posts { OnOk result (posts.new.held.entries ≡ with_entry bytes_cmp fact.now.name (node_of fact.now) posts.old.held.entries) }
    ensures placed { OnOk result (AreMoved fact.now.name None (place_by end fact.now) placed.old.held.entries placed.new.held.entries) }
{
    let node = node_for(alloc, fact)?;
    let place = node.place(fact.name, end);
    match relink(placed, fact.name, None, place, steps) {
        Ok(()) => posts.put(fact.name, fact.name, node, steps),
        Err(Memory) => {
            drop(node);
            Err(Memory)
        }
    }
}

/// Puts a new post whose chain has this end. What would take it out again isn't wanted.
fn fill_one<L: Ledger>(
    alloc: Global,
    maps: &mut Maps,
    fact: &Fact,
    end: Option<Name>,
    steps: &mut Steps<L>,
) -> Result<(), Memory>
    requires followers { IsStrictlySortedBy pair_cmp (keys_of maps.old.followers.held.entries) }
    requires ends { IsStrictlySortedBy bytes_cmp (keys_of maps.old.ends.held.entries) }
    requires placed { IsStrictlySortedBy pair_cmp (keys_of maps.old.placed.held.entries) }
    ensures posts { OnOk result (maps.new.posts.held.entries ≡ with_entry bytes_cmp fact.now.name (node_of fact.now) maps.old.posts.held.entries) }
    ensures followers { OnOk result (AreMoved fact.now.name None (next_post fact.now) maps.old.followers.held.entries maps.new.followers.held.entries) }
    ensures ordered { OnOk result (IsStrictlySortedBy bytes_cmp (keys_of maps.new.ends.held.entries)) }
    ensures ends { OnOk result (IsEnded fact.now.name end maps.old.ends.held.entries maps.new.ends.held.entries) }
    ensures placed { OnOk result (AreMoved fact.now.name None (place_by end fact.now) maps.old.placed.held.entries maps.new.placed.held.entries) }
{
    relink(&mut maps.followers, fact.name, None, fact.next(), steps)?;
    set_end(&mut maps.ends, fact.name, &end, steps)?;
    place_new(alloc, &mut maps.posts, &mut maps.placed, fact, end, steps)
}

/// Fills empty maps from posts.
pub(crate) fn fill<L: Ledger>(
    alloc: Global,
    facts: &[Fact],
    maps: &mut Maps,
    steps: &mut Steps<L>,
) -> Result<(), Memory>
    requires distinct { AreDistinct (map (λ f. f.name) facts.now) }
    requires posts { maps.old.posts.held.entries ≡ [] }
    requires followers { maps.old.followers.held.entries ≡ [] }
    requires ends { maps.old.ends.held.entries ≡ [] }
    requires placed { maps.old.placed.held.entries ≡ [] }
    ensures kept { OnOk result (IsKept (rows_of maps.new)) }
    ensures facts { OnOk result (facts_of maps.new.posts.held.entries ≡ by_name (λ f. f.name) facts.now) }
{
    let found = ends_of(alloc, facts)?;
    let mut left = facts.len();
    while left > 0 {
        left -= 1;
        let fact = &facts[left];
        let end = known_end(&found, fact.name);
        fill_one(alloc, maps, fact, end, steps)?;
        maps.begin();
    }
    Ok(())
}
