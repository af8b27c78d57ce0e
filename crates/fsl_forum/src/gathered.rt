//! Gathers the posts of a thread.
ghost use Rattle.std.specs.Prelude.{◌≡◌, ◌∷◌, [], IfOk, OnOk, MatchOption, map};
ghost use Rattle.std.specs.Map.{values_of};
ghost use Rattle.fsl_forum.specs.Held.{facts_of};
ghost use Rattle.fsl_forum.specs.Rows.{by_date, with_post};
ghost use Rattle.fsl_forum.specs.Threads.{post as post_named, shown};

use super::Post;
use super::node::Node;
use fsl_date::Moment;
use fsl_name::Name;
use fsl_table::Tracked;
use fsl_text::{List, Memory, Steps};
use std::alloc::Global;
use std::collections::BTreeMap;
use std::sync::ledger::Ledger;

/// The posts of one thread, by date and name.
type Thread = BTreeMap<(Moment, Name), Post>;

/// Puts the post of a name in, where it is there.
fn gather_one<L: Ledger>(
    alloc: Global,
    posts: &Tracked<Name, Node>,
    thread: &mut Thread,
    name: Name,
    steps: &mut Steps<L>,
) -> Result<(), Memory>
    ensures { OnOk result (thread.new.entries ≡ with_post (post_named (facts_of posts.now.held.entries) name) thread.old.entries) }
{
    let Some(node) = posts.get(&name, steps) else {
        return Ok(());
    };
    let post = node.post(alloc, name)?;
    match thread.insert((node.date, name), post) {
        Ok(_) => Ok(()),
        Err(_) => Err(Memory),
    }
}

/// The posts of some names, by date and name.
fn gathered<L: Ledger>(
    alloc: Global,
    posts: &Tracked<Name, Node>,
    names: &[Name],
    steps: &mut Steps<L>,
) -> Result<Thread, Memory>
    ensures { IfOk result (λ thread. thread.entries ≡ map (λ e. (e.0, shown e.1)) (by_date posts.now.held.entries names.now)) }
{
    let mut thread = BTreeMap::new(alloc);
    let mut left = names.len();
    while left > 0 {
        left -= 1;
        gather_one(alloc, posts, &mut thread, names[left], steps)?;
    }
    Ok(thread)
}

/// The first of what is left.
fn pop(thread: &mut Thread) -> Option<((Moment, Name), Post)>
    ensures { MatchOption result ((thread.old.entries ≡ []) × (thread.new.entries ≡ [])) (λ e. thread.old.entries ≡ e ∷ thread.new.entries) }
{
    thread.pop_first()
}

/// The posts, in their order. They are moved.
fn listed(alloc: Global, thread: Thread) -> Result<List<Post>, Memory>
    ensures { IfOk result (λ posts. posts ≡ values_of thread.entries) }
{
    let mut left = thread;
    let mut posts = List::new(alloc);
    while let Some((_, post)) = pop(&mut left) {
        posts.append(post)?;
    }
    Ok(posts)
}

/// The posts of some names by date, and at one date by name.
pub(crate) fn posts_of<L: Ledger>(
    alloc: Global,
    posts: &Tracked<Name, Node>,
    names: &[Name],
    steps: &mut Steps<L>,
) -> Result<List<Post>, Memory>
    ensures { IfOk result (λ list. list ≡ map shown (map (λ e. e.1) (by_date posts.now.held.entries names.now))) }
{
    listed(alloc, gathered(alloc, posts, names, steps)?)
}
