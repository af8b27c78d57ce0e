//! Makes the facts of threads: forum posts with the names of their G, I and P cards.
ghost use Rattle.std.specs.Prelude.{◌≡◌, [], IfOk, map};
ghost use Rattle.std.specs.List.Sorted.{IsStrictlySortedBy};
ghost use Rattle.fsl_order.specs.Names.{bytes_cmp};
ghost use Rattle.fsl_cross.specs.Facts.{forum_fact};
ghost use Rattle.fsl_cross.specs.Tables.{forum_facts};

use super::append;
use crate::held::Held;
use crate::items::Items;
use fsl_artifact::Artifact;
use fsl_forum::{Fact, Threads};
use fsl_text::{Memory, Text};
use std::alloc::Global;

/// The fact that an artifact gives, where it is a forum post.
pub(crate) fn fact_of(alloc: Global, item: &Held) -> Result<Option<Fact>, Memory>
    ensures { IfOk result (λ fact. fact ≡ forum_fact item.now) }
{
    match item.artifact() {
        Artifact::Forum(post) => Ok(Some(Fact {
            name: item.name(),
            date: post.date,
            user: Text::of(alloc, post.user.bytes())?,
            root: post.root,
            reply: post.reply,
            prior: post.prior,
        })),
        _ => Ok(None),
    }
}

/// The facts that artifacts give. `Memory` is the only error.
pub(crate) fn of_items(alloc: Global, items: &Items) -> Result<Vec<Fact>, Memory>
    ensures { IfOk result (λ facts. facts.items ≡ forum_facts items.now) }
{
    let mut facts = Vec::new(alloc);
    for item in items.iter() {
        append(&mut facts, fact_of(alloc, item)?)?;
    }
    Ok(facts)
}

/// The table of forum posts. `Memory` is the only error.
pub(crate) fn table(alloc: Global, items: &Items) -> Result<Threads, Memory>
    requires { IsStrictlySortedBy bytes_cmp (map (λ i. i.name) items.now) }
    ensures { IfOk result (λ t. t.facts ≡ forum_facts items.now) }
{
    Threads::build(alloc, &of_items(alloc, items)?)
}
