//! Builds the tables of parentage, tags and leaves.
ghost use Rattle.std.specs.Prelude.{◌≡◌, [], IfOk, map};
ghost use Rattle.std.specs.List.Sorted.{IsStrictlySortedBy};
ghost use Rattle.fsl_order.specs.Names.{bytes_cmp};
ghost use Rattle.fsl_cross.specs.Checkins.{links_facts, tags_facts};
ghost use Rattle.fsl_cross.specs.Tables.{leaves_facts};

use super::beside::beside;
use super::facts;
use super::items::Items;
use fsl_leaves::Leaves;
use fsl_links::Links;
use fsl_tags::Tags;
use fsl_text::Memory;
use std::alloc::Global;

/// What is told of check-ins from their parents and from tags: each table needs the ones before it.
#[derive(Drop)]
pub(crate) struct History {
    pub(crate) links: Links,
    pub(crate) tags: Tags,
    pub(crate) leaves: Leaves,
}

impl History {
    /// The tables of some artifacts. `Memory` is the only error.
    pub(crate) fn build(alloc: Global, items: &Items) -> Result<History, Memory>
        requires { IsStrictlySortedBy bytes_cmp (map (λ i. i.name) items.now) }
        ensures links { IfOk result (λ t. t.links.facts ≡ links_facts items.now) }
        ensures tags { IfOk result (λ t. t.tags.facts ≡ tags_facts items.now) }
        ensures leaves { IfOk result (λ t. t.leaves.facts ≡ leaves_facts items.now) }
    {
        let links = facts::links::table(alloc, items)?;
        let tags = facts::tags::table(alloc, &links, items);
        let near = beside(links, tags)?;
        let leaves = facts::leaves::table(alloc, &near.1, items);
        let ((links, tags), leaves) = beside(near, leaves)?;
        Ok(History {
            links,
            tags,
            leaves,
        })
    }
}
