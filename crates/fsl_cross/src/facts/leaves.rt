//! Makes the facts of leaves: the check-ins with the names of their P cards and their branches.
ghost use Rattle.std.specs.Prelude.{◌≡◌, [], IfOk, map, filter_map};
ghost use Rattle.std.specs.List.Sorted.{IsStrictlySortedBy};
ghost use Rattle.fsl_order.specs.Names.{bytes_cmp};
ghost use Rattle.fsl_cross.specs.Checkins.{tags_facts};
ghost use Rattle.fsl_cross.specs.Tables.{leaves_facts};
ghost use Rattle.fsl_cross.specs.Inside.{leaves_fact_over};

use super::append;
use crate::checkin::{branch, manifest, own_names};
use crate::held::Held;
use crate::items::Items;
use fsl_leaves::{Fact, Leaves};
use fsl_tags::Tags;
use fsl_text::{List, Memory, Text};
use std::alloc::Global;

/// The fact that an artifact gives, where it is a check-in.
pub(crate) fn fact_of(alloc: Global, tags: &Tags, item: &Held) -> Result<Option<Fact>, Memory>
    ensures { IfOk result (λ fact. fact ≡ leaves_fact_over tags.now.facts item.now) }
{
    let Some(manifest) = manifest(item.artifact()) else {
        return Ok(None);
    };
    Ok(Some(Fact {
        name: item.name(),
        parents: own_names(alloc, manifest.parents.items())?,
        branch: Text::of(alloc, branch(tags, item.name()))?,
    }))
}

/// The facts that artifacts give over the table of their tags. `Memory` is the only error.
fn of_items(alloc: Global, tags: &Tags, items: &Items) -> Result<Vec<Fact>, Memory>
    ensures { IfOk result (λ facts. facts.items ≡ filter_map (leaves_fact_over tags.now.facts) items.now) }
{
    let mut facts = Vec::new(alloc);
    for item in items.iter() {
        append(&mut facts, fact_of(alloc, tags, item)?)?;
    }
    Ok(facts)
}

/// The table of leaves, by the table of tags. `Memory` is the only error.
pub(crate) fn table(alloc: Global, tags: &Tags, items: &Items) -> Result<Leaves, Memory>
    requires rising { IsStrictlySortedBy bytes_cmp (map (λ i. i.name) items.now) }
    requires tags { tags.now.facts ≡ tags_facts items.now }
    ensures { IfOk result (λ t. t.facts ≡ leaves_facts items.now) }
{
    let facts = of_items(alloc, tags, items)?;
    Leaves::from_facts(alloc, List::from_vec(facts))
}
