//! Makes the facts of parentage: the check-ins with the names of their P cards.
ghost use Rattle.std.specs.Prelude.{◌≡◌, [], IfOk, map};
ghost use Rattle.std.specs.List.Sorted.{IsStrictlySortedBy};
ghost use Rattle.fsl_order.specs.Names.{bytes_cmp};
ghost use Rattle.fsl_cross.specs.Facts.{links_fact};
ghost use Rattle.fsl_cross.specs.Checkins.{links_facts};

use super::append;
use crate::checkin::{manifest, own_names};
use crate::held::Held;
use crate::items::Items;
use fsl_links::{Fact, Links};
use fsl_text::Memory;
use std::alloc::Global;

/// The fact that an artifact gives, where it is a check-in.
pub(crate) fn fact_of(alloc: Global, item: &Held) -> Result<Option<Fact>, Memory>
    ensures { IfOk result (λ fact. fact ≡ links_fact item.now) }
{
    let Some(manifest) = manifest(item.artifact()) else {
        return Ok(None);
    };
    Ok(Some(Fact {
        name: item.name(),
        parents: own_names(alloc, manifest.parents.items())?,
    }))
}

/// The facts that artifacts give. `Memory` is the only error.
fn of_items(alloc: Global, items: &Items) -> Result<Vec<Fact>, Memory>
    ensures { IfOk result (λ facts. facts.items ≡ links_facts items.now) }
{
    let mut facts = Vec::new(alloc);
    for item in items.iter() {
        append(&mut facts, fact_of(alloc, item)?)?;
    }
    Ok(facts)
}

/// The table of parentage. `Memory` is the only error.
pub(crate) fn table(alloc: Global, items: &Items) -> Result<Links, Memory>
    requires { IsStrictlySortedBy bytes_cmp (map (λ i. i.name) items.now) }
    ensures { IfOk result (λ t. t.facts ≡ links_facts items.now) }
{
    Links::build(alloc, &of_items(alloc, items)?)
}
