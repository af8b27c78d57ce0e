//! Makes the facts of clusters: the members of each artifact, and the names that it refers to.
ghost use Rattle.std.specs.Prelude.{◌≡◌, [], IfOk, map};
ghost use Rattle.std.specs.List.Sorted.{IsStrictlySortedBy};
ghost use Rattle.fsl_order.specs.Names.{bytes_cmp};
ghost use Rattle.fsl_cross.specs.Facts.{cluster_fact};
ghost use Rattle.fsl_cross.specs.Tables.{cluster_facts};

use crate::held::Held;
use crate::items::Items;
use fsl_artifact::{members, refs};
use fsl_cluster::{Clusters, Fact};
use fsl_text::{List, Memory};
use std::alloc::Global;

/// The fact that an artifact gives.
pub(crate) fn fact_of(alloc: Global, item: &Held) -> Result<Fact, Memory>
    ensures { IfOk result (λ fact. fact ≡ cluster_fact item.now) }
{
    Ok(Fact {
        name: item.name(),
        private: item.is_private(),
        members: members(alloc, item.artifact())?,
        refs: refs(alloc, item.artifact())?,
    })
}

/// The facts that artifacts give. `Memory` is the only error.
fn of_items(alloc: Global, items: &Items) -> Result<Vec<Fact>, Memory>
    ensures { IfOk result (λ facts. facts.items ≡ cluster_facts items.now) }
{
    let mut facts = Vec::new(alloc);
    for item in items.iter() {
        facts.push(fact_of(alloc, item)?)?;
    }
    Ok(facts)
}

/// The table of clusters. `Memory` is the only error.
pub(crate) fn table(alloc: Global, items: &Items) -> Result<Clusters, Memory>
    requires { IsStrictlySortedBy bytes_cmp (map (λ i. i.name) items.now) }
    ensures { IfOk result (λ t. t.facts ≡ cluster_facts items.now) }
{
    let facts = of_items(alloc, items)?;
    Clusters::from_facts(alloc, List::from_vec(facts))
}
