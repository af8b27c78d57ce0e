//! One artifact more in the table of clusters, and an artifact that becomes public.
ghost use Rattle.std.specs.Prelude.{◌≡◌, ◌≤◌, ◌+◌, ◌*◌, ◌∷◌, length, true, false, Some, map, OnOk};
ghost use Rattle.fsl_order.specs.Names.{has};
ghost use Rattle.fsl_order.specs.Rows.{by_name, named};
ghost use Rattle.fsl_artifact.specs.References.{members, references};
ghost use Rattle.fsl_cross.specs.Marks.{private_at};
ghost use Rattle.fsl_cross.specs.Mixed.{IsIn};
ghost use Rattle.fsl_cross.specs.Tables.{cluster_facts, without};
ghost use Rattle.fsl_cross.specs.Trails.{Led};

use crate::facts::clusters::fact_of;
use crate::held::Held;
use crate::items::Items;
use crate::reversible::keep;
use fsl_cluster::{Clusters, Fact, Undo};
use fsl_text::{List, Memory, Steps};
use std::alloc::Global;
use std::sync::ledger::Ledger;

/// Adds a fact, and keeps what takes that back. `Memory` is the only error.
fn put<L: Ledger>(
    alloc: Global,
    clusters: &mut Clusters,
    undos: &mut List<Undo>,
    fact: Fact,
    steps: &mut Steps<L>,
) -> Result<(), Memory>
    requires { has (map (λ f. f.name) clusters.old.facts) fact.name ≡ false }
    ensures facts { OnOk result (clusters.new.facts ≡ by_name (λ f. f.name) (fact ∷ clusters.old.facts)) }
    ensures led { Led clusters.old undos.old clusters.new undos.new }
    ensures cost { steps.new ≤ steps.old + 6 * (1 + length fact.members + length fact.refs) }
{
    let undo = clusters.add(alloc, fact, steps)?;
    keep(clusters, undos, undo)
}

/// Puts a fact in the place of that of its name, and keeps what takes that back. `Memory` is the only error.
fn change<L: Ledger>(
    alloc: Global,
    clusters: &mut Clusters,
    undos: &mut List<Undo>,
    fact: Fact,
    steps: &mut Steps<L>,
) -> Result<(), Memory>
    requires { has (map (λ f. f.name) clusters.old.facts) fact.name ≡ true }
    ensures facts { OnOk result (clusters.new.facts ≡ by_name (λ f. f.name) (fact ∷ clusters.old.facts)) }
    ensures led { Led clusters.old undos.old clusters.new undos.new }
    ensures cost { named (λ f. f.name) clusters.old.facts fact.name ≡ Some (record fact { private = true }) → fact.private ≡ false → steps.new ≤ steps.old + 6 }
{
    let undo = clusters.change(alloc, fact, steps)?;
    keep(clusters, undos, undo)
}

/// Takes an artifact in that is new in a set. `Memory` is the only error.
pub(crate) fn add<L: Ledger>(
    alloc: Global,
    clusters: &mut Clusters,
    undos: &mut List<Undo>,
    items: &Items,
    item: &Held,
    steps: &mut Steps<L>,
) -> Result<(), Memory>
    requires new { IsIn items.now item.now }
    requires facts { clusters.old.facts ≡ cluster_facts (without item.now.name items.now) }
    ensures facts { OnOk result (clusters.new.facts ≡ cluster_facts items.now) }
    ensures led { Led clusters.old undos.old clusters.new undos.new }
    ensures cost { steps.new ≤ steps.old + 6 * (1 + length (members item.now.artifact) + length (references item.now.artifact)) }
{
    let fact = fact_of(alloc, item)?;
    put(alloc, clusters, undos, fact, steps)
}

/// Makes an artifact of a set public, which was private. `Memory` is the only error.
pub(crate) fn publish<L: Ledger>(
    alloc: Global,
    clusters: &mut Clusters,
    undos: &mut List<Undo>,
    items: &Items,
    item: &Held,
    steps: &mut Steps<L>,
) -> Result<(), Memory>
    requires new { IsIn items.now item.now }
    requires public { item.now.private ≡ false }
    requires facts { clusters.old.facts ≡ cluster_facts (map (private_at item.now.name true) items.now) }
    ensures facts { OnOk result (clusters.new.facts ≡ cluster_facts items.now) }
    ensures led { Led clusters.old undos.old clusters.new undos.new }
    ensures cost { steps.new ≤ steps.old + 6 }
{
    let fact = fact_of(alloc, item)?;
    change(alloc, clusters, undos, fact, steps)
}
