//! One artifact more in the table of parentage.
ghost use Rattle.std.specs.Prelude.{◌≡◌, ◌*◌, ◌+◌, ◌≤◌, ◌∷◌, false, map, OnOk, None, [], length};
ghost use Rattle.fsl_order.specs.Names.{has};
ghost use Rattle.fsl_order.specs.Rows.{by_name};
ghost use Rattle.fsl_cross.specs.Checkins.{links_facts};
ghost use Rattle.fsl_cross.specs.Mixed.{IsIn};
ghost use Rattle.fsl_cross.specs.Tables.{without};
ghost use Rattle.fsl_cross.specs.Trails.{Led, LinksTold};
ghost use Rattle.fsl_links.specs.Links.{children};
ghost use Rattle.fsl_cross.specs.Facts.{as_manifest};
ghost use Rattle.fsl_cross.specs.Touches.{Untouched, parents_most};

use crate::facts::links::fact_of;
use crate::held::Held;
use crate::items::Items;
use crate::reversible::keep;
use fsl_links::{Fact, Links, Undo};
use fsl_text::{List, Memory, Steps};
use std::alloc::Global;
use std::sync::ledger::Ledger;

/// Adds a fact, and keeps what takes that back. `Memory` is the only error.
fn put<L: Ledger>(
    alloc: Global,
    links: &mut Links,
    undos: &mut List<Undo>,
    fact: Fact,
    steps: &mut Steps<L>,
) -> Result<(), Memory>
    requires { has (map (λ f. f.name) links.old.facts) fact.name ≡ false }
    ensures facts { OnOk result (links.new.facts ≡ by_name (λ f. f.name) (fact ∷ links.old.facts)) }
    ensures led { Led links.old undos.old links.new undos.new }
    ensures told { OnOk result (LinksTold undos.old → LinksTold undos.new) }
    ensures cost { children links.old.facts fact.name ≡ [] → steps.new ≤ steps.old + 6 * (1 + length fact.parents) }
{
    let undo = links.add(alloc, fact, steps)?;
    keep(links, undos, undo)
}

/// Takes an artifact in that is new in a set. `Memory` is the only error.
pub(crate) fn add<L: Ledger>(
    alloc: Global,
    links: &mut Links,
    undos: &mut List<Undo>,
    items: &Items,
    item: &Held,
    steps: &mut Steps<L>,
) -> Result<(), Memory>
    requires new { IsIn items.now item.now }
    requires facts { links.old.facts ≡ links_facts (without item.now.name items.now) }
    ensures facts { OnOk result (links.new.facts ≡ links_facts items.now) }
    ensures led { Led links.old undos.old links.new undos.new }
    ensures told { OnOk result (LinksTold undos.old → LinksTold undos.new) }
    ensures idle { as_manifest item.now.artifact ≡ None → Untouched steps.old steps.new undos.old undos.new }
    ensures cost { children (links_facts (without item.now.name items.now)) item.now.name ≡ [] → steps.new ≤ steps.old + parents_most item.now.artifact }
{
    match fact_of(alloc, item)? {
        Some(fact) => put(alloc, links, undos, fact, steps),
        None => Ok(()),
    }
}
