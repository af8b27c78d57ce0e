//! One artifact more in the table of wiki pages, technotes and attachments.
ghost use Rattle.std.specs.Prelude.{◌≡◌, ◌+◌, ◌≤◌, ◌∷◌, [], false, map, length, OnOk, None, IfSome, option_and_then};
ghost use Rattle.fsl_order.specs.Names.{has};
ghost use Rattle.fsl_order.specs.Rows.{by_name};
ghost use Rattle.fsl_wiki.specs.Pages.{fact_name, as_page};
ghost use Rattle.fsl_cross.specs.Tables.{pages_facts, without};
ghost use Rattle.fsl_cross.specs.Mixed.{IsIn};
ghost use Rattle.fsl_cross.specs.Trails.{Led, PagesTold};
ghost use Rattle.fsl_cross.specs.Facts.{pages_fact};

use crate::facts::pages::fact_of;
use crate::held::Held;
use crate::items::Items;
use crate::reversible::keep;
use fsl_text::{List, Memory, Steps};
use fsl_wiki::{Fact, Pages, Undo};
use std::alloc::Global;
use std::sync::ledger::Ledger;

/// Adds a fact, and keeps what takes that back. `Memory` is the only error.
fn put<L: Ledger>(
    alloc: Global,
    pages: &mut Pages,
    undos: &mut List<Undo>,
    fact: Fact,
    steps: &mut Steps<L>,
) -> Result<(), Memory>
    requires { has (map fact_name pages.old.facts) (fact_name fact) ≡ false }
    ensures facts { OnOk result (pages.new.facts ≡ by_name fact_name (fact ∷ pages.old.facts)) }
    ensures led { Led pages.old undos.old pages.new undos.new }
    ensures told { OnOk result (PagesTold undos.old → PagesTold undos.new) }
    ensures single { OnOk result (undos.old ≡ [] → length undos.new ≤ 1) }
    ensures cost { IfSome (as_page fact) (λ _. steps.new ≤ steps.old + 4) }
{
    let undo = pages.add(alloc, fact, steps)?;
    keep(pages, undos, undo)
}

/// Takes an artifact in that is new in a set. `Memory` is the only error.
pub(crate) fn add<L: Ledger>(
    alloc: Global,
    pages: &mut Pages,
    undos: &mut List<Undo>,
    items: &Items,
    item: &Held,
    steps: &mut Steps<L>,
) -> Result<(), Memory>
    requires new { IsIn items.now item.now }
    requires facts { pages.old.facts ≡ pages_facts (without item.now.name items.now) }
    ensures facts { OnOk result (pages.new.facts ≡ pages_facts items.now) }
    ensures led { Led pages.old undos.old pages.new undos.new }
    ensures told { OnOk result (PagesTold undos.old → PagesTold undos.new) }
    ensures single { OnOk result (undos.old ≡ [] → length undos.new ≤ 1) }
    ensures idle { pages_fact item.now ≡ None → steps.new ≡ steps.old }
    ensures cost { IfSome (option_and_then as_page (pages_fact item.now)) (λ _. steps.new ≤ steps.old + 4) }
{
    match fact_of(alloc, item)? {
        Some(fact) => put(alloc, pages, undos, fact, steps),
        None => Ok(()),
    }
}
