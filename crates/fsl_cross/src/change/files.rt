//! One artifact more in the table of the files of check-ins.
ghost use Rattle.std.specs.Prelude.{◌≡◌, ◌+◌, ◌≤◌, ◌∷◌, false, map, OnOk, None};
ghost use Rattle.fsl_order.specs.Names.{has};
ghost use Rattle.fsl_order.specs.Rows.{by_name};
ghost use Rattle.fsl_files.specs.Conditions.{IsFilesFact};
ghost use Rattle.fsl_cross.specs.Tables.{IsItem, files_facts, without};
ghost use Rattle.fsl_cross.specs.Mixed.{IsIn};
ghost use Rattle.fsl_cross.specs.Trails.{Led};
ghost use Rattle.fsl_files.specs.Touches.{is_followed, file_most};
ghost use Rattle.fsl_cross.specs.Facts.{as_manifest};
ghost use Rattle.fsl_cross.specs.Touches.{files_most};

use crate::facts::files::fact_of;
use crate::held::Held;
use crate::items::Items;
use crate::reversible::keep;
use fsl_files::{Fact, Files, Undo};
use fsl_text::{List, Memory, Steps};
use std::alloc::Global;
use std::sync::ledger::Ledger;

/// Adds a fact, and keeps what takes that back. `Memory` is the only error.
fn put<L: Ledger>(
    alloc: Global,
    files: &mut Files,
    undos: &mut List<Undo>,
    fact: Fact,
    steps: &mut Steps<L>,
) -> Result<(), Memory>
    requires absent { has (map (λ f. f.name) files.old.facts) fact.name ≡ false }
    requires fit { IsFilesFact fact }
    ensures facts { OnOk result (files.new.facts ≡ by_name (λ f. f.name) (fact ∷ files.old.facts)) }
    ensures led { Led files.old undos.old files.new undos.new }
    ensures cost { is_followed files.old.facts fact.name ≡ false → steps.new ≤ steps.old + file_most files.old.facts fact }
{
    let undo = files.add(alloc, fact, steps)?;
    keep(files, undos, undo)
}

/// Takes an artifact in that is new in a set. `Memory` is the only error.
pub(crate) fn add<L: Ledger>(
    alloc: Global,
    files: &mut Files,
    undos: &mut List<Undo>,
    items: &Items,
    item: &Held,
    steps: &mut Steps<L>,
) -> Result<(), Memory>
    requires new { IsIn items.now item.now }
    requires kind { IsItem item.now }
    requires facts { files.old.facts ≡ files_facts (without item.now.name items.now) }
    ensures facts { OnOk result (files.new.facts ≡ files_facts items.now) }
    ensures led { Led files.old undos.old files.new undos.new }
    ensures cost { is_followed files.old.facts item.now.name ≡ false → steps.new ≤ steps.old + files_most files.old.facts item.now }
    ensures idle { as_manifest item.now.artifact ≡ None → steps.new ≡ steps.old }
{
    match fact_of(alloc, item)? {
        Some(fact) => put(alloc, files, undos, fact, steps),
        None => Ok(()),
    }
}
