//! `gen`: makes the generated artifacts as a set of their own.
ghost use Rattle.std.specs.Prelude.{◌≡◌, ◌≤◌, ◌<◌, false, [], IfOk, OnOk, map};
ghost use Rattle.std.specs.BTreeMap.{IsOrdered};
ghost use Rattle.fsl_order.specs.Names.{bytes_cmp, has};
ghost use Rattle.fsl_name.specs.Name.{name_of};
ghost use Rattle.fsl_query.specs.Summary.{entry_of, summary};
ghost use Rattle.fsl_cross.specs.Tables as cross;
ghost use Rattle.fossil.specs.Gen.{IsTextAdded, AreTextsAdded, IsSummed, IsGenPrinted};

use crate::answers::answer::Answer;
use crate::answers::status::DONE;
use fsl_cross::{Item, Tables};
use fsl_gen::artifacts;
use fsl_name::Name;
use fsl_query::{Note, note_of, summary};
use fsl_repo::read_artifact;
use fsl_text::{List, Memory, Steps, Text};
use std::alloc::Global;
use std::collections::BTreeMap;
use std::marker::Brand;
use std::sync::ledger::{Blank, Ledger};

/// Adds an artifact whose name isn't there to the tables of a set, and notes what it is.
fn add_new<L: Ledger>(
    alloc: Global,
    name: Name,
    text: &Text,
    tables: &mut Tables,
    notes: &mut BTreeMap<Name, Note>,
    steps: &mut Steps<L>,
) -> Result<(), Memory>
    requires named { name ≡ name_of text.now }
    requires absent { has (map (λ i. i.name) tables.old.items) name ≡ false }
    requires rising { IsOrdered bytes_cmp notes.old }
    requires noted { notes.old.entries ≡ map entry_of tables.old.items }
    ensures added { OnOk result (IsTextAdded text.now tables.old tables.new) }
    ensures rising { OnOk result (IsOrdered bytes_cmp notes.new) }
    ensures noted { OnOk result (notes.new.entries ≡ map entry_of tables.new.items) }
{
    let artifact = read_artifact(alloc, text.bytes())?;
    let note = note_of(&artifact);
    let item = Item {
        name,
        private: false,
        artifact,
    };
    let back = tables.add(alloc, item, steps)?;
    back.settle();
    notes.insert(name, note)?;
    Ok(())
}

/// Adds an artifact to the tables of a set, and notes what it is. One whose name is there is passed over.
fn add_text<L: Ledger>(
    alloc: Global,
    text: &Text,
    tables: &mut Tables,
    notes: &mut BTreeMap<Name, Note>,
    steps: &mut Steps<L>,
) -> Result<(), Memory>
    requires rising { IsOrdered bytes_cmp notes.old }
    requires noted { notes.old.entries ≡ map entry_of tables.old.items }
    ensures added { OnOk result (IsTextAdded text.now tables.old tables.new) }
    ensures rising { OnOk result (IsOrdered bytes_cmp notes.new) }
    ensures noted { OnOk result (notes.new.entries ≡ map entry_of tables.new.items) }
{
    let name = Name::of(text.bytes());
    if notes.contains_key(&name) {
        return Ok(());
    }
    add_new(alloc, name, text, tables, notes, steps)
}

/// Adds artifacts one after another, with a counter of their own.
fn add_texts<L: Ledger>(
    alloc: Global,
    texts: List<Text>,
    tables: &mut Tables,
    notes: &mut BTreeMap<Name, Note>,
    blank: Blank,
) -> Result<(), Memory>
    requires name { blank.name ≡ L.name }
    requires parts { blank.parts ≡ L.parts }
    requires counts { 0 < L.parts }
    requires rising { IsOrdered bytes_cmp notes.old }
    requires noted { notes.old.entries ≡ map entry_of tables.old.items }
    ensures added { OnOk result (AreTextsAdded texts tables.old tables.new) }
    ensures noted { OnOk result (notes.new.entries ≡ map entry_of tables.new.items) }
{
    let mut steps: Steps<L> = Steps::new(blank);
    for text in texts.into_vec() {
        add_text(alloc, &text, tables, notes, &mut steps)?;
    }
    Ok(())
}

/// Adds artifacts to the tables of no artifacts, and gives their summary.
fn summed(alloc: Global, texts: List<Text>, tables: &mut Tables) -> Result<Text, Memory>
    requires fresh { tables.old.items ≡ [] }
    requires plain { tables.old.fields ≡ [] }
    ensures { IfOk result (IsSummed texts) }
{
    let mut notes = BTreeMap::new(alloc);
    add_texts::<Brand>(alloc, texts, tables, &mut notes, Blank::new(1))?;
    summary(alloc, tables, &notes)
}

/// Takes so many generated artifacts one after another into a fresh set, in their order or from its end, and counts how
/// many artifacts of each sort this has. `Memory` is the only error.
///
/// FORMATS: Generated artifacts
pub fn generate(alloc: Global, count: u64, reversed: bool) -> Result<Answer, Memory>
    requires some { 1 ≤ count }
    requires few { count ≤ 100_000 }
    ensures { IfOk result (IsGenPrinted count reversed) }
{
    let texts = artifacts(alloc, count, reversed)?;
    let fields = List::new(alloc);
    let mut tables = Tables::new(alloc, &fields)?;
    let summed = summed(alloc, texts, &mut tables);
    tables.close();
    match summed {
        Ok(text) => Ok(Answer { status: DONE, text }),
        Err(Memory) => Err(Memory),
    }
}
