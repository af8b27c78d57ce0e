//! Makes the facts of files: the check-ins with the names of their B cards and of their first parents, and with their F cards.
ghost use Rattle.std.specs.Prelude.{◌≡◌, [], All, IfOk, map, slice_get};
ghost use Rattle.std.specs.List.Sorted.{IsStrictlySortedBy};
ghost use Rattle.fsl_order.specs.Names.{bytes_cmp};
ghost use Rattle.fsl_name.specs.Ref.{own_names};
ghost use Rattle.fsl_cross.specs.Facts.{file_row, files_fact, row_perm_of};
ghost use Rattle.fsl_cross.specs.Tables.{IsItem, files_facts};

use super::append;
use crate::checkin::manifest;
use crate::held::Held;
use crate::items::Items;
use fsl_files::{Fact, FileRow, Files, Perm};
use fsl_manifest as manifests;
use fsl_manifest::FileCard;
use fsl_name::{Name, Ref};
use fsl_text::{List, Memory, Text};
use std::alloc::Global;

/// A permission as the table has it.
fn perm_of(perm: manifests::Perm) -> Perm
    ensures { result ≡ row_perm_of perm }
{
    match perm {
        manifests::Perm::Plain => Perm::Plain,
        manifests::Perm::Writable => Perm::Writable,
        manifests::Perm::Exec => Perm::Exec,
        manifests::Perm::Symlink => Perm::Symlink,
    }
}

/// The file of an F card.
fn row_of(alloc: Global, card: &FileCard) -> Result<FileRow, Memory>
    ensures { IfOk result (λ row. row ≡ file_row card.now) }
{
    Ok(FileRow {
        path: Text::of(alloc, card.path.bytes())?,
        hash: card.hash,
        perm: perm_of(card.perm),
    })
}

/// The files of F cards, in their order.
fn rows_of(alloc: Global, cards: &[FileCard]) -> Result<List<FileRow>, Memory>
    ensures { IfOk result (λ rows. rows ≡ map file_row cards.now) }
{
    let mut rows = Vec::new(alloc);
    for card in cards {
        rows.push(row_of(alloc, card)?)?;
    }
    Ok(List::from_vec(rows))
}

/// The first own name among references.
fn first(refs: &[Ref]) -> Option<Name>
    ensures { result ≡ slice_get (own_names refs.now) 0 }
{
    for found in refs {
        if let Some(name) = found.own() {
            return Some(name);
        }
    }
    None
}

/// The fact that an artifact gives, where it is a check-in.
pub(crate) fn fact_of(alloc: Global, item: &Held) -> Result<Option<Fact>, Memory>
    ensures { IfOk result (λ fact. fact ≡ files_fact item.now) }
{
    let Some(manifest) = manifest(item.artifact()) else {
        return Ok(None);
    };
    Ok(Some(Fact {
        name: item.name(),
        baseline: manifest.baseline,
        parent: first(manifest.parents.items()),
        files: rows_of(alloc, manifest.files.items())?,
    }))
}

/// The facts that artifacts give. `Memory` is the only error.
fn of_items(alloc: Global, items: &Items) -> Result<Vec<Fact>, Memory>
    ensures { IfOk result (λ facts. facts.items ≡ files_facts items.now) }
{
    let mut facts = Vec::new(alloc);
    for item in items.iter() {
        append(&mut facts, fact_of(alloc, item)?)?;
    }
    Ok(facts)
}

/// The table of the files of check-ins. `Memory` is the only error.
pub(crate) fn table(alloc: Global, items: &Items) -> Result<Files, Memory>
    requires rising { IsStrictlySortedBy bytes_cmp (map (λ i. i.name) items.now) }
    requires kinds { All IsItem items.now }
    ensures { IfOk result (λ t. t.facts ≡ files_facts items.now) }
{
    Files::build(alloc, &of_items(alloc, items)?)
}
