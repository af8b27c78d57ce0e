//! The kinds of attachments, and the rows of those whose kind one artifact more changes.
ghost use Rattle.std.specs.Prelude.{◌≡◌, ◌∷◌, [], All, OnOk, IfOk, option_map, None};
ghost use Rattle.std.specs.Option.{option_copied};
ghost use Rattle.fsl_name.specs.Name.{IsName, name_text};
ghost use Rattle.fsl_table.specs.Pairs.{seconds as seconds_of};
ghost use Rattle.fsl_cross.specs.Attached.{target_id};
ghost use Rattle.fsl_cross.specs.Built.{IsAttachedOf};
ghost use Rattle.fsl_cross.specs.Inside.{attachment_row};
ghost use Rattle.fsl_cross.specs.Kinds.{as_attachment, attachment as attachment_of, target_kind as kind_of_target, own_kind as kind_of_own};
ghost use Rattle.fsl_cross.specs.Kinds.{AreOfKind, IsOfKind, KindsGo, OfItems, own_id, own_names};
ghost use Rattle.fsl_cross.specs.Mixed.{IsIn, IsMixture, rows_mixed};
ghost use Rattle.fsl_cross.specs.Tables.{IsItem, attachment_kind, pages_facts, without};
ghost use Rattle.fsl_cross.specs.Trails.{Led};

use super::rows::change;
use crate::attached::{Attached, target_of};
use crate::held::Held;
use crate::items::Items;
use crate::targets::kind_where;
use crate::timeline::attachment;
use fsl_artifact::Artifact;
use fsl_forms::Attachment;
use fsl_name::Name;
use fsl_table::pairs::{second_after, seconds};
use fsl_text::{List, Memory, Steps};
use fsl_timeline::{Row, RowKind, Timeline, Undo};
use fsl_wiki::Pages;
use std::alloc::Global;
use std::sync::ledger::Ledger;

/// The kind of the attachments that have an id as their target: that of a ticket where a change of one has the id, that of a technote
/// where one has it, else that of the wiki.
fn kind_of<L: Ledger>(attached: &Attached, pages: &Pages, id: Name, steps: &mut Steps<L>) -> RowKind
    requires { IsName id }
    ensures { OfItems attached.now pages.now (λ items. result ≡ attachment_kind items (name_text id)) }
{
    let on_ticket = second_after(&attached.changes, id, None, steps).is_some();
    let on_note = pages.note(id).is_some();
    kind_where(on_ticket, on_note)
}

/// The kind of an attachment, by its target. Other artifacts are given that of the wiki.
pub(crate) fn target_kind<L: Ledger>(
    attached: &Attached,
    pages: &Pages,
    artifact: &Artifact,
    steps: &mut Steps<L>,
) -> RowKind
    ensures kind { OfItems attached.now pages.now (λ items. result ≡ kind_of_target items artifact.now) }
    ensures idle { target_id artifact.now ≡ None → steps.new ≡ steps.old }
{
    match target_of(artifact) {
        Some(id) => kind_of(attached, pages, id, steps),
        None => RowKind::Wiki,
    }
}

/// The id of a ticket change or of a technote.
fn id_of(artifact: &Artifact) -> Option<Name>
    ensures { result ≡ own_id artifact.now }
{
    match artifact {
        Artifact::Ticket(change) => Some(change.id),
        Artifact::Technote(note) => Some(note.id),
        _ => None,
    }
}

/// The kind of the attachments that have the id of a ticket change or of a technote as their target. For other artifacts that of the wiki.
pub(crate) fn own_kind<L: Ledger>(
    attached: &Attached,
    pages: &Pages,
    item: &Held,
    steps: &mut Steps<L>,
) -> RowKind
    requires { IsItem item.now }
    ensures kind { OfItems attached.now pages.now (λ items. result ≡ kind_of_own items item.now.artifact) }
    ensures idle { own_id item.now.artifact ≡ None → steps.new ≡ steps.old }
{
    match id_of(item.artifact()) {
        Some(id) => kind_of(attached, pages, id, steps),
        None => RowKind::Wiki,
    }
}

/// The attachment, where an artifact is one.
fn attachment_in(artifact: &Artifact) -> Option<&Attachment>
    ensures { option_copied result ≡ as_attachment artifact.now }
{
    match artifact {
        Artifact::Attachment(file) => Some(file),
        _ => None,
    }
}

/// The row of an attachment that has some kind. None where the name isn't that of one.
fn row_at(alloc: Global, kind: RowKind, items: &Items, name: Name) -> Result<Option<Row>, Memory>
    ensures { IfOk result (λ row. row ≡ option_map (attachment_row kind name) (attachment_of items.now name)) }
{
    let Some(item) = items.get(name) else {
        return Ok(None);
    };
    let Some(file) = attachment_in(item.artifact()) else {
        return Ok(None);
    };
    Ok(Some(attachment(alloc, kind, name, file)?))
}

/// Puts the row of the attachment of a name in the place of its row before, where there is an attachment. `Memory` is the only error.
fn change_at<L: Ledger>(
    alloc: Global,
    kind: RowKind,
    timeline: &mut Timeline,
    undos: &mut List<Undo>,
    items: &Items,
    item: &Held,
    name: Name,
    steps: &mut Steps<L>,
) -> Result<(), Memory>
    requires new { IsIn items.now item.now }
    requires kind { IsOfKind kind items.now name }
    requires facts { IsMixture (rows_mixed items.now item.now.name) timeline.old.facts }
    ensures facts { OnOk result (KindsGo items.now item.now.name (name ∷ []) timeline.old.facts timeline.new.facts) }
    ensures led { Led timeline.old undos.old timeline.new undos.new }
{
    match row_at(alloc, kind, items, name)? {
        Some(row) => change(alloc, timeline, undos, row, steps),
        None => Ok(()),
    }
}

/// Puts the rows of the attachments of some names, which have one kind, in the place of their rows before. `Memory` is the only error.
fn change_each<L: Ledger>(
    alloc: Global,
    kind: RowKind,
    timeline: &mut Timeline,
    undos: &mut List<Undo>,
    items: &Items,
    item: &Held,
    names: &[Name],
    steps: &mut Steps<L>,
) -> Result<(), Memory>
    requires new { IsIn items.now item.now }
    requires kinds { AreOfKind kind items.now names.now }
    requires facts { IsMixture (rows_mixed items.now item.now.name) timeline.old.facts }
    ensures facts { OnOk result (KindsGo items.now item.now.name names.now timeline.old.facts timeline.new.facts) }
    ensures led { Led timeline.old undos.old timeline.new undos.new }
{
    for name in names {
        change_at(alloc, kind, timeline, undos, items, item, *name, steps)?;
    }
    Ok(())
}

/// Works the rows of the attachments of an id out anew, where their kind is another than before. `Memory` is the only error.
fn change_all<L: Ledger>(
    alloc: Global,
    attached: &Attached,
    pages: &Pages,
    before: RowKind,
    timeline: &mut Timeline,
    undos: &mut List<Undo>,
    items: &Items,
    item: &Held,
    id: Name,
    steps: &mut Steps<L>,
) -> Result<(), Memory>
    requires new { IsIn items.now item.now }
    requires kinds { All IsItem items.now }
    requires id { IsName id }
    requires attached { IsAttachedOf items.now attached.now }
    requires pages { pages.now.facts ≡ pages_facts items.now }
    requires before { before ≡ attachment_kind (without item.now.name items.now) (name_text id) }
    requires facts { IsMixture (rows_mixed items.now item.now.name) timeline.old.facts }
    ensures facts { OnOk result (KindsGo items.now item.now.name (seconds_of id attached.now.targets.entries) timeline.old.facts timeline.new.facts) }
    ensures led { Led timeline.old undos.old timeline.new undos.new }
{
    let kind = kind_of(attached, pages, id, steps);
    if kind == before {
        return Ok(());
    }
    let names = seconds(alloc, &attached.targets, id, steps)?;
    change_each(
        alloc,
        kind,
        timeline,
        undos,
        items,
        item,
        names.items(),
        steps,
    )
}

/// Works the rows of those attachments out anew that have the id of the new artifact as their target, where it is a ticket change or a
/// technote and their kind is another than before. So it is at most twice that an attachment's row changes for its kind. `Memory` is the
/// only error.
pub(crate) fn change_kinds<L: Ledger>(
    alloc: Global,
    attached: &Attached,
    pages: &Pages,
    before: RowKind,
    timeline: &mut Timeline,
    undos: &mut List<Undo>,
    items: &Items,
    item: &Held,
    steps: &mut Steps<L>,
) -> Result<(), Memory>
    requires new { IsIn items.now item.now }
    requires kinds { All IsItem items.now }
    requires attached { IsAttachedOf items.now attached.now }
    requires pages { pages.now.facts ≡ pages_facts items.now }
    requires before { before ≡ kind_of_own (without item.now.name items.now) item.now.artifact }
    requires facts { IsMixture (rows_mixed items.now item.now.name) timeline.old.facts }
    ensures facts { OnOk result (KindsGo items.now item.now.name (own_names attached.now item.now.artifact) timeline.old.facts timeline.new.facts) }
    ensures led { Led timeline.old undos.old timeline.new undos.new }
{
    match id_of(item.artifact()) {
        Some(id) => change_all(
            alloc, attached, pages, before, timeline, undos, items, item, id, steps,
        ),
        None => Ok(()),
    }
}
