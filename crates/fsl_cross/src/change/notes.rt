//! One technote more in the timeline.
ghost use Rattle.std.specs.Prelude.{◌≡◌, ◌≤◌, All, length, OnOk};
ghost use Rattle.fsl_artifact.specs.declared.Artifact.TheVariants as artifact;
ghost use Rattle.fsl_cross.specs.Built.{IsAttachedOf};
ghost use Rattle.fsl_cross.specs.Checkins.{tags_facts};
ghost use Rattle.fsl_cross.specs.Kinds.{own_kind};
ghost use Rattle.fsl_cross.specs.Mixed.{IsIn, IsTagsTrail, IsPagesTrail, all_changed};
ghost use Rattle.fsl_cross.specs.Tables.{IsItem, pages_facts, forum_facts, timeline_rows, without};
ghost use Rattle.fsl_cross.specs.Trails.{Led};

use super::{gone, kinds, rows};
use crate::attached::Attached;
use crate::contents::Contents;
use crate::held::Held;
use crate::items::Items;
use crate::timeline::technote as row_of;
use fsl_forms::Technote;
use fsl_name::Name;
use fsl_tags as tagging;
use fsl_tags::{Tags, effective_by_row};
use fsl_text::{List, Memory, Steps};
use fsl_timeline::{RowKind, Timeline, Undo};
use fsl_wiki as wiki;
use fsl_wiki::no_other_current;
use std::alloc::Global;
use std::sync::ledger::Ledger;

/// The names whose rows a change changed, none where there is no change.
fn names_of(changes: &[wiki::Undo]) -> &[Name]
    requires { length changes.now ≤ 1 }
    ensures { result.now ≡ all_changed changes.now }
{
    match changes.first() {
        Some(change) => change.changed().items(),
        None => &[],
    }
}

/// Takes a technote in that is new in a set: its own row, where it is the current one of its id, those of check-ins whose tags changed,
/// the row of the one that it displaces out, and those of attachments whose kind it changes; `before` is the kind that those of its
/// id had. The tables of tags and of pages have it already, by some changes. No technote becomes current when another comes. `Memory`
/// is the only error.
pub(crate) fn take_in<L: Ledger>(
    alloc: Global,
    tags: &Tags,
    tag_changes: &List<tagging::Undo>,
    contents: &Contents,
    changes: &List<wiki::Undo>,
    attached: &Attached,
    before: RowKind,
    timeline: &mut Timeline,
    undos: &mut List<Undo>,
    items: &Items,
    item: &Held,
    note: &Technote,
    steps: &mut Steps<L>,
) -> Result<(), Memory>
    requires new { IsIn items.now item.now }
    requires kinds { All IsItem items.now }
    requires kind { item.now.artifact ≡ artifact.Technote note.now }
    requires tags { tags.now.facts ≡ tags_facts items.now }
    requires tags_trail { IsTagsTrail items.now item.now.name tag_changes.now tags.now }
    requires pages { contents.now.pages.facts ≡ pages_facts items.now }
    requires threads { contents.now.threads.facts ≡ forum_facts items.now }
    requires trail { IsPagesTrail items.now item.now.name changes.now contents.now.pages }
    requires attached { IsAttachedOf items.now attached.now }
    requires before { before ≡ own_kind (without item.now.name items.now) item.now.artifact }
    requires facts { timeline.old.facts ≡ timeline_rows (without item.now.name items.now) }
    ensures facts { OnOk result (timeline.new.facts ≡ timeline_rows items.now) }
    ensures led { Led timeline.old undos.old timeline.new undos.new }
{
    let row = row_of(alloc, &contents.pages, item.name(), note)?;
    rows::start(
        alloc,
        tags,
        tag_changes,
        timeline,
        undos,
        items,
        item,
        row,
        steps,
    )?;
    let names = names_of(changes.items());
    gone::retire_each(alloc, contents, timeline, undos, items, item, names, steps)?;
    effective_by_row();
    no_other_current();
    kinds::change_kinds(
        alloc,
        attached,
        &contents.pages,
        before,
        timeline,
        undos,
        items,
        item,
        steps,
    )
}
