//! One forum post more in the timeline.
ghost use Rattle.std.specs.Prelude.{◌≡◌, ◌≤◌, length, OnOk};
ghost use Rattle.fsl_artifact.specs.declared.Artifact.TheVariants as artifact;
ghost use Rattle.fsl_cross.specs.Mixed.{IsIn, IsThreadsTrail, all_changed};
ghost use Rattle.fsl_cross.specs.Tables.{pages_facts, forum_facts, timeline_rows, without};
ghost use Rattle.fsl_cross.specs.Trails.{Led};

use super::{gone, rows};
use crate::contents::Contents;
use crate::held::Held;
use crate::items::Items;
use crate::timeline::post as row_of;
use fsl_forms::Forum;
use fsl_forum as forum;
use fsl_forum::invalid_stays;
use fsl_name::Name;
use fsl_text::{List, Memory, Steps};
use fsl_timeline::{Timeline, Undo};
use std::alloc::Global;
use std::sync::ledger::Ledger;

/// The names whose rows a change changed, none where there is no change.
fn names_of(changes: &[forum::Undo]) -> &[Name]
    requires { length changes.now ≤ 1 }
    ensures { result.now ≡ all_changed changes.now }
{
    match changes.first() {
        Some(change) => change.changed().items(),
        None => &[],
    }
}

/// Takes a forum post in that is new in a set: its own row, where it is valid, and those of other posts out that are no longer so. The
/// table of posts has it already, by a change. No post becomes valid when another comes. `Memory` is the only error.
pub(crate) fn take_in<L: Ledger>(
    alloc: Global,
    contents: &Contents,
    changes: &List<forum::Undo>,
    timeline: &mut Timeline,
    undos: &mut List<Undo>,
    items: &Items,
    item: &Held,
    post: &Forum,
    steps: &mut Steps<L>,
) -> Result<(), Memory>
    requires new { IsIn items.now item.now }
    requires kind { item.now.artifact ≡ artifact.Forum post.now }
    requires pages { contents.now.pages.facts ≡ pages_facts items.now }
    requires threads { contents.now.threads.facts ≡ forum_facts items.now }
    requires trail { IsThreadsTrail items.now item.now.name changes.now contents.now.threads }
    requires facts { timeline.old.facts ≡ timeline_rows (without item.now.name items.now) }
    ensures facts { OnOk result (timeline.new.facts ≡ timeline_rows items.now) }
    ensures led { Led timeline.old undos.old timeline.new undos.new }
{
    let row = row_of(alloc, &contents.threads, item.name(), post)?;
    rows::add(alloc, timeline, undos, items, item, row, steps)?;
    invalid_stays();
    let names = names_of(changes.items());
    gone::retire_each(alloc, contents, timeline, undos, items, item, names, steps)
}
