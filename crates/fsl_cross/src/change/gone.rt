//! Rows of technotes and posts that go when another one comes.
ghost use Rattle.std.specs.Prelude.{◌≡◌, ◌∷◌, [], true, OnOk};
ghost use Rattle.std.specs.List.Sorted.{IsStrictlySortedBy};
ghost use Rattle.fsl_order.specs.Names.{bytes_cmp};
ghost use Rattle.fsl_cross.specs.Gone.{is_rowless, is_gone, has_row, AreShown, RowsGone, OthersShown};
ghost use Rattle.fsl_cross.specs.Mixed.{IsIn};
ghost use Rattle.fsl_cross.specs.Tables.{pages_facts, forum_facts};
ghost use Rattle.fsl_cross.specs.Trails.{Led};

use super::rows;
use crate::contents::Contents;
use crate::held::Held;
use crate::items::Items;
use crate::timeline::is_current;
use fsl_artifact::Artifact;
use fsl_forum::Threads;
use fsl_name::Name;
use fsl_text::{List, Memory, Steps};
use fsl_timeline::{Timeline, Undo};
use fsl_wiki::Pages;
use std::alloc::Global;
use std::sync::ledger::Ledger;

/// Whether an artifact is a technote that isn't the current one of its id, or a post that isn't valid. Neither has a row.
fn is_rowless(pages: &Pages, threads: &Threads, name: Name, artifact: &Artifact) -> bool
    ensures { result ≡ is_rowless pages.now.facts threads.now.facts name artifact.now }
{
    match artifact {
        Artifact::Technote(note) => !is_current(pages, note.id, name),
        Artifact::Forum(_) => threads.place(name).is_none(),
        _ => false,
    }
}

/// Whether a name is that of another artifact than the new one, which has no row for that reason.
fn is_gone(contents: &Contents, items: &Items, item: &Held, name: Name) -> bool
    requires pages { contents.now.pages.facts ≡ pages_facts items.now }
    requires threads { contents.now.threads.facts ≡ forum_facts items.now }
    ensures { result ≡ is_gone items.now item.now.name name }
{
    if name == item.name() {
        return false;
    }
    match items.get(name) {
        Some(other) => is_rowless(&contents.pages, &contents.threads, name, other.artifact()),
        None => false,
    }
}

/// Takes the row of a name out, where it is that of another artifact than the new one, which has no row any more. `Memory` is the
/// only error.
fn retire<L: Ledger>(
    alloc: Global,
    contents: &Contents,
    timeline: &mut Timeline,
    undos: &mut List<Undo>,
    items: &Items,
    item: &Held,
    name: Name,
    steps: &mut Steps<L>,
) -> Result<(), Memory>
    requires new { IsIn items.now item.now }
    requires pages { contents.now.pages.facts ≡ pages_facts items.now }
    requires threads { contents.now.threads.facts ≡ forum_facts items.now }
    requires shown { is_gone items.now item.now.name name ≡ true → has_row timeline.old.facts name ≡ true }
    ensures facts { OnOk result (RowsGone items.now item.now.name (name ∷ []) timeline.old.facts timeline.new.facts) }
    ensures others { OnOk result (OthersShown name timeline.old.facts timeline.new.facts) }
    ensures led { Led timeline.old undos.old timeline.new undos.new }
{
    if is_gone(contents, items, item, name) {
        rows::retire(alloc, timeline, undos, name, steps)
    } else {
        Ok(())
    }
}

/// Takes the rows of those of some names out that are of other artifacts than the new one, and have no row any more. `Memory` is the
/// only error.
pub(crate) fn retire_each<L: Ledger>(
    alloc: Global,
    contents: &Contents,
    timeline: &mut Timeline,
    undos: &mut List<Undo>,
    items: &Items,
    item: &Held,
    names: &[Name],
    steps: &mut Steps<L>,
) -> Result<(), Memory>
    requires new { IsIn items.now item.now }
    requires pages { contents.now.pages.facts ≡ pages_facts items.now }
    requires threads { contents.now.threads.facts ≡ forum_facts items.now }
    requires rising { IsStrictlySortedBy bytes_cmp names.now }
    requires shown { AreShown items.now item.now.name names.now timeline.old.facts }
    ensures facts { OnOk result (RowsGone items.now item.now.name names.now timeline.old.facts timeline.new.facts) }
    ensures led { Led timeline.old undos.old timeline.new undos.new }
{
    for name in names {
        retire(alloc, contents, timeline, undos, items, item, *name, steps)?;
    }
    Ok(())
}
