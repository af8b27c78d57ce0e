//! One artifact more in the tables of parentage, tags and leaves.
ghost use Rattle.std.specs.Prelude.{◌≡◌, ◌+◌, ◌≤◌, [], OnOk};
ghost use Rattle.fsl_cross.specs.Built.{IsHistoryOf};
ghost use Rattle.fsl_cross.specs.Mixed.{IsIn, IsTagsTrail};
ghost use Rattle.fsl_cross.specs.Tables.{without};
ghost use Rattle.fsl_cross.specs.Back.{IsHistoryLed};
ghost use Rattle.fsl_cross.specs.Touches.{IsCalm, NoneRetagged, history_most};

use super::{leaves, links, tags};
use crate::held::Held;
use crate::history::History;
use crate::items::Items;
use crate::undos::HistoryUndos;
use fsl_tags::others_stay;
use fsl_text::{Memory, Steps};
use std::alloc::Global;
use std::sync::ledger::Ledger;

/// Takes an artifact in that is new in a set. `Memory` is the only error.
pub(crate) fn take_in<L: Ledger>(
    alloc: Global,
    history: &mut History,
    undos: &mut HistoryUndos,
    items: &Items,
    item: &Held,
    steps: &mut Steps<L>,
) -> Result<(), Memory>
    requires new { IsIn items.now item.now }
    requires history { IsHistoryOf (without item.now.name items.now) history.old }
    requires no_links { undos.old.links ≡ [] }
    requires no_tags { undos.old.tags ≡ [] }
    ensures history { OnOk result (IsHistoryOf items.now history.new) }
    ensures trail { OnOk result (IsTagsTrail items.now item.now.name undos.new.tags history.new.tags) }
    ensures led { IsHistoryLed history.old undos.old history.new undos.new }
    ensures calm { OnOk result (IsCalm items.now item.now → NoneRetagged items.now item.now.name undos.new.tags) }
    ensures cost { IsCalm items.now item.now → steps.new ≤ steps.old + history_most item.now.artifact }
{
    links::add(
        alloc,
        &mut history.links,
        &mut undos.links,
        items,
        item,
        steps,
    )?;
    tags::take_in(
        alloc,
        &history.links,
        &undos.links,
        &mut history.tags,
        &mut undos.tags,
        items,
        item,
        steps,
    )?;
    others_stay();
    leaves::take_in(
        alloc,
        &history.tags,
        &undos.tags,
        &mut history.leaves,
        &mut undos.leaves,
        items,
        item,
        steps,
    )
}
