//! One artifact more in what attachments are found by.
ghost use Rattle.std.specs.Prelude.{◌≤◌, ◌+◌, OnOk};
ghost use Rattle.fsl_cross.specs.Back.{IsAttachedLed};
ghost use Rattle.fsl_cross.specs.Built.{IsAttachedOf};
ghost use Rattle.fsl_cross.specs.Mixed.{IsIn};
ghost use Rattle.fsl_cross.specs.Tables.{without};

use crate::attached::{Attached, change_of, target_of};
use crate::held::Held;
use crate::items::Items;
use crate::undos::AttachedUndos;
use fsl_table::pairs::link;
use fsl_text::{Memory, Steps};
use std::sync::ledger::Ledger;

/// Takes an artifact in that is new in a set. `Memory` is the only error.
pub(crate) fn take_in<L: Ledger>(
    attached: &mut Attached,
    undos: &mut AttachedUndos,
    items: &Items,
    item: &Held,
    steps: &mut Steps<L>,
) -> Result<(), Memory>
    requires new { IsIn items.now item.now }
    requires attached { IsAttachedOf (without item.now.name items.now) attached.old }
    ensures attached { OnOk result (IsAttachedOf items.now attached.new) }
    ensures logged { IsAttachedLed attached.old undos.old attached.new undos.new }
    ensures cost { steps.new ≤ steps.old + 2 }
{
    let target = target_of(item.artifact());
    link(
        &mut attached.targets,
        &mut undos.targets,
        item.name(),
        target,
        steps,
    )?;
    let change = change_of(item.artifact());
    link(
        &mut attached.changes,
        &mut undos.changes,
        item.name(),
        change,
        steps,
    )
}
