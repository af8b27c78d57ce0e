//! Prints the report on leaves.
ghost use Rattle.std.specs.Prelude.{◌≡◌, IfOk};
ghost use Rattle.fsl_cross.specs.Inside.{branch_over};
ghost use Rattle.fsl_query.specs.Reports.{leaves_report};

use crate::lines::append_leaf;
use fsl_cross::branch;
use fsl_leaves::Leaves;
use fsl_tags::Tags;
use fsl_text::{Memory, Text};
use std::alloc::Global;

/// A line for each leaf, by name: its name and its branch.
pub(crate) fn report(alloc: Global, table: &Leaves, tags: &Tags) -> Result<Text, Memory>
    ensures { IfOk result (λ text. text ≡ leaves_report (branch_over tags.now.facts) table.now.facts) }
{
    let mut text = Text::empty(alloc);
    let leaves = table.leaves(alloc)?;
    for name in leaves.items() {
        append_leaf(&mut text, *name, branch(tags, *name))?;
    }
    Ok(text)
}
