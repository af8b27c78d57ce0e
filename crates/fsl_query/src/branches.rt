//! Prints the report on branches.
ghost use Rattle.std.specs.Prelude.{◌≡◌, ◌++◌, flat_map, IfOk, OnOk};
ghost use Rattle.fsl_cross.specs.Inside.{branch_over};
ghost use Rattle.fsl_timeline.specs.Timeline.{timeline};
ghost use Rattle.fsl_query.specs.Lines.{branch_line};
ghost use Rattle.fsl_query.specs.Listings.{branches_report};

use crate::lines::append_branch;
use crate::newest::{Newest, all_rows, of_branches, rises};
use fsl_tags::Tags;
use fsl_text::{Memory, Text};
use fsl_timeline::Timeline;
use std::alloc::Global;

/// Puts a line for each branch at the end of a text.
fn append_branches(into: &mut Text, newest: &Newest) -> Result<(), Memory>
    ensures { OnOk result (into.new ≡ into.old ++ flat_map (λ e. branch_line e.1 e.0) newest.now.entries) }
{
    for (branch, one) in newest {
        append_branch(into, *one, branch.bytes())?;
    }
    Ok(())
}

/// A line for each branch that a check-in has, by its bytes: the date and the name of its newest check-in, and the branch. The
/// check-ins are those of the timeline. It takes time by n log n of the timeline. `Memory` is the only error.
pub(crate) fn report(alloc: Global, table: &Timeline, tags: &Tags) -> Result<Text, Memory>
    ensures { IfOk result (λ text. text ≡ branches_report (branch_over tags.now.facts) (timeline table.now.facts)) }
{
    let rows = all_rows(alloc, table)?;
    let newest = of_branches(alloc, tags, rows.items())?;
    rises(&newest);
    let mut text = Text::empty(alloc);
    append_branches(&mut text, &newest)?;
    Ok(text)
}
