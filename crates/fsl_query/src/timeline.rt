//! Prints the report on the timeline.
ghost use Rattle.std.specs.Prelude.{◌≡◌, IfOk};
ghost use Rattle.fsl_query.specs.Reports.{timeline_report};

use crate::lines::append_row;
use fsl_text::{Memory, Text};
use fsl_timeline::Timeline;
use std::alloc::Global;

/// A line for each of so many first rows of the timeline, the latest first.
pub(crate) fn report(alloc: Global, table: &Timeline, count: u64) -> Result<Text, Memory>
    ensures { IfOk result (λ text. text ≡ timeline_report table.now.facts count) }
{
    let mut text = Text::empty(alloc);
    let rows = table.latest(alloc, count)?;
    for row in rows.items() {
        append_row(&mut text, row)?;
    }
    Ok(text)
}
