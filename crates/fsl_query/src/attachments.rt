//! Prints the attachments of pages and tickets.
ghost use Rattle.std.specs.Prelude.{◌≡◌, ◌++◌, [], ◌∷◌, filter, flat_map, OnOk};
ghost use Rattle.fsl_query.specs.Lines.{attachment_line};
ghost use Rattle.fsl_query.specs.Reports.{attachments_report};

use crate::lines::append_attachment;
use fsl_text::{Memory, Text};
use fsl_wiki::{Attached, Pages};
use std::alloc::Global;

/// Puts the line of an attachment at the end of a text, unless it deletes that of its file.
fn append_unless_deleted(into: &mut Text, attached: &Attached) -> Result<(), Memory>
    ensures { OnOk result (into.new ≡ into.old ++ flat_map attachment_line (filter (λ a. a.sourced) (attached.now ∷ []))) }
{
    if !attached.sourced {
        return Ok(());
    }
    append_attachment(into, attached)
}

/// Puts a line for each attachment of a target that isn't deleted at the end of a text, by file.
pub(crate) fn append_attachments(
    alloc: Global,
    into: &mut Text,
    table: &Pages,
    target: &[u8],
) -> Result<(), Memory>
    ensures { OnOk result (into.new ≡ into.old ++ attachments_report table.now.facts target.now) }
{
    let attachments = table.attached(alloc, target)?;
    for attached in attachments.items() {
        append_unless_deleted(into, attached)?;
    }
    Ok(())
}
