//! Prints the report on tags.
ghost use Rattle.std.specs.Prelude.{◌≡◌, IfOk};
ghost use Rattle.fsl_query.specs.Reports.{tags_report};

use crate::lines::append_tag;
use fsl_name::Name;
use fsl_tags::Tags;
use fsl_text::{Memory, Text};
use std::alloc::Global;

/// A line for each tag in force on a name, by tag: the tag and its value.
pub(crate) fn report(alloc: Global, table: &Tags, name: Name) -> Result<Text, Memory>
    ensures { IfOk result (λ text. text ≡ tags_report table.now.facts name) }
{
    let mut text = Text::empty(alloc);
    let assertions = table.in_force(alloc, name)?;
    for assertion in assertions.items() {
        append_tag(&mut text, assertion)?;
    }
    Ok(text)
}
