//! Prints the report on phantoms.
ghost use Rattle.std.specs.Prelude.{◌≡◌, IfOk};
ghost use Rattle.fsl_query.specs.Reports.{phantoms_report};

use crate::lines::append_wanted;
use fsl_name::Name;
use fsl_text::{Memory, Text};
use std::alloc::Global;

/// A line for each of some names, in their order: of a repository those that are wanted.
pub(crate) fn report(alloc: Global, wanted: &[Name]) -> Result<Text, Memory>
    ensures { IfOk result (λ text. text ≡ phantoms_report wanted.now) }
{
    let mut text = Text::empty(alloc);
    for name in wanted {
        append_wanted(&mut text, *name)?;
    }
    Ok(text)
}
