//! Prints the report on a receipt.
ghost use Rattle.std.specs.Prelude.{◌≡◌, IfOk};
ghost use Rattle.std.specs.Option.{option_copied};
ghost use Rattle.fsl_query.specs.Lines.{receipt_line};

use crate::lines::append_receipt;
use fsl_record::Receipt;
use fsl_text::{Memory, Text};
use std::alloc::Global;

/// A line of the moment and the login of a receipt, or that there is none.
pub(crate) fn report(alloc: Global, receipt: Option<&Receipt>) -> Result<Text, Memory>
    ensures { IfOk result (λ text. text ≡ receipt_line (option_copied receipt.entry)) }
{
    let mut text = Text::empty(alloc);
    append_receipt(&mut text, receipt)?;
    Ok(text)
}
