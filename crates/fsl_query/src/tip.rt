//! Prints the report on the tip of a symbolic name.
ghost use Rattle.std.specs.Prelude.{◌≡◌};
ghost use Rattle.fsl_query.specs.Answers.{IsAnswer};
ghost use Rattle.fsl_query.specs.Reports.{tip_report};

use crate::lines::append_tip;
use crate::{QueryFault, Refused};
use fsl_name::Name;
use fsl_text::Text;
use std::alloc::Global;

/// A line of the name of the tip that was found of a symbolic name, or that there is none.
pub(crate) fn report(alloc: Global, latest: Option<Name>, symbol: &[u8]) -> Result<Text, QueryFault>
    ensures { IsAnswer (tip_report latest symbol.now) result }
{
    let Some(name) = latest else {
        return Err(QueryFault::Refused(Refused::NoCheckin {
            symbol: Text::of(alloc, symbol)?,
        }));
    };
    let mut text = Text::empty(alloc);
    append_tip(&mut text, name)?;
    Ok(text)
}
