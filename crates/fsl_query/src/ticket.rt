//! Prints the report on a ticket.
ghost use Rattle.std.specs.Prelude.{◌≡◌, ◌++◌, flat_map, zip, OnOk};
ghost use Rattle.fsl_query.specs.Answers.{IsAnswer};
ghost use Rattle.fsl_query.specs.Lines.{field_line};
ghost use Rattle.fsl_query.specs.Reports.{ticket_report};

use crate::attachments::append_attachments;
use crate::lines::append_valued;
use crate::{QueryFault, Refused};
use fsl_name::Name;
use fsl_text::{Memory, Text};
use fsl_ticket::Tickets;
use fsl_wiki::Pages;
use std::alloc::Global;

/// Puts a line for each field with its value at the end of a text.
fn append_fields(into: &mut Text, fields: &[Text], values: &[Text]) -> Result<(), Memory>
    ensures { OnOk result (into.new ≡ into.old ++ flat_map field_line (zip fields.now values.now)) }
{
    for (field, value) in fields.iter().zip(values) {
        append_valued(into, field.bytes(), value.bytes())?;
    }
    Ok(())
}

/// A line for each configured field of a ticket, in their order, with its value where that isn't empty. Then a line for each
/// attachment that isn't deleted, by file. The fields are those that the table of tickets is configured with.
pub(crate) fn report(
    alloc: Global,
    table: &Tickets,
    pages: &Pages,
    fields: &[Text],
    id: Name,
) -> Result<Text, QueryFault>
    requires { fields.now ≡ table.now.fields }
    ensures { IsAnswer (ticket_report table.now.fields table.now.facts pages.now.facts id) result }
{
    let Some(values) = table.fields(alloc, id)? else {
        return Err(QueryFault::Refused(Refused::NoTicket {
            prefix: Text::of(alloc, &id.text())?,
        }));
    };
    let mut text = Text::empty(alloc);
    append_fields(&mut text, fields, values.items())?;
    append_attachments(alloc, &mut text, pages, &id.text())?;
    Ok(text)
}
