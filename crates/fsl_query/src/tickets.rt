//! Prints the report on tickets, and lists their ids.
ghost use Rattle.std.specs.Prelude.{◌≡◌, ◌++◌, ◌∷◌, true, not, All, flat_map, map, IfOk, OnOk};
ghost use Rattle.std.specs.List.{list_any};
ghost use Rattle.std.specs.Option.{option_copied};
ghost use Rattle.std.specs.Str.{bytes_eq};
ghost use Rattle.fsl_order.specs.Names.{has};
ghost use Rattle.fsl_ticket.specs.Tickets.{value};
ghost use Rattle.fsl_query.specs.Lines.{shown, ticket_line};
ghost use Rattle.fsl_query.specs.Listings.{ticket_ids, tickets_lines, unknown_field};

use crate::lines::{append_stamp, append_value};
use crate::newest::{Newest, of_tickets, rises};
use fsl_date::Moment;
use fsl_name::{Name, ordered};
use fsl_text::{Memory, Text};
use fsl_ticket::{Fact, Tickets};
use std::alloc::Global;

/// Whether a field is configured.
fn is_configured(fields: &[Text], field: &Text) -> bool
    ensures { result ≡ has fields.now field.now }
{
    fields.contains(field)
}

/// Whether a field isn't configured.
fn is_unknown(fields: &[Text], field: &Text) -> bool
    ensures { result ≡ not (has fields.now field.now) }
{
    !is_configured(fields, field)
}

/// The first of some fields that isn't configured.
pub(crate) fn unknown_field<'a>(fields: &[Text], asked: &'a [Text]) -> Option<&'a Text>
    ensures { option_copied result ≡ unknown_field fields.now asked.now }
{
    for field in asked {
        if is_unknown(fields, field) {
            return Some(field);
        }
    }
    None
}

/// Puts some values at the end of a text, with a blank before each.
fn append_values(into: &mut Text, values: &[Text]) -> Result<(), Memory>
    ensures { OnOk result (into.new ≡ into.old ++ flat_map (λ value. 32 ∷ shown value) values.now) }
{
    for value in values {
        append_value(into, value.bytes())?;
    }
    Ok(())
}

/// Puts the line of a ticket at the end of a text: a date, its id, and some values.
fn append_ticket(into: &mut Text, date: Moment, id: Name, values: &[Text]) -> Result<(), Memory>
    ensures { OnOk result (into.new ≡ into.old ++ ticket_line date id values.now) }
{
    append_stamp(into, date, id)?;
    append_values(into, values)?;
    into.append(b"\n")
}

/// Puts the line of a ticket at the end of a text, which has a change: a date, its id, and its values of the fields of the table.
fn append_told(
    alloc: Global,
    into: &mut Text,
    table: &Tickets,
    date: Moment,
    id: Name,
) -> Result<(), Memory>
    requires { list_any (λ f. bytes_eq f.id id) table.now.facts ≡ true }
    ensures { OnOk result (into.new ≡ into.old ++ ticket_line date id (map (value table.now.facts id) table.now.fields)) }
{
    match table.fields(alloc, id)? {
        Some(values) => append_ticket(into, date, id, values.items()),
        None => Ok(()),
    }
}

/// Puts the lines of tickets at the end of a text, by the latest change of each.
fn append_tickets(
    alloc: Global,
    into: &mut Text,
    table: &Tickets,
    latest: &Newest,
) -> Result<(), Memory>
    requires { All (λ e. list_any (λ f. bytes_eq f.id e.1.1) table.now.facts ≡ true) latest.now.entries }
    ensures { OnOk result (into.new ≡ into.old ++ flat_map (λ e. ticket_line e.1.0 e.1.1 (map (value table.now.facts e.1.1) table.now.fields)) latest.now.entries) }
{
    for (_, change) in latest {
        append_told(alloc, into, table, change.0, change.1)?;
    }
    Ok(())
}

/// A line for each ticket, by the digits of its id: the date of its last change, its id, and its values of the fields of the table,
/// whose changes are these. It takes time by n log n of them. `Memory` is the only error.
pub(crate) fn lines(alloc: Global, table: &Tickets, changes: &[Fact]) -> Result<Text, Memory>
    requires { changes.now ≡ table.now.facts }
    ensures { IfOk result (λ text. text ≡ tickets_lines table.now.fields table.now.facts) }
{
    let latest = of_tickets(alloc, changes)?;
    rises(&latest);
    let mut text = Text::empty(alloc);
    append_tickets(alloc, &mut text, table, &latest)?;
    Ok(text)
}

/// The ids of tickets, ascending. `Memory` is the only error.
pub(crate) fn ids(alloc: Global, changes: &[Fact]) -> Result<Vec<Name>, Memory>
    ensures { IfOk result (λ ids. ids.items ≡ ticket_ids changes.now) }
{
    let mut ids = Vec::new(alloc);
    for change in changes {
        ids.push(change.id)?;
    }
    Ok(ordered(ids))
}
