//! Makes changes of tickets. Each ten in a row are those of one ticket.
ghost use Rattle.std.specs.Prelude.{◌≡◌, ◌<◌, ◌∷◌, ◌/◌, [], codes, IfOk, IsTrue};
ghost use Rattle.fsl_forms.specs.WellFormed.{is_ticket_well_formed};
ghost use Rattle.fsl_gen.specs.Table.{appended, numbered, replaced, ticket_at, ticket_id};

use crate::by_number::{date_of, numbered, user_of};
use fsl_forms::{Ticket, TicketChange};
use fsl_name::Name;
use fsl_text::{List, Memory, Text};
use std::alloc::Global;

/// Makes the ticket change of a number. The id of its ticket is the name of the ticket's number, written in decimal. `Memory` is
/// the only error.
pub fn ticket(alloc: Global, number: u64) -> Result<Ticket, Memory>
    requires few { number < 100_000 }
    ensures value { IfOk result (λ ticket. ticket ≡ ticket_at number) }
    ensures written { IfOk result (λ ticket. IsTrue (is_ticket_well_formed ticket)) }
{
    let ticket = id_of(alloc, number)?;
    let user = user_of(alloc, number)?;
    Ok(Ticket {
        changes: changes(alloc, number)?,
        date: date_of(number),
        id: ticket,
        user,
    })
}

/// Computes the id of the ticket that a change belongs to.
fn id_of(alloc: Global, number: u64) -> Result<Name, Memory>
    ensures { IfOk result (λ id. id ≡ ticket_id (number / 40)) }
{
    let ticket = numbered(alloc, b"", number / 40)?;
    Ok(Name::of(ticket.bytes()))
}

/// Returns the changes of one artifact: it appends to the comment, and sets the status.
fn changes(alloc: Global, number: u64) -> Result<List<TicketChange>, Memory>
    ensures { IfOk result (λ changes. changes ≡ appended (numbered (codes "x") number) ∷ replaced ∷ []) }
{
    let mut changes = List::new(alloc);
    let value = numbered(alloc, b"x", number)?;
    changes.append(appended(alloc, value)?)?;
    changes.append(replaced(alloc)?)?;
    Ok(changes)
}

/// Makes the change that appends to the comment.
fn appended(alloc: Global, value: Text) -> Result<TicketChange, Memory>
    ensures { IfOk result (λ change. change ≡ appended value) }
{
    Ok(TicketChange {
        append: true,
        field: Text::of(alloc, b"comment")?,
        value: Some(value),
    })
}

/// Makes the change that opens the status.
fn replaced(alloc: Global) -> Result<TicketChange, Memory>
    ensures { IfOk result (λ change. change ≡ replaced) }
{
    Ok(TicketChange {
        append: false,
        field: Text::of(alloc, b"status")?,
        value: Some(Text::of(alloc, b"open")?),
    })
}
