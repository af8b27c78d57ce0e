//! Makes the facts of tickets: ticket changes with their J cards.
ghost use Rattle.std.specs.Prelude.{◌≡◌, [], IfOk, map};
ghost use Rattle.std.specs.List.Sorted.{IsStrictlySortedBy};
ghost use Rattle.fsl_order.specs.Names.{bytes_cmp};
ghost use Rattle.fsl_cross.specs.Facts.{field_change, ticket_fact};
ghost use Rattle.fsl_cross.specs.Tables.{ticket_facts};

use super::{append, given};
use crate::held::Held;
use crate::items::Items;
use fsl_artifact::Artifact;
use fsl_forms::TicketChange;
use fsl_text::{List, Memory, Text};
use fsl_ticket::{Fact, FieldChange, Tickets};
use std::alloc::Global;

/// What a J card says. A missing value is empty.
fn change_of(alloc: Global, card: &TicketChange) -> Result<FieldChange, Memory>
    ensures { IfOk result (λ change. change ≡ field_change card.now) }
{
    Ok(FieldChange {
        append: card.append,
        field: Text::of(alloc, card.field.bytes())?,
        value: Text::of(alloc, given(&card.value))?,
    })
}

/// What J cards say, in their order.
fn changes_of(alloc: Global, cards: &[TicketChange]) -> Result<List<FieldChange>, Memory>
    ensures { IfOk result (λ changes. changes ≡ map field_change cards.now) }
{
    let mut changes = Vec::new(alloc);
    for card in cards {
        changes.push(change_of(alloc, card)?)?;
    }
    Ok(List::from_vec(changes))
}

/// The fact that an artifact gives, where it is a ticket change.
pub(crate) fn fact_of(alloc: Global, item: &Held) -> Result<Option<Fact>, Memory>
    ensures { IfOk result (λ fact. fact ≡ ticket_fact item.now) }
{
    match item.artifact() {
        Artifact::Ticket(ticket) => Ok(Some(Fact {
            name: item.name(),
            date: ticket.date,
            id: ticket.id,
            changes: changes_of(alloc, ticket.changes.items())?,
        })),
        _ => Ok(None),
    }
}

/// The facts that artifacts give. `Memory` is the only error.
pub(crate) fn of_items(alloc: Global, items: &Items) -> Result<Vec<Fact>, Memory>
    ensures { IfOk result (λ facts. facts.items ≡ ticket_facts items.now) }
{
    let mut facts = Vec::new(alloc);
    for item in items.iter() {
        append(&mut facts, fact_of(alloc, item)?)?;
    }
    Ok(facts)
}

/// The table of the configured fields and of ticket changes. `Memory` is the only error.
pub(crate) fn table(alloc: Global, fields: &List<Text>, items: &Items) -> Result<Tickets, Memory>
    requires { IsStrictlySortedBy bytes_cmp (map (λ i. i.name) items.now) }
    ensures { IfOk result (λ t. (t.fields ≡ fields.now) × (t.facts ≡ ticket_facts items.now)) }
{
    Tickets::build(alloc, fields, &of_items(alloc, items)?)
}
