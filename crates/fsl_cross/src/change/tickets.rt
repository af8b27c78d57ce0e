//! One artifact more in the table of tickets.
ghost use Rattle.std.specs.Prelude.{◌≡◌, ◌∷◌, false, map, OnOk, None};
ghost use Rattle.fsl_order.specs.Names.{has};
ghost use Rattle.fsl_order.specs.Rows.{by_name};
ghost use Rattle.fsl_cross.specs.Tables.{ticket_facts, without};
ghost use Rattle.fsl_cross.specs.Mixed.{IsIn};
ghost use Rattle.fsl_cross.specs.Trails.{TicketsLed};
ghost use Rattle.fsl_cross.specs.Facts.{ticket_fact};

use crate::facts::tickets::fact_of;
use crate::held::Held;
use crate::items::Items;
use crate::reversible::keep;
use fsl_text::{List, Memory, Steps};
use fsl_ticket::{Fact, Tickets, Undo};
use std::alloc::Global;
use std::sync::ledger::Ledger;

/// Adds a fact, and keeps what takes that back. `Memory` is the only error.
fn put<L: Ledger>(
    alloc: Global,
    tickets: &mut Tickets,
    undos: &mut List<Undo>,
    fact: Fact,
    steps: &mut Steps<L>,
) -> Result<(), Memory>
    requires { has (map (λ f. f.name) tickets.old.facts) fact.name ≡ false }
    ensures fields { OnOk result (tickets.new.fields ≡ tickets.old.fields) }
    ensures facts { OnOk result (tickets.new.facts ≡ by_name (λ f. f.name) (fact ∷ tickets.old.facts)) }
    ensures led { TicketsLed tickets.old undos.old tickets.new undos.new }
{
    let undo = tickets.add(alloc, fact, steps)?;
    keep(tickets, undos, undo)
}

/// Takes an artifact in that is new in a set. `Memory` is the only error.
pub(crate) fn add<L: Ledger>(
    alloc: Global,
    tickets: &mut Tickets,
    undos: &mut List<Undo>,
    items: &Items,
    item: &Held,
    steps: &mut Steps<L>,
) -> Result<(), Memory>
    requires new { IsIn items.now item.now }
    requires facts { tickets.old.facts ≡ ticket_facts (without item.now.name items.now) }
    ensures fields { OnOk result (tickets.new.fields ≡ tickets.old.fields) }
    ensures facts { OnOk result (tickets.new.facts ≡ ticket_facts items.now) }
    ensures led { TicketsLed tickets.old undos.old tickets.new undos.new }
    ensures idle { ticket_fact item.now ≡ None → steps.new ≡ steps.old }
{
    match fact_of(alloc, item)? {
        Some(fact) => put(alloc, tickets, undos, fact, steps),
        None => Ok(()),
    }
}
