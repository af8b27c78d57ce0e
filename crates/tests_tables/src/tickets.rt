//! A ticket change that comes to be one of another ticket, and is taken back.
ghost use Rattle.std.specs.Prelude.{◌≡◌, [], true, map, IfOk, OnOk};
ghost use Rattle.fsl_order.specs.Names.{has};

use crate::names::letter;
use crate::wanting::want;
use fsl_name::Name;
use fsl_text::{List, Memory, Steps, Text};
use fsl_ticket::{Fact, FieldChange, Tickets, Undo};
use std::alloc::Global;
use std::sync::ledger::Ledger;
use tests_kit::{Play, add, moment, put_names, shown};

/// The text of a change, at the end of the field `f`.
fn field_change(alloc: Global) -> Result<FieldChange, Memory> {
    let field = Text::of(alloc, b"f")?;
    Ok(FieldChange {
        append: true,
        field,
        value: Text::of(alloc, b"1")?,
    })
}

/// A change of a ticket.
fn change_of(alloc: Global, name: Name, id: u8) -> Result<Fact, Memory>
    ensures { IfOk result (λ fact. fact.name ≡ name) }
{
    let date = moment(1)?;
    let mut changes = List::new(alloc);
    changes.append(field_change(alloc)?)?;
    Ok(Fact {
        name,
        date,
        id: letter(id),
        changes,
    })
}

/// Adds the first field of a ticket, or a dash.
fn add_field(alloc: Global, tickets: &Tickets, id: u8, into: &mut Text) -> Result<(), Memory> {
    let Some(values) = tickets.fields(alloc, letter(id))? else {
        return add(into, b"-");
    };
    match values.items().first() {
        Some(value) => add(into, value.bytes()),
        None => Ok(()),
    }
}

/// Adds the first fields of two tickets, as far as there is memory.
fn show(alloc: Global, tickets: &Tickets, into: &mut Text) {
    let _ = add_field(alloc, tickets, b'x', into);
    let _ = add_field(alloc, tickets, b'y', into);
}

/// Takes a change of `x` in.
fn come<L: Ledger>(
    alloc: Global,
    tickets: &mut Tickets,
    name: Name,
    steps: &mut Steps<L>,
) -> Result<(), Memory>
    requires { tickets.old.facts ≡ [] }
    ensures { OnOk result (has (map (λ f. f.name) tickets.new.facts) name ≡ true) }
{
    let fact = change_of(alloc, name, b'x')?;
    match tickets.add(alloc, fact, steps) {
        Ok(undo) => {
            drop(undo);
            Ok(())
        }
        Err(Memory) => Err(Memory),
    }
}

/// Takes the last change back: which tickets it changed, and what stands before and after.
fn take_back(alloc: Global, tickets: &mut Tickets, undo: Undo, into: &mut Text)
    requires { undo.after ≡ tickets.old }
{
    put_names(into, undo.changed().items());
    show(alloc, tickets, into);
    tickets.undo(undo);
    show(alloc, tickets, into);
}

/// Puts a change of `y` in the place of one and takes that back.
fn move_back<L: Ledger>(
    alloc: Global,
    tickets: &mut Tickets,
    name: Name,
    into: &mut Text,
    steps: &mut Steps<L>,
) -> Result<(), Memory>
    requires { has (map (λ f. f.name) tickets.old.facts) name ≡ true }
{
    let moved = change_of(alloc, name, b'y')?;
    match tickets.change(alloc, moved, steps) {
        Ok(undo) => {
            take_back(alloc, tickets, undo, into);
            Ok(())
        }
        Err(Memory) => Err(Memory),
    }
}

/// Takes a change in and moves it: what stands after each.
fn come_and_move<L: Ledger>(
    alloc: Global,
    tickets: &mut Tickets,
    into: &mut Text,
    steps: &mut Steps<L>,
) -> Result<(), Memory>
    requires { tickets.old.facts ≡ [] }
{
    let name = letter(b'a');
    come(alloc, tickets, name, steps)?;
    show(alloc, tickets, into);
    move_back(alloc, tickets, name, into, steps)
}

/// A table of tickets with the field `f`.
fn table(alloc: Global) -> Result<Tickets, Memory>
    ensures { IfOk result (λ tickets. tickets.facts ≡ []) }
{
    let mut fields = List::new(alloc);
    fields.append(Text::of(alloc, b"f")?)?;
    Tickets::build(alloc, &fields, &[])
}

/// A change comes to be one of another ticket.
struct OfTickets;

impl Play for OfTickets {
    fn play<L: Ledger>(
        &self,
        alloc: Global,
        into: &mut Text,
        steps: &mut Steps<L>,
    ) -> Result<(), Memory> {
        let mut tickets = table(alloc)?;
        come_and_move(alloc, &mut tickets, into, steps)
    }
}

#[test]
fn a_change_moves_to_another_ticket(rt: HostRuntime) -> Result<(), Memory> {
    want(
        &rt,
        shown(rt.alloc(), &OfTickets)?,
        b" 1 - 11f6 95cb - 1 1 -",
    );
    Ok(())
}
