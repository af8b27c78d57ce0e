//! Finds the values of the fields of each ticket from its changes. `Tickets` is the table of them. It answers as the definitions
//! do over the changes that it holds. It is the same in whatever order these came: that is the law
//! `fsl_order::by_name_in_any_order`. One call adds a change, and another one replaces a change. Each returns the ids whose rows
//! differ, and can be undone.
#![tactic(auto)]

ghost use Rattle.std.specs.Prelude.{◌≡◌, IfOk};

mod cards;
mod differs;
mod entry;
mod field;
mod maps;
mod place;
mod rows;
mod sets;
mod tickets;
mod values;
mod walk;

use fsl_date::Moment;
use fsl_name::Name;
use fsl_text::{List, Memory, Text};
use std::alloc::Global;
pub use tickets::{Tickets, Undo};

/// A J card. It replaces the value of a field, or adds to its end.
#[derive(Drop)]
pub struct FieldChange {
    /// Says whether the card adds the value to the end of the field, and doesn't replace the field.
    pub append: bool,
    /// The name of the field.
    pub field: Text,
    /// The value. It is empty where the card has none.
    pub value: Text,
}

impl FieldChange {
    /// Returns a card with the same content. `Memory` is the only error.
    pub fn copied(&self, alloc: Global) -> Result<FieldChange, Memory>
        ensures { IfOk result (λ card. card ≡ self.now) }
    {
        Ok(FieldChange {
            append: self.append,
            field: Text::of(alloc, self.field.bytes())?,
            value: Text::of(alloc, self.value.bytes())?,
        })
    }
}

/// A ticket change.
#[derive(Drop)]
pub struct Fact {
    /// The name of its artifact.
    pub name: Name,
    /// The date of its artifact.
    pub date: Moment,
    /// The id of the ticket.
    pub id: Name,
    /// Its J cards, in their order.
    pub changes: List<FieldChange>,
}

impl Fact {
    /// Returns a change with the same content. `Memory` is the only error.
    pub fn copied(&self, alloc: Global) -> Result<Fact, Memory>
        ensures { IfOk result (λ fact. fact ≡ self.now) }
    {
        Ok(Fact {
            name: self.name,
            date: self.date,
            id: self.id,
            changes: cards::copied(alloc, self.changes.items())?,
        })
    }
}
