//! Keeps the changes in maps.
ghost use Rattle.std.specs.Prelude.{◌≡◌, []};
ghost use Rattle.fsl_ticket.specs.Kept.{AreAsGood, IsKept, ends_of, rows_before, rows_of, starts_of};

use crate::entry::Entry;
use crate::field::TicketField;
use crate::place::Place;
use fsl_name::Name;
use fsl_table::{Tracked, Way, Within};
use fsl_text::Steps;
use std::alloc::Global;
use std::sync::ledger::Ledger;

/// The maps of the changes of tickets.
#[derive(Drop)]
pub struct Maps {
    /// Maps the name of each change to the rest of it.
    pub facts: Tracked<Name, Entry>,
    /// Has the ticket, the date and the name of each change.
    pub spots: Tracked<Within<Name, Place>, ()>,
    /// Has a key for each change and each field that it replaces: the ticket and the field, the date and the name of the change.
    pub sets: Tracked<Within<TicketField, Place>, ()>,
}

/// The way back from a change, for each map.
#[derive(Drop)]
pub struct Ways {
    pub facts: Way<Name, Entry>,
    pub spots: Way<Within<Name, Place>, ()>,
    pub sets: Way<Within<TicketField, Place>, ()>,
}

impl Maps {
    /// Returns maps without changes. Takes no memory.
    pub fn new(alloc: Global) -> Maps
        ensures none { result.facts.held.entries ≡ [] }
        ensures kept { IsKept (rows_of result) }
    {
        Maps {
            facts: Tracked::new(alloc),
            spots: Tracked::new(alloc),
            sets: Tracked::new(alloc),
        }
    }

    /// Begins a change.
    pub fn begin(&mut self)
        ensures rows { rows_of self.new ≡ rows_of self.old }
        ensures was { rows_before self.new ≡ rows_of self.old }
    {
        self.facts.begin();
        self.spots.begin();
        self.sets.begin();
    }

    /// Undoes the change that was begun. It takes no memory.
    pub fn turn_back<L: Ledger>(&mut self, steps: &mut Steps<L>)
        ensures { AreAsGood (rows_before self.old) (rows_of self.new) }
    {
        self.facts.turn_back(steps);
        self.spots.turn_back(steps);
        self.sets.turn_back(steps);
    }

    /// Returns the way back of each map. The rows stay as they are.
    pub fn ways(&mut self, alloc: Global) -> Ways
        ensures ends { ends_of result ≡ rows_of self.old }
        ensures starts { starts_of result ≡ rows_before self.old }
        ensures rows { rows_of self.new ≡ rows_of self.old }
    {
        Ways {
            facts: self.facts.way(alloc),
            spots: self.spots.way(alloc),
            sets: self.sets.way(alloc),
        }
    }

    /// Undoes the change whose ways back are given. The rows must be as good as those where these ways end. It takes no memory.
    pub fn undo<L: Ledger>(&mut self, ways: Ways, steps: &mut Steps<L>)
        requires { AreAsGood (ends_of ways) (rows_of self.old) }
        ensures { AreAsGood (starts_of ways) (rows_of self.new) }
    {
        self.facts.undo(ways.facts, steps);
        self.spots.undo(ways.spots, steps);
        self.sets.undo(ways.sets, steps);
    }
}
