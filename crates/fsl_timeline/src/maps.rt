//! Keeps the rows in maps.
ghost use Rattle.std.specs.Prelude.{◌≡◌, ◌+◌, []};
ghost use Rattle.fsl_timeline.specs.Kept.{AreAsGood, ends_of, rows_before, rows_in, starts_of, steps_back};

use crate::entry::Entry;
use crate::place::Place;
use fsl_name::Name;
use fsl_table::{Tracked, Way};
use fsl_text::Steps;
use std::alloc::Global;
use std::sync::ledger::Ledger;

/// The maps of a timeline.
#[derive(Drop)]
pub struct Maps {
    /// Maps the name of each row to the rest of it.
    pub rows: Tracked<Name, Entry>,
    /// Has the time and the name of each row, in the order of the timeline.
    pub places: Tracked<Place, ()>,
}

/// The way back from a change, for each map.
#[derive(Drop)]
pub struct Ways {
    pub rows: Way<Name, Entry>,
    pub places: Way<Place, ()>,
}

impl Maps {
    /// Returns maps without rows. Takes no memory.
    pub fn new(alloc: Global) -> Maps
        ensures rows { result.rows.held.entries ≡ [] }
        ensures places { result.places.held.entries ≡ [] }
    {
        Maps {
            rows: Tracked::new(alloc),
            places: Tracked::new(alloc),
        }
    }

    /// Begins a change.
    pub fn begin(&mut self)
        ensures held { rows_in self.new ≡ rows_in self.old }
        ensures was { rows_before self.new ≡ rows_in self.old }
        ensures back { steps_back self.new ≡ 0 }
    {
        self.rows.begin();
        self.places.begin();
    }

    /// Undoes the change that was begun. It takes no memory.
    pub fn turn_back<L: Ledger>(&mut self, steps: &mut Steps<L>)
        ensures good { AreAsGood (rows_before self.old) (rows_in self.new) }
        ensures cost { steps.new ≡ steps.old + steps_back self.old }
    {
        self.rows.turn_back(steps);
        self.places.turn_back(steps);
    }

    /// Returns the way back of each map. The rows stay as they are.
    pub fn ways(&mut self, alloc: Global) -> Ways
        ensures ends { ends_of result ≡ rows_in self.old }
        ensures starts { starts_of result ≡ rows_before self.old }
        ensures held { rows_in self.new ≡ rows_in self.old }
    {
        Ways {
            rows: self.rows.way(alloc),
            places: self.places.way(alloc),
        }
    }

    /// Undoes the change whose ways back are given. The rows must be as good as those where these ways end. It takes no memory.
    pub fn undo<L: Ledger>(&mut self, ways: Ways, steps: &mut Steps<L>)
        requires { AreAsGood (ends_of ways) (rows_in self.old) }
        ensures { AreAsGood (starts_of ways) (rows_in self.new) }
    {
        self.rows.undo(ways.rows, steps);
        self.places.undo(ways.places, steps);
    }
}
