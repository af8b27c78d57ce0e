//! Keeps the facts in maps.
ghost use Rattle.std.specs.Prelude.{◌≡◌, ◌+◌, []};
ghost use Rattle.fsl_wiki.specs.Kept.{AreAsGood, ends_of, rows_before, rows_of, starts_of, steps_back};

use crate::entry::Entry;
use crate::group::Group;
use crate::late::Late;
use fsl_name::Name;
use fsl_table::{Tracked, Way, Within};
use fsl_text::{Steps, Text};
use std::alloc::Global;
use std::sync::ledger::Ledger;

/// The maps of a table of pages, technotes and attachments.
#[derive(Drop)]
pub struct Maps {
    pub facts: Tracked<Name, Entry>,
    /// Has the group, the date and the name of each fact.
    pub spots: Tracked<Within<Group, Late>, ()>,
    /// Has the target, the date and the name of each attachment.
    pub targets: Tracked<Within<Text, Late>, ()>,
}

/// The way back from a change, for each map.
#[derive(Drop)]
pub struct Ways {
    pub facts: Way<Name, Entry>,
    pub spots: Way<Within<Group, Late>, ()>,
    pub targets: Way<Within<Text, Late>, ()>,
}

impl Maps {
    /// Returns maps without facts. Takes no memory.
    pub fn new(alloc: Global) -> Maps
        ensures facts { result.facts.held.entries ≡ [] }
        ensures spots { result.spots.held.entries ≡ [] }
        ensures targets { result.targets.held.entries ≡ [] }
    {
        Maps {
            facts: Tracked::new(alloc),
            spots: Tracked::new(alloc),
            targets: Tracked::new(alloc),
        }
    }

    /// Begins a change.
    pub fn begin(&mut self)
        ensures rows { rows_of self.new ≡ rows_of self.old }
        ensures was { rows_before self.new ≡ rows_of self.old }
        ensures back { steps_back self.new ≡ 0 }
    {
        self.facts.begin();
        self.spots.begin();
        self.targets.begin();
    }

    /// Undoes the change that was begun. It takes no memory.
    pub fn turn_back<L: Ledger>(&mut self, steps: &mut Steps<L>)
        ensures good { AreAsGood (rows_before self.old) (rows_of self.new) }
        ensures cost { steps.new ≡ steps.old + steps_back self.old }
    {
        self.facts.turn_back(steps);
        self.spots.turn_back(steps);
        self.targets.turn_back(steps);
    }

    /// Returns the way back of each map. The rows stay as they are.
    pub fn ways(&mut self, alloc: Global) -> Ways
        ensures ends { ends_of result ≡ rows_of self.old }
        ensures starts { starts_of result ≡ rows_before self.old }
        ensures rows { rows_of self.new ≡ rows_of self.old }
    {
        Ways {
            facts: self.facts.way(alloc),
            spots: self.spots.way(alloc),
            targets: self.targets.way(alloc),
        }
    }

    /// Undoes the change whose ways back are given. The rows must be as good as those where these ways end. It takes no memory.
    pub fn undo<L: Ledger>(&mut self, ways: Ways, steps: &mut Steps<L>)
        requires { AreAsGood (ends_of ways) (rows_of self.old) }
        ensures { AreAsGood (starts_of ways) (rows_of self.new) }
    {
        self.facts.undo(ways.facts, steps);
        self.spots.undo(ways.spots, steps);
        self.targets.undo(ways.targets, steps);
    }
}
