//! Keeps the facts in maps.
ghost use Rattle.std.specs.Prelude.{◌≡◌, ◌+◌, []};
ghost use Rattle.fsl_leaves.specs.Kept.{AreAsGood, ends_of, rows_before, rows_of, starts_of, steps_back};

use crate::kin::Twig;
use crate::line::Line;
use fsl_name::Name;
use fsl_table::{Tracked, Way, Within};
use fsl_text::Steps;
use std::alloc::Global;
use std::sync::ledger::Ledger;

/// The maps of a table of leaves.
#[derive(Drop)]
pub struct Maps {
    pub facts: Tracked<Name, Line>,
    /// Has a key for each name of a P card, with the check-in of that card and its branch.
    pub children: Tracked<Within<Twig, Name>, ()>,
    pub leaves: Tracked<Name, ()>,
}

/// The way back from a change, for each map.
#[derive(Drop)]
pub struct Ways {
    pub facts: Way<Name, Line>,
    pub children: Way<Within<Twig, Name>, ()>,
    pub leaves: Way<Name, ()>,
}

impl Maps {
    /// Returns maps without check-ins. Takes no memory.
    pub fn new(alloc: Global) -> Maps
        ensures facts { result.facts.held.entries ≡ [] }
        ensures children { result.children.held.entries ≡ [] }
        ensures leaves { result.leaves.held.entries ≡ [] }
    {
        Maps {
            facts: Tracked::new(alloc),
            children: Tracked::new(alloc),
            leaves: Tracked::new(alloc),
        }
    }

    /// Begins a change.
    pub fn begin(&mut self)
        ensures rows { rows_of self.new ≡ rows_of self.old }
        ensures was { rows_before self.new ≡ rows_of self.old }
        ensures back { steps_back self.new ≡ 0 }
    {
        self.facts.begin();
        self.children.begin();
        self.leaves.begin();
    }

    /// Undoes the change that was begun. It takes no memory.
    pub fn turn_back<L: Ledger>(&mut self, steps: &mut Steps<L>)
        ensures good { AreAsGood (rows_before self.old) (rows_of self.new) }
        ensures cost { steps.new ≡ steps.old + steps_back self.old }
    {
        self.facts.turn_back(steps);
        self.children.turn_back(steps);
        self.leaves.turn_back(steps);
    }

    /// Returns the way back of each map. The rows stay as they are.
    pub fn ways(&mut self, alloc: Global) -> Ways
        ensures ends { ends_of result ≡ rows_of self.old }
        ensures starts { starts_of result ≡ rows_before self.old }
        ensures rows { rows_of self.new ≡ rows_of self.old }
    {
        Ways {
            facts: self.facts.way(alloc),
            children: self.children.way(alloc),
            leaves: self.leaves.way(alloc),
        }
    }

    /// Undoes the change whose ways back are given. The rows must be as good as those where these ways end. It takes no memory.
    pub fn undo<L: Ledger>(&mut self, ways: Ways, steps: &mut Steps<L>)
        requires { AreAsGood (ends_of ways) (rows_of self.old) }
        ensures { AreAsGood (starts_of ways) (rows_of self.new) }
    {
        self.facts.undo(ways.facts, steps);
        self.children.undo(ways.children, steps);
        self.leaves.undo(ways.leaves, steps);
    }
}
