//! Keeps the facts in maps, with ways back.
ghost use Rattle.std.specs.Prelude.{◌≡◌, ◌+◌};
ghost use Rattle.fsl_cluster.specs.Kept.{AreAsGood, ends_of, starts_of, steps_back, tables_before, tables_in};

use crate::entry::Entry;
use crate::tables::Tables;
use fsl_name::Name;
use fsl_table::{Pair, Tracked, Way};
use fsl_text::Steps;
use std::alloc::Global;
use std::sync::ledger::Ledger;

/// The maps of a table of facts.
#[derive(Drop)]
pub struct Maps {
    /// Maps the name of each fact to the rest of it.
    pub facts: Tracked<Name, Entry>,
    /// Has a pair for each name of an M card and the cluster with that card.
    pub members: Tracked<Pair, ()>,
    /// Has a pair for each name that an artifact refers to, and that artifact.
    pub refs: Tracked<Pair, ()>,
    /// Has the public names that are in no M card.
    pub unclustered: Tracked<Name, ()>,
    /// Has the names that an artifact refers to and that aren't held.
    pub missing: Tracked<Name, ()>,
}

/// The way back from a change, for each map.
#[derive(Drop)]
pub struct Ways {
    pub facts: Way<Name, Entry>,
    pub members: Way<Pair, ()>,
    pub refs: Way<Pair, ()>,
    pub unclustered: Way<Name, ()>,
    pub missing: Way<Name, ()>,
}

impl Maps {
    /// Makes the maps of tables that were filled without a way back. Takes no memory.
    pub fn of(alloc: Global, tables: Tables) -> Maps
        ensures { tables_in result ≡ tables }
    {
        let Tables {
            facts,
            members,
            refs,
            unclustered,
            missing,
        } = tables;
        Maps {
            facts: Tracked::of(alloc, facts),
            members: Tracked::of(alloc, members),
            refs: Tracked::of(alloc, refs),
            unclustered: Tracked::of(alloc, unclustered),
            missing: Tracked::of(alloc, missing),
        }
    }

    /// Begins a change.
    pub fn begin(&mut self)
        ensures held { tables_in self.new ≡ tables_in self.old }
        ensures was { tables_before self.new ≡ tables_in self.old }
        ensures back { steps_back self.new ≡ 0 }
    {
        self.facts.begin();
        self.members.begin();
        self.refs.begin();
        self.unclustered.begin();
        self.missing.begin();
    }

    /// Undoes the change that was begun. It takes no memory.
    pub fn turn_back<L: Ledger>(&mut self, steps: &mut Steps<L>)
        ensures good { AreAsGood (tables_before self.old) (tables_in self.new) }
        ensures cost { steps.new ≡ steps.old + steps_back self.old }
    {
        self.facts.turn_back(steps);
        self.members.turn_back(steps);
        self.refs.turn_back(steps);
        self.unclustered.turn_back(steps);
        self.missing.turn_back(steps);
    }

    /// Returns the way back of each map. The rows stay as they are.
    pub fn ways(&mut self, alloc: Global) -> Ways
        ensures ends { ends_of result ≡ tables_in self.old }
        ensures starts { starts_of result ≡ tables_before self.old }
        ensures held { tables_in self.new ≡ tables_in self.old }
    {
        Ways {
            facts: self.facts.way(alloc),
            members: self.members.way(alloc),
            refs: self.refs.way(alloc),
            unclustered: self.unclustered.way(alloc),
            missing: self.missing.way(alloc),
        }
    }

    /// Undoes the change whose ways back are given. The rows must be as good as those where these ways end. It takes no memory.
    pub fn undo<L: Ledger>(&mut self, ways: Ways, steps: &mut Steps<L>)
        requires { AreAsGood (ends_of ways) (tables_in self.old) }
        ensures { AreAsGood (starts_of ways) (tables_in self.new) }
    {
        self.facts.undo(ways.facts, steps);
        self.members.undo(ways.members, steps);
        self.refs.undo(ways.refs, steps);
        self.unclustered.undo(ways.unclustered, steps);
        self.missing.undo(ways.missing, steps);
    }
}
