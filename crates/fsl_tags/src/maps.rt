//! The maps hold facts and rows.
ghost use Rattle.std.specs.Prelude.{◌≡◌, ◌+◌, []};
ghost use Rattle.fsl_tags.specs.Held.{AreAsGood, ends_of, rows_before, rows_of, starts_of, steps_back};

use super::node::Node;
use super::row::Row;
use fsl_name::Name;
use fsl_table::{Pair, Tracked, Way};
use fsl_text::Steps;
use std::alloc::Global;
use std::collections::BTreeMap;
use std::sync::ledger::Ledger;

/// A graph has the facts, and the children of each primary parent.
#[derive(Drop)]
pub struct Graph {
    pub facts: Tracked<Name, Node>,
    /// A pair for each primary parent and child.
    pub children: Tracked<Pair, ()>,
}

/// A flow has the rows of effective assertions, and knows how far a change has come down.
#[derive(Drop)]
pub struct Flow {
    /// By the name of each that has one its row.
    pub rows: Tracked<Name, Row>,
    /// The rows that the change has replaced.
    pub noted: BTreeMap<Name, Row>,
    /// The names whose children are still to follow.
    pub waiting: Vec<Name>,
}

/// These are the maps of a table of tags.
#[derive(Drop)]
pub struct Maps {
    pub graph: Graph,
    /// The newest assertions on each name.
    pub own: Tracked<Name, Row>,
    pub flow: Flow,
}

/// These are the ways back of a change.
#[derive(Drop)]
pub struct Ways {
    pub facts: Way<Name, Node>,
    pub children: Way<Pair, ()>,
    pub own: Way<Name, Row>,
    pub rows: Way<Name, Row>,
}

impl Maps {
    /// Makes maps without facts. It takes no memory.
    pub fn new(alloc: Global) -> Maps
        ensures facts { result.graph.facts.held.entries ≡ [] }
        ensures children { result.graph.children.held.entries ≡ [] }
        ensures own { result.own.held.entries ≡ [] }
        ensures rows { result.flow.rows.held.entries ≡ [] }
    {
        Maps {
            graph: Graph {
                facts: Tracked::new(alloc),
                children: Tracked::new(alloc),
            },
            own: Tracked::new(alloc),
            flow: Flow {
                rows: Tracked::new(alloc),
                noted: BTreeMap::new(alloc),
                waiting: Vec::new(alloc),
            },
        }
    }

    /// Begins a change: from now on all ways back end here.
    pub fn begin(&mut self)
        ensures rows { rows_of self.new ≡ rows_of self.old }
        ensures was { rows_before self.new ≡ rows_of self.old }
        ensures back { steps_back self.new ≡ 0 }
        ensures noted { self.new.flow.noted.entries ≡ [] }
    {
        self.graph.facts.begin();
        self.graph.children.begin();
        self.own.begin();
        self.flow.rows.begin();
        self.flow.noted.clear();
    }

    /// Goes back to where the change began. It takes no memory.
    pub fn turn_back<L: Ledger>(&mut self, steps: &mut Steps<L>)
        ensures good { AreAsGood (rows_before self.old) (rows_of self.new) }
        ensures cost { steps.new ≡ steps.old + steps_back self.old }
    {
        self.graph.facts.turn_back(steps);
        self.graph.children.turn_back(steps);
        self.own.turn_back(steps);
        self.flow.rows.turn_back(steps);
        self.flow.noted.clear();
    }

    /// Hands out the ways back, and begins the next change. It takes no memory.
    pub fn ways(&mut self, alloc: Global) -> Ways
        ensures ends { ends_of result ≡ rows_of self.old }
        ensures starts { starts_of result ≡ rows_before self.old }
        ensures rows { rows_of self.new ≡ rows_of self.old }
    {
        Ways {
            facts: self.graph.facts.way(alloc),
            children: self.graph.children.way(alloc),
            own: self.own.way(alloc),
            rows: self.flow.rows.way(alloc),
        }
    }

    /// Goes these ways back, from maps that are as good as their ends. It takes no memory.
    pub fn undo<L: Ledger>(&mut self, ways: Ways, steps: &mut Steps<L>)
        requires { AreAsGood (ends_of ways) (rows_of self.old) }
        ensures { AreAsGood (starts_of ways) (rows_of self.new) }
    {
        self.graph.facts.undo(ways.facts, steps);
        self.graph.children.undo(ways.children, steps);
        self.own.undo(ways.own, steps);
        self.flow.rows.undo(ways.rows, steps);
    }
}
