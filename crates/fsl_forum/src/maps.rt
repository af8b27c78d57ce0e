//! Keeps the facts in maps.
ghost use Rattle.std.specs.Prelude.{◌≡◌, []};
ghost use Rattle.fsl_forum.specs.Held.{AreAsGood, ends_of, rows_before, rows_of, starts_of};

use crate::node::Node;
use fsl_name::Name;
use fsl_table::{Pair, Tracked, Way};
use fsl_text::Steps;
use std::alloc::Global;
use std::sync::ledger::Ledger;

/// The maps of a table of posts.
#[derive(Drop)]
pub struct Maps {
    pub posts: Tracked<Name, Node>,
    /// Has a pair for each next post and the post that leads to it. The next post need not be there.
    pub followers: Tracked<Pair, ()>,
    /// Maps the name of each post with a whole chain to the end of that chain.
    pub ends: Tracked<Name, Name>,
    /// Has a pair for each thread and each valid post in it.
    pub placed: Tracked<Pair, ()>,
}

/// The way back from a change, for each map.
#[derive(Drop)]
pub struct Ways {
    pub posts: Way<Name, Node>,
    pub followers: Way<Pair, ()>,
    pub ends: Way<Name, Name>,
    pub placed: Way<Pair, ()>,
}

impl Maps {
    /// Returns maps without posts. Takes no memory.
    pub fn new(alloc: Global) -> Maps
        ensures posts { result.posts.held.entries ≡ [] }
        ensures followers { result.followers.held.entries ≡ [] }
        ensures ends { result.ends.held.entries ≡ [] }
        ensures placed { result.placed.held.entries ≡ [] }
    {
        Maps {
            posts: Tracked::new(alloc),
            followers: Tracked::new(alloc),
            ends: Tracked::new(alloc),
            placed: Tracked::new(alloc),
        }
    }

    /// Begins a change.
    pub fn begin(&mut self)
        ensures rows { rows_of self.new ≡ rows_of self.old }
        ensures was { rows_before self.new ≡ rows_of self.old }
    {
        self.posts.begin();
        self.followers.begin();
        self.ends.begin();
        self.placed.begin();
    }

    /// Undoes the change that was begun. It takes no memory.
    pub fn turn_back<L: Ledger>(&mut self, steps: &mut Steps<L>)
        ensures { AreAsGood (rows_before self.old) (rows_of self.new) }
    {
        self.posts.turn_back(steps);
        self.followers.turn_back(steps);
        self.ends.turn_back(steps);
        self.placed.turn_back(steps);
    }

    /// Returns the way back of each map. The rows stay as they are.
    pub fn ways(&mut self, alloc: Global) -> Ways
        ensures ends { ends_of result ≡ rows_of self.old }
        ensures starts { starts_of result ≡ rows_before self.old }
        ensures rows { rows_of self.new ≡ rows_of self.old }
    {
        Ways {
            posts: self.posts.way(alloc),
            followers: self.followers.way(alloc),
            ends: self.ends.way(alloc),
            placed: self.placed.way(alloc),
        }
    }

    /// Undoes the change whose ways back are given. The rows must be as good as those where these ways end. It takes no memory.
    pub fn undo<L: Ledger>(&mut self, ways: Ways, steps: &mut Steps<L>)
        requires { AreAsGood (ends_of ways) (rows_of self.old) }
        ensures { AreAsGood (starts_of ways) (rows_of self.new) }
    {
        self.posts.undo(ways.posts, steps);
        self.followers.undo(ways.followers, steps);
        self.ends.undo(ways.ends, steps);
        self.placed.undo(ways.placed, steps);
    }
}
