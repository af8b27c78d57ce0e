//! Keeps the table of posts.
ghost use Rattle.std.specs.Prelude.{◌≡◌, ◌<◌, [], ◌∷◌, false, true, IfOk, OnOk, OnErr, map};
ghost use Rattle.fsl_order.specs.TableState.{IsAsBefore};
ghost use Rattle.fsl_order.specs.Names.{has};
ghost use Rattle.fsl_order.specs.Rows.{by_name, AreDistinct, ListsChanged};
ghost use Rattle.fsl_forum.specs.Threads.{threads_row};
ghost use Rattle.fsl_forum.specs.Threads as table;

use super::build::fill;
use super::gathered::posts_of;
use super::maps::{Maps, Ways};
use super::put::put;
use super::rows::end_of;
use super::{Fact, Post};
use fsl_name::Name;
use fsl_text::{List, Memory, Steps};
use std::alloc::Global;
use std::marker::{Brand, Model};
use std::sync::ledger::{Blank, Ledger};

/// A table of the posts of a forum in their threads. Contracts see it as the facts by name, and the room that its maps have to
/// spare.
#[derive(Drop)]
pub struct Threads {
    maps: Maps,
}

impl Model for Threads {
    ghost use Rattle.fsl_order.specs.TableState.{TableState};
    ghost use Rattle.fsl_forum.specs.declared.Fact.{Fact};
    ghost use Rattle.fsl_forum.specs.Held.{held_of, rows_of, IsKept};

    ghost Value = { TableState Fact };

    ghost view = { λ t. held_of (rows_of t.maps) };

    ghost invariant = { λ t. IsKept (rows_of t.maps) };
}

/// The way back from a change, and the names whose rows it changed. Contracts see it as both, with the table before and after.
#[derive(Drop)]
pub struct Undo {
    ways: Ways,
    changed: List<Name>,
}

impl Model for Undo {
    ghost use Rattle.fsl_order.specs.TableState.{Change};
    ghost use Rattle.fsl_forum.specs.declared.Fact.{Fact};
    ghost use Rattle.fsl_forum.specs.Held.{IsKept, ends_of, held_of, starts_of};

    ghost Value = { Change Fact };

    ghost view = { λ u. record { before = held_of (starts_of u.ways); after = held_of (ends_of u.ways); changed = u.changed } };

    ghost invariant = { λ u. IsKept (starts_of u.ways) × IsKept (ends_of u.ways) };
}

impl Undo {
    /// Returns the names whose rows the change changed, ascending. The row of a name has the thread of its valid post, and the
    /// kind of that post.
    pub fn changed(&self) -> &List<Name>
        ensures { result.now ≡ self.now.changed }
    {
        &self.changed
    }
}

impl Threads {
    /// Returns a table without posts. Takes no memory.
    pub fn new(alloc: Global) -> Threads
        ensures { result.facts ≡ [] }
    {
        Threads {
            maps: Maps::new(alloc),
        }
    }

    /// Makes the table of some posts. No two of them have one name. The table is the same in whatever order they come: that is
    /// the law `fsl_order::by_name_in_any_order`. It takes time by n log n of the posts. `Memory` is the only error.
    pub fn build(alloc: Global, facts: &[Fact]) -> Result<Threads, Memory>
        requires { AreDistinct (map (λ f. f.name) facts.now) }
        ensures facts { IfOk result (λ t. t.facts ≡ by_name (λ f. f.name) facts.now) }
    {
        Threads::build_counted::<Brand>(alloc, facts, Blank::new(1))
    }

    fn build_counted<L: Ledger>(
        alloc: Global,
        facts: &[Fact],
        blank: Blank,
    ) -> Result<Threads, Memory>
        requires name { blank.name ≡ L.name }
        requires parts { blank.parts ≡ L.parts }
        requires counts { 0 < L.parts }
        requires distinct { AreDistinct (map (λ f. f.name) facts.now) }
        ensures { IfOk result (λ t. t.facts ≡ by_name (λ f. f.name) facts.now) }
    {
        let mut steps: Steps<L> = Steps::new(blank);
        let mut maps = Maps::new(alloc);
        match fill(alloc, facts, &mut maps, &mut steps) {
            Ok(()) => Ok(Threads { maps }),
            Err(Memory) => {
                drop(maps);
                Err(Memory)
            }
        }
    }

    /// Adds a post. No other one of its name is in the table. `Memory` is the only error. The table then holds the same as
    /// before.
    pub fn add<L: Ledger>(
        &mut self,
        alloc: Global,
        fact: Fact,
        steps: &mut Steps<L>,
    ) -> Result<Undo, Memory>
        requires absent { has (map (λ f. f.name) self.old.facts) fact.name ≡ false }
        ensures facts { OnOk result (self.new.facts ≡ by_name (λ f. f.name) (fact ∷ self.old.facts)) }
        ensures before { IfOk result (λ undo. undo.before ≡ self.old) }
        ensures after { IfOk result (λ undo. undo.after ≡ self.new) }
        ensures changed { IfOk result (λ undo. ListsChanged (threads_row self.old.facts) (threads_row self.new.facts) undo.changed) }
        ensures err { OnErr result (IsAsBefore self.old self.new) }
    {
        self.put(alloc, fact, steps)
    }

    /// Replaces the post of the same name. The table has one. `Memory` is the only error. The table then holds the same as
    /// before.
    pub fn change<L: Ledger>(
        &mut self,
        alloc: Global,
        fact: Fact,
        steps: &mut Steps<L>,
    ) -> Result<Undo, Memory>
        requires there { has (map (λ f. f.name) self.old.facts) fact.name ≡ true }
        ensures facts { OnOk result (self.new.facts ≡ by_name (λ f. f.name) (fact ∷ self.old.facts)) }
        ensures before { IfOk result (λ undo. undo.before ≡ self.old) }
        ensures after { IfOk result (λ undo. undo.after ≡ self.new) }
        ensures changed { IfOk result (λ undo. ListsChanged (threads_row self.old.facts) (threads_row self.new.facts) undo.changed) }
        ensures err { OnErr result (IsAsBefore self.old self.new) }
    {
        self.put(alloc, fact, steps)
    }

    /// Puts a post, in the place of that of its name where there is one.
    fn put<L: Ledger>(
        &mut self,
        alloc: Global,
        fact: Fact,
        steps: &mut Steps<L>,
    ) -> Result<Undo, Memory>
        ensures facts { OnOk result (self.new.facts ≡ by_name (λ f. f.name) (fact ∷ self.old.facts)) }
        ensures before { IfOk result (λ undo. undo.before ≡ self.old) }
        ensures after { IfOk result (λ undo. undo.after ≡ self.new) }
        ensures changed { IfOk result (λ undo. ListsChanged (threads_row self.old.facts) (threads_row self.new.facts) undo.changed) }
        ensures err { OnErr result (IsAsBefore self.old self.new) }
    {
        self.maps.begin();
        match put(alloc, &mut self.maps, fact, steps) {
            Ok(changed) => Ok(Undo {
                ways: self.maps.ways(alloc),
                changed,
            }),
            Err(Memory) => {
                self.maps.turn_back(steps);
                Err(Memory)
            }
        }
    }

    /// Undoes the last change that wasn't undone yet. It takes no memory.
    pub fn undo(&mut self, undo: Undo)
        requires { IsAsBefore undo.after self.old }
        ensures { IsAsBefore undo.before self.new }
    {
        self.take_back::<Brand>(undo, Blank::new(1));
    }

    fn take_back<L: Ledger>(&mut self, undo: Undo, blank: Blank)
        requires name { blank.name ≡ L.name }
        requires parts { blank.parts ≡ L.parts }
        requires counts { 0 < L.parts }
        requires last { IsAsBefore undo.after self.old }
        ensures { IsAsBefore undo.before self.new }
    {
        let mut steps: Steps<L> = Steps::new(blank);
        let Undo { ways, .. } = undo;
        self.maps.undo(ways, &mut steps);
    }

    /// Returns the thread of a valid post, which is the end of its chain of next posts. Where a step of the chain leads to no
    /// post, or the chain goes in a circle, the thread is the root that the post names, or its own name where it names none. The
    /// answer is `None` where there is no such post, or it isn't valid: its chain has an end, and the post names another root.
    /// FORMATS: Derived tables
    pub fn place(&self, name: Name) -> Option<Name>
        ensures { result ≡ table.place self.now.facts name }
    {
        self.place_counted::<Brand>(name, Blank::new(1))
    }

    fn place_counted<L: Ledger>(&self, name: Name, blank: Blank) -> Option<Name>
        requires name { blank.name ≡ L.name }
        requires parts { blank.parts ≡ L.parts }
        requires counts { 0 < L.parts }
        ensures { result ≡ table.place self.now.facts name }
    {
        let mut steps: Steps<L> = Steps::new(blank);
        match self.maps.posts.get(&name, &mut steps) {
            Some(node) => node.place(name, end_of(&self.maps.ends, name, &mut steps)),
            None => None,
        }
    }

    /// Returns the valid posts of a thread by date, and at one date by name. The list is empty where no valid post is in it.
    /// `Memory` is the only error.
    /// FORMATS: Derived tables
    pub fn thread(&self, alloc: Global, root: Name) -> Result<List<Post>, Memory>
        ensures { IfOk result (λ posts. posts ≡ table.thread self.now.facts root) }
    {
        self.thread_counted::<Brand>(alloc, root, Blank::new(1))
    }

    fn thread_counted<L: Ledger>(
        &self,
        alloc: Global,
        root: Name,
        blank: Blank,
    ) -> Result<List<Post>, Memory>
        requires name { blank.name ≡ L.name }
        requires parts { blank.parts ≡ L.parts }
        requires counts { 0 < L.parts }
        ensures { IfOk result (λ posts. posts ≡ table.thread self.now.facts root) }
    {
        let mut steps: Steps<L> = Steps::new(blank);
        let names = self.maps.placed.seconds(alloc, root, &mut steps)?;
        posts_of(alloc, &self.maps.posts, names.items(), &mut steps)
    }
}
