//! The table of tags takes facts in, takes changes back, and answers.
ghost use Rattle.std.specs.List.{AllByRecursion};
ghost use Rattle.std.specs.Option.{option_copied};
ghost use Rattle.std.specs.Prelude.{◌≡◌, false, ◌+◌, ◌*◌, ◌≤◌, ◌<◌, [], ◌∷◌, length, map, OnOk, OnErr, IfOk};
ghost use Rattle.fsl_order.specs.TableState.{IsAsBefore};
ghost use Rattle.fsl_order.specs.Names.{has};
ghost use Rattle.fsl_order.specs.Rows.{by_name, ListsChanged};
ghost use Rattle.fsl_tags.specs.Conditions.{IsParentChange};
ghost use Rattle.fsl_tags.specs.Tags as table;

use super::arrive::{give_parent, take_in};
use super::build::fill;
use super::maps::{Maps, Ways};
use super::row::{Row, find};
use super::rows::row_of;
use super::{Assertion, Fact, gathered};
use fsl_name::Name;
use fsl_text::{List, Memory, Steps};
use std::alloc::Global;
use std::marker::{Brand, Model};
use std::sync::ledger::{Blank, Ledger};

/// This table has the tags of artifacts. Contracts see it as the facts by name, and the room that each table inside has to spare.
#[derive(Drop)]
pub struct Tags {
    maps: Maps,
}

impl Model for Tags {
    ghost use Rattle.fsl_order.specs.TableState.{TableState};
    ghost use Rattle.fsl_tags.specs.declared.Fact.{Fact};
    ghost use Rattle.fsl_tags.specs.Held.{held_of, rows_of, IsKept};

    ghost Value = { TableState Fact };

    ghost view = { λ t. held_of (rows_of t.maps) };

    ghost invariant = { λ t. IsKept (rows_of t.maps) };
}

/// An undo takes a change back.
#[derive(Drop)]
pub struct Undo {
    ways: Ways,
    changed: List<Name>,
}

impl Model for Undo {
    ghost use Rattle.fsl_order.specs.TableState.{Change};
    ghost use Rattle.fsl_tags.specs.declared.Fact.{Fact};
    ghost use Rattle.fsl_tags.specs.Held.{IsKept, ends_of, held_of, starts_of};

    ghost Value = { Change Fact };

    ghost view = { λ u. record { before = held_of (starts_of u.ways); after = held_of (ends_of u.ways); changed = u.changed } };

    ghost invariant = { λ u. IsKept (starts_of u.ways) × IsKept (ends_of u.ways) };
}

impl Undo {
    /// Lists the names whose rows the change changed, ascending.
    pub fn changed(&self) -> &List<Name>
        ensures { result.now ≡ self.now.changed }
    {
        &self.changed
    }
}

impl Tags {
    /// Makes a table of no facts. It takes no memory.
    pub fn new(alloc: Global) -> Tags
        ensures { result.facts ≡ [] }
    {
        Tags {
            maps: Maps::new(alloc),
        }
    }

    /// Builds the table of some facts, of which no two have one name. It is the same in whatever order they come, by the law
    /// `fsl_order::by_name_in_any_order`. `Memory` is the only error.
    pub fn build(alloc: Global, facts: &[Fact]) -> Result<Tags, Memory>
        requires { table.AreTagFacts facts.now }
        ensures facts { IfOk result (λ t. t.facts ≡ by_name (λ f. f.name) facts.now) }
    {
        Tags::build_counted::<Brand>(alloc, facts, Blank::new(1))
    }

    fn build_counted<L: Ledger>(alloc: Global, given: &[Fact], blank: Blank) -> Result<Tags, Memory>
        requires name { blank.name ≡ L.name }
        requires parts { blank.parts ≡ L.parts }
        requires counts { 0 < L.parts }
        requires fit { table.AreTagFacts given.now }
        ensures { IfOk result (λ t. t.facts ≡ by_name (λ f. f.name) given.now) }
    {
        let mut steps: Steps<L> = Steps::new(blank);
        let mut maps = Maps::new(alloc);
        match fill(alloc, given, &mut maps, &mut steps) {
            Ok(()) => Ok(Tags { maps }),
            Err(Memory) => {
                drop(maps);
                Err(Memory)
            }
        }
    }

    /// Adds a fact whose artifact isn't there. `Memory` is the only error, and the table then holds what it held.
    pub fn add<L: Ledger>(
        &mut self,
        alloc: Global,
        fact: Fact,
        steps: &mut Steps<L>,
    ) -> Result<Undo, Memory>
        requires absent { has (map (λ f. f.name) self.old.facts) fact.name ≡ false }
        requires fit { table.IsTagFact (fact ∷ self.old.facts) fact }
        ensures facts { OnOk result (self.new.facts ≡ by_name (λ f. f.name) (fact ∷ self.old.facts)) }
        ensures before { IfOk result (λ undo. undo.before ≡ self.old) }
        ensures after { IfOk result (λ undo. undo.after ≡ self.new) }
        ensures changed { IfOk result (λ undo. ListsChanged (table.tags_row self.old.facts) (table.tags_row self.new.facts) undo.changed) }
        ensures err { OnErr result (IsAsBefore self.old self.new) }
        ensures cost { AllByRecursion (λ a. a.target ≡ fact.name) fact.tags → steps.new ≤ steps.old + 20 * (1 + length fact.tags) }
    {
        self.maps.begin();
        match take_in(alloc, &mut self.maps, fact, steps) {
            Ok(changed) => Ok(Undo {
                ways: self.maps.ways(alloc),
                changed,
            }),
            Err(Memory) => {
                self.maps.turn_back(steps);
                Err(Memory)
            }
        }
    }

    /// Gives a fact that is there another primary parent. `Memory` is the only error, and the table then holds what it held.
    pub fn change<L: Ledger>(
        &mut self,
        alloc: Global,
        fact: Fact,
        steps: &mut Steps<L>,
    ) -> Result<Undo, Memory>
        requires change { IsParentChange self.old.facts fact }
        requires fit { table.IsTagFact self.old.facts fact }
        ensures facts { OnOk result (self.new.facts ≡ by_name (λ f. f.name) (fact ∷ self.old.facts)) }
        ensures before { IfOk result (λ undo. undo.before ≡ self.old) }
        ensures after { IfOk result (λ undo. undo.after ≡ self.new) }
        ensures changed { IfOk result (λ undo. ListsChanged (table.tags_row self.old.facts) (table.tags_row self.new.facts) undo.changed) }
        ensures err { OnErr result (IsAsBefore self.old self.new) }
    {
        self.maps.begin();
        match give_parent(alloc, &mut self.maps, fact, steps) {
            Ok(changed) => Ok(Undo {
                ways: self.maps.ways(alloc),
                changed,
            }),
            Err(Memory) => {
                self.maps.turn_back(steps);
                Err(Memory)
            }
        }
    }

    fn take_back<L: Ledger>(&mut self, undo: Undo, blank: Blank)
        requires name { blank.name ≡ L.name }
        requires parts { blank.parts ≡ L.parts }
        requires counts { 0 < L.parts }
        requires last { IsAsBefore undo.after self.old }
        ensures { IsAsBefore undo.before self.new }
    {
        let mut steps: Steps<L> = Steps::new(blank);
        let Undo { ways, .. } = undo;
        self.maps.undo(ways, &mut steps);
    }

    /// Takes back the last change that wasn't taken back. It takes no memory.
    pub fn undo(&mut self, undo: Undo)
        requires { IsAsBefore undo.after self.old }
        ensures { IsAsBefore undo.before self.new }
    {
        self.take_back::<Brand>(undo, Blank::new(1));
    }

    /// Finds the assertion of a tag that takes effect on a name: of those on the name and on its primary ancestors, the newest that is
    /// newer than each on a nearer name, where it propagates or is on the name itself. None where there is none. One that takes the
    /// tag away is given too.
    pub fn effective(&self, name: Name, tag: &[u8]) -> Option<&Assertion>
        ensures { option_copied result ≡ table.effective self.now.facts name tag.now }
    {
        self.effective_counted::<Brand>(name, tag, Blank::new(1))
    }

    fn effective_counted<L: Ledger>(
        &self,
        name: Name,
        tag: &[u8],
        blank: Blank,
    ) -> Option<&Assertion>
        requires name { blank.name ≡ L.name }
        requires parts { blank.parts ≡ L.parts }
        requires counts { 0 < L.parts }
        ensures { option_copied result ≡ table.effective self.now.facts name tag.now }
    {
        let mut steps: Steps<L> = Steps::new(blank);
        match self.maps.flow.rows.get(&name, &mut steps) {
            Some(row) => find(row, tag),
            None => None,
        }
    }

    /// Lists the assertions that put tags in force on a name, by rising tag: the effective ones, without those that take the tag away.
    /// `Memory` is the only error.
    pub fn in_force(&self, alloc: Global, name: Name) -> Result<List<Assertion>, Memory>
        ensures { IfOk result (λ list. list ≡ table.in_force self.now.facts name) }
    {
        self.in_force_counted::<Brand>(alloc, name, Blank::new(1))
    }

    fn in_force_counted<L: Ledger>(
        &self,
        alloc: Global,
        name: Name,
        blank: Blank,
    ) -> Result<List<Assertion>, Memory>
        requires name { blank.name ≡ L.name }
        requires parts { blank.parts ≡ L.parts }
        requires counts { 0 < L.parts }
        ensures { IfOk result (λ list. list ≡ table.in_force self.now.facts name) }
    {
        let mut steps: Steps<L> = Steps::new(blank);
        let none = Row::new();
        gathered::in_force(alloc, row_of(&self.maps.flow.rows, name, &none, &mut steps))
    }

    /// Lists the names on which a tag is in force, ascending. `Memory` is the only error.
    pub fn holders(&self, alloc: Global, tag: &[u8]) -> Result<List<Name>, Memory>
        ensures { IfOk result (λ names. names ≡ table.holders self.now.facts tag.now) }
    {
        self.holders_counted::<Brand>(alloc, tag, Blank::new(1))
    }

    fn holders_counted<L: Ledger>(
        &self,
        alloc: Global,
        tag: &[u8],
        blank: Blank,
    ) -> Result<List<Name>, Memory>
        requires name { blank.name ≡ L.name }
        requires parts { blank.parts ≡ L.parts }
        requires counts { 0 < L.parts }
        ensures { IfOk result (λ names. names ≡ table.holders self.now.facts tag.now) }
    {
        let mut steps: Steps<L> = Steps::new(blank);
        gathered::holders(alloc, &self.maps.flow.rows, tag, &mut steps)
    }
}
