//! Keeps the table of leaves.
ghost use Rattle.std.specs.Prelude.{◌≡◌, ◌+◌, ◌*◌, ◌≤◌, ◌<◌, [], ◌∷◌, length, false, true, map, OnOk, OnErr, IfOk};
ghost use Rattle.std.specs.List.{list_any};
ghost use Rattle.fsl_order.specs.Names.{has};
ghost use Rattle.fsl_order.specs.Rows.{by_name, AreDistinct, ListsChanged};
ghost use Rattle.fsl_order.specs.TableState.{IsAsBefore};
ghost use Rattle.fsl_leaves.specs.Leaves.{leaves_row};
ghost use Rattle.fsl_leaves.specs.Leaves as table;

use super::Fact;
use super::maps::{Maps, Ways};
use super::rows::{put_all, put_listed};
use fsl_name::{Name, Named};
use fsl_table::keys::keys;
use fsl_text::{List, Memory, Steps};
use std::alloc::Global;
use std::marker::{Brand, Model};
use std::sync::ledger::{Blank, Ledger};

/// A table of the leaves among check-ins. Contracts see it as the facts by name, and the room that its maps have to spare.
#[derive(Drop)]
pub struct Leaves {
    maps: Maps,
}

impl Model for Leaves {
    ghost use Rattle.fsl_order.specs.TableState.{TableState};
    ghost use Rattle.fsl_leaves.specs.declared.Fact.{Fact};
    ghost use Rattle.fsl_leaves.specs.Kept.{held_of, rows_of, IsKept};

    ghost Value = { TableState Fact };

    ghost view = { λ l. held_of (rows_of l.maps) };

    ghost invariant = { λ l. IsKept (rows_of l.maps) };
}

/// The way back from a change, and the names whose rows it changed. Contracts see it as both, with the table before and after.
#[derive(Drop)]
pub struct Undo {
    ways: Ways,
    changed: List<Name>,
}

impl Model for Undo {
    ghost use Rattle.fsl_order.specs.TableState.{Change};
    ghost use Rattle.fsl_leaves.specs.declared.Fact.{Fact};
    ghost use Rattle.fsl_leaves.specs.Kept.{IsKept, ends_of, held_of, starts_of};

    ghost Value = { Change Fact };

    ghost view = { λ u. record { before = held_of (starts_of u.ways); after = held_of (ends_of u.ways); changed = u.changed } };

    ghost invariant = { λ u. IsKept (starts_of u.ways) × IsKept (ends_of u.ways) };
}

impl Undo {
    /// Returns the names whose rows the change changed, ascending. The row of a name says whether it is a leaf.
    pub fn changed(&self) -> &List<Name>
        ensures { result.now ≡ self.now.changed }
    {
        &self.changed
    }
}

/// Copies of some facts.
fn copies(alloc: Global, facts: &[Fact]) -> Result<List<Fact>, Memory>
    ensures { IfOk result (λ list. list ≡ facts.now) }
{
    let mut list = Vec::new(alloc);
    for fact in facts {
        list.push(fact.copied(alloc)?)?;
    }
    Ok(List::from_vec(list))
}

impl Leaves {
    /// Returns a table without check-ins. Takes no memory.
    pub fn new(alloc: Global) -> Leaves
        ensures { result.facts ≡ [] }
    {
        Leaves {
            maps: Maps::new(alloc),
        }
    }

    /// Makes the table of some facts. No two of them have one name. The table is the same in whatever order they come: that is
    /// the law `fsl_order::by_name_in_any_order`. The facts are copied. `Memory` is the only error.
    pub fn build(alloc: Global, facts: &[Fact]) -> Result<Leaves, Memory>
        requires { AreDistinct (map (λ f. f.name) facts.now) }
        ensures facts { IfOk result (λ t. t.facts ≡ by_name (λ f. f.name) facts.now) }
    {
        Leaves::from_facts(alloc, copies(alloc, facts)?)
    }

    /// Makes the table of some facts as `build` does, and moves them. None is copied. `Memory` is the only error.
    pub fn from_facts(alloc: Global, facts: List<Fact>) -> Result<Leaves, Memory>
        requires { AreDistinct (map (λ f. f.name) facts) }
        ensures facts { IfOk result (λ t. t.facts ≡ by_name (λ f. f.name) facts) }
    {
        Leaves::from_counted::<Brand>(alloc, facts, Blank::new(1))
    }

    fn from_counted<L: Ledger>(
        alloc: Global,
        facts: List<Fact>,
        blank: Blank,
    ) -> Result<Leaves, Memory>
        requires name { blank.name ≡ L.name }
        requires parts { blank.parts ≡ L.parts }
        requires counts { 0 < L.parts }
        requires distinct { AreDistinct (map (λ f. f.name) facts) }
        ensures facts { IfOk result (λ t. t.facts ≡ by_name (λ f. f.name) facts) }
    {
        let mut steps: Steps<L> = Steps::new(blank);
        Leaves::from_all(alloc, facts, &mut steps)
    }

    /// The same, on a counter that is there.
    fn from_all<L: Ledger>(
        alloc: Global,
        facts: List<Fact>,
        steps: &mut Steps<L>,
    ) -> Result<Leaves, Memory>
        requires { AreDistinct (map (λ f. f.name) facts) }
        ensures facts { IfOk result (λ t. t.facts ≡ by_name (λ f. f.name) facts) }
    {
        let mut maps = Maps::new(alloc);
        match put_all(alloc, &mut maps, facts, steps) {
            Ok(()) => Ok(Leaves { maps }),
            Err(Memory) => Err(Memory),
        }
    }

    /// Adds a check-in. No other one of its name is in the table. `Memory` is the only error. The table then holds the same as
    /// before. Where no check-in names it as a parent, it takes at most 6 touches, and 6 for each parent.
    pub fn add<L: Ledger>(
        &mut self,
        alloc: Global,
        fact: Fact,
        steps: &mut Steps<L>,
    ) -> Result<Undo, Memory>
        requires absent { has (map (λ f. f.name) self.old.facts) fact.name ≡ false }
        ensures facts { OnOk result (self.new.facts ≡ by_name (λ f. f.name) (fact ∷ self.old.facts)) }
        ensures before { IfOk result (λ undo. undo.before ≡ self.old) }
        ensures after { IfOk result (λ undo. undo.after ≡ self.new) }
        ensures changed { IfOk result (λ undo. ListsChanged (leaves_row self.old.facts) (leaves_row self.new.facts) undo.changed) }
        ensures err { OnErr result (IsAsBefore self.old self.new) }
        ensures cost { list_any (λ f. has f.parents fact.name) self.old.facts ≡ false → steps.new ≤ steps.old + 6 * (1 + length fact.parents) }
    {
        self.put(alloc, fact, true, steps)
    }

    /// Replaces the check-in of the same name. The table has one. `Memory` is the only error. The table then holds the same as
    /// before.
    pub fn change<L: Ledger>(
        &mut self,
        alloc: Global,
        fact: Fact,
        steps: &mut Steps<L>,
    ) -> Result<Undo, Memory>
        requires there { has (map (λ f. f.name) self.old.facts) fact.name ≡ true }
        ensures facts { OnOk result (self.new.facts ≡ by_name (λ f. f.name) (fact ∷ self.old.facts)) }
        ensures before { IfOk result (λ undo. undo.before ≡ self.old) }
        ensures after { IfOk result (λ undo. undo.after ≡ self.new) }
        ensures changed { IfOk result (λ undo. ListsChanged (leaves_row self.old.facts) (leaves_row self.new.facts) undo.changed) }
        ensures err { OnErr result (IsAsBefore self.old self.new) }
    {
        self.put(alloc, fact, false, steps)
    }

    /// Puts a check-in, a new one where `new` says so, or in the place of that of its name.
    fn put<L: Ledger>(
        &mut self,
        alloc: Global,
        fact: Fact,
        new: bool,
        steps: &mut Steps<L>,
    ) -> Result<Undo, Memory>
        requires absent { new ≡ true → has (map (λ f. f.name) self.old.facts) fact.name ≡ false }
        ensures facts { OnOk result (self.new.facts ≡ by_name (λ f. f.name) (fact ∷ self.old.facts)) }
        ensures before { IfOk result (λ undo. undo.before ≡ self.old) }
        ensures after { IfOk result (λ undo. undo.after ≡ self.new) }
        ensures changed { IfOk result (λ undo. ListsChanged (leaves_row self.old.facts) (leaves_row self.new.facts) undo.changed) }
        ensures err { OnErr result (IsAsBefore self.old self.new) }
        ensures cost { new ≡ true → list_any (λ f. has f.parents fact.name) self.old.facts ≡ false → steps.new ≤ steps.old + 6 * (1 + length fact.parents) }
    {
        self.maps.begin();
        match put_listed(alloc, &mut self.maps, fact, new, steps) {
            Ok(changed) => Ok(Undo {
                ways: self.maps.ways(alloc),
                changed,
            }),
            Err(Memory) => {
                self.maps.turn_back(steps);
                Err(Memory)
            }
        }
    }

    /// Undoes the last change that wasn't undone yet. It takes no memory.
    pub fn undo(&mut self, undo: Undo)
        requires { IsAsBefore undo.after self.old }
        ensures { IsAsBefore undo.before self.new }
    {
        self.take_back::<Brand>(undo, Blank::new(1));
    }

    fn take_back<L: Ledger>(&mut self, undo: Undo, blank: Blank)
        requires name { blank.name ≡ L.name }
        requires parts { blank.parts ≡ L.parts }
        requires counts { 0 < L.parts }
        requires last { IsAsBefore undo.after self.old }
        ensures { IsAsBefore undo.before self.new }
    {
        let mut steps: Steps<L> = Steps::new(blank);
        let Undo { ways, .. } = undo;
        self.maps.undo(ways, &mut steps);
    }

    /// Returns the check-ins without a child in their own branch, ascending. `Memory` is the only error.
    /// FORMATS: Derived tables
    pub fn leaves(&self, alloc: Global) -> Result<List<Name>, Memory>
        ensures { IfOk result (λ names. names ≡ table.leaves self.now.facts) }
    {
        self.leaves_counted::<Brand>(alloc, Blank::new(1))
    }

    fn leaves_counted<L: Ledger>(&self, alloc: Global, blank: Blank) -> Result<List<Name>, Memory>
        requires name { blank.name ≡ L.name }
        requires parts { blank.parts ≡ L.parts }
        requires counts { 0 < L.parts }
        ensures { IfOk result (λ names. names ≡ table.leaves self.now.facts) }
    {
        let mut steps: Steps<L> = Steps::new(blank);
        keys(alloc, self.maps.leaves.map(), &mut steps)
    }
}
