//! Keeps the table of unclustered and missing names.
ghost use Rattle.std.specs.Prelude.{◌≡◌, ◌+◌, ◌*◌, ◌≤◌, ◌<◌, [], ◌∷◌, length, false, true, map, Some, OnOk, OnErr, IfOk};
ghost use Rattle.fsl_order.specs.Names.{has};
ghost use Rattle.fsl_order.specs.Rows.{by_name, named, AreDistinct, ListsChanged};
ghost use Rattle.fsl_order.specs.TableState.{IsAsBefore};
ghost use Rattle.fsl_cluster.specs.Clusters.{clusters_row};
ghost use Rattle.fsl_cluster.specs.Clusters as table;

use super::Fact;
use super::build::{copies, tables_of};
use super::maps::{Maps, Ways};
use super::rows::{put_new, put_over};
use super::tables::Tables;
use fsl_name::Name;
use fsl_table::keys::keys;
use fsl_text::{List, Memory, Steps};
use std::alloc::Global;
use std::marker::{Brand, Model};
use std::sync::ledger::{Blank, Ledger};

/// A table of the unclustered and the missing names of held artifacts. Contracts see it as the facts by name, and the room that
/// its maps have to spare.
#[derive(Drop)]
pub struct Clusters {
    pub(crate) maps: Maps,
}

impl Model for Clusters {
    ghost use Rattle.fsl_order.specs.TableState.{TableState};
    ghost use Rattle.fsl_cluster.specs.declared.Fact.{Fact};
    ghost use Rattle.fsl_cluster.specs.Kept.{held_of, tables_in, IsKept};

    ghost Value = { TableState Fact };

    ghost view = { λ c. held_of (tables_in c.maps) };

    ghost invariant = { λ c. IsKept (tables_in c.maps) };
}

/// The way back from a change, and the names whose rows it changed. Contracts see it as both, with the table before and after.
#[derive(Drop)]
pub struct Undo {
    ways: Ways,
    changed: List<Name>,
}

impl Model for Undo {
    ghost use Rattle.fsl_order.specs.TableState.{Change};
    ghost use Rattle.fsl_cluster.specs.declared.Fact.{Fact};
    ghost use Rattle.fsl_cluster.specs.Kept.{IsKept, ends_of, held_of, starts_of};

    ghost Value = { Change Fact };

    ghost view = { λ u. record { before = held_of (starts_of u.ways); after = held_of (ends_of u.ways); changed = u.changed } };

    ghost invariant = { λ u. IsKept (starts_of u.ways) × IsKept (ends_of u.ways) };
}

impl Undo {
    /// Returns the names whose rows the change changed, ascending. The row of a name says whether it is unclustered, and whether
    /// it is missing.
    pub fn changed(&self) -> &List<Name>
        ensures { result.now ≡ self.now.changed }
    {
        &self.changed
    }
}

impl Clusters {
    /// Returns a table without artifacts. Takes no memory.
    pub fn new(alloc: Global) -> Clusters
        ensures { result.facts ≡ [] }
    {
        Clusters {
            maps: Maps::of(alloc, Tables::new(alloc)),
        }
    }

    /// Makes the table of some facts. No two of them have one name. The table is the same in whatever order they come: that is
    /// the law `fsl_order::by_name_in_any_order`. The facts are copied. `Memory` is the only error.
    pub fn build(alloc: Global, facts: &[Fact]) -> Result<Clusters, Memory>
        requires { AreDistinct (map (λ f. f.name) facts.now) }
        ensures facts { IfOk result (λ t. t.facts ≡ by_name (λ f. f.name) facts.now) }
    {
        Clusters::from_facts(alloc, copies(alloc, facts)?)
    }

    /// Makes the table of some facts as `build` does, and moves them. None is copied. `Memory` is the only error.
    pub fn from_facts(alloc: Global, facts: List<Fact>) -> Result<Clusters, Memory>
        requires { AreDistinct (map (λ f. f.name) facts) }
        ensures facts { IfOk result (λ t. t.facts ≡ by_name (λ f. f.name) facts) }
    {
        Clusters::from_counted::<Brand>(alloc, facts, Blank::new(1))
    }

    fn from_counted<L: Ledger>(
        alloc: Global,
        facts: List<Fact>,
        blank: Blank,
    ) -> Result<Clusters, Memory>
        requires name { blank.name ≡ L.name }
        requires parts { blank.parts ≡ L.parts }
        requires counts { 0 < L.parts }
        requires distinct { AreDistinct (map (λ f. f.name) facts) }
        ensures facts { IfOk result (λ t. t.facts ≡ by_name (λ f. f.name) facts) }
    {
        let mut steps: Steps<L> = Steps::new(blank);
        let tables = tables_of(alloc, facts, &mut steps)?;
        Ok(Clusters {
            maps: Maps::of(alloc, tables),
        })
    }

    /// Adds an artifact. No other one of its name is in the table. `Memory` is the only error. The table then holds the same as
    /// before. It takes at most 6 touches, and 6 for each member and each name that is referred to.
    pub fn add<L: Ledger>(
        &mut self,
        alloc: Global,
        fact: Fact,
        steps: &mut Steps<L>,
    ) -> Result<Undo, Memory>
        requires absent { has (map (λ f. f.name) self.old.facts) fact.name ≡ false }
        ensures facts { OnOk result (self.new.facts ≡ by_name (λ f. f.name) (fact ∷ self.old.facts)) }
        ensures before { IfOk result (λ undo. undo.before ≡ self.old) }
        ensures after { IfOk result (λ undo. undo.after ≡ self.new) }
        ensures changed { IfOk result (λ undo. ListsChanged (clusters_row self.old.facts) (clusters_row self.new.facts) undo.changed) }
        ensures err { OnErr result (IsAsBefore self.old self.new) }
        ensures cost { steps.new ≤ steps.old + 6 * (1 + length fact.members + length fact.refs) }
    {
        self.maps.begin();
        match put_new(alloc, &mut self.maps, fact, steps) {
            Ok(changed) => Ok(Undo {
                ways: self.maps.ways(alloc),
                changed,
            }),
            Err(Memory) => {
                self.maps.turn_back(steps);
                Err(Memory)
            }
        }
    }

    /// Replaces the artifact of the same name. The table has one. `Memory` is the only error. The table then holds the same as
    /// before. Where a private artifact becomes public and is else the same, it takes at most 6 touches.
    pub fn change<L: Ledger>(
        &mut self,
        alloc: Global,
        fact: Fact,
        steps: &mut Steps<L>,
    ) -> Result<Undo, Memory>
        requires there { has (map (λ f. f.name) self.old.facts) fact.name ≡ true }
        ensures facts { OnOk result (self.new.facts ≡ by_name (λ f. f.name) (fact ∷ self.old.facts)) }
        ensures before { IfOk result (λ undo. undo.before ≡ self.old) }
        ensures after { IfOk result (λ undo. undo.after ≡ self.new) }
        ensures changed { IfOk result (λ undo. ListsChanged (clusters_row self.old.facts) (clusters_row self.new.facts) undo.changed) }
        ensures err { OnErr result (IsAsBefore self.old self.new) }
        ensures cost { named (λ f. f.name) self.old.facts fact.name ≡ Some (record fact { private = true }) → fact.private ≡ false → steps.new ≤ steps.old + 6 }
    {
        self.maps.begin();
        match put_over(alloc, &mut self.maps, fact, steps) {
            Ok(changed) => Ok(Undo {
                ways: self.maps.ways(alloc),
                changed,
            }),
            Err(Memory) => {
                self.maps.turn_back(steps);
                Err(Memory)
            }
        }
    }

    /// Undoes the last change that wasn't undone yet. It takes no memory.
    pub fn undo(&mut self, undo: Undo)
        requires { IsAsBefore undo.after self.old }
        ensures { IsAsBefore undo.before self.new }
    {
        self.take_back::<Brand>(undo, Blank::new(1));
    }

    fn take_back<L: Ledger>(&mut self, undo: Undo, blank: Blank)
        requires name { blank.name ≡ L.name }
        requires parts { blank.parts ≡ L.parts }
        requires counts { 0 < L.parts }
        requires last { IsAsBefore undo.after self.old }
        ensures { IsAsBefore undo.before self.new }
    {
        let mut steps: Steps<L> = Steps::new(blank);
        let Undo { ways, .. } = undo;
        self.maps.undo(ways, &mut steps);
    }

    /// Returns the names of the public artifacts that are in no M card of a held cluster, ascending. `Memory` is the only error.
    /// FORMATS: Derived tables
    pub fn unclustered(&self, alloc: Global) -> Result<List<Name>, Memory>
        ensures { IfOk result (λ names. names ≡ table.unclustered self.now.facts) }
    {
        self.unclustered_counted::<Brand>(alloc, Blank::new(1))
    }

    fn unclustered_counted<L: Ledger>(
        &self,
        alloc: Global,
        blank: Blank,
    ) -> Result<List<Name>, Memory>
        requires name { blank.name ≡ L.name }
        requires parts { blank.parts ≡ L.parts }
        requires counts { 0 < L.parts }
        ensures { IfOk result (λ names. names ≡ table.unclustered self.now.facts) }
    {
        let mut steps: Steps<L> = Steps::new(blank);
        keys(alloc, self.maps.unclustered.map(), &mut steps)
    }

    /// Returns the names that a held artifact refers to and that aren't held, ascending. `Memory` is the only error.
    /// FORMATS: Derived tables
    pub fn missing(&self, alloc: Global) -> Result<List<Name>, Memory>
        ensures { IfOk result (λ names. names ≡ table.missing self.now.facts) }
    {
        self.missing_counted::<Brand>(alloc, Blank::new(1))
    }

    fn missing_counted<L: Ledger>(&self, alloc: Global, blank: Blank) -> Result<List<Name>, Memory>
        requires name { blank.name ≡ L.name }
        requires parts { blank.parts ≡ L.parts }
        requires counts { 0 < L.parts }
        ensures { IfOk result (λ names. names ≡ table.missing self.now.facts) }
    {
        let mut steps: Steps<L> = Steps::new(blank);
        keys(alloc, self.maps.missing.map(), &mut steps)
    }
}
