//! Keeps the table of parents and children.
ghost use Rattle.std.specs.Prelude.{◌≡◌, ◌+◌, ◌*◌, ◌≤◌, [], ◌∷◌, ◌<◌, length, false, true, map, OnOk, OnErr, IfOk};
ghost use Rattle.fsl_order.specs.Names.{has};
ghost use Rattle.fsl_order.specs.Rows.{by_name, AreDistinct, ListsChanged};
ghost use Rattle.fsl_order.specs.TableState.{IsAsBefore};
ghost use Rattle.fsl_links.specs.Links.{links_row, children as children_of, primary as primary_of};

use super::Fact;
use super::maps::{Maps, Ways};
use super::rows::{first_parent, is_there, put_either, put_fact};
use fsl_name::{Name, Named};
use fsl_text::{List, Memory, Steps};
use std::alloc::Global;
use std::marker::{Brand, Model};
use std::sync::ledger::{Blank, Ledger};

/// A table of the parents and the children of check-ins. Contracts see it as the facts by name, and the room that its maps have
/// to spare.
#[derive(Drop)]
pub struct Links {
    maps: Maps,
}

impl Model for Links {
    ghost use Rattle.fsl_order.specs.TableState.{TableState};
    ghost use Rattle.fsl_links.specs.declared.Fact.{Fact};
    ghost use Rattle.fsl_links.specs.Kept.{held_of, rows_of, IsKept};

    ghost Value = { TableState Fact };

    ghost view = { λ l. held_of (rows_of l.maps) };

    ghost invariant = { λ l. IsKept (rows_of l.maps) };
}

/// The way back from a change, and the names whose rows it changed. Contracts see it as both, with the table before and after.
#[derive(Drop)]
pub struct Undo {
    ways: Ways,
    changed: List<Name>,
}

impl Model for Undo {
    ghost use Rattle.fsl_order.specs.TableState.{Change};
    ghost use Rattle.fsl_links.specs.declared.Fact.{Fact};
    ghost use Rattle.fsl_links.specs.Kept.{IsKept, ends_of, held_of, starts_of};

    ghost Value = { Change Fact };

    ghost view = { λ u. record { before = held_of (starts_of u.ways); after = held_of (ends_of u.ways); changed = u.changed } };

    ghost invariant = { λ u. IsKept (starts_of u.ways) × IsKept (ends_of u.ways) };
}

impl Undo {
    /// Returns the names whose rows the change changed, ascending. A row is the primary parent and the children of a name.
    pub fn changed(&self) -> &List<Name>
        ensures { result.now ≡ self.now.changed }
    {
        &self.changed
    }
}

impl Links {
    /// Returns a table without check-ins. Takes no memory.
    pub fn new(alloc: Global) -> Links
        ensures { result.facts ≡ [] }
    {
        Links {
            maps: Maps::new(alloc),
        }
    }

    /// Makes the table of some facts. No two of them have one name. The table is the same in whatever order they come: that is
    /// the law `fsl_order::by_name_in_any_order`. `Memory` is the only error.
    pub fn build(alloc: Global, facts: &[Fact]) -> Result<Links, Memory>
        requires { AreDistinct (map (λ f. f.name) facts.now) }
        ensures facts { IfOk result (λ t. t.facts ≡ by_name (λ f. f.name) facts.now) }
    {
        Links::build_counted::<Brand>(alloc, facts, Blank::new(1))
    }

    fn build_counted<L: Ledger>(
        alloc: Global,
        facts: &[Fact],
        blank: Blank,
    ) -> Result<Links, Memory>
        requires name { blank.name ≡ L.name }
        requires parts { blank.parts ≡ L.parts }
        requires counts { 0 < L.parts }
        requires distinct { AreDistinct (map (λ f. f.name) facts.now) }
        ensures facts { IfOk result (λ t. t.facts ≡ by_name (λ f. f.name) facts.now) }
    {
        let mut steps: Steps<L> = Steps::new(blank);
        let mut maps = Maps::new(alloc);
        let mut left = facts.len();
        while left > 0 {
            left -= 1;
            let fact = facts[left].copied(alloc)?;
            maps.begin();
            put_fact(&mut maps, fact, &mut steps)?;
        }
        Ok(Links { maps })
    }

    /// Adds a check-in. No other one of its name is in the table. `Memory` is the only error. The table then holds the same as
    /// before. Where no check-in names it as a parent, it takes at most 6 touches, and 6 for each parent.
    pub fn add<L: Ledger>(
        &mut self,
        alloc: Global,
        fact: Fact,
        steps: &mut Steps<L>,
    ) -> Result<Undo, Memory>
        requires absent { has (map (λ f. f.name) self.old.facts) fact.name ≡ false }
        ensures facts { OnOk result (self.new.facts ≡ by_name (λ f. f.name) (fact ∷ self.old.facts)) }
        ensures before { IfOk result (λ undo. undo.before ≡ self.old) }
        ensures after { IfOk result (λ undo. undo.after ≡ self.new) }
        ensures changed { IfOk result (λ undo. ListsChanged (links_row self.old.facts) (links_row self.new.facts) undo.changed) }
        ensures err { OnErr result (IsAsBefore self.old self.new) }
        ensures cost { children_of self.old.facts fact.name ≡ [] → steps.new ≤ steps.old + 6 * (1 + length fact.parents) }
    {
        self.put(alloc, fact, steps)
    }

    /// Replaces the check-in of the same name. The table has one. `Memory` is the only error. The table then holds the same as
    /// before.
    pub fn change<L: Ledger>(
        &mut self,
        alloc: Global,
        fact: Fact,
        steps: &mut Steps<L>,
    ) -> Result<Undo, Memory>
        requires there { has (map (λ f. f.name) self.old.facts) fact.name ≡ true }
        ensures facts { OnOk result (self.new.facts ≡ by_name (λ f. f.name) (fact ∷ self.old.facts)) }
        ensures before { IfOk result (λ undo. undo.before ≡ self.old) }
        ensures after { IfOk result (λ undo. undo.after ≡ self.new) }
        ensures changed { IfOk result (λ undo. ListsChanged (links_row self.old.facts) (links_row self.new.facts) undo.changed) }
        ensures err { OnErr result (IsAsBefore self.old self.new) }
    {
        self.put(alloc, fact, steps)
    }

    /// Puts a check-in, in the place of that of its name where there is one.
    fn put<L: Ledger>(
        &mut self,
        alloc: Global,
        fact: Fact,
        steps: &mut Steps<L>,
    ) -> Result<Undo, Memory>
        ensures facts { OnOk result (self.new.facts ≡ by_name (λ f. f.name) (fact ∷ self.old.facts)) }
        ensures before { IfOk result (λ undo. undo.before ≡ self.old) }
        ensures after { IfOk result (λ undo. undo.after ≡ self.new) }
        ensures changed { IfOk result (λ undo. ListsChanged (links_row self.old.facts) (links_row self.new.facts) undo.changed) }
        ensures err { OnErr result (IsAsBefore self.old self.new) }
        ensures cost { has (map (λ f. f.name) self.old.facts) fact.name ≡ false → children_of self.old.facts fact.name ≡ [] → steps.new ≤ steps.old + 6 * (1 + length fact.parents) }
    {
        self.maps.begin();
        match put_either(alloc, &mut self.maps, fact, steps) {
            Ok(changed) => Ok(Undo {
                ways: self.maps.ways(alloc),
                changed,
            }),
            Err(Memory) => {
                self.maps.turn_back(steps);
                Err(Memory)
            }
        }
    }

    /// Undoes the last change that wasn't undone yet. It takes no memory.
    pub fn undo(&mut self, undo: Undo)
        requires { IsAsBefore undo.after self.old }
        ensures { IsAsBefore undo.before self.new }
    {
        self.take_back::<Brand>(undo, Blank::new(1));
    }

    fn take_back<L: Ledger>(&mut self, undo: Undo, blank: Blank)
        requires name { blank.name ≡ L.name }
        requires parts { blank.parts ≡ L.parts }
        requires counts { 0 < L.parts }
        requires last { IsAsBefore undo.after self.old }
        ensures { IsAsBefore undo.before self.new }
    {
        let mut steps: Steps<L> = Steps::new(blank);
        let Undo { ways, .. } = undo;
        self.maps.undo(ways, &mut steps);
    }

    /// Returns the primary parent of a check-in, which is the first name of its P card. It is `None` where there is no check-in
    /// of the given name, it has no P card, or no check-in has that first name.
    /// FORMATS: Derived tables
    pub fn primary(&self, name: Name) -> Option<Name>
        ensures { result ≡ primary_of self.now.facts name }
    {
        self.primary_counted::<Brand>(name, Blank::new(1))
    }

    fn primary_counted<L: Ledger>(&self, name: Name, blank: Blank) -> Option<Name>
        requires name { blank.name ≡ L.name }
        requires parts { blank.parts ≡ L.parts }
        requires counts { 0 < L.parts }
        ensures { result ≡ primary_of self.now.facts name }
    {
        let mut steps: Steps<L> = Steps::new(blank);
        match first_parent(&self.maps.facts, name, &mut steps) {
            None => None,
            Some(first) => {
                if is_there(&self.maps.facts, &first, &mut steps) {
                    Some(first)
                } else {
                    None
                }
            }
        }
    }

    /// Returns the check-ins with the name in their P card, ascending. The name itself need not be a check-in. `Memory` is the
    /// only error.
    /// FORMATS: Derived tables
    pub fn children(&self, alloc: Global, name: Name) -> Result<List<Name>, Memory>
        ensures { IfOk result (λ names. names ≡ children_of self.now.facts name) }
    {
        self.children_counted::<Brand>(alloc, name, Blank::new(1))
    }

    fn children_counted<L: Ledger>(
        &self,
        alloc: Global,
        name: Name,
        blank: Blank,
    ) -> Result<List<Name>, Memory>
        requires name { blank.name ≡ L.name }
        requires parts { blank.parts ≡ L.parts }
        requires counts { 0 < L.parts }
        ensures { IfOk result (λ names. names ≡ children_of self.now.facts name) }
    {
        let mut steps: Steps<L> = Steps::new(blank);
        self.maps.children.seconds(alloc, name, &mut steps)
    }
}
