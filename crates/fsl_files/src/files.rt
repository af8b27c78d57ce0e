//! Keeps the table of files.
ghost use Rattle.std.specs.Prelude.{◌≡◌, ◌+◌, ◌≤◌, ◌<◌, ◌∷◌, [], false, true, IfOk, OnOk, OnErr, All, map};
ghost use Rattle.fsl_order.specs.TableState.{IsAsBefore};
ghost use Rattle.fsl_order.specs.Names.{has};
ghost use Rattle.fsl_order.specs.Rows.{by_name, AreDistinct, ListsChanged};
ghost use Rattle.fsl_files.specs.Conditions.{IsFilesFact};
ghost use Rattle.fsl_files.specs.Files as table;
ghost use Rattle.fsl_files.specs.Files.{files_row};
ghost use Rattle.fsl_files.specs.Kept.{IsKept, facts_of, rows_of};
ghost use Rattle.fsl_files.specs.Touches.{is_followed, file_most};

use super::entry::line_of;
use super::found::{Found, find, find_both};
use super::lookup::Lookup;
use super::maps::{Maps, Ways};
use super::put::{put_either, put_new};
use super::{Change, Fact, Listing, changes, rows};
use fsl_name::{Name, Named};
use fsl_text::{List, Memory, Steps};
use std::alloc::Global;
use std::marker::{Brand, Model};
use std::sync::ledger::{Blank, Ledger};

/// A table of the files of check-ins. Contracts see it as the facts by name, and the room that its maps have to spare.
#[derive(Drop)]
pub struct Files {
    maps: Maps,
}

impl Model for Files {
    ghost use Rattle.fsl_order.specs.TableState.{TableState};
    ghost use Rattle.fsl_files.specs.declared.Fact.{Fact};
    ghost use Rattle.fsl_files.specs.Kept.{held_of, rows_of, IsKept};

    ghost Value = { TableState Fact };

    ghost view = { λ t. held_of (rows_of t.maps) };

    ghost invariant = { λ t. IsKept (rows_of t.maps) };
}

/// The way back from a change, and the names whose rows it changed. Contracts see it as both, with the table before and after.
#[derive(Drop)]
pub struct Undo {
    ways: Ways,
    changed: List<Name>,
}

impl Model for Undo {
    ghost use Rattle.fsl_order.specs.TableState.{Change};
    ghost use Rattle.fsl_files.specs.declared.Fact.{Fact};
    ghost use Rattle.fsl_files.specs.Kept.{IsKept, ends_of, held_of, starts_of};

    ghost Value = { Change Fact };

    ghost view = { λ u. record { before = held_of (starts_of u.ways); after = held_of (ends_of u.ways); changed = u.changed } };

    ghost invariant = { λ u. IsKept (starts_of u.ways) × IsKept (ends_of u.ways) };
}

impl Undo {
    /// Returns the names whose rows the change changed, ascending. The row of a name has its files, and its changes against its
    /// primary parent.
    pub fn changed(&self) -> &List<Name>
        ensures { result.now ≡ self.now.changed }
    {
        &self.changed
    }
}

/// Puts some check-ins into maps that have none, the last one first.
fn fill<L: Ledger>(
    alloc: Global,
    maps: &mut Maps,
    facts: &[Fact],
    steps: &mut Steps<L>,
) -> Result<(), Memory>
    requires entries { maps.old.facts.held.entries ≡ [] }
    requires deltas { maps.old.deltas.held.entries ≡ [] }
    requires children { maps.old.children.held.entries ≡ [] }
    requires distinct { AreDistinct (map (λ f. f.name) facts.now) }
    requires fit { All IsFilesFact facts.now }
    ensures facts { OnOk result (facts_of maps.new.facts.held.entries ≡ by_name (λ f. f.name) facts.now) }
    ensures kept { OnOk result (IsKept (rows_of maps.new)) }
{
    let mut left = facts.len();
    while left > 0 {
        left -= 1;
        let fact = facts[left].copied(alloc)?;
        maps.begin();
        put_new(maps, line_of(fact), steps)?;
    }
    Ok(())
}

impl Files {
    /// Returns a table without check-ins. Takes no memory.
    pub fn new(alloc: Global) -> Files
        ensures { result.facts ≡ [] }
    {
        Files {
            maps: Maps::new(alloc),
        }
    }

    /// Makes the table of some facts. No two of them have one name. In each the files rise by path, and where it has no baseline
    /// each has a hash. The table is the same in whatever order the facts come: that is the law
    /// `fsl_order::by_name_in_any_order`. It takes time by n log n of the facts, and copies each once. `Memory` is the only
    /// error.
    pub fn build(alloc: Global, facts: &[Fact]) -> Result<Files, Memory>
        requires names { AreDistinct (map (λ f. f.name) facts.now) }
        requires fit { All IsFilesFact facts.now }
        ensures facts { IfOk result (λ t. t.facts ≡ by_name (λ f. f.name) facts.now) }
    {
        Files::build_counted::<Brand>(alloc, facts, Blank::new(1))
    }

    fn build_counted<L: Ledger>(
        alloc: Global,
        facts: &[Fact],
        blank: Blank,
    ) -> Result<Files, Memory>
        requires name { blank.name ≡ L.name }
        requires parts { blank.parts ≡ L.parts }
        requires counts { 0 < L.parts }
        requires distinct { AreDistinct (map (λ f. f.name) facts.now) }
        requires fit { All IsFilesFact facts.now }
        ensures facts { IfOk result (λ t. t.facts ≡ by_name (λ f. f.name) facts.now) }
    {
        let mut steps: Steps<L> = Steps::new(blank);
        let mut maps = Maps::new(alloc);
        match fill(alloc, &mut maps, facts, &mut steps) {
            Ok(()) => Ok(Files { maps }),
            Err(Memory) => {
                drop(maps);
                Err(Memory)
            }
        }
    }

    /// Adds a check-in, which is moved. No other one of its name is in the table. Its files rise by path, and where it has no
    /// baseline each has a hash. `Memory` is the only error. The table then holds the same as before. Where no check-in names it
    /// as its baseline or primary parent, it takes at most 10 touches, and 10 for each of its F cards and each file of its
    /// primary parent and of its baseline.
    pub fn add<L: Ledger>(
        &mut self,
        alloc: Global,
        fact: Fact,
        steps: &mut Steps<L>,
    ) -> Result<Undo, Memory>
        requires absent { has (map (λ f. f.name) self.old.facts) fact.name ≡ false }
        requires fit { IsFilesFact fact }
        ensures facts { OnOk result (self.new.facts ≡ by_name (λ f. f.name) (fact ∷ self.old.facts)) }
        ensures before { IfOk result (λ undo. undo.before ≡ self.old) }
        ensures after { IfOk result (λ undo. undo.after ≡ self.new) }
        ensures changed { IfOk result (λ undo. ListsChanged (files_row self.old.facts) (files_row self.new.facts) undo.changed) }
        ensures err { OnErr result (IsAsBefore self.old self.new) }
        ensures cost { is_followed self.old.facts fact.name ≡ false → steps.new ≤ steps.old + file_most self.old.facts fact }
    {
        self.put(alloc, fact, steps)
    }

    /// Replaces the check-in of the same name. The table has one. The new check-in is moved. Its files rise by path, and where it
    /// has no baseline each has a hash. `Memory` is the only error. The table then holds the same as before.
    pub fn change<L: Ledger>(
        &mut self,
        alloc: Global,
        fact: Fact,
        steps: &mut Steps<L>,
    ) -> Result<Undo, Memory>
        requires there { has (map (λ f. f.name) self.old.facts) fact.name ≡ true }
        requires fit { IsFilesFact fact }
        ensures facts { OnOk result (self.new.facts ≡ by_name (λ f. f.name) (fact ∷ self.old.facts)) }
        ensures before { IfOk result (λ undo. undo.before ≡ self.old) }
        ensures after { IfOk result (λ undo. undo.after ≡ self.new) }
        ensures changed { IfOk result (λ undo. ListsChanged (files_row self.old.facts) (files_row self.new.facts) undo.changed) }
        ensures err { OnErr result (IsAsBefore self.old self.new) }
    {
        self.put(alloc, fact, steps)
    }

    /// Puts a check-in, in the place of that of its name where there is one.
    fn put<L: Ledger>(
        &mut self,
        alloc: Global,
        fact: Fact,
        steps: &mut Steps<L>,
    ) -> Result<Undo, Memory>
        requires fit { IsFilesFact fact }
        ensures facts { OnOk result (self.new.facts ≡ by_name (λ f. f.name) (fact ∷ self.old.facts)) }
        ensures before { IfOk result (λ undo. undo.before ≡ self.old) }
        ensures after { IfOk result (λ undo. undo.after ≡ self.new) }
        ensures changed { IfOk result (λ undo. ListsChanged (files_row self.old.facts) (files_row self.new.facts) undo.changed) }
        ensures err { OnErr result (IsAsBefore self.old self.new) }
        ensures cost { has (map (λ f. f.name) self.old.facts) fact.name ≡ false → is_followed self.old.facts fact.name ≡ false → steps.new ≤ steps.old + 10 }
    {
        self.maps.begin();
        match put_either(alloc, &mut self.maps, line_of(fact), steps) {
            Ok(changed) => Ok(Undo {
                ways: self.maps.ways(alloc),
                changed,
            }),
            Err(Memory) => {
                self.maps.turn_back(steps);
                Err(Memory)
            }
        }
    }

    /// Undoes the last change that wasn't undone yet. It takes no memory.
    pub fn undo(&mut self, undo: Undo)
        requires { IsAsBefore undo.after self.old }
        ensures { IsAsBefore undo.before self.new }
    {
        self.take_back::<Brand>(undo, Blank::new(1));
    }

    fn take_back<L: Ledger>(&mut self, undo: Undo, blank: Blank)
        requires name { blank.name ≡ L.name }
        requires parts { blank.parts ≡ L.parts }
        requires counts { 0 < L.parts }
        requires last { IsAsBefore undo.after self.old }
        ensures { IsAsBefore undo.before self.new }
    {
        let mut steps: Steps<L> = Steps::new(blank);
        let Undo { ways, .. } = undo;
        self.maps.undo(ways, &mut steps);
    }

    /// Returns the files of a check-in, by rising path. Without a baseline they are its own. With one they are those of the
    /// baseline, where each file of the check-in replaces that of its path, and a file without a hash takes its path out. The
    /// answer is `NotCheckin` where no check-in has the name. It is `NoBaseline` where the baseline isn't there or has a baseline
    /// itself. It takes time by the length of both lists. `Memory` is the only error.
    /// FORMATS: Derived tables
    pub fn files(&self, alloc: Global, name: Name) -> Result<Listing, Memory>
        ensures { IfOk result (λ l. l ≡ table.files self.now.facts name) }
    {
        self.files_counted::<Brand>(alloc, name, Blank::new(1))
    }

    fn files_counted<L: Ledger>(
        &self,
        alloc: Global,
        name: Name,
        blank: Blank,
    ) -> Result<Listing, Memory>
        requires name { blank.name ≡ L.name }
        requires parts { blank.parts ≡ L.parts }
        requires counts { 0 < L.parts }
        ensures { IfOk result (λ l. l ≡ table.files self.now.facts name) }
    {
        let mut steps: Steps<L> = Steps::new(blank);
        match find(&Lookup::of(&self.maps.facts), name, &mut steps) {
            Found::NotCheckin => Ok(Listing::NotCheckin),
            Found::NoBaseline => Ok(Listing::NoBaseline),
            Found::Known(files) => Ok(Listing::Known(rows::collected(alloc, files)?)),
        }
    }

    /// Compares the files of a check-in with those of its primary parent, and returns the changes by rising path. A file is
    /// added, deleted, or edited where hash or permission differ. The permission `w` counts as none. The answer is `None` where
    /// the files of one of the two aren't defined, and where there is no primary parent. It takes time by the length of all lists
    /// that the two are made of. `Memory` is the only error.
    /// FORMATS: Derived tables
    pub fn changes(&self, alloc: Global, name: Name) -> Result<Option<List<Change>>, Memory>
        ensures { IfOk result (λ c. c ≡ table.changes self.now.facts name) }
    {
        self.changes_counted::<Brand>(alloc, name, Blank::new(1))
    }

    fn changes_counted<L: Ledger>(
        &self,
        alloc: Global,
        name: Name,
        blank: Blank,
    ) -> Result<Option<List<Change>>, Memory>
        requires name { blank.name ≡ L.name }
        requires parts { blank.parts ≡ L.parts }
        requires counts { 0 < L.parts }
        ensures { IfOk result (λ c. c ≡ table.changes self.now.facts name) }
    {
        let mut steps: Steps<L> = Steps::new(blank);
        match find_both(&Lookup::of(&self.maps.facts), name, &mut steps) {
            None => Ok(None),
            Some((old, new)) => Ok(Some(changes::differences(alloc, old, new)?)),
        }
    }
}
