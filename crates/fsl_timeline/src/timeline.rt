//! Keeps the table of rows.
ghost use Rattle.std.specs.Prelude.{◌≡◌, ◌+◌, ◌≤◌, ◌<◌, [], ◌∷◌, false, true, map, OnOk, OnErr, IfOk};
ghost use Rattle.fsl_order.specs.Names.{has};
ghost use Rattle.fsl_order.specs.Rows.{by_name, AreDistinct, ListsChanged};
ghost use Rattle.fsl_order.specs.TableState.{IsAsBefore};
ghost use Rattle.fsl_timeline.specs.Timeline.{timeline_row, retired};
ghost use Rattle.fsl_timeline.specs.Timeline as table;

use super::Row;
use super::maps::{Maps, Ways};
use super::rows::{first_rows, put_all, put_either, retire_row};
use fsl_name::Name;
use fsl_text::{List, Memory, Steps};
use std::alloc::Global;
use std::marker::{Brand, Model};
use std::sync::ledger::{Blank, Ledger};

/// A table of the rows of the timeline. Contracts see it as the rows by name, and the room that its maps have to spare.
#[derive(Drop)]
pub struct Timeline {
    maps: Maps,
}

impl Model for Timeline {
    ghost use Rattle.fsl_order.specs.TableState.{TableState};
    ghost use Rattle.fsl_timeline.specs.declared.Row.{Row};
    ghost use Rattle.fsl_timeline.specs.Kept.{held_of, rows_in, IsKept};

    ghost Value = { TableState Row };

    ghost view = { λ t. held_of (rows_in t.maps) };

    ghost invariant = { λ t. IsKept (rows_in t.maps) };
}

/// The way back from a change, and the names whose rows it changed. Contracts see it as both, with the table before and after.
#[derive(Drop)]
pub struct Undo {
    ways: Ways,
    changed: List<Name>,
}

impl Model for Undo {
    ghost use Rattle.fsl_order.specs.TableState.{Change};
    ghost use Rattle.fsl_timeline.specs.declared.Row.{Row};
    ghost use Rattle.fsl_timeline.specs.Kept.{IsKept, ends_of, held_of, starts_of};

    ghost Value = { Change Row };

    ghost view = { λ u. record { before = held_of (starts_of u.ways); after = held_of (ends_of u.ways); changed = u.changed } };

    ghost invariant = { λ u. IsKept (starts_of u.ways) × IsKept (ends_of u.ways) };
}

impl Undo {
    /// Returns the names whose rows the change changed, ascending: one or none.
    pub fn changed(&self) -> &List<Name>
        ensures { result.now ≡ self.now.changed }
    {
        &self.changed
    }
}

/// Copies of some rows.
fn copies(alloc: Global, rows: &[Row]) -> Result<List<Row>, Memory>
    ensures { IfOk result (λ list. list ≡ rows.now) }
{
    let mut list = Vec::new(alloc);
    for row in rows {
        list.push(row.copied(alloc)?)?;
    }
    Ok(List::from_vec(list))
}

impl Timeline {
    /// Returns a table without rows. Takes no memory.
    pub fn new(alloc: Global) -> Timeline
        ensures { result.facts ≡ [] }
    {
        Timeline {
            maps: Maps::new(alloc),
        }
    }

    /// Makes the table of some rows. No two of them have one name. The rows are copied. The table is the same in whatever order
    /// they come: that is the law `fsl_order::by_name_in_any_order`. `Memory` is the only error.
    pub fn build(alloc: Global, rows: &[Row]) -> Result<Timeline, Memory>
        requires { AreDistinct (map (λ r. r.name) rows.now) }
        ensures facts { IfOk result (λ t. t.facts ≡ by_name (λ r. r.name) rows.now) }
    {
        Timeline::from_rows(alloc, copies(alloc, rows)?)
    }

    /// Makes the table of some rows as `build` does, and moves them. None is copied. `Memory` is the only error.
    pub fn from_rows(alloc: Global, rows: List<Row>) -> Result<Timeline, Memory>
        requires { AreDistinct (map (λ r. r.name) rows) }
        ensures facts { IfOk result (λ t. t.facts ≡ by_name (λ r. r.name) rows) }
    {
        Timeline::from_counted::<Brand>(alloc, rows, Blank::new(1))
    }

    fn from_counted<L: Ledger>(
        alloc: Global,
        rows: List<Row>,
        blank: Blank,
    ) -> Result<Timeline, Memory>
        requires name { blank.name ≡ L.name }
        requires parts { blank.parts ≡ L.parts }
        requires counts { 0 < L.parts }
        requires distinct { AreDistinct (map (λ r. r.name) rows) }
        ensures facts { IfOk result (λ t. t.facts ≡ by_name (λ r. r.name) rows) }
    {
        let mut steps: Steps<L> = Steps::new(blank);
        Timeline::from_all(alloc, rows, &mut steps)
    }

    /// The same, on a counter that is there.
    fn from_all<L: Ledger>(
        alloc: Global,
        rows: List<Row>,
        steps: &mut Steps<L>,
    ) -> Result<Timeline, Memory>
        requires { AreDistinct (map (λ r. r.name) rows) }
        ensures facts { IfOk result (λ t. t.facts ≡ by_name (λ r. r.name) rows) }
    {
        let mut maps = Maps::new(alloc);
        match put_all(&mut maps, rows, steps) {
            Ok(()) => Ok(Timeline { maps }),
            Err(Memory) => Err(Memory),
        }
    }

    /// Adds a row, which is moved. No other one of its name is in the table. `Memory` is the only error. The table then holds the
    /// same as before. It takes at most 4 touches.
    pub fn add<L: Ledger>(
        &mut self,
        alloc: Global,
        fact: Row,
        steps: &mut Steps<L>,
    ) -> Result<Undo, Memory>
        requires absent { has (map (λ f. f.name) self.old.facts) fact.name ≡ false }
        ensures facts { OnOk result (self.new.facts ≡ by_name (λ f. f.name) (fact ∷ self.old.facts)) }
        ensures before { IfOk result (λ undo. undo.before ≡ self.old) }
        ensures after { IfOk result (λ undo. undo.after ≡ self.new) }
        ensures changed { IfOk result (λ undo. ListsChanged (timeline_row self.old.facts) (timeline_row self.new.facts) undo.changed) }
        ensures err { OnErr result (IsAsBefore self.old self.new) }
        ensures cost { steps.new ≤ steps.old + 4 }
    {
        self.put(alloc, fact, true, steps)
    }

    /// Replaces the row of the same name. The table has one. The new row is moved. `Memory` is the only error. The table then
    /// holds the same as before.
    pub fn change<L: Ledger>(
        &mut self,
        alloc: Global,
        fact: Row,
        steps: &mut Steps<L>,
    ) -> Result<Undo, Memory>
        requires there { has (map (λ f. f.name) self.old.facts) fact.name ≡ true }
        ensures facts { OnOk result (self.new.facts ≡ by_name (λ f. f.name) (fact ∷ self.old.facts)) }
        ensures before { IfOk result (λ undo. undo.before ≡ self.old) }
        ensures after { IfOk result (λ undo. undo.after ≡ self.new) }
        ensures changed { IfOk result (λ undo. ListsChanged (timeline_row self.old.facts) (timeline_row self.new.facts) undo.changed) }
        ensures err { OnErr result (IsAsBefore self.old self.new) }
    {
        self.put(alloc, fact, false, steps)
    }

    /// Puts a row, a new one where `new` says so, or in the place of that of its name.
    fn put<L: Ledger>(
        &mut self,
        alloc: Global,
        fact: Row,
        new: bool,
        steps: &mut Steps<L>,
    ) -> Result<Undo, Memory>
        requires absent { new ≡ true → has (map (λ f. f.name) self.old.facts) fact.name ≡ false }
        ensures facts { OnOk result (self.new.facts ≡ by_name (λ f. f.name) (fact ∷ self.old.facts)) }
        ensures before { IfOk result (λ undo. undo.before ≡ self.old) }
        ensures after { IfOk result (λ undo. undo.after ≡ self.new) }
        ensures changed { IfOk result (λ undo. ListsChanged (timeline_row self.old.facts) (timeline_row self.new.facts) undo.changed) }
        ensures err { OnErr result (IsAsBefore self.old self.new) }
        ensures cost { new ≡ true → steps.new ≤ steps.old + 4 }
    {
        self.maps.begin();
        match put_either(alloc, &mut self.maps, fact, new, steps) {
            Ok(changed) => Ok(Undo {
                ways: self.maps.ways(alloc),
                changed,
            }),
            Err(Memory) => {
                self.maps.turn_back(steps);
                Err(Memory)
            }
        }
    }

    /// Takes a row out. The table has it. `Memory` is the only error. The table then holds the same as before.
    pub fn retire<L: Ledger>(
        &mut self,
        alloc: Global,
        name: Name,
        steps: &mut Steps<L>,
    ) -> Result<Undo, Memory>
        requires there { has (map (λ r. r.name) self.old.facts) name ≡ true }
        ensures facts { OnOk result (self.new.facts ≡ retired name self.old.facts) }
        ensures before { IfOk result (λ undo. undo.before ≡ self.old) }
        ensures after { IfOk result (λ undo. undo.after ≡ self.new) }
        ensures changed { IfOk result (λ undo. ListsChanged (timeline_row self.old.facts) (timeline_row self.new.facts) undo.changed) }
        ensures err { OnErr result (IsAsBefore self.old self.new) }
    {
        self.maps.begin();
        match retire_row(alloc, &mut self.maps, name, steps) {
            Ok(changed) => Ok(Undo {
                ways: self.maps.ways(alloc),
                changed,
            }),
            Err(Memory) => {
                self.maps.turn_back(steps);
                Err(Memory)
            }
        }
    }

    /// Undoes the last change that wasn't undone yet. It takes no memory.
    pub fn undo(&mut self, undo: Undo)
        requires { IsAsBefore undo.after self.old }
        ensures { IsAsBefore undo.before self.new }
    {
        self.take_back::<Brand>(undo, Blank::new(1));
    }

    fn take_back<L: Ledger>(&mut self, undo: Undo, blank: Blank)
        requires name { blank.name ≡ L.name }
        requires parts { blank.parts ≡ L.parts }
        requires counts { 0 < L.parts }
        requires last { IsAsBefore undo.after self.old }
        ensures { IsAsBefore undo.before self.new }
    {
        let mut steps: Steps<L> = Steps::new(blank);
        let Undo { ways, .. } = undo;
        self.maps.undo(ways, &mut steps);
    }

    /// Returns copies of the first `count` rows, or of all where there are fewer. The latest time comes first, and equal times by
    /// rising name. `Memory` is the only error.
    /// FORMATS: Derived tables
    pub fn latest(&self, alloc: Global, count: u64) -> Result<List<Row>, Memory>
        ensures { IfOk result (λ rows. rows ≡ table.latest self.now.facts count) }
    {
        self.latest_counted::<Brand>(alloc, count, Blank::new(1))
    }

    fn latest_counted<L: Ledger>(
        &self,
        alloc: Global,
        count: u64,
        blank: Blank,
    ) -> Result<List<Row>, Memory>
        requires name { blank.name ≡ L.name }
        requires parts { blank.parts ≡ L.parts }
        requires counts { 0 < L.parts }
        ensures { IfOk result (λ rows. rows ≡ table.latest self.now.facts count) }
    {
        let mut steps: Steps<L> = Steps::new(blank);
        let rows = self.maps.rows.map();
        let places = self.maps.places.map();
        first_rows(alloc, rows, places, count, &mut steps)
    }
}
