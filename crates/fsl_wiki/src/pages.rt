//! Keeps the table of pages, technotes and attachments.
ghost use Rattle.std.specs.Prelude.{◌≡◌, ◌+◌, ◌<◌, ◌≤◌, [], ◌∷◌, true, false, None, map, IfSome, IfOk, OnOk, OnErr};
ghost use Rattle.fsl_order.specs.TableState.{IsAsBefore};
ghost use Rattle.fsl_order.specs.Names.{bytes_cmp, has};
ghost use Rattle.fsl_order.specs.Rows.{by_name, AreDistinct, ListsChanged};
ghost use Rattle.fsl_wiki.specs.Pages as table;
ghost use Rattle.fsl_table.specs.Contents.{value_at, with_entry};
ghost use Rattle.fsl_wiki.specs.Pages.{fact_name, as_page, pages_row};
ghost use Rattle.fsl_wiki.specs.Kept.{IsKept, facts_of, entry_of, rows_of};

use super::entry::Entry;
use super::group::Group;
use super::maps::{Maps, Ways};
use super::reading::{first_files, listed, pages_from, places};
use super::rows::{current, put_either, put_fact};
use super::{Attached, Fact, Page};
use fsl_name::Name;
use fsl_table::Within;
use fsl_text::{List, Memory, Steps, Text};
use std::alloc::Global;
use std::marker::{Brand, Model};
use std::sync::ledger::{Blank, Ledger};

/// A table of pages, technotes and attachments. Contracts see it as the facts by name, and the room that its maps have to spare.
#[derive(Drop)]
pub struct Pages {
    maps: Maps,
}

impl Model for Pages {
    ghost use Rattle.fsl_order.specs.TableState.{TableState};
    ghost use Rattle.fsl_wiki.specs.declared.Fact.{Fact};
    ghost use Rattle.fsl_wiki.specs.Kept.{held_of, rows_of, IsKept};

    ghost Value = { TableState Fact };

    ghost view = { λ p. held_of (rows_of p.maps) };

    ghost invariant = { λ p. IsKept (rows_of p.maps) };
}

/// The way back from a change, and the names whose rows it changed. Contracts see it as both, with the table before and after.
#[derive(Drop)]
pub struct Undo {
    ways: Ways,
    changed: List<Name>,
}

impl Model for Undo {
    ghost use Rattle.fsl_order.specs.TableState.{Change};
    ghost use Rattle.fsl_wiki.specs.declared.Fact.{Fact};
    ghost use Rattle.fsl_wiki.specs.Kept.{IsKept, ends_of, held_of, starts_of};

    ghost Value = { Change Fact };

    ghost view = { λ u. record { before = held_of (starts_of u.ways); after = held_of (ends_of u.ways); changed = u.changed } };

    ghost invariant = { λ u. IsKept (starts_of u.ways) × IsKept (ends_of u.ways) };
}

impl Undo {
    /// Returns the names whose rows the change changed, ascending. The row of a name says whether it is there as a page, as the
    /// current technote of its id, and as the current attachment of its target and file.
    pub fn changed(&self) -> &List<Name>
        ensures { result.now ≡ self.now.changed }
    {
        &self.changed
    }
}

/// Puts a fact whose name isn't there.
fn put_new<L: Ledger>(
    alloc: Global,
    maps: &mut Maps,
    fact: Fact,
    steps: &mut Steps<L>,
) -> Result<(), Memory>
    requires kept { IsKept (rows_of maps.old) }
    requires absent { value_at bytes_cmp (fact_name fact) maps.old.facts.held.entries ≡ None }
    ensures entries { OnOk result (maps.new.facts.held.entries ≡ with_entry bytes_cmp (fact_name fact) (entry_of fact) maps.old.facts.held.entries) }
    ensures kept { OnOk result (IsKept (rows_of maps.new)) }
{
    put_fact(alloc, maps, fact.name(), Entry::of(fact), steps)
}

/// Puts some facts into maps that have none, the last one first.
fn fill<L: Ledger>(
    alloc: Global,
    maps: &mut Maps,
    facts: &[Fact],
    steps: &mut Steps<L>,
) -> Result<(), Memory>
    requires entries { maps.old.facts.held.entries ≡ [] }
    requires spots { maps.old.spots.held.entries ≡ [] }
    requires targets { maps.old.targets.held.entries ≡ [] }
    requires distinct { AreDistinct (map fact_name facts.now) }
    ensures facts { OnOk result (facts_of maps.new.facts.held.entries ≡ by_name fact_name facts.now) }
    ensures kept { OnOk result (IsKept (rows_of maps.new)) }
{
    let mut left = facts.len();
    while left > 0 {
        left -= 1;
        let fact = facts[left].copied(alloc)?;
        maps.begin();
        put_new(alloc, maps, fact, steps)?;
    }
    Ok(())
}

impl Pages {
    /// Returns a table without facts. Takes no memory.
    pub fn new(alloc: Global) -> Pages
        ensures { result.facts ≡ [] }
    {
        Pages {
            maps: Maps::new(alloc),
        }
    }

    /// Makes the table of some facts. No two of them have one name. The table is the same in whatever order they come. It takes
    /// time by n log n of the facts. `Memory` is the only error.
    pub fn build(alloc: Global, facts: &[Fact]) -> Result<Pages, Memory>
        requires { AreDistinct (map fact_name facts.now) }
        ensures facts { IfOk result (λ t. t.facts ≡ by_name fact_name facts.now) }
    {
        Pages::build_counted::<Brand>(alloc, facts, Blank::new(1))
    }

    fn build_counted<L: Ledger>(
        alloc: Global,
        facts: &[Fact],
        blank: Blank,
    ) -> Result<Pages, Memory>
        requires name { blank.name ≡ L.name }
        requires parts { blank.parts ≡ L.parts }
        requires counts { 0 < L.parts }
        requires distinct { AreDistinct (map fact_name facts.now) }
        ensures facts { IfOk result (λ t. t.facts ≡ by_name fact_name facts.now) }
    {
        let mut steps: Steps<L> = Steps::new(blank);
        let mut maps = Maps::new(alloc);
        match fill(alloc, &mut maps, facts, &mut steps) {
            Ok(()) => Ok(Pages { maps }),
            Err(Memory) => {
                drop(maps);
                Err(Memory)
            }
        }
    }

    /// Adds a fact, which is moved. No other one of its name is in the table. `Memory` is the only error. The table then holds
    /// the same as before. For a page it takes at most 4 touches.
    pub fn add<L: Ledger>(
        &mut self,
        alloc: Global,
        fact: Fact,
        steps: &mut Steps<L>,
    ) -> Result<Undo, Memory>
        requires absent { has (map fact_name self.old.facts) (fact_name fact) ≡ false }
        ensures facts { OnOk result (self.new.facts ≡ by_name fact_name (fact ∷ self.old.facts)) }
        ensures before { IfOk result (λ undo. undo.before ≡ self.old) }
        ensures after { IfOk result (λ undo. undo.after ≡ self.new) }
        ensures changed { IfOk result (λ undo. ListsChanged (pages_row self.old.facts) (pages_row self.new.facts) undo.changed) }
        ensures err { OnErr result (IsAsBefore self.old self.new) }
        ensures cost { IfSome (as_page fact) (λ _. steps.new ≤ steps.old + 4) }
    {
        self.put(alloc, fact, true, steps)
    }

    /// Replaces the fact of the same name. The table has one. The new fact is moved, and may be of another kind, title, id,
    /// target or file. `Memory` is the only error. The table then holds the same as before.
    pub fn change<L: Ledger>(
        &mut self,
        alloc: Global,
        fact: Fact,
        steps: &mut Steps<L>,
    ) -> Result<Undo, Memory>
        requires there { has (map fact_name self.old.facts) (fact_name fact) ≡ true }
        ensures facts { OnOk result (self.new.facts ≡ by_name fact_name (fact ∷ self.old.facts)) }
        ensures before { IfOk result (λ undo. undo.before ≡ self.old) }
        ensures after { IfOk result (λ undo. undo.after ≡ self.new) }
        ensures changed { IfOk result (λ undo. ListsChanged (pages_row self.old.facts) (pages_row self.new.facts) undo.changed) }
        ensures err { OnErr result (IsAsBefore self.old self.new) }
    {
        self.put(alloc, fact, false, steps)
    }

    /// Puts a fact, a new one where `new` says so, or in the place of that of its name.
    fn put<L: Ledger>(
        &mut self,
        alloc: Global,
        fact: Fact,
        new: bool,
        steps: &mut Steps<L>,
    ) -> Result<Undo, Memory>
        requires absent { new ≡ true → has (map fact_name self.old.facts) (fact_name fact) ≡ false }
        ensures facts { OnOk result (self.new.facts ≡ by_name fact_name (fact ∷ self.old.facts)) }
        ensures before { IfOk result (λ undo. undo.before ≡ self.old) }
        ensures after { IfOk result (λ undo. undo.after ≡ self.new) }
        ensures changed { IfOk result (λ undo. ListsChanged (pages_row self.old.facts) (pages_row self.new.facts) undo.changed) }
        ensures err { OnErr result (IsAsBefore self.old self.new) }
        ensures cost { new ≡ true → IfSome (as_page fact) (λ _. steps.new ≤ steps.old + 4) }
    {
        let name = fact.name();
        let entry = Entry::of(fact);
        self.maps.begin();
        match put_either(alloc, &mut self.maps, name, entry, new, steps) {
            Ok(changed) => Ok(Undo {
                ways: self.maps.ways(alloc),
                changed,
            }),
            Err(Memory) => {
                self.maps.turn_back(steps);
                Err(Memory)
            }
        }
    }

    /// Undoes the last change that wasn't undone yet. It takes no memory.
    pub fn undo(&mut self, undo: Undo)
        requires { IsAsBefore undo.after self.old }
        ensures { IsAsBefore undo.before self.new }
    {
        self.take_back::<Brand>(undo, Blank::new(1));
    }

    fn take_back<L: Ledger>(&mut self, undo: Undo, blank: Blank)
        requires name { blank.name ≡ L.name }
        requires parts { blank.parts ≡ L.parts }
        requires counts { 0 < L.parts }
        requires last { IsAsBefore undo.after self.old }
        ensures { IsAsBefore undo.before self.new }
    {
        let mut steps: Steps<L> = Steps::new(blank);
        let Undo { ways, .. } = undo;
        self.maps.undo(ways, &mut steps);
    }

    /// Returns the versions of the page of a title by date, and at one date by name. The list is empty where no page has the
    /// title. `Memory` is the only error.
    /// FORMATS: Derived tables
    pub fn history(&self, alloc: Global, title: &[u8]) -> Result<List<Page>, Memory>
        ensures { IfOk result (λ pages. pages ≡ table.history self.now.facts title.now) }
    {
        self.history_counted::<Brand>(alloc, title, Blank::new(1))
    }

    fn history_counted<L: Ledger>(
        &self,
        alloc: Global,
        title: &[u8],
        blank: Blank,
    ) -> Result<List<Page>, Memory>
        requires name { blank.name ≡ L.name }
        requires parts { blank.parts ≡ L.parts }
        requires counts { 0 < L.parts }
        ensures { IfOk result (λ pages. pages ≡ table.history self.now.facts title.now) }
    {
        let page = Group::page(alloc, title)?;
        let mut steps: Steps<L> = Steps::new(blank);
        let versions = places(alloc, self.maps.spots.map(), page, &mut steps)?;
        pages_from(alloc, &self.maps.facts, versions, &mut steps)
    }

    /// Returns the name of the current technote of an id. That is the one with the greatest date, and at one date the greatest
    /// name. It is `None` where no technote has the id. Takes no memory.
    /// FORMATS: Derived tables
    pub fn note(&self, id: Name) -> Option<Name>
        ensures { result ≡ table.note self.now.facts id }
    {
        self.note_counted::<Brand>(id, Blank::new(1))
    }

    fn note_counted<L: Ledger>(&self, id: Name, blank: Blank) -> Option<Name>
        requires name { blank.name ≡ L.name }
        requires parts { blank.parts ≡ L.parts }
        requires counts { 0 < L.parts }
        ensures { result ≡ table.note self.now.facts id }
    {
        let mut steps: Steps<L> = Steps::new(blank);
        let race = Some(Within {
            first: Group::note(id),
            second: None,
        });
        let late = current(&self.maps.spots, &race, &mut steps);
        drop(race);
        match late {
            None => None,
            Some(late) => Some(late.name()),
        }
    }

    /// Returns the current attachments of a target, by the name of the file. Of each file it is the one with the greatest date,
    /// and at one date the greatest name. One that deletes the file's attachment is given too. The list is empty where nothing
    /// was attached to the target. It takes time by n log n of all attachments of the target. `Memory` is the only error.
    /// FORMATS: Derived tables
    pub fn attached(&self, alloc: Global, target: &[u8]) -> Result<List<Attached>, Memory>
        ensures { IfOk result (λ list. list ≡ table.attached self.now.facts target.now) }
    {
        self.attached_counted::<Brand>(alloc, target, Blank::new(1))
    }

    fn attached_counted<L: Ledger>(
        &self,
        alloc: Global,
        target: &[u8],
        blank: Blank,
    ) -> Result<List<Attached>, Memory>
        requires name { blank.name ≡ L.name }
        requires parts { blank.parts ≡ L.parts }
        requires counts { 0 < L.parts }
        ensures { IfOk result (λ list. list ≡ table.attached self.now.facts target.now) }
    {
        let key = Text::of(alloc, target)?;
        let mut steps: Steps<L> = Steps::new(blank);
        let found = places(alloc, self.maps.targets.map(), key, &mut steps)?;
        let files = first_files(alloc, &self.maps.facts, &found, &mut steps)?;
        listed(alloc, files)
    }
}
