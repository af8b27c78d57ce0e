//! Keeps the table of ticket changes.
ghost use Rattle.std.specs.Prelude.{◌≡◌, ◌<◌, [], ◌∷◌, false, true, IfOk, OnOk, OnErr, map};
ghost use Rattle.fsl_order.specs.Names.{has};
ghost use Rattle.fsl_order.specs.Rows.{by_name, AreDistinct, ListsChanged};
ghost use Rattle.fsl_ticket.specs.Seen.{IsAsBefore};
ghost use Rattle.fsl_ticket.specs.Tickets.{tickets_row};
ghost use Rattle.fsl_ticket.specs.Tickets as table;

use super::maps::{Maps, Ways};
use super::rows::{put_all, put_either};
use super::walk::fields_of;
use super::{Fact, cards};
use fsl_name::Name;
use fsl_text::{List, Memory, Steps, Text};
use std::alloc::Global;
use std::marker::{Brand, Model};
use std::snapshot::Snapshot;
use std::sync::ledger::{Blank, Ledger};

/// A table of the changes of tickets, and of the configured fields. Contracts see it as the fields, the changes by name, and the
/// room that its maps have to spare.
#[derive(Drop)]
pub struct Tickets {
    configured: List<Text>,
    maps: Maps,
}

impl Model for Tickets {
    ghost use Rattle.fsl_ticket.specs.Seen.{Seen};
    ghost use Rattle.fsl_ticket.specs.Kept.{IsKept, rows_of, seen_of};

    ghost Value = { Seen };

    ghost view = { λ t. seen_of t.configured (rows_of t.maps) };

    ghost invariant = { λ t. IsKept (rows_of t.maps) };
}

/// The way back from a change, and the ids whose rows it changed. Contracts see it as both, with the table before and after.
#[derive(Drop)]
pub struct Undo {
    ways: Ways,
    changed: List<Name>,
    configured: Snapshot<List<Text>>,
}

impl Model for Undo {
    ghost use Rattle.fsl_ticket.specs.Seen.{Change};
    ghost use Rattle.fsl_ticket.specs.Kept.{IsKept, ends_of, seen_of, starts_of};

    ghost Value = { Change };

    ghost view = { λ u. record { before = seen_of u.configured.value (starts_of u.ways); after = seen_of u.configured.value (ends_of u.ways); changed = u.changed } };

    ghost invariant = { λ u. IsKept (starts_of u.ways) × IsKept (ends_of u.ways) };
}

impl Undo {
    /// Returns the ids of the tickets whose rows the change changed, ascending. A row has the values of the configured fields.
    pub fn changed(&self) -> &List<Name>
        ensures { result.now ≡ self.now.changed }
    {
        &self.changed
    }
}

impl Tickets {
    /// Returns a table without fields and changes. Takes no memory.
    pub fn new(alloc: Global) -> Tickets
        ensures fields { result.fields ≡ [] }
        ensures facts { result.facts ≡ [] }
    {
        Tickets {
            configured: List::new(alloc),
            maps: Maps::new(alloc),
        }
    }

    /// Makes the table of the configured fields and of some changes. No two changes have one name. The table is the same in
    /// whatever order they come. It takes time by n log n of the changes. `Memory` is the only error.
    pub fn build(alloc: Global, fields: &List<Text>, facts: &[Fact]) -> Result<Tickets, Memory>
        requires { AreDistinct (map (λ f. f.name) facts.now) }
        ensures fields { IfOk result (λ t. t.fields ≡ fields.now) }
        ensures facts { IfOk result (λ t. t.facts ≡ by_name (λ f. f.name) facts.now) }
    {
        Tickets::build_counted::<Brand>(alloc, fields, facts, Blank::new(1))
    }

    fn build_counted<L: Ledger>(
        alloc: Global,
        fields: &List<Text>,
        facts: &[Fact],
        blank: Blank,
    ) -> Result<Tickets, Memory>
        requires name { blank.name ≡ L.name }
        requires parts { blank.parts ≡ L.parts }
        requires counts { 0 < L.parts }
        requires distinct { AreDistinct (map (λ f. f.name) facts.now) }
        ensures fields { IfOk result (λ t. t.fields ≡ fields.now) }
        ensures facts { IfOk result (λ t. t.facts ≡ by_name (λ f. f.name) facts.now) }
    {
        let mut steps: Steps<L> = Steps::new(blank);
        Tickets::build_all(alloc, fields, facts, &mut steps)
    }

    /// The same, on a counter that is there.
    fn build_all<L: Ledger>(
        alloc: Global,
        fields: &List<Text>,
        facts: &[Fact],
        steps: &mut Steps<L>,
    ) -> Result<Tickets, Memory>
        requires { AreDistinct (map (λ f. f.name) facts.now) }
        ensures fields { IfOk result (λ t. t.fields ≡ fields.now) }
        ensures facts { IfOk result (λ t. t.facts ≡ by_name (λ f. f.name) facts.now) }
    {
        let Ok(configured) = cards::texts(alloc, fields.items()) else {
            return Err(Memory);
        };
        let mut maps = Maps::new(alloc);
        match put_all(alloc, &mut maps, facts, steps) {
            Ok(()) => Ok(Tickets { configured, maps }),
            Err(Memory) => {
                drop(maps);
                Err(Memory)
            }
        }
    }

    /// Adds a change, which is moved. No other one of its name is in the table. It looks at its cards once for each configured
    /// field, and takes time by the logarithm of all changes for each of its cards and of these fields. Where it replaces such a
    /// field and no newer change of the ticket does, it also passes the older ones down to the last that did. As long as none is
    /// changed or undone, each is passed so once for a field, and once more as the last. So n changes take time by n log n in
    /// whatever order they come, as far as the number of their cards and of the configured fields stays the same. `Memory` is the
    /// only error. The table then holds the same as before.
    pub fn add<L: Ledger>(
        &mut self,
        alloc: Global,
        fact: Fact,
        steps: &mut Steps<L>,
    ) -> Result<Undo, Memory>
        requires absent { has (map (λ f. f.name) self.old.facts) fact.name ≡ false }
        ensures fields { OnOk result (self.new.fields ≡ self.old.fields) }
        ensures facts { OnOk result (self.new.facts ≡ by_name (λ f. f.name) (fact ∷ self.old.facts)) }
        ensures before { IfOk result (λ undo. undo.before ≡ self.old) }
        ensures after { IfOk result (λ undo. undo.after ≡ self.new) }
        ensures changed { IfOk result (λ undo. ListsChanged (tickets_row self.old.fields self.old.facts) (tickets_row self.new.fields self.new.facts) undo.changed) }
        ensures err { OnErr result (IsAsBefore self.old self.new) }
    {
        self.put(alloc, fact, steps)
    }

    /// Replaces the change of the same name. The table has one. The new change is moved. It takes time by all changes of both
    /// tickets. `Memory` is the only error. The table then holds the same as before.
    pub fn change<L: Ledger>(
        &mut self,
        alloc: Global,
        fact: Fact,
        steps: &mut Steps<L>,
    ) -> Result<Undo, Memory>
        requires there { has (map (λ f. f.name) self.old.facts) fact.name ≡ true }
        ensures fields { OnOk result (self.new.fields ≡ self.old.fields) }
        ensures facts { OnOk result (self.new.facts ≡ by_name (λ f. f.name) (fact ∷ self.old.facts)) }
        ensures before { IfOk result (λ undo. undo.before ≡ self.old) }
        ensures after { IfOk result (λ undo. undo.after ≡ self.new) }
        ensures changed { IfOk result (λ undo. ListsChanged (tickets_row self.old.fields self.old.facts) (tickets_row self.new.fields self.new.facts) undo.changed) }
        ensures err { OnErr result (IsAsBefore self.old self.new) }
    {
        self.put(alloc, fact, steps)
    }

    /// Puts a change, in the place of that of its name where there is one.
    fn put<L: Ledger>(
        &mut self,
        alloc: Global,
        fact: Fact,
        steps: &mut Steps<L>,
    ) -> Result<Undo, Memory>
        ensures fields { OnOk result (self.new.fields ≡ self.old.fields) }
        ensures facts { OnOk result (self.new.facts ≡ by_name (λ f. f.name) (fact ∷ self.old.facts)) }
        ensures before { IfOk result (λ undo. undo.before ≡ self.old) }
        ensures after { IfOk result (λ undo. undo.after ≡ self.new) }
        ensures changed { IfOk result (λ undo. ListsChanged (tickets_row self.old.fields self.old.facts) (tickets_row self.new.fields self.new.facts) undo.changed) }
        ensures err { OnErr result (IsAsBefore self.old self.new) }
    {
        self.maps.begin();
        match put_either(alloc, self.configured.items(), &mut self.maps, fact, steps) {
            Ok(changed) => Ok(Undo {
                ways: self.maps.ways(alloc),
                changed,
                configured: Snapshot::of(&self.configured),
            }),
            Err(Memory) => {
                self.maps.turn_back(steps);
                Err(Memory)
            }
        }
    }

    /// Undoes the last change that wasn't undone yet. It takes no memory.
    pub fn undo(&mut self, undo: Undo)
        requires { IsAsBefore undo.after self.old }
        ensures { IsAsBefore undo.before self.new }
    {
        self.take_back::<Brand>(undo, Blank::new(1));
    }

    fn take_back<L: Ledger>(&mut self, undo: Undo, blank: Blank)
        requires name { blank.name ≡ L.name }
        requires parts { blank.parts ≡ L.parts }
        requires counts { 0 < L.parts }
        requires last { IsAsBefore undo.after self.old }
        ensures { IsAsBefore undo.before self.new }
    {
        let mut steps: Steps<L> = Steps::new(blank);
        let Undo { ways, .. } = undo;
        self.maps.undo(ways, &mut steps);
    }

    /// Returns the values of the configured fields of a ticket, in their order. Each begins empty, and takes the J cards of its
    /// field in the order of the changes, by date and name. The answer is `None` where no change has the id. It takes one pass
    /// over the changes of the ticket, and time by the logarithm of all changes for each, and of the fields for each card.
    /// `Memory` is the only error.
    /// FORMATS: Derived tables
    pub fn fields(&self, alloc: Global, id: Name) -> Result<Option<List<Text>>, Memory>
        ensures { IfOk result (λ values. values ≡ table.fields self.now.fields self.now.facts id) }
    {
        self.fields_counted::<Brand>(alloc, id, Blank::new(1))
    }

    fn fields_counted<L: Ledger>(
        &self,
        alloc: Global,
        id: Name,
        blank: Blank,
    ) -> Result<Option<List<Text>>, Memory>
        requires name { blank.name ≡ L.name }
        requires parts { blank.parts ≡ L.parts }
        requires counts { 0 < L.parts }
        ensures { IfOk result (λ values. values ≡ table.fields self.now.fields self.now.facts id) }
    {
        let mut steps: Steps<L> = Steps::new(blank);
        fields_of(
            alloc,
            self.configured.items(),
            &self.maps.facts,
            &self.maps.spots,
            id,
            &mut steps,
        )
    }
}
