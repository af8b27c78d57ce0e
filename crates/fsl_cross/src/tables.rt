//! Holds all tables of a set of artifacts.
ghost use Rattle.std.specs.Prelude.{◌≡◌, ◌≤◌, ◌+◌, [], true, false, All, Some, IfOk, OnOk, OnErr, map, option_map, IfSome};
ghost use Rattle.fsl_order.specs.Rows.{AreDistinct, named};
ghost use Rattle.fsl_cross.specs.Checkins as checkins;
ghost use Rattle.fsl_cross.specs.Touches.{add_touches};
ghost use Rattle.fsl_cross.specs.Tables.{IsItem, IsAsBefore, item_set, tables, with_item, published, without};
ghost use Rattle.std.specs.List.Sorted.{IsStrictlySortedBy};
ghost use Rattle.fsl_order.specs.Names.{bytes_cmp, has};

use super::adding::{publish_named, take_named};
use super::back::{Back, take_back, unmake};
use super::checkin::manifest;
use super::derived::Derived;
use super::held::Held;
use super::items::Items;
use super::undos::{Undos, What};
use super::{Item, Values, checkin};
use fsl_cluster::Clusters;
use fsl_files::Files;
use fsl_forum::Threads;
use fsl_leaves::Leaves;
use fsl_links::Links;
use fsl_name::Name;
use fsl_tags::Tags;
use fsl_text::{List, Memory, Steps, Text};
use fsl_ticket::Tickets;
use fsl_timeline::Timeline;
use fsl_wiki::Pages;
use std::alloc::Global;
use std::marker::Model;
use std::snapshot::Snapshot;
use std::sync::ledger::Ledger;

/// Holds the tables of a set of artifacts. Contracts see it as the configured fields of tickets and the artifacts by name.
#[derive(Drop)]
pub struct Tables {
    fields: List<Text>,
    items: Items,
    derived: Derived,
}

impl Model for Tables {
    ghost use Rattle.fsl_cross.specs.Tables.{Seen};
    ghost use Rattle.fsl_cross.specs.Built.{AreTablesOf, spare_of};

    ghost Value = { Seen };

    ghost view = { λ t. record { fields = t.fields; items = t.items; spare = spare_of t.derived } };

    ghost invariant = { λ t. AreTablesOf t.fields t.items t.derived };
}

impl Tables {
    /// Builds the tables of some artifacts, no two of the same name, and of the configured fields of tickets. They are the same in
    /// whatever order the artifacts come. `Memory` is the only error.
    pub fn build(alloc: Global, fields: &List<Text>, items: List<Item>) -> Result<Tables, Memory>
        requires names { AreDistinct (map (λ item. item.name) items) }
        requires kinds { All IsItem items }
        ensures fields { IfOk result (λ t. t.fields ≡ fields.now) }
        ensures items { IfOk result (λ t. t.items ≡ item_set items) }
    {
        let fields = copied(alloc, fields.items())?;
        let items = Items::of(alloc, items)?;
        Tables::of_set(alloc, fields, items)
    }

    /// Builds the tables of the set without the artifact of a name, which need not be there. They are built anew; the artifacts
    /// themselves aren't copied. `Memory` is the only error.
    pub fn without(&self, alloc: Global, name: Name) -> Result<Tables, Memory>
        ensures fields { IfOk result (λ t. t.fields ≡ self.now.fields) }
        ensures items { IfOk result (λ t. t.items ≡ without name self.now.items) }
    {
        let fields = copied(alloc, self.fields.items())?;
        let items = self.items.without(alloc, name)?;
        Tables::of_set(alloc, fields, items)
    }

    /// Gives the artifacts.
    pub fn items(&self) -> &Items
        ensures { result.now ≡ self.now.items }
    {
        &self.items
    }

    /// Builds the tables of no artifacts, and of the configured fields of tickets. `Memory` is the only error.
    pub fn new(alloc: Global, fields: &List<Text>) -> Result<Tables, Memory>
        ensures fields { IfOk result (λ t. t.fields ≡ fields.now) }
        ensures items { IfOk result (λ t. t.items ≡ []) }
    {
        let fields = copied(alloc, fields.items())?;
        Tables::of_set(alloc, fields, Items::new(alloc))
    }

    /// Adds an artifact whose name isn't there, of whatever kind. `Memory` is the only error, and the tables then hold what they held.
    /// Whatever it answers, a plain artifact takes at most 16 touches, and a wiki page 64, and 64 for each name in its cards. A check-in
    /// that no artifact names, and whose T cards are all on itself, takes 64, and 64 for each name in its cards, each T and F card, and
    /// each file of its first parent and of its baseline.
    pub fn add<L: Ledger>(
        &mut self,
        alloc: Global,
        item: Item,
        steps: &mut Steps<L>,
    ) -> Result<Back, Memory>
        requires absent { has (map (λ i. i.name) self.old.items) item.name ≡ false }
        requires kind { IsItem item }
        ensures items { OnOk result (self.new.items ≡ with_item item self.old.items) }
        ensures fields { OnOk result (self.new.fields ≡ self.old.fields) }
        ensures before { IfOk result (λ back. back.before ≡ self.old) }
        ensures after { IfOk result (λ back. back.after ≡ self.new) }
        ensures err { OnErr result (IsAsBefore self.old self.new) }
        ensures cost { IfSome (add_touches self.old.items item) (λ most. steps.new ≤ steps.old + most) }
    {
        let before = Snapshot::of(&*self);
        let name = item.name;
        let held = Held::of(alloc, item)?;
        self.items.put(held)?;
        let mut undos = Undos::new(alloc);
        match take_named(
            alloc,
            &mut self.derived,
            &mut undos,
            &self.items,
            name,
            steps,
        ) {
            Ok(()) => {
                let after = Snapshot::of(&*self);
                Ok(Back {
                    what: What::Added,
                    name,
                    undos,
                    before,
                    after,
                })
            }
            Err(Memory) => {
                take_back(&mut self.derived, undos);
                self.items.take(name);
                Err(Memory)
            }
        }
    }

    /// Makes an artifact public, which is there and private. It takes at most 16 touches. `Memory` is the only error, and the tables then
    /// hold what they held.
    pub fn publish<L: Ledger>(
        &mut self,
        alloc: Global,
        name: Name,
        steps: &mut Steps<L>,
    ) -> Result<Back, Memory>
        requires { option_map (λ i. i.private) (named (λ i. i.name) self.old.items name) ≡ Some true }
        ensures items { OnOk result (self.new.items ≡ published name self.old.items) }
        ensures fields { OnOk result (self.new.fields ≡ self.old.fields) }
        ensures before { IfOk result (λ back. back.before ≡ self.old) }
        ensures after { IfOk result (λ back. back.after ≡ self.new) }
        ensures err { OnErr result (IsAsBefore self.old self.new) }
        ensures cost { steps.new ≤ steps.old + 16 }
    {
        let before = Snapshot::of(&*self);
        self.items.set_private(name, false);
        let mut undos = Undos::new(alloc);
        match publish_named(
            alloc,
            &mut self.derived,
            &mut undos,
            &self.items,
            name,
            steps,
        ) {
            Ok(()) => {
                let after = Snapshot::of(&*self);
                Ok(Back {
                    what: What::Published,
                    name,
                    undos,
                    before,
                    after,
                })
            }
            Err(Memory) => {
                take_back(&mut self.derived, undos);
                self.items.set_private(name, true);
                Err(Memory)
            }
        }
    }

    /// Takes the last change back that is still there. Takes no memory.
    pub fn undo(&mut self, back: Back)
        requires { IsAsBefore back.after self.old }
        ensures { IsAsBefore back.before self.new }
    {
        let Back {
            what,
            name,
            undos,
            ..
        } = back;
        take_back(&mut self.derived, undos);
        unmake(&mut self.items, what, name);
    }

    /// The tables of a set.
    fn of_set(alloc: Global, fields: List<Text>, items: Items) -> Result<Tables, Memory>
        requires rising { IsStrictlySortedBy bytes_cmp (map (λ i. i.name) items) }
        requires kinds { All IsItem items }
        ensures fields { IfOk result (λ t. t.fields ≡ fields) }
        ensures items { IfOk result (λ t. t.items ≡ items) }
    {
        let derived = Derived::build(alloc, &fields, &items)?;
        Ok(Tables {
            fields,
            items,
            derived,
        })
    }

    /// Gives the table of parentage.
    pub fn links(&self) -> &Links
        ensures facts { result.now.facts ≡ (tables self.now.fields self.now.items).links }
    {
        &self.derived.history.links
    }

    /// Gives the table of tags.
    pub fn tags(&self) -> &Tags
        ensures own { result.now.facts ≡ checkins.tags_facts self.now.items }
        ensures facts { result.now.facts ≡ (tables self.now.fields self.now.items).tags }
    {
        &self.derived.history.tags
    }

    /// Gives the table of leaves.
    pub fn leaves(&self) -> &Leaves
        ensures facts { result.now.facts ≡ (tables self.now.fields self.now.items).leaves }
    {
        &self.derived.history.leaves
    }

    /// Gives the table of the files of check-ins.
    pub fn files(&self) -> &Files
        ensures facts { result.now.facts ≡ (tables self.now.fields self.now.items).files }
    {
        &self.derived.contents.files
    }

    /// Gives the timeline.
    pub fn timeline(&self) -> &Timeline
        ensures facts { result.now.facts ≡ (tables self.now.fields self.now.items).timeline }
    {
        &self.derived.timeline
    }

    /// Gives the table of wiki pages, technotes and attachments.
    pub fn wiki(&self) -> &Pages
        ensures facts { result.now.facts ≡ (tables self.now.fields self.now.items).pages }
    {
        &self.derived.contents.pages
    }

    /// Gives the table of tickets.
    pub fn ticket(&self) -> &Tickets
        ensures fields { result.now.fields ≡ (tables self.now.fields self.now.items).fields }
        ensures facts { result.now.facts ≡ (tables self.now.fields self.now.items).tickets }
    {
        &self.derived.contents.tickets
    }

    /// Gives the table of forum posts.
    pub fn forum(&self) -> &Threads
        ensures facts { result.now.facts ≡ (tables self.now.fields self.now.items).threads }
    {
        &self.derived.contents.threads
    }

    /// Gives the table of clusters.
    pub fn cluster(&self) -> &Clusters
        ensures facts { result.now.facts ≡ (tables self.now.fields self.now.items).clusters }
    {
        &self.derived.contents.clusters
    }

    /// Reads the values of a check-in: comment, user, date and branch are those of the tags of these names where these are in force
    /// on it, a date only where the value is one; else those of its cards, and the branch `trunk`. None where the name is
    /// no check-in. `Memory` is the only error.
    pub fn values(&self, alloc: Global, name: Name) -> Result<Option<Values>, Memory>
        ensures { IfOk result (λ v. v ≡ checkins.values self.now.items name) }
    {
        let Some(item) = self.items.get(name) else {
            return Ok(None);
        };
        let Some(manifest) = manifest(item.artifact()) else {
            return Ok(None);
        };
        Ok(Some(checkin::values(alloc, &self.derived.history.tags, name, manifest)?))
    }

    /// Finds the tip of a symbolic name: of the check-ins on which the tag of `sym-` and the name is in force, the one with the
    /// greatest date and, at one date, the greatest name. None where there is none. `Memory` is the only error.
    pub fn tip(&self, alloc: Global, symbol: &[u8]) -> Result<Option<Name>, Memory>
        ensures { IfOk result (λ n. n ≡ checkins.tip self.now.items symbol.now) }
    {
        self.items.tip_by(alloc, &self.derived.history.tags, symbol)
    }

    /// Gives the branch of a check-in: the value of the tag `branch` where it is in force on the name, else `trunk`.
    pub fn branch(&self, name: Name) -> &[u8]
        ensures { result.now ≡ checkins.branch self.now.items name }
    {
        checkin::branch(&self.derived.history.tags, name)
    }

    /// Lets the tables go. They have so many parts that a crate which lets them go by itself proves some sixty functions for it.
    pub fn close(self) {
        drop(self);
    }
}

/// Copies of some texts. `Memory` is the only error.
fn copied(alloc: Global, texts: &[Text]) -> Result<List<Text>, Memory>
    ensures { IfOk result (λ list. list ≡ texts.now) }
{
    let mut list = Vec::new(alloc);
    for text in texts {
        list.push(Text::of(alloc, text.bytes())?)?;
    }
    Ok(List::from_vec(list))
}
