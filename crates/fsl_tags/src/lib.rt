//! The table `Tags` knows the tags of artifacts, and the tags that check-ins take over from their primary ancestors. It is built from
//! facts at once, or takes facts in one after the other. Its answers are those of the definitions over its facts, in whatever order
//! they came: `fsl_order::by_name_in_any_order`.
//!
//! The table keeps the facts by name, the pairs of a primary parent and a child, the newest assertions on each name, and for each
//! name the row of its effective assertions by rising tag, where it has any. A row is a tree, and rows share its branches and the
//! assertions: a row that is made of another one, or noted, or put back, is no copy. `build` takes time by n log n in the facts and
//! assertions: the row of a name is made from the assertions on it and from the row of the primary parent, which is made before it, by
//! as many steps as the shorter of both has assertions, times a logarithm, or by the sizes of both where neither is much shorter. Only
//! for parents in a circle, which no hashes make, it climbs along as many ancestors as there are facts. `add` and `change` make the row
//! of the name that they change, and those of its descendants as far as they differ, in the same way; so each row that changes costs as
//! many steps as its name has assertions of its own, times a logarithm. `effective` is a look-up of a name and one in its row,
//! `in_force` copies the row of its name, and `holders` searches each row.
#![tactic(auto)]

ghost use Rattle.std.specs.Prelude.{◌≡◌, IfOk};
ghost use Rattle.fsl_tags.specs.Laws.{EffectiveByRow, OthersStay};
ghost use Rattle.fsl_tags.specs.Tags.{EffectiveByParent};

mod arrive;
mod blend;
mod build;
mod changed;
mod gathered;
mod group;
mod lay;
mod maps;
mod merge;
mod node;
mod order;
mod renew;
mod row;
mod rows;
mod same;
mod settle;
mod shared;
mod spread;
mod tags;
mod take;

use fsl_date::Moment;
use fsl_name::{Name, Named};
use fsl_text::{List, Memory, Text};
use std::alloc::Global;
pub use tags::{Tags, Undo};

/// A prefix tells how a tag is set.
#[derive(Clone, Copy, PartialEq, Eq, Debug)]
pub enum Prefix {
    /// `+`: on the target alone.
    Once,
    /// `-`: it takes the tag away.
    Cancel,
    /// `*`: on the target, and on those that descend from it along primary parents.
    Propagate,
}

/// An assertion is one T card of an artifact.
#[derive(Drop)]
pub struct Assertion {
    /// The date of the artifact that has the card.
    pub date: Moment,
    /// The name of that artifact.
    pub source: Name,
    /// The place of the card among the T cards of the artifact.
    pub place: u64,
    /// How the tag is set.
    pub prefix: Prefix,
    /// The tag.
    pub tag: Text,
    /// Its value, empty where there is none.
    pub value: Text,
    /// The name of the artifact that the tag is set on. It need not be there.
    pub target: Name,
}

/// A fact is an artifact with its T cards, and the primary parent of a check-in.
#[derive(Drop)]
pub struct Fact {
    /// Its name.
    pub name: Name,
    /// Whether it is a check-in.
    pub checkin: bool,
    /// The primary parent of a check-in, where that is there.
    pub parent: Option<Name>,
    /// The assertions of its T cards, in their order.
    pub tags: List<Assertion>,
}

impl Named for Fact {
    ghost name = { λ fact. fact.name };

    fn name(&self) -> Name {
        self.name
    }

    fn copied(&self, alloc: Global) -> Result<Fact, Memory> {
        Ok(Fact {
            name: self.name,
            checkin: self.checkin,
            parent: self.parent,
            tags: copy_all(alloc, self.tags.items())?,
        })
    }
}

/// An assertion with the same content. `Memory` is the only error.
fn copy(alloc: Global, assertion: &Assertion) -> Result<Assertion, Memory>
    ensures { IfOk result (λ copy. copy ≡ assertion.now) }
{
    Ok(Assertion {
        date: assertion.date,
        source: assertion.source,
        place: assertion.place,
        prefix: assertion.prefix,
        tag: Text::of(alloc, assertion.tag.bytes())?,
        value: Text::of(alloc, assertion.value.bytes())?,
        target: assertion.target,
    })
}

/// A list of copies of some assertions. `Memory` is the only error.
fn copy_all(alloc: Global, assertions: &[Assertion]) -> Result<List<Assertion>, Memory>
    ensures { IfOk result (λ list. list ≡ assertions.now) }
{
    let mut list = List::new(alloc);
    for assertion in assertions {
        if list.push(copy(alloc, assertion)?).is_err() {
            return Err(Memory);
        }
    }
    Ok(list)
}

/// The effective assertion is the newer of the direct one and the parent's, where that propagates.
pub fn effective_by_parent()
    ensures { EffectiveByParent }
{}

/// Facts that give a name the same row give it the same effective assertion of each tag.
pub fn effective_by_row()
    ensures { EffectiveByRow }
{}

/// A fact more whose assertions are all on its own name leaves the row of each other name as it was.
pub fn others_stay()
    ensures { OthersStay }
{}
