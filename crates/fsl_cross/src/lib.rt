//! This crate derives the tables of a set of artifacts. `Tables` builds them from the artifacts, in whatever order these come,
//! and answers as the definitions over the set say.
#![tactic(auto)]

ghost use Rattle.fsl_cross.specs.Tables.{SameInAnyOrder, AddedInAnyOrder};

mod adding;
mod apart;
mod attached;
mod back;
mod beside;
mod change;
mod checkin;
mod contents;
mod derived;
mod facts;
mod held;
mod history;
mod items;
mod reversible;
mod tables;
mod targets;
mod timeline;
mod tip;
mod told;
mod undos;

pub use back::Back;
pub use checkin::branch;
use fsl_artifact::Artifact;
use fsl_date::Moment;
use fsl_name::Name;
use fsl_order::by_name_in_any_order;
use fsl_text::Text;
pub use items::Items;
pub use tables::Tables;

/// An artifact of the set has a name and bytes that were read, and may be private.
#[derive(Drop)]
pub struct Item {
    /// Its name.
    pub name: Name,
    /// Whether it is private.
    pub private: bool,
    /// Its bytes, read.
    pub artifact: Artifact,
}

/// A check-in takes its values from its tags where these are in force, else from its cards.
#[derive(Drop)]
pub struct Values {
    /// The comment.
    pub comment: Text,
    /// The user.
    pub user: Text,
    /// The date.
    pub date: Moment,
    /// The branch, `trunk` where no tag sets it.
    pub branch: Text,
}

/// The tables are the same in whatever order the artifacts come.
pub fn same_in_any_order()
    ensures { SameInAnyOrder }
{
    by_name_in_any_order::<Item>();
}

/// Adding artifacts one after another makes the set that is built of them, in whatever order they come.
pub fn added_in_any_order()
    ensures { AddedInAnyOrder }
{
    by_name_in_any_order::<Item>();
}
