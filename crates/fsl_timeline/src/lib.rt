//! Keeps the timeline: rows with a time, the latest first. `Timeline` is the table of them. It answers as the definitions do over
//! the rows that it holds. It is the same in whatever order these came: that is the law `fsl_order::by_name_in_any_order`. One
//! call adds a row, one replaces a row, and one takes a row out. Each returns the names whose rows differ, and can be undone.
#![tactic(auto)]

ghost use Rattle.std.specs.Prelude.{◌≡◌, IfOk};

mod entry;
mod maps;
mod place;
mod rows;
mod timeline;

use fsl_date::Moment;
use fsl_name::Name;
use fsl_text::{Memory, Text};
use std::alloc::Global;
pub use timeline::{Timeline, Undo};

/// The kind of artifact of a row of the timeline.
#[derive(Clone, Copy, PartialEq, Eq, Debug)]
pub enum RowKind {
    /// A check-in.
    Checkin,
    /// A wiki page, or an attachment to one.
    Wiki,
    /// A change of a ticket, or an attachment to one.
    Ticket,
    /// The current technote of its id, or an attachment to one.
    Note,
    /// A valid forum post.
    Forum,
    /// A control artifact, which sets or cancels tags.
    Tag,
}

/// A row of the timeline.
#[derive(Drop)]
pub struct Row {
    /// The time of the row.
    pub time: Moment,
    /// The name of its artifact.
    pub name: Name,
    /// The kind of that artifact.
    pub kind: RowKind,
    /// The user. It is empty where the artifact names none.
    pub user: Text,
    /// A comment, a title, an id or the like.
    pub text: Text,
}

impl Row {
    /// Returns a row with the same content. `Memory` is the only error.
    pub fn copied(&self, alloc: Global) -> Result<Row, Memory>
        ensures { IfOk result (λ row. row ≡ self.now) }
    {
        Ok(Row {
            time: self.time,
            name: self.name,
            kind: self.kind,
            user: Text::of(alloc, self.user.bytes())?,
            text: Text::of(alloc, self.text.bytes())?,
        })
    }
}
