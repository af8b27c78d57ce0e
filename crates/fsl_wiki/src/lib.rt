//! Keeps wiki pages, technotes and attachments. `Pages` is the table of them. It answers as the definitions do over the facts
//! that it holds. It is the same in whatever order these came: that is the law `fsl_order::by_name_in_any_order`. One call adds a
//! fact, and another one replaces a fact. Each returns the names whose rows differ, and can be undone.
#![tactic(auto)]

ghost use Rattle.std.specs.Prelude.{◌≡◌, IfOk};
ghost use Rattle.fsl_wiki.specs.Pages.{fact_name};
ghost use Rattle.fsl_wiki.specs.Laws.{NoOtherCurrent};

mod entry;
mod group;
mod late;
mod maps;
mod pages;
mod reading;
mod rows;

use fsl_date::Moment;
use fsl_name::Name;
use fsl_text::{Memory, Text};
pub use pages::{Pages, Undo};
use std::alloc::Global;

/// A version of a wiki page.
#[derive(Drop)]
pub struct Page {
    /// The name of its artifact.
    pub name: Name,
    /// The date of its artifact.
    pub date: Moment,
    /// The title of the page.
    pub title: Text,
    /// The user of its artifact.
    pub user: Text,
}

impl Page {
    /// Returns a version with the same content. `Memory` is the only error.
    pub fn copied(&self, alloc: Global) -> Result<Page, Memory>
        ensures { IfOk result (λ page. page ≡ self.now) }
    {
        Ok(Page {
            name: self.name,
            date: self.date,
            title: Text::of(alloc, self.title.bytes())?,
            user: Text::of(alloc, self.user.bytes())?,
        })
    }
}

/// A version of a technote.
#[derive(Clone, Copy)]
pub struct Note {
    /// The name of its artifact.
    pub name: Name,
    /// The date of its artifact.
    pub date: Moment,
    /// The time of its event.
    pub time: Moment,
    /// The id of the technote.
    pub id: Name,
}

/// An attachment of a file. Without a content, it deletes the file's attachment.
#[derive(Drop)]
pub struct Attached {
    /// The name of its artifact.
    pub name: Name,
    /// The date of its artifact.
    pub date: Moment,
    /// The target of the attachment: the title of a page, or the id of a ticket or a technote in 40 digits.
    pub target: Text,
    /// The name of the file.
    pub file: Text,
    /// Says whether it has a content.
    pub sourced: bool,
}

impl Attached {
    /// Returns an attachment with the same content. `Memory` is the only error.
    pub fn copied(&self, alloc: Global) -> Result<Attached, Memory>
        ensures { IfOk result (λ attached. attached ≡ self.now) }
    {
        Ok(Attached {
            name: self.name,
            date: self.date,
            target: Text::of(alloc, self.target.bytes())?,
            file: Text::of(alloc, self.file.bytes())?,
            sourced: self.sourced,
        })
    }
}

/// An artifact of one of these kinds.
#[derive(Drop)]
pub enum Fact {
    /// A version of a page.
    Page(Page),
    /// A version of a technote.
    Note(Note),
    /// An attachment.
    Attached(Attached),
}

impl Fact {
    /// Returns the name of the artifact.
    pub fn name(&self) -> Name
        ensures { result ≡ fact_name self.now }
    {
        match self {
            Fact::Page(page) => page.name,
            Fact::Note(note) => note.name,
            Fact::Attached(attached) => attached.name,
        }
    }

    /// Returns a fact with the same content. `Memory` is the only error.
    pub fn copied(&self, alloc: Global) -> Result<Fact, Memory>
        ensures { IfOk result (λ fact. fact ≡ self.now) }
    {
        match self {
            Fact::Page(page) => Ok(Fact::Page(page.copied(alloc)?)),
            Fact::Note(note) => Ok(Fact::Note(*note)),
            Fact::Attached(attached) => Ok(Fact::Attached(attached.copied(alloc)?)),
        }
    }
}

/// A new technote makes no other one current. This is a law and no code.
pub fn no_other_current()
    ensures { NoOtherCurrent }
{}
