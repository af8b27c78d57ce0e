//! Holds a fact without its name.
ghost use Rattle.std.specs.Prelude.{◌≡◌, IfOk};
ghost use Rattle.fsl_wiki.specs.Kept.{entry_of, group_in, date_in, spot_of, target_of, race_in, row_in, is_page, attached_in, page_in};

use crate::group::Group;
use crate::late::Late;
use crate::{Attached, Fact, Page};
use fsl_date::Moment;
use fsl_name::Name;
use fsl_table::Within;
use fsl_text::{Memory, Text};
use std::alloc::Global;

/// A version of a page, without its name.
#[derive(Drop)]
pub struct PageEntry {
    pub date: Moment,
    pub title: Text,
    pub user: Text,
}

/// A version of a technote, without its name.
#[derive(Clone, Copy)]
pub struct NoteEntry {
    pub date: Moment,
    pub time: Moment,
    pub id: Name,
}

/// An attachment, without its name.
#[derive(Drop)]
pub struct FileEntry {
    pub date: Moment,
    pub target: Text,
    pub file: Text,
    pub sourced: bool,
}

/// A fact of any kind, without its name.
#[derive(Drop)]
pub enum Entry {
    Page(PageEntry),
    Note(NoteEntry),
    Attached(FileEntry),
}

/// The row of a name. It says whether the name is there as a page, as the current technote of its id, as the current attachment
/// of its target and file.
#[derive(Clone, Copy)]
pub struct Row {
    pub page: bool,
    pub note: bool,
    pub attached: bool,
}

impl Entry {
    /// Makes the entry of a fact, which is moved.
    pub fn of(fact: Fact) -> Entry
        ensures { result ≡ entry_of fact }
    {
        match fact {
            Fact::Page(page) => Entry::Page(PageEntry {
                date: page.date,
                title: page.title,
                user: page.user,
            }),
            Fact::Note(note) => Entry::Note(NoteEntry {
                date: note.date,
                time: note.time,
                id: note.id,
            }),
            Fact::Attached(attached) => Entry::Attached(FileEntry {
                date: attached.date,
                target: attached.target,
                file: attached.file,
                sourced: attached.sourced,
            }),
        }
    }

    /// What it is a version of.
    fn group(&self, alloc: Global) -> Result<Group, Memory>
        ensures { IfOk result (λ group. group ≡ group_in self.now) }
    {
        match self {
            Entry::Page(page) => Group::page(alloc, page.title.bytes()),
            Entry::Note(note) => Ok(Group::note(note.id)),
            Entry::Attached(file) => Group::file(alloc, file.target.bytes(), file.file.bytes()),
        }
    }

    fn date(&self) -> Moment
        ensures { result ≡ date_in self.now }
    {
        match self {
            Entry::Page(page) => page.date,
            Entry::Note(note) => note.date,
            Entry::Attached(file) => file.date,
        }
    }

    /// Returns its key among the versions of its group. `Memory` is the only error.
    pub fn spot(&self, alloc: Global, name: Name) -> Result<Within<Group, Late>, Memory>
        ensures { IfOk result (λ spot. spot ≡ spot_of name self.now) }
    {
        Ok(Within {
            first: self.group(alloc)?,
            second: Some(Late::new(self.date(), name)),
        })
    }

    /// Returns its key among the attachments of its target. It is `None` where this is no attachment. `Memory` is the only error.
    pub fn target(&self, alloc: Global, name: Name) -> Result<Option<Within<Text, Late>>, Memory>
        ensures { IfOk result (λ target. target ≡ target_of name self.now) }
    {
        match self {
            Entry::Attached(file) => Ok(Some(Within {
                first: Text::of(alloc, file.target.bytes())?,
                second: Some(Late::new(file.date, name)),
            })),
            _ => Ok(None),
        }
    }

    /// Returns the key before the versions among which one is current. It is `None` for a page. `Memory` is the only error.
    pub fn race(&self, alloc: Global) -> Result<Option<Within<Group, Late>>, Memory>
        ensures { IfOk result (λ race. race ≡ race_in self.now) }
    {
        match self {
            Entry::Page(_) => Ok(None),
            _ => Ok(Some(Within {
                first: self.group(alloc)?,
                second: None,
            })),
        }
    }

    /// Tells whether it is a version of a page.
    pub fn is_page(&self) -> bool
        ensures { result ≡ is_page self.now }
    {
        matches!(self, Entry::Page(_))
    }

    /// Returns the row. `leads` says whether this is the current one.
    pub fn row(&self, leads: bool) -> Row
        ensures { result ≡ row_in self.now leads }
    {
        match self {
            Entry::Page(_) => Row {
                page: true,
                note: false,
                attached: false,
            },
            Entry::Note(_) => Row {
                page: false,
                note: leads,
                attached: false,
            },
            Entry::Attached(_) => Row {
                page: false,
                note: false,
                attached: leads,
            },
        }
    }

    /// Returns the version of a page, with a copy of its texts. It is `None` for another kind. `Memory` is the only error.
    pub fn page(&self, alloc: Global, name: Name) -> Result<Option<Page>, Memory>
        ensures { IfOk result (λ page. page ≡ page_in name self.now) }
    {
        match self {
            Entry::Page(page) => Ok(Some(Page {
                name,
                date: page.date,
                title: Text::of(alloc, page.title.bytes())?,
                user: Text::of(alloc, page.user.bytes())?,
            })),
            _ => Ok(None),
        }
    }

    /// Returns the attachment, with a copy of its texts. It is `None` for another kind. `Memory` is the only error.
    pub fn attached(&self, alloc: Global, name: Name) -> Result<Option<Attached>, Memory>
        ensures { IfOk result (λ attached. attached ≡ attached_in name self.now) }
    {
        match self {
            Entry::Attached(file) => Ok(Some(Attached {
                name,
                date: file.date,
                target: Text::of(alloc, file.target.bytes())?,
                file: Text::of(alloc, file.file.bytes())?,
                sourced: file.sourced,
            })),
            _ => Ok(None),
        }
    }
}
