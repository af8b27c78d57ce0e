//! Lists the files of check-ins, and their changes against the primary parent. `Files` is the table of them. It answers as the
//! definitions do over the facts that it holds. It is the same in whatever order these came: that is the law
//! `fsl_order::by_name_in_any_order`. One call adds a check-in, and another one replaces a check-in. Each returns the names whose
//! rows differ, and can be undone.
#![tactic(auto)]

ghost use Rattle.std.specs.Prelude.{◌≡◌, IfOk};

mod changes;
mod entry;
mod files;
mod found;
mod lookup;
mod maps;
mod overlay;
mod put;
mod rows;
mod same;
mod touched;

pub use files::{Files, Undo};
use fsl_name::{Name, Ref};
use fsl_text::{List, Text};

/// The permission of a file.
#[derive(Clone, Copy, PartialEq, Eq, Debug)]
pub enum Perm {
    /// The file has no permission.
    Plain,
    /// `w`. It counts as none where files are compared.
    Writable,
    /// `x`: the file can be run.
    Exec,
    /// `l`: the file is a symbolic link.
    Symlink,
}

/// A file of a check-in.
#[derive(Drop)]
pub struct FileRow {
    /// Its path.
    pub path: Text,
    /// The name of its content. It is `None` where a check-in takes the path out of its baseline's files.
    pub hash: Option<Ref>,
    /// Its permission.
    pub perm: Perm,
}

/// A check-in with its files.
#[derive(Drop)]
pub struct Fact {
    /// Its name.
    pub name: Name,
    /// The name of its B card. It takes over the files of that check-in, where this is there and has no B card itself.
    pub baseline: Option<Name>,
    /// The first name of its P card, which is never foreign.
    pub parent: Option<Name>,
    /// Its F cards, which rise by path. Without a baseline each has a hash.
    pub files: List<FileRow>,
}

/// The files of a name.
#[derive(Drop)]
pub enum Listing {
    /// No check-in has the name.
    NotCheckin,
    /// The check-in has a baseline that isn't there, or that has a baseline itself.
    NoBaseline,
    /// The files, by rising path.
    Known(List<FileRow>),
}

/// The kinds of change against the parent.
#[derive(Clone, Copy, PartialEq, Eq, Debug)]
pub enum How {
    /// The parent has no file of the path.
    Added,
    /// Hash or permission differ.
    Edited,
    /// Only the parent has a file of the path.
    Deleted,
}

/// A change of one file against the parent.
#[derive(Drop)]
pub struct Change {
    /// Its path.
    pub path: Text,
    /// The kind of the change.
    pub how: How,
}
