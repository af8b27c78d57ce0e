//! Manifests describe check-ins. They are read from the cards of one, and from no others, and each is written as the one text
//! that reads back as it.
#![tactic(auto)]

mod forms;
mod known;
mod laws;
mod reading;
mod writing;
mod written;

use fsl_date::Moment;
use fsl_grammar::TagCard;
use fsl_name::{Name, Ref};
use fsl_text::{List, Text};
pub use laws::{first_parent_is_own, well_formed_have_a_text, written_text_reads_back};

/// The permission of a file.
#[derive(Clone, Copy, Debug, PartialEq, Eq)]
pub enum Perm {
    Plain,
    /// `w`
    Writable,
    /// `x`
    Exec,
    /// `l`
    Symlink,
}

/// An F card: a file of a check-in. Without a hash it deletes the baseline's file.
#[derive(Drop)]
pub struct FileCard {
    pub path: Text,
    pub hash: Option<Ref>,
    pub perm: Perm,
    pub former: Option<Text>,
}

/// A Q card: a check-in that was cherry-picked, or backed out.
#[derive(Clone, Copy, Debug)]
pub struct Pick {
    pub back: bool,
    pub target: Ref,
    pub other: Option<Ref>,
}

/// A check-in. Its fields are its B, C, D, F, N, P, Q, R, T and U cards. Its first parent, if there is one, is no foreign name.
/// FORMATS: Kinds
#[derive(Drop)]
pub struct Manifest {
    pub baseline: Option<Name>,
    pub comment: Text,
    pub date: Moment,
    pub files: List<FileCard>,
    pub mime: Option<Text>,
    pub parents: List<Ref>,
    pub picks: List<Pick>,
    pub checksum: Option<[u8; 16]>,
    pub tags: List<TagCard>,
    pub user: Text,
}
