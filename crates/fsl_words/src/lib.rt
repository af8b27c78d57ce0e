//! Reads the words on the command line: a repository, a command and its words. `read` gives the command exactly where the
//! words are inside the grammar.
#![tactic(auto)]

mod commands;
mod faults;
mod fields;
mod forms;
mod places;
mod reading;

use fsl_name::Name;
use fsl_text::{List, Text};
pub use reading::read;
use thiserror::Error;

/// The question of a report command. A prefix is 4 to 40 digits of a name or an id, in lower case.
#[derive(Drop)]
pub enum Question {
    /// `cat PREFIX`: the content of the artifact.
    Cat { prefix: Text },
    /// `receipt PREFIX`: when the artifact was brought here, and under which login.
    Receipt { prefix: Text },
    /// `timeline N`: the first rows of the timeline, 1 to 1,000,000.
    Timeline { count: u64 },
    /// `leaves`: the check-ins without a child in their own branch.
    Leaves,
    /// `tags PREFIX`: the tags in force on an artifact.
    Tags { prefix: Text },
    /// `tip SYMBOL`: the latest check-in that has a symbolic name.
    Tip { symbol: Text },
    /// `files PREFIX`: the files of a check-in.
    Files { prefix: Text },
    /// `wiki TITLE`: the versions of a page.
    Wiki { title: Text },
    /// `ticket PREFIX`: the fields of the ticket whose id begins with the prefix.
    Ticket { prefix: Text },
    /// `thread PREFIX`: the posts of the thread whose name begins with the prefix.
    Thread { prefix: Text },
    /// `phantoms`: the names that held artifacts refer to and that are neither held nor shunned.
    Phantoms,
    /// `info`: the codes and the configured ticket fields of the repository, and how much it holds.
    Info,
    /// `branches`: the branches that check-ins have, each with its newest one.
    Branches,
    /// `pages`: the titles of wiki pages, each with the current version.
    Pages,
    /// `tickets [FIELD ...]`: the ids of tickets, each with the values of some fields, which are as those of `init`.
    Tickets { fields: List<Text> },
    /// `threads`: the threads of the forum.
    Threads,
}

/// A command on a file of unversioned files. A path has at most 512 bytes, and no part between its slashes is empty, `.`
/// or `..`.
#[derive(Drop)]
pub enum Unversioned {
    /// `uv-init PROJECT SERVER`: a new file for unversioned files, with these two codes.
    Init { project: Name, server: Name },
    /// `uv-add PATH`: the input becomes the content of a path.
    Add { path: Text },
    /// `uv-remove PATH`: a path is deleted.
    Remove { path: Text },
    /// `uv-list`: the paths that aren't deleted.
    List,
    /// `uv-cat PATH`: the content of a path.
    Cat { path: Text },
    /// `uv-sync PEER`: the newest entries go both ways between this file and another.
    Sync { peer: Text },
}

/// A command with its words.
#[derive(Drop)]
pub enum Command {
    /// `init PROJECT SERVER [FIELD ...]`: a new repository with these two codes and configured ticket fields. A field is 1
    /// to 64 bytes of `a` to `z`, digits and `_` that begin with a letter; they differ and are at most 256.
    Init {
        project: Name,
        server: Name,
        fields: List<Text>,
    },
    /// `ingest`: the files of a message, without a repository.
    Ingest,
    /// `put`: the files of a message, into the repository.
    Put,
    /// `shun NAME`: takes a name out of the repository, and keeps it out until it is unshunned.
    Shun {
        name: Name,
    },
    /// `unshun NAME`: lets a shunned name into the repository again; what was held under it doesn't come back by that.
    Unshun {
        name: Name,
    },
    /// A report.
    Ask(Question),
    /// `serve ADDRESS USERS WORKERS N`: the repository is served at an address to the users of a file, by 1 to 16 workers, each
    /// of which takes 1 to 65,536 connections.
    Serve {
        address: Text,
        users: Text,
        workers: u64,
        requests: u64,
    },
    /// `gen N` and `gen N reversed`: 1 to 100,000 generated artifacts, in their order or from its end, as a set of their own.
    Gen {
        count: u64,
        reversed: bool,
    },
    /// `pull ADDRESS [USER SECRET]`: artifacts are pulled from the repository that is served at an address, under a login, its
    /// user and its secret, or under none.
    Pull {
        address: Text,
        login: Option<(Text, Text)>,
    },
    /// `push ADDRESS [USER SECRET]`: artifacts are pushed to the repository that is served at an address, under a login, its
    /// user and its secret, or under none.
    Push {
        address: Text,
        login: Option<(Text, Text)>,
    },
    /// `clone ADDRESS SERVER [FIELD ...]`: a new repository with this server code and these configured ticket fields, of the
    /// project and with the artifacts of the one that is served at an address.
    Clone {
        address: Text,
        server: Name,
        fields: List<Text>,
    },
    /// `pull-local PEER`: artifacts are pulled from the repository of another file.
    PullLocal {
        peer: Text,
    },
    /// `checkin PARENT USER COMMENT`: a tree is checked in under a user and a comment, over the check-in whose name has a prefix
    /// or, where PARENT is `-`, over none.
    Checkin {
        parent: Option<Text>,
        user: Text,
        comment: Text,
    },
    /// `export PREFIX`: the tree of a check-in.
    Export {
        prefix: Text,
    },
    /// `verify PREFIX`: whether the checksum of a check-in is that of its tree.
    Verify {
        prefix: Text,
    },
    /// `scrub PEER`: the repository is written into another file, without what is shunned.
    Scrub {
        peer: Text,
    },
    /// A command of unversioned files.
    Unversioned(Unversioned),
}

/// The path of a repository, and a command.
#[derive(Drop)]
pub struct Words {
    pub repository: Text,
    pub command: Command,
}

/// The reasons why words are no command.
#[derive(Clone, Copy, PartialEq, Eq, Debug, Drop, Error)]
pub enum WordsFault {
    /// They are outside the grammar.
    #[error("the words are no command")]
    Usage,
    /// The program is out of memory.
    #[error("out of memory")]
    Memory,
}
