//! Runs the commands of a repository of artifacts (`run`), and serves it (`serve`).
//!
//! `fossil REPOSITORY init PROJECT SERVER [FIELD ...]` makes its file. `put` takes a message of files into it,
//! `cat PREFIX` writes the content of an artifact, and `receipt PREFIX` prints when it was brought and under which login.
//! `shun NAME` takes a name out, and `unshun NAME` takes it off the list of shunned names. `ingest` reads a message of
//! files into a set of its own, and prints which of its names no cluster lists, and which are named and not there.
//! `gen N` and `gen N reversed` take so many generated artifacts one after another into a set of their own, and print how
//! many of each sort there are.
//!
//! Reports: `timeline N` prints so many of the latest events, `leaves` the check-ins without a child in their branch,
//! `tags PREFIX` the tags in force on an artifact, `tip SYMBOL` the latest check-in of a symbolic name, `files PREFIX`
//! the files of a check-in and what it changed, `wiki TITLE` the versions of a page, `ticket PREFIX` the fields of a
//! ticket, `thread PREFIX` the posts of a thread, and `phantoms` the names that are referred to and neither held nor
//! shunned. `info` prints the codes of the repository and how much it holds. `branches`, `pages`, `tickets [FIELD ...]`
//! and `threads` list what there is, a line each.
//!
//! `checkin PARENT USER COMMENT` makes a check-in of a tree of files, over the check-in whose name begins with PARENT or
//! over none. `export PREFIX` writes the tree of a check-in, and `verify PREFIX` tests its checksum against the tree.
//!
//! `serve ADDRESS USERS WORKERS N` serves the repository to the users of a file. `pull ADDRESS [USER SECRET]` pulls
//! artifacts from the repository that is served at an address, `push ADDRESS [USER SECRET]` sends it those that it asks
//! for, and `pull-local PEER` pulls from the repository of another file. `clone ADDRESS SERVER [FIELD ...]` makes a file
//! of its own of the repository that is served at an address. `scrub PEER` writes a new file of the repository, without
//! any byte of what is shunned.
//!
//! `uv-init PROJECT SERVER` makes a file for files without history, of which the newest counts. `uv-add PATH` makes the
//! input the content of a path, `uv-remove PATH` deletes it, `uv-list` prints the paths that are there, `uv-cat PATH` a
//! content, and `uv-sync PEER` syncs two such files.
#![tactic(auto)]

mod answers;
mod commands;
mod laws;
mod ran;
mod reading;
mod top;
mod worked;

pub use answers::status::NO_MEMORY;
pub use commands::serve::{Served, State, serve};
pub use laws::tree_comes_back;
pub use ran::Ran;
pub use top::{one_outcome, run, some_outcome};
