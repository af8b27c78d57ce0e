//! Runs a repository as a machine. The repository owns its disk, and keeps its records, its held artifacts and its tables. Each
//! call is one step of it.
#![tactic(auto)]

ghost use Rattle.std.specs.Prelude.{◌≡◌};

mod arriving;
mod asking;
mod building;
mod clusters;
mod commits;
mod gathering;
mod laws;
mod listing;
mod machine;
mod opening;
mod parsing;
mod placed;
mod reads;
mod replying;
mod repo;
mod sending;
mod wanting;

use fsl_blobs::{Blobs, Known};
use fsl_cross::Items;
use fsl_journal::{CommitFault, Journal};
use fsl_name::Name;
use fsl_record::Receipt;
use fsl_text::{List, Memory, Text};
use fsl_wire::{Caps, Message};
pub use laws::{
    arrival_has_an_answer, arrival_has_one_answer, build_has_an_answer, build_has_one_answer,
    builds_keep, clustering_has_an_answer, clustering_has_one_answer, events_have_answers,
    held_are_items, held_are_one_list, unshunning_has_an_answer, unshunning_has_one_answer,
};
pub use machine::steps_go_on;
pub use opening::{artifacts_of_file, names_of_file};
pub use parsing::read_artifact;
pub use repo::Repo;
use std::marker::Model;
pub use wanting::wants_of;

/// The opened file of a repository, without tables. It has the journal, the blobs that the records leave, without contents, and
/// the held artifacts as they were parsed, where they were.
#[derive(Drop)]
pub struct Opened {
    pub journal: Journal,
    pub blobs: Blobs,
    pub items: Option<Items>,
}

/// The outcome of an arrival.
#[derive(Clone, Copy, PartialEq, Eq, Debug)]
pub enum Arrival {
    /// The name of the artifact is shunned. Nothing changed.
    Shunned,
    /// The artifact is held already. Nothing changed.
    Present,
    /// The artifact was held as private, and is public from now on.
    Published,
    /// The artifact is held from now on.
    Stored,
}

/// A reason why an artifact didn't arrive. Nothing changed.
#[derive(Clone, Copy, PartialEq, Eq, Debug)]
pub enum ArriveFault {
    /// A commit has failed. The field has the disk's count of faults at that time.
    Stopped { faults: u64 },
    /// The artifact has this many bytes, more than 16,777,216.
    TooLarge { size: u64 },
    /// The bytes have this name.
    NameWrong { found: Name },
    /// With the artifact there would be this many bytes, artifacts and wanted names. One of these is too many.
    Full { bytes: u128, count: u64, wants: u64 },
    /// Memory ran out.
    Memory,
}

/// The outcome of shunning a name.
#[derive(Clone, Copy, PartialEq, Eq, Debug)]
pub enum Shunning {
    /// The name was shunned before. Nothing changed.
    Already,
    /// The artifact was held, and isn't any more.
    Removed,
    /// The artifact wasn't held.
    Listed,
}

/// A reason why a name wasn't shunned. Nothing changed.
#[derive(Clone, Copy, PartialEq, Eq, Debug)]
pub enum ShunFault {
    /// A commit has failed. The field has the disk's count of faults at that time.
    Stopped { faults: u64 },
    /// Memory ran out.
    Memory,
}

/// The outcome of taking a name off the list of the shunned ones.
#[derive(Clone, Copy, PartialEq, Eq, Debug)]
pub enum Unshunning {
    /// The name wasn't shunned. Nothing changed.
    NotShunned,
    /// The name was shunned, and isn't any more.
    Unshunned,
}

/// A reason why a name wasn't taken off the list. Nothing changed.
#[derive(Clone, Copy, PartialEq, Eq, Debug)]
pub enum UnshunFault {
    /// A commit has failed. The field has the disk's count of faults at that time.
    Stopped { faults: u64 },
    /// Without the name in the list this many names would be wanted, more than 1,048,576.
    Full { wants: u64 },
    /// Memory ran out.
    Memory,
}

/// The outcome of a call for a cluster.
#[derive(Clone, Copy, PartialEq, Eq, Debug)]
pub enum Clustering {
    /// Only this many public names are in no cluster, at most 100.
    Few { count: u64 },
    /// A cluster of the first 4,096 was made, and arrived under this name.
    Arrived { name: Name, arrival: Arrival },
}

/// A reason why a reply wasn't built. Nothing changed but the disk's count of faults.
#[derive(Clone, Copy, PartialEq, Eq, Debug)]
pub enum BuildFault {
    /// A call of the disk failed.
    Disk,
    /// The bytes that were read for the artifact of a name have another name.
    Damaged { name: Name, found: Name },
    /// Memory ran out.
    Memory,
}

/// A question for a reply: a message, the rights of its sender, and notices for it.
#[derive(Drop)]
pub struct Ask {
    pub caps: Caps,
    pub message: Message,
    pub notices: List<Text>,
}

/// The reply to a message. Only `Repo::build` makes one. Contracts see its bytes.
#[derive(Drop)]
pub struct Reply {
    held: Text,
}

impl Model for Reply {
    ghost use Rattle.std.specs.Prelude.{List as Items, ℕ};

    ghost Value = { Items ℕ };

    ghost view = { λ r. r.held };
}

impl Reply {
    /// Returns the bytes of the reply.
    pub fn bytes(&self) -> &[u8]
        ensures { result.now ≡ self.now }
    {
        self.held.bytes()
    }
}

/// A call to a repository.
#[derive(Drop)]
pub enum Event {
    /// An artifact arrives.
    Arrive {
        name: Name,
        bytes: Text,
        private: bool,
    },
    /// An artifact arrives with a receipt. The receipt says who brought it and when.
    Receive {
        name: Name,
        bytes: Text,
        private: bool,
        receipt: Receipt,
    },
    /// A name is announced by one who may send its artifact.
    Announce {
        name: Name,
    },
    /// A name is shunned.
    Shun {
        name: Name,
    },
    /// A name is taken off the list of the shunned ones.
    Unshun {
        name: Name,
    },
    /// A cluster of public names that are in none is made, where there are enough.
    Cluster,
    /// A reply is built.
    Build {
        ask: Ask,
    },
    /// The appended records are put on the disk.
    Commit,
}

/// The answer of a repository to an event. It is that of the event's own call.
#[derive(Drop)]
pub enum Answer {
    Arrive(Result<Arrival, ArriveFault>),
    Receive(Result<Arrival, ArriveFault>),
    Announce(Result<Known, Memory>),
    Shun(Result<Shunning, ShunFault>),
    Unshun(Result<Unshunning, UnshunFault>),
    Cluster(Result<Clustering, ArriveFault>),
    Build(Result<Reply, BuildFault>),
    Commit(Result<u64, CommitFault>),
}
