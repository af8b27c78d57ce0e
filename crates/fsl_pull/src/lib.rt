//! Runs the client of a sync. A sync is a list of rounds. In a round a request goes out, a reply comes in, its files arrive in
//! the repository, and one commit follows. [`pull`] asks for names until no file comes and none is new. [`push`] announces names
//! and sends the files that are asked for. [`clone_from`] makes a repository, and asks from place to place.
//!
//! Each round over a network has a connection of its own. The contract of a call says which rounds the connections of its
//! dial are, what each of them asks, and that the answer is the one that these replies come to.
#![tactic(auto)]

mod asking;
mod choosing;
mod cloning;
mod committing;
mod laws;
mod local;
mod next;
mod pulling;
mod pushing;
mod reading;
mod replies;
mod requests;
mod sent;
mod taking;

pub use cloning::clone_from;
use fsl_name::Name;
use fsl_text::Text;
pub use laws::{
    clones_count_no_faults, clones_hold_the_files, local_pulls_end, local_pulls_leave_all,
    pulls_end_well, pulls_miss_what_is_kept, syncs_commit, syncs_commit_all, syncs_have_one_end,
    syncs_have_some_end, syncs_move_on,
};
pub use local::pull_local;
pub use pulling::pull;
pub use pushing::push;

/// The user who asks, and the secret of that user.
#[derive(Drop)]
pub struct Login {
    pub user: Text,
    pub secret: Text,
}

/// The outcome of a sync: the number of its rounds, and of the artifacts that were stored, or sent by a push.
#[derive(Clone, Copy, Debug, PartialEq, Eq)]
pub struct Pulled {
    pub rounds: u64,
    pub stored: u64,
}

/// A fault of a reply.
#[derive(Debug, Drop)]
pub enum PeerFault {
    /// The reply has no head.
    Head,
    /// The reply has a status other than 200.
    Http { found: u16 },
    /// The reply has a length above 2^27.
    Long { found: u64 },
    /// The body has this many bytes, fewer than its head says.
    Short { found: u64 },
    /// A line doesn't read, or is a private card.
    Line { line: u64 },
    /// The reply has an error card with this text.
    Error { text: Text },
    /// The bytes of a file have another name.
    WrongName { name: Name, found: Name },
    /// The reply has no push card with two codes.
    NoPush,
    /// The reply has no card that says where a clone goes on.
    NoSequence,
    /// The number of the reply takes a clone no further.
    Sequence { found: u64 },
    /// The reply asks again for a file that was sent.
    Again { name: Name },
}

/// A reason why a sync failed.
#[derive(Debug, Drop)]
pub enum PullFault {
    /// The disk of a clone isn't empty. It holds this many bytes.
    NotEmpty { len: u64 },
    /// The file that a clone made doesn't read back as that repository. The field has the place of the fault. It is 0 where the
    /// file reads as another repository.
    NotRepository { at: u64 },
    /// The other repository has this project code.
    Project { found: Name },
    /// A commit has failed. The field has the disk's count of faults at that time.
    Stopped { faults: u64 },
    /// A call of the dial failed.
    Link,
    /// A call of the disk failed, or in a pull from another repository one of the peer's disk.
    Disk,
    /// The bytes that were read for a file that is to be sent, or to be taken from another repository, have another name.
    Damaged { name: Name, found: Name },
    /// A reply is wrong.
    Peer(PeerFault),
    /// A file that came has this many bytes, more than 16,777,216.
    TooLarge { name: Name, size: u64 },
    /// A limit of the repository would be passed with a file that came.
    Full { name: Name },
    /// The peer announced a name, was asked for it, and sends no file of it.
    Missing { name: Name },
    /// The sync wasn't at its end after 100,000 rounds.
    Rounds,
    /// Memory ran out.
    Memory,
}
