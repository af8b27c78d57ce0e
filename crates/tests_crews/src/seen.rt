//! What a server of two crews comes to.
use crate::crews::QuietCrew;
use fossil::{Served, State};
use fsl_blobs::BlobState;
use fsl_disk::MemoryDisk;
use fsl_name::Name;
use fsl_outside::{MemoryDoor, NoGate, SetClock};

/// What the pushing session is answered.
const PUSHED: &[u8] =
    b"HTTP/1.1 200 OK\r\nContent-Type: application/x-fossil-uncompressed\r\nContent-Length: 98\r\nConnection: close\r\n\r\nigot a9993e364706816aba3e25717850c26c9cd0d89d\nfile a9993e364706816aba3e25717850c26c9cd0d89d 3\nabc\n";

/// What the pulling session is answered where nothing was stored yet.
const PULLED_NOTHING: &[u8] =
    b"HTTP/1.1 200 OK\r\nContent-Type: application/x-fossil-uncompressed\r\nContent-Length: 0\r\nConnection: close\r\n\r\n";

/// What it is answered where `abc` was stored.
const PULLED_ABC: &[u8] =
    b"HTTP/1.1 200 OK\r\nContent-Type: application/x-fossil-uncompressed\r\nContent-Length: 46\r\nConnection: close\r\n\r\nigot a9993e364706816aba3e25717850c26c9cd0d89d\n";

/// How much of its reply a connection took.
#[derive(Clone, Copy, PartialEq, Eq)]
pub enum Taken {
    /// It wasn't accepted.
    Unborn,
    /// Nothing.
    Nothing,
    /// A front.
    Front,
    Whole,
    /// Anything else.
    Other,
}

/// What two lines a server prints, or of which fault.
#[derive(Clone, Copy, PartialEq, Eq)]
pub enum Printed {
    StoredNothing,
    StoredOne,
    InputFault,
    LinkFault,
    /// Nothing, as a front of the two lines.
    Nothing,
    Other,
}

/// What a server comes to: its status, whether the repository that it leaves holds `abc`, what the two connections took, and what was printed.
#[derive(Clone, Copy, PartialEq, Eq)]
pub struct Seen {
    pub status: u8,
    pub holds_abc: bool,
    pub pushed: Taken,
    pub pulled: Taken,
    pub printed: Printed,
}

/// What bytes are that were printed.
pub fn printed_of(bytes: &[u8]) -> Printed {
    match bytes {
        b"" => Printed::Nothing,
        b"sessions 2\nstored 0\n" => Printed::StoredNothing,
        b"sessions 2\nstored 1\n" => Printed::StoredOne,
        b"input fault\n" => Printed::InputFault,
        b"link fault\n" => Printed::LinkFault,
        _ => Printed::Other,
    }
}

/// How much of a reply these bytes are.
fn taken_of(bytes: Option<&[u8]>, whole: &[u8]) -> Taken {
    match bytes {
        None => Taken::Unborn,
        Some(bytes) if bytes.is_empty() => Taken::Nothing,
        Some(bytes) if bytes == whole => Taken::Whole,
        Some(bytes) if whole.starts_with(bytes) => Taken::Front,
        Some(_) => Taken::Other,
    }
}

/// What the connection of a crew took.
fn sent_by(crews: &[QuietCrew], at: usize) -> Option<&[u8]> {
    match crews.get(at) {
        Some(crew) => crew.door.sent(0),
        None => None,
    }
}

/// What the pulling session was answered, by whichever of the two replies it is.
fn pulled_of(bytes: Option<&[u8]>) -> Taken {
    match taken_of(bytes, PULLED_ABC) {
        Taken::Other => taken_of(bytes, PULLED_NOTHING),
        taken => taken,
    }
}

/// Whether a repository was left that holds the artifact `abc`. It is closed, so that none of its parts is let go here.
fn holds_abc(state: State<MemoryDisk>) -> bool {
    match state {
        State::Loaded(repo) => {
            let holds = repo.state(Name::of(b"abc")) == BlobState::Public { size: 3 };
            drop(repo.close());
            holds
        }
        State::Unloaded(disk) => {
            drop(disk);
            false
        }
    }
}

/// What is seen of what a server leaves and prints.
pub fn seen_of(served: Served<MemoryDisk, MemoryDoor, NoGate, SetClock>, printed: &[u8]) -> Seen {
    let Served {
        status,
        state,
        crews,
    } = served;
    let pushed = taken_of(sent_by(crews.as_slice(), 0), PUSHED);
    let pulled = pulled_of(sent_by(crews.as_slice(), 1));
    drop(crews);
    Seen {
        status,
        holds_abc: holds_abc(state),
        pushed,
        pulled,
        printed: printed_of(printed),
    }
}
