// A served repository. One session pushes an artifact and asks for it, the other one pulls; each stays at its gate until the other one is inside.
use super::clocks::set_clock;
use super::doors::CountingDoor;
use super::gates::{Signals, TurnGate};
use super::staffing::is_for_two;
use fossil::{Served, State, serve};
use fsl_blobs::BlobState;
use fsl_disk::MemoryDisk;
use fsl_name::Name;
use fsl_outside::{MemoryDoor, MemorySink, MemorySource, SetClock};
use fsl_serve::Crew;
use std::alloc::{AllocError, Global};
use std::sync::atomic::{AtomicU64, Ordering};
use std::sync::{Arc, Wait};
use std::thread::Threads;
use tests_kit::owned;

type TurnCrew = Crew<CountingDoor<MemoryDoor>, TurnGate, SetClock>;

/// A new repository's file, with the project of forty digits `1` and the server of forty digits `2`.
const NEW_FILE: &[u8] =
    b"fossil-blobs-1\nO\0\0\0\0\0\0\0\x2BC\x11\x11\x11\x11\x11\x11\x11\x11\x11\x11\x11\x11\x11\x11\x11\x11\x11\x11\x11\x11\x22\x22\x22\x22\x22\x22\x22\x22\x22\x22\x22\x22\x22\x22\x22\x22\x22\x22\x22\x22\0\0C";

/// Two workers that serve one connection each.
const WORDS: [&str; 6] = ["r", "serve", "127.0.0.1:1", "users", "2", "1"];

const PUSH: &[u8] =
    b"POST / HTTP/1.1\r\nContent-Type: application/x-fossil-uncompressed\r\nContent-Length: 273\r\n\r\npush 2222222222222222222222222222222222222222 1111111111111111111111111111111111111111\npull 2222222222222222222222222222222222222222 1111111111111111111111111111111111111111\nfile a9993e364706816aba3e25717850c26c9cd0d89d 3\nabc\ngimme a9993e364706816aba3e25717850c26c9cd0d89d\n";

const PULL: &[u8] =
    b"POST / HTTP/1.1\r\nContent-Type: application/x-fossil-uncompressed\r\nContent-Length: 87\r\n\r\npull 2222222222222222222222222222222222222222 1111111111111111111111111111111111111111\n";

const PUSHED: &[u8] =
    b"\r\n\r\nigot a9993e364706816aba3e25717850c26c9cd0d89d\nfile a9993e364706816aba3e25717850c26c9cd0d89d 3\nabc\n";

const PULLED: &[u8] = b"\r\n\r\nigot a9993e364706816aba3e25717850c26c9cd0d89d\n";

/// A crew whose one connection brings this request.
fn crew(
    alloc: Global,
    request: &[u8],
    signals: &Arc<Signals, Global>,
    is_first: bool,
) -> Result<TurnCrew, AllocError> {
    let signals = Arc::try_clone(signals)?;
    let request = request.to_vec(alloc)?;
    let mut connections = Vec::new(alloc);
    connections.push(request)?;
    let door = MemoryDoor::new(alloc, connections, Vec::new(alloc), Vec::new(alloc));
    Ok(Crew {
        door: CountingDoor {
            door,
            wrote: false,
            left: 0,
        },
        gate: TurnGate { signals, is_first },
        clock: set_clock(),
    })
}

/// The two crews.
fn crews(alloc: Global, signals: &Arc<Signals, Global>) -> Result<Vec<TurnCrew>, AllocError> {
    let mut crews = Vec::new(alloc);
    crews.push(crew(alloc, PUSH, signals, true)?)?;
    crews.push(crew(alloc, PULL, signals, false)?)?;
    Ok(crews)
}

/// What is seen of a serve.
#[derive(Drop)]
struct Seen {
    status: u8,
    holds_abc: bool,
    crews: Vec<TurnCrew>,
}

/// Whether a repository was left that holds the artifact `abc`. It is closed, so that none of its parts is let go here.
fn holds_abc(state: State<MemoryDisk>) -> bool {
    match state {
        State::Loaded(repo) => {
            let holds = repo.state(Name::of(b"abc")) == BlobState::Public { size: 3 };
            drop(repo.close());
            holds
        }
        State::Unloaded(disk) => {
            drop(disk);
            false
        }
    }
}

/// Serves a new repository by two crews, as the words ask.
fn serve_new<R: Threads + Wait + Sync>(
    rt: &R,
    alloc: Global,
    crews: Vec<TurnCrew>,
    out: &mut MemorySink,
) -> Result<Option<Seen>, AllocError> {
    let words = owned(alloc, &WORDS)?;
    let words = words.as_slice();
    let mut users = MemorySource::new(b"nobody oi -".to_vec(alloc)?, Vec::new(alloc));
    let disk = MemoryDisk::new(alloc, NEW_FILE.to_vec(alloc)?, Vec::new(alloc));
    if crews.len() != 2 || !is_for_two(alloc, words) {
        return Ok(None);
    }
    Ok(Some(watched(serve(rt, alloc, words, &mut users, disk, crews, out))))
}

/// What is seen of what a serve leaves.
fn watched(served: Served<MemoryDisk, CountingDoor<MemoryDoor>, TurnGate, SetClock>) -> Seen {
    let Served {
        status,
        state,
        crews,
    } = served;
    Seen {
        status,
        holds_abc: holds_abc(state),
        crews,
    }
}

/// Whether a crew's connection took bytes that end so, and was let go once, behind its answer.
fn is_served(crews: &[TurnCrew], at: usize, end: &[u8]) -> bool {
    match crews.get(at) {
        Some(crew) => match crew.door.door.sent(0) {
            Some(bytes) => bytes.ends_with(end) && crew.door.left == 1,
            None => false,
        },
        None => false,
    }
}

/// Whether two sessions are served at once, and each connection is let go once.
fn are_served_at_once<R: Threads + Wait + Sync>(rt: &R, alloc: Global) -> Result<bool, AllocError> {
    let signals = Arc::new(
        alloc,
        Signals {
            first_arrived: AtomicU64::new(0),
            second_answered: AtomicU64::new(0),
            late: AtomicU64::new(0),
        },
    )?;
    let mut out = MemorySink::new(alloc, Vec::new(alloc));
    let good = match serve_new(rt, alloc, crews(alloc, &signals)?, &mut out)? {
        Some(seen) => are_as_wanted(&seen),
        None => false,
    };
    let printed = out.taken() == b"sessions 2\nstored 1\n".as_slice();
    Ok(good && printed && signals.late.load(Ordering::SeqCst) == 0)
}

/// Whether all went well, and the repository holds what was pushed.
fn are_as_wanted(seen: &Seen) -> bool {
    let crews = seen.crews.as_slice();
    seen.status == 0 && seen.holds_abc && is_served(crews, 0, PUSHED) && is_served(crews, 1, PULLED)
}

// With one thread the first session would wait in vain for the second one, and its gate would be late.
#[test]
fn serves_two_at_once_and_lets_each_connection_go(rt: HostRuntime) {
    let served = matches!(are_served_at_once(&rt, rt.alloc()), Ok(true));
    assert!(rt; served);
}
