//! A server of two crews whose users file, output, link or door fails at a call.
use crate::crews::{QuietCrew, crews};
use crate::objects::{Fault, Object, fails_of};
use crate::seen::{Printed, Seen, Taken, seen_of};
use crate::staffing::is_for_two;
use fossil::serve;
use fsl_disk::MemoryDisk;
use fsl_outside::{MemorySink, MemorySource};
use std::alloc::{AllocError, Global};
use std::sync::Wait;
use std::thread::Threads;
use tests_kit::owned;

/// A new repository's file, with the project of forty digits `1` and the server of forty digits `2`.
const NEW_FILE: &[u8] =
    b"fossil-blobs-2\nO\0\0\0\0\0\0\0+C\x11\x11\x11\x11\x11\x11\x11\x11\x11\x11\x11\x11\x11\x11\x11\x11\x11\x11\x11\x11\x22\x22\x22\x22\x22\x22\x22\x22\x22\x22\x22\x22\x22\x22\x22\x22\x22\x22\x22\x22\0\0C";

/// Two workers that serve one connection each.
const WORDS: [&str; 6] = ["r", "serve", "127.0.0.1:1", "users", "2", "1"];

const OBJECTS: [Object; 6] = [
    Object::Users,
    Object::Output,
    Object::PushLink,
    Object::PullLink,
    Object::PushDoor,
    Object::PullDoor,
];

/// What comes where nothing fails.
const WHOLE: Seen = Seen {
    status: 0,
    holds_abc: true,
    pushed: Taken::Whole,
    pulled: Taken::Whole,
    printed: Printed::StoredOne,
};

/// Serves a new repository by two crews.
fn serve_new<R: Threads + Wait + Sync>(
    rt: &R,
    alloc: Global,
    users: &mut MemorySource,
    crews: Vec<QuietCrew>,
    out: &mut MemorySink,
) -> Result<Option<Seen>, AllocError> {
    let words = owned(alloc, &WORDS)?;
    let words = words.as_slice();
    let disk = MemoryDisk::new(alloc, NEW_FILE.to_vec(alloc)?, Vec::new(alloc));
    if crews.len() != 2 || !is_for_two(alloc, words) {
        return Ok(None);
    }
    let served = serve(rt, alloc, words, users, disk, crews, out);
    Ok(Some(seen_of(served, out.taken())))
}

/// What a server comes to one of whose calls fails.
fn served<R: Threads + Wait + Sync>(
    rt: &R,
    alloc: Global,
    fault: Fault,
) -> Result<Option<Seen>, AllocError> {
    let fails = fails_of(alloc, fault, Object::Users)?;
    let mut users = MemorySource::new(b"nobody oi -".to_vec(alloc)?, fails);
    let mut out = MemorySink::new(alloc, fails_of(alloc, fault, Object::Output)?);
    serve_new(rt, alloc, &mut users, crews(alloc, fault)?, &mut out)
}

/// How much of its reply the pushing session takes whose link fails at this call. It is read once; then each of the ten pieces of its reply
/// is a write, of which the one that fails brings nothing.
fn pushed(call: u64) -> Taken {
    match call {
        1 | 2 => Taken::Nothing,
        3..=11 => Taken::Front,
        _ => Taken::Whole,
    }
}

/// What has to come of a call that fails. A call that isn't made changes nothing.
fn wanted(fault: Fault) -> Seen {
    match (fault.object, fault.call) {
        (Object::Users, 1 | 2) => Seen {
            status: 5,
            holds_abc: false,
            pushed: Taken::Unborn,
            pulled: Taken::Unborn,
            printed: Printed::InputFault,
        },
        (Object::Output, 1) => Seen {
            status: 6,
            printed: Printed::Nothing,
            ..WHOLE
        },
        (Object::PushLink, 1) => Seen {
            holds_abc: false,
            pushed: Taken::Nothing,
            printed: Printed::StoredNothing,
            ..WHOLE
        },
        (Object::PushLink, call) => Seen {
            pushed: pushed(call),
            ..WHOLE
        },
        (Object::PushDoor, 1) => Seen {
            status: 7,
            holds_abc: false,
            pushed: Taken::Unborn,
            printed: Printed::LinkFault,
            ..WHOLE
        },
        (Object::PullDoor, 1) => Seen {
            status: 7,
            pulled: Taken::Unborn,
            printed: Printed::LinkFault,
            ..WHOLE
        },
        _ => WHOLE,
    }
}

/// Whether the session that pulls took as much as it may where its link fails at this call: how many pieces its reply has depends on
/// which session comes first.
fn is_pulled(call: u64, pulled: Taken) -> bool {
    match pulled {
        Taken::Nothing => call < 3,
        Taken::Front => call > 2 && call < 12,
        Taken::Whole => call > 9,
        Taken::Unborn | Taken::Other => false,
    }
}

/// Whether this is what has to come of a call that fails.
fn is_wanted(fault: Fault, seen: Seen) -> bool {
    if fault.object == Object::PullLink {
        let others = Seen {
            pulled: Taken::Whole,
            ..seen
        };
        others == WHOLE && is_pulled(fault.call, seen.pulled)
    } else {
        seen == wanted(fault)
    }
}

/// How many of 20 calls of an object come to anything else where they fail.
fn count_others<R: Threads + Wait + Sync>(rt: &R, alloc: Global, object: Object) -> u64 {
    let mut others = 0u64;
    for call in 1..21 {
        let fault = Fault { object, call };
        let good = match served(rt, alloc, fault) {
            Ok(Some(seen)) => is_wanted(fault, seen),
            Ok(None) | Err(_) => false,
        };
        if !good {
            others = others.saturating_add(1);
        }
    }
    others
}

/// Whichever call of an object fails, its own status comes, or all that comes without a fault.
#[test]
fn a_failing_call_has_its_own_status(rt: HostRuntime) {
    let mut number = 0u64;
    for object in OBJECTS {
        number = number.saturating_add(1);
        assert_eq!(rt; count_others(&rt, rt.alloc(), object), 0, "object {number}");
    }
}
