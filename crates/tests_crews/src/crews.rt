//! Two crews, one connection each, of which the first one pushes an artifact and asks for it, and the other one pulls.
use crate::objects::{Fault, Object, fails_of};
use fsl_date::Moment;
use fsl_outside::{MemoryDoor, NoGate, SetClock};
use fsl_serve::Crew;
use std::alloc::{AllocError, Global};

pub type QuietCrew = Crew<MemoryDoor, NoGate, SetClock>;

const PUSH: &[u8] =
    b"POST / HTTP/1.1\r\nContent-Type: application/x-fossil-uncompressed\r\nContent-Length: 273\r\n\r\npush 2222222222222222222222222222222222222222 1111111111111111111111111111111111111111\npull 2222222222222222222222222222222222222222 1111111111111111111111111111111111111111\nfile a9993e364706816aba3e25717850c26c9cd0d89d 3\nabc\ngimme a9993e364706816aba3e25717850c26c9cd0d89d\n";

const PULL: &[u8] =
    b"POST / HTTP/1.1\r\nContent-Type: application/x-fossil-uncompressed\r\nContent-Length: 87\r\n\r\npull 2222222222222222222222222222222222222222 1111111111111111111111111111111111111111\n";

/// A crew whose one connection brings this request.
fn crew(
    alloc: Global,
    request: &[u8],
    fails: Vec<u64>,
    accept_fails: Vec<u64>,
) -> Result<QuietCrew, AllocError> {
    let request = request.to_vec(alloc)?;
    let mut connections = Vec::new(alloc);
    connections.push(request)?;
    Ok(Crew {
        door: MemoryDoor::new(alloc, connections, fails, accept_fails),
        gate: NoGate,
        clock: SetClock::new(Moment::new(0).unwrap()),
    })
}

/// The crew that pushes.
fn pushing(alloc: Global, fault: Fault) -> Result<QuietCrew, AllocError> {
    let fails = fails_of(alloc, fault, Object::PushLink)?;
    let accept_fails = fails_of(alloc, fault, Object::PushDoor)?;
    crew(alloc, PUSH, fails, accept_fails)
}

/// The crew that pulls.
fn pulling(alloc: Global, fault: Fault) -> Result<QuietCrew, AllocError> {
    let fails = fails_of(alloc, fault, Object::PullLink)?;
    let accept_fails = fails_of(alloc, fault, Object::PullDoor)?;
    crew(alloc, PULL, fails, accept_fails)
}

/// The two crews, the one that pushes first.
pub fn crews(alloc: Global, fault: Fault) -> Result<Vec<QuietCrew>, AllocError> {
    let mut crews = Vec::new(alloc);
    crews.push(pushing(alloc, fault)?)?;
    crews.push(pulling(alloc, fault)?)?;
    Ok(crews)
}
