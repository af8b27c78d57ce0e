//! Sessions over a disk that gives a byte of a content wrong once it was loaded.
use super::clocks::set_clock;
use fsl_disk::{FlipDisk, MemoryDisk};
use fsl_login::Users;
use fsl_outside::{MemoryLink, NoGate};
use fsl_repo::Repo;
use fsl_serve::{SessionEnd, nothing_is_damaged, session_alone};
use fsl_turn::{Solo, SoloPass};
use std::alloc::Global;
use std::sync::Wait;
use std::test::Fail;

type Machine = Repo<FlipDisk<MemoryDisk>>;

/// A repository's file with the project of forty digits `1`, the server of forty digits `2` and the artifact `abc`, whose first
/// byte stands at 106.
pub(crate) const FILE: &[u8] =
    b"fossil-blobs-1\nO\0\0\0\0\0\0\0\x2BC\x11\x11\x11\x11\x11\x11\x11\x11\x11\x11\x11\x11\x11\x11\x11\x11\x11\x11\x11\x11\x22\x22\x22\x22\x22\x22\x22\x22\x22\x22\x22\x22\x22\x22\x22\x22\x22\x22\x22\x22\0\0O\0\0\0\0\0\0\0\x21B\0\xA9\x99>6G\x06\x81j\xBA>%qxP\xC2l\x9C\xD0\xD8\x9D\0\0\0\0\0\0\0\x03abcC";

const PULL: &[u8] =
    b"POST / HTTP/1.1\r\nContent-Type: application/x-fossil-uncompressed\r\nContent-Length: 87\r\n\r\npull 2222222222222222222222222222222222222222 1111111111111111111111111111111111111111\n";

const PULL_FILE: &[u8] =
    b"POST / HTTP/1.1\r\nContent-Type: application/x-fossil-uncompressed\r\nContent-Length: 134\r\n\r\npull 2222222222222222222222222222222222222222 1111111111111111111111111111111111111111\ngimme a9993e364706816aba3e25717850c26c9cd0d89d\n";

const NO_REPLY: &[u8] =
    b"HTTP/1.1 500 Internal Server Error\r\nContent-Length: 0\r\nConnection: close\r\n\r\n";

/// The status of a session, and whether that alone was sent.
fn answered(end: SessionEnd, sent: &[u8]) -> (u16, bool) {
    match end {
        SessionEnd::Answered { status } => (status, sent == NO_REPLY),
        SessionEnd::Closed | SessionEnd::Link => (0, false),
    }
}

/// One session, in which everybody may pull. Status 0 is for want of memory too.
fn session<R: Wait>(
    rt: &R,
    alloc: Global,
    turns: &Solo<Machine>,
    pass: &mut SoloPass<Machine>,
    request: &[u8],
) -> (u16, bool) {
    let Ok(users) = Users::read(alloc, b"nobody o -\n") else {
        return (0, false);
    };
    let Ok(request) = request.to_vec(alloc) else {
        return (0, false);
    };
    let project = pass.machine.config().project;
    let mut link = MemoryLink::new(alloc, request, Vec::new(alloc));
    let end = session_alone(
        rt,
        alloc,
        turns,
        pass,
        &users,
        project,
        &mut link,
        &mut NoGate,
        &mut set_clock(),
        0,
    );
    answered(end, link.sent())
}

/// Three sessions over this repository, which is closed behind them: two ask for the artifact, one doesn't.
fn sessions<R: Wait>(rt: &R, alloc: Global, repo: Machine) -> [(u16, bool); 3] {
    let (turns, mut pass) = Solo::make(repo);
    let first = session(rt, alloc, &turns, &mut pass, PULL_FILE);
    let second = session(rt, alloc, &turns, &mut pass, PULL_FILE);
    let third = session(rt, alloc, &turns, &mut pass, PULL);
    let SoloPass { machine, told: _ } = pass;
    drop(machine.close());
    [first, second, third]
}

/// The same over a disk that gives the first byte of the artifact wrong after so many reads of it. One of them loads it.
fn after<R: Wait>(rt: &R, alloc: Global, reads: u64) -> Result<[(u16, bool); 3], Fail> {
    let disk = MemoryDisk::new(alloc, FILE.to_vec(alloc)?, Vec::new(alloc));
    match Repo::load(alloc, FlipDisk::new(disk, 106, reads)) {
        Ok(repo) => Ok(sessions(rt, alloc, repo)),
        Err((_, fault)) => Err(Fail::from(fault)),
    }
}

// A content that is damaged isn't sent, and stops nothing. What was read well is kept.
#[test]
fn a_session_tells_no_damaged_content(rt: HostRuntime) -> Result<(), Fail> {
    nothing_is_damaged::<MemoryDisk>();
    let alloc = rt.alloc();
    assert_eq!(rt;
        after(&rt, alloc, 1)?,
        [(500, true), (500, true), (200, false)]
    );
    assert_eq!(rt;
        after(&rt, alloc, 2)?,
        [(200, false), (200, false), (200, false)]
    );
    Ok(())
}
