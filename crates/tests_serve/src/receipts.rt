//! The receipts of what sessions bring.
use super::clocks::{SET_MS, set_clock};
use super::damaged::FILE;
use fsl_disk::MemoryDisk;
use fsl_login::Users;
use fsl_name::Name;
use fsl_outside::{MemoryLink, NoGate};
use fsl_repo::Repo;
use fsl_serve::session_alone;
use fsl_turn::{Solo, SoloPass};
use std::alloc::Global;
use std::sync::Wait;
use std::test::Fail;

type Machine = Repo<MemoryDisk>;

/// Everybody may push and pull, and two may log in.
const USERS: &[u8] = b"nobody oi -\nalice oi open\nbob oi shut\n";

/// A push of the artifact `hi`, in whose message `alice` logs in first and `bob` behind her.
const BY_TWO: &[u8] =
    b"POST / HTTP/1.1\r\nContent-Type: application/x-fossil-uncompressed\r\nContent-Length: 324\r\n\r\nlogin alice 6ba6e53501d001f593732e74b51cdfe08f92bb86 9b3ad1969b2d22c3079bf3618c85434591a43abf\nlogin bob 80ebae652d235ff21bdedae5bd6d0eb35cdd241a bde5de32350a08af8ede87854069ab0958486932\npush 2222222222222222222222222222222222222222 1111111111111111111111111111111111111111\nfile c22b5f9178342609428d6f51b2c5af4c0bde6a42 2\nhi\n";

/// The same push without a login.
const BY_NOBODY: &[u8] =
    b"POST / HTTP/1.1\r\nContent-Type: application/x-fossil-uncompressed\r\nContent-Length: 138\r\n\r\npush 2222222222222222222222222222222222222222 1111111111111111111111111111111111111111\nfile c22b5f9178342609428d6f51b2c5af4c0bde6a42 2\nhi\n";

/// Whether the artifact `hi` is held with a receipt that has this login and the moment of the clock, and `abc`, which was there
/// before, has none.
fn is_brought_by(repo: &Machine, login: &[u8]) -> bool {
    let old = repo.receipt(Name::of(b"abc")).is_none();
    match repo.receipt(Name::of(b"hi")) {
        Some(receipt) => old && receipt.login() == login && receipt.moment().ms() == SET_MS,
        None => false,
    }
}

/// Whether one session with this request brings the artifact so. It doesn't where memory lacks.
fn brings<R: Wait>(rt: &R, alloc: Global, repo: Machine, request: Vec<u8>, login: &[u8]) -> bool {
    let (turns, mut pass) = Solo::make(repo);
    if let Ok(users) = Users::read(alloc, USERS) {
        let project = pass.machine.config().project;
        let mut link = MemoryLink::new(alloc, request, Vec::new(alloc));
        session_alone(
            rt,
            alloc,
            &turns,
            &mut pass,
            &users,
            project,
            &mut link,
            &mut NoGate,
            &mut set_clock(),
            0,
        );
    }
    let SoloPass { machine, told: _ } = pass;
    let good = is_brought_by(&machine, login);
    drop(machine.close());
    good
}

/// The same over a new repository that holds `abc`.
fn brings_to_new<R: Wait>(
    rt: &R,
    alloc: Global,
    request: &[u8],
    login: &[u8],
) -> Result<bool, Fail> {
    let request = request.to_vec(alloc)?;
    let disk = MemoryDisk::new(alloc, FILE.to_vec(alloc)?, Vec::new(alloc));
    match Repo::load(alloc, disk) {
        Ok(repo) => Ok(brings(rt, alloc, repo, request, login)),
        Err((_, fault)) => Err(Fail::from(fault)),
    }
}

// The first login counts, and without one it is nobody's.
#[test]
fn what_is_pushed_has_a_receipt(rt: HostRuntime) -> Result<(), Fail> {
    let alloc = rt.alloc();
    assert!(rt; brings_to_new(&rt, alloc, BY_TWO, b"alice")?);
    assert!(rt; brings_to_new(&rt, alloc, BY_NOBODY, b"nobody")?);
    Ok(())
}
