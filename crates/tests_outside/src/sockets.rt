//! Doors and dials over sockets of this machine, and a clock that the test sets.
use fsl_outside::{Accepted, Dial, Door, Failed, Link, TcpDial, TcpDoor};
use std::io;
use std::net::{Ipv4Addr, SocketAddr, TcpListener};
use std::sync::Arc;
use std::test::Fail;

/// A socket that listens at some port of this machine, and a dial to it.
fn listen(rt: HostRuntime) -> io::Result<(TcpListener, TcpDial<HostRuntime>)> {
    let listener = TcpListener::bind(&rt, SocketAddr::from((Ipv4Addr::LOCALHOST, 0)))?;
    let address = listener.local_addr()?;
    let address = format!(in rt.alloc(); "{address}")?;
    Ok((listener, TcpDial::new(rt, address)))
}

/// A door and a dial to it.
fn pair(rt: HostRuntime) -> io::Result<(TcpDoor<HostRuntime>, TcpDial<HostRuntime>)> {
    let (listener, dial) = listen(rt)?;
    Ok((TcpDoor::over(rt, Arc::new(rt.alloc(), listener)?), dial))
}

/// Whether these bytes, and no others, come in one read.
pub(crate) fn gets<L: Link>(link: &mut L, bytes: &[u8]) -> bool {
    let mut into = [0u8; 16];
    match link.read(&mut into) {
        Ok(count) => into.get(..count) == Some(bytes),
        Err(_) => false,
    }
}

/// Whether bytes went from one to the other.
fn passes<A: Link, B: Link>(from: &mut A, to: &mut B, bytes: &[u8]) -> bool {
    from.write(bytes) == Ok(bytes.len()) && gets(to, bytes)
}

/// Whether a connection begins, and bytes pass both ways.
fn meets<A: Door, N: Dial>(door: &mut A, dial: &mut N) -> bool {
    let done = [
        dial.connect().is_ok(),
        door.accept() == Ok(Accepted::Connection),
        passes(dial, door, b"ask"),
        passes(door, dial, b"answer"),
    ];
    done == [true; 4]
}

/// Whether two connections begin, one after the other, and nothing fails.
fn meets_twice<A: Door, N: Dial>(door: &mut A, dial: &mut N) -> bool {
    let met = [meets(door, dial), meets(door, dial)];
    let faults = [door.faults(), door.accept_faults(), dial.faults()];
    met == [true; 2] && faults == [0; 3]
}

/// Whether a connection that is left lets its peer see the end, and gives and takes nothing more.
fn lets_go<A: Door, N: Dial>(door: &mut A, dial: &mut N) -> bool {
    door.leave();
    let done = [
        gets(dial, b""),
        door.read(&mut [0u8; 4]) == Err(Failed),
        door.write(b"x") == Err(Failed),
    ];
    done == [true; 3]
}

/// Whether it is so between two connections, and only the two calls failed.
fn lets_go_between<A: Door, N: Dial>(door: &mut A, dial: &mut N) -> bool {
    let done = [meets(door, dial), lets_go(door, dial), meets(door, dial)];
    done == [true; 3] && [door.faults(), dial.faults()] == [2, 0]
}

/// What is tried between a door and a dial.
#[derive(Clone, Copy)]
enum Trial {
    MeetsTwice,
    LetsGoBetween,
}

/// Whether a trial holds. All trials go through this one function, as the door and the dial that it lets go are dear to prove.
fn holds(rt: HostRuntime, trial: Trial) -> io::Result<bool> {
    let (mut door, mut dial) = pair(rt)?;
    Ok(match trial {
        Trial::MeetsTwice => meets_twice(&mut door, &mut dial),
        Trial::LetsGoBetween => lets_go_between(&mut door, &mut dial),
    })
}

#[test]
fn a_door_takes_what_a_dial_begins(rt: HostRuntime) -> Result<(), Fail> {
    assert!(rt; holds(rt, Trial::MeetsTwice)?);
    Ok(())
}

/// What is left lets its peer see the end, and gives and takes nothing more until the next one comes.
#[test]
fn a_door_lets_go_what_it_leaves(rt: HostRuntime) -> Result<(), Fail> {
    assert!(rt; holds(rt, Trial::LetsGoBetween)?);
    Ok(())
}

/// Whether no connection begins.
fn cannot_begin<N: Dial>(dial: &mut N) -> bool {
    let failed = [dial.connect().is_err(), dial.write(b"x").is_err()];
    failed == [true; 2] && dial.faults() == 2
}

/// Whether it is so of a dial to a socket that is closed.
fn cannot_begin_closed(rt: HostRuntime) -> io::Result<bool> {
    let (listener, mut dial) = listen(rt)?;
    drop(listener);
    Ok(cannot_begin(&mut dial))
}

#[test]
fn a_dial_fails_where_nobody_listens(rt: HostRuntime) -> Result<(), Fail> {
    assert!(rt; cannot_begin_closed(rt)?);
    Ok(())
}

/// Whether each call of a door fails, and is counted.
fn is_no_door<A: Door>(door: &mut A) -> bool {
    let failed = [
        door.accept().is_err(),
        door.read(&mut [0u8; 4]).is_err(),
        door.write(b"x").is_err(),
    ];
    let counts = [door.accept_faults(), door.faults(), door.closings()];
    failed == [true; 3] && counts == [1, 2, 0]
}

/// Whether each call of a dial fails, and is counted.
fn is_no_dial<N: Dial>(dial: &mut N) -> bool {
    let failed = [
        dial.connect().is_err(),
        dial.read(&mut [0u8; 4]).is_err(),
        dial.write(b"x").is_err(),
    ];
    failed == [true; 3] && dial.faults() == 3
}

#[test]
fn without_a_socket_each_call_fails(rt: HostRuntime) {
    assert!(rt; is_no_door(&mut TcpDoor::<HostRuntime>::none()));
    assert!(rt; is_no_dial(&mut TcpDial::<HostRuntime>::none()));
}
