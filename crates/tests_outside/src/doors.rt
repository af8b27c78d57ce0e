//! A door and a dial in memory: what they give in turn, what they took, and which of their calls fail.
use crate::sockets::gets;
use fsl_outside::{Accepted, Dial, Door, Link, MemoryDial, MemoryDoor};
use std::alloc::{AllocError, Global};

/// These bytes alone.
fn one(alloc: Global, bytes: &[u8]) -> Result<Vec<Vec<u8>>, AllocError> {
    let bytes = bytes.to_vec(alloc)?;
    let mut all = Vec::new(alloc);
    all.push(bytes)?;
    Ok(all)
}

/// Whether a connection begins, takes a request, and gives the reply.
fn exchanges<N: Dial>(dial: &mut N, request: &[u8]) -> bool {
    let done = [
        dial.connect().is_ok(),
        dial.write(request) == Ok(request.len()),
        gets(dial, b"x"),
    ];
    done == [true; 3]
}

/// Whether the second connection gives the last reply again, and took what it took.
fn exchanges_twice(dial: &mut MemoryDial) -> bool {
    let done = [exchanges(dial, b"a"), exchanges(dial, b"bc")];
    let sent = dial.sent(1) == Some(b"bc".as_slice()) && dial.sent(2).is_none();
    done == [true; 2] && sent
}

/// Whether this holds of a dial with one reply.
fn repeats_its_reply(alloc: Global) -> Result<bool, AllocError> {
    let mut dial = MemoryDial::new(alloc, one(alloc, b"x")?, Vec::new(alloc));
    Ok(exchanges_twice(&mut dial))
}

#[test]
fn dials_give_their_replies_in_turn(rt: HostRuntime) -> Result<(), AllocError> {
    assert!(rt; repeats_its_reply(rt.alloc())?);
    Ok(())
}

/// Whether the first accept fails, the second takes the one connection, and the third finds the door closed.
fn closes<A: Door>(door: &mut A) -> bool {
    let done = [
        door.accept().is_err(),
        door.read(&mut [0u8; 8]).is_err(),
        door.accept() == Ok(Accepted::Connection),
        door.read(&mut [0u8; 8]) == Ok(3),
        door.write(b"xy") == Ok(2),
        door.accept() == Ok(Accepted::Closed),
    ];
    done == [true; 6]
}

/// Whether the door has what its one connection took, and counted what failed.
fn has_counted(door: &MemoryDoor) -> bool {
    let counts = [door.faults(), door.accept_faults(), door.closings()];
    let sent = door.sent(0) == Some(b"xy".as_slice()) && door.sent(1).is_none();
    sent && counts == [1; 3]
}

/// Whether both hold of a door of one connection, whose first accept fails.
fn closes_and_counts(alloc: Global) -> Result<bool, AllocError> {
    let fails = [1u64].to_vec(alloc)?;
    let mut door = MemoryDoor::new(alloc, one(alloc, b"abc")?, Vec::new(alloc), fails);
    let is_closed = closes(&mut door);
    Ok(is_closed & has_counted(&door))
}

#[test]
fn doors_close_behind_the_last_connection(rt: HostRuntime) -> Result<(), AllocError> {
    assert!(rt; closes_and_counts(rt.alloc())?);
    Ok(())
}
