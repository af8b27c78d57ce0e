//! A line a connection of a door, and a line a round of a dial.
use super::hand::Hand;
use fsl_outside::{Accepted, Dial, Door, Failed, Link, MemoryDial, MemoryDoor, MemorySink};
use fsl_watch::{LoggedDial, LoggedDoor};
use std::alloc::{AllocError, Global};
use std::cell::Cell;

/// Copies of these bytes.
fn copies(alloc: Global, all: &[&[u8]]) -> Result<Vec<Vec<u8>>, AllocError> {
    let mut kept = Vec::new(alloc);
    for bytes in all {
        kept.push(bytes.to_vec(alloc)?)?;
    }
    Ok(kept)
}

/// A door of two connections, whose first accept and whose third read or write fail, before a sink whose calls of these numbers fail.
fn door<'a>(
    alloc: Global,
    clock: &'a Cell<u64>,
    sink_fails: &[u64],
) -> Result<LoggedDoor<MemoryDoor, MemorySink, Hand<'a>>, AllocError> {
    let connections = copies(alloc, &[b"POST", b""])?;
    let fails = [3u64].to_vec(alloc)?;
    let accept_fails = [1u64].to_vec(alloc)?;
    let inner = MemoryDoor::new(alloc, connections, fails, accept_fails);
    let out = MemorySink::new(alloc, sink_fails.to_vec(alloc)?);
    Ok(LoggedDoor::new(alloc, inner, out, Hand(clock)))
}

/// Whether the answers are those of the door in memory, call by call, while the clock goes on.
fn answers<A: Door>(door: &mut A, clock: &Cell<u64>) -> bool {
    let mut into = [0u8; 8];
    clock.set(100);
    let begun = [
        door.accept() == Err(Failed),
        door.accept() == Ok(Accepted::Connection),
        door.read(&mut into) == Ok(4),
        into == *b"POST\0\0\0\0",
    ];
    clock.set(130);
    let answered = [
        door.write(b"HTTP/1.1 ") == Ok(9),
        door.write(b"lost") == Err(Failed),
        door.write(b"404 Not Found") == Ok(13),
    ];
    clock.set(150);
    door.leave();
    let second = [
        door.accept() == Ok(Accepted::Connection),
        door.read(&mut into) == Ok(0),
        door.accept() == Ok(Accepted::Closed),
    ];
    let counted = [door.faults(), door.accept_faults(), door.closings()] == [1; 3];
    begun == [true; 4] && answered == [true; 3] && second == [true; 3] && counted
}

/// Whether it is so, and the connections took what was sent, and these lines were put out.
fn is_logged(alloc: Global, sink_fails: &[u64], lines: &[u8]) -> Result<bool, AllocError> {
    let clock = Cell::new(0);
    let mut door = door(alloc, &clock, sink_fails)?;
    let is_answered = answers(&mut door, &clock);
    let is_sent = door.door().sent(0) == Some(b"HTTP/1.1 404 Not Found".as_slice());
    let is_told = door.out().taken() == lines;
    drop(door);
    Ok(is_answered & is_sent & is_told)
}

#[test]
fn a_door_puts_out_a_line_for_each_connection(rt: HostRuntime) -> Result<(), AllocError> {
    let lines =
        b"fossil: status 404, 4 bytes in, 22 bytes out, 30 ms\nfossil: status -, 0 bytes in, 0 bytes out, 0 ms\n";
    assert!(rt; is_logged(rt.alloc(), &[], lines)?);
    Ok(())
}

/// A line that can't be put out is dropped, and the answers are the same.
#[test]
fn a_line_that_fails_changes_no_answer(rt: HostRuntime) -> Result<(), AllocError> {
    let lines = b"fossil: status -, 0 bytes in, 0 bytes out, 0 ms\n";
    assert!(rt; is_logged(rt.alloc(), &[1], lines)?);
    Ok(())
}

/// Whether two rounds go through, the clock goes on within them, and a third read fails.
fn rounds<N: Dial>(dial: &mut N, clock: &Cell<u64>) -> bool {
    let mut into = [0u8; 8];
    clock.set(10);
    let first = [
        dial.connect().is_ok(),
        dial.write(b"ask") == Ok(3),
        dial.read(&mut into) == Ok(5),
        into == *b"reply\0\0\0",
    ];
    clock.set(25);
    let second = [
        dial.connect().is_ok(),
        dial.write(b"more") == Ok(4),
        dial.read(&mut into) == Err(Failed),
        dial.faults() == 1,
    ];
    clock.set(1030);
    let last = dial.read(&mut into) == Ok(2);
    first == [true; 4] && second == [true; 4] && last
}

/// Whether the lines are those of both rounds.
fn rounds_are_told(alloc: Global) -> Result<bool, AllocError> {
    let clock = Cell::new(0);
    let replies = copies(alloc, &[b"reply", b"ok"])?;
    let inner = MemoryDial::new(alloc, replies, [6u64].to_vec(alloc)?);
    let out = MemorySink::new(alloc, Vec::new(alloc));
    let mut dial = LoggedDial::new(alloc, inner, out, Hand(&clock));
    let is_answered = rounds(&mut dial, &clock);
    dial.end();
    dial.end();
    let is_sent = dial.dial().sent(1) == Some(b"more".as_slice());
    let is_told = dial.out().taken()
        == b"fossil: round 1, 3 bytes sent, 5 bytes got, 0 ms\nfossil: round 2, 4 bytes sent, 2 bytes got, 1005 ms\n".as_slice();
    drop(dial);
    Ok(is_answered & is_sent & is_told)
}

#[test]
fn a_dial_puts_out_a_line_for_each_round(rt: HostRuntime) -> Result<(), AllocError> {
    assert!(rt; rounds_are_told(rt.alloc())?);
    Ok(())
}
