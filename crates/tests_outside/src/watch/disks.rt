//! A disk that tells how much was read and written, at most once a second.
use super::hand::Hand;
use fsl_disk::{Disk, MemoryDisk};
use fsl_outside::{Failed, MemorySink};
use fsl_watch::{WatchedDisk, Whose};
use std::alloc::{AllocError, Global};
use std::cell::Cell;

/// Reads so many bytes of the front.
fn read<D: Disk>(disk: &mut D, into: &mut [u8]) -> Result<(), Failed> {
    if disk.len()? < into.len() as u64 {
        return Err(Failed);
    }
    disk.read_at(0, into)
}

/// Puts bytes behind the end.
fn append<D: Disk>(disk: &mut D, bytes: &[u8]) -> Result<(), Failed> {
    let len = disk.len()?;
    disk.write_at(len, bytes)
}

/// Takes the last byte away.
fn drop_last<D: Disk>(disk: &mut D) -> Result<(), Failed> {
    let len = disk.len()?;
    if len == 0 {
        return Err(Failed);
    }
    disk.cut(len - 1)
}

/// Whether each call answers as that of the disk in memory does, at these milliseconds. The fourth call fails.
fn answers<D: Disk>(disk: &mut D, clock: &Cell<u64>) -> bool {
    let mut into = [0u8; 3];
    clock.set(500);
    let early = read(disk, &mut into).is_ok() && into == *b"abc";
    clock.set(1000);
    let failed = read(disk, &mut into) == Err(Failed);
    let due = read(disk, &mut into).is_ok();
    let soon = append(disk, b"xyz").is_ok();
    clock.set(2000);
    let later = append(disk, b"ef").is_ok();
    let silent = drop_last(disk).is_ok() && disk.sync().is_ok();
    [early, failed, due, soon, later, silent, disk.faults() == 1] == [true; 7]
}

/// Whether it is so, with a line at each of two seconds.
fn is_told(alloc: Global, whose: Whose, lines: &[u8]) -> Result<bool, AllocError> {
    let clock = Cell::new(0);
    let inner = MemoryDisk::new(alloc, b"abcd".to_vec(alloc)?, [4u64].to_vec(alloc)?);
    let out = MemorySink::new(alloc, Vec::new(alloc));
    let mut disk = WatchedDisk::new(alloc, inner, whose, out, Hand(&clock));
    let is_answered = answers(&mut disk, &clock);
    let is_told = disk.out().taken() == lines;
    drop(disk);
    Ok(is_answered & is_told)
}

#[test]
fn a_disk_tells_at_most_once_a_second(rt: HostRuntime) -> Result<(), AllocError> {
    let lines =
        b"fossil: the file: 6 of 4 bytes read, 0 written\nfossil: the file: 6 of 7 bytes read, 5 written\n";
    assert!(rt; is_told(rt.alloc(), Whose::Own, lines)?);
    Ok(())
}

#[test]
fn a_disk_says_whose_it_is(rt: HostRuntime) -> Result<(), AllocError> {
    let lines =
        b"fossil: the peer's file: 6 of 4 bytes read, 0 written\nfossil: the peer's file: 6 of 7 bytes read, 5 written\n";
    assert!(rt; is_told(rt.alloc(), Whose::Peer, lines)?);
    Ok(())
}
