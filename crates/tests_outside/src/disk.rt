//! Each call of each disk once, a call that fails half done, and what crashes leave.
use fsl_disk::{Disk, FileDisk, FlipDisk, FuseDisk, MemoryDisk};
use fsl_outside::Failed;
use fsl_text::Memory;
use std::alloc::Global;
use std::fs;
use std::fs::OpenOptions;
use std::test::Fail;

fn disk_of(alloc: Global, bytes: &[u8], fails: &[u64]) -> Result<MemoryDisk, Memory> {
    let bytes = bytes.to_vec(alloc)?;
    let fails = fails.to_vec(alloc)?;
    Ok(MemoryDisk::new(alloc, bytes, fails))
}

fn append<D: Disk>(disk: &mut D, bytes: &[u8]) -> Result<(), Failed> {
    let len = disk.len()?;
    disk.write_at(len, bytes)
}

fn drop_last<D: Disk>(disk: &mut D) -> Result<(), Failed> {
    let len = disk.len()?;
    if len == 0 {
        return Err(Failed);
    }
    disk.cut(len - 1)
}

fn read_front<D: Disk>(disk: &mut D, into: &mut [u8]) -> Result<(), Failed> {
    if disk.len()? < into.len() as u64 {
        return Err(Failed);
    }
    disk.read_at(0, into)
}

/// Seven calls, each kind once at least: bytes are put behind the end, the last of them is dropped, and the front is read.
fn use_disk<D: Disk>(disk: &mut D, into: &mut [u8]) -> Result<(), Failed> {
    append(disk, b"defg")?;
    drop_last(disk)?;
    disk.sync()?;
    read_front(disk, into)
}

/// Whether the calls over `abc` were done behind a fuse that passes so many.
fn passes(alloc: Global, calls: u64) -> Result<bool, Memory> {
    let mut fuse = FuseDisk::new(disk_of(alloc, b"abc", &[])?, calls);
    let mut into = [0u8; 6];
    let done = use_disk(&mut fuse, &mut into).is_ok();
    let good = done & (into == *b"abcdef") & (fuse.faults() == 0);
    let disk = fuse.inner();
    Ok(good & (disk.bytes() == b"abcdef".as_slice()))
}

#[test]
fn a_fuse_passes_so_many_calls(rt: HostRuntime) -> Result<(), Memory> {
    assert_eq!(rt;
        [passes(rt.alloc(), 7)?, passes(rt.alloc(), 6)?],
        [true, false]
    );
    Ok(())
}

/// What two reads of `abc` give whose second byte is wrong behind the first one, a read past the end, how many calls failed
/// then, and whether a write goes through.
fn flipped(alloc: Global) -> Result<([u8; 3], [u8; 3], u64, bool), Memory> {
    let mut flip = FlipDisk::new(disk_of(alloc, b"abc", &[])?, 1, 1);
    let (mut first, mut second) = ([0u8; 3], [0u8; 3]);
    let read = read_front(&mut flip, &mut first).is_ok()
        & read_front(&mut flip, &mut second).is_ok();
    let _ = flip.read_at(2, &mut [0u8; 2]);
    let faults = flip.faults();
    let written = append(&mut flip, b"d").is_ok();
    let disk = flip.inner();
    Ok((
        first,
        second,
        faults,
        read & written & (disk.bytes() == b"abcd".as_slice()),
    ))
}

#[test]
fn a_flip_turns_the_lowest_bit_of_one_byte(rt: HostRuntime) -> Result<(), Memory> {
    let found = flipped(rt.alloc())?;
    assert_eq!(rt; found, (*b"abc", *b"acc", 1, true));
    Ok(())
}

/// Whether a write of four behind `abc` leaves two of them where the second call fails.
fn is_half_written(alloc: Global) -> Result<bool, Memory> {
    let mut disk = disk_of(alloc, b"abc", &[2])?;
    let _ = append(&mut disk, b"defg");
    Ok(disk.bytes() == b"abcde".as_slice())
}

#[test]
fn a_call_that_fails_is_half_done(rt: HostRuntime) -> Result<(), Memory> {
    assert!(rt; is_half_written(rt.alloc())?);
    Ok(())
}

/// `abc` stable, and `def` behind it.
fn changed(alloc: Global) -> Result<MemoryDisk, Memory> {
    let mut disk = disk_of(alloc, b"abc", &[])?;
    let _ = append(&mut disk, b"def");
    Ok(disk)
}

/// How long what a crash leaves is, whether `abc` stands, and whether what was written does, as far as it goes.
fn crashed(alloc: Global, disk: &MemoryDisk, pick: u64) -> Result<(usize, bool, bool), Memory> {
    let left = disk.crash(alloc, pick)?;
    let bytes = left.bytes();
    Ok((
        bytes.len(),
        bytes.starts_with(b"abc"),
        b"abcdef".as_slice().starts_with(bytes),
    ))
}

/// Of the crashes of these numbers, whether each leaves `abc`, whether one is shorter, and whether one has other bytes
/// behind.
fn all_crashed(alloc: Global, disk: &MemoryDisk) -> Result<[bool; 3], Memory> {
    let mut found = [true, false, false];
    for pick in 0..40 {
        let (len, kept, written) = crashed(alloc, disk, pick)?;
        found[0] &= kept;
        found[1] |= len == 4 || len == 5;
        found[2] |= !written;
    }
    Ok(found)
}

fn crashes(alloc: Global) -> Result<[bool; 3], Memory> {
    let disk = changed(alloc)?;
    all_crashed(alloc, &disk)
}

#[test]
fn crashes_leave_a_part_or_other_bytes(rt: HostRuntime) -> Result<(), Memory> {
    assert_eq!(rt; crashes(rt.alloc())?, [true; 3]);
    Ok(())
}

/// Two calls that a file refuses, and how many it has refused then.
fn refused(disk: &mut FileDisk) -> (bool, bool, u64) {
    let read = disk.read_at(4, &mut [0u8; 3]);
    let written = disk.write_at(1 << 63, b"");
    (read.is_err(), written.is_err(), disk.faults())
}

#[test]
fn works_on_a_real_file(rt: HostRuntime) -> Result<(), Fail> {
    let path = "fsl_disk_test_file";
    let mut options = OpenOptions::new();
    options.read(true).write(true).create(true).truncate(true);
    let file = options.open(&rt, path)?;
    let mut disk = FileDisk::over(file);
    let mut into = [0u8; 3];
    let done = fs::remove_file(&rt, path).is_ok() && use_disk(&mut disk, &mut into).is_ok();
    assert_eq!(rt; (done, into), (true, *b"def"));
    assert_eq!(rt; refused(&mut disk), (true, true, 2));
    Ok(())
}

#[test]
fn no_file_fails_each_call(rt: HostRuntime) {
    let mut none = FileDisk::none();
    let failed = [none.len().is_err(), none.sync().is_err()];
    assert_eq!(rt; (failed, none.faults()), ([true; 2], 2));
}
