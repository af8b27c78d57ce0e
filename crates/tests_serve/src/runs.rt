//! Runs whose disk fails, and what a crash leaves then.
use crate::clocks::set_clock;
use crate::damaged::FILE;
use fossil::{Ran, one_outcome, run, some_outcome};
use fsl_disk::{Disk, FileDisk, FlipDisk, FuseDisk, MemoryDisk};
use fsl_outside::{Dial, MemoryDial, MemorySink, MemorySource};
use fsl_text::Memory;
use std::alloc::{AllocError, Global};
use std::test::Fail;
use tests_kit::owned;

const PUT: [&str; 2] = ["r", "put"];

const CAT: [&str; 3] = ["r", "cat", "a999"];

// A new repository's file.
pub(crate) const NEW_FILE: &[u8] =
    b"fossil-blobs-2\nO\0\0\0\0\0\0\0\x2BC\x11\x11\x11\x11\x11\x11\x11\x11\x11\x11\x11\x11\x11\x11\x11\x11\x11\x11\x11\x11\x22\x22\x22\x22\x22\x22\x22\x22\x22\x22\x22\x22\x22\x22\x22\x22\x22\x22\x22\x22\0\0C";

// The same of version 1.
const OLD_FILE: &[u8] =
    b"fossil-blobs-1\nO\0\0\0\0\0\0\0\x2BC\x11\x11\x11\x11\x11\x11\x11\x11\x11\x11\x11\x11\x11\x11\x11\x11\x11\x11\x11\x11\x22\x22\x22\x22\x22\x22\x22\x22\x22\x22\x22\x22\x22\x22\x22\x22\x22\x22\x22\x22\0\0C";

// A message of the file `abc`.
const ABC: &[u8] = b"file a9993e364706816aba3e25717850c26c9cd0d89d 3\nabc\n";

/// A disk with these bytes.
pub(crate) fn disk_of(alloc: Global, bytes: &[u8]) -> Result<MemoryDisk, AllocError> {
    Ok(MemoryDisk::new(alloc, bytes.to_vec(alloc)?, Vec::new(alloc)))
}

/// An input of these bytes.
fn source_of(alloc: Global, bytes: &[u8]) -> Result<MemorySource, AllocError> {
    Ok(MemorySource::new(bytes.to_vec(alloc)?, Vec::new(alloc)))
}

/// A dial that begins no connection.
fn nobody(alloc: Global) -> MemoryDial {
    MemoryDial::new(alloc, Vec::new(alloc), Vec::new(alloc))
}

/// Runs over a disk and a dial. There is no peer.
fn ran<D: Disk + Drop, N: Dial>(
    alloc: Global,
    words: &[&str],
    input: &[u8],
    sink: &mut MemorySink,
    repo: D,
    dial: &mut N,
) -> Result<Ran<D, FileDisk>, AllocError> {
    let words = owned(alloc, words)?;
    let mut source = source_of(alloc, input)?;
    Ok(run(
        alloc,
        words.as_slice(),
        &mut source,
        sink,
        repo,
        FileDisk::none(),
        dial,
        &mut set_clock(),
    ))
}

/// The status, and what was printed.
pub(crate) fn end<D: Disk + Drop, N: Dial>(
    alloc: Global,
    words: &[&str],
    input: &[u8],
    repo: D,
    dial: &mut N,
) -> Result<(u8, Vec<u8>), AllocError> {
    let mut sink = MemorySink::new(alloc, Vec::new(alloc));
    let status = ran(alloc, words, input, &mut sink, repo, dial)?.status;
    Ok((status, sink.taken().to_vec(alloc)?))
}

/// Whether `cat` finds `abc`, or no such artifact, in one of the files that a crash leaves.
fn stands_or_not(alloc: Global, disk: &MemoryDisk, pick: u64) -> Result<bool, Memory> {
    let left = disk.crash(alloc, pick)?;
    let (status, printed) = end(alloc, &CAT, b"", left, &mut nobody(alloc))?;
    Ok(match status {
        0 => printed.as_slice() == b"abc".as_slice(),
        3 => printed.as_slice() == b"refused: no artifact a999\n".as_slice(),
        _ => false,
    })
}

/// How many of eight files that a crash leaves hold neither `abc` nor nothing, or aren't looked at for want of memory.
fn count_others(alloc: Global, disk: &MemoryDisk) -> u64 {
    let mut others = 0u64;
    for pick in 0..8 {
        if stands_or_not(alloc, disk, pick) != Ok(true) {
            others = others.saturating_add(1);
        }
    }
    others
}

/// The status of `put` over a disk that fails after so many calls, and of what crashes leave how many are wrong.
fn put_after(alloc: Global, bytes: &[u8], calls: u64) -> Result<(u8, u64), AllocError> {
    let mut sink = MemorySink::new(alloc, Vec::new(alloc));
    let disk = FuseDisk::new(disk_of(alloc, bytes)?, calls);
    let Ran {
        status,
        repo,
        peer: _,
    } = ran(alloc, &PUT, ABC, &mut sink, disk, &mut nobody(alloc))?;
    Ok((status, count_others(alloc, &repo.inner())))
}

/// The status that comes after so many calls, of which so many are enough.
fn wanted(calls: u64, enough: u64) -> (u8, u64) {
    (if calls < enough { 4 } else { 0 }, 0)
}

// It loads by three calls, and commits by six, of which the last is the second sync. Two more carry a file of version 1 over.
#[test]
fn put_tells_a_disk_that_fails(rt: HostRuntime) -> Result<(), Fail> {
    one_outcome();
    some_outcome();
    for calls in 0..12 {
        assert_eq!(rt;
            put_after(rt.alloc(), NEW_FILE, calls)?,
            wanted(calls, 9),
            "after {calls} calls"
        );
        assert_eq!(rt;
            put_after(rt.alloc(), OLD_FILE, calls)?,
            wanted(calls, 11),
            "after {calls} calls, over version 1"
        );
    }
    Ok(())
}

/// The status of `cat` over a disk that gives the first byte of `abc` wrong after so many reads of it, and what was printed.
fn cat_after(alloc: Global, reads: u64) -> Result<(u8, Vec<u8>), AllocError> {
    let disk = FlipDisk::new(disk_of(alloc, FILE)?, 106, reads);
    end(alloc, &CAT, b"", disk, &mut nobody(alloc))
}

// The load reads the byte once, and tests its artifact; what `cat` reads it tests again.
#[test]
fn cat_tells_a_damaged_content(rt: HostRuntime) -> Result<(), Fail> {
    let alloc = rt.alloc();
    let (status, printed) = cat_after(alloc, 0)?;
    assert_eq!(rt; status, 2);
    assert!(rt; printed.as_slice() == b"not a repository: 67\n".as_slice());
    let (status, printed) = cat_after(alloc, 1)?;
    assert_eq!(rt; status, 12);
    assert!(rt;
        printed.as_slice()
            == b"damaged a9993e364706816aba3e25717850c26c9cd0d89d 885e43e86d71878441d4f5bbb98feba890c007be\n".as_slice()
    );
    let (status, printed) = cat_after(alloc, 2)?;
    assert_eq!(rt; status, 0);
    assert!(rt; printed.as_slice() == b"abc".as_slice());
    Ok(())
}
