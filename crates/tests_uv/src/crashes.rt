//! Syncs of two files, one of which fails after so many calls, and second ones over what crashes leave of both.
use crate::stores::{Counts, Left, shows, sync_files};
use fsl_disk::{FuseDisk, MemoryDisk};
use fsl_text::Memory;
use std::alloc::Global;
use std::test::Fail;

/// `a.txt` is `abc` at moment 0, and `b.txt` is `b` at moment 5.
const HERE: &[u8] =
    b"fossil-blobs-2\nO\0\0\0\0\0\0\0+CabcdefghijklmnopqrstABCDEFGHIJKLMNOPQRST\0\0O\0\0\0\0\0\0\0\xD4B\04o04\x82\x7F\xEF\xD0\xA1\xAF%\xC6e\xE5i\x10\xA9\x19O\xCF\0\0\0\0\0\0\0Muv 1970-01-01T00:00:00.000 a9993e364706816aba3e25717850c26c9cd0d89d a.txt\nabcB\07\xD9\xB8\xCA\xC8.\x8C1\xA9o\x02T\xE0\xD6\xC1\xD3\xFE\xCC\xB8\xF4\0\0\0\0\0\0\0Kuv 1970-01-01T00:00:00.005 e9d71f5ee7c92d6dc9e92ffdad17b8bd49418f98 b.txt\nbC";

/// `a.txt` is empty at moment 1, `b.txt` is `x` at moment 4, and `c.txt` is `c` at moment 2.
const THERE: &[u8] =
    b"fossil-blobs-2\nO\0\0\0\0\0\0\0+CabcdefghijklmnopqrstABCDEFGHIJKLMNOPQRST\0\0O\0\0\0\0\0\0\x01:B\0\x8B\xFB\xA1\xAA\xE2M\x1EA\x08Q\xB4\xBF6\x95\xF1\xB2\xC1f&\x86\0\0\0\0\0\0\0Juv 1970-01-01T00:00:00.001 da39a3ee5e6b4b0d3255bfef95601890afd80709 a.txt\nB\0\x84\x15\x14<1\xFE\x12f\x0E\x83$\xAA\xF7\x80\x01\xAB.,9(\0\0\0\0\0\0\0Kuv 1970-01-01T00:00:00.004 11f6ad8ec52a2984abaafd7c3b516503785c2072 b.txt\nxB\0=\xAF:\xEC\\zX8\xA2QAv?\xF1^\x91\x8C\x8Bvs\0\0\0\0\0\0\0Kuv 1970-01-01T00:00:00.002 84a516841ba77a5b4648de2cd0dfcb30ea46dbb4 c.txt\ncC";

/// What both list behind a sync.
const MERGED: &[u8] =
    b"1970-01-01T00:00:00.001 da39a3ee5e6b4b0d3255bfef95601890afd80709 0 a.txt\n1970-01-01T00:00:00.005 e9d71f5ee7c92d6dc9e92ffdad17b8bd49418f98 1 b.txt\n1970-01-01T00:00:00.002 84a516841ba77a5b4648de2cd0dfcb30ea46dbb4 1 c.txt\n";

/// The calls of a disk that doesn't fail.
const ALL: u64 = u64::MAX;

/// What a sync moves of the two files; what is left of it once the one here has taken in; and of two files that are the same.
const WHOLE: Counts = Some((2, 1));

const BACK: Counts = Some((0, 1));

const NOTHING: Counts = Some((0, 0));

/// A disk that holds a file. Behind so many calls each one fails, or the next one alone, of which a half may be done.
fn failing(
    alloc: Global,
    file: &[u8],
    calls: u64,
    once: bool,
) -> Result<FuseDisk<MemoryDisk>, Memory> {
    let bytes = file.to_vec(alloc)?;
    let (fuse, fails) = if once {
        (ALL, calls.saturating_add(1))
    } else {
        (calls, 0)
    };
    let disk = MemoryDisk::new(alloc, bytes, [fails].to_vec(alloc)?);
    Ok(FuseDisk::new(disk, fuse))
}

/// A sync of the two files, over disks that fail so.
fn synced(alloc: Global, here_calls: u64, there_calls: u64, once: bool) -> Option<Left> {
    match failing(alloc, HERE, here_calls, once) {
        Ok(here) => match failing(alloc, THERE, there_calls, once) {
            Ok(there) => Some(sync_files(alloc, here, there)),
            Err(_) => {
                drop(here);
                None
            }
        },
        Err(_) => None,
    }
}

/// What a sync moves of two files, where both show the merge behind it.
fn finished(alloc: Global, here: MemoryDisk, there: MemoryDisk) -> Counts {
    let left = sync_files(alloc, FuseDisk::new(here, ALL), FuseDisk::new(there, ALL));
    let Left {
        counts,
        here,
        there,
    } = left;
    let merged = shows(alloc, here, MERGED) & shows(alloc, there, MERGED);
    if merged { counts } else { None }
}

/// The same of what the crash of this number leaves of both.
fn finished_behind(alloc: Global, left: &Left, pick: u64) -> Counts {
    match left.here.crash(alloc, pick) {
        Ok(here) => match left.there.crash(alloc, pick) {
            Ok(there) => finished(alloc, here, there),
            Err(_) => {
                drop(here);
                None
            }
        },
        Err(_) => None,
    }
}

/// Whether what is moved behind each of 16 crashes is one of these.
fn is_finished(alloc: Global, left: &Left, one: Counts, other: Counts) -> bool {
    let mut good = true;
    for pick in 0..16 {
        let counts = finished_behind(alloc, left, pick);
        good = good & (counts == one || counts == other);
    }
    good
}

/// What a sync moved, and whether a second one behind each crash of both disks moves one of these.
fn goes_over(
    left: Option<Left>,
    alloc: Global,
    one: Counts,
    other: Counts,
) -> Option<(Counts, bool)> {
    match left {
        Some(left) => {
            let good = is_finished(alloc, &left, one, other);
            let counts = left.counts;
            drop(left);
            Some((counts, good))
        }
        None => None,
    }
}

/// Whether a sync moves this, and each second one one of these, be it that all calls behind so many fail or one alone.
fn goes(
    alloc: Global,
    here_calls: u64,
    there_calls: u64,
    moved: Counts,
    one: Counts,
    other: Counts,
) -> bool {
    let mut good = true;
    for once in [false, true] {
        let left = synced(alloc, here_calls, there_calls, once);
        good = good & (goes_over(left, alloc, one, other) == Some((moved, true)));
    }
    good
}

/// Three calls load a file, and six commit what it takes in. Whichever call fails, the file of the one here has all of it or
/// none behind a crash, that of the other is as it was, and a second sync makes both the merge.
#[test]
fn a_second_sync_finishes_where_the_one_here_failed(rt: HostRuntime) -> Result<(), Fail> {
    for calls in 0..12 {
        let (moved, one, other) = match calls {
            0..=2 => (None, WHOLE, WHOLE),
            3..=8 => (None, WHOLE, BACK),
            _ => (WHOLE, NOTHING, NOTHING),
        };
        let is = goes(rt.alloc(), calls, ALL, moved, one, other);
        assert!(rt; is, "after {calls} calls here");
    }
    Ok(())
}

/// The same of the other file: the one here has taken in all before.
#[test]
fn a_second_sync_finishes_where_the_peer_failed(rt: HostRuntime) -> Result<(), Fail> {
    for calls in 0..12 {
        let (moved, one, other) = match calls {
            0..=2 => (None, WHOLE, WHOLE),
            3..=8 => (None, BACK, NOTHING),
            _ => (WHOLE, NOTHING, NOTHING),
        };
        let is = goes(rt.alloc(), ALL, calls, moved, one, other);
        assert!(rt; is, "after {calls} calls there");
    }
    Ok(())
}
