//! Which of two entries is the greater, and syncs of two stores.
use crate::stores::{Counts, Left, fresh, has, loaded, put, sync_files};
use fsl_disk::{FuseDisk, MemoryDisk};
use fsl_text::{Memory, Text};
use fsl_uv::{Put, Store};
use std::alloc::Global;
use std::test::Fail;

/// The answer of the peer to the offer from here.
fn answered(here: &Store<MemoryDisk>, there: &Store<MemoryDisk>) -> Option<Text> {
    match here.offer() {
        Ok(offer) => {
            let answer = there.answer(offer.bytes());
            drop(offer);
            answer.ok()
        }
        Err(_) => None,
    }
}

/// How many entries of a message were stored and committed.
fn taken(store: &mut Store<MemoryDisk>, message: &[u8]) -> Option<u64> {
    let stored = store.apply(message).ok();
    match store.commit() {
        Ok(_) => stored,
        Err(_) => None,
    }
}

/// The same of what is given from here for an answer.
fn given(here: &Store<MemoryDisk>, there: &mut Store<MemoryDisk>, answer: &[u8]) -> Option<u64> {
    match here.give(answer) {
        Ok(files) => {
            let stored = taken(there, files.bytes());
            drop(files);
            stored
        }
        Err(_) => None,
    }
}

/// How many entries a sync stores here, and how many there.
fn synced(
    here: &mut Store<MemoryDisk>,
    there: &mut Store<MemoryDisk>,
) -> (Option<u64>, Option<u64>) {
    match answered(here, there) {
        Some(answer) => {
            let received = taken(here, answer.bytes());
            let sent = given(here, there, answer.bytes());
            drop(answer);
            (received, sent)
        }
        None => (None, None),
    }
}

/// A file here, an empty one at a later moment there, and a sync; then a deletion here, and two syncs.
fn three_syncs(
    alloc: Global,
    here: &mut Store<MemoryDisk>,
    there: &mut Store<MemoryDisk>,
) -> [(Option<u64>, Option<u64>, bool); 3] {
    let _ = put(alloc, here, b"a.txt", 0, Some(b"abc"));
    let _ = put(alloc, there, b"a.txt", 1, Some(b""));
    let (received, sent) = synced(here, there);
    let same = has(alloc, here, b"a.txt", 1, Some(b""))
        && has(alloc, there, b"a.txt", 1, Some(b""));
    let first = (received, sent, same);
    let _ = put(alloc, here, b"a.txt", 2, None);
    let (received, sent) = synced(here, there);
    let same = has(alloc, here, b"a.txt", 2, None) && has(alloc, there, b"a.txt", 2, None);
    let second = (received, sent, same);
    let (received, sent) = synced(here, there);
    [first, second, (received, sent, true)]
}

/// These over two stores, and whether the second one's file has the deletion.
fn over_two(alloc: Global) -> Result<([(Option<u64>, Option<u64>, bool); 3], bool), Memory> {
    let mut here = fresh(alloc)?;
    let Ok(mut there) = fresh(alloc) else {
        drop(here.close());
        return Err(Memory);
    };
    let counts = three_syncs(alloc, &mut here, &mut there);
    drop(here.close());
    let is = stays(alloc, there.close());
    Ok((counts, is))
}

/// Whether a file that is opened again has the deletion.
fn stays(alloc: Global, disk: MemoryDisk) -> bool {
    match loaded(alloc, disk) {
        Ok(store) => {
            let is = has(alloc, &store, b"a.txt", 2, None);
            drop(store.close());
            is
        }
        Err(_) => false,
    }
}

#[test]
fn syncs_take_the_newest(rt: HostRuntime) -> Result<(), Fail> {
    let (counts, is) = over_two(rt.alloc())?;
    assert_eq!(rt; counts[0], (Some(1), Some(0), true));
    assert_eq!(rt; counts[1], (Some(0), Some(1), true));
    assert_eq!(rt; counts[2], (Some(0), Some(0), true));
    assert!(rt; is);
    Ok(())
}

/// Two puts of a path at one moment, and what the second is answered and the path then has. The name of `a` begins with 8, that
/// of `b` with e, and none is written `-`.
const TIES: [(&[u8], Option<&[u8]>, Option<&[u8]>, Put, Option<&[u8]>); 6] = [
    (b"1", Some(b"a"), Some(b"b"), Put::Stored, Some(b"b")),
    (b"2", Some(b"b"), Some(b"a"), Put::Kept, Some(b"b")),
    (b"3", None, Some(b"a"), Put::Stored, Some(b"a")),
    (b"4", Some(b"a"), None, Put::Kept, Some(b"a")),
    (b"5", Some(b"a"), Some(b"a"), Put::Kept, Some(b"a")),
    (b"6", None, None, Put::Kept, None),
];

/// Whether each of these goes so.
fn tied(alloc: Global, store: &mut Store<MemoryDisk>) -> bool {
    let mut all = true;
    for (path, first, second, answer, held) in TIES {
        let stored = put(alloc, store, path, 5, first);
        let other = put(alloc, store, path, 5, second);
        let older = put(alloc, store, path, 4, Some(b"older"));
        if stored != Ok(Put::Stored)
            || other != Ok(answer)
            || older != Ok(Put::Kept)
            || !has(alloc, store, path, 5, held)
        {
            all = false;
        }
    }
    all
}

#[test]
fn the_greater_hash_wins_a_tie(rt: HostRuntime) -> Result<(), Fail> {
    let mut store = fresh(rt.alloc())?;
    let all = tied(rt.alloc(), &mut store);
    drop(store.close());
    assert!(rt; all);
    Ok(())
}

/// Contents of a path at one moment here and there, or none where it is deleted, what a sync stores, and what both then have.
const MEETINGS: [(Option<&[u8]>, Option<&[u8]>, Counts, Option<&[u8]>); 6] = [
    (Some(b"a"), Some(b"b"), Some((1, 0)), Some(b"b")),
    (Some(b"b"), Some(b"a"), Some((0, 1)), Some(b"b")),
    (None, Some(b"a"), Some((1, 0)), Some(b"a")),
    (Some(b"a"), None, Some((0, 1)), Some(b"a")),
    (Some(b"a"), Some(b"a"), Some((0, 0)), Some(b"a")),
    (None, None, Some((0, 0)), None),
];

/// A disk with a file of one entry.
fn filed(alloc: Global, bytes: Option<&[u8]>) -> Option<FuseDisk<MemoryDisk>> {
    match fresh(alloc) {
        Ok(mut store) => {
            let _ = put(alloc, &mut store, b"a", 5, bytes);
            let _ = store.commit();
            Some(FuseDisk::new(store.close(), u64::MAX))
        }
        Err(_) => None,
    }
}

/// A sync of two such files.
fn meet(alloc: Global, here: Option<&[u8]>, there: Option<&[u8]>) -> Option<Left> {
    match filed(alloc, here) {
        Some(here) => match filed(alloc, there) {
            Some(there) => Some(sync_files(alloc, here, there)),
            None => {
                drop(here);
                None
            }
        },
        None => None,
    }
}

/// Whether the file of a disk has this content at that moment.
fn keeps(alloc: Global, disk: MemoryDisk, bytes: Option<&[u8]>) -> bool {
    match loaded(alloc, disk) {
        Ok(store) => {
            let is = has(alloc, &store, b"a", 5, bytes);
            drop(store.close());
            is
        }
        Err(_) => false,
    }
}

/// What a sync of two such files stores, where both then have this content.
fn met(alloc: Global, here: Option<&[u8]>, there: Option<&[u8]>, bytes: Option<&[u8]>) -> Counts {
    match meet(alloc, here, there) {
        Some(
            Left {
                counts,
                here,
                there,
            },
        ) => {
            let both = keeps(alloc, here, bytes) & keeps(alloc, there, bytes);
            if both { counts } else { None }
        }
        None => None,
    }
}

/// Whether each of these goes so.
fn meet_all(alloc: Global) -> bool {
    let mut all = true;
    for (here, there, counts, bytes) in MEETINGS {
        all = all & (met(alloc, here, there, bytes) == counts);
    }
    all
}

#[test]
fn a_tie_is_settled_whoever_asks(rt: HostRuntime) -> Result<(), Fail> {
    assert!(rt; meet_all(rt.alloc()));
    Ok(())
}
