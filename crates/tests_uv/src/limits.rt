//! The limits of a path, of a content, of all contents and of the paths of a store, each on both sides of its edge.
use crate::stores::{fresh, loaded, put};
use fsl_disk::MemoryDisk;
use fsl_text::{Memory, Text};
use fsl_uv::{ApplyFault, Put, Store, UvFault, UvLoadFault, is_path};
use itoa::Buffer;
use std::alloc::Global;
use std::test::Fail;

/// Whether a store without an entry takes a message in.
fn is_taken(alloc: Global, message: &[u8]) -> bool {
    match fresh(alloc) {
        Ok(mut store) => {
            let is = store.apply(message).is_ok();
            drop(store.close());
            is
        }
        Err(_) => false,
    }
}

/// Bytes of one kind between others.
fn between(alloc: Global, head: &[u8], middle: &[u8], tail: &[u8]) -> Result<Vec<u8>, Memory> {
    let mut bytes = head.to_vec(alloc)?;
    bytes.extend_from_slice(middle)?;
    bytes.extend_from_slice(tail)?;
    Ok(bytes)
}

/// So many bytes of one kind.
fn filled(alloc: Global, byte: u8, size: usize) -> Result<Vec<u8>, Memory> {
    Ok(vec![in alloc; byte; size]?)
}

/// Whether as many bytes are a path, and whether a line that asks for it is taken in.
fn is_path_of(alloc: Global, size: usize) -> Result<(bool, bool), Memory> {
    let path = filled(alloc, b'a', size)?;
    let line = between(alloc, b"uvgimme ", &path, b"\n")?;
    Ok((is_path(&path), is_taken(alloc, &line)))
}

#[test]
fn paths_have_512_bytes_at_most(rt: HostRuntime) -> Result<(), Fail> {
    assert_eq!(rt; is_path_of(rt.alloc(), 512)?, (true, true));
    assert_eq!(rt; is_path_of(rt.alloc(), 513)?, (false, false));
    Ok(())
}

/// More zeros than a content may have.
const MANY_ZEROS: usize = 16_711_681;

/// A file with an entry of as many zeros, up to these, and whether it is opened as a store.
const FILES: [(&[u8], usize, bool); 2] = [
    (
        b"fossil-blobs-2\nO\0\0\0\0\0\0\0+CabcdefghijklmnopqrstABCDEFGHIJKLMNOPQRST\0\0O\0\0\0\0\0\xFF\0dB\0\x09\xFA\xB2a\xC5\xD6\xC9\x9F\xBC\x84\xD5\xB6\x1A\xBB\n\x9D\xC0?!v\0\0\0\0\0\xFF\0Fuv 1970-01-01T00:00:00.000 984325d860b30a31f850da50d06cb5c7c45eb772 a\n",
        16_711_680,
        true,
    ),
    (
        b"fossil-blobs-2\nO\0\0\0\0\0\0\0+CabcdefghijklmnopqrstABCDEFGHIJKLMNOPQRST\0\0O\0\0\0\0\0\xFF\0eB\0;Y\n\xAB\xC6\x80\xCD\x96e\xB8\xA25\xA0\xE1\x95\xBAv\xF01z\0\0\0\0\0\xFF\0Guv 1970-01-01T00:00:00.000 266308ea7f70019339afd46c909ad407f26fe823 a\n",
        16_711_681,
        false,
    ),
];

/// A message with a file of as many zeros, up to these, and whether it is taken in.
const MESSAGES: [(&[u8], usize, bool); 2] = [
    (
        b"uvfile a 1970-01-01T00:00:00.000 984325d860b30a31f850da50d06cb5c7c45eb772 16711680\n",
        16_711_680,
        true,
    ),
    (
        b"uvfile a 1970-01-01T00:00:00.000 266308ea7f70019339afd46c909ad407f26fe823 16711681\n",
        16_711_681,
        false,
    ),
];

/// Whether a file is opened; nothing where it is refused for another cause than an entry.
fn is_opened(alloc: Global, file: Vec<u8>) -> Option<bool> {
    match loaded(alloc, MemoryDisk::new(alloc, file, Vec::new(alloc))) {
        Ok(store) => {
            drop(store.close());
            Some(true)
        }
        Err(UvLoadFault::NotEntry { .. }) => Some(false),
        Err(_) => None,
    }
}

/// Whether the files and the messages are read so.
fn are_read(alloc: Global, zeros: &[u8]) -> Result<bool, Memory> {
    let mut all = true;
    for (head, size, opens) in FILES {
        let file = between(alloc, head, zeros.get(..size).unwrap_or(&[]), b"C")?;
        all = all & (is_opened(alloc, file) == Some(opens));
    }
    for (head, size, is) in MESSAGES {
        let message = between(alloc, head, zeros.get(..size).unwrap_or(&[]), b"\n")?;
        all = all & (is_taken(alloc, &message) == is);
    }
    Ok(all)
}

#[test]
fn contents_are_read_to_their_limit(rt: HostRuntime) -> Result<(), Fail> {
    let zeros = filled(rt.alloc(), 0, MANY_ZEROS)?;
    assert!(rt; are_read(rt.alloc(), &zeros)?);
    Ok(())
}

/// Puts of as many zeros, or of a deletion, one after another, and what each is answered: up to 16,711,680 bytes of one content, and
/// 67,108,864 of all.
const PUTS: [(&[u8], i64, Option<usize>, Result<Put, UvFault>); 12] = [
    (
        b"a",
        0,
        Some(16_711_681),
        Err(UvFault::TooLarge { size: 16_711_681 }),
    ),
    (b"a", 0, Some(16_711_680), Ok(Put::Stored)),
    (b"b", 0, Some(16_711_680), Ok(Put::Stored)),
    (b"c", 0, Some(16_711_680), Ok(Put::Stored)),
    (b"d", 0, Some(16_711_680), Ok(Put::Stored)),
    (
        b"e",
        0,
        Some(262_145),
        Err(UvFault::Full {
            bytes: 67_108_865,
            count: 5,
        }),
    ),
    (b"e", 0, Some(262_144), Ok(Put::Stored)),
    (
        b"f",
        0,
        Some(1),
        Err(UvFault::Full {
            bytes: 67_108_865,
            count: 6,
        }),
    ),
    (b"f", 0, Some(0), Ok(Put::Stored)),
    (b"f", 1, None, Ok(Put::Stored)),
    (b"e", -1, Some(262_145), Ok(Put::Kept)),
    (
        b"e",
        1,
        Some(262_145),
        Err(UvFault::Full {
            bytes: 67_108_865,
            count: 6,
        }),
    ),
];

/// Messages then, and what each is answered: by the store with all of its files.
const TAKEN: [(&[u8], Result<u64, ApplyFault>); 3] = [
    (
        b"uvfile g 1970-01-01T00:00:00.000 11f6ad8ec52a2984abaafd7c3b516503785c2072 1\nx\n",
        Err(ApplyFault::Full {
            bytes: 67_108_865,
            count: 7,
        }),
    ),
    (b"uvfile g 1970-01-01T00:00:00.000 - 0\n\n", Ok(1)),
    (
        b"uvfile g 1970-01-01T00:00:00.001 11f6ad8ec52a2984abaafd7c3b516503785c2072 1\nx\nuvfile a 1970-01-01T00:00:00.001 - 0\n\n",
        Ok(2),
    ),
];

/// Whether the puts and the messages go so.
fn goes_to_the_limit(alloc: Global, store: &mut Store<MemoryDisk>, zeros: &[u8]) -> bool {
    let mut all = true;
    for (path, ms, size, answer) in PUTS {
        let bytes = match size {
            Some(size) => zeros.get(..size),
            None => None,
        };
        all = all & (put(alloc, store, path, ms, bytes) == answer);
    }
    for (message, answer) in TAKEN {
        all = all & (store.apply(message) == answer);
    }
    all
}

#[test]
fn contents_have_a_limit(rt: HostRuntime) -> Result<(), Fail> {
    let zeros = filled(rt.alloc(), 0, MANY_ZEROS)?;
    let mut store = fresh(rt.alloc())?;
    let all = goes_to_the_limit(rt.alloc(), &mut store, &zeros);
    drop(store.close());
    assert!(rt; all);
    Ok(())
}

/// Adds the deletion of a path, which is a number.
fn add_deletion(into: &mut Text, number: u64) -> Result<(), Memory> {
    let mut buffer = Buffer::new();
    into.append(b"uvfile ")?;
    into.append(buffer.format(number).as_bytes())?;
    into.append(b" 1970-01-01T00:00:00.000 - 0\n\n")
}

/// A message with the deletions of so many paths.
fn deletions(alloc: Global, count: u64) -> Result<Text, Memory> {
    let mut text = Text::empty(alloc);
    for number in 0..count {
        add_deletion(&mut text, number)?;
    }
    Ok(text)
}

/// What a message with so many deletions is answered.
fn deleted(
    alloc: Global,
    store: &mut Store<MemoryDisk>,
    count: u64,
) -> Result<Result<u64, ApplyFault>, Memory> {
    let message = deletions(alloc, count)?;
    Ok(store.apply(message.bytes()))
}

/// How many entries a store has.
fn count_of(store: &Store<MemoryDisk>) -> Option<usize> {
    match store.entries() {
        Ok(entries) => {
            let count = entries.items().len();
            drop(entries);
            Some(count)
        }
        Err(_) => None,
    }
}

/// Whether one path too many is refused by a message, which leaves none of its paths, and as many as may be are taken in; and whether
/// then a further path is refused, and another version of one of them is stored.
fn has_most_paths(alloc: Global, store: &mut Store<MemoryDisk>) -> Result<bool, Memory> {
    let too_many = Err(ApplyFault::Full {
        bytes: 0,
        count: 65_537,
    });
    let is_refused = deleted(alloc, store, 65_537)? == too_many && count_of(store) == Some(0);
    let is_taken = deleted(alloc, store, 65_536)? == Ok(65_536) && count_of(store) == Some(65_536);
    let more = put(alloc, store, b"more", 0, None);
    let again = put(alloc, store, b"65535", 1, Some(b"x"));
    let full = Err(UvFault::Full {
        bytes: 0,
        count: 65_537,
    });
    Ok(is_refused && is_taken && more == full && again == Ok(Put::Stored))
}

#[test]
fn paths_have_a_limit(rt: HostRuntime) -> Result<(), Fail> {
    let mut store = fresh(rt.alloc())?;
    let all = has_most_paths(rt.alloc(), &mut store);
    drop(store.close());
    assert!(rt; all?);
    Ok(())
}
