//! What a store tells of itself.
use crate::stores::{fresh, lists, put};
use fsl_disk::MemoryDisk;
use fsl_uv::{Entry, Store};
use std::alloc::Global;
use std::test::Fail;

/// A file, an empty one and a deletion, not in the order of their paths.
fn fill(alloc: Global, store: &mut Store<MemoryDisk>) {
    let _ = put(alloc, store, b"b", 1, Some(b"x"));
    let _ = put(alloc, store, b"c d", 0, Some(b""));
    let _ = put(alloc, store, b"a", 2, None);
}

/// The lines of the files that aren't deleted.
const LINES: &[u8] =
    b"1970-01-01T00:00:00.001 11f6ad8ec52a2984abaafd7c3b516503785c2072 1 b\n1970-01-01T00:00:00.000 da39a3ee5e6b4b0d3255bfef95601890afd80709 0 c\\sd\n";

/// Whether an entry is of this path and moment, and has this content, or none.
fn is_entry(entry: &Entry, path: &[u8], ms: i64, bytes: Option<&[u8]>) -> bool {
    let is_content = match (&entry.bytes, bytes) {
        (Some(held), Some(bytes)) => held.bytes() == bytes,
        (None, None) => true,
        _ => false,
    };
    is_content && entry.path.bytes() == path && entry.moment.ms() == ms
}

/// Whether these are the three entries, by path.
fn are_entries(entries: &[Entry]) -> bool {
    entries.len() == 3
        && is_entry(&entries[0], b"a", 2, None)
        && is_entry(&entries[1], b"b", 1, Some(b"x"))
        && is_entry(&entries[2], b"c d", 0, Some(b""))
}

/// Whether a store has the three entries.
fn has_entries(store: &Store<MemoryDisk>) -> bool {
    match store.entries() {
        Ok(entries) => {
            let are = are_entries(entries.items());
            drop(entries);
            are
        }
        Err(_) => false,
    }
}

/// Whether a store has the Config of its file.
fn has_config(store: &Store<MemoryDisk>) -> bool {
    let config = store.config();
    config.project.bytes() == *b"abcdefghijklmnopqrst"
        && config.server.bytes() == *b"ABCDEFGHIJKLMNOPQRST"
        && config.fields.items().is_empty()
}

#[test]
fn tells_what_it_holds(rt: HostRuntime) -> Result<(), Fail> {
    let mut store = fresh(rt.alloc())?;
    fill(rt.alloc(), &mut store);
    let told = (
        lists(&store, LINES),
        has_entries(&store),
        has_config(&store),
        store.stopped(),
    );
    drop(store.close());
    assert_eq!(rt; told, (true, true, true, None));
    Ok(())
}
