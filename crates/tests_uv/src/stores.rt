//! Stores in memory, and what their calls answer.
use fsl_date::Moment;
use fsl_disk::{FuseDisk, MemoryDisk};
use fsl_text::{Memory, Text};
use fsl_uv::{Entry, Put, Store, UvFault, UvLoadFault, Version, is_path, sync};
use std::alloc::Global;

/// A file with a Config alone, 68 bytes.
pub(crate) const CONFIG_ALONE: &[u8] =
    b"fossil-blobs-2\nO\0\0\0\0\0\0\0\x2BCabcdefghijklmnopqrstABCDEFGHIJKLMNOPQRST\0\0C";

/// The store of a disk.
pub(crate) fn loaded(alloc: Global, disk: MemoryDisk) -> Result<Store<MemoryDisk>, UvLoadFault> {
    match Store::load(alloc, disk) {
        Ok(store) => Ok(store),
        Err((disk, fault)) => {
            drop(disk);
            Err(fault)
        }
    }
}

/// A store without an entry.
pub(crate) fn fresh(alloc: Global) -> Result<Store<MemoryDisk>, Memory> {
    let disk = MemoryDisk::new(alloc, CONFIG_ALONE.to_vec(alloc)?, Vec::new(alloc));
    match loaded(alloc, disk) {
        Ok(store) => Ok(store),
        Err(_) => Err(Memory),
    }
}

/// A content in memory of its own, or none.
fn text_of(alloc: Global, bytes: Option<&[u8]>) -> Result<Option<Text>, Memory> {
    match bytes {
        Some(bytes) => Ok(Some(Text::of(alloc, bytes)?)),
        None => Ok(None),
    }
}

fn entry(alloc: Global, path: &[u8], ms: i64, bytes: Option<&[u8]>) -> Result<Entry, Memory> {
    let Some(moment) = Moment::new(ms) else {
        return Err(Memory);
    };
    let bytes = text_of(alloc, bytes)?;
    let path = Text::of(alloc, path)?;
    Ok(Entry {
        path,
        moment,
        bytes,
    })
}

/// What the put of an entry is answered, and `Memory` where its path isn't one.
fn put_entry(store: &mut Store<MemoryDisk>, entry: Entry) -> Result<Put, UvFault> {
    let answer = if is_path(entry.path.bytes()) {
        store.put(&entry)
    } else {
        Err(UvFault::Memory)
    };
    drop(entry);
    answer
}

/// What a put is answered, and `Memory` where the path or the moment isn't one.
pub(crate) fn put(
    alloc: Global,
    store: &mut Store<MemoryDisk>,
    path: &[u8],
    ms: i64,
    bytes: Option<&[u8]>,
) -> Result<Put, UvFault> {
    match entry(alloc, path, ms, bytes) {
        Ok(entry) => put_entry(store, entry),
        Err(_) => Err(UvFault::Memory),
    }
}

fn is_version(found: Option<&Version>, ms: i64, bytes: Option<&[u8]>) -> bool {
    match found {
        Some(version) => {
            version.moment().ms() == ms
                && version.held().is_some() == bytes.is_some()
                && version.bytes() == bytes.unwrap_or(&[])
        }
        None => false,
    }
}

/// Whether a path has this moment and this content, or none.
pub(crate) fn has(
    alloc: Global,
    store: &Store<MemoryDisk>,
    path: &[u8],
    ms: i64,
    bytes: Option<&[u8]>,
) -> bool {
    match Text::of(alloc, path) {
        Ok(path) => {
            let is = is_version(store.find(&path), ms, bytes);
            drop(path);
            is
        }
        Err(_) => false,
    }
}

/// How many entries a sync stored here and there, or nothing where it failed.
pub(crate) type Counts = Option<(u64, u64)>;

/// What a sync of two files stored, and both disks behind it.
#[derive(Drop)]
pub(crate) struct Left {
    pub(crate) counts: Counts,
    pub(crate) here: MemoryDisk,
    pub(crate) there: MemoryDisk,
}

/// Opens the stores of two disks and syncs them.
pub(crate) fn sync_files(
    alloc: Global,
    here: FuseDisk<MemoryDisk>,
    there: FuseDisk<MemoryDisk>,
) -> Left {
    match Store::load(alloc, here) {
        Ok(mut here) => match Store::load(alloc, there) {
            Ok(mut there) => Left {
                counts: sync(&mut here, &mut there).ok(),
                here: here.close().inner(),
                there: there.close().inner(),
            },
            Err((there, _)) => Left {
                counts: None,
                here: here.close().inner(),
                there: there.inner(),
            },
        },
        Err((here, _)) => Left {
            counts: None,
            here: here.inner(),
            there: there.inner(),
        },
    }
}

/// Whether a store lists these lines.
pub(crate) fn lists(store: &Store<MemoryDisk>, lines: &[u8]) -> bool {
    match store.list() {
        Ok(text) => {
            let is = text.bytes() == lines;
            drop(text);
            is
        }
        Err(_) => false,
    }
}

/// Whether the store of a disk lists these lines.
pub(crate) fn shows(alloc: Global, disk: MemoryDisk, lines: &[u8]) -> bool {
    match loaded(alloc, disk) {
        Ok(store) => {
            let is = lists(&store, lines);
            drop(store.close());
            is
        }
        Err(_) => false,
    }
}
