//! What is refused: files, messages, and changes after a commit that failed.
use crate::stores::{CONFIG_ALONE, fresh, has, loaded, put};
use fsl_disk::MemoryDisk;
use fsl_journal::CommitFault;
use fsl_name::Name;
use fsl_text::{Memory, Text};
use fsl_uv::{ApplyFault, Put, Store, UvFault, UvLoadFault, UvMessageFault};
use std::alloc::Global;
use std::test::Fail;

/// A file with a Config and a Blob `abc`, 110 bytes.
const ONE_BLOB: &[u8] =
    b"fossil-blobs-2\nO\0\0\0\0\0\0\0\x2BCabcdefghijklmnopqrstABCDEFGHIJKLMNOPQRST\0\0O\0\0\0\0\0\0\0\x21B\0\xA9\x99>6G\x06\x81j\xBA>%qxP\xC2l\x9C\xD0\xD8\x9D\0\0\0\0\0\0\0\x03abcC";

/// Why a file isn't opened.
fn refused(alloc: Global, file: &[u8]) -> Result<Option<UvLoadFault>, Memory> {
    let disk = MemoryDisk::new(alloc, file.to_vec(alloc)?, Vec::new(alloc));
    match loaded(alloc, disk) {
        Ok(store) => {
            drop(store.close());
            Ok(None)
        }
        Err(fault) => Ok(Some(fault)),
    }
}

#[test]
fn tells_why_a_file_is_refused(rt: HostRuntime) -> Result<(), Fail> {
    let alloc = rt.alloc();
    let name = Name::of(b"abc");
    assert_eq!(rt; refused(alloc, CONFIG_ALONE)?, None);
    assert_eq!(rt;
        refused(alloc, b"")?,
        Some(UvLoadFault::NotRepository { at: 0 })
    );
    assert_eq!(rt;
        refused(alloc, ONE_BLOB)?,
        Some(UvLoadFault::NotEntry { name })
    );
    Ok(())
}

/// Messages, and the line at which each fails; 0 where it has cards, none of which is stored.
const MESSAGES: [(&[u8], u64); 22] = [
    (b"", 0),
    (b"\n", 1),
    (b"frob a\n", 1),
    (b"uvgimme a", 1),
    (b"uvgimme a\n\n", 2),
    (b"uvgimme  a\n", 1),
    (b"uvgimme \n", 1),
    (b"uvgimme a//b\n", 1),
    (b"uvgimme a\\qb\n", 1),
    (b"uvgimme a\\sb\nuvgimme a b\n", 2),
    (b"uvigot a 1970-01-01T00:00:00 - 0\n", 1),
    (b"uvigot a 1970-02-30T00:00:00.000 - 0\n", 1),
    (
        b"uvigot a 1970-01-01T00:00:00.000 a9993e364706816aba3e25717850c26c9cd0d89d 18446744073709551616\n",
        1,
    ),
    (b"uvigot a 1970-01-01T00:00:00.000 - 1\n", 1),
    (b"uvigot a 1970-01-01T00:00:00.000 - 00\n", 1),
    (
        b"uvigot a 1970-01-01T00:00:00.000 A9993E364706816ABA3E25717850C26C9CD0D89D 3\n",
        1,
    ),
    (
        b"uvigot a 1970-01-01T00:00:00.000 a9993e364706816aba3e25717850c26c9cd0d89d 16711680\n",
        0,
    ),
    (
        b"uvigot a 1970-01-01T00:00:00.000 a9993e364706816aba3e25717850c26c9cd0d89d 16711681\n",
        1,
    ),
    (
        b"uvigot a 1970-01-01T00:00:00.000 - 0\nuvfile a 1970-01-01T00:00:00.000 - 0\nx",
        2,
    ),
    (
        b"uvfile a 1970-01-01T00:00:00.000 a9993e364706816aba3e25717850c26c9cd0d89d 3\nab",
        1,
    ),
    (
        b"uvfile a 1970-01-01T00:00:00.000 a9993e364706816aba3e25717850c26c9cd0d89d 3\nabcd\n",
        1,
    ),
    (b"uvfile a 1970-01-01T00:00:00.000 - 0\n\nuvgimme\n", 2),
];

/// Why a message isn't answered.
fn fault_in(text: Result<Text, UvMessageFault>) -> Option<UvMessageFault> {
    match text {
        Ok(text) => {
            drop(text);
            None
        }
        Err(fault) => Some(fault),
    }
}

/// Whether a message isn't answered, nor anything given for it, because of this.
fn fails_by(store: &Store<MemoryDisk>, message: &[u8], fault: Option<UvMessageFault>) -> bool {
    fault_in(store.answer(message)) == fault && fault_in(store.give(message)) == fault
}

/// Whether a message is refused for a line, and refused by each call that reads it; or has cards, where the line is 0.
fn reads_so(store: &mut Store<MemoryDisk>, message: &[u8], line: u64) -> bool {
    if line == 0 {
        store.apply(message) == Ok(0) && fails_by(store, message, None)
    } else {
        store.apply(message) == Err(ApplyFault::Line { line })
            && fails_by(store, message, Some(UvMessageFault::Line { line }))
    }
}

/// Whether each of these is read so, and leaves the path as it was.
fn read_right(alloc: Global, store: &mut Store<MemoryDisk>) -> bool {
    let _ = put(alloc, store, b"a", 1, Some(b"kept"));
    let mut all = true;
    for (message, line) in MESSAGES {
        if !reads_so(store, message, line) || !has(alloc, store, b"a", 1, Some(b"kept")) {
            all = false;
        }
    }
    all
}

#[test]
fn tells_the_first_bad_line(rt: HostRuntime) -> Result<(), Fail> {
    let mut store = fresh(rt.alloc())?;
    let all = read_right(rt.alloc(), &mut store);
    drop(store.close());
    assert!(rt; all);
    Ok(())
}

/// A file and then one whose content has another name.
const MISNAMED: &[u8] =
    b"uvfile a 1970-01-01T00:00:00.000 - 0\n\nuvfile b 1970-01-01T00:00:00.000 a9993e364706816aba3e25717850c26c9cd0d89d 2\nab\nfrob\n";

/// What that is answered; whether the first file is there then; and two files.
fn named(
    alloc: Global,
    store: &mut Store<MemoryDisk>,
) -> (Result<u64, ApplyFault>, bool, Result<u64, ApplyFault>) {
    let wrong = store.apply(MISNAMED);
    let there = has(alloc, store, b"a", 0, None);
    let two = store.apply(
        b"uvfile a 1970-01-01T00:00:00.000 - 0\n\nuvfile a 1970-01-01T00:00:00.000 a9993e364706816aba3e25717850c26c9cd0d89d 3\nabc\n",
    );
    (wrong, there, two)
}

#[test]
fn tells_a_wrong_name(rt: HostRuntime) -> Result<(), Fail> {
    let mut store = fresh(rt.alloc())?;
    let (kept, found) = (Name::of(b"abc"), Name::of(b"ab"));
    let fails = fails_by(
        &store,
        MISNAMED,
        Some(UvMessageFault::NameWrong { kept, found }),
    );
    let (wrong, there, two) = named(rt.alloc(), &mut store);
    drop(store.close());
    assert!(rt; fails);
    assert_eq!(rt; wrong, Err(ApplyFault::NameWrong { kept, found }));
    assert!(rt; !there);
    assert_eq!(rt; two, Ok(2));
    Ok(())
}

/// A put, a commit whose first call fails, and what a commit, a put and a message are answered then.
fn stopped(
    alloc: Global,
    store: &mut Store<MemoryDisk>,
) -> (
    [Result<u64, CommitFault>; 2],
    Result<Put, UvFault>,
    Result<u64, ApplyFault>,
) {
    let _ = put(alloc, store, b"a", 0, Some(b"abc"));
    let failed = store.commit();
    let again = store.commit();
    let more = put(alloc, store, b"b", 0, None);
    ([failed, again], more, store.apply(b"frob\n"))
}

/// The same over a disk of which the fourth call fails, behind the three that open it.
fn over_failing(
    alloc: Global,
) -> Result<
    (
        [Result<u64, CommitFault>; 2],
        Result<Put, UvFault>,
        Result<u64, ApplyFault>,
    ),
    Memory,
> {
    let fails = [4].to_vec(alloc)?;
    let disk = MemoryDisk::new(alloc, CONFIG_ALONE.to_vec(alloc)?, fails);
    match loaded(alloc, disk) {
        Ok(mut store) => {
            let answers = stopped(alloc, &mut store);
            drop(store.close());
            Ok(answers)
        }
        Err(_) => Err(Memory),
    }
}

#[test]
fn a_failed_commit_stops_the_store(rt: HostRuntime) -> Result<(), Fail> {
    let (commits, put, applied) = over_failing(rt.alloc())?;
    assert_eq!(rt;
        commits,
        [
            Err(CommitFault::Disk),
            Err(CommitFault::Stopped { faults: 1 })
        ]
    );
    assert_eq!(rt; put, Err(UvFault::Stopped { faults: 1 }));
    assert_eq!(rt; applied, Err(ApplyFault::Stopped { faults: 1 }));
    Ok(())
}
