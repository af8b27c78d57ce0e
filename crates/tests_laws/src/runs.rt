//! Runs of the program one after the other, over a disk in memory.
use crate::crashes::{Fused, LeavesOne, stopping_after};
use fsl_date::Moment;
use fsl_disk::{FileDisk, MemoryDisk};
use fsl_name::Name;
use fsl_outside::{MemoryDial, MemorySink, MemorySource, SetClock};
use fsl_repo::Repo;
use fsl_text::Memory;
use laws_runs::{End, Lives, Past, Session, run_all};
use std::alloc::Global;
use std::test::Fail;
use tests_kit::loaded;

/// The words of a `put`.
const PUT: [&str; 2] = ["r", "put"];

/// Messages of the files `abc` and `a`, and of the empty one.
const ABC: &[u8] = b"file a9993e364706816aba3e25717850c26c9cd0d89d 3\nabc\n";

const A: &[u8] = b"file 86f7e437faa5a7fce15d1ddcb9eaeaea377667b8 1\na\n";

const EMPTY: &[u8] = b"file da39a3ee5e6b4b0d3255bfef95601890afd80709 0\n\n";

/// A run, and one that was made, over objects in memory; there is no peer.
type Handed = Session<MemorySource, MemorySink, FileDisk, MemoryDial, SetClock>;

type Made = Past<MemorySource, MemorySink, FileDisk, MemoryDial, SetClock, Fused>;

fn words_of(alloc: Global) -> Result<Vec<String>, Memory> {
    let mut words = Vec::new(alloc);
    for word in &PUT {
        words.push(word.to_string(alloc)?)?;
    }
    Ok(words)
}

/// A `put` of this message, which ends so.
fn put_of(alloc: Global, message: &[u8], end: End) -> Result<Handed, Memory> {
    let words = words_of(alloc)?;
    let bytes = message.to_vec(alloc)?;
    Ok(Session {
        words,
        end,
        input: MemorySource::new(bytes, Vec::new(alloc)),
        out: MemorySink::new(alloc, Vec::new(alloc)),
        peer: FileDisk::none(),
        dial: MemoryDial::new(alloc, Vec::new(alloc), Vec::new(alloc)),
        clock: SetClock::new(Moment::new(1_000_000_000_000).unwrap()),
    })
}

/// Three runs, the first of which ends so. The second ends alone, and of the third somebody hears.
fn three_runs(alloc: Global, end: End) -> Result<Vec<Handed>, Memory> {
    let mut runs = Vec::new(alloc);
    runs.push(put_of(alloc, ABC, end)?)?;
    runs.push(put_of(alloc, A, End::Spared)?)?;
    runs.push(put_of(alloc, EMPTY, End::Heard)?)?;
    Ok(runs)
}

/// Whether a repository has this content.
fn has(repo: &mut Repo<MemoryDisk>, text: &[u8]) -> bool {
    match repo.content(Name::of(text)) {
        Ok(content) => content.bytes() == text,
        Err(_) => false,
    }
}

/// Whether the three texts are there.
fn held_of(alloc: Global, disk: MemoryDisk) -> Option<[bool; 3]> {
    let mut repo = loaded(alloc, disk)?;
    let abc = has(&mut repo, b"abc");
    let a = has(&mut repo, b"a");
    let empty = has(&mut repo, b"");
    drop(repo.close());
    Some([abc, a, empty])
}

/// The statuses of three runs.
fn statuses_of(pasts: &[Made]) -> Option<[u8; 3]> {
    match pasts {
        [first, second, third] => Some([first.status, second.status, third.status]),
        _ => None,
    }
}

/// The statuses of three runs, and which of their texts are there in the end. The disk has so many calls for the first run, and more
/// than enough behind an end.
fn ran(alloc: Global, end: End, calls: u64, pick: u64) -> Option<([u8; 3], [bool; 3])> {
    let mut ends = LeavesOne {
        alloc,
        pick,
        calls: 256,
    };
    let lives = match (three_runs(alloc, end), stopping_after(alloc, calls)) {
        (Ok(runs), Ok(disk)) => run_all(alloc, disk, runs, &mut ends),
        _ => Err(Memory),
    };
    match lives {
        Ok(Lives { disk, pasts }) => {
            let statuses = statuses_of(&pasts);
            drop(pasts);
            Some((statuses?, held_of(alloc, disk.inner())?))
        }
        Err(_) => None,
    }
}

/// Whether the first run had status 0 or 4; and whether the two behind it were done and their texts are there.
fn goes_on(statuses: [u8; 3], held: [bool; 3]) -> bool {
    let [first, second, third] = statuses;
    let [_, a, empty] = held;
    (first == 0 || first == 4) && second == 0 && third == 0 && a && empty
}

/// Wherever the first run stops, by a power failure at that moment or by the end of its process, the two behind it are done and stay.
#[test]
fn the_next_runs_go_on(rt: HostRuntime) -> Result<(), Fail> {
    let alloc = rt.alloc();
    for end in [End::Cut, End::Killed] {
        for calls in 0..16 {
            assert!(rt;
                ran(alloc, end, calls, 0).is_some_and(|(statuses, held)| goes_on(statuses, held))
            );
        }
    }
    Ok(())
}

/// Where somebody heard that the first one was done, its text is there; and where its process ended behind it.
#[test]
fn a_run_that_was_heard_of_stays(rt: HostRuntime) -> Result<(), Fail> {
    let alloc = rt.alloc();
    let all = Some(([0; 3], [true; 3]));
    for pick in 0..4 {
        assert!(rt; ran(alloc, End::Heard, 256, pick) == all);
        assert!(rt; ran(alloc, End::Killed, 256, pick) == all);
    }
    Ok(())
}
