//! Lives in which a few texts arrive.
use crate::crashes::{Fused, KeepsEach, LeavesOne, stopping_after};
use crate::works::Arrives;
use fsl_disk::MemoryDisk;
use fsl_name::Name;
use fsl_repo::Repo;
use fsl_text::{Memory, Text};
use laws_openings::{Lived, Outage, Story, live_on};
use std::alloc::Global;
use std::test::Fail;
use tests_kit::loaded;

/// The texts of three lives.
const FIRST: [&[u8]; 2] = [b"abc", b""];

const SECOND: [&[u8]; 1] = [b"one text more"];

const THIRD: [&[u8]; 3] = [b"1", b"22", b"333"];

/// Work that puts these texts, of which somebody waits to hear.
fn waits_for(alloc: Global, texts: &[&[u8]]) -> Result<Arrives, Memory> {
    let mut all = Vec::new(alloc);
    for text in texts {
        all.push(Text::of(alloc, text)?)?;
    }
    Ok(Arrives {
        texts: all,
        is_heard: true,
    })
}

fn three_works(alloc: Global) -> Result<Vec<Arrives>, Memory> {
    let texts: [&[&[u8]]; 3] = [&FIRST, &SECOND, &THIRD];
    let mut works = Vec::new(alloc);
    for life in texts {
        works.push(waits_for(alloc, life)?)?;
    }
    Ok(works)
}

/// What is there of the texts of a life.
#[derive(Clone, Copy, PartialEq, Eq, Debug)]
enum Part {
    All,
    Some,
    Nothing,
}

/// Whether somebody heard that a life's commit was done, and what is there of its texts in the end.
#[derive(Clone, Copy, PartialEq, Eq, Debug)]
struct Seen {
    is_heard: bool,
    part: Part,
}

/// Whether a repository has this content.
fn has(repo: &mut Repo<MemoryDisk>, text: &[u8]) -> bool {
    match repo.content(Name::of(text)) {
        Ok(content) => content.bytes() == text,
        Err(_) => false,
    }
}

fn part_of(repo: &mut Repo<MemoryDisk>, texts: &[&[u8]]) -> Part {
    let mut is_all = true;
    let mut is_any = false;
    for text in texts {
        let is_there = has(repo, text);
        is_all = is_there & is_all;
        is_any = is_there | is_any;
    }
    match (is_all, is_any) {
        (true, _) => Part::All,
        (_, true) => Part::Some,
        _ => Part::Nothing,
    }
}

/// What a repository has of the texts of each of the three lives.
fn parts_of(alloc: Global, disk: MemoryDisk) -> Option<[Part; 3]> {
    let mut repo = loaded(alloc, disk)?;
    let first = part_of(&mut repo, &FIRST);
    let second = part_of(&mut repo, &SECOND);
    let third = part_of(&mut repo, &THIRD);
    drop(repo.close());
    Some([first, second, third])
}

/// Which of three lives somebody heard of.
fn heard_of(lives: &[Lived<Fused>]) -> Option<[bool; 3]> {
    match lives {
        [first, second, third] => Some([first.is_heard, second.is_heard, third.is_heard]),
        _ => None,
    }
}

/// What is seen of three lives, the first of which has so many calls.
fn lived<O: Outage<Fused>>(alloc: Global, calls: u64, outage: &mut O) -> Option<[Seen; 3]> {
    let story = match (three_works(alloc), stopping_after(alloc, calls)) {
        (Ok(works), Ok(disk)) => live_on(alloc, disk, &works, outage),
        _ => Err(Memory),
    };
    match story {
        Ok(Story { disk, lives }) => {
            let heard = heard_of(&lives);
            drop(lives);
            seen_of(heard, parts_of(alloc, disk.inner()))
        }
        Err(_) => None,
    }
}

fn seen_of(heard: Option<[bool; 3]>, parts: Option<[Part; 3]>) -> Option<[Seen; 3]> {
    let ([a, b, c], [first, second, third]) = (heard?, parts?);
    Some([
        Seen {
            is_heard: a,
            part: first,
        },
        Seen {
            is_heard: b,
            part: second,
        },
        Seen {
            is_heard: c,
            part: third,
        },
    ])
}

/// Whether all of a life is there or nothing, and all where somebody heard of it.
fn is_kept(seen: &Seen) -> bool {
    match seen.part {
        Part::All => true,
        Part::Some => false,
        Part::Nothing => !seen.is_heard,
    }
}

fn are_kept(seen: [Seen; 3]) -> bool {
    seen.iter().all(is_kept)
}

/// A life that was done and heard of, and one that wasn't done.
const DONE: Seen = Seen {
    is_heard: true,
    part: Part::All,
};

const UNDONE: Seen = Seen {
    is_heard: false,
    part: Part::Nothing,
};

/// Each content that somebody heard of is there, and each life's are all there or none, wherever the first life stops and whatever
/// one image is left.
#[test]
fn what_was_heard_stays_whatever_is_left(rt: HostRuntime) -> Result<(), Fail> {
    let alloc = rt.alloc();
    for calls in 0..16 {
        for pick in 0..6 {
            let mut outage = LeavesOne {
                alloc,
                pick,
                calls: 64,
            };
            assert!(rt; lived(alloc, calls, &mut outage).is_some_and(are_kept));
        }
    }
    Ok(())
}

/// So it is where the lives behind the first one stop too, and each image stays that a crash allows.
#[test]
fn what_was_heard_stays_where_all_is_left(rt: HostRuntime) -> Result<(), Fail> {
    let alloc = rt.alloc();
    for calls in 0..16 {
        assert!(rt; lived(alloc, 64, &mut KeepsEach { calls }).is_some_and(are_kept));
    }
    Ok(())
}

/// With more than enough calls all three are heard of, and all is there, whatever ends them; with none for the first the two behind it.
#[test]
fn whole_lives_are_heard(rt: HostRuntime) -> Result<(), Fail> {
    let alloc = rt.alloc();
    let mut last = LeavesOne {
        alloc,
        pick: 1,
        calls: 64,
    };
    let mut all = KeepsEach { calls: 64 };
    assert!(rt; lived(alloc, 64, &mut last) == Some([DONE, DONE, DONE]));
    assert!(rt; lived(alloc, 64, &mut all) == Some([DONE, DONE, DONE]));
    assert!(rt; lived(alloc, 0, &mut last) == Some([UNDONE, DONE, DONE]));
    Ok(())
}
