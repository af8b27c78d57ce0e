//! Two repositories that sync: what both show then, also where a pull was cut off and taken up again.

use crate::histories::Dice;
use crate::peer::PeerDial;
use crate::printing::{held, show_many};
use crate::repo::{CONFIGURED, fused};
use fsl_disk::{Disk, MemoryDisk};
use fsl_gen::artifacts;
use fsl_outside::Dial;
use fsl_pull::{pull, push};
use fsl_repo::Repo;
use std::alloc::Global;
use std::sync::Wait;
use std::test::Fail;
use tests_kit::{arrives, loaded, opened};

// Another file of the same project.
const THEIRS: &[u8] =
    b"fossil-blobs-1\nO\0\0\0\0\0\0\0\x3ACabcdefghijklmnopqrstZZZZZZZZZZZZZZZZZZZZ\0\x02\x07comment\x06statusC";

/// As many artifacts as are spread, enough for clusters.
const COUNT: u64 = 200;

/// No artifact is left out: a rest by 3 is less.
const NONE: u8 = 3;

/// Lets the artifacts arrive, but for each third one by the dice of this number, where one is left out, and commits. Whether
/// all of that is done.
fn fill(alloc: Global, repo: &mut Repo<MemoryDisk>, number: u64, left_out: u8) -> bool {
    let Ok(texts) = artifacts(alloc, COUNT, number % 2 == 1) else {
        return false;
    };
    let mut dice = Dice::of(number);
    let mut good = true;
    for text in texts.items() {
        if dice.roll() % 3 != left_out {
            good = arrives(repo, text.bytes()) & good;
        }
    }
    good & repo.commit().is_ok()
}

/// A repository that begins with these artifacts; nothing where it couldn't be filled.
fn filled(alloc: Global, bytes: &[u8], number: u64, left_out: u8) -> Option<Repo<MemoryDisk>> {
    let mut repo = opened(alloc, bytes)?;
    if fill(alloc, &mut repo, number, left_out) {
        return Some(repo);
    }
    drop(repo.close());
    None
}

/// Pushes or pulls. Whether it ends without a fault.
fn is_synced<D: Disk, N: Dial>(
    alloc: Global,
    repo: &mut Repo<D>,
    dial: &mut N,
    pushes: bool,
) -> bool {
    if pushes {
        push(alloc, repo, dial, &None).is_ok()
    } else {
        pull(alloc, repo, dial, &None).is_ok()
    }
}

/// Whether two repositories hold and show the same, and hold all of the artifacts.
fn are_alike(alloc: Global, repo: &mut Repo<MemoryDisk>, peer: &mut Repo<MemoryDisk>) -> bool {
    let placed = held(alloc, repo);
    let mine = show_many(alloc, repo, placed.items());
    let theirs = show_many(alloc, peer, placed.items());
    let are_all = COUNT <= placed.items().len() as u64;
    let alike = mine.is_like(&theirs);
    drop(placed);
    drop(mine);
    drop(theirs);
    are_all & alike
}

/// Whether a repository is like the one that a dial leads to.
fn is_like<R>(alloc: Global, repo: &mut Repo<MemoryDisk>, dial: &mut PeerDial<'_, R>) -> bool {
    are_alike(alloc, repo, dial.repo())
}

/// Pulls and pushes in turn, at most four times each. Whether both repositories are alike then.
fn in_turn<R: Wait>(
    alloc: Global,
    repo: &mut Repo<MemoryDisk>,
    dial: &mut PeerDial<'_, R>,
) -> bool {
    for _turn in 0..4 {
        let ended = is_synced(alloc, repo, dial, false) && is_synced(alloc, repo, dial, true);
        if !ended || is_like(alloc, repo, dial) {
            return ended;
        }
    }
    false
}

/// Whether a repository and the other one are alike behind some turns.
fn meets<R: Wait>(rt: &R, alloc: Global, repo: &mut Repo<MemoryDisk>, number: u64) -> bool {
    let Some(peer) = filled(alloc, THEIRS, number, 1) else {
        return false;
    };
    let mut dial = PeerDial::new(rt, alloc, peer);
    let met = in_turn(alloc, repo, &mut dial);
    dial.close();
    met
}

/// Whether two repositories that hold different artifacts are alike behind some turns.
fn meet<R: Wait>(rt: &R, alloc: Global, number: u64) -> bool {
    let Some(mut repo) = filled(alloc, CONFIGURED, number, 0) else {
        return false;
    };
    let met = meets(rt, alloc, &mut repo, number);
    drop(repo.close());
    met
}

/// Two repositories that push and pull in turn come to hold and to show the same, in each of 30 histories.
#[test]
fn syncs_meet(rt: HostRuntime) -> Result<(), Fail> {
    for number in 0..30 {
        assert!(rt; meet(&rt, rt.alloc(), number), "history {number}");
    }
    Ok(())
}

/// Whether a pull into the repository of a disk comes to its end, and the repository is like the other one then.
fn comes_to_end<R: Wait>(alloc: Global, dial: &mut PeerDial<'_, R>, disk: MemoryDisk) -> bool {
    let Some(mut repo) = loaded(alloc, disk) else {
        return false;
    };
    let ended = is_synced(alloc, &mut repo, dial, false);
    let alike = is_like(alloc, &mut repo, dial);
    drop(repo.close());
    ended && alike
}

/// Cuts a pull off behind so many calls of its disk. Whether it came to its end before that, and what a crash may leave.
fn cut_after<R: Wait>(
    alloc: Global,
    dial: &mut PeerDial<'_, R>,
    calls: u64,
) -> Option<(bool, MemoryDisk)> {
    let mut repo = fused(alloc, CONFIGURED, calls)?;
    let ended = is_synced(alloc, &mut repo, dial, false);
    let disk = repo.close().inner();
    let image = disk.crash(alloc, calls % 3);
    drop(disk);
    match image {
        Ok(image) => Some((ended, image)),
        Err(_) => None,
    }
}

/// Takes a pull up that was cut off behind so many calls. Whether it came to its end before that; nothing where what is taken
/// up doesn't come to its end.
fn is_taken_up<R: Wait>(alloc: Global, dial: &mut PeerDial<'_, R>, calls: u64) -> Option<bool> {
    let (ended, disk) = cut_after(alloc, dial, calls)?;
    if comes_to_end(alloc, dial, disk) {
        Some(ended)
    } else {
        None
    }
}

/// Cuts a pull off at each call of its disk behind the three that load its repository, up to the first that comes to its end.
/// The number of that call, where each pull that was taken up came to its end.
fn cut_everywhere<R: Wait>(alloc: Global, dial: &mut PeerDial<'_, R>) -> u64 {
    for calls in 3..1_000 {
        match is_taken_up(alloc, dial, calls) {
            Some(false) => {}
            Some(true) => return calls,
            None => return 0,
        }
    }
    0
}

/// The same where the other repository holds all.
fn cut_from_all<R: Wait>(rt: &R, alloc: Global) -> u64 {
    let Some(peer) = filled(alloc, THEIRS, 0, NONE) else {
        return 0;
    };
    let mut dial = PeerDial::new(rt, alloc, peer);
    let cuts = cut_everywhere(alloc, &mut dial);
    dial.close();
    cuts
}

/// A pull that is cut off at whatever call of its disk, by a crash too, is taken up again and brings the rest.
#[test]
fn pulls_are_taken_up(rt: HostRuntime) -> Result<(), Fail> {
    let cuts = cut_from_all(&rt, rt.alloc());
    assert!(rt; cuts > 8);
    Ok(())
}
