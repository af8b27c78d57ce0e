//! Worked sets of artifacts that arrive in every order: whatever the order, a repository shows the same, and so it does when
//! its disk is loaded anew. Its tables are changed, and not made anew.
use crate::histories::artifacts;
use crate::printing::{Shown, show_all, show_of, shown_by, unlike_all};
use crate::repo::CONFIGURED;
use fsl_disk::MemoryDisk;
use fsl_name::Name;
use fsl_repo::Repo;
use fsl_text::Memory;
use std::alloc::Global;
use std::test::Fail;
use tests_kit::{arrives, opened};

/// Check-ins of a branch, of which the last closes the first.
const BRANCHED: [&[u8]; 3] = [
    b"C two\nD 2024-01-02T03:04:05\nT *branch * b\nT *sym-b *\nU ann\nZ 30d2fd82c22a100c4858eb5f1302042e\n",
    b"C three\nD 2024-01-02T03:04:06\nP 3685fd2c9306fc981666be37a59126e81c51b69e\nU ann\nZ fafee6070e69407f2d2458121eada1f9\n",
    b"C four\nD 2024-01-02T03:04:07\nP ba2f444add35a560f078201bdf1b7a5048d1a934\nT +closed 3685fd2c9306fc981666be37a59126e81c51b69e\nU ann\nZ c1b2e82f430202205e698b4dfde3377c\n",
];

/// A check-in, and two tags of one moment for it.
const TAGGED: [&[u8]; 3] = [
    b"C first\nD 2024-01-02T03:04:05\nP\nR d41d8cd98f00b204e9800998ecf8427e\nU ann\nZ 9976f6c4e0a8032dc1f2e1f1151d2f88\n",
    b"D 2024-01-03T00:00:00\nT +k 40cecd1e0c96717f4210cbff361e5efa0c7c6016 v1\nU ann\nZ fdffcc043f304aefbbb004ee8a345efc\n",
    b"D 2024-01-03T00:00:00\nT +k 40cecd1e0c96717f4210cbff361e5efa0c7c6016 v2\nU ann\nZ d69396cba490ae66ae493d46b23951a3\n",
];

/// A tag that goes down two check-ins, until a control cancels it at the first of them.
const CANCELLED: [&[u8]; 4] = [
    b"C g\nD 2024-01-01T00:00:00\nT *k * g\nU ann\nZ 6fbf3133026bd68f84a7ae7c6bd2e45c\n",
    b"C m\nD 2024-01-02T00:00:00\nP be6fbd4dfdbf93ba35117a098a4ec6b4d1942116\nU ann\nZ 5268e33da764360033b1249cb2050a1c\n",
    b"C c\nD 2024-01-03T00:00:00\nP b3b49b5ccdef06acfeb48215132dc0a4c646209d\nU ann\nZ 6a94eb1e4302b24954d324627095cf4f\n",
    b"D 2024-01-05T00:00:00\nT -k b3b49b5ccdef06acfeb48215132dc0a4c646209d\nU ann\nZ 957154996f08a1668356839c970eabe1\n",
];

/// A check-in, and one over it as its baseline.
const DELTA: [&[u8]; 2] = [
    b"C b\nD 2024-01-01T00:00:00\nF a.txt a9993e364706816aba3e25717850c26c9cd0d89d\nF e.txt da39a3ee5e6b4b0d3255bfef95601890afd80709\nU ann\nZ 0ec0f5b10e997907814aa0f67ff201c0\n",
    b"B ef041fee9098d47de11669fad599217a67e3df01\nC x\nD 2024-01-02T00:00:00\nF a.txt\nP ef041fee9098d47de11669fad599217a67e3df01\nU ann\nZ 0c7b53d646ba85aa43f96e3b50d9edb7\n",
];

/// Three changes of a ticket.
const TICKETS: [&[u8]; 3] = [
    b"D 2024-01-01T00:00:00\nJ comment hello\nJ status open\nK 1111111111111111111111111111111111111111\nU ann\nZ 74a11e67517bcf9f069191a1d2eb1454\n",
    b"D 2024-01-02T00:00:00\nJ +comment \\sworld\nJ other x\nJ status closed\nK 1111111111111111111111111111111111111111\nU ann\nZ 5e5b8128d56a5a322709cab01732bc2d\n",
    b"D 2024-01-03T00:00:00\nJ status \nK 1111111111111111111111111111111111111111\nU ann\nZ 24525c2bda6174add30fc32b5a21bb40\n",
];

/// Two threads, and an answer that would join them.
const FORUM: [&[u8]; 4] = [
    b"D 2024-01-01T00:00:00\nH one\nU ann\nW 3\nabc\nZ bf381a06b4cefcdf371ab8c9bedfeb48\n",
    b"D 2024-01-02T00:00:00\nH two\nU ann\nW 3\ndef\nZ 27b78cff111e0f2c9c62250fc0414331\n",
    b"D 2024-01-03T00:00:00\nG 11f4ecd83ea6041c585ce19c33be1728abe9547e\nI 11f4ecd83ea6041c585ce19c33be1728abe9547e\nU ann\nW 3\nghi\nZ e392c202e58cf4964162b6ba1fa3b82a\n",
    b"D 2024-01-04T00:00:00\nG 34b3760d99c2cf69ddd97a645afbaab2e107ce1f\nI 012ac7161f693c7f8110269348ee48b7e0b1637d\nU ann\nW 3\njkl\nZ 8de674ed672b164001de4c6bd729656f\n",
];

/// Two texts of a page, a file for it, and its removal.
const PAGES: [&[u8]; 4] = [
    b"D 2024-01-01T00:00:00\nL Home\nU ann\nW 3\nabc\nZ 4c569e621dce42fe31a4f2ef620b4fe4\n",
    b"D 2024-01-02T00:00:00\nL Home\nU ann\nW 3\ndef\nZ 23c4c5d21e346992cb4f9e76e7738359\n",
    b"A note.txt Home a9993e364706816aba3e25717850c26c9cd0d89d\nD 2024-01-03T00:00:00\nU ann\nZ 13021ff9c18cdb12d0f9c6650f3d959c\n",
    b"A note.txt Home\nD 2024-01-04T00:00:00\nU ann\nZ 7dc6d31b5479217c69337bf64660968c\n",
];

/// The sets, and behind the artifacts of all kinds two again of which a name is shunned. They stand behind a call without a
/// contract, which keeps them out of the proof.
fn set_of(number: u64) -> &'static [&'static [u8]] {
    match number {
        0 => &BRANCHED,
        1 => &TAGGED,
        2 | 8 => &CANCELLED,
        3 => &DELTA,
        4 => &TICKETS,
        5 | 9 => &FORUM,
        6 => &PAGES,
        _ => artifacts(),
    }
}

/// What happens in some order: each artifact of a set arrives, and perhaps the name of one is shunned.
#[derive(Clone, Copy)]
struct Play {
    set: &'static [&'static [u8]],
    shunned: Option<&'static [u8]>,
}

/// The play of a number: in play 8 the control of the cancelled tag is shunned, in play 9 the answer that would join two
/// threads.
fn play_of(number: u64) -> Play {
    let set = set_of(number);
    let place = match number {
        8 => 3,
        9 => 2,
        _ => set.len(),
    };
    Play {
        set,
        shunned: set.get(place).copied(),
    }
}

impl Play {
    /// How many steps it has.
    fn steps(&self) -> usize {
        self.set
            .len()
            .saturating_add(usize::from(self.shunned.is_some()))
    }

    /// Each order of up to five steps, and thirty of more.
    fn orders(&self) -> u64 {
        match self.steps() {
            2 => 2,
            3 => 6,
            4 => 24,
            5 => 120,
            _ => 30,
        }
    }
}

/// So many places in the order of this number: each one goes in where its own digit says. For few places the first numbers
/// give each order once.
fn places(alloc: Global, count: usize, number: u64) -> Result<Vec<usize>, Memory> {
    let mut rest = number as usize;
    let mut places = Vec::new(alloc);
    for place in 0..count {
        let choices = places.len().saturating_add(1);
        let at = (rest % choices).min(places.len());
        rest /= choices;
        if places.insert(at, place).is_err() {
            return Err(Memory);
        }
    }
    Ok(places)
}

/// Whether a step of it is done and committed.
fn is_taken(repo: &mut Repo<MemoryDisk>, play: &Play, place: usize) -> bool {
    let done = match play.set.get(place) {
        Some(bytes) => arrives(repo, bytes),
        None => repo.shun(Name::of(play.shunned.unwrap_or(b""))).is_ok(),
    };
    done & repo.commit().is_ok()
}

/// Whether all steps are taken in the order of this number, and each artifact is stored where none is shunned.
fn are_taken(alloc: Global, repo: &mut Repo<MemoryDisk>, play: &Play, number: u64) -> bool {
    let Ok(places) = places(alloc, play.steps(), number) else {
        return false;
    };
    let mut good = true;
    for place in places.as_slice() {
        good = is_taken(repo, play, *place) & good;
    }
    good & (play.shunned.is_some() | (repo.stored() == play.set.len() as u64))
}

/// What a repository shows behind a play in the order of this number; what is like no other where a step wasn't taken, or where
/// it shows something else when it is loaded anew.
fn played(alloc: Global, play: &Play, number: u64) -> Shown {
    match opened(alloc, CONFIGURED) {
        Some(repo) => shown_played(alloc, repo, play, number),
        None => unlike_all(alloc),
    }
}

/// What a repository shows behind a play. It is let go.
fn shown_played(alloc: Global, mut repo: Repo<MemoryDisk>, play: &Play, number: u64) -> Shown {
    let taken = are_taken(alloc, &mut repo, play, number);
    let mut shown = show_of(alloc, &mut repo, play.set);
    let same = shows_again(alloc, repo);
    shown.fails_unless(taken & same);
    shown
}

/// Whether a repository shows the same when its disk is loaded anew.
fn shows_again(alloc: Global, mut repo: Repo<MemoryDisk>) -> bool {
    let shown = show_all(alloc, &mut repo);
    let again = shown_by(alloc, repo.close());
    again.is_like(&shown)
}

/// Whether the order of this number shows what another one showed.
fn shows(alloc: Global, play: &Play, number: u64, first: &Shown) -> bool {
    played(alloc, play, number).is_like(first)
}

/// How many orders of a play show what the first shows.
fn count_alike(alloc: Global, play: &Play) -> u64 {
    let first = played(alloc, play, 0);
    let mut alike: u64 = 0;
    for order in 0..play.orders() {
        // No two orders of many steps are near each other.
        let number = if play.orders() == 30 {
            order.wrapping_mul(2_862_933_553)
        } else {
            order
        };
        let same = shows(alloc, play, number, &first);
        alike = alike.saturating_add(u64::from(same));
    }
    alike
}

/// Each of the plays shows one thing in all its orders.
#[test]
fn orders_show_one(rt: HostRuntime) -> Result<(), Fail> {
    for number in 0..10 {
        let play = play_of(number);
        assert_eq!(rt;
            count_alike(rt.alloc(), &play),
            play.orders(),
            "play {number}"
        );
    }
    Ok(())
}
