//! Histories of a repository: what it holds when it is closed, and when it is loaded again.
use crate::events::cluster;
use crate::printing::{Shown, show_all, shown_by};
use crate::repo::{ONE_BLOB, fused};
use fsl_disk::{FuseDisk, MemoryDisk};
use fsl_name::Name;
use fsl_repo::Repo;
use std::alloc::Global;
use std::test::Fail;
use tests_kit::arrive;

/// A history has so many steps.
const STEPS: u64 = 40;

// Plain texts, four check-ins of two branches and a merge with a baseline, a tag, a page, a ticket, a post, and two
// clusters, of which one names the other.
const ARTIFACTS: [&[u8]; 14] = [
    b"alpha",
    b"beta",
    b"gamma",
    b"delta",
    b"C first\nD 2024-05-01T10:00:00.000\nF a.txt be76331b95dfc399cd776d2fc68021e0db03cc4f\nF b.txt a295e0bdde1938d1fbfd343e5a3e569e868e1465\nT *branch * trunk\nT *sym-trunk *\nU ann\nZ ad0e90a1697fc2a1b2e33840c5a0a50d\n",
    b"C second\nD 2024-05-02T10:00:00.000\nF a.txt ff70f4c33de2200b76651bbe1e54aa55fcd77447\nP 0d385d2dae73c749140cbeb418acd798928033fd\nU bob\nZ a610fb0b65056bb1830802d1014c003d\n",
    b"C side\nD 2024-05-03T10:00:00.000\nF b.txt 736fcab46d3c183000b547caa2f1f0abcdcd1c87\nP 0d385d2dae73c749140cbeb418acd798928033fd\nT *branch * side\nT *sym-side *\nT -sym-trunk *\nU ann\nZ 4b6b07672a74f2bf53999640c87e0eb4\n",
    b"B 0d385d2dae73c749140cbeb418acd798928033fd\nC merge\nD 2024-05-04T10:00:00.000\nF b.txt ff70f4c33de2200b76651bbe1e54aa55fcd77447\nP ce537cc83b2e699fa5e194cd8a8dd4ad668df444 9b174339430222e76460ffa49ca2dab1da165d14\nU bob\nZ 6c941f25b9811c7b55186db7e4fdfee9\n",
    b"D 2024-05-05T10:00:00.000\nT +note ce537cc83b2e699fa5e194cd8a8dd4ad668df444 new\nU ann\nZ c73eabb1618e208ae2f169efa16368df\n",
    b"D 2024-05-06T10:00:00.000\nL Home\nU ann\nW 5\nhello\nZ 3aff53d842378cc19f38ac84b0bd6bef\n",
    b"D 2024-05-07T10:00:00.000\nJ status open\nK 346d34a0f0d96ddaf66e2099f5ecba91b7674a31\nU bob\nZ d981112589302824f02743b54367bb44\n",
    b"D 2024-05-08T10:00:00.000\nH title\nU ann\nW 3\nyes\nZ 84c5fc0e10690238ecf12264c8c74f53\n",
    b"M 0d385d2dae73c749140cbeb418acd798928033fd\nM be76331b95dfc399cd776d2fc68021e0db03cc4f\nZ 2b97f09ddbe9072312851d19ff807460\n",
    b"M 047e9b3fcadd763ca155bc899bf82dbe9f998a20\nM 87f1dd5ad47a49a2476a79a0bf7355028ba6945c\nM fd6fc984598c2a317a2128879297643a0580fcfa\nZ e53c6416e391b4ab60f15d56eed614ba\n",
];

/// They stand behind a call without a contract, which keeps them out of the proof.
pub(crate) fn artifacts() -> &'static [&'static [u8]] {
    &ARTIFACTS
}

/// One of them.
pub(crate) fn artifact(number: usize) -> &'static [u8] {
    match artifacts().get(number) {
        Some(bytes) => *bytes,
        None => b"",
    }
}

/// Numbers that look random, and are the same in each run.
#[derive(Drop)]
pub(crate) struct Dice {
    state: u64,
}

impl Dice {
    /// Dice whose numbers follow from this one.
    pub(crate) fn of(state: u64) -> Dice {
        Dice { state }
    }

    pub(crate) fn roll(&mut self) -> u8 {
        self.state = self
            .state
            .wrapping_mul(6_364_136_223_846_793_005)
            .wrapping_add(1_442_695_040_888_963_407);
        let [high, ..] = self.state.to_be_bytes();
        high
    }
}

/// Takes a step that is no commit: mostly an arrival, one in five of them private, and now and then one under a wrong name.
fn take(repo: &mut Repo<FuseDisk<MemoryDisk>>, kind: u8, bytes: &[u8]) {
    let name = Name::of(bytes);
    match kind {
        2 => {
            let _ = arrive(repo, Name::of(b"wrong"), bytes, false);
        }
        3 | 4 => {
            let _ = repo.announce(name);
        }
        5 => {
            let _ = repo.shun(name);
        }
        6 => {
            let _ = cluster(repo);
        }
        _ => {
            let _ = arrive(repo, name, bytes, kind < 2);
        }
    }
}

/// Takes a step by the dice. Whether it is a commit that succeeds.
fn commits(repo: &mut Repo<FuseDisk<MemoryDisk>>, dice: &mut Dice) -> bool {
    let bytes = artifact(usize::from(dice.roll() % 14));
    let kind = dice.roll() % 16;
    if kind == 7 || kind == 8 {
        return repo.commit().is_ok();
    }
    take(repo, kind, bytes);
    false
}

/// Takes so many steps. What a repository shows at its last commit.
fn play(alloc: Global, repo: &mut Repo<FuseDisk<MemoryDisk>>, dice: &mut Dice) -> Shown {
    let mut committed = show_all(alloc, repo);
    for _ in 0..STEPS {
        if commits(repo, dice) {
            committed = show_all(alloc, repo);
        }
    }
    committed
}

/// Whether a repository that is closed shows what it showed at its end when it is loaded again, or, where a commit fails, what
/// it showed at the last one that succeeded.
fn returns(
    alloc: Global,
    mut repo: Repo<FuseDisk<MemoryDisk>>,
    committed: &Shown,
    fails: bool,
) -> bool {
    let end = show_all(alloc, &mut repo);
    let ends = repo.commit().is_ok();
    let again = shown_by(alloc, repo.close().inner());
    let is_end = again.is_like(&end);
    let is_committed = again.is_like(committed);
    drop(end);
    drop(again);
    (ends != fails) & (is_end | (fails & is_committed))
}

/// Plays a history over a disk that fails after so many calls. Whether it comes back, and a commit fails just where one is to.
fn comes_back_after(alloc: Global, number: u64, calls: u64, fails: bool) -> bool {
    let Some(mut repo) = fused(alloc, ONE_BLOB, calls) else {
        return false;
    };
    let committed = play(alloc, &mut repo, &mut Dice::of(number));
    let back = returns(alloc, repo, &committed, fails);
    drop(committed);
    back
}

/// Each of 24 histories comes back whole, and six more, whose disk fails in the second commit or later, as at the end or at a
/// commit before.
#[test]
fn comes_back(rt: HostRuntime) -> Result<(), Fail> {
    for number in 0..30 {
        let fails = 24 <= number;
        let calls = if fails { number - 12 } else { 1_000_000 };
        let back = comes_back_after(rt.alloc(), number, calls, fails);
        assert!(rt; back, "history {number}");
    }
    Ok(())
}
