//! Check-ins whose trees are had back, and whose checksums are tested. They are those of an independent model, and of Fossil 2.21.
use crate::EMPTY;
use crate::sums::CHECKINS;
use crate::trees::is_written;
use fsl_checkin::{Export, TreeItem, Verdict, export, read_tree, verify};
use fsl_disk::MemoryDisk;
use fsl_name::{Name, Ref};
use fsl_repo::{Repo, Shunning};
use fsl_text::List;
use std::alloc::Global;
use std::test::Fail;
use tests_kit::{arrives, opened};

const TREE: &[u8] = b"add a.txt - 3\nabc\n";

const CHECKIN: &[u8] =
    b"C first\nD 1970-01-01T00:00:00.000\nF a.txt a9993e364706816aba3e25717850c26c9cd0d89d\nR 6bee3e4d66f0e718f92afb7a3c77d92f\nU ann\nZ 0097365ae02228957f4ffa9e1a281475\n";

const EMPTY_CHECKIN: &[u8] =
    b"C first\nD 2024-01-02T03:04:05\nP\nR d41d8cd98f00b204e9800998ecf8427e\nU ann\nZ 9976f6c4e0a8032dc1f2e1f1151d2f88\n";

const WITHOUT_SUM: &[u8] =
    b"C three\nD 2024-01-02T03:04:06\nP 3685fd2c9306fc981666be37a59126e81c51b69e\nU ann\nZ fafee6070e69407f2d2458121eada1f9\n";

const WRONG_SUM: &[u8] =
    b"C w\nD 2024-01-02T03:04:06\nF a.txt a9993e364706816aba3e25717850c26c9cd0d89d\nR 00000000000000000000000000000000\nU ann\nZ 35bee07089376f16fbe541c87df7d6ba\n";

const WITHOUT_BASELINE: &[u8] =
    b"B 1111111111111111111111111111111111111111\nC w\nD 2024-01-02T03:04:06\nR 00000000000000000000000000000000\nU ann\nZ a31ca840ca0e7fc03b7b907c7adb24aa\n";

const WITHOUT_CONTENT: &[u8] =
    b"C w\nD 2024-01-02T03:04:06\nF a.txt a9993e364706816aba3e25717850c26c9cd0d89d w\nF b.txt 2222222222222222222222222222222222222222\nR 00000000000000000000000000000000\nU ann\nZ 8e06d1790f7d7c064f736ce8a1c0928d\n";

/// It takes over the files of `CHECKIN`, and has one more, which can be run.
const OVER_BASELINE: &[u8] =
    b"B 49c0458409e6661e7c634d62780810f21caa37bb\nC w\nD 2024-01-02T03:04:06\nF b.txt a9993e364706816aba3e25717850c26c9cd0d89d x\nR 7ee8e5cfd7fe0c85e1ecd762b38d0001\nU ann\nZ 7c31b98e00cf319c521916052c359db7\n";

const OVER_BASELINE_TREE: &[u8] = b"add a.txt - 3\nabc\nadd b.txt x 3\nabc\n";

/// Its file has the permission `w`, which counts as none.
const WRITABLE: &[u8] =
    b"C w\nD 2024-01-02T03:04:06\nF a.txt a9993e364706816aba3e25717850c26c9cd0d89d w\nR 6bee3e4d66f0e718f92afb7a3c77d92f\nU ann\nZ e9de215dc115b154a073995f6248e769\n";

/// Its second file has a foreign hash, and its third one isn't held.
const WITH_FOREIGN: &[u8] =
    b"C w\nD 2024-01-02T03:04:06\nF a.txt a9993e364706816aba3e25717850c26c9cd0d89d\nF b.txt 3333333333333333333333333333333333333333333333333333333333333333 l\nF c.txt 2222222222222222222222222222222222222222\nR 00000000000000000000000000000000\nU ann\nZ 404acbc92d2db309086cc6a18775bf01\n";

/// Whether a check-in's tree is written as this.
fn exports(alloc: Global, repo: &mut Repo<MemoryDisk>, checkin: &[u8], wanted: &[u8]) -> bool {
    match export(alloc, repo, Name::of(checkin)) {
        Ok(Export::Tree(items)) => is_written(alloc, &items, wanted),
        _ => false,
    }
}

/// Whether a check-in's tree lacks this.
fn lacks(alloc: Global, repo: &mut Repo<MemoryDisk>, checkin: &[u8], wanted: &Ref) -> bool {
    let found = export(alloc, repo, Name::of(checkin));
    match &found {
        Ok(Export::Incomplete { missing }) => *missing == *wanted,
        _ => false,
    }
}

/// Whether a test of its checksum answers this.
fn is_so(alloc: Global, repo: &mut Repo<MemoryDisk>, checkin: &[u8], wanted: Verdict) -> bool {
    match verify(alloc, repo, Name::of(checkin)) {
        Ok(verdict) => verdict == wanted,
        Err(_) => false,
    }
}

/// Whether both lack this.
fn are_incomplete(
    alloc: Global,
    repo: &mut Repo<MemoryDisk>,
    checkin: &[u8],
    missing: Ref,
) -> bool {
    let exported = lacks(alloc, repo, checkin, &missing);
    exported & is_so(alloc, repo, checkin, Verdict::Incomplete { missing })
}

/// Whether both are right.
fn comes_back(alloc: Global, repo: &mut Repo<MemoryDisk>, checkin: &[u8], tree: &[u8]) -> bool {
    let exported = exports(alloc, repo, checkin, tree);
    exported & is_so(alloc, repo, checkin, Verdict::Right)
}

/// Whether the contents of a tree arrive, and its check-in behind them.
fn arrive_all(repo: &mut Repo<MemoryDisk>, items: &List<TreeItem>, checkin: &[u8]) -> bool {
    let mut all = true;
    for item in items.items() {
        all = arrives(repo, item.bytes.bytes()) & all;
    }
    all & arrives(repo, checkin)
}

fn is_taken(alloc: Global, repo: &mut Repo<MemoryDisk>, tree: &[u8], checkin: &[u8]) -> bool {
    match read_tree(alloc, tree) {
        Ok(items) => arrive_all(repo, &items, checkin),
        Err(_) => false,
    }
}

/// Whether a check-in of Fossil is taken, and comes back.
fn is_had_back(
    alloc: Global,
    repo: &mut Repo<MemoryDisk>,
    (tree, _, _, checkin): (&[u8], &[u8], i64, &[u8]),
) -> bool {
    let taken = is_taken(alloc, repo, tree, checkin);
    taken & comes_back(alloc, repo, checkin, tree)
}

/// Whether all of them are.
fn are_had_back(alloc: Global, repo: &mut Repo<MemoryDisk>) -> bool {
    let mut all = true;
    for case in CHECKINS {
        all = is_had_back(alloc, repo, case) & all;
    }
    all
}

/// Whether trees come back, also of a check-in without a file, of one over a baseline, and of one with a file that can be written.
fn are_right(alloc: Global, repo: &mut Repo<MemoryDisk>) -> bool {
    let taken = is_taken(alloc, repo, TREE, CHECKIN) & arrives(repo, EMPTY_CHECKIN);
    let first = comes_back(alloc, repo, CHECKIN, TREE);
    let empty = comes_back(alloc, repo, EMPTY_CHECKIN, b"");
    let delta = arrives(repo, OVER_BASELINE);
    let over = comes_back(alloc, repo, OVER_BASELINE, OVER_BASELINE_TREE);
    let writable = arrives(repo, WRITABLE) & comes_back(alloc, repo, WRITABLE, TREE);
    taken & first & empty & delta & over & writable
}

/// Whether a checksum that is another one is told with the one of the tree, which comes back, and none where there is none.
fn are_told(alloc: Global, repo: &mut Repo<MemoryDisk>) -> bool {
    let taken = arrives(repo, WITHOUT_SUM) & arrives(repo, WRONG_SUM);
    let tree = exports(alloc, repo, WRONG_SUM, TREE);
    let kept = [0; 16];
    let found = *b"\x6b\xee\x3e\x4d\x66\xf0\xe7\x18\xf9\x2a\xfb\x7a\x3c\x77\xd9\x2f";
    let wrong = is_so(alloc, repo, WRONG_SUM, Verdict::Wrong { kept, found });
    taken & tree & wrong & is_so(alloc, repo, WITHOUT_SUM, Verdict::NoSum)
}

/// Whether a name that is no check-in's is told to be none.
fn is_no_checkin(alloc: Global, repo: &mut Repo<MemoryDisk>, bytes: &[u8]) -> bool {
    let exported = match export(alloc, repo, Name::of(bytes)) {
        Ok(found) => {
            let none = matches!(found, Export::NotCheckin);
            drop(found);
            none
        }
        Err(_) => false,
    };
    exported & is_so(alloc, repo, bytes, Verdict::NotCheckin)
}

/// All of that of one repository.
fn are_tested(alloc: Global, repo: &mut Repo<MemoryDisk>) -> bool {
    let right = are_right(alloc, repo);
    let told = are_told(alloc, repo);
    let held = is_no_checkin(alloc, repo, b"abc");
    right & told & held & is_no_checkin(alloc, repo, b"gone")
}

/// A name of these bytes, twenty times.
fn named(byte: u8) -> Ref {
    Ref::Own(Name::from_bytes([byte; 20]))
}

/// Whether what isn't held is told: the baseline, or the first content that is foreign or isn't there.
fn are_missed(alloc: Global, repo: &mut Repo<MemoryDisk>) -> bool {
    let abc = Name::of(b"abc");
    let taken = arrives(repo, CHECKIN) & arrives(repo, WITHOUT_BASELINE);
    let more = arrives(repo, WITHOUT_CONTENT) & arrives(repo, WITH_FOREIGN);
    let first = are_incomplete(alloc, repo, CHECKIN, Ref::Own(abc));
    let before = are_incomplete(alloc, repo, WITH_FOREIGN, Ref::Own(abc));
    let back = arrives(repo, b"abc") & comes_back(alloc, repo, CHECKIN, TREE);
    let baseline = are_incomplete(alloc, repo, WITHOUT_BASELINE, named(0x11));
    let content = are_incomplete(alloc, repo, WITHOUT_CONTENT, named(0x22));
    let foreign = are_incomplete(alloc, repo, WITH_FOREIGN, Ref::Foreign([0x33; 32]));
    taken & more & first & before & back & baseline & content & foreign
}

/// Whether a shunned content is missed, and comes back by no arrival.
fn is_shunned(alloc: Global, repo: &mut Repo<MemoryDisk>) -> bool {
    let abc = Name::of(b"abc");
    let gone = matches!(repo.shun(abc), Ok(Shunning::Removed));
    let missed = are_incomplete(alloc, repo, CHECKIN, Ref::Own(abc));
    let again = arrives(repo, b"abc");
    gone & missed & again & are_incomplete(alloc, repo, CHECKIN, Ref::Own(abc))
}

/// What is asked of a new repository.
#[derive(Clone, Copy)]
enum Asked {
    OfFossil,
    Sums,
    Missing,
}

/// Whether it is so of a new repository, which goes before the one end.
fn holds(alloc: Global, asked: Asked) -> bool {
    match opened(alloc, EMPTY) {
        Some(mut repo) => {
            let so = match asked {
                Asked::OfFossil => are_had_back(alloc, &mut repo),
                Asked::Sums => are_tested(alloc, &mut repo),
                Asked::Missing => {
                    let missed = are_missed(alloc, &mut repo);
                    missed & is_shunned(alloc, &mut repo)
                }
            };
            let disk = repo.close();
            drop(disk);
            so
        }
        None => false,
    }
}

#[test]
fn check_ins_of_fossil_come_back(rt: HostRuntime) -> Result<(), Fail> {
    assert!(rt; holds(rt.alloc(), Asked::OfFossil));
    Ok(())
}

#[test]
fn trees_come_back_and_sums_are_tested(rt: HostRuntime) -> Result<(), Fail> {
    assert!(rt; holds(rt.alloc(), Asked::Sums));
    Ok(())
}

#[test]
fn what_is_missing_is_told(rt: HostRuntime) -> Result<(), Fail> {
    assert!(rt; holds(rt.alloc(), Asked::Missing));
    Ok(())
}
