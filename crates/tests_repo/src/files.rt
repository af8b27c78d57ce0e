//! Reports on a file of many groups, which is read group by group: they say what the tables of the repository say that is opened
//! from it.
use crate::histories::{artifact, artifacts};
use crate::printing::{Shown, show_answer};
use crate::questions::asked;
use crate::repo::CONFIGURED;
use fsl_disk::MemoryDisk;
use fsl_name::Name;
use fsl_query::report;
use fsl_repo::Repo;
use fsl_text::{List, Memory, Text};
use fsl_words::Question;
use std::alloc::Global;
use std::test::Fail;
use tests_kit::{arrives, loaded, opened};

/// The id of the ticket that one of the artifacts changes.
const TICKET: [u8; 20] = [
    0x34, 0x6d, 0x34, 0xa0, 0xf0, 0xd9, 0x6d, 0xda, 0xf6, 0x6e, 0x20, 0x99, 0xf5, 0xec, 0xba, 0x91,
    0xb7, 0x67, 0x4a, 0x31,
];

/// The digits of an artifact's name.
fn digits(alloc: Global, number: usize) -> Result<Text, Memory> {
    Text::of(alloc, Name::of(artifact(number)).text().as_slice())
}

/// So many questions are asked.
const QUESTIONS: u64 = 23;

/// Questions of each kind: what is held, what was shunned and what is listed no more.
fn question(alloc: Global, number: u64) -> Result<Question, Memory> {
    Ok(match number {
        0 => Question::Cat {
            prefix: digits(alloc, 0)?,
        },
        1 => Question::Cat {
            prefix: digits(alloc, 1)?,
        },
        2 => Question::Cat {
            prefix: digits(alloc, 6)?,
        },
        3 => Question::Receipt {
            prefix: digits(alloc, 0)?,
        },
        4 => Question::Receipt {
            prefix: digits(alloc, 1)?,
        },
        5 => Question::Timeline { count: 1000 },
        6 => Question::Leaves,
        7 => Question::Tags {
            prefix: digits(alloc, 4)?,
        },
        8 => Question::Tags {
            prefix: digits(alloc, 6)?,
        },
        9 => Question::Tip {
            symbol: Text::of(alloc, b"trunk")?,
        },
        10 => Question::Tip {
            symbol: Text::of(alloc, b"side")?,
        },
        11 => Question::Files {
            prefix: digits(alloc, 7)?,
        },
        12 => Question::Wiki {
            title: Text::of(alloc, b"Home")?,
        },
        13 => Question::Ticket {
            prefix: Text::of(alloc, Name::from_bytes(TICKET).text().as_slice())?,
        },
        14 => Question::Thread {
            prefix: Text::of(alloc, Name::of(artifact(11)).text().as_slice())?,
        },
        15 => Question::Ticket {
            prefix: Text::of(alloc, &Name::from_bytes(TICKET).text()[..4])?,
        },
        16 => Question::Thread {
            prefix: Text::of(alloc, &Name::of(artifact(11)).text()[..9])?,
        },
        17 => Question::Info,
        18 => Question::Branches,
        19 => Question::Pages,
        20 => Question::Tickets {
            fields: List::new(alloc),
        },
        21 => Question::Threads,
        _ => Question::Phantoms,
    })
}

/// Whether an artifact arrives in a group of its own.
fn arrives_alone(repo: &mut Repo<MemoryDisk>, bytes: &[u8]) -> bool {
    arrives(repo, bytes) & repo.commit().is_ok()
}

/// Whether the names of two artifacts are shunned, each in a group of its own, and one of them is taken off the list again.
fn shuns(repo: &mut Repo<MemoryDisk>) -> bool {
    let first = repo.shun(Name::of(artifact(1))).is_ok() & repo.commit().is_ok();
    let second = repo.shun(Name::of(artifact(6))).is_ok() & repo.commit().is_ok();
    let back = repo.unshun(Name::of(artifact(1))).is_ok() & repo.commit().is_ok();
    first & second & back
}

/// A repository of as many groups as artifacts, and three more.
fn grouped(alloc: Global) -> Option<Repo<MemoryDisk>> {
    let mut repo = opened(alloc, CONFIGURED)?;
    let mut goes = true;
    for bytes in artifacts() {
        goes = arrives_alone(&mut repo, bytes) & goes;
    }
    goes = shuns(&mut repo) & goes;
    if goes {
        Some(repo)
    } else {
        drop(repo.close());
        None
    }
}

/// What the tables of a repository answer to each question.
fn told_open(alloc: Global, repo: &mut Repo<MemoryDisk>) -> Shown {
    let mut into = Shown::new(alloc);
    for number in 0..QUESTIONS {
        match question(alloc, number) {
            Ok(question) => {
                let answer = report(alloc, repo, &question);
                drop(question);
                show_answer(alloc, &mut into, answer);
            }
            Err(_) => into.fails_unless(false),
        }
    }
    into
}

/// What a file answers to each question.
fn told_by_file(alloc: Global, disk: &mut MemoryDisk) -> Shown {
    let mut into = Shown::new(alloc);
    for number in 0..QUESTIONS {
        match question(alloc, number) {
            Ok(question) => {
                let answer = asked(alloc, disk, &question);
                drop(question);
                show_answer(alloc, &mut into, answer);
            }
            Err(_) => into.fails_unless(false),
        }
    }
    into
}

/// What a repository answers that is loaded from a file, and then what the file answers.
fn told_both(alloc: Global, disk: MemoryDisk) -> Option<(Shown, Shown)> {
    let mut repo = loaded(alloc, disk)?;
    let open = told_open(alloc, &mut repo);
    let mut disk = repo.close();
    let file = told_by_file(alloc, &mut disk);
    drop(disk);
    Some((open, file))
}

/// Whether a file of many groups answers each question as the repository does that is loaded from it, and as the one that wrote
/// it.
fn tells_the_same(alloc: Global) -> bool {
    let Some(mut repo) = grouped(alloc) else {
        return false;
    };
    let first = told_open(alloc, &mut repo);
    let same = match told_both(alloc, repo.close()) {
        Some((open, file)) => {
            let same = open.is_like(&first) & file.is_like(&first);
            drop(open);
            drop(file);
            same
        }
        None => false,
    };
    drop(first);
    same
}

/// A file of many groups, with a shun behind and one that was taken back, answers each kind of question as its tables do.
#[test]
fn a_file_of_many_groups_is_told(rt: HostRuntime) -> Result<(), Fail> {
    assert!(rt; tells_the_same(rt.alloc()));
    Ok(())
}
