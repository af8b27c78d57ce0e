//! A question is answered alike over an open repository and over its file, which is opened without tables; and where a content
//! that is asked for can't be read as it was stored, this is told.
use crate::repo::{CONFIGURED, ONE_BLOB, fused};
use fsl_disk::{Disk, FlipDisk, MemoryDisk};
use fsl_query::{QueryFault, open_for, report, report_from};
use fsl_repo::Repo;
use fsl_text::Text;
use fsl_words::Question;
use std::alloc::Global;
use std::test::Fail;
use tests_kit::{arrives, disk_of, loaded, opened};

/// A check-in with a file, whose content isn't there, and a branch.
const CHECKIN: &[u8] =
    b"C first\nD 2024-01-02T03:04:05\nF abc.txt a9993e364706816aba3e25717850c26c9cd0d89d\nT *branch * stable\nT *sym-stable *\nU ann\nZ 6600220b6a402faaa6889cfbbcc33537\n";

/// The report on the leaves where it is alone.
const LEAF: &[u8] = b"385aee5fd248cee3fe13ac2e20a25527b5ed828a stable\n";

/// The names of `abc`, and of these bytes with the lowest bit of the first one turned.
const ABC: &[u8] = b"a9993e364706816aba3e25717850c26c9cd0d89d";

const TURNED: &[u8] = b"885e43e86d71878441d4f5bbb98feba890c007be";

/// Whether a report is this text.
fn tells(answer: Result<Text, QueryFault>, due: &[u8]) -> bool {
    match answer {
        Ok(text) => {
            let tells = text.bytes() == due;
            drop(text);
            tells
        }
        Err(fault) => {
            drop(fault);
            false
        }
    }
}

/// The file of a repository in which the check-in arrived, if that went well and the leaf is told there.
fn told_open(alloc: Global, mut repo: Repo<MemoryDisk>) -> Option<MemoryDisk> {
    let arrives = arrives(&mut repo, CHECKIN) & repo.commit().is_ok();
    let told = tells(report(alloc, &mut repo, &Question::Leaves), LEAF);
    let disk = repo.close();
    if arrives & told {
        Some(disk)
    } else {
        drop(disk);
        None
    }
}

/// What a file answers to a question.
pub(crate) fn asked(
    alloc: Global,
    disk: &mut MemoryDisk,
    question: &Question,
) -> Result<Text, QueryFault> {
    match open_for(alloc, disk, question) {
        Ok(opened) => report_from(alloc, opened, disk, question),
        Err(_) => Err(QueryFault::Disk),
    }
}

/// Whether a file's answer to a question is this text.
fn is_told(alloc: Global, mut disk: MemoryDisk, question: &Question, due: &[u8]) -> bool {
    let told = tells(asked(alloc, &mut disk, question), due);
    drop(disk);
    told
}

/// The leaf is told over an open repository, and over its file.
#[test]
fn a_leaf_is_told(rt: HostRuntime) -> Result<(), Fail> {
    let disk = match opened(rt.alloc(), CONFIGURED) {
        Some(repo) => told_open(rt.alloc(), repo),
        None => None,
    };
    let told = match disk {
        Some(disk) => is_told(rt.alloc(), disk, &Question::Leaves, LEAF),
        None => false,
    };
    assert!(rt; told);
    Ok(())
}

/// The answer to `cat`.
fn cat<D: Disk>(alloc: Global, repo: &mut Repo<D>, prefix: &[u8]) -> Result<Text, QueryFault> {
    let question = Question::Cat {
        prefix: Text::of(alloc, prefix)?,
    };
    let told = report(alloc, repo, &question);
    drop(question);
    told
}

/// Whether the content of the one artifact is told, and none of a name that isn't held.
fn tells_content(alloc: Global) -> bool {
    let Some(mut repo) = opened(alloc, ONE_BLOB) else {
        return false;
    };
    let first = tells(cat(alloc, &mut repo, b"a99"), b"abc");
    let other = is_refused(cat(alloc, &mut repo, b"a98"));
    drop(repo.close());
    first & other
}

/// Whether there is nothing to report.
fn is_refused(answer: Result<Text, QueryFault>) -> bool {
    let refused = matches!(&answer, Err(QueryFault::Refused(_)));
    drop(answer);
    refused
}

/// Whether the same content is told of a file.
fn tells_content_of_file(alloc: Global) -> bool {
    let Ok(prefix) = Text::of(alloc, b"a99") else {
        return false;
    };
    let question = Question::Cat { prefix };
    let told = match disk_of(alloc, ONE_BLOB) {
        Ok(disk) => is_told(alloc, disk, &question, b"abc"),
        Err(_) => false,
    };
    drop(question);
    told
}

/// The content of an artifact is told, over an open repository and over its file.
#[test]
fn a_content_is_told(rt: HostRuntime) -> Result<(), Fail> {
    assert!(rt; tells_content(rt.alloc()));
    assert!(rt; tells_content_of_file(rt.alloc()));
    Ok(())
}

/// Whether these bytes were read in place of `abc`.
fn is_damaged(answer: Result<Text, QueryFault>) -> bool {
    let damaged = match &answer {
        Err(QueryFault::Damaged { name, found }) => {
            (name.text().as_slice() == ABC) & (found.text().as_slice() == TURNED)
        }
        _ => false,
    };
    drop(answer);
    damaged
}

/// What is answered of a repository whose disk gives the first byte of `abc` right but once, when it is loaded.
fn tells_damage(alloc: Global) -> bool {
    let Ok(disk) = disk_of(alloc, ONE_BLOB) else {
        return false;
    };
    let Some(mut repo) = loaded(alloc, FlipDisk::new(disk, 106, 1)) else {
        return false;
    };
    let damaged = is_damaged(cat(alloc, &mut repo, b"a99"));
    drop(repo.close());
    damaged
}

/// What is answered of a repository whose disk fails behind the three calls that load it.
fn tells_failure(alloc: Global) -> bool {
    let Some(mut repo) = fused(alloc, ONE_BLOB, 3) else {
        return false;
    };
    let answer = cat(alloc, &mut repo, b"a99");
    let failed = matches!(&answer, Err(QueryFault::Disk));
    drop(answer);
    drop(repo.close());
    failed
}

/// A content that can't be read, or that another name is read for, isn't told.
#[test]
fn a_content_is_tested(rt: HostRuntime) -> Result<(), Fail> {
    assert!(rt; tells_damage(rt.alloc()));
    assert!(rt; tells_failure(rt.alloc()));
    Ok(())
}
