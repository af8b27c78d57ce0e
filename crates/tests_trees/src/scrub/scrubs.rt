//! Scrubbed files, byte for byte, and what the repositories of them answer.
use super::files::{NEW, NEW_1, OLD, OLD_1, ROW, ROW_NEW};
use fsl_blobs::BlobState;
use fsl_disk::MemoryDisk;
use fsl_name::Name;
use fsl_repo::{Repo, Shunning};
use fsl_scrub::{ScrubFault, Scrubbed, scrub};
use std::alloc::Global;
use std::test::Fail;
use tests_kit::{disk_of, loaded, opened, spare_of};

/// What a scrub of the file with these bytes answers, and whether the spare file is this one then.
fn scrubs(
    alloc: Global,
    old: &[u8],
    wanted: &[u8],
) -> Option<(Result<Scrubbed, ScrubFault>, bool)> {
    let mut repo = opened(alloc, old)?;
    let mut spare = spare_of(alloc);
    let answer = scrub(alloc, &mut repo, &mut spare);
    let is_wanted = spare.bytes() == wanted;
    drop(spare);
    drop(repo.close());
    Some((answer, is_wanted))
}

/// The answer to a scrub that is done, and that the file is as it was wanted.
fn done(blobs: u64, shuns: u64, len: u64) -> Option<(Result<Scrubbed, ScrubFault>, bool)> {
    Some((Ok(Scrubbed { blobs, shuns, len }), true))
}

/// Nothing is left of what is shunned. Artifacts stand by the places of their records, with their present privacy and their
/// receipts, and what is scrubbed stays as it is when it is scrubbed again. A file of version 1 becomes one of version 2.
#[test]
fn a_scrubbed_file_has_nothing_of_what_is_shunned(rt: HostRuntime) -> Result<(), Fail> {
    assert_eq!(rt; scrubs(rt.alloc(), OLD, NEW), done(4, 2, 290));
    assert_eq!(rt; scrubs(rt.alloc(), NEW, NEW), done(4, 2, 290));
    assert_eq!(rt; scrubs(rt.alloc(), OLD_1, NEW_1), done(3, 2, 214));
    assert_eq!(rt; scrubs(rt.alloc(), NEW_1, NEW_1), done(3, 2, 214));
    Ok(())
}

/// The file of a repository in which `abc` is shunned.
fn shuns_abc(alloc: Global, bytes: &[u8]) -> Option<MemoryDisk> {
    let mut repo = opened(alloc, bytes)?;
    let is_removed = matches!(repo.shun(Name::of(b"abc")), Ok(Shunning::Removed));
    let is_committed = repo.commit().is_ok();
    let disk = repo.close();
    if is_removed & is_committed {
        Some(disk)
    } else {
        drop(disk);
        None
    }
}

/// What a scrub answers behind that, and whether the spare file is this one then.
fn scrubs_shunned(
    alloc: Global,
    old: &[u8],
    wanted: &[u8],
) -> Option<(Result<Scrubbed, ScrubFault>, bool)> {
    let disk = shuns_abc(alloc, old)?;
    let mut repo = loaded(alloc, disk)?;
    let mut spare = spare_of(alloc);
    let answer = scrub(alloc, &mut repo, &mut spare);
    let is_wanted = spare.bytes() == wanted;
    drop(spare);
    drop(repo.close());
    Some((answer, is_wanted))
}

/// One artifact that is shunned leaves the Config and its name.
#[test]
fn a_shunned_artifact_leaves_its_name(rt: HostRuntime) -> Result<(), Fail> {
    assert_eq!(rt; scrubs_shunned(rt.alloc(), ROW, ROW_NEW), done(0, 1, 89));
    Ok(())
}

/// What a scrub into a file with bytes answers, and whether these stay.
fn spares(alloc: Global, bytes: &[u8]) -> Option<(Result<Scrubbed, ScrubFault>, bool)> {
    let mut spare = disk_of(alloc, bytes).ok()?;
    let mut repo = opened(alloc, OLD)?;
    let answer = scrub(alloc, &mut repo, &mut spare);
    let is_kept = spare.bytes() == bytes;
    drop(spare);
    drop(repo.close());
    Some((answer, is_kept))
}

#[test]
fn a_file_with_bytes_is_refused_and_stays(rt: HostRuntime) -> Result<(), Fail> {
    for bytes in [b"abc".as_slice(), OLD, NEW] {
        assert_eq!(rt;
            spares(rt.alloc(), bytes),
            Some((
                Err(ScrubFault::NotEmpty {
                    len: bytes.len() as u64
                }),
                true
            ))
        );
    }
    Ok(())
}

/// Whether a name was brought by this login at this moment.
fn is_brought(repo: &Repo<MemoryDisk>, bytes: &[u8], login: &[u8], ms: i64) -> bool {
    match repo.receipt(Name::of(bytes)) {
        Some(receipt) => (receipt.login() == login) & (receipt.moment().ms() == ms),
        None => false,
    }
}

/// Whether the content of the name of these bytes is read back.
fn has_content(repo: &mut Repo<MemoryDisk>, bytes: &[u8]) -> bool {
    match repo.content(Name::of(bytes)) {
        Ok(text) => text.bytes() == bytes,
        Err(_) => false,
    }
}

/// Whether each artifact that isn't shunned has its present privacy and its receipt.
fn has_states(repo: &Repo<MemoryDisk>) -> bool {
    let third = repo.state(Name::of(b"third")) == BlobState::Private { size: 5 };
    let second = repo.state(Name::of(b"second")) == BlobState::Public { size: 6 };
    let back = repo.state(Name::of(b"back")) == BlobState::Public { size: 4 };
    let gone = repo.state(Name::of(b"gone")) == BlobState::Shunned;
    let brought = is_brought(repo, b"third", b"ann", 0)
        & is_brought(repo, b"second", b"", 1_000)
        & is_brought(repo, b"back", b"bob", 1_577_836_800_000)
        & repo.receipt(Name::of(b"abc")).is_none()
        & repo.receipt(Name::of(b"gone")).is_none();
    third & second & back & gone & brought
}

/// Whether each content is read back.
fn has_contents(repo: &mut Repo<MemoryDisk>) -> bool {
    let first = has_content(repo, b"third") & has_content(repo, b"abc");
    let last = has_content(repo, b"second") & has_content(repo, b"back");
    first & last & !has_content(repo, b"gone")
}

/// The names that are held, by their places, and how many are shunned.
fn names_of(repo: &Repo<MemoryDisk>) -> Option<([Name; 4], u64)> {
    let shuns = match repo.shuns() {
        Ok(shuns) => shuns.items().len() as u64,
        Err(_) => 0,
    };
    match repo.held(0) {
        Ok(names) => match names.items() {
            [a, b, c, d] => Some(([a.name, b.name, c.name, d.name], shuns)),
            _ => None,
        },
        Err(_) => None,
    }
}

/// Whether a file is that of all of it, and the names by their places.
fn is_told(alloc: Global, bytes: &[u8]) -> Option<(bool, Option<([Name; 4], u64)>)> {
    let mut repo = opened(alloc, bytes)?;
    let names = names_of(&repo);
    let is_all = has_states(&repo) & has_contents(&mut repo);
    drop(repo.close());
    Some((is_all, names))
}

/// The repository of a scrubbed file answers as the one before: names by place, privates, receipts, shunned names, contents.
#[test]
fn a_scrubbed_repository_answers_as_before(rt: HostRuntime) -> Result<(), Fail> {
    let names = [
        Name::of(b"third"),
        Name::of(b"abc"),
        Name::of(b"second"),
        Name::of(b"back"),
    ];
    for bytes in [OLD, NEW] {
        assert_eq!(rt; is_told(rt.alloc(), bytes), Some((true, Some((names, 2)))));
    }
    Ok(())
}
