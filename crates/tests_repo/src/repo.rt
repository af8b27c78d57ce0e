// What no clause says: that calls succeed with ample memory, and that a repository that is closed loads again as it was.
use fsl_blobs::{BlobState, Found, Known};
use fsl_disk::{FuseDisk, MemoryDisk};
use fsl_name::Name;
use fsl_repo::Repo;
use std::alloc::Global;
use std::test::Fail;
use tests_kit::{disk_of, loaded, opened};

// A file of version 1 with a Config without fields and a blob `abc`, 110 bytes.
pub(crate) const ONE_BLOB: &[u8] =
    b"fossil-blobs-1\nO\0\0\0\0\0\0\0\x2BCabcdefghijklmnopqrstABCDEFGHIJKLMNOPQRST\0\0O\0\0\0\0\0\0\0\x21B\0\xA9\x99>6G\x06\x81j\xBA>%qxP\xC2l\x9C\xD0\xD8\x9D\0\0\0\0\0\0\0\x03abcC";

// The same file of version 2.
pub(crate) const ONE_LATER_BLOB: &[u8] =
    b"fossil-blobs-2\nO\0\0\0\0\0\0\0\x2BCabcdefghijklmnopqrstABCDEFGHIJKLMNOPQRST\0\0O\0\0\0\0\0\0\0\x21B\0\xA9\x99>6G\x06\x81j\xBA>%qxP\xC2l\x9C\xD0\xD8\x9D\0\0\0\0\0\0\0\x03abcC";

// A file with a Config of the fields `comment` and `status`, 83 bytes.
pub(crate) const CONFIGURED: &[u8] =
    b"fossil-blobs-1\nO\0\0\0\0\0\0\0\x3ACabcdefghijklmnopqrstABCDEFGHIJKLMNOPQRST\0\x02\x07comment\x06statusC";

/// The repository of a disk with these bytes that fails after so many calls; none where it fails before the file is loaded.
pub(crate) fn fused(alloc: Global, bytes: &[u8], calls: u64) -> Option<Repo<FuseDisk<MemoryDisk>>> {
    match disk_of(alloc, bytes) {
        Ok(disk) => loaded(alloc, FuseDisk::new(disk, calls)),
        Err(_) => None,
    }
}

/// Whether a held artifact is `abc`.
fn has_content(repo: &mut Repo<MemoryDisk>, name: Name) -> bool {
    match repo.content(name) {
        Ok(text) => text.bytes() == b"abc".as_slice(),
        Err(_) => false,
    }
}

/// Whether one name alone is held, by the record at the second place.
fn is_alone(repo: &Repo<MemoryDisk>) -> bool {
    match repo.held(0) {
        Ok(names) => match names.items() {
            [only] => only.place == 2,
            _ => false,
        },
        Err(_) => false,
    }
}

/// Whether the repository holds the artifact `abc` alone, as a public one.
fn holds_abc(repo: &mut Repo<MemoryDisk>) -> bool {
    let name = Name::of(b"abc");
    let is_held = has_content(repo, name) & is_alone(repo);
    let is_public = repo.state(name) == BlobState::Public { size: 3 };
    let is_found = repo.find(b"a99") == Found::One(name);
    let is_fresh = (repo.stored() == 0) & repo.stopped().is_none();
    is_held & is_public & is_found & is_fresh
}

/// Whether a name is announced once, and a held one never.
fn announces(repo: &mut Repo<MemoryDisk>) -> bool {
    let held = matches!(repo.announce(Name::of(b"abc")), Ok(Known::Held));
    let first = matches!(repo.announce(Name::of(b"def")), Ok(Known::New));
    let again = matches!(repo.announce(Name::of(b"def")), Ok(Known::Again));
    held & first & again
}

/// Whether a repository that was just loaded shows what it holds, and commits.
fn looks_right(repo: &mut Repo<MemoryDisk>) -> bool {
    let holds = holds_abc(repo);
    let announces = announces(repo);
    let commits = matches!(repo.commit(), Ok(2));
    holds & announces & commits & holds_abc(repo)
}

/// Whether it looks so when it is loaded, and again when it is closed and loaded anew.
fn looks_right_twice(alloc: Global) -> bool {
    let Some(mut repo) = opened(alloc, ONE_BLOB) else {
        return false;
    };
    let first = looks_right(&mut repo);
    let Some(mut again) = loaded(alloc, repo.close()) else {
        return false;
    };
    let second = looks_right(&mut again);
    drop(again.close());
    first & second
}

/// A repository that is closed loads again as it was, without the names that were announced.
#[test]
fn loads_again(rt: HostRuntime) -> Result<(), Fail> {
    assert!(rt; looks_right_twice(rt.alloc()));
    Ok(())
}
