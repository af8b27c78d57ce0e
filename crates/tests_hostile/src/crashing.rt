//! What is left of a repository by a crash, as one of the files that may be left.
use fsl_blobs::BlobState;
use fsl_disk::MemoryDisk;
use fsl_name::Name;
use fsl_repo::Repo;
use std::alloc::Global;
use tests_kit::loaded;

/// The version of the file that a repository begins with.
#[derive(Clone, Copy)]
pub enum Version {
    One,
    Two,
}

/// A file of version 1 with a Config alone: the project of forty digits `1` and the server of forty digits `2`.
const OLD: &[u8] =
    b"fossil-blobs-1\nO\0\0\0\0\0\0\0+C\x11\x11\x11\x11\x11\x11\x11\x11\x11\x11\x11\x11\x11\x11\x11\x11\x11\x11\x11\x11\x22\x22\x22\x22\x22\x22\x22\x22\x22\x22\x22\x22\x22\x22\x22\x22\x22\x22\x22\x22\0\0C";

/// The same of version 2.
const NEW: &[u8] =
    b"fossil-blobs-2\nO\0\0\0\0\0\0\0+C\x11\x11\x11\x11\x11\x11\x11\x11\x11\x11\x11\x11\x11\x11\x11\x11\x11\x11\x11\x11\x22\x22\x22\x22\x22\x22\x22\x22\x22\x22\x22\x22\x22\x22\x22\x22\x22\x22\x22\x22\0\0C";

/// The same with a group of three records: `abc`, the empty text, and a shun of the latter.
const ALL: &[u8] =
    b"fossil-blobs-2\nO\0\0\0\0\0\0\0+C\x11\x11\x11\x11\x11\x11\x11\x11\x11\x11\x11\x11\x11\x11\x11\x11\x11\x11\x11\x11\x22\x22\x22\x22\x22\x22\x22\x22\x22\x22\x22\x22\x22\x22\x22\x22\x22\x22\x22\x22\0\0O\0\0\0\0\0\0\0TB\0\xA9\x99>6G\x06\x81j\xBA>%qxP\xC2l\x9C\xD0\xD8\x9D\0\0\0\0\0\0\0\x03abcB\0\xDA9\xA3\xEE^kK\x0D2U\xBF\xEF\x95`\x18\x90\xAF\xD8\x07\x09\0\0\0\0\0\0\0\0S\xDA9\xA3\xEE^kK\x0D2U\xBF\xEF\x95`\x18\x90\xAF\xD8\x07\x09C";

/// The file that a repository of this version begins with.
pub fn file_of(version: Version) -> &'static [u8] {
    match version {
        Version::One => OLD,
        Version::Two => NEW,
    }
}

/// What a file that was opened stands for.
#[derive(Clone, Copy, PartialEq, Eq)]
pub enum Kind {
    /// Its Config alone.
    Config,
    /// This and all three records.
    All,
    /// Anything else, or it wasn't opened.
    Other,
}

/// Whether these are the header and the one group of a Config alone. A file that is carried over from version 1 has any byte in place of its
/// mark until this is stable.
fn is_config_group(version: Version, bytes: &[u8]) -> bool {
    let group = &NEW[..67];
    match version {
        Version::One => {
            bytes.len() == group.len()
                && bytes.starts_with(&group[..13])
                && bytes.ends_with(&group[14..])
        }
        Version::Two => bytes == group,
    }
}

/// Whether these are the bytes of a Config alone. Until its gate is open and this is stable, a group that is to follow leaves any other byte
/// in place of the gate.
fn is_config(version: Version, bytes: &[u8]) -> bool {
    match bytes.split_last() {
        Some((gate, front)) => *gate != b'O' && is_config_group(version, front),
        None => false,
    }
}

/// What a file stands for, by the states of `abc` and of the empty text, and by its bytes.
fn kind_by(version: Version, abc: BlobState, empty: BlobState, bytes: &[u8]) -> Kind {
    let has_all = abc == BlobState::Public { size: 3 } && empty == BlobState::Shunned;
    let has_none = abc == BlobState::Absent && empty == BlobState::Absent;
    if has_all && bytes == ALL {
        Kind::All
    } else if has_none && is_config(version, bytes) {
        Kind::Config
    } else {
        Kind::Other
    }
}

/// What a repository stands for, and its file behind the opening.
fn kind_of_open(version: Version, repo: Repo<MemoryDisk>) -> Kind {
    let abc = repo.state(Name::of(b"abc"));
    let empty = repo.state(Name::of(b""));
    let disk = repo.close();
    let kind = kind_by(version, abc, empty, disk.bytes());
    drop(disk);
    kind
}

/// What a disk stands for when it is opened.
fn kind_of(alloc: Global, version: Version, disk: MemoryDisk) -> Kind {
    match loaded(alloc, disk) {
        Some(repo) => kind_of_open(version, repo),
        None => Kind::Other,
    }
}

/// What a crash leaves, when it is opened.
pub fn kind_after(alloc: Global, version: Version, disk: &MemoryDisk, pick: u64) -> Kind {
    match disk.crash(alloc, pick) {
        Ok(image) => kind_of(alloc, version, image),
        Err(_) => Kind::Other,
    }
}
