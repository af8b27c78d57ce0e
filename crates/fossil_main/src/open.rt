//! Opens what the words name.
use crate::folder::has_name_on_disk;
use crate::lock::{Opened, alone};
use fsl_disk::{EitherDisk, FileDisk, FrontDisk, SharedFile};
use fsl_journal::front_of;
use fsl_outside::{StdSource, TcpDial};
use fsl_text::Text;
use fsl_words::{Command, Unversioned, Words};
use std::alloc::{AllocError, Global};
use std::env::VarError;
use std::fs::{File, OpenOptions};
use std::io::Stderr;
use std::net::TcpListener;
use std::{fs, str};

/// What standard error says where a file system has no locks.
const UNGUARDED: &str =
    "fossil: this file system has no locks, so nothing keeps another process from the file meanwhile";

/// A disk over a file that this process has alone, or over the front of one that another process may write to.
pub type AnyDisk = EitherDisk<FileDisk, FrontDisk<SharedFile>>;

/// The disks of a command: that of its file, and that of the peer's file.
pub struct Disks {
    pub own: AnyDisk,
    pub peer: AnyDisk,
}

/// A word as the text that it was on the command line. Each word is UTF-8; one that weren't would name nothing.
fn text_of(word: &Text) -> Option<&str> {
    str::from_utf8(word.bytes()).ok()
}

/// Opens the files of a command, and gives their disks. Each call of the disk of a file that can't be opened fails.
pub fn open(rt: &HostRuntime, words: &Words) -> Disks {
    let (own, is_own_unguarded) = if only_reads(&words.command) {
        (open_beside(rt, &words.repository), false)
    } else {
        under_lock(open_own(rt, words))
    };
    let (peer, is_peer_unguarded) = open_peer(rt, &words.command);
    tell_unguarded(rt, is_own_unguarded || is_peer_unguarded);
    Disks { own, peer }
}

/// The disk of a file that this process has alone, and whether nothing keeps other processes from it.
fn under_lock(opened: Opened) -> (AnyDisk, bool) {
    let Opened { disk, is_unguarded } = opened;
    (EitherDisk::One(disk), is_unguarded)
}

/// Whether a command only reads the repository's file, which another process may write to meanwhile.
fn only_reads(command: &Command) -> bool {
    matches!(
        command,
        Command::Ask(_)
            | Command::Export { .. }
            | Command::Verify { .. }
            | Command::Push { .. }
            | Command::Unversioned(Unversioned::List | Unversioned::Cat { .. })
    )
}

/// The disk of the front of a file that is only read, beside whoever writes to it. Its calls fail where the file can't be opened
/// or read, and for what is no regular file.
fn open_beside(rt: &HostRuntime, word: &Text) -> AnyDisk {
    match text_of(word) {
        Some(path) if is_regular(rt, path) => match File::open(rt, path) {
            Ok(file) => beside(SharedFile::over(file)),
            Err(_) => EitherDisk::One(FileDisk::none()),
        },
        _ => EitherDisk::One(FileDisk::none()),
    }
}

/// Whether a regular file is there. To open a pipe for reading alone would wait until somebody writes to it.
fn is_regular(rt: &HostRuntime, path: &str) -> bool {
    match fs::metadata(rt, path) {
        Ok(found) => found.is_file(),
        Err(_) => false,
    }
}

/// The disk of the front of a file.
fn beside(file: SharedFile) -> AnyDisk {
    let mut file = file;
    match front_of(&mut file) {
        Ok(front) => EitherDisk::Other(FrontDisk::over(file, front)),
        Err(_) => {
            drop(file);
            EitherDisk::One(FileDisk::none())
        }
    }
}

/// Opens the file of a serve, and gives its disk. Each call of it fails where the file can't be opened.
pub fn open_served(rt: &HostRuntime, words: &Words) -> FileDisk {
    let Opened { disk, is_unguarded } = open_own(rt, words);
    tell_unguarded(rt, is_unguarded);
    disk
}

/// Says once on standard error, where a file is open without a lock, that nothing keeps other processes from it. What can't be said isn't.
fn tell_unguarded(rt: &HostRuntime, is_unguarded: bool) {
    if is_unguarded {
        drop(eprintln!(rt; "{UNGUARDED}"));
    }
}

/// The repository's file, which is made for `init`, `clone` and `uv-init` alone where it is missing. The disk's calls fail
/// where the file can't be opened or another process holds it, and for `ingest` and `gen`, which open none.
fn open_own(rt: &HostRuntime, words: &Words) -> Opened {
    let Some(path) = text_of(&words.repository) else {
        return Opened::none();
    };
    match &words.command {
        Command::Ingest | Command::Gen { .. } => Opened::none(),
        Command::Init { .. }
        | Command::Clone { .. }
        | Command::Unversioned(Unversioned::Init { .. }) => open_made(rt, path),
        Command::Put
        | Command::Shun { .. }
        | Command::Unshun { .. }
        | Command::Ask(_)
        | Command::Checkin { .. }
        | Command::Export { .. }
        | Command::Verify { .. }
        | Command::Serve { .. }
        | Command::Pull { .. }
        | Command::Push { .. }
        | Command::PullLocal { .. }
        | Command::Scrub { .. }
        | Command::Unversioned(_) => open_present(rt, path),
    }
}

/// A file that is there, for reading and writing.
fn open_present(rt: &HostRuntime, path: &str) -> Opened {
    match OpenOptions::new().read(true).write(true).open(rt, path) {
        Ok(file) => alone(file),
        Err(_) => Opened::none(),
    }
}

/// A file for reading and writing, which is made where it is missing. Its name is on the disk before anything is written to it; where it
/// can't be brought there, the disk's calls fail.
fn open_made(rt: &HostRuntime, path: &str) -> Opened {
    let mut options = OpenOptions::new();
    options.read(true).write(true).create(true);
    match options.open(rt, path) {
        Ok(file) => {
            if has_name_on_disk(rt, &file, path) {
                alone(file)
            } else {
                drop(file);
                Opened::none()
            }
        }
        Err(_) => Opened::none(),
    }
}

/// What a command does with a peer's file.
#[derive(Clone, Copy)]
enum Peer {
    /// It only reads it.
    Read,
    /// It writes to it.
    Written,
    /// It makes it where it is missing, and writes to it.
    Made,
}

/// What a command does with the peer's file, and the word that names it; none for one without a peer's file.
fn peer_of(command: &Command) -> Option<(Peer, &Text)> {
    match command {
        Command::PullLocal { peer } => Some((Peer::Read, peer)),
        Command::Unversioned(Unversioned::Sync { peer }) => Some((Peer::Written, peer)),
        Command::Scrub { peer } => Some((Peer::Made, peer)),
        _ => None,
    }
}

/// The peer's file of a `pull-local`, a `uv-sync` or a `scrub`; for every other command the disk's calls fail.
fn open_peer(rt: &HostRuntime, command: &Command) -> (AnyDisk, bool) {
    match peer_of(command) {
        Some((Peer::Read, word)) => (open_beside(rt, word), false),
        Some((peer, word)) => match text_of(word) {
            Some(path) => under_lock(open_peer_at(rt, peer, path)),
            None => under_lock(Opened::none()),
        },
        None => under_lock(Opened::none()),
    }
}

/// A peer's file for writing, which `scrub` makes where it is missing. The disk's calls fail where the file can't be opened, and
/// where another process holds it or this one does as its own.
fn open_peer_at(rt: &HostRuntime, peer: Peer, path: &str) -> Opened {
    if matches!(peer, Peer::Made) {
        open_made(rt, path)
    } else {
        open_present(rt, path)
    }
}

/// The address that a command dials; none for one that doesn't.
fn dialled(command: &Command) -> Option<&Text> {
    match command {
        Command::Pull { address, .. }
        | Command::Push { address, .. }
        | Command::Clone { address, .. } => Some(address),
        _ => None,
    }
}

/// Makes the dial of a pull, a push or a clone; each call of it fails for every other command. `None` where the program
/// is out of memory.
pub fn dial(rt: &HostRuntime, command: &Command) -> Option<TcpDial<HostRuntime>> {
    match dialled(command) {
        Some(word) => match text_of(word) {
            Some(address) => dial_to(rt, address, rt.alloc()).ok(),
            None => Some(TcpDial::none()),
        },
        None => Some(TcpDial::none()),
    }
}

/// A dial to an address.
fn dial_to(
    rt: &HostRuntime,
    address: &str,
    alloc: Global,
) -> Result<TcpDial<HostRuntime>, AllocError> {
    Ok(TcpDial::new(rt.clone()?, address.to_string(alloc)?))
}

/// Opens the users file of a serve. Each read fails where it can't be opened.
pub fn open_users(rt: &HostRuntime, users: &Text) -> StdSource<File> {
    match text_of(users) {
        Some(path) => match File::open(rt, path) {
            Ok(file) => StdSource::new(file),
            Err(_) => StdSource::none(),
        },
        None => StdSource::none(),
    }
}

/// Listens at the address of a serve, and says so on standard error. `None` where nothing can listen there.
pub fn listen(rt: &HostRuntime, address: &Text) -> Option<TcpListener> {
    let address = text_of(address)?;
    let listener = TcpListener::bind(rt, address).ok()?;
    tell_listening(rt, address, &listener);
    Some(listener)
}

/// Says on standard error where a socket listens: its own address, whose port the system chose where 0 was asked for, or else the one
/// that was asked for. What can't be said isn't.
fn tell_listening(rt: &HostRuntime, asked: &str, listener: &TcpListener) {
    match listener.local_addr() {
        Ok(address) => drop(eprintln!(rt; "fossil: listening at {address}")),
        Err(_) => drop(eprintln!(rt; "fossil: listening at {asked}")),
    }
}

/// Says on standard error that a server which listened has ended.
pub fn tell_ended(rt: &HostRuntime, has_listened: bool) {
    if has_listened {
        drop(eprintln!(rt; "fossil: the server has ended"));
    }
}

/// Gives standard error for the lines of a server's connections, where the variable FOSSIL_LOG is set and neither empty
/// nor `0`, and else nothing.
pub fn log_of(rt: &HostRuntime) -> Option<Stderr> {
    match std::env::var(rt, "FOSSIL_LOG") {
        Ok(value) if value.is_empty() || value.as_str() == "0" => None,
        Ok(_) | Err(VarError::NotUnicode) => Some(rt.stderr()),
        Err(_) => None,
    }
}
