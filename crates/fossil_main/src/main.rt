//! Makes the real objects, and hands them to `fossil::run` and `fossil::serve`.
#![tactic(auto)]

mod crews;
mod folder;
mod lock;
mod open;
mod sockets;
mod standard;

use fossil::{NO_MEMORY, run};
use fsl_disk::{Disk, FileDisk};
use fsl_outside::{Dial, Source, StdClock, StdSink, StdSource, TcpDial};
use fsl_watch::{LoggedDial, WatchedDisk, WatchedSource, Whose};
use fsl_words::{Command, Words, WordsFault, read};
use open::{Disks, dial, listen, log_of, open, open_served, open_users, tell_ended};
use sockets::{Staff, serve_at};
use standard::hold;
use std::alloc::Global;
use std::env::Args;
use std::io;
use std::io::{ErrorKind, IsTerminal, Stderr};
use std::process::ExitCode;

/// Runs a command over the real input, the real output, its files, its dial and the system's clock, and gives the status.
fn over_file(rt: &HostRuntime, words: &[String], parsed: &Words) -> u8 {
    match dial(rt, &parsed.command) {
        Some(dial) => {
            let disks = open(rt, parsed);
            if rt.stderr().is_terminal() {
                over_watched(rt, words, disks, dial)
            } else {
                over_plain(rt, words, disks, dial)
            }
        }
        None => NO_MEMORY,
    }
}

/// The same, over these disks and this dial.
fn over_plain(rt: &HostRuntime, words: &[String], disks: Disks, dial: TcpDial<HostRuntime>) -> u8 {
    let Disks { own, peer } = disks;
    let mut dial = dial;
    let mut input = StdSource::new(rt.stdin());
    let status = over(rt, words, &mut input, own, peer, &mut dial);
    drop(dial);
    status
}

/// The same, and how far it is goes to standard error.
fn over_watched(
    rt: &HostRuntime,
    words: &[String],
    disks: Disks,
    dial: TcpDial<HostRuntime>,
) -> u8 {
    let alloc = rt.alloc();
    let Disks { own, peer } = disks;
    let own = WatchedDisk::new(alloc, own, Whose::Own, StdSink::new(rt.stderr()), rt);
    let peer = WatchedDisk::new(alloc, peer, Whose::Peer, StdSink::new(rt.stderr()), rt);
    let mut dial = LoggedDial::new(alloc, dial, StdSink::new(rt.stderr()), rt);
    let mut input = WatchedSource::new(alloc, StdSource::new(rt.stdin()), told_of_input(rt), rt);
    let status = over(rt, words, &mut input, own, peer, &mut dial);
    dial.end();
    drop(dial);
    status
}

/// Where it goes how much of the input was read: nowhere where somebody types it.
fn told_of_input(rt: &HostRuntime) -> StdSink<Stderr> {
    if rt.stdin().is_terminal() {
        StdSink::none()
    } else {
        StdSink::new(rt.stderr())
    }
}

/// Runs words over this input, these disks and this dial, the real output and the system's clock.
fn over<S: Source, D: Disk + Drop, P: Disk + Drop, N: Dial>(
    rt: &HostRuntime,
    words: &[String],
    input: &mut S,
    own: D,
    peer: P,
    dial: &mut N,
) -> u8 {
    let mut out = StdSink::new(io::writer(rt));
    let mut clock = StdClock::new(rt);
    run(
        rt.alloc(),
        words,
        input,
        &mut out,
        own,
        peer,
        dial,
        &mut clock,
    )
    .status
}

/// Runs words outside the grammar, which get no input, no file and no dial.
fn over_nothing(rt: &HostRuntime, words: &[String]) -> u8 {
    let mut input: StdSource<io::Empty> = StdSource::none();
    let mut dial: TcpDial<HostRuntime> = TcpDial::none();
    over(
        rt,
        words,
        &mut input,
        FileDisk::none(),
        FileDisk::none(),
        &mut dial,
    )
}

/// The words behind the program's name, or none where there is no memory for them. A word that isn't UTF-8 is outside the grammar, as no
/// words are.
fn given_words(rt: &HostRuntime) -> Option<Vec<String>> {
    match std::env::args(rt) {
        Ok(args) => behind_name(rt.alloc(), args),
        Err(fault) if fault.kind() == ErrorKind::OutOfMemory => None,
        Err(_) => Some(Vec::new(rt.alloc())),
    }
}

/// The words behind the first one. The loop goes to its end in any case: a way out of it would be dear to prove.
fn behind_name(alloc: Global, args: Args<Global>) -> Option<Vec<String>> {
    let mut words = Vec::new(alloc);
    let mut are_kept = true;
    for word in args.skip(1) {
        are_kept &= words.push(word).is_ok();
    }
    if are_kept { Some(words) } else { None }
}

fn main(rt: HostRuntime) -> ExitCode {
    // first of all, before a file or a socket is opened
    let standard = hold(&rt);
    let Some(words) = given_words(&rt) else {
        return ExitCode::from(NO_MEMORY);
    };
    let words = words.as_slice();
    let status = match read(rt.alloc(), words) {
        Ok(parsed) => {
            let status = match &parsed.command {
                Command::Serve {
                    address,
                    users,
                    workers,
                    ..
                } => {
                    let mut users = open_users(&rt, users);
                    let disk = open_served(&rt, &parsed);
                    let listener = listen(&rt, address);
                    let has_listened = listener.is_some();
                    let staff = Staff {
                        listener,
                        workers: *workers,
                        log: log_of(&rt),
                    };
                    let mut out = StdSink::new(io::writer(&rt));
                    let status = serve_at(
                        &rt,
                        rt.alloc(),
                        words,
                        &mut users,
                        disk,
                        staff,
                        &mut out,
                    );
                    tell_ended(&rt, has_listened);
                    status
                }
                _ => over_file(&rt, words, &parsed),
            };
            drop(parsed);
            status
        }
        Err(WordsFault::Usage) => over_nothing(&rt, words),
        Err(WordsFault::Memory) => NO_MEMORY,
    };
    drop(standard);
    ExitCode::from(status)
}
