//! Serves over real sockets.
ghost use Rattle.std.specs.Prelude.{map, string_bytes};
ghost use Rattle.fossil.specs.Served.{AreStaffed};

use crate::crews::{crews, logged};
use fossil::{NO_MEMORY, serve};
use fsl_disk::FileDisk;
use fsl_outside::{Sink, Source};
use std::alloc::Global;
use std::io::Stderr;
use std::net::{Net, TcpListener, TcpStream};
use std::sync::Wait;
use std::thread::Threads;
use std::time::Clock;

/// The means of a serve: the socket for its connections, if there is one, the number of workers, and where a line for
/// each connection goes, if anywhere.
#[derive(Drop)]
pub struct Staff {
    pub listener: Option<TcpListener>,
    pub workers: u64,
    pub log: Option<Stderr>,
}

/// Serves the repository of a disk as the words say, by the workers of a staff, and gives the status.
pub fn serve_at<
    S: Source,
    K: Sink,
    R: Net<Listener = TcpListener, Stream = TcpStream>
        + Clock
        + Threads
        + Wait
        + Send
        + Sync
        + Clone
        + Drop,
>(
    rt: &R,
    alloc: Global,
    words: &[String],
    users: &mut S,
    disk: FileDisk,
    staff: Staff,
    out: &mut K,
) -> u8
    requires { AreStaffed (map string_bytes words.now) staff.workers }
{
    let Staff {
        listener,
        workers,
        log,
    } = staff;
    match crews(rt, alloc, listener, workers) {
        Ok(crews) => match log {
            Some(err) => match logged(rt, alloc, err, crews) {
                Some(crews) => serve(rt, alloc, words, users, disk, crews, out).close().0,
                None => NO_MEMORY,
            },
            None => serve(rt, alloc, words, users, disk, crews, out).close().0,
        },
        Err(_) => NO_MEMORY,
    }
}
