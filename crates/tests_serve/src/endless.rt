//! A pull that never comes to its end, as its server announces another name each time.
ghost use Rattle.std.specs.Prelude.{◌≡◌, ◌≤◌, None};
ghost use Rattle.fsl_order.specs.Causes.{Rose};
ghost use Rattle.fsl_outside.specs.Memory.{next};

use crate::runs::{NEW_FILE, disk_of, end};
use fsl_outside::{Dial, Failed, Link, MemorySource, Source};
use std::alloc::{AllocError, Global};
use std::marker::Model;
use std::test::Fail;

const PULL: [&str; 3] = ["r", "pull", "127.0.0.1:1"];

/// A dial to a server that announces the number of the connection, as a name of forty digits, and takes whatever is asked.
#[derive(Drop)]
struct EndlessDial {
    alloc: Global,
    connections: u64,
    reply: Option<MemorySource>,
    faults: u64,
}

impl Model for EndlessDial {
    ghost use Rattle.std.specs.Prelude.{ℕ};

    ghost Value = { ℕ };

    ghost view = { λ d. d.faults };
}

/// The reply of a server that announces this number.
fn reply(alloc: Global, number: u64) -> Result<Vec<u8>, AllocError> {
    let text = format!(in alloc;
        "HTTP/1.1 200 OK\r\nContent-Length: 46\r\n\r\nigot {number:040}\n"
    )?;
    text.as_bytes().to_vec(alloc)
}

impl EndlessDial {
    fn new(alloc: Global) -> EndlessDial {
        EndlessDial {
            alloc,
            connections: 0,
            reply: None,
            faults: 0,
        }
    }

    /// Counts a call that failed.
    fn fail(&mut self) -> Failed
        ensures counted { self.new ≡ next self.old }
        ensures later { self.old ≤ self.new }
        ensures rose { Rose self.old self.new }
    {
        self.faults = self.faults.saturating_add(1);
        Failed
    }
}

impl Link for EndlessDial {
    ghost state = { λ d. record { present = None; standing = record { earlier = None; accept_faults = 0; closings = 0 }; faults = d } };

    fn faults(&self) -> u64 {
        self.faults
    }

    fn read(&mut self, into: &mut [u8]) -> Result<usize, Failed> {
        if let Some(reply) = &mut self.reply {
            if let Ok(count) = reply.read(into) {
                return Ok(count);
            }
        }
        Err(self.fail())
    }

    fn write(&mut self, piece: &[u8]) -> Result<usize, Failed> {
        Ok(piece.len())
    }
}

impl Dial for EndlessDial {
    fn connect(&mut self) -> Result<(), Failed> {
        self.connections = self.connections.saturating_add(1);
        match reply(self.alloc, self.connections) {
            Ok(bytes) => {
                self.reply = Some(MemorySource::new(bytes, Vec::new(self.alloc)));
                Ok(())
            }
            Err(_) => Err(self.fail()),
        }
    }
}

/// The status of a pull over such a dial, whether it prints that there are too many rounds, and how many connections it began.
fn pulled(alloc: Global) -> Result<(u8, bool, u64), AllocError> {
    let mut dial = EndlessDial::new(alloc);
    let disk = disk_of(alloc, NEW_FILE)?;
    let (status, printed) = end(alloc, &PULL, b"", disk, &mut dial)?;
    let is_told = printed.as_slice() == b"too many rounds\n".as_slice();
    Ok((status, is_told, dial.connections))
}

// It is given up behind 100,000 rounds, each with a connection of its own.
#[test]
fn pull_is_given_up(rt: HostRuntime) -> Result<(), Fail> {
    assert_eq!(rt; pulled(rt.alloc())?, (11, true, 100_000));
    Ok(())
}
