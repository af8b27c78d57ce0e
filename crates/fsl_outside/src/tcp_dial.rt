//! Dials over sockets.
ghost use Rattle.std.specs.Prelude.{◌≡◌, ◌≤◌, ◌<◌, true, false, length, IsErr, IfOk, OnOk, OnErr, None};
ghost use Rattle.std.specs.Io.{ReadsAtMost, WritesAtMost};
ghost use Rattle.fsl_order.specs.Causes.{HasCause};
ghost use Rattle.fsl_outside.specs.Memory.{next};
ghost use Rattle.fsl_outside.specs.Sockets.{NeverDials};

use super::link::{Dial, Link};
use super::outside::Failed;
use super::timed::{GRACE_SECONDS, Timed};
use std::io;
use std::io::ErrorKind;
use std::marker::Model;
use std::net::{Net, SocketAddr, TcpStream, ToSocketAddrs};
use std::time::{Clock, Duration};

/// A dial over sockets to one address, or a dial whose every call fails. It records no bytes. Each address of the host is tried
/// for 60 seconds. The system decides how long it looks up the name. A connection has 60 seconds before its first write and 60
/// seconds from there on. In each part it has one second more for each megabyte (2^20 bytes) that moved. A read or a write beyond
/// that is a failed call, as is one that waits so long.
#[derive(Drop)]
pub struct TcpDial<R: Net + Clock> {
    peer: Option<Peer<R>>,
    stream: Option<Timed<R::Stream>>,
    faults: u64,
}

/// The place that connections go to.
#[derive(Drop)]
struct Peer<R: Net + Clock> {
    rt: R,
    address: String,
}

impl<R: Net + Clock> Peer<R> {
    /// Makes a new connection to the first of the addresses that takes one.
    fn connect(&self) -> io::Result<Timed<R::Stream>> {
        let mut last = io::Error::from(ErrorKind::NotFound);
        for address in self.address.as_str().to_socket_addrs(&self.rt)? {
            match self.connect_to(address) {
                Ok(stream) => return Ok(stream),
                Err(fault) => last = fault,
            }
        }
        Err(last)
    }

    /// Makes a new connection to one address.
    fn connect_to(&self, address: SocketAddr) -> io::Result<Timed<R::Stream>> {
        let stream = TcpStream::connect_timeout(
            &self.rt,
            &address,
            Duration::from_secs(GRACE_SECONDS),
        )?;
        Timed::begin(&self.rt, stream)
    }
}

impl<R: Net + Clock> Model for TcpDial<R> {
    ghost use Rattle.std.specs.Prelude.{is_some};
    ghost use Rattle.fsl_outside.specs.Sockets.{Dialled};

    ghost Value = { Dialled };

    ghost view = { λ d. record { serves = is_some d.peer; present = is_some d.stream; faults = d.faults } };
}

impl<R: Net + Clock> TcpDial<R> {
    /// Returns a dial that has begun no connection. The address is a host and a port with `:` between them.
    pub fn new(rt: R, address: String) -> TcpDial<R>
        ensures { result ≡ record { serves = true; present = false; faults = 0 } }
    {
        TcpDial {
            peer: Some(Peer { rt, address }),
            stream: None,
            faults: 0,
        }
    }

    /// Returns a dial whose every call fails, for a command that dials nobody.
    pub fn none() -> TcpDial<R>
        ensures { result ≡ record { serves = false; present = false; faults = 0 } }
    {
        TcpDial {
            peer: None,
            stream: None,
            faults: 0,
        }
    }

    /// Counts a call that failed.
    fn fail(&mut self) -> Failed
        ensures counted { self.new ≡ record self.old { faults = next self.old.faults } }
        ensures later { self.old.faults ≤ self.new.faults }
    {
        self.faults = self.faults.saturating_add(1);
        Failed
    }

    /// Makes a new connection, or returns `None` if it can't.
    fn next(&self) -> Option<Timed<R::Stream>>
        ensures { self.now.serves ≡ false → result ≡ None }
    {
        match &self.peer {
            Some(peer) => peer.connect().ok(),
            None => None,
        }
    }
}

impl<R: Net + Clock> Link for TcpDial<R> {
    ghost use Rattle.fsl_outside.specs.Sockets.{dialled_state};

    ghost state = { λ d. dialled_state d };

    fn faults(&self) -> u64 {
        self.faults
    }

    fn read(&mut self, into: &mut [u8]) -> Result<usize, Failed>
        ensures bound { ReadsAtMost result into.new }
        ensures cause { HasCause self.old.faults self.new.faults result }
        ensures counted { OnErr result (self.new.faults ≡ next self.old.faults) }
        ensures only { self.new ≡ record self.old { faults = self.new.faults } }
        ensures none { self.old.present ≡ false → IsErr result }
    {
        if let (Some(peer), Some(stream)) = (&self.peer, &mut self.stream) {
            if let Ok(count) = stream.read(&peer.rt, into) {
                return Ok(count);
            }
        }
        Err(self.fail())
    }

    fn write(&mut self, piece: &[u8]) -> Result<usize, Failed>
        ensures bound { WritesAtMost result piece.now }
        ensures some { IfOk result (λ n. 0 < length piece.now → 0 < n) }
        ensures cause { HasCause self.old.faults self.new.faults result }
        ensures counted { OnErr result (self.new.faults ≡ next self.old.faults) }
        ensures only { self.new ≡ record self.old { faults = self.new.faults } }
        ensures none { self.old.present ≡ false → IsErr result }
    {
        if let (Some(peer), Some(stream)) = (&self.peer, &mut self.stream) {
            if let Ok(count) = stream.write(&peer.rt, piece) {
                return Ok(count);
            }
        }
        Err(self.fail())
    }
}

impl<R: Net + Clock> Dial for TcpDial<R> {
    /// Drops the present connection, and begins a new one.
    fn connect(&mut self) -> Result<(), Failed>
        ensures none { NeverDials self.old self.new result }
        ensures there { OnOk result (self.new.present ≡ true) }
        ensures gone { OnErr result (self.new.present ≡ false) }
        ensures stays { self.new.serves ≡ self.old.serves }
        ensures counted { OnErr result (self.new.faults ≡ next self.old.faults) }
        ensures cause { HasCause self.old.faults self.new.faults result }
    {
        self.stream = None;
        self.stream = self.next();
        if self.stream.is_some() {
            return Ok(());
        }
        Err(self.fail())
    }
}
