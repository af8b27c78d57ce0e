//! Doors over a listening socket.
ghost use Rattle.std.specs.Prelude.{◌≡◌, ◌≤◌, ◌<◌, true, false, length, IsErr, IfOk, OnOk, OnErr, None};
ghost use Rattle.std.specs.Io.{ReadsAtMost, WritesAtMost};
ghost use Rattle.fsl_order.specs.Causes.{HasCause};
ghost use Rattle.fsl_outside.specs.Accepts.{AcceptLists, AcceptCounts};
ghost use Rattle.fsl_outside.specs.Memory.{next};
ghost use Rattle.fsl_outside.specs.Sockets.{NeverOpens, door_state};

use super::link::{Accepted, Door, Link};
use super::outside::Failed;
use super::timed::Timed;
use std::alloc::Global;
use std::io;
use std::io::ErrorKind;
use std::marker::Model;
use std::net::{Net, OpenListener};
use std::sync::Arc;
use std::time::Clock;

/// A door over a listening socket, which it may share with others, or a door whose every call fails. It records no bytes. A
/// connection has 60 seconds before its first write and 60 seconds from there on. In each part it has one second more for each
/// megabyte (2^20 bytes) that moved. A read or a write beyond that is a failed call, as is one that waits so long.
#[derive(Drop)]
pub struct TcpDoor<R: Net + Clock> {
    entrance: Option<Entrance<R>>,
    stream: Option<Timed<R::Stream>>,
    faults: u64,
    accept_faults: u64,
}

/// The place at which connections come in.
#[derive(Drop)]
struct Entrance<R: Net + Clock> {
    rt: R,
    listener: Arc<R::Listener, Global>,
}

impl<R: Net + Clock> Entrance<R> {
    /// Takes the next connection, or returns `None` if the socket gives no more. It skips a connection that broke off before it
    /// was taken, or that can't be timed: a peer must not end the service for others. Between two of them it waits, and a fault
    /// that stays ends it.
    fn next(&self) -> Option<Timed<R::Stream>> {
        for _ in 0..PASSED_OVER {
            match self.listener.accept() {
                Ok((stream, _)) => {
                    if let Ok(timed) = Timed::begin(&self.rt, stream) {
                        return Some(timed);
                    }
                }
                Err(fault) => {
                    if !is_of_connection(&fault) {
                        return None;
                    }
                }
            }
        }
        None
    }
}

/// The most connections that one `accept` passes over before it fails.
const PASSED_OVER: u32 = 1 << 20;

/// Protocol errors of the system's `accept` that have no kind of their own, by Linux's numbers.
const NOT_ON_NETWORK: i32 = 64;

const PROTOCOL: i32 = 71;

const NO_PROTOCOL_OPTION: i32 = 92;

const NOT_SUPPORTED: i32 = 95;

const HOST_DOWN: i32 = 112;

/// Returns whether a fault of the system's `accept` belongs to the connection that would have come. Linux passes on the network's
/// report of it. All others are faults of the listening socket.
fn is_of_connection(fault: &io::Error) -> bool {
    match fault.kind() {
        ErrorKind::Interrupted
        | ErrorKind::ConnectionAborted
        | ErrorKind::ConnectionReset
        | ErrorKind::NetworkDown
        | ErrorKind::NetworkUnreachable
        | ErrorKind::HostUnreachable => true,
        _ => has_protocol_number(fault),
    }
}

/// Returns whether the fault is one of the protocol errors above.
fn has_protocol_number(fault: &io::Error) -> bool {
    match fault.raw_os_error() {
        Some(code) => {
            code == NOT_ON_NETWORK
                || code == PROTOCOL
                || code == NO_PROTOCOL_OPTION
                || code == NOT_SUPPORTED
                || code == HOST_DOWN
        }
        None => false,
    }
}

impl<R: Net + Clock> Model for TcpDoor<R> {
    ghost use Rattle.std.specs.Prelude.{is_some};
    ghost use Rattle.fsl_outside.specs.Sockets.{Doorway};

    ghost Value = { Doorway };

    ghost view = { λ d. record { serves = is_some d.entrance; present = is_some d.stream; faults = d.faults; accept_faults = d.accept_faults } };
}

impl<R: Net + Clock> TcpDoor<R> {
    /// Returns a door that takes the connections of this socket, and has taken none.
    pub fn over(rt: R, listener: Arc<R::Listener, Global>) -> TcpDoor<R>
        ensures { result ≡ record { serves = true; present = false; faults = 0; accept_faults = 0 } }
    {
        TcpDoor {
            entrance: Some(Entrance { rt, listener }),
            stream: None,
            faults: 0,
            accept_faults: 0,
        }
    }

    /// Returns a door whose every call fails, as for an address at which nothing can listen.
    pub fn none() -> TcpDoor<R>
        ensures { result ≡ record { serves = false; present = false; faults = 0; accept_faults = 0 } }
    {
        TcpDoor {
            entrance: None,
            stream: None,
            faults: 0,
            accept_faults: 0,
        }
    }

    /// Counts a read or a write that failed.
    fn fail(&mut self) -> Failed
        ensures counted { self.new ≡ record self.old { faults = next self.old.faults } }
        ensures later { self.old.faults ≤ self.new.faults }
    {
        self.faults = self.faults.saturating_add(1);
        Failed
    }

    /// Takes the next connection, or returns `None` if none could be taken.
    fn next(&self) -> Option<Timed<R::Stream>>
        ensures { self.now.serves ≡ false → result ≡ None }
    {
        match &self.entrance {
            Some(entrance) => entrance.next(),
            None => None,
        }
    }
}

impl<R: Net + Clock> Link for TcpDoor<R> {
    ghost use Rattle.fsl_outside.specs.Sockets.{door_state};

    ghost state = { λ d. door_state d };

    fn faults(&self) -> u64 {
        self.faults
    }

    fn read(&mut self, into: &mut [u8]) -> Result<usize, Failed>
        ensures bound { ReadsAtMost result into.new }
        ensures cause { HasCause self.old.faults self.new.faults result }
        ensures counted { OnErr result (self.new.faults ≡ next self.old.faults) }
        ensures only { self.new ≡ record self.old { faults = self.new.faults } }
        ensures none { self.old.present ≡ false → IsErr result }
    {
        if let (Some(entrance), Some(stream)) = (&self.entrance, &mut self.stream) {
            if let Ok(count) = stream.read(&entrance.rt, into) {
                return Ok(count);
            }
        }
        Err(self.fail())
    }

    fn write(&mut self, piece: &[u8]) -> Result<usize, Failed>
        ensures bound { WritesAtMost result piece.now }
        ensures some { IfOk result (λ n. 0 < length piece.now → 0 < n) }
        ensures cause { HasCause self.old.faults self.new.faults result }
        ensures counted { OnErr result (self.new.faults ≡ next self.old.faults) }
        ensures only { self.new ≡ record self.old { faults = self.new.faults } }
        ensures none { self.old.present ≡ false → IsErr result }
    {
        if let (Some(entrance), Some(stream)) = (&self.entrance, &mut self.stream) {
            if let Ok(count) = stream.write(&entrance.rt, piece) {
                return Ok(count);
            }
        }
        Err(self.fail())
    }
}

impl<R: Net + Clock> Door for TcpDoor<R> {
    fn accept_faults(&self) -> u64 {
        self.accept_faults
    }

    fn closings(&self) -> u64 {
        0
    }

    /// Drops the present connection, so that its peer waits for nothing more, and then waits for the next one.
    fn accept(&mut self) -> Result<Accepted, Failed>
        ensures lists { IfOk result (AcceptLists (door_state self.old) (door_state self.new)) }
        ensures counts { AcceptCounts result (door_state self.old).standing (door_state self.new).standing }
        ensures none { NeverOpens self.old self.new result }
        ensures there { OnOk result (self.new.present ≡ true) }
        ensures gone { OnErr result (self.new.present ≡ false) }
        ensures stays { self.new.serves ≡ self.old.serves }
        ensures counted { OnErr result (self.new.accept_faults ≡ next self.old.accept_faults) }
        ensures same { self.new.faults ≡ self.old.faults }
    {
        self.stream = None;
        self.stream = self.next();
        if self.stream.is_some() {
            return Ok(Accepted::Connection);
        }
        self.accept_faults = self.accept_faults.saturating_add(1);
        Err(Failed)
    }

    /// Drops the present connection, so that its peer sees the end. Without one, nothing happens.
    fn leave(&mut self)
        ensures same { door_state self.new ≡ door_state self.old }
        ensures gone { self.new ≡ record self.old { present = false } }
    {
        self.stream = None;
    }
}
