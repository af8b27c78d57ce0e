//! Connections over sockets that must be done within their time.
ghost use Rattle.std.specs.Prelude.{◌≡◌, ◌<◌, length, IfOk};
ghost use Rattle.std.specs.Io.{ReadsAtMost, WritesAtMost};

use std::io;
use std::io::{ErrorKind, Read, Write};
use std::net::OpenStream;
use std::time::{Clock, Duration, Instant};

/// The time that every connection has, in seconds: once until its first write, and once more from there on.
pub(crate) const GRACE_SECONDS: u64 = 60;

/// For each so many bytes that moved in that time, in either direction, a connection has a second more: a megabyte.
pub(crate) const BYTES_A_SECOND: u64 = 1 << 20;

/// A connection over a socket with a deadline. So neither a silent peer nor one that drips can hold it up for ever.
#[derive(Drop)]
pub(crate) struct Timed<S> {
    stream: S,
    begun: Instant,
    moved: u64,
    has_written: bool,
}

impl<S: Read + Write + OpenStream + Drop> Timed<S> {
    /// Returns a connection whose time begins now. It waits for no further bytes before it sends some.
    pub(crate) fn begin<C: Clock>(clock: &C, stream: S) -> io::Result<Timed<S>> {
        let begun = Instant::now(clock)?;
        stream.set_nodelay(true)?;
        Ok(Timed {
            stream,
            begun,
            moved: 0,
            has_written: false,
        })
    }

    /// Begins the time anew at the first write. The peer doesn't answer for the time between the last read and that write.
    fn begin_writing<C: Clock>(&mut self, clock: &C) -> io::Result<()> {
        if !self.has_written {
            self.begun = Instant::now(clock)?;
            self.moved = 0;
            self.has_written = true;
        }
        Ok(())
    }

    /// Returns the time that is left, or `TimedOut` if none is.
    fn left<C: Clock>(&self, clock: &C) -> io::Result<Duration> {
        let all = Duration::from_secs(GRACE_SECONDS + self.moved / BYTES_A_SECOND);
        match all.checked_sub(self.begun.elapsed(clock)?) {
            Some(left) if !left.is_zero() => Ok(left),
            _ => Err(io::Error::from(ErrorKind::TimedOut)),
        }
    }

    /// Counts bytes that moved.
    fn note(&mut self, count: usize) {
        self.moved = self.moved.saturating_add(count as u64);
    }

    /// Reads within the time that is left, again after each interruption.
    pub(crate) fn read<C: Clock>(&mut self, clock: &C, into: &mut [u8]) -> io::Result<usize>
        ensures bound { ReadsAtMost result into.new }
    {
        for _ in 0..u64::MAX {
            let left = self.left(clock)?;
            self.stream.set_read_timeout(Some(left))?;
            match self.stream.read(into) {
                Ok(count) => {
                    self.note(count);
                    return Ok(count);
                }
                Err(fault) => {
                    if fault.kind() != ErrorKind::Interrupted {
                        return Err(fault);
                    }
                }
            }
        }
        Err(io::Error::from(ErrorKind::Interrupted))
    }

    /// Writes within the time that is left, again after each interruption. A write that takes no byte of some is an error.
    pub(crate) fn write<C: Clock>(&mut self, clock: &C, piece: &[u8]) -> io::Result<usize>
        ensures bound { WritesAtMost result piece.now }
        ensures some { IfOk result (λ n. 0 < length piece.now → 0 < n) }
    {
        self.begin_writing(clock)?;
        for _ in 0..u64::MAX {
            let left = self.left(clock)?;
            self.stream.set_write_timeout(Some(left))?;
            match self.stream.write(piece) {
                Ok(0) if !piece.is_empty() => {
                    return Err(io::Error::from(ErrorKind::WriteZero));
                }
                Ok(count) => {
                    self.note(count);
                    return Ok(count);
                }
                Err(fault) => {
                    if fault.kind() != ErrorKind::Interrupted {
                        return Err(fault);
                    }
                }
            }
        }
        Err(io::Error::from(ErrorKind::Interrupted))
    }
}
