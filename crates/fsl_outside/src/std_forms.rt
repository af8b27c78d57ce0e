//! Adapters over std's readers and writers.
ghost use Rattle.std.specs.Prelude.{◌≡◌, ◌<◌, None, Some, length, IfOk, option_and_then};
ghost use Rattle.std.specs.Io.{ReadsAtMost, WritesAtMost};
ghost use Rattle.std.specs.Io.KnownBytes.{ReadConsumes, WriteAppends};
ghost use Rattle.fsl_order.specs.Causes.{HasCause};
ghost use Rattle.fsl_outside.specs.Adapted.{NeverServes};

use super::outside::{Failed, Sink, Source};
use std::io;
use std::io::{ErrorKind, Read, Write};
use std::marker::Model;

/// A source over a reader of std, or a source whose every call fails.
#[derive(Drop)]
pub struct StdSource<R: Read> {
    inner: Option<R>,
    faults: u64,
}

impl<R: Read> Model for StdSource<R> {
    ghost use Rattle.fsl_outside.specs.Adapted.{Adapted};

    ghost Value = { Adapted R };

    ghost view = { λ s. record { inner = s.inner; faults = s.faults } };
}

impl<R: Read> StdSource<R> {
    /// Returns a source that reads from `inner`.
    pub fn new(inner: R) -> StdSource<R>
        ensures { result ≡ record { inner = Some inner; faults = 0 } }
    {
        StdSource {
            inner: Some(inner),
            faults: 0,
        }
    }

    /// Returns a source whose every call fails, as for a file that couldn't be opened.
    pub fn none() -> StdSource<R>
        ensures { result ≡ record { inner = None; faults = 0 } }
    {
        StdSource {
            inner: None,
            faults: 0,
        }
    }
}

impl<R: Read> Source for StdSource<R> {
    ghost state = { λ s. record { left = option_and_then R.remaining s.inner; faults = s.faults } };

    fn faults(&self) -> u64 {
        self.faults
    }

    fn read(&mut self, into: &mut [u8]) -> Result<usize, Failed>
        ensures bound { ReadsAtMost result into.new }
        ensures bytes { ReadConsumes (option_and_then R.remaining self.old.inner)
            (option_and_then R.remaining self.new.inner) result into.new }
        ensures cause { HasCause self.old.faults self.new.faults result }
        ensures none { NeverServes self.old self.new result }
    {
        if let Some(inner) = &mut self.inner {
            if let Ok(count) = read_on(inner, into) {
                return Ok(count);
            }
        }
        self.faults = self.faults.saturating_add(1);
        Err(Failed)
    }
}

// Reads, again after each interruption.
fn read_on<R: Read>(inner: &mut R, into: &mut [u8]) -> io::Result<usize>
    ensures bound { ReadsAtMost result into.new }
    ensures bytes { ReadConsumes (R.remaining inner.old) (R.remaining inner.new) result into.new }
{
    for _ in 0..u64::MAX {
        match inner.read(into) {
            Ok(count) => return Ok(count),
            Err(fault) => {
                if fault.kind() != ErrorKind::Interrupted {
                    return Err(fault);
                }
            }
        }
    }
    Err(io::Error::from(ErrorKind::Interrupted))
}

/// A sink over a writer of std, or a sink whose every call fails. A write that takes no byte of a piece with bytes has failed.
#[derive(Drop)]
pub struct StdSink<W: Write> {
    inner: Option<W>,
    faults: u64,
}

impl<W: Write> Model for StdSink<W> {
    ghost use Rattle.fsl_outside.specs.Adapted.{Adapted};

    ghost Value = { Adapted W };

    ghost view = { λ s. record { inner = s.inner; faults = s.faults } };
}

impl<W: Write> StdSink<W> {
    /// Returns a sink that writes to `inner`. `inner` has to pass everything on at once.
    pub fn new(inner: W) -> StdSink<W>
        ensures { result ≡ record { inner = Some inner; faults = 0 } }
    {
        StdSink {
            inner: Some(inner),
            faults: 0,
        }
    }

    /// Returns a sink whose every call fails.
    pub fn none() -> StdSink<W>
        ensures { result ≡ record { inner = None; faults = 0 } }
    {
        StdSink {
            inner: None,
            faults: 0,
        }
    }
}

impl<W: Write> Sink for StdSink<W> {
    ghost state = { λ s. record { taken = option_and_then W.contents s.inner; faults = s.faults } };

    fn faults(&self) -> u64 {
        self.faults
    }

    fn write(&mut self, piece: &[u8]) -> Result<usize, Failed>
        ensures bound { WritesAtMost result piece.now }
        ensures some { IfOk result (λ n. 0 < length piece.now → 0 < n) }
        ensures bytes { WriteAppends (option_and_then W.contents self.old.inner)
            (option_and_then W.contents self.new.inner) result piece.now }
        ensures cause { HasCause self.old.faults self.new.faults result }
        ensures none { NeverServes self.old self.new result }
    {
        if let Some(inner) = &mut self.inner {
            match write_on(inner, piece) {
                Ok(count) if 0 < count || piece.is_empty() => return Ok(count),
                _ => {}
            }
        }
        self.faults = self.faults.saturating_add(1);
        Err(Failed)
    }
}

// Writes, again after each interruption.
fn write_on<W: Write>(inner: &mut W, piece: &[u8]) -> io::Result<usize>
    ensures bound { WritesAtMost result piece.now }
    ensures bytes { WriteAppends (W.contents inner.old) (W.contents inner.new) result piece.now }
{
    for _ in 0..u64::MAX {
        match inner.write(piece) {
            Ok(count) => return Ok(count),
            Err(fault) => {
                if fault.kind() != ErrorKind::Interrupted {
                    return Err(fault);
                }
            }
        }
    }
    Err(io::Error::from(ErrorKind::Interrupted))
}
