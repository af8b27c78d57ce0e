ghost use Rattle.std.specs.Prelude.{◌≡◌, ◌<◌, length, IfOk};
ghost use Rattle.std.specs.Io.{ReadsAtMost, WritesAtMost};
ghost use Rattle.std.specs.Io.KnownBytes.{ReadConsumes, WriteAppends};
ghost use Rattle.fsl_order.specs.Causes.{HasCause};
ghost use Rattle.fsl_outside.specs.Streams.{SourceState, SinkState};

/// The answer of a call that failed.
#[derive(Clone, Copy, Debug, PartialEq, Eq)]
pub struct Failed;

/// Bytes that come in.
pub trait Source {
    /// The bytes that reads will give, and the faults.
    ghost state: { Self → SourceState };

    /// Returns how many calls failed, up to the last value of `u64`. It never falls.
    fn faults(&self) -> u64
        ensures { result ≡ (state self.now).faults };

    /// Moves bytes to the front of `into`, and returns how many. If `into` isn't empty, 0 means the end. A call that failed moves
    /// nothing.
    fn read(&mut self, into: &mut [u8]) -> Result<usize, Failed>
        ensures bound { ReadsAtMost result into.new }
        ensures bytes { ReadConsumes (state self.old).left (state self.new).left result into.new }
        ensures cause { HasCause (state self.old).faults (state self.new).faults result };
}

/// Bytes that go out.
pub trait Sink {
    /// The bytes that were taken, and the faults.
    ghost state: { Self → SinkState };

    /// Returns how many calls failed, up to the last value of `u64`. It never falls.
    fn faults(&self) -> u64
        ensures { result ≡ (state self.now).faults };

    /// Takes bytes from the front of the piece, and returns how many: at least one if the piece isn't empty. A call that failed
    /// takes nothing.
    fn write(&mut self, piece: &[u8]) -> Result<usize, Failed>
        ensures bound { WritesAtMost result piece.now }
        ensures some { IfOk result (λ n. 0 < length piece.now → 0 < n) }
        ensures bytes { WriteAppends (state self.old).taken (state self.new).taken result piece.now }
        ensures cause { HasCause (state self.old).faults (state self.new).faults result };
}
