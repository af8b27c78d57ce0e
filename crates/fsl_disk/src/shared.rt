ghost use Rattle.std.specs.Prelude.{◌≡◌, ◌+◌, ◌^◌, ◌<◌, IfOk, OnOk, length};
ghost use Rattle.fsl_order.specs.Causes.{HasCause};
ghost use Rattle.fsl_disk.specs.Shared.{SharedState, ToldOf, Sees, IsLengthOf, AreOf, ReadCause, unshown};

use crate::file::{length_of, settle};
use fsl_outside::Failed;
use std::fs::File;
use std::os::unix::fs::FileExt;

/// A file that is read while another process may write to it. It has no call that writes. A call owes nothing of the bytes
/// at one moment: it may see each byte at another one.
///
/// Errors: each call answers `Failed` where it raised the count of faults, and a read also where the file ended before it.
/// A call that answers otherwise leaves the count.
pub trait Shared {
    /// Clauses see what the file holds at each moment, where that is told, the present moment, and how often a call failed.
    ghost state: { Self → SharedState };

    /// Returns the length in bytes, which is below 2^63.
    fn len(&mut self) -> Result<u64, Failed>
        ensures sees { Sees (state self.old) (state self.new) }
        ensures fits { IfOk result (λ len. len < 2 ^ 63) }
        ensures answer { IfOk result (λ len. ToldOf (state self.old) (λ held. IsLengthOf (state self.old) (state self.new) held len)) }
        ensures cause { HasCause (state self.old).faults (state self.new).faults result };

    /// Fills `into` with the bytes from `at` on. A read past the end fails.
    fn read_at(&mut self, at: u64, into: &mut [u8]) -> Result<(), Failed>
        ensures sees { Sees (state self.old) (state self.new) }
        ensures answer { OnOk result (ToldOf (state self.old) (λ held. AreOf (state self.old) (state self.new) held at into.new)) }
        ensures cause { ReadCause (state self.old) (state self.new) (at + length into.old) result };
}

/// A real file that was opened for reading, or one whose every call fails. It tells nothing of contents.
///
/// It reads on until all is moved, and again after an interruption. Each other error of the system is a fault, and so are a
/// read past the end, and a length of 2^63 or above.
#[derive(Drop)]
pub struct SharedFile {
    file: Option<File>,
    faults: u64,
}

impl SharedFile {
    /// Makes a shared file of one that was opened for reading.
    pub fn over(file: File) -> SharedFile {
        SharedFile {
            file: Some(file),
            faults: 0,
        }
    }

    /// Makes one whose every call fails.
    pub fn none() -> SharedFile {
        SharedFile {
            file: None,
            faults: 0,
        }
    }
}

impl Shared for SharedFile {
    ghost state = { λ f. unshown f.faults };

    fn len(&mut self) -> Result<u64, Failed>
        ensures sees { Sees (unshown self.old.faults) (unshown self.new.faults) }
        ensures fits { IfOk result (λ len. len < 2 ^ 63) }
        ensures answer { IfOk result (λ len. ToldOf (unshown self.old.faults) (λ held. IsLengthOf (unshown self.old.faults) (unshown self.new.faults) held len)) }
        ensures cause { HasCause self.old.faults self.new.faults result }
    {
        let answer = match &self.file {
            Some(file) => length_of(file),
            None => Err(Failed),
        };
        settle(&mut self.faults, answer)
    }

    fn read_at(&mut self, at: u64, into: &mut [u8]) -> Result<(), Failed>
        ensures sees { Sees (unshown self.old.faults) (unshown self.new.faults) }
        ensures answer { OnOk result (ToldOf (unshown self.old.faults) (λ held. AreOf (unshown self.old.faults) (unshown self.new.faults) held at into.new)) }
        ensures cause { ReadCause (unshown self.old.faults) (unshown self.new.faults) (at + length into.old) result }
    {
        let answer = match &self.file {
            Some(file) => file.read_exact_at(into, at).map_err(|_| Failed),
            None => Err(Failed),
        };
        settle(&mut self.faults, answer)
    }
}
