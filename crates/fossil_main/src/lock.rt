//! Locks an open file for one process: the kernel keeps the lock, and lets it go with the process that holds it.
ghost use Rattle.std.specs.Prelude.{◌≡◌, true, false, Err, IsOk};
ghost use Rattle.std.specs.declared.fs.locks.TryLockError.TheVariants.{WouldBlock};

use fsl_disk::FileDisk;
use std::fs::{File, TryLockError};
use std::io;
use std::io::ErrorKind;

/// A file that was opened, and whether its file system has no locks, so that nothing keeps other processes from it.
pub struct Opened {
    pub disk: FileDisk,
    pub is_unguarded: bool,
}

impl Opened {
    /// Makes what takes the place of a file that couldn't be opened, or that another process holds: each call of its disk
    /// fails.
    pub fn none() -> Opened
        ensures { result.disk.is_open ≡ false }
    {
        Opened {
            disk: FileDisk::none(),
            is_unguarded: false,
        }
    }
}

/// Locks a file for this process alone. Where another one holds it, each call of its disk fails.
pub fn alone(file: File) -> Opened {
    let answer = file.try_lock();
    under(file, answer)
}

/// A file, by what the system answered to the call for its lock.
fn under(file: File, answer: Result<(), TryLockError>) -> Opened
    ensures taken { IsOk answer → (result.disk.is_open ≡ true) × (result.is_unguarded ≡ false) }
    ensures held { answer ≡ Err WouldBlock → result.disk.is_open ≡ false }
{
    match answer {
        Ok(()) => Opened {
            disk: FileDisk::over(file),
            is_unguarded: false,
        },
        Err(TryLockError::Error(fault)) if has_no_locks(fault) => Opened {
            disk: FileDisk::over(file),
            is_unguarded: true,
        },
        Err(_) => Opened::none(),
    }
}

/// Whether an answer to a call for a lock says that there are no locks on this file system.
fn has_no_locks(fault: io::Error) -> bool {
    fault.kind() == ErrorKind::Unsupported
}
