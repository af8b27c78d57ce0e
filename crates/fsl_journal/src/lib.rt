//! The repository file. It has groups of records, and after a crash each group is whole or not there.
//!
//! The file is the bytes of `fossil-blobs-2` and a newline, and then groups. The byte at 13 may be any. With the digit 1
//! there the file has version 1, in which a Blob with a receipt and an Unshun are no records, and else version 2. A group
//! is a gate byte, a length of 8 bytes with the greatest first, and as many bytes of records. An open gate is 0x4F. Every
//! other byte is closed, and 0x43 is written. The records of the file are those of its open groups up to the first closed
//! gate.
//!
//! A commit writes a group and a closed gate behind the last gate, which is closed, and makes them stable. Then it opens
//! that gate and makes this stable too. In a file of version 1 it first writes the digit 2 at 13, and makes it stable: the
//! records of version 1 are records of version 2 too. So whatever moment a crash comes at, it leaves the records that were
//! committed before, or all of them, and after the answer all.
//!
//! FORMATS: The repository file
#![tactic(auto)]

mod commit;
mod contents;
mod creating;
mod found;
mod fronts;
mod journal;
mod laws;
mod loading;
mod names;
mod places;
mod reading;
mod taking;
mod window;

ghost use Rattle.std.specs.Prelude.{◌≡◌};
ghost use Rattle.fsl_journal.specs.declared.BytesFault.TheVariants as bytes_fault;
ghost use Rattle.fsl_journal.specs.declared.CreateFault.TheVariants as create_fault;
ghost use Rattle.fsl_journal.specs.declared.LoadFault.TheVariants as load_fault;

pub use creating::create;
pub use fronts::front_of;
use fsl_outside::Failed;
use fsl_text::Memory;
pub use journal::Journal;
pub use laws::{
    behind_is_nothing, beside_is_right, commit_in_steps, commit_keeps, cut_is_a_step, fails_once,
    file_has_groups, front_is_whole, is_no_file, is_one_file, life_grows, seen_is_right, some_file,
};
use std::alloc::AllocError;
pub use taking::Taker;
use thiserror::Error;

/// Says why no file was made.
#[derive(Clone, Copy, PartialEq, Eq, Debug, Drop, Error)]
pub enum CreateFault {
    /// The disk already holds this many bytes.
    #[error("the disk holds {len} bytes")]
    NotEmpty { len: u64 },
    /// A call of the disk failed.
    #[error("the disk failed")]
    Disk,
    /// The call was out of memory. It wrote nothing.
    #[error("out of memory")]
    Memory,
}

/// Says why a journal wasn't opened.
#[derive(Clone, Copy, PartialEq, Eq, Debug, Drop, Error)]
pub enum LoadFault {
    /// A call of the disk failed.
    #[error("the disk failed")]
    Disk,
    /// The file is no repository's. The place is 0 where it has another header, and 15 where no group is open. Else the
    /// gate of the first open group is there that doesn't read or has no byte after it.
    #[error("no repository at byte {at}")]
    NotRepository { at: u64 },
    /// The call was out of memory.
    #[error("out of memory")]
    Memory,
}

/// Says why a content wasn't read.
#[derive(Clone, Copy, PartialEq, Eq, Debug, Drop)]
pub enum BytesFault {
    /// A call of the disk failed.
    Disk,
    /// The call was out of memory.
    Memory,
}

/// Says why a commit failed.
#[derive(Clone, Copy, PartialEq, Eq, Debug, Drop, Error)]
pub enum CommitFault {
    /// An earlier commit failed, with the disk's count of faults at this.
    #[error("stopped by an earlier fault, the disk's {faults}")]
    Stopped { faults: u64 },
    /// A call of the disk failed.
    #[error("the disk failed")]
    Disk,
}

impl From<Memory> for CreateFault {
    ghost from_gives = { λ _ fault. fault ≡ create_fault.Memory };

    fn from(_: Memory) -> Self {
        CreateFault::Memory
    }
}

impl From<Failed> for CreateFault {
    ghost from_gives = { λ _ fault. fault ≡ create_fault.Disk };

    fn from(_: Failed) -> Self {
        CreateFault::Disk
    }
}

impl From<AllocError> for LoadFault {
    ghost from_gives = { λ _ fault. fault ≡ load_fault.Memory };

    fn from(_: AllocError) -> Self {
        LoadFault::Memory
    }
}

impl From<Memory> for LoadFault {
    ghost from_gives = { λ _ fault. fault ≡ load_fault.Memory };

    fn from(_: Memory) -> Self {
        LoadFault::Memory
    }
}

impl From<Failed> for LoadFault {
    ghost from_gives = { λ _ fault. fault ≡ load_fault.Disk };

    fn from(_: Failed) -> Self {
        LoadFault::Disk
    }
}

impl From<Memory> for BytesFault {
    ghost from_gives = { λ _ fault. fault ≡ bytes_fault.Memory };

    fn from(_: Memory) -> Self {
        BytesFault::Memory
    }
}

impl From<AllocError> for BytesFault {
    ghost from_gives = { λ _ fault. fault ≡ bytes_fault.Memory };

    fn from(_: AllocError) -> Self {
        BytesFault::Memory
    }
}

impl From<Failed> for BytesFault {
    ghost from_gives = { λ _ fault. fault ≡ bytes_fault.Disk };

    fn from(_: Failed) -> Self {
        BytesFault::Disk
    }
}
