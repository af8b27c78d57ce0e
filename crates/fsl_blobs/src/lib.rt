//! Holds the artifacts of a repository, which are kept in memory as the records come. Their contents stay in the file, and the
//! place and the size of each there are known.
//!
//! A blob adds its artifact, with its receipt, unless its name is held or shunned. Publishing makes a held artifact public.
//! Shunning takes an artifact out, with its receipt, and lists its name. Unshunning takes the name off the list. Every answer is
//! the same as if all records were read again from the first.
#![tactic(auto)]

mod announcing;
mod answers;
mod blobs;
mod changes;
mod contents;
mod laws;
mod listing;
mod names;
mod order;
mod sizes;

ghost use Rattle.std.specs.Prelude.{◌≡◌};
ghost use Rattle.fsl_blobs.specs.declared.BlobFault.TheVariants.{Memory as MemoryFault};

pub use blobs::Blobs;
use fsl_name::Name;
use fsl_text::{Memory, Text};
pub use laws::{held_are_named, shunned_are_not_held};
use std::snapshot::Snapshot;

/// The result of an announcement.
#[derive(Clone, Copy, PartialEq, Eq, Debug)]
pub enum Known {
    /// The name is held.
    Held,
    /// The name is shunned.
    Shunned,
    /// The name was announced before.
    Again,
    /// The name is none of these, and there is no place for it: 65,536 names are announced, or more.
    Full,
    /// The name is announced from now on.
    New,
}

/// The state of a name. Sizes are in bytes.
#[derive(Clone, Copy, PartialEq, Eq, Debug)]
pub enum BlobState {
    /// A held artifact that is given to others.
    Public { size: u64 },
    /// A held artifact that isn't given to others.
    Private { size: u64 },
    /// The name isn't held as long as it is listed.
    Shunned,
    /// The name is neither held nor shunned.
    Absent,
}

/// The names that a prefix of digits finds.
#[derive(Clone, Copy, PartialEq, Eq, Debug)]
pub enum Found {
    /// No held name begins so.
    Nothing,
    /// More than one held name begins so.
    Several,
    /// Only this held name begins so.
    One(Name),
}

/// A held name, and the place of the record that added its artifact, counted from 1.
#[derive(Clone, Copy, PartialEq, Eq, Debug)]
pub struct Placed {
    pub place: u64,
    pub name: Name,
}

/// The facts on a held artifact.
#[derive(Clone, Copy)]
pub struct Holding<'a> {
    pub name: Name,
    /// Says whether the artifact is private: it isn't given to others.
    pub private: bool,
    /// The place of the record that added it, counted from 1.
    pub place: u64,
    /// The number of its bytes.
    pub size: u64,
    /// Its bytes, which only clauses see.
    pub bytes: &'a Snapshot<Text>,
}

/// Says why a content wasn't given.
#[derive(Clone, Copy, PartialEq, Eq, Debug)]
pub enum BlobFault {
    /// The name isn't held.
    Absent,
    /// A call of the disk failed.
    Disk,
    /// The bytes that were read have this other name.
    Damaged { found: Name },
    /// The content doesn't fit in memory.
    Memory,
}

impl From<Memory> for BlobFault {
    ghost from_gives = { λ _ fault. fault ≡ MemoryFault };

    fn from(_: Memory) -> BlobFault {
        BlobFault::Memory
    }
}
