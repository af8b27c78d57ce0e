//! Holds the answers on a check-in, and the reasons why there is none.
ghost use Rattle.std.specs.Prelude.{◌≡◌};
ghost use Rattle.fsl_checkin.specs.declared.answers.ExportFault.TheVariants as export_fault;

use crate::TreeItem;
use fsl_name::{Name, Ref};
use fsl_text::{List, Memory};

/// The tree of a check-in.
#[derive(Drop)]
pub enum Export {
    /// No check-in has the name.
    NotCheckin,
    /// The named artifact isn't held. It is the baseline where the files aren't defined, else the content of the first file by
    /// path whose hash is foreign or not held.
    Incomplete { missing: Ref },
    /// The files, by rising path, with their contents.
    Tree(List<TreeItem>),
}

/// The verdict on the checksum of a check-in against its tree.
#[derive(Clone, Copy, PartialEq, Eq, Debug)]
pub enum Verdict {
    /// No check-in has the name.
    NotCheckin,
    /// The check-in has no R card.
    NoSum,
    /// The named artifact isn't held, as for an export.
    Incomplete { missing: Ref },
    /// The R card has the checksum `kept`, and the tree has the checksum `found`.
    Wrong { kept: [u8; 16], found: [u8; 16] },
    /// The two checksums are the same.
    Right,
}

/// A reason why there is no answer. Nothing changed but the disk's count of faults.
#[derive(Clone, Copy, PartialEq, Eq, Debug)]
pub enum ExportFault {
    /// A call of the disk failed.
    Disk,
    /// The bytes that were read for the artifact of a name have another name.
    Damaged { name: Name, found: Name },
    /// Memory ran out.
    Memory,
}

impl From<Memory> for ExportFault {
    ghost from_gives = { λ _ fault. fault ≡ export_fault.Memory };

    fn from(_: Memory) -> Self {
        ExportFault::Memory
    }
}
