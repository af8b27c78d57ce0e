//! Holds the reasons why a file isn't written.
ghost use Rattle.std.specs.Prelude.{◌≡◌};
ghost use Rattle.fsl_scrub.specs.Faults.{fault_of};
ghost use Rattle.fsl_scrub.specs.declared.faults.ScrubFault.TheVariants as scrub_fault;
ghost use Rattle.fsl_scrub.specs.declared.faults.WriteFault.TheVariants as write_fault;

use fsl_name::Name;
use fsl_outside::Failed;
use fsl_text::Memory;

/// A reason why a repository wasn't scrubbed.
#[derive(Clone, Copy, PartialEq, Eq, Debug)]
pub enum ScrubFault {
    /// The spare file isn't empty. It has this many bytes.
    NotEmpty { len: u64 },
    /// A call of the repository's disk failed, or one of the spare file's.
    Disk,
    /// The bytes that were read for the artifact of a name have another name.
    Damaged { name: Name, found: Name },
    /// Memory ran out.
    Memory,
}

/// Why something wasn't written.
#[derive(Clone, Copy)]
pub(crate) enum WriteFault {
    /// A call of the spare file's disk failed.
    Unwritten,
    /// A call of the repository's disk failed.
    Unread,
    /// The bytes that were read for the artifact of a name have another name.
    Damaged { name: Name, found: Name },
    /// Memory ran out.
    Memory,
}

impl From<Failed> for WriteFault {
    ghost from_gives = { λ _ fault. fault ≡ write_fault.Unwritten };

    fn from(_: Failed) -> Self {
        WriteFault::Unwritten
    }
}

impl From<Memory> for WriteFault {
    ghost from_gives = { λ _ fault. fault ≡ write_fault.Memory };

    fn from(_: Memory) -> Self {
        WriteFault::Memory
    }
}

impl From<Failed> for ScrubFault {
    ghost from_gives = { λ _ fault. fault ≡ scrub_fault.Disk };

    fn from(_: Failed) -> Self {
        ScrubFault::Disk
    }
}

impl From<Memory> for ScrubFault {
    ghost from_gives = { λ _ fault. fault ≡ scrub_fault.Memory };

    fn from(_: Memory) -> Self {
        ScrubFault::Memory
    }
}

impl From<WriteFault> for ScrubFault {
    ghost from_gives = { λ why fault. fault ≡ fault_of why };

    fn from(fault: WriteFault) -> Self {
        match fault {
            WriteFault::Unwritten | WriteFault::Unread => ScrubFault::Disk,
            WriteFault::Damaged { name, found } => ScrubFault::Damaged { name, found },
            WriteFault::Memory => ScrubFault::Memory,
        }
    }
}
