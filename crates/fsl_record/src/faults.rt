//! Turns being out of memory into a fault of a group's reader.
ghost use Rattle.std.specs.Prelude.{◌≡◌};
ghost use Rattle.fsl_record.specs.declared.RecordFault.TheVariants.{Memory as MemoryFault};

use crate::RecordFault;
use fsl_text::Memory;
use std::alloc::AllocFailed;

impl From<Memory> for RecordFault {
    ghost from_gives = { λ _ fault. fault ≡ MemoryFault };

    fn from(_: Memory) -> RecordFault {
        RecordFault::Memory
    }
}

impl<T: Drop> From<AllocFailed<T>> for RecordFault {
    ghost from_gives = { λ _ fault. fault ≡ MemoryFault };

    fn from(_: AllocFailed<T>) -> RecordFault {
        RecordFault::Memory
    }
}
