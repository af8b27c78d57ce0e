//! Turns `Memory` into a fault of the reader of words.
ghost use Rattle.std.specs.Prelude.{◌≡◌};
ghost use Rattle.fsl_words.specs.declared.WordsFault.TheVariants as words_fault;

use crate::WordsFault;
use fsl_text::Memory;
use std::alloc::AllocFailed;

impl From<Memory> for WordsFault {
    ghost from_gives = { λ _ fault. fault ≡ words_fault.Memory };

    fn from(_: Memory) -> Self {
        WordsFault::Memory
    }
}

impl<T: Drop> From<AllocFailed<T>> for WordsFault {
    ghost from_gives = { λ _ fault. fault ≡ words_fault.Memory };

    fn from(_: AllocFailed<T>) -> Self {
        WordsFault::Memory
    }
}
