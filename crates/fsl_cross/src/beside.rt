//! Puts a value beside one that may be missing.
ghost use Rattle.std.specs.Prelude.{◌≡◌, Ok, IfOk};

use fsl_text::Memory;

/// Two values, where the second is there; where it isn't, the first is let go. It is a function over any types, so that a caller
/// that holds large values has one short way out.
pub(crate) fn beside<A: Drop, B>(first: A, second: Result<B, Memory>) -> Result<(A, B), Memory>
    ensures first { IfOk result (λ both. both.0 ≡ first) }
    ensures second { IfOk result (λ both. second ≡ Ok both.1) }
{
    match second {
        Ok(second) => Ok((first, second)),
        Err(Memory) => Err(Memory),
    }
}
