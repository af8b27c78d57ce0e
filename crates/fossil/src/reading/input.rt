//! Reads the input.
ghost use Rattle.std.specs.Prelude.{IfOk, IfErr};
ghost use Rattle.fossil.specs.Acts.{input_of, IsInput, IsUnread};

use crate::answers::fault::Fault;
use fsl_outside::{ReadFault, Source, read_whole};
use fsl_text::{MOST_OF_MESSAGE, Text};
use std::alloc::Global;

/// The most bytes that an input has.
const LIMIT: usize = MOST_OF_MESSAGE as usize;

/// Reads the input to its end, or gives `None` where it is too long.
///
/// Errors: `Input` where a read failed; `Memory` where the program is out of memory.
pub fn read_input<S: Source>(alloc: Global, input: &mut S) -> Result<Option<Text>, Fault>
    ensures ok { IfOk result (IsInput (input_of (S.state input.old, S.state input.new))) }
    ensures err { IfErr result (λ fault. IsUnread fault (input_of (S.state input.old, S.state input.new))) }
{
    match read_whole(alloc, input, LIMIT) {
        Ok(message) => Ok(message),
        Err(ReadFault::Failed) => Err(Fault::Input),
        Err(ReadFault::Memory) => Err(Fault::Memory),
    }
}
