//! Makes the text of one artifact.
ghost use Rattle.std.specs.Prelude.{◌≡◌, ◌<◌, IfOk};
ghost use Rattle.fsl_gen.specs.Artifacts.{artifact_text, names_before};

use crate::checkin::checkin;
use crate::control::control;
use crate::post::post;
use crate::ticket::ticket;
use fsl_name::Name;
use fsl_text::{Memory, Text};
use std::alloc::Global;

/// Makes the text of the artifact of a number from the names of those before it, in the order of their numbers. `Memory` is the
/// only error.
/// FORMATS: Generated artifacts
pub fn artifact(alloc: Global, number: u64, names: &[Name]) -> Result<Text, Memory>
    requires few { number < 100_000 }
    requires before { names.now ≡ names_before number }
    ensures { IfOk result (λ text. text ≡ artifact_text number) }
{
    match number % 4 {
        0 => checkin(alloc, number, names)?.write(alloc),
        1 => control(alloc, number, names)?.write(alloc),
        2 => ticket(alloc, number)?.write(alloc),
        _ => post(alloc, number, names)?.write(alloc),
    }
}
