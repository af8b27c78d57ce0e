//! Lists the reasons why a command has no answer.
ghost use Rattle.std.specs.Prelude.{◌≡◌};
ghost use Rattle.fossil.specs.declared.answers.fault.Fault.TheVariants as fault_is;

use fsl_name::Name;
use fsl_text::Memory;

/// The reasons why a command has no answer. The line of a fault takes no memory.
#[derive(Clone, Copy, Debug, PartialEq, Eq, Drop)]
pub enum Fault {
    /// The words are no command.
    Usage,
    /// A call of a disk failed.
    Disk,
    /// A read of the input or of the users file failed.
    Input,
    /// A door or the dial failed.
    Link,
    /// The bytes that were read for the artifact of a name have another name.
    Damaged { name: Name, found: Name },
    /// The program is out of memory.
    Memory,
}

impl From<Memory> for Fault {
    ghost from_gives = { λ _ fault. fault ≡ fault_is.Memory };

    fn from(_: Memory) -> Fault {
        Fault::Memory
    }
}
