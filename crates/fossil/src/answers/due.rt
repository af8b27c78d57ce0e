//! Writes the answer of a command, or the line of its fault.
ghost use Rattle.std.specs.Prelude.{◌≡◌, Ok, Err, IfOk, IfErr};
ghost use Rattle.fossil.specs.declared.answers.fault.Fault.TheVariants as fault_is;
ghost use Rattle.fossil.specs.Printed.{with_text, damaged};
ghost use Rattle.fossil.specs.Run.{IsWritten};
ghost use Rattle.fossil.specs.Due.{printed_fault, printed};
ghost use Rattle.fossil.specs.Acts.{output_of};

use crate::answers::answer::Answer;
use crate::answers::fault::Fault;
use crate::answers::status::{
    DAMAGED, DISK_FAULT, DONE, INPUT_FAULT, LINK_FAULT, NO_MEMORY, OUTPUT_FAULT, USAGE,
};
use fsl_name::Name;
use fsl_outside::{Sink, write_whole};
use fsl_text::Memory;

/// The answer of a command or a serve (a report, a refusal, or what the peer did wrong), or the reason why it has none.
pub type Due = Result<Answer, Fault>;

/// Makes of an answer what is due, where the program may be out of memory.
pub fn answered(answer: Result<Answer, Memory>) -> Due
    ensures ok { IfOk answer (λ a. result ≡ Ok a) }
    ensures err { IfErr answer (λ _. result ≡ Err fault_is.Memory) }
{
    match answer {
        Ok(answer) => Ok(answer),
        Err(memory) => Err(Fault::from(memory)),
    }
}

/// Writes a text, and gives its status; where a report is cut off, its status is that of an output that failed.
fn write<K: Sink>(out: &mut K, status: u8, text: &[u8]) -> u8
    ensures { IsWritten (with_text status text.now) (output_of (K.state out.old, K.state out.new)) result }
{
    match write_whole(out, text) {
        Ok(()) => status,
        Err(_) => if status == DONE { OUTPUT_FAULT } else { status },
    }
}

/// The line of a content whose bytes were read and have another name than its own. Takes no memory.
fn damaged_line(name: Name, found: Name) -> [u8; 90]
    ensures { result ≡ (damaged name found).text }
{
    let mut line = [b' '; 90];
    line[..8].copy_from_slice(b"damaged ");
    line[8..48].copy_from_slice(&name.text());
    line[49..89].copy_from_slice(&found.text());
    line[89] = b'\n';
    line
}

/// Writes the line of a fault, and gives its status.
fn print_fault<K: Sink>(out: &mut K, fault: Fault) -> u8
    ensures { IsWritten (printed_fault fault) (output_of (K.state out.old, K.state out.new)) result }
{
    match fault {
        Fault::Usage => write(out, USAGE, b"usage: fossil REPOSITORY COMMAND [WORDS]\n"),
        Fault::Disk => write(out, DISK_FAULT, b"disk fault\n"),
        Fault::Input => write(out, INPUT_FAULT, b"input fault\n"),
        Fault::Link => write(out, LINK_FAULT, b"link fault\n"),
        Fault::Damaged { name, found } => write(out, DAMAGED, &damaged_line(name, found)),
        Fault::Memory => write(out, NO_MEMORY, b"out of memory\n"),
    }
}

/// Writes an answer or the line of a fault, and gives the status. Where the output fails, a report has the status of
/// that, and each other status stays.
pub fn print_due<K: Sink>(out: &mut K, due: Due) -> u8
    ensures { IsWritten (printed due) (output_of (K.state out.old, K.state out.new)) result }
{
    match due {
        Ok(answer) => write(out, answer.status, answer.text.bytes()),
        Err(fault) => print_fault(out, fault),
    }
}
