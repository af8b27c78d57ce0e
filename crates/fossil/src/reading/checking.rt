//! Checks a message before its files arrive.
ghost use Rattle.std.specs.Prelude.{ℕ, List as Items, IfOk};
ghost use Rattle.fossil.specs.Messages.{IsFaultOf, IsMessageRefused};
ghost use Rattle.fossil.specs.Taking.{IsChecked};

use crate::answers::answer::{Answer, bad_line, not_a_file};
use crate::reading::message::{MessageFault, MessageFile, read_files};
use fsl_text::{List, Memory, Text};
use std::alloc::Global;

/// The result of a message before its files arrive.
#[derive(Drop)]
pub enum Checked {
    /// These are its files.
    Files(List<MessageFile>),
    /// It is refused.
    Refused(Answer),
}

/// The refusal of a message that isn't one of files.
fn message_refusal(alloc: Global, fault: MessageFault) -> Result<Answer, Memory>
    ensures { IfOk result (λ a. (message : Items ℕ) → IsFaultOf message fault → IsMessageRefused message a) }
{
    match fault {
        MessageFault::BadLine { line } => bad_line(alloc, line),
        MessageFault::NotFile { line } => not_a_file(alloc, line),
        MessageFault::Memory => Err(Memory),
    }
}

/// Gives the files of a message, or its refusal: of its first line that doesn't read, or else of its first card that
/// isn't one of files. `Memory` is the only error.
///
/// FORMATS: Messages of files
pub fn check_message(alloc: Global, message: Text) -> Result<Checked, Memory>
    ensures { IfOk result (IsChecked message) }
{
    match read_files(alloc, message) {
        Ok(files) => Ok(Checked::Files(files)),
        Err(fault) => Ok(Checked::Refused(message_refusal(alloc, fault)?)),
    }
}
