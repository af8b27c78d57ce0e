//! `ingest`: takes a message of files into a set of its own, and reports on that.
ghost use Rattle.std.specs.Prelude.{IfOk, IfErr};
ghost use Rattle.fossil.specs.Ingest as ingest;
ghost use Rattle.fossil.specs.Acts.{input_of, IsIngestRun, IsUnread};

use crate::answers::answer::{Answer, too_long};
use crate::answers::due::Due;
use crate::answers::status::DONE;
use crate::reading::checking::{Checked, check_message};
use crate::reading::gathering::{Gathered, gather, print_set};
use crate::reading::input::read_input;
use crate::reading::message::MessageFile;
use fsl_outside::Source;
use fsl_text::{List, Memory, Text};
use std::alloc::Global;

/// The report on the set that files make, or the refusal of one.
fn report_on(alloc: Global, files: List<MessageFile>) -> Result<Answer, Memory>
    ensures { IfOk result (λ a. ingest.IsReported files a) }
{
    let mut set = Gathered::empty(alloc);
    match gather(alloc, files, &mut set)? {
        Some(refused) => Ok(refused),
        None => Ok(Answer {
            status: DONE,
            text: print_set(alloc, set)?,
        }),
    }
}

/// What a message comes to: its refusal, or else the report on the set of its files.
fn answer_of(alloc: Global, message: Text) -> Result<Answer, Memory>
    ensures { IfOk result (λ a. ingest.IsRead message a) }
{
    match check_message(alloc, message)? {
        Checked::Files(files) => report_on(alloc, files),
        Checked::Refused(answer) => Ok(answer),
    }
}

/// Reads a message of files into a fresh set, and answers with its unclustered and wanted names.
///
/// FORMATS: Messages of files
pub fn ingest<S: Source>(alloc: Global, input: &mut S) -> Due
    ensures ok { IfOk result (IsIngestRun (input_of (S.state input.old, S.state input.new))) }
    ensures err { IfErr result (λ fault. IsUnread fault (input_of (S.state input.old, S.state input.new))) }
{
    let Some(message) = read_input(alloc, input)? else {
        return Ok(too_long(alloc)?);
    };
    Ok(answer_of(alloc, message)?)
}
