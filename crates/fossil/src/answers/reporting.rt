//! Answers questions about what a repository holds.
ghost use Rattle.std.specs.Prelude.{◌≡◌, Err, IfOk};
ghost use Rattle.fsl_blobs.specs.Fold.{contents};
ghost use Rattle.fsl_query.specs.Answers.{IsReadFor};
ghost use Rattle.fsl_query.specs.Refusals.{refusal_text};
ghost use Rattle.fsl_words.specs.declared.Command.TheVariants as command_of;
ghost use Rattle.fsl_journal.specs.Journal.{Belongs};
ghost use Rattle.fsl_journal.specs.Log.{IsLoaded};
ghost use Rattle.fsl_repo.specs.Opening.{IsFolded};
ghost use Rattle.fossil.specs.Acts.{IsAnswerOf, loaded_file};
ghost use Rattle.fossil.specs.Printed as printing;
ghost use Rattle.fossil.specs.RunCall.{ActsUnread, AnswersQuestion};

use crate::answers::answer::{Answer, refusal};
use crate::answers::due::Due;
use crate::answers::fault::Fault;
use crate::answers::status::DONE;
use crate::reading::load::not_loaded;
use fsl_disk::Disk;
use fsl_query::{QueryFault, Refused, open_for, refusal_text, report_from};
use fsl_repo::Opened;
use fsl_text::{Memory, Text};
use fsl_words::Question;
use std::alloc::Global;

/// Makes the refusal of a question. `Memory` is the only error.
pub fn question_refusal(alloc: Global, refused: Refused) -> Result<Answer, Memory>
    ensures { IfOk result (λ a. a ≡ printing.refused (refusal_text refused)) }
{
    let reason = refusal_text(alloc, &refused)?;
    refusal(alloc, reason.bytes())
}

/// What is answered where a question found no report.
fn fault_answer(alloc: Global, fault: QueryFault) -> Due
    ensures { IsAnswerOf (Err fault) result }
{
    match fault {
        QueryFault::Refused(refused) => Ok(question_refusal(alloc, refused)?),
        QueryFault::Disk => Err(Fault::Disk),
        QueryFault::Damaged { name, found } => Err(Fault::Damaged { name, found }),
        QueryFault::Memory => Err(Fault::Memory),
    }
}

/// What is answered where a question found this: the report, or the reason why there is none.
fn answer_of(alloc: Global, found: Result<Text, QueryFault>) -> Due
    ensures { IsAnswerOf found result }
{
    match found {
        Ok(text) => Ok(Answer { status: DONE, text }),
        Err(fault) => fault_answer(alloc, fault),
    }
}

/// The report on a question about what was loaded for it, or the reason why there is none.
fn report_on<D: Disk>(alloc: Global, opened: Opened, question: &Question, disk: &mut D) -> Due
    requires loaded { IsLoaded opened.journal opened.blobs.records }
    requires held { IsFolded opened.blobs.records opened.journal.places opened.blobs }
    requires read { IsReadFor question.now (contents opened.blobs.records) opened.items }
    requires belongs { Belongs opened.journal (D.state disk.old) }
    ensures { AnswersQuestion question.now (loaded_file opened) (D.state, disk.old, disk.new) result }
{
    let found = report_from(alloc, opened, disk, question);
    answer_of(alloc, found)
}

/// Loads the repository, and answers a question with its report. It makes the tables that the report needs alone, and has
/// no more than a group of the file in memory at a time. `cat` reads the content that it asks for from the disk, and that
/// alone; its refusals come before that.
///
/// Errors: `Disk` where a call of the disk failed; `Damaged` where the bytes that were read for `cat` have another name;
/// `Memory`.
///
/// FORMATS: Reports
pub fn report<D: Disk>(alloc: Global, question: &Question, disk: &mut D) -> Due
    ensures { ActsUnread (command_of.Ask question.now) (D.state, disk.old, disk.new) result }
{
    match open_for(alloc, disk, question) {
        Ok(opened) => report_on(alloc, opened, question, disk),
        Err(fault) => not_loaded(alloc, fault),
    }
}
