//! The commands that ask the repository a question.
ghost use Rattle.fossil.specs.RunCall.{RunsQuestion};

use crate::answers::due::print_due;
use crate::answers::reporting::report;
use crate::ran::Done;
use fsl_disk::Disk;
use fsl_outside::Sink;
use fsl_words::Question;
use std::alloc::Global;

/// Prints the report on a question, and gives the status and the disk.
pub(crate) fn answer_question<K: Sink, D: Disk>(
    alloc: Global,
    question: &Question,
    out: &mut K,
    repo: D,
) -> Done<D>
    ensures { RunsQuestion question.now (K.state, out.old, out.new) (D.state, repo, result.repo) result.status }
{
    let mut repo = repo;
    let answer = report(alloc, question, &mut repo);
    let status = print_due(out, answer);
    Done { status, repo }
}
