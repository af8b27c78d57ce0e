//! Answers questions about an open repository.
ghost use Rattle.std.specs.Prelude.{◌≡◌, None, Ok, Err, IfOk, length};
ghost use Rattle.std.specs.FinSet as set;
ghost use Rattle.fsl_order.specs.Rows.{ascending};
ghost use Rattle.fsl_cross.specs.Checkins.{branch};
ghost use Rattle.fsl_disk.specs.Disk.{Quiet};
ghost use Rattle.fsl_repo.specs.Machine.{Leaves, now, wants};
ghost use Rattle.fsl_repo.specs.Whole.{log_of};
ghost use Rattle.fsl_words.specs.declared.Question.TheVariants as question_of;
ghost use Rattle.fsl_query.specs.declared.Refused.{Refused};
ghost use Rattle.fsl_query.specs.declared.QueryFault.TheVariants as query_fault;
ghost use Rattle.fsl_query.specs.Info.{AreSizesOf};
ghost use Rattle.fsl_query.specs.Reports.{IsReportTold, of_prefix, files_report, leaves_report, receipt_report, tables_now, report_in};
ghost use Rattle.fsl_query.specs.Answers.{IsAnswer, IsReportedIn, content_asked, prefix_of};

use crate::finding::{copied, found, prefix_of};
use crate::info::Sizes;
use crate::listing::{pages_by, thread_name, threads_by, ticket_id, tickets_report};
use crate::{
    QueryFault, branches, files, info, leaves, phantoms, receipt, tags, thread, ticket, timeline,
    tip, wiki,
};
use fsl_disk::Disk;
use fsl_repo::Repo;
use fsl_text::{List, Memory, Text};
use fsl_words::Question;
use std::alloc::Global;

/// The receipt of the one held artifact whose digits begin with a prefix.
fn receipt_of<D: Disk>(alloc: Global, repo: &Repo<D>, prefix: &[u8]) -> Result<Text, QueryFault>
    ensures { IsAnswer (receipt_report (now repo.now.seen.state) prefix.now) result }
{
    let name = found(alloc, repo, prefix)?;
    Ok(receipt::report(alloc, repo.receipt(name))?)
}

/// The leaves of a repository.
fn leaves_of<D: Disk>(alloc: Global, repo: &Repo<D>) -> Result<Text, Memory>
    ensures { IfOk result (λ text. text ≡ leaves_report (branch repo.now.seen.items) (tables_now (now repo.now.seen.state) repo.now.seen.items).leaves) }
{
    let tables = repo.tables();
    leaves::report(alloc, tables.leaves(), tables.tags())
}

/// The files of the one held artifact whose digits begin with a prefix, and their changes.
fn files_of<D: Disk>(alloc: Global, repo: &Repo<D>, prefix: &[u8]) -> Result<Text, QueryFault>
    ensures { IsAnswer (of_prefix (now repo.now.seen.state) prefix.now (files_report (tables_now (now repo.now.seen.state) repo.now.seen.items).files)) result }
{
    let name = found(alloc, repo, prefix)?;
    files::report(alloc, repo.tables().files(), name)
}

/// The configured fields of the one ticket that a prefix finds, and its attachments.
fn ticket_of<D: Disk>(alloc: Global, repo: &Repo<D>, prefix: &[u8]) -> Result<Text, QueryFault>
    ensures { IsAnswer (report_in repo.now.seen (question_of.Ticket prefix.now)) result }
{
    repo.is_whole();
    let tables = repo.tables();
    let id = ticket_id(alloc, tables.items(), prefix)?;
    ticket::report(
        alloc,
        tables.ticket(),
        tables.wiki(),
        repo.config().fields.items(),
        id,
    )
}

/// The posts of the one thread that a prefix finds.
fn thread_of<D: Disk>(alloc: Global, repo: &Repo<D>, prefix: &[u8]) -> Result<Text, QueryFault>
    ensures { IsAnswer (report_in repo.now.seen (question_of.Thread prefix.now)) result }
{
    repo.is_whole();
    let tables = repo.tables();
    let name = thread_name(alloc, tables.items(), tables.forum(), prefix)?;
    thread::report(alloc, tables.forum(), name)
}

/// The branches.
fn branches_of<D: Disk>(alloc: Global, repo: &Repo<D>) -> Result<Text, Memory>
    ensures { IfOk result (λ text. report_in repo.now.seen question_of.Branches ≡ Ok text) }
{
    let tables = repo.tables();
    branches::report(alloc, tables.timeline(), tables.tags())
}

/// The pages.
fn pages_of<D: Disk>(alloc: Global, repo: &Repo<D>) -> Result<Text, Memory>
    ensures { IfOk result (λ text. report_in repo.now.seen question_of.Pages ≡ Ok text) }
{
    repo.is_whole();
    let tables = repo.tables();
    pages_by(alloc, tables.items(), tables.wiki())
}

/// The tickets, each with the values of some fields.
fn tickets_of<D: Disk>(
    alloc: Global,
    repo: &Repo<D>,
    asked: &List<Text>,
) -> Result<Text, QueryFault>
    ensures { IsAnswer (report_in repo.now.seen (question_of.Tickets asked.now)) result }
{
    repo.is_whole();
    let configured = repo.config().fields.items();
    tickets_report(alloc, repo.tables().items(), configured, asked)
}

/// The threads.
fn threads_of<D: Disk>(alloc: Global, repo: &Repo<D>) -> Result<Text, Memory>
    ensures { IfOk result (λ text. report_in repo.now.seen question_of.Threads ≡ Ok text) }
{
    repo.is_whole();
    let tables = repo.tables();
    threads_by(alloc, tables.items(), tables.forum(), tables.timeline())
}

/// How much is held.
fn sizes_of<D: Disk>(repo: &Repo<D>) -> Result<Sizes, Memory>
    ensures { IfOk result (AreSizesOf (now repo.now.seen.state).held) }
{
    let private = repo.privates()?.items().len() as u64;
    Ok(Sizes {
        artifacts: repo.count(),
        private,
        bytes: repo.bytes(),
    })
}

/// How many names are shunned.
fn shunned_of<D: Disk>(repo: &Repo<D>) -> Result<usize, Memory>
    ensures { IfOk result (λ n. n ≡ length (ascending (set.items (now repo.now.seen.state).shunned))) }
{
    let names = repo.shuns()?;
    Ok(names.items().len())
}

/// How many names are wanted.
fn wanted_of<D: Disk>(repo: &Repo<D>) -> Result<usize, Memory>
    ensures { IfOk result (λ n. n ≡ length (wants (now repo.now.seen.state) repo.now.seen.items)) }
{
    let names = repo.wants()?;
    Ok(names.items().len())
}

/// What the repository is.
fn info_of<D: Disk>(alloc: Global, repo: &Repo<D>) -> Result<Text, Memory>
    ensures { IfOk result (λ text. report_in repo.now.seen question_of.Info ≡ Ok text) }
{
    let wanted = wanted_of(repo)?;
    let shunned = shunned_of(repo)?;
    let sizes = sizes_of(repo)?;
    info::report(alloc, repo.config(), sizes, shunned, wanted)
}

/// The text of a report on what a repository holds, by its tables, where no content is asked for.
fn answer<D: Disk>(alloc: Global, repo: &Repo<D>, question: &Question) -> Result<Text, QueryFault>
    requires { prefix_of question.now ≡ None }
    ensures { IsAnswer (report_in repo.now.seen question.now) result }
{
    match question {
        Question::Cat { .. } => unreachable!(),
        Question::Receipt { prefix } => receipt_of(alloc, repo, prefix.bytes()),
        Question::Timeline { count } => Ok(timeline::report(
            alloc,
            repo.tables().timeline(),
            *count,
        )?),
        Question::Leaves => Ok(leaves_of(alloc, repo)?),
        Question::Tags { prefix } => {
            let name = found(alloc, repo, prefix.bytes())?;
            Ok(tags::report(alloc, repo.tables().tags(), name)?)
        }
        Question::Tip { symbol } => {
            let found = repo.tables().tip(alloc, symbol.bytes())?;
            tip::report(alloc, found, symbol.bytes())
        }
        Question::Files { prefix } => files_of(alloc, repo, prefix.bytes()),
        Question::Wiki { title } => wiki::report(alloc, repo.tables().wiki(), title.bytes()),
        Question::Ticket { prefix } => ticket_of(alloc, repo, prefix.bytes()),
        Question::Thread { prefix } => thread_of(alloc, repo, prefix.bytes()),
        Question::Phantoms => {
            let wanted = repo.wants()?;
            Ok(phantoms::report(alloc, wanted.items())?)
        }
        Question::Info => Ok(info_of(alloc, repo)?),
        Question::Branches => Ok(branches_of(alloc, repo)?),
        Question::Pages => Ok(pages_of(alloc, repo)?),
        Question::Tickets { fields } => tickets_of(alloc, repo, fields),
        Question::Threads => Ok(threads_of(alloc, repo)?),
    }
}

/// Answers a question with the text of its report, by the tables of an open repository. `report_from` answers the same
/// about a file that was opened without tables. `cat` reads the content that it asks for, and no other question reads
/// one. Nothing changes but the disk's count of faults.
///
/// Errors: `Refused` where there is nothing to report; for `cat`, `Disk` where a call of the disk failed, and `Damaged`
/// where the bytes that were read have another name; `Memory`.
///
/// FORMATS: Reports
pub fn report<D: Disk>(
    alloc: Global,
    repo: &mut Repo<D>,
    question: &Question,
) -> Result<Text, QueryFault>
    ensures ok { IfOk result (λ text. IsReportTold repo.old.seen.state.honest question.now (report_in repo.old.seen question.now) (Ok text)) }
    ensures refused { (refused : Refused) → result ≡ Err (query_fault.Refused refused) → report_in repo.old.seen question.now ≡ Err refused }
    ensures means { IsReportedIn repo.old.seen.state question.now repo.new.seen.state result }
    // Where no content is asked for, or the prefix doesn't find one name, no device is called.
    ensures unread { content_asked (now repo.old.seen.state) question.now ≡ None → repo.new ≡ repo.old }
    ensures state { Leaves repo.old.seen.state repo.old.seen.state repo.new.seen.state }
    ensures items { repo.new.seen.items ≡ repo.old.seen.items }
    ensures loaded { repo.new.seen.loaded ≡ repo.old.seen.loaded }
    ensures log { log_of repo.new ≡ log_of repo.old }
    // It only reads.
    ensures disk { Quiet (D.state repo.old.disk) (D.state repo.new.disk) }
{
    match prefix_of(question) {
        Some(prefix) => copied(alloc, repo, prefix),
        None => {
            repo.is_whole();
            answer(alloc, repo, question)
        }
    }
}
