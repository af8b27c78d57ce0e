//! Answers questions about a file that was opened without tables. It makes the tables that a report needs, and those that
//! these rest on.
ghost use Rattle.std.specs.Prelude.{◌≡◌, ◌≤◌, ℕ, Bool, None, List as Texts, All, IfOk, IfErr, length, map};
ghost use Rattle.std.specs.List.Sorted.{IsStrictlySortedBy};
ghost use Rattle.fsl_blobs.specs.Fold.{contents};
ghost use Rattle.fsl_cross.specs.Checkins.{branch};
ghost use Rattle.fsl_cross.specs.Tables.{IsItem, forum_facts, tables};
ghost use Rattle.fsl_timeline.specs.Timeline.{timeline};
ghost use Rattle.fsl_disk.specs.Disk.{Quiet};
ghost use Rattle.std.specs.FinSet as set;
ghost use Rattle.fsl_order.specs.Names.{bytes_cmp};
ghost use Rattle.fsl_order.specs.Rows.{ascending};
ghost use Rattle.fsl_journal.specs.Journal.{Belongs};
ghost use Rattle.fsl_journal.specs.Log.{IsLoaded, WhereBetween};
ghost use Rattle.fsl_journal.specs.declared.LoadFault.TheVariants as load_fault;
ghost use Rattle.fsl_repo.specs.Machine.{AreItems, wants};
ghost use Rattle.fsl_repo.specs.Opening.{IsFileOpened, IsFolded, OpenFailed, SparesFile};
ghost use Rattle.fsl_query.specs.Answers.{IsAnswer, IsReadFor, IsReported, IsReportedOn, content_asked, prefix_of};
ghost use Rattle.fsl_query.specs.Info.{AreSizesOf, info_report, info_told};
ghost use Rattle.fsl_query.specs.Listings.{branches_report, pages_report, threads_report};
ghost use Rattle.fsl_query.specs.Reports.{files_report, leaves_report, receipt_report, tags_report, thread_of_facts, thread_of_prefix, threads_told, ticket_of_prefix, ticket_report, timeline_report, wiki_report, report};

use crate::finding::{content, named, prefix_of};
use crate::info::Sizes;
use crate::listing::{pages_by, thread_name, threads_by, ticket_id, tickets_report};
use crate::{
    QueryFault, branches, files, info, leaves, phantoms, receipt, tags, thread, ticket, timeline,
    tip, wiki,
};
use fsl_blobs::Blobs;
use fsl_cross::Items;
use fsl_disk::Disk;
use fsl_forum::Threads;
use fsl_journal::LoadFault;
use fsl_name::Name;
use fsl_repo::{Opened, artifacts_of_file, names_of_file, wants_of};
use fsl_text::{List, Memory, Text};
use fsl_timeline::Timeline;
use fsl_wiki::Pages;
use fsl_words::Question;
use std::alloc::Global;

/// The receipt of the one of the artifacts that were loaded whose digits begin with a prefix.
fn receipt_of(alloc: Global, blobs: &Blobs, prefix: &[u8]) -> Result<Text, QueryFault>
    ensures { IsAnswer (receipt_report (contents blobs.now.records) prefix.now) result }
{
    let name = named(alloc, blobs, prefix)?;
    Ok(receipt::report(alloc, blobs.receipt(name))?)
}

/// The first rows of the timeline of some artifacts.
fn timeline_of(alloc: Global, items: &Items, count: u64) -> Result<Text, Memory>
    ensures { (fields : Texts (Texts ℕ)) → IfOk result (λ text. text ≡ timeline_report (tables fields items.now).timeline count) }
{
    let table = items.timeline(alloc)?;
    let text = timeline::report(alloc, &table, count);
    drop(table);
    text
}

/// The leaves of some artifacts.
fn leaves_of(alloc: Global, items: &Items) -> Result<Text, Memory>
    ensures { (fields : Texts (Texts ℕ)) → IfOk result (λ text. text ≡ leaves_report (branch items.now) (tables fields items.now).leaves) }
{
    let (tags, table) = items.tags_and_leaves(alloc)?;
    let text = leaves::report(alloc, &table, &tags);
    drop(table);
    drop(tags);
    text
}

/// The tags in force on one of some artifacts.
fn tags_of(alloc: Global, items: &Items, name: Name) -> Result<Text, Memory>
    ensures { (fields : Texts (Texts ℕ)) → IfOk result (λ text. text ≡ tags_report (tables fields items.now).tags name) }
{
    let table = items.tags(alloc)?;
    let text = tags::report(alloc, &table, name);
    drop(table);
    text
}

/// The files of one of some artifacts, and their changes.
fn files_of(alloc: Global, items: &Items, name: Name) -> Result<Text, QueryFault>
    requires { All IsItem items.now }
    ensures { (fields : Texts (Texts ℕ)) → IsAnswer (files_report (tables fields items.now).files name) result }
{
    let table = items.files(alloc)?;
    let text = files::report(alloc, &table, name);
    drop(table);
    text
}

/// The versions of the page of a title.
fn wiki_of(alloc: Global, items: &Items, title: &[u8]) -> Result<Text, QueryFault>
    ensures { (fields : Texts (Texts ℕ)) → IsAnswer (wiki_report (tables fields items.now).pages title.now) result }
{
    let table = items.wiki(alloc)?;
    let text = wiki::report(alloc, &table, title);
    drop(table);
    text
}

/// The configured fields of a ticket, by the tables of pages and of tickets.
fn ticket_by(
    alloc: Global,
    items: &Items,
    pages: &Pages,
    fields: &List<Text>,
    id: Name,
) -> Result<Text, QueryFault>
    requires { pages.now.facts ≡ (tables fields.now items.now).pages }
    ensures { IsAnswer (ticket_report fields.now (tables fields.now items.now).tickets (tables fields.now items.now).pages id) result }
{
    let table = items.ticket(alloc, fields)?;
    let text = ticket::report(alloc, &table, pages, fields.items(), id);
    drop(table);
    text
}

/// The configured fields of the ticket of an id, and its attachments.
fn ticket_whole(
    alloc: Global,
    items: &Items,
    fields: &List<Text>,
    id: Name,
) -> Result<Text, QueryFault>
    ensures { IsAnswer (ticket_report fields.now (tables fields.now items.now).tickets (tables fields.now items.now).pages id) result }
{
    let pages = items.wiki(alloc)?;
    let text = ticket_by(alloc, items, &pages, fields, id);
    drop(pages);
    text
}

/// The configured fields of the one ticket that a prefix finds, and its attachments.
fn ticket_of(
    alloc: Global,
    items: &Items,
    fields: &List<Text>,
    prefix: &[u8],
) -> Result<Text, QueryFault>
    requires { IsStrictlySortedBy bytes_cmp (map (λ i. i.name) items.now) }
    ensures { IsAnswer (ticket_of_prefix (tables fields.now items.now) prefix.now) result }
{
    let id = ticket_id(alloc, items, prefix)?;
    ticket_whole(alloc, items, fields, id)
}

/// The posts of the one thread that a prefix finds, by the table of posts.
fn thread_by(
    alloc: Global,
    items: &Items,
    table: &Threads,
    prefix: &[u8],
) -> Result<Text, QueryFault>
    requires { forum_facts items.now ≡ table.now.facts }
    ensures { IsAnswer (thread_of_facts table.now.facts prefix.now) result }
{
    let name = thread_name(alloc, items, table, prefix)?;
    thread::report(alloc, table, name)
}

/// The posts of the one thread that a prefix finds.
fn thread_of(alloc: Global, items: &Items, prefix: &[u8]) -> Result<Text, QueryFault>
    ensures { (fields : Texts (Texts ℕ)) → IsAnswer (thread_of_prefix (tables fields items.now) prefix.now) result }
{
    let table = items.forum(alloc)?;
    let text = thread_by(alloc, items, &table, prefix);
    drop(table);
    text
}

/// The branches, by the timeline.
fn branches_by(alloc: Global, items: &Items, rows: &Timeline) -> Result<Text, Memory>
    ensures { IfOk result (λ text. text ≡ branches_report (branch items.now) (timeline rows.now.facts)) }
{
    let tags = items.tags(alloc)?;
    let text = branches::report(alloc, rows, &tags);
    drop(tags);
    text
}

/// The branches.
fn branches_of(alloc: Global, items: &Items) -> Result<Text, Memory>
    ensures { (fields : Texts (Texts ℕ)) → IfOk result (λ text. text ≡ branches_report (branch items.now) (timeline (tables fields items.now).timeline)) }
{
    let rows = items.timeline(alloc)?;
    let text = branches_by(alloc, items, &rows);
    drop(rows);
    text
}

/// The pages.
fn pages_of(alloc: Global, items: &Items) -> Result<Text, Memory>
    ensures { (fields : Texts (Texts ℕ)) → IfOk result (λ text. text ≡ pages_report (tables fields items.now).pages) }
{
    let table = items.wiki(alloc)?;
    let text = pages_by(alloc, items, &table);
    drop(table);
    text
}

/// The threads, by the table of posts.
fn threads_over(alloc: Global, items: &Items, table: &Threads) -> Result<Text, Memory>
    requires { forum_facts items.now ≡ table.now.facts }
    ensures { (fields : Texts (Texts ℕ)) → IfOk result (λ text. text ≡ threads_report table.now.facts (timeline (tables fields items.now).timeline)) }
{
    let rows = items.timeline(alloc)?;
    let text = threads_by(alloc, items, table, &rows);
    drop(rows);
    text
}

/// The threads.
fn threads_of(alloc: Global, items: &Items) -> Result<Text, Memory>
    ensures { (fields : Texts (Texts ℕ)) → IfOk result (λ text. text ≡ threads_told (tables fields items.now)) }
{
    let table = items.forum(alloc)?;
    let text = threads_over(alloc, items, &table);
    drop(table);
    text
}

/// How much is held.
fn sizes_of(alloc: Global, blobs: &Blobs) -> Result<Sizes, Memory>
    ensures { IfOk result (AreSizesOf (contents blobs.now.records).held) }
{
    let private = blobs.privates(alloc)?.items().len() as u64;
    Ok(Sizes {
        artifacts: blobs.count(),
        private,
        bytes: blobs.bytes(),
    })
}

/// How many names are shunned.
fn shunned_of(alloc: Global, blobs: &Blobs) -> Result<usize, Memory>
    ensures { IfOk result (λ n. n ≡ length (ascending (set.items (contents blobs.now.records).shunned))) }
{
    let names = blobs.shuns(alloc)?;
    Ok(names.items().len())
}

/// What the file is, with the number of the names that are wanted.
fn info_by(alloc: Global, blobs: &Blobs, wanted: usize) -> Result<Text, Memory>
    ensures { IfOk result (λ text. text ≡ info_told (contents blobs.now.records) wanted) }
{
    let sizes = sizes_of(alloc, blobs)?;
    let shunned = shunned_of(alloc, blobs)?;
    info::report(alloc, blobs.config(), sizes, shunned, wanted)
}

/// How many names are wanted.
fn wanted_of(alloc: Global, blobs: &Blobs, items: &Items) -> Result<usize, Memory>
    ensures { IfOk result (λ n. n ≡ length (wants (contents blobs.now.records) items.now)) }
{
    let names = wants_of(alloc, blobs, items)?;
    Ok(names.items().len())
}

/// What the file is.
fn info_of(alloc: Global, blobs: &Blobs, items: &Items) -> Result<Text, Memory>
    ensures { IfOk result (λ text. text ≡ info_report (contents blobs.now.records) (wants (contents blobs.now.records) items.now)) }
{
    let wanted = wanted_of(alloc, blobs, items)?;
    info_by(alloc, blobs, wanted)
}

/// The text of a report on what was loaded, by what its artifacts are.
fn report_of(
    alloc: Global,
    blobs: &Blobs,
    items: &Items,
    question: &Question,
) -> Result<Text, QueryFault>
    requires held { AreItems (contents blobs.now.records).held items.now }
    requires kinds { All IsItem items.now }
    requires unread { prefix_of question.now ≡ None }
    ensures { IsAnswer (report (contents blobs.now.records) items.now question.now) result }
{
    match question {
        Question::Cat { .. } => unreachable!(),
        Question::Receipt { prefix } => receipt_of(alloc, blobs, prefix.bytes()),
        Question::Timeline { count } => Ok(timeline_of(alloc, items, *count)?),
        Question::Leaves => Ok(leaves_of(alloc, items)?),
        Question::Tags { prefix } => {
            let name = named(alloc, blobs, prefix.bytes())?;
            Ok(tags_of(alloc, items, name)?)
        }
        Question::Tip { symbol } => {
            let found = items.tip(alloc, symbol.bytes())?;
            tip::report(alloc, found, symbol.bytes())
        }
        Question::Files { prefix } => {
            let name = named(alloc, blobs, prefix.bytes())?;
            files_of(alloc, items, name)
        }
        Question::Wiki { title } => wiki_of(alloc, items, title.bytes()),
        Question::Ticket { prefix } => {
            ticket_of(alloc, items, &blobs.config().fields, prefix.bytes())
        }
        Question::Thread { prefix } => thread_of(alloc, items, prefix.bytes()),
        Question::Phantoms => {
            let wanted = wants_of(alloc, blobs, items)?;
            Ok(phantoms::report(alloc, wanted.items())?)
        }
        Question::Info => Ok(info_of(alloc, blobs, items)?),
        Question::Branches => Ok(branches_of(alloc, items)?),
        Question::Pages => Ok(pages_of(alloc, items)?),
        Question::Tickets { fields } => {
            tickets_report(alloc, items, blobs.config().fields.items(), fields)
        }
        Question::Threads => Ok(threads_of(alloc, items)?),
    }
}

/// The text of a report on what a file was opened as, where no content is asked for.
fn report_over(
    alloc: Global,
    blobs: &Blobs,
    items: &Option<Items>,
    question: &Question,
) -> Result<Text, QueryFault>
    requires read { IsReadFor question.now (contents blobs.now.records) items.now }
    requires unread { prefix_of question.now ≡ None }
    ensures { (honest : Bool) (faults : ℕ) → IsReported honest (contents blobs.now.records) question.now faults faults result }
{
    match question {
        Question::Receipt { prefix } => receipt_of(alloc, blobs, prefix.bytes()),
        _ => match items {
            Some(items) => report_of(alloc, blobs, items, question),
            None => unreachable!(),
        },
    }
}

/// The text of a report on what a file was opened as.
fn report_by<D: Disk>(
    alloc: Global,
    opened: &mut Opened,
    disk: &mut D,
    question: &Question,
) -> Result<Text, QueryFault>
    requires loaded { IsLoaded opened.old.journal opened.old.blobs.records }
    requires held { IsFolded opened.old.blobs.records opened.old.journal.places opened.old.blobs }
    requires belongs { Belongs opened.old.journal (D.state disk.old) }
    requires read { IsReadFor question.now (contents opened.old.blobs.records) opened.old.items }
    ensures means { IsReportedOn (D.state disk.old) opened.old.blobs.records question.now (D.state disk.new) result }
    ensures unread { content_asked (contents opened.old.blobs.records) question.now ≡ None → disk.new ≡ disk.old }
    ensures later { (D.state disk.old).faults ≤ (D.state disk.new).faults }
    ensures quiet { Quiet (D.state disk.old) (D.state disk.new) }
{
    match prefix_of(question) {
        Some(prefix) => content(alloc, &opened.journal, &mut opened.blobs, disk, prefix),
        None => report_over(alloc, &opened.blobs, &opened.items, question),
    }
}

/// Opens the file of a repository for a question: by names alone for `cat` and `receipt`, and else with what each held
/// artifact is. It takes memory for one group and for what it keeps; it keeps no contents.
///
/// Errors: `Disk` where a call of the disk failed; `NotRepository` with the place at which the file doesn't read as
/// records; `Memory`.
pub fn open_for<D: Disk>(
    alloc: Global,
    disk: &mut D,
    question: &Question,
) -> Result<Opened, LoadFault>
    ensures opened { IfOk result (λ f. IsFileOpened (D.state disk.old) (D.state disk.new) f.journal f.blobs) }
    ensures read { IfOk result (λ f. IsReadFor question.now (contents f.blobs.records) f.items) }
    ensures fault { IfErr result (λ fault. OpenFailed fault (D.state disk.old) (D.state disk.new)) }
    ensures file { SparesFile (D.state disk.old) (D.state disk.new) }
    // Where each image stands for records, it isn't `NotRepository`.
    ensures stays { IfErr result (λ fault. (at : ℕ) → fault ≡ load_fault.NotRepository at → WhereBetween (D.state disk.old) (λ _ _. ⊥)) }
{
    match question {
        Question::Cat { .. } => names_of_file(alloc, disk),
        Question::Receipt { .. } => names_of_file(alloc, disk),
        _ => artifacts_of_file(alloc, disk),
    }
}

/// Answers a question with the text of its report, about a file that was opened for it. It makes the tables that the
/// report needs, and those that these rest on. `cat` reads its one content from the disk, and no other question reads
/// one.
///
/// Errors: `Refused` where there is nothing to report; for `cat`, `Disk` where a call of the disk failed, and `Damaged`
/// where the bytes that were read have another name; `Memory`.
///
/// FORMATS: Reports
pub fn report_from<D: Disk>(
    alloc: Global,
    mut opened: Opened,
    disk: &mut D,
    question: &Question,
) -> Result<Text, QueryFault>
    requires loaded { IsLoaded opened.journal opened.blobs.records }
    requires held { IsFolded opened.blobs.records opened.journal.places opened.blobs }
    requires belongs { Belongs opened.journal (D.state disk.old) }
    requires read { IsReadFor question.now (contents opened.blobs.records) opened.items }
    ensures means { IsReportedOn (D.state disk.old) opened.blobs.records question.now (D.state disk.new) result }
    // Where no content is asked for, or the prefix doesn't find one name, no device is called.
    ensures unread { content_asked (contents opened.blobs.records) question.now ≡ None → disk.new ≡ disk.old }
    ensures later { (D.state disk.old).faults ≤ (D.state disk.new).faults }
    // It only reads.
    ensures quiet { Quiet (D.state disk.old) (D.state disk.new) }
{
    let told = report_by(alloc, &mut opened, disk, question);
    drop(opened);
    told
}
