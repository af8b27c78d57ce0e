//! `checkin`: a tree becomes a check-in.
ghost use Rattle.std.specs.Prelude.{◌≡◌, ◌≢◌, [], None, IfOk, is_some, map};
ghost use Rattle.fsl_files.specs.Files.{files};
ghost use Rattle.fsl_checkin.specs.Exports.{checkin_at, checkins};
ghost use Rattle.fsl_query.specs.Reports.{of_prefix};
ghost use Rattle.fsl_repo.specs.Machine.{now};
ghost use Rattle.fossil.specs.Checkins as due;
ghost use Rattle.fossil.specs.Checkins.{sent_of};
ghost use Rattle.fossil.specs.CheckinCall.{AreArriving, ChecksInput, ChecksOver, ChecksText, ChecksTree, ChecksWith, IsToWrite, asked_for};
ghost use Rattle.fossil.specs.RunCall.{ActsReading};

use crate::answers::answer::{Answer, numbered_refusal, too_long};
use crate::answers::due::Due;
use crate::answers::fault::Fault;
use crate::answers::ingest_report::add_line;
use crate::answers::reporting::question_refusal;
use crate::answers::status::DONE;
use crate::commands::put::put_receipt;
use crate::commands::trees::found_one;
use crate::reading::arrivals::{Arrivals, arrive};
use crate::reading::input::read_input;
use crate::reading::load::not_loaded;
use crate::reading::message::MessageFile;
use fsl_checkin::{TreeFault, TreeItem, manifest, read_tree};
use fsl_date::Moment;
use fsl_disk::Disk;
use fsl_files::Listing;
use fsl_name::Name;
use fsl_outside::{Clock, Source};
use fsl_query::Refused;
use fsl_record::Receipt;
use fsl_repo::Repo;
use fsl_text::{List, Memory, Text};
use std::alloc::Global;

/// A check-in that is asked for: the prefix of its parent's name, where it has a parent, its user and its comment.
#[derive(Drop)]
pub(crate) struct NewCheckin {
    pub parent: Option<Text>,
    pub user: Text,
    pub comment: Text,
}

/// What arrives of a tree that is checked in, and the name of the check-in.
#[derive(Drop)]
struct Arriving {
    name: Name,
    files: List<MessageFile>,
}

/// The files of a name.
fn listing_at<D: Disk>(alloc: Global, repo: &Repo<D>, name: Name) -> Result<Listing, Memory>
    ensures { IfOk result (λ found. found ≡ files (checkins repo.now.seen.items) name) }
{
    repo.tables().files().files(alloc, name)
}

/// Whether a name is that of a check-in.
fn is_checkin<D: Disk>(alloc: Global, repo: &Repo<D>, name: Name) -> Result<bool, Memory>
    ensures { IfOk result (λ is. is ≡ is_some (checkin_at repo.now.seen.items name)) }
{
    repo.is_whole();
    match listing_at(alloc, repo, name)? {
        Listing::NotCheckin => Ok(false),
        Listing::NoBaseline => Ok(true),
        Listing::Known(files) => {
            drop(files);
            Ok(true)
        }
    }
}

/// The check-in of a name as a parent, or its refusal.
fn checkin_or<D: Disk>(
    alloc: Global,
    repo: &Repo<D>,
    name: Name,
) -> Result<Result<Option<Name>, Refused>, Memory>
    ensures { IfOk result (λ found. found ≡ due.checkin_or repo.now.seen.items name) }
{
    if is_checkin(alloc, repo, name)? {
        Ok(Ok(Some(name)))
    } else {
        Ok(Err(Refused::NotCheckin { name }))
    }
}

/// The check-in whose name has a prefix as a parent, or the refusal.
fn parent_named<D: Disk>(
    alloc: Global,
    repo: &Repo<D>,
    prefix: &Text,
) -> Result<Result<Option<Name>, Refused>, Memory>
    ensures { IfOk result (λ found. found ≡ of_prefix (now repo.now.seen.state) prefix.now (due.checkin_or repo.now.seen.items)) }
{
    match found_one(alloc, repo, prefix)? {
        Ok(name) => checkin_or(alloc, repo, name),
        Err(refused) => Ok(Err(refused)),
    }
}

/// The parent, where one is asked for, or its refusal.
fn parent_of<D: Disk>(
    alloc: Global,
    repo: &Repo<D>,
    parent: &Option<Text>,
) -> Result<Result<Option<Name>, Refused>, Memory>
    ensures { IfOk result (λ found. found ≡ due.parent_of (now repo.now.seen.state) repo.now.seen.items parent.now) }
{
    match parent {
        Some(prefix) => parent_named(alloc, repo, prefix),
        None => Ok(Ok(None)),
    }
}

/// A content as it arrives: public, and under its own name.
fn sent(alloc: Global, bytes: &[u8]) -> Result<MessageFile, Memory>
    ensures { IfOk result (λ f. f ≡ sent_of bytes.now) }
{
    Ok(MessageFile {
        name: Name::of(bytes),
        bytes: Text::of(alloc, bytes)?,
        private: false,
    })
}

/// The contents of a tree as they arrive.
fn contents(alloc: Global, items: &[TreeItem]) -> Result<Vec<MessageFile>, Memory>
    ensures { IfOk result (λ files. files.items ≡ map (λ item. sent_of item.bytes) items.now) }
{
    let mut files = Vec::new(alloc);
    for item in items {
        files.push(sent(alloc, item.bytes.bytes())?)?;
    }
    Ok(files)
}

/// What arrives of a tree that is checked in over this parent at this moment.
fn to_arrive(
    alloc: Global,
    asked: &NewCheckin,
    items: &List<TreeItem>,
    parent: Option<Name>,
    moment: Moment,
) -> Result<Arriving, Memory>
    requires { IsToWrite asked.now items.now }
    ensures { IfOk result (AreArriving asked.now items.now parent moment) }
{
    let text = manifest(
        alloc,
        items,
        parent,
        asked.user.bytes(),
        asked.comment.bytes(),
        moment,
    )?;
    let name = Name::of(text.bytes());
    let mut files = List::from_vec(contents(alloc, items.items())?);
    files.append(MessageFile {
        name,
        bytes: text,
        private: false,
    })?;
    Ok(Arriving { name, files })
}

/// Checks a tree in over a parent, with this receipt, in a repository that was opened, and commits it. Where an arrival is
/// refused, or there is no memory, nothing is committed.
fn check_in<D: Disk>(
    alloc: Global,
    asked: &NewCheckin,
    items: &List<TreeItem>,
    parent: Option<Name>,
    receipt: &Receipt,
    repo: &mut Repo<D>,
) -> Due
    requires can { IsToWrite asked.now items.now }
    requires runs { repo.old.seen.state.stopped ≡ None }
    ensures { ChecksWith asked.now receipt.now items.now parent (D.state, repo.old, repo.new) result }
{
    repo.is_whole();
    let made = to_arrive(alloc, asked, items, parent, receipt.moment())?;
    let name = made.name;
    let mut text = match arrive(alloc, made.files, receipt, repo)? {
        Arrivals::Taken(text) => text,
        Arrivals::Refused(answer) => return Ok(answer),
    };
    add_line(&mut text, b"checkin", &name)?;
    repo.is_whole();
    let committed = repo.commit();
    repo.is_whole();
    match committed {
        Ok(_) => Ok(Answer { status: DONE, text }),
        // No commit has failed before, so the disk did.
        Err(_) => Err(Fault::Disk),
    }
}

/// Checks a tree in over a parent, in a repository that was opened, behind one moment of the clock.
fn check_over<C: Clock, D: Disk>(
    alloc: Global,
    asked: &NewCheckin,
    items: &List<TreeItem>,
    parent: Option<Name>,
    clock: &mut C,
    repo: &mut Repo<D>,
) -> Due
    requires can { IsToWrite asked.now items.now }
    requires runs { repo.old.seen.state.stopped ≡ None }
    ensures { ChecksOver asked.now items.now parent (C.told, clock.old, clock.new) (D.state, repo.old, repo.new) result }
{
    let receipt = put_receipt(alloc, clock);
    let answer = check_in(alloc, asked, items, parent, &receipt, repo);
    drop(receipt);
    answer
}

/// Checks a tree in, in a repository that was opened: its parent is refused, or else it is checked in over it.
fn check_tree<C: Clock, D: Disk>(
    alloc: Global,
    asked: &NewCheckin,
    items: &List<TreeItem>,
    clock: &mut C,
    repo: &mut Repo<D>,
) -> Due
    requires can { IsToWrite asked.now items.now }
    requires runs { repo.old.seen.state.stopped ≡ None }
    ensures { ChecksTree asked.now items.now (C.told, clock.old, clock.new) (D.state, repo.old, repo.new) result }
{
    repo.is_whole();
    match parent_of(alloc, repo, &asked.parent)? {
        Ok(parent) => check_over(alloc, asked, items, parent, clock, repo),
        Err(refused) => Ok(question_refusal(alloc, refused)?),
    }
}

/// Checks the tree in that a text is, in a repository that was opened, or refuses an item.
fn check_text<C: Clock, D: Disk>(
    alloc: Global,
    asked: &NewCheckin,
    text: &[u8],
    clock: &mut C,
    repo: &mut Repo<D>,
) -> Due
    requires user { asked.now.user ≢ [] }
    requires comment { asked.now.comment ≢ [] }
    requires runs { repo.old.seen.state.stopped ≡ None }
    ensures { ChecksText asked.now text.now (C.told, clock.old, clock.new) (D.state, repo.old, repo.new) result }
{
    let _ = text.len();
    match read_tree(alloc, text) {
        Ok(items) => {
            let answer = check_tree(alloc, asked, &items, clock, repo);
            drop(items);
            answer
        }
        Err(TreeFault::Item { number }) => Ok(numbered_refusal(alloc, b"item ", number)?),
        Err(TreeFault::Memory) => Err(Fault::Memory),
    }
}

/// Reads the input, and checks the tree in that it is, in a repository that was opened.
fn check_input<S: Source, C: Clock, D: Disk>(
    alloc: Global,
    asked: &NewCheckin,
    input: &mut S,
    clock: &mut C,
    repo: &mut Repo<D>,
) -> Due
    requires user { asked.now.user ≢ [] }
    requires comment { asked.now.comment ≢ [] }
    requires runs { repo.old.seen.state.stopped ≡ None }
    ensures { ChecksInput asked.now (S.state, input.old, input.new) (C.told, clock.old, clock.new) (D.state, repo.old, repo.new) result }
{
    match read_input(alloc, input)? {
        Some(text) => check_text(alloc, asked, text.bytes(), clock, repo),
        None => Ok(too_long(alloc)?),
    }
}

/// Checks the tree in that the input is: its contents in order and then the text of the check-in are taken as `put` takes
/// files, all in one commit, or none. The disk comes back. The clock is asked once, behind the reading of the tree and of the
/// parent, and not at all where one of these is refused; the check-in has that moment, and so has the receipt of each artifact
/// that is stored.
pub(crate) fn checkin<S: Source, C: Clock, D: Disk>(
    alloc: Global,
    asked: &NewCheckin,
    input: &mut S,
    clock: &mut C,
    disk: D,
) -> (Due, D)
    requires user { asked.now.user ≢ [] }
    requires comment { asked.now.comment ≢ [] }
    ensures { ActsReading (asked_for asked.now) (S.state, input.old, input.new) (C.told, clock.old, clock.new) (D.state, disk, result.1) result.0 }
{
    match Repo::load(alloc, disk) {
        Ok(mut repo) => {
            repo.is_whole();
            let answer = check_input(alloc, asked, input, clock, &mut repo);
            (answer, repo.close())
        }
        Err((disk, fault)) => (not_loaded(alloc, fault), disk),
    }
}
