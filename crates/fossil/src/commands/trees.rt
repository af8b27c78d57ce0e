//! `export` and `verify`: write the tree of a check-in, and test its checksum.
ghost use Rattle.std.specs.Prelude.{◌≡◌, ◌++◌, [], IfOk, OnOk};
ghost use Rattle.hex.specs.Hex.{encode_lower};
ghost use Rattle.fsl_query.specs.Reports.{name_found};
ghost use Rattle.fsl_repo.specs.Machine.{now};
ghost use Rattle.fsl_checkin.specs.Reads.{IsOnlyRead};
ghost use Rattle.fsl_checkin.specs.declared.answers.Verdict.TheVariants.{Wrong};
ghost use Rattle.fsl_words.specs.declared.Command.TheVariants as command_of;
ghost use Rattle.fossil.specs.Trees.{export_printed, incomplete, line_of, verdict_printed};
ghost use Rattle.fossil.specs.TreeCall.{IsNamedAnswer, exporting, fault_as, verifying};
ghost use Rattle.fossil.specs.RunCall.{ActsUnread, ActsOpened};

use crate::answers::answer::{Answer, refusal};
use crate::answers::due::Due;
use crate::answers::fault::Fault;
use crate::answers::reporting::question_refusal;
use crate::answers::status::DONE;
use crate::reading::load::not_loaded;
use fsl_blobs::Found;
use fsl_checkin::{Export, ExportFault, Verdict, export, tree_text, verify};
use fsl_disk::Disk;
use fsl_name::{Name, Ref};
use fsl_query::Refused;
use fsl_repo::Repo;
use fsl_text::{Memory, Text};
use std::alloc::Global;

/// The name of the one held artifact whose digits begin with a prefix, or its refusal.
pub(crate) fn found_one<D: Disk>(
    alloc: Global,
    repo: &Repo<D>,
    prefix: &Text,
) -> Result<Result<Name, Refused>, Memory>
    ensures { IfOk result (λ found. found ≡ name_found (now repo.now.seen.state) prefix.now) }
{
    match repo.find(prefix.bytes()) {
        Found::One(name) => Ok(Ok(name)),
        Found::Nothing => Ok(Err(Refused::NoArtifact {
            prefix: Text::of(alloc, prefix.bytes())?,
        })),
        Found::Several => Ok(Err(Refused::SeveralArtifacts {
            prefix: Text::of(alloc, prefix.bytes())?,
        })),
    }
}

/// Why a check-in can't be read.
fn unread(fault: ExportFault) -> Fault
    ensures { result ≡ fault_as fault }
{
    match fault {
        ExportFault::Disk => Fault::Disk,
        ExportFault::Damaged { name, found } => Fault::Damaged { name, found },
        ExportFault::Memory => Fault::Memory,
    }
}

/// What a check-in lacks.
fn lacking(alloc: Global, missing: &Ref) -> Result<Text, Memory>
    ensures { IfOk result (λ text. text ≡ incomplete missing.now) }
{
    let mut digits = [0u8; 64];
    let count = missing.write(&mut digits) as usize;
    let mut text = Text::of(alloc, b"incomplete ")?;
    text.append(&digits[..count])?;
    Ok(text)
}

/// A line with these bytes.
fn done_line(alloc: Global, bytes: &[u8]) -> Result<Answer, Memory>
    ensures { IfOk result (λ a. a ≡ line_of bytes.now) }
{
    let mut text = Text::of(alloc, bytes)?;
    text.append(b"\n")?;
    Ok(Answer { status: DONE, text })
}

/// Puts the 32 digits of a checksum at the end of a text, in lower case.
fn append_sum(into: &mut Text, sum: &[u8; 16]) -> Result<(), Memory>
    ensures { OnOk result (into.new ≡ into.old ++ encode_lower sum.now) }
{
    let mut digits = [0u8; 32];
    let _ = hex::encode_to_slice(sum, &mut digits);
    into.append(&digits)
}

/// The line of a check-in whose R card has the first of these checksums, and its tree the second.
fn wrong_line(alloc: Global, kept: [u8; 16], found: [u8; 16]) -> Result<Answer, Memory>
    ensures { IfOk result (λ a. a ≡ verdict_printed [] (Wrong kept found)) }
{
    let mut text = Text::of(alloc, b"wrong ")?;
    append_sum(&mut text, &kept)?;
    text.append(b" ")?;
    append_sum(&mut text, &found)?;
    done_line(alloc, text.bytes())
}

/// What an export of this name came to.
fn export_answer(alloc: Global, name: Name, found: Export) -> Result<Answer, Memory>
    ensures { IfOk result (λ a. a ≡ export_printed name found) }
{
    match found {
        Export::NotCheckin => question_refusal(alloc, Refused::NotCheckin { name }),
        Export::Incomplete { missing } => {
            let reason = lacking(alloc, &missing)?;
            refusal(alloc, reason.bytes())
        }
        Export::Tree(items) => {
            let text = tree_text(alloc, &items);
            drop(items);
            Ok(Answer {
                status: DONE,
                text: text?,
            })
        }
    }
}

/// What a test of the checksum of this name came to.
fn verdict_answer(alloc: Global, name: Name, found: Verdict) -> Result<Answer, Memory>
    ensures { IfOk result (λ a. a ≡ verdict_printed name found) }
{
    match found {
        Verdict::NotCheckin => question_refusal(alloc, Refused::NotCheckin { name }),
        Verdict::NoSum => done_line(alloc, b"no sum"),
        Verdict::Incomplete { missing } => {
            let text = lacking(alloc, &missing)?;
            done_line(alloc, text.bytes())
        }
        Verdict::Wrong { kept, found } => wrong_line(alloc, kept, found),
        Verdict::Right => done_line(alloc, b"right"),
    }
}

/// The tree of the check-in of a name, or why there is none.
fn export_named<D: Disk>(alloc: Global, name: Name, repo: &mut Repo<D>) -> Due
    ensures answer { IsNamedAnswer exporting name (D.state, repo.old, repo.new) result }
    ensures repo { IsOnlyRead D.state repo.old repo.new }
{
    repo.is_whole();
    let found = export(alloc, repo, name);
    repo.is_whole();
    match found {
        Ok(found) => Ok(export_answer(alloc, name, found)?),
        Err(fault) => Err(unread(fault)),
    }
}

/// Whether the checksum of the check-in of a name is that of its tree.
fn verify_named<D: Disk>(alloc: Global, name: Name, repo: &mut Repo<D>) -> Due
    ensures answer { IsNamedAnswer verifying name (D.state, repo.old, repo.new) result }
    ensures repo { IsOnlyRead D.state repo.old repo.new }
{
    repo.is_whole();
    let found = verify(alloc, repo, name);
    repo.is_whole();
    match found {
        Ok(found) => Ok(verdict_answer(alloc, name, found)?),
        Err(fault) => Err(unread(fault)),
    }
}

/// The tree of the check-in whose name has a prefix, of a repository that was opened.
fn export_from<D: Disk>(alloc: Global, prefix: &Text, repo: &mut Repo<D>) -> Due
    ensures { ActsOpened (command_of.Export prefix.now) (D.state, repo.old, repo.new) result }
{
    repo.is_whole();
    match found_one(alloc, repo, prefix)? {
        Ok(name) => export_named(alloc, name, repo),
        Err(refused) => Ok(question_refusal(alloc, refused)?),
    }
}

/// Whether the checksum of the check-in whose name has a prefix is that of its tree, of a repository that was opened.
fn verify_from<D: Disk>(alloc: Global, prefix: &Text, repo: &mut Repo<D>) -> Due
    ensures { ActsOpened (command_of.Verify prefix.now) (D.state, repo.old, repo.new) result }
{
    repo.is_whole();
    match found_one(alloc, repo, prefix)? {
        Ok(name) => verify_named(alloc, name, repo),
        Err(refused) => Ok(question_refusal(alloc, refused)?),
    }
}

/// The tree of the check-in whose name has a prefix. Its contents are read from the disk, and nothing is written. The disk
/// comes back.
pub(crate) fn export_tree<D: Disk>(alloc: Global, prefix: &Text, disk: D) -> (Due, D)
    ensures { ActsUnread (command_of.Export prefix.now) (D.state, disk, result.1) result.0 }
{
    match Repo::load(alloc, disk) {
        Ok(mut repo) => {
            repo.is_whole();
            let answer = export_from(alloc, prefix, &mut repo);
            (answer, repo.close())
        }
        Err((disk, fault)) => (not_loaded(alloc, fault), disk),
    }
}

/// Whether the checksum of the check-in whose name has a prefix is that of its tree. Its contents are read from the disk, and
/// nothing is written. The disk comes back.
pub(crate) fn verify_tree<D: Disk>(alloc: Global, prefix: &Text, disk: D) -> (Due, D)
    ensures { ActsUnread (command_of.Verify prefix.now) (D.state, disk, result.1) result.0 }
{
    match Repo::load(alloc, disk) {
        Ok(mut repo) => {
            repo.is_whole();
            let answer = verify_from(alloc, prefix, &mut repo);
            (answer, repo.close())
        }
        Err((disk, fault)) => (not_loaded(alloc, fault), disk),
    }
}
