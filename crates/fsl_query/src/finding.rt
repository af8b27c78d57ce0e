//! Finds the one held artifact whose digits begin with a prefix.
ghost use Rattle.std.specs.Prelude.{◌≡◌, ◌≤◌, None, Ok, option_map};
ghost use Rattle.fsl_blobs.specs.Content.{IsOf};
ghost use Rattle.fsl_blobs.specs.Fold.{contents};
ghost use Rattle.fsl_blobs.specs.Seen.{AreTrue};
ghost use Rattle.fsl_disk.specs.Disk.{IsModelled, Quiet};
ghost use Rattle.fsl_journal.specs.Journal.{Belongs};
ghost use Rattle.fsl_record.specs.Records.{AreRecords};
ghost use Rattle.fsl_repo.specs.Machine.{Leaves, now};
ghost use Rattle.fsl_repo.specs.Whole.{log_of};
ghost use Rattle.fsl_words.specs.declared.Question.TheVariants as question_of;
ghost use Rattle.fsl_query.specs.Answers.{IsAnswer, IsReportedIn, IsReportedOn, IsContentUntold, content_asked, prefix_of};
ghost use Rattle.fsl_query.specs.Reports.{by_found, name_found};

use crate::{QueryFault, Refused};
use fsl_blobs::{BlobFault, Blobs, Found};
use fsl_disk::Disk;
use fsl_journal::Journal;
use fsl_name::Name;
use fsl_repo::Repo;
use fsl_text::Text;
use fsl_words::Question;
use std::alloc::Global;

/// The one name that a prefix found.
fn one(alloc: Global, found: Found, prefix: &[u8]) -> Result<Name, QueryFault>
    ensures { IsAnswer (by_found prefix.now (λ name. Ok name) found) result }
{
    match found {
        Found::One(name) => Ok(name),
        Found::Nothing => Err(QueryFault::Refused(Refused::NoArtifact {
            prefix: Text::of(alloc, prefix)?,
        })),
        Found::Several => Err(QueryFault::Refused(Refused::SeveralArtifacts {
            prefix: Text::of(alloc, prefix)?,
        })),
    }
}

/// The name of the one held artifact, of those that were loaded, whose digits begin with a prefix.
pub(crate) fn named(alloc: Global, blobs: &Blobs, prefix: &[u8]) -> Result<Name, QueryFault>
    ensures { IsAnswer (name_found (contents blobs.now.records) prefix.now) result }
{
    one(alloc, blobs.find(prefix), prefix)
}

/// The name of the one held artifact whose digits begin with a prefix.
pub(crate) fn found<D: Disk>(
    alloc: Global,
    repo: &Repo<D>,
    prefix: &[u8],
) -> Result<Name, QueryFault>
    ensures { IsAnswer (name_found (now repo.now.seen.state) prefix.now) result }
{
    one(alloc, repo.find(prefix), prefix)
}

/// The prefix of the name whose content a question asks for.
pub(crate) fn prefix_of(question: &Question) -> Option<&[u8]>
    ensures { option_map (λ p. p.now) result ≡ prefix_of question.now }
{
    match question {
        Question::Cat { prefix } => Some(prefix.bytes()),
        _ => None,
    }
}

/// Why a content isn't told that wasn't read.
fn unread(alloc: Global, prefix: &[u8], name: Name, fault: BlobFault) -> QueryFault
    ensures { IsContentUntold prefix.now name fault result }
{
    match fault {
        BlobFault::Absent => match Text::of(alloc, prefix) {
            Ok(prefix) => QueryFault::Refused(Refused::NoArtifact { prefix }),
            Err(_) => QueryFault::Memory,
        },
        BlobFault::Disk => QueryFault::Disk,
        BlobFault::Damaged { found } => QueryFault::Damaged { name, found },
        BlobFault::Memory => QueryFault::Memory,
    }
}

/// The content of the one held artifact whose digits begin with a prefix, as it is read.
pub(crate) fn copied<D: Disk>(
    alloc: Global,
    repo: &mut Repo<D>,
    prefix: &[u8],
) -> Result<Text, QueryFault>
    ensures means { IsReportedIn repo.old.seen.state (question_of.Cat prefix.now) repo.new.seen.state result }
    ensures unread { content_asked (now repo.old.seen.state) (question_of.Cat prefix.now) ≡ None → repo.new ≡ repo.old }
    ensures state { Leaves repo.old.seen.state repo.old.seen.state repo.new.seen.state }
    ensures items { repo.new.seen.items ≡ repo.old.seen.items }
    ensures loaded { repo.new.seen.loaded ≡ repo.old.seen.loaded }
    ensures log { log_of repo.new ≡ log_of repo.old }
    ensures disk { Quiet (D.state repo.old.disk) (D.state repo.new.disk) }
{
    repo.is_whole();
    let name = found(alloc, repo, prefix)?;
    match repo.content(name) {
        Ok(bytes) => Ok(bytes),
        Err(fault) => Err(unread(alloc, prefix, name, fault)),
    }
}

/// Reads the content of the one held artifact, public or private, whose digits begin with a prefix.
///
/// Errors: `Refused` where there is none, or where there are several; `Disk` where a call of the disk failed; `Damaged`
/// where the bytes that were read have another name; `Memory`.
pub fn content<D: Disk>(
    alloc: Global,
    journal: &Journal,
    blobs: &mut Blobs,
    disk: &mut D,
    prefix: &[u8],
) -> Result<Text, QueryFault>
    requires records { AreRecords blobs.old.records }
    requires same { IsOf journal.now blobs.old }
    requires belongs { Belongs journal.now (D.state disk.old) }
    requires cached { IsModelled (D.state disk.old) → AreTrue blobs.old }
    ensures means { IsReportedOn (D.state disk.old) blobs.old.records (question_of.Cat prefix.now) (D.state disk.new) result }
    // Where the prefix doesn't find one name, no device is called.
    ensures unread { content_asked (contents blobs.old.records) (question_of.Cat prefix.now) ≡ None → disk.new ≡ disk.old }
    ensures later { (D.state disk.old).faults ≤ (D.state disk.new).faults }
    ensures value { blobs.new ≡ record blobs.old { cached = blobs.new.cached } }
    ensures kept { IsModelled (D.state disk.old) → AreTrue blobs.old → AreTrue blobs.new }
    // It only reads.
    ensures quiet { Quiet (D.state disk.old) (D.state disk.new) }
{
    let name = named(alloc, blobs, prefix)?;
    match blobs.content(alloc, journal, disk, name) {
        Ok(bytes) => Ok(bytes),
        Err(fault) => Err(unread(alloc, prefix, name, fault)),
    }
}
