//! Tests the checksum of a check-in against its tree.
ghost use Rattle.std.specs.Prelude.{◌≡◌, ◌∷◌, [], true, None, IfOk, IfErr, OnOk, IsTrue, is_some};
ghost use Rattle.std.specs.List.{list_all};
ghost use Rattle.fsl_files.specs.Files.{files};
ghost use Rattle.fsl_files.specs.declared.Listing.TheVariants.{Known, NoBaseline};
ghost use Rattle.fsl_repo.specs.Machine.{now};
ghost use Rattle.fsl_checkin.specs.Exports.{IsVerdict, checkin_at, checkins};
ghost use Rattle.fsl_checkin.specs.Having.{IsAbsorbed, IsCompared, IsJudged, IsMissing, IsSummed};
ghost use Rattle.fsl_checkin.specs.Reads.{ExportFails, FilesFail, IsOnlyRead, VerdictRead, VerifyFails, content_names};

use crate::answers::{ExportFault, Verdict};
use crate::contents::{cards_at, content_of};
use crate::exporting::{baseline_or, files_at};
use crate::sums::take_file;
use fsl_disk::Disk;
use fsl_files::{FileRow, Listing};
use fsl_name::{Name, Ref};
use fsl_repo::Repo;
use md5::{Digest, Md5};
use std::alloc::Global;

/// The checksum of files with their contents, or what isn't held.
#[derive(Clone, Copy)]
enum Total {
    Sum([u8; 16]),
    Missing(Option<Ref>),
}

/// Takes a file with its content as it is read into a checksum, and answers whether the content is held. Only one content
/// is in memory at a time.
fn absorb<D: Disk>(
    repo: &mut Repo<D>,
    hasher: &mut Md5,
    file: &FileRow,
) -> Result<bool, ExportFault>
    ensures absorbed { IfOk result (λ there. IsAbsorbed repo.old.seen.state file.now hasher.old hasher.new there) }
    ensures fault { IfErr result (λ why. ExportFails why repo.old.seen.state (content_names (file.now ∷ [])) repo.new.seen.state) }
    ensures count { OnOk result (repo.new.seen.state ≡ repo.old.seen.state) }
    ensures repo { IsOnlyRead D.state repo.old repo.new }
{
    match content_of(repo, file) {
        Ok(Some(bytes)) => {
            take_file(hasher, file.path.bytes(), bytes.bytes());
            Ok(true)
        }
        Ok(None) => Ok(false),
        Err(fault) => Err(fault),
    }
}

/// The checksum of files with their contents as they are read, or the hash of the first that is foreign or not held.
fn summed<D: Disk>(repo: &mut Repo<D>, files: &[FileRow]) -> Result<Total, ExportFault>
    ensures summed { IfOk result (IsSummed repo.old.seen.state files.now) }
    ensures fault { IfErr result (λ why. FilesFail why repo.old.seen.state files.now repo.new.seen.state) }
    ensures count { OnOk result (repo.new.seen.state ≡ repo.old.seen.state) }
    ensures repo { IsOnlyRead D.state repo.old repo.new }
{
    let mut hasher = Md5::new();
    for file in files {
        match absorb(repo, &mut hasher, file) {
            Ok(there) => {
                if !there {
                    return Ok(Total::Missing(file.hash));
                }
            }
            Err(fault) => return Err(fault),
        }
    }
    Ok(Total::Sum(hasher.finalize()))
}

/// What is answered where a check-in has this checksum, and its tree that one.
fn compared(kept: [u8; 16], found: [u8; 16]) -> Verdict
    ensures { IsCompared kept found result }
{
    if kept == found {
        Verdict::Right
    } else {
        Verdict::Wrong { kept, found }
    }
}

/// What is answered where this isn't held.
fn lacking(missing: Option<Ref>) -> Verdict
    requires { IsTrue (is_some missing) }
    ensures { IsMissing missing result }
{
    match missing {
        Some(missing) => Verdict::Incomplete { missing },
        None => Verdict::NotCheckin,
    }
}

/// What is answered of a check-in with this checksum and these files, each of which has a hash.
fn judged<D: Disk>(
    repo: &mut Repo<D>,
    files: &[FileRow],
    kept: [u8; 16],
) -> Result<Verdict, ExportFault>
    requires { IsTrue (list_all (λ file. is_some file.hash) files.now) }
    ensures verdict { IfOk result (IsJudged repo.old.seen.state files.now kept) }
    ensures fault { IfErr result (λ why. FilesFail why repo.old.seen.state files.now repo.new.seen.state) }
    ensures count { OnOk result (repo.new.seen.state ≡ repo.old.seen.state) }
    ensures repo { IsOnlyRead D.state repo.old repo.new }
{
    match summed(repo, files) {
        Ok(Total::Sum(found)) => Ok(compared(kept, found)),
        Ok(Total::Missing(missing)) => Ok(lacking(missing)),
        Err(fault) => Err(fault),
    }
}

/// What is answered of a check-in with these files.
fn tested<D: Disk>(
    alloc: Global,
    repo: &mut Repo<D>,
    name: Name,
    rows: &[FileRow],
) -> Result<Verdict, ExportFault>
    requires { files (checkins repo.old.seen.items) name ≡ Known rows.now }
    ensures read { IfOk result (VerdictRead repo.old.seen name) }
    ensures fault { IfErr result (λ why. VerifyFails why repo.old.seen name repo.new.seen.state) }
    ensures count { OnOk result (repo.new.seen.state ≡ repo.old.seen.state) }
    ensures repo { IsOnlyRead D.state repo.old repo.new }
{
    repo.is_whole();
    match cards_at(alloc, repo, name) {
        Ok(cards) => match cards.checksum {
            Some(kept) => judged(repo, rows, kept),
            None => Ok(Verdict::NoSum),
        },
        Err(fault) => Err(fault),
    }
}

/// What is answered of a check-in whose files aren't defined: where it has a checksum, its baseline is missing.
fn without_baseline<D: Disk>(
    alloc: Global,
    repo: &mut Repo<D>,
    name: Name,
) -> Result<Verdict, ExportFault>
    requires { files (checkins repo.old.seen.items) name ≡ NoBaseline }
    ensures read { IfOk result (VerdictRead repo.old.seen name) }
    ensures fault { IfErr result (λ why. VerifyFails why repo.old.seen name repo.new.seen.state) }
    ensures count { OnOk result (repo.new.seen.state ≡ repo.old.seen.state) }
    ensures repo { IsOnlyRead D.state repo.old repo.new }
{
    repo.is_whole();
    match cards_at(alloc, repo, name) {
        Ok(cards) => match cards.checksum {
            Some(_) => Ok(Verdict::Incomplete {
                missing: baseline_or(name, cards),
            }),
            None => Ok(Verdict::NoSum),
        },
        Err(fault) => Err(fault),
    }
}

/// Whether the checksum of a check-in is that of its tree, each as it is read.
fn verified<D: Disk>(alloc: Global, repo: &mut Repo<D>, name: Name) -> Result<Verdict, ExportFault>
    ensures read { IfOk result (VerdictRead repo.old.seen name) }
    ensures fault { IfErr result (λ why. VerifyFails why repo.old.seen name repo.new.seen.state) }
    ensures count { OnOk result (repo.new.seen.state ≡ repo.old.seen.state) }
    ensures unread { checkin_at repo.old.seen.items name ≡ None → repo.new ≡ repo.old }
    ensures repo { IsOnlyRead D.state repo.old repo.new }
{
    repo.is_whole();
    match files_at(alloc, repo, name) {
        Ok(Listing::NotCheckin) => Ok(Verdict::NotCheckin),
        Ok(Listing::NoBaseline) => without_baseline(alloc, repo, name),
        Ok(Listing::Known(files)) => tested(alloc, repo, name, files.items()),
        Err(_) => Err(ExportFault::Memory),
    }
}

/// Tests whether the checksum of a check-in's R card is that of its tree. The checksum of a tree is the MD5 over all files in the
/// order of their names: of each the name, a space, the size in decimal, a newline and the content. Each content is read once,
/// one at a time. The answer is `NotCheckin` where no check-in has the name, and `NoSum` where it has no R card. The answer
/// `Incomplete` names the artifact that isn't held, as an export does. Over a disk that tells its contents and meets the disk
/// model the contents are the held ones. Over every other disk they have the name and the size of these. Nothing changes but the
/// disk's count of faults.
///
/// Errors: `Disk` where a call of the disk failed, `Damaged` where the bytes that were read for the check-in or for a content
/// of its tree have another name, or `Memory`. The contents of its tree are asked for only where it has an R card,
/// and none behind a file that isn't held.
/// FORMATS: Trees
pub fn verify<D: Disk>(
    alloc: Global,
    repo: &mut Repo<D>,
    name: Name,
) -> Result<Verdict, ExportFault>
    ensures verdict { repo.old.seen.state.honest ≡ true → IfOk result (IsVerdict (now repo.old.seen.state).held repo.old.seen.items name) }
    ensures read { IfOk result (VerdictRead repo.old.seen name) }
    ensures fault { IfErr result (λ why. VerifyFails why repo.old.seen name repo.new.seen.state) }
    ensures count { OnOk result (repo.new.seen.state ≡ repo.old.seen.state) }
    // Where no check-in has the name, no device is called.
    ensures unread { checkin_at repo.old.seen.items name ≡ None → repo.new ≡ repo.old }
    ensures repo { IsOnlyRead D.state repo.old repo.new }
{
    repo.is_whole();
    verified(alloc, repo, name)
}
