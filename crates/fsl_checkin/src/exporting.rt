//! Takes the tree of a check-in back out.
ghost use Rattle.std.specs.Prelude.{◌≡◌, ◌∷◌, [], true, None, IfOk, IfErr, OnOk, IsTrue, is_some};
ghost use Rattle.std.specs.List.{list_all};
ghost use Rattle.fsl_name.specs.declared.reference.Ref.TheVariants.{Own};
ghost use Rattle.fsl_files.specs.Files.{files};
ghost use Rattle.fsl_files.specs.declared.Listing.TheVariants.{NoBaseline};
ghost use Rattle.fsl_repo.specs.Machine.{now};
ghost use Rattle.fsl_checkin.specs.Exports.{IsExport, checkin_at, checkins};
ghost use Rattle.fsl_checkin.specs.Having.{IsFileAdded, IsFilled, IsLackingOf, as_kept};
ghost use Rattle.fsl_checkin.specs.Reads.{ExportFails, ExportRead, FilesFail, IsOnlyRead, asked_of, baseline_or, content_names};

use crate::TreeItem;
use crate::answers::{Export, ExportFault};
use crate::contents::{KeptCards, cards_at, file_at};
use fsl_disk::Disk;
use fsl_files::{FileRow, Listing};
use fsl_name::{Name, Ref};
use fsl_repo::Repo;
use fsl_text::{List, Memory};
use std::alloc::Global;

/// The files of a name, by path.
pub(crate) fn files_at<D: Disk>(
    alloc: Global,
    repo: &Repo<D>,
    name: Name,
) -> Result<Listing, Memory>
    ensures { IfOk result (λ found. found ≡ files (checkins repo.now.seen.items) name) }
{
    repo.tables().files().files(alloc, name)
}

/// Puts a file with its content as it is read behind others, and answers whether that is held.
fn add_file<D: Disk>(
    alloc: Global,
    repo: &mut Repo<D>,
    items: &mut List<TreeItem>,
    file: &FileRow,
) -> Result<bool, ExportFault>
    ensures added { IfOk result (IsFileAdded repo.old.seen.state file.now items.old items.new) }
    ensures fault { IfErr result (λ why. ExportFails why repo.old.seen.state (content_names (file.now ∷ [])) repo.new.seen.state) }
    ensures count { OnOk result (repo.new.seen.state ≡ repo.old.seen.state) }
    ensures repo { IsOnlyRead D.state repo.old repo.new }
{
    match file_at(alloc, repo, file) {
        Ok(Some(item)) => match items.append(item) {
            Ok(()) => Ok(true),
            Err(_) => Err(ExportFault::Memory),
        },
        Ok(None) => Ok(false),
        Err(fault) => Err(fault),
    }
}

/// What is answered where this isn't held.
fn lacking(missing: Option<Ref>) -> Export
    requires { IsTrue (is_some missing) }
    ensures { IsLackingOf missing result }
{
    match missing {
        Some(missing) => Export::Incomplete { missing },
        None => Export::NotCheckin,
    }
}

/// Files, each of which has a hash, with their contents as they are read; or the first that is foreign or not held.
fn filled<D: Disk>(
    alloc: Global,
    repo: &mut Repo<D>,
    files: &[FileRow],
) -> Result<Export, ExportFault>
    requires { IsTrue (list_all (λ file. is_some file.hash) files.now) }
    ensures export { IfOk result (IsFilled repo.old.seen.state files.now) }
    ensures fault { IfErr result (λ why. FilesFail why repo.old.seen.state files.now repo.new.seen.state) }
    ensures count { OnOk result (repo.new.seen.state ≡ repo.old.seen.state) }
    ensures repo { IsOnlyRead D.state repo.old repo.new }
{
    let mut items = List::new(alloc);
    for file in files {
        match add_file(alloc, repo, &mut items, file) {
            Ok(there) => {
                if !there {
                    return Ok(lacking(file.hash));
                }
            }
            Err(fault) => return Err(fault),
        }
    }
    Ok(Export::Tree(items))
}

/// The baseline of a check-in, or its own name where its text is read as one that has none.
pub(crate) fn baseline_or(name: Name, cards: KeptCards) -> Ref
    ensures { result ≡ Own (baseline_or name (as_kept cards)) }
{
    match cards.baseline {
        Some(baseline) => Ref::Own(baseline),
        None => Ref::Own(name),
    }
}

/// What is answered of a check-in whose files aren't defined: its baseline is missing.
fn without_baseline<D: Disk>(
    alloc: Global,
    repo: &mut Repo<D>,
    name: Name,
) -> Result<Export, ExportFault>
    requires { files (checkins repo.old.seen.items) name ≡ NoBaseline }
    ensures read { IfOk result (ExportRead repo.old.seen name) }
    ensures fault { IfErr result (λ why. ExportFails why repo.old.seen.state (asked_of repo.old.seen name) repo.new.seen.state) }
    ensures count { OnOk result (repo.new.seen.state ≡ repo.old.seen.state) }
    ensures repo { IsOnlyRead D.state repo.old repo.new }
{
    repo.is_whole();
    match cards_at(alloc, repo, name) {
        Ok(cards) => Ok(Export::Incomplete {
            missing: baseline_or(name, cards),
        }),
        Err(fault) => Err(fault),
    }
}

/// The tree of a check-in, with each content as it is read.
fn exported<D: Disk>(alloc: Global, repo: &mut Repo<D>, name: Name) -> Result<Export, ExportFault>
    ensures read { IfOk result (ExportRead repo.old.seen name) }
    ensures fault { IfErr result (λ why. ExportFails why repo.old.seen.state (asked_of repo.old.seen name) repo.new.seen.state) }
    ensures count { OnOk result (repo.new.seen.state ≡ repo.old.seen.state) }
    ensures unread { checkin_at repo.old.seen.items name ≡ None → repo.new ≡ repo.old }
    ensures repo { IsOnlyRead D.state repo.old repo.new }
{
    repo.is_whole();
    match files_at(alloc, repo, name) {
        Ok(Listing::NotCheckin) => Ok(Export::NotCheckin),
        Ok(Listing::NoBaseline) => without_baseline(alloc, repo, name),
        Ok(Listing::Known(files)) => filled(alloc, repo, files.items()),
        Err(_) => Err(ExportFault::Memory),
    }
}

/// Returns the tree of a check-in: its files by rising path, each with its content. The answer `Incomplete` names the artifact
/// that isn't held. That is the baseline where the files aren't defined, else the hash of the first file, by path, that is
/// foreign or whose content isn't held. The answer is `NotCheckin` where no check-in has the name. Each content is read from the
/// disk and its name is tested. Over a disk that tells its contents and meets the disk model the contents are the held ones. Over
/// every other disk they have the name and the size of these. Nothing changes but the disk's count of faults.
///
/// Errors: `Disk` where a call of the disk failed, `Damaged` where the bytes that were read for a content that the tree asks
/// for have another name, or `Memory`. Behind a file that isn't held no content is asked for.
/// FORMATS: Trees
pub fn export<D: Disk>(alloc: Global, repo: &mut Repo<D>, name: Name) -> Result<Export, ExportFault>
    ensures export { repo.old.seen.state.honest ≡ true → IfOk result (IsExport (now repo.old.seen.state).held repo.old.seen.items name) }
    ensures read { IfOk result (ExportRead repo.old.seen name) }
    ensures fault { IfErr result (λ why. ExportFails why repo.old.seen.state (asked_of repo.old.seen name) repo.new.seen.state) }
    ensures count { OnOk result (repo.new.seen.state ≡ repo.old.seen.state) }
    // Where no check-in has the name, no device is called.
    ensures unread { checkin_at repo.old.seen.items name ≡ None → repo.new ≡ repo.old }
    ensures repo { IsOnlyRead D.state repo.old repo.new }
{
    repo.is_whole();
    exported(alloc, repo, name)
}
