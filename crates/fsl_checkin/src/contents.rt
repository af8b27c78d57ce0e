//! Reads the artifacts of a check-in that a repository holds.
ghost use Rattle.std.specs.Prelude.{◌≡◌, ◌≢◌, ◌∷◌, [], None, IfOk, IfErr, OnOk};
ghost use Rattle.fsl_cross.specs.Facts.{as_manifest};
ghost use Rattle.fsl_repo.specs.Machine.{now};
ghost use Rattle.fsl_checkin.specs.Exports.{checkin_at, content_name, perm_of};
ghost use Rattle.fsl_checkin.specs.Having.{IsContentOr, IsFileContent, IsFileRead, as_kept};
ghost use Rattle.fsl_checkin.specs.Reads.{AreCardsOf, AreCardsRead, ExportFails, IsOnlyRead, content_names, kept_by};

use crate::answers::ExportFault;
use crate::{Perm, TreeItem};
use fsl_artifact::Artifact;
use fsl_blobs::BlobFault;
use fsl_disk::Disk;
use fsl_files as files;
use fsl_files::FileRow;
use fsl_name::Name;
use fsl_repo::{Repo, read_artifact};
use fsl_text::{Memory, Text};
use std::alloc::Global;

/// The cards of a check-in that an export and a test of its checksum look at.
#[derive(Clone, Copy)]
pub(crate) struct KeptCards {
    pub(crate) baseline: Option<Name>,
    pub(crate) checksum: Option<[u8; 16]>,
}

/// The content of a name as it is read, where it is held.
fn content_at<D: Disk>(repo: &mut Repo<D>, name: Name) -> Result<Option<Text>, ExportFault>
    ensures content { IfOk result (IsContentOr repo.old.seen.state name) }
    ensures fault { IfErr result (λ why. ExportFails why repo.old.seen.state (name ∷ []) repo.new.seen.state) }
    ensures count { OnOk result (repo.new.seen.state ≡ repo.old.seen.state) }
    ensures repo { IsOnlyRead D.state repo.old repo.new }
{
    match repo.content(name) {
        Ok(text) => Ok(Some(text)),
        Err(fault) => match fault {
            BlobFault::Absent => Ok(None),
            BlobFault::Disk => Err(ExportFault::Disk),
            BlobFault::Damaged { found } => Err(ExportFault::Damaged { name, found }),
            BlobFault::Memory => Err(ExportFault::Memory),
        },
    }
}

/// The cards of an artifact, none where it is no check-in.
fn cards_of(artifact: &Artifact) -> KeptCards
    ensures { as_kept result ≡ kept_by (as_manifest artifact.now) }
{
    match artifact {
        Artifact::Manifest(manifest) => KeptCards {
            baseline: manifest.baseline,
            checksum: manifest.checksum,
        },
        _ => KeptCards {
            baseline: None,
            checksum: None,
        },
    }
}

/// The cards of the check-in of some bytes, none where they are no check-in.
fn cards_in(alloc: Global, bytes: &[u8]) -> Result<KeptCards, Memory>
    ensures { IfOk result (λ cards. AreCardsOf bytes.now (as_kept cards)) }
{
    match read_artifact(alloc, bytes) {
        Ok(artifact) => {
            let cards = cards_of(&artifact);
            drop(artifact);
            Ok(cards)
        }
        Err(_) => Err(Memory),
    }
}

/// The cards of the check-in of a name, as its text is read.
pub(crate) fn cards_at<D: Disk>(
    alloc: Global,
    repo: &mut Repo<D>,
    name: Name,
) -> Result<KeptCards, ExportFault>
    requires { checkin_at repo.old.seen.items name ≢ None }
    ensures cards { IfOk result (λ cards. AreCardsRead repo.old.seen.state.honest (now repo.old.seen.state).held name (as_kept cards)) }
    ensures fault { IfErr result (λ why. ExportFails why repo.old.seen.state (name ∷ []) repo.new.seen.state) }
    ensures count { OnOk result (repo.new.seen.state ≡ repo.old.seen.state) }
    ensures repo { IsOnlyRead D.state repo.old repo.new }
{
    repo.is_whole();
    match content_at(repo, name) {
        Ok(Some(text)) => match cards_in(alloc, text.bytes()) {
            Ok(cards) => Ok(cards),
            Err(_) => Err(ExportFault::Memory),
        },
        Ok(None) => unreachable!(),
        Err(fault) => Err(fault),
    }
}

/// The name of a file's content, where it isn't foreign.
fn content_name(file: &FileRow) -> Option<Name>
    ensures { result ≡ content_name file.now }
{
    match &file.hash {
        Some(hash) => hash.own(),
        None => None,
    }
}

/// The content of a file as it is read, where it is held.
pub(crate) fn content_of<D: Disk>(
    repo: &mut Repo<D>,
    file: &FileRow,
) -> Result<Option<Text>, ExportFault>
    ensures content { IfOk result (IsFileContent repo.old.seen.state file.now) }
    ensures fault { IfErr result (λ why. ExportFails why repo.old.seen.state (content_names (file.now ∷ [])) repo.new.seen.state) }
    ensures count { OnOk result (repo.new.seen.state ≡ repo.old.seen.state) }
    ensures repo { IsOnlyRead D.state repo.old repo.new }
{
    match content_name(file) {
        Some(name) => content_at(repo, name),
        None => Ok(None),
    }
}

/// A permission in a tree.
fn tree_perm(perm: files::Perm) -> Perm
    ensures { result ≡ perm_of perm }
{
    match perm {
        files::Perm::Plain | files::Perm::Writable => Perm::Plain,
        files::Perm::Exec => Perm::Exec,
        files::Perm::Symlink => Perm::Symlink,
    }
}

/// A file with its content as it is read, where that is held.
pub(crate) fn file_at<D: Disk>(
    alloc: Global,
    repo: &mut Repo<D>,
    file: &FileRow,
) -> Result<Option<TreeItem>, ExportFault>
    ensures item { IfOk result (IsFileRead repo.old.seen.state file.now) }
    ensures fault { IfErr result (λ why. ExportFails why repo.old.seen.state (content_names (file.now ∷ [])) repo.new.seen.state) }
    ensures count { OnOk result (repo.new.seen.state ≡ repo.old.seen.state) }
    ensures repo { IsOnlyRead D.state repo.old repo.new }
{
    let path = Text::of(alloc, file.path.bytes())?;
    match content_of(repo, file) {
        Ok(Some(bytes)) => Ok(Some(TreeItem {
            path,
            perm: tree_perm(file.perm),
            bytes,
        })),
        Ok(None) => Ok(None),
        Err(fault) => Err(fault),
    }
}
