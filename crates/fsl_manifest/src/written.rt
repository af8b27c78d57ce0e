//! Says which manifests have a text.
ghost use Rattle.std.specs.Prelude.{◌≡◌, ◌&&◌, is_some, option_to_list};
ghost use Rattle.std.specs.List.{list_all};
ghost use Rattle.fsl_grammar.specs.Forms.{is_tag_written};
ghost use Rattle.fsl_text.specs.Paths.{path_ok};
ghost use Rattle.fsl_manifest.specs.Manifests.{begins_own, files_rise, has_hashes, is_before_first, is_file_written, is_perm_placed, is_well_formed};

use crate::{FileCard, Manifest, Perm};
use fsl_grammar::{TagCard, is_filled, is_tag_written, refs_differ};
use fsl_name::Ref;
use fsl_text::{Text, path_ok};

impl Manifest {
    /// Returns whether the manifest can be written. The comment, the user and each text that is there have a byte. Paths are good
    /// and rise. A permission has a hash before it, and a former path a permission. Each file has a hash, unless there is a
    /// baseline. The parents differ, and the first isn't foreign. It takes no memory, and compares each parent with each one
    /// behind it.
    pub fn well_formed(&self) -> bool
        ensures { result ≡ is_well_formed self.now }
    {
        !self.comment.bytes().is_empty()
            && !self.user.bytes().is_empty()
            && is_filled(&self.mime)
            && all_files_written(self.files.items())
            && files_rise(self.files.items())
            && self.has_hashes()
            && begins_own(self.parents.items())
            && refs_differ(self.parents.items())
            && all_tags_written(self.tags.items())
    }

    /// Returns whether each file has a hash or there is a baseline, and the first parent isn't foreign.
    pub(crate) fn is_whole(&self) -> bool
        ensures { result ≡ (has_hashes self.now && begins_own self.now.parents) }
    {
        self.has_hashes() && begins_own(self.parents.items())
    }

    /// Returns whether each file has a hash, or there is a baseline.
    fn has_hashes(&self) -> bool
        ensures { result ≡ has_hashes self.now }
    {
        self.baseline.is_some() || all_hashed(self.files.items())
    }
}

/// Returns whether the first parent, if there is one, isn't foreign.
fn begins_own(parents: &[Ref]) -> bool
    ensures { result ≡ begins_own parents.now }
{
    match parents {
        [Ref::Foreign(_), ..] => false,
        _ => true,
    }
}

fn all_hashed(files: &[FileCard]) -> bool
    ensures { result ≡ list_all (λ file. is_some file.hash) files.now }
{
    files.iter().all(|file| file.hash.is_some())
}

fn all_tags_written(tags: &[TagCard]) -> bool
    ensures { result ≡ list_all is_tag_written tags.now }
{
    tags.iter().all(|tag| is_tag_written(tag))
}

fn all_files_written(files: &[FileCard]) -> bool
    ensures { result ≡ list_all is_file_written files.now }
{
    files.iter().all(|file| is_file_written(file))
}

fn is_file_written(file: &FileCard) -> bool
    ensures { result ≡ is_file_written file.now }
{
    path_ok(file.path.bytes())
        && is_former_ok(&file.former)
        && is_perm_placed(file.perm, file.hash.is_some(), file.former.is_some())
}

fn is_former_ok(former: &Option<Text>) -> bool
    ensures { result ≡ list_all path_ok (option_to_list former.now) }
{
    match former {
        Some(path) => path_ok(path.bytes()),
        None => true,
    }
}

fn is_perm_placed(perm: Perm, has_hash: bool, has_former: bool) -> bool
    ensures { result ≡ is_perm_placed perm has_hash has_former }
{
    match perm {
        Perm::Plain => !has_former,
        Perm::Exec | Perm::Symlink | Perm::Writable => has_hash,
    }
}

/// Returns whether the files rise by path.
fn files_rise(files: &[FileCard]) -> bool
    ensures { result ≡ files_rise files.now }
{
    let mut rest = files;
    while let Some((first, others)) = rest.split_first() {
        if !is_before_first(first, others) {
            return false;
        }
        rest = others;
    }
    true
}

/// Returns whether a file comes before the first of others by path, if there is one.
fn is_before_first(file: &FileCard, others: &[FileCard]) -> bool
    ensures { result ≡ is_before_first file.now others.now }
{
    match others.first() {
        Some(other) => file.path < other.path,
        None => true,
    }
}
