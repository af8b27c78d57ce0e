//! Reads the values of a check-in.
ghost use Rattle.std.specs.Prelude.{◌≡◌, IfOk, option_map};
ghost use Rattle.std.specs.Option.{option_copied};
ghost use Rattle.fsl_name.specs.Ref.{own_names};
ghost use Rattle.fsl_cross.specs.Facts.{as_manifest};
ghost use Rattle.fsl_cross.specs.Inside.{forced_over, branch_over, date_over, values_over, text_over};

use super::Values;
use fsl_artifact::Artifact;
use fsl_date::Moment;
use fsl_manifest::Manifest;
use fsl_name::{Name, Ref};
use fsl_tags::{Prefix, Tags};
use fsl_text::{List, Memory, Text};
use std::alloc::Global;

/// The own names among references, in their order.
pub(crate) fn own_names(alloc: Global, refs: &[Ref]) -> Result<List<Name>, Memory>
    ensures { IfOk result (λ list. list ≡ own_names refs.now) }
{
    let mut names = Vec::new(alloc);
    for found in refs {
        if let Some(name) = found.own() {
            names.push(name)?;
        }
    }
    Ok(List::from_vec(names))
}

/// The manifest, where an artifact is one.
pub(crate) fn manifest(artifact: &Artifact) -> Option<&Manifest>
    ensures { option_copied result ≡ as_manifest artifact.now }
{
    match artifact {
        Artifact::Manifest(manifest) => Some(manifest),
        _ => None,
    }
}

/// The value of a tag, where it is in force on a name.
fn forced<'a>(tags: &'a Tags, name: Name, tag: &[u8]) -> Option<&'a [u8]>
    ensures { option_copied result ≡ forced_over tags.now.facts name tag.now }
{
    let assertion = tags.effective(name, tag)?;
    match assertion.prefix {
        Prefix::Cancel => None,
        Prefix::Once | Prefix::Propagate => Some(assertion.value.bytes()),
    }
}

/// The value of a tag, where it is in force on a name, else that of a card.
pub(crate) fn text<'a>(tags: &'a Tags, name: Name, tag: &[u8], card: &'a [u8]) -> &'a [u8]
    ensures { result.now ≡ text_over tags.now.facts name tag.now card.now }
{
    match forced(tags, name, tag) {
        Some(value) => value,
        None => card,
    }
}

/// Gives the branch of a check-in, by a table of tags: the value of the tag `branch` where it is in force on the name, else `trunk`.
pub fn branch(tags: &Tags, name: Name) -> &[u8]
    ensures { result.now ≡ branch_over tags.now.facts name }
{
    text(tags, name, b"branch", b"trunk")
}

/// The date of a check-in: the value of the tag `date` where it is in force on the name and is a date, else its card's.
pub(crate) fn date(tags: &Tags, name: Name, manifest: &Manifest) -> Moment
    ensures { result ≡ date_over tags.now.facts name manifest.now }
{
    let Some(value) = forced(tags, name, b"date") else {
        return manifest.date;
    };
    match Moment::read(value) {
        Some(date) => date,
        None => manifest.date,
    }
}

/// The values of a check-in. `Memory` is the only error.
pub(crate) fn values(
    alloc: Global,
    tags: &Tags,
    name: Name,
    manifest: &Manifest,
) -> Result<Values, Memory>
    ensures { IfOk result (λ v. v ≡ values_over tags.now.facts name manifest.now) }
{
    let comment = text(tags, name, b"comment", manifest.comment.bytes());
    let user = text(tags, name, b"user", manifest.user.bytes());
    Ok(Values {
        comment: Text::of(alloc, comment)?,
        user: Text::of(alloc, user)?,
        date: date(tags, name, manifest),
        branch: Text::of(alloc, branch(tags, name))?,
    })
}
