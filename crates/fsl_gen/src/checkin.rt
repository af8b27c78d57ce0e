//! Makes check-ins: one line of them, in which each ten in a row are a branch.
ghost use Rattle.std.specs.Prelude.{◌≡◌, ◌++◌, ◌≤◌, ◌<◌, IfOk, IsTrue, OnOk, length};
ghost use Rattle.fsl_manifest.specs.Manifests.{is_well_formed};
ghost use Rattle.fsl_gen.specs.Table.{begins_branch, checkin_at, name_among, own_tag, parents_at, tags_at};

use crate::by_number::{date_of, numbered, user_of};
use fsl_grammar::{Prefix, TagCard};
use fsl_manifest::Manifest;
use fsl_name::{Name, Ref};
use fsl_text::{List, Memory, Text};
use std::alloc::Global;

/// Makes the check-in of a number from the names of all artifacts before it. `Memory` is the only error.
pub fn checkin(alloc: Global, number: u64, names: &[Name]) -> Result<Manifest, Memory>
    requires few { number < 100_000 }
    requires before { number ≤ length names.now }
    ensures value { IfOk result (λ manifest. manifest ≡ checkin_at (name_among names.now) number) }
    ensures written { IfOk result (λ manifest. IsTrue (is_well_formed manifest)) }
{
    Ok(Manifest {
        comment: numbered(alloc, b"check-in ", number)?,
        user: user_of(alloc, number)?,
        parents: parents(alloc, number, names)?,
        tags: tags(alloc, number)?,
        baseline: None,
        date: date_of(number),
        files: List::new(alloc),
        mime: None,
        picks: List::new(alloc),
        checksum: None,
    })
}

/// Returns the check-in before it, if there is one.
fn parents(alloc: Global, number: u64, names: &[Name]) -> Result<List<Ref>, Memory>
    requires { number ≤ length names.now }
    ensures { IfOk result (λ parents. parents ≡ parents_at (name_among names.now) number) }
{
    let mut parents = List::new(alloc);
    if number >= 4 {
        parents.append(Ref::Own(names[(number - 4) as usize]))?;
    }
    Ok(parents)
}

/// Returns the tags of a check-in: the first of a branch has some.
fn tags(alloc: Global, number: u64) -> Result<List<TagCard>, Memory>
    ensures { IfOk result (λ tags. tags ≡ tags_at number) }
{
    let mut tags = List::new(alloc);
    if number % 40 == 0 {
        begin_branch(alloc, &mut tags, number / 40)?;
    }
    Ok(tags)
}

/// Adds the tags that begin a branch: its name, its symbolic name, and the end of the symbolic name of the one before.
fn begin_branch(alloc: Global, tags: &mut List<TagCard>, branch: u64) -> Result<(), Memory>
    ensures { OnOk result (tags.new ≡ tags.old ++ begins_branch branch) }
{
    let value = numbered(alloc, b"b", branch)?;
    let tag = Text::of(alloc, b"branch")?;
    tags.append(own_tag(Prefix::Propagate, tag, Some(value)))?;
    let symbol = numbered(alloc, b"sym-b", branch)?;
    tags.append(own_tag(Prefix::Propagate, symbol, None))?;
    if branch > 0 {
        let ended = numbered(alloc, b"sym-b", branch - 1)?;
        tags.append(own_tag(Prefix::Cancel, ended, None))?;
    }
    Ok(())
}

/// Makes a tag on the artifact itself.
fn own_tag(prefix: Prefix, tag: Text, value: Option<Text>) -> TagCard
    ensures { result ≡ own_tag prefix tag value }
{
    TagCard {
        prefix,
        tag,
        target: None,
        value,
    }
}
