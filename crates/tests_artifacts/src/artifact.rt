//! What a text is, and which names it names. The digits are those of Python's `hashlib`.
ghost use Rattle.std.specs.Prelude.{◌≡◌, ◌<◌};

use fsl_artifact::{
    Artifact, members, parse, refs, text_is_of_one_kind, text_is_one_artifact,
    text_is_some_artifact,
};
use fsl_name::Name;
use fsl_text::{List, Memory, Steps};
use std::alloc::Global;
use std::marker::Brand;
use std::sync::ledger::{Blank, Ledger};

/// A cluster of two.
const CLUSTER: &[u8] =
    b"M a9993e364706816aba3e25717850c26c9cd0d89d\nM da39a3ee5e6b4b0d3255bfef95601890afd80709\nZ e0cf20572212c897087e610a9c073ee3\n";

/// A cluster of a foreign name and an own one.
const MIXED: &[u8] =
    b"M 3333333333333333333333333333333333333333333333333333333333333333\nM a9993e364706816aba3e25717850c26c9cd0d89d\nZ 253c23911eae54f9a7f07dcabb42dd12\n";

fn read_counted<L: Ledger>(alloc: Global, text: &[u8], blank: Blank) -> Result<Artifact, Memory>
    requires name { blank.name ≡ L.name }
    requires parts { blank.parts ≡ L.parts }
    requires counts { 0 < L.parts }
{
    let mut steps: Steps<L> = Steps::new(blank);
    parse(alloc, text, &mut steps)
}

/// What a text is.
pub fn parsed(alloc: Global, text: &[u8]) -> Result<Artifact, Memory> {
    read_counted::<Brand>(alloc, text, Blank::new(1))
}

/// The references of an artifact, and how many members it has.
fn references(alloc: Global, artifact: &Artifact) -> Result<(List<Name>, usize), Memory> {
    let count = members(alloc, artifact)?.items().len();
    Ok((refs(alloc, artifact)?, count))
}

/// The same of a text.
fn names_of(alloc: Global, text: &[u8]) -> Result<(List<Name>, usize), Memory> {
    let artifact = parsed(alloc, text)?;
    references(alloc, &artifact)
}

#[test]
fn tells_the_members_of_a_cluster(rt: HostRuntime) -> Result<(), Memory> {
    text_is_one_artifact();
    text_is_some_artifact();
    text_is_of_one_kind();
    let (names, count) = names_of(rt.alloc(), CLUSTER)?;
    assert_eq!(rt; count, 2);
    assert_eq!(rt; names.items(), [Name::of(b"abc"), Name::of(b"")].as_slice());
    Ok(())
}

/// Foreign names are no references, and no members that are told.
#[test]
fn leaves_foreign_names_out(rt: HostRuntime) -> Result<(), Memory> {
    let (names, count) = names_of(rt.alloc(), MIXED)?;
    assert_eq!(rt; count, 1);
    assert_eq!(rt; names.items(), [Name::of(b"abc")].as_slice());
    Ok(())
}
