//! Walks held names.
ghost use Rattle.std.specs.Prelude.{◌≡◌, IfOk, map, filter, nat_le, All, Some};
ghost use Rattle.std.specs.Ordering.{nat_cmp};
ghost use Rattle.std.specs.BTreeMap as tree;
ghost use Rattle.std.specs.List.Sorted.{IsStrictlySortedBy};
ghost use Rattle.fsl_order.specs.Names.{bytes_cmp};
ghost use Rattle.fsl_blobs.specs.Fold.{walked};
ghost use Rattle.fsl_blobs.specs.Held.{found};
ghost use Rattle.fsl_blobs.specs.Kept.{held_at};
ghost use Rattle.fsl_blobs.specs.Seen.{held_as};
ghost use Rattle.fsl_blobs.specs.Listing.{begins, pair_of, size_at, entry_of, known_as, known_of};

use crate::blobs::HeldArtifact;
use crate::sizes::size_of;
use crate::{Found, Holding, Placed};
use fsl_name::Name;
use fsl_text::Memory;
use std::alloc::Global;
use std::collections::BTreeMap;

/// Returns whether the name's digits begin with the prefix.
fn begins(name: &Name, prefix: &[u8]) -> bool
    ensures { result ≡ begins prefix.now name.now }
{
    name.text().as_slice().starts_with(prefix)
}

/// Finds the name that begins with the prefix.
pub(crate) fn only_match(held: &BTreeMap<Name, HeldArtifact>, prefix: &[u8]) -> Found
    ensures found { result ≡ found (filter (begins prefix.now) (tree.keys held.now)) }
    ensures ordered { IsStrictlySortedBy bytes_cmp (tree.keys held.now) }
{
    let mut first = None;
    for name in held.keys() {
        if begins(name, prefix) {
            if first.is_some() {
                return Found::Several;
            }
            first = Some(*name);
        }
    }
    match first {
        Some(name) => Found::One(name),
        None => Found::Nothing,
    }
}

/// Returns the names of a kind whose place is at least this, by place.
pub(crate) fn placed_from(
    alloc: Global,
    order: &BTreeMap<u64, Name>,
    from: u64,
) -> Result<Vec<Placed>, Memory>
    ensures names { IfOk result (λ names. map pair_of names.items ≡ filter (λ p. nat_le from p.0) order.now.entries) }
    ensures ordered { IsStrictlySortedBy nat_cmp (tree.keys order.now) }
{
    let mut names = Vec::new(alloc);
    for (place, name) in order.range(from..) {
        names.push(Placed {
            place: *place,
            name: *name,
        })?;
    }
    Ok(names)
}

/// Returns the first of the names: those before which their sizes, and so much for each, don't reach a sum, and one more. The
/// names behind these aren't walked.
pub(crate) fn front_from(
    alloc: Global,
    held: &BTreeMap<Name, HeldArtifact>,
    order: &BTreeMap<u64, Name>,
    from: u64,
    most: u64,
    each: u64,
) -> Result<Vec<Placed>, Memory>
    ensures names { IfOk result (λ names. map pair_of names.items ≡ walked most each (size_at held.now.entries) 0 (filter (λ p. nat_le from p.0) order.now.entries)) }
    ensures ordered { IsStrictlySortedBy nat_cmp (tree.keys order.now) }
{
    let mut names = Vec::new(alloc);
    let mut sum: u128 = 0;
    for (place, name) in order.range(from..) {
        names.push(Placed {
            place: *place,
            name: *name,
        })?;
        if sum >= u128::from(most) {
            return Ok(names);
        }
        sum += u128::from(size_of(held, name)) + u128::from(each);
    }
    Ok(names)
}

/// Returns the names of a kind, by place.
pub(crate) fn names_over(alloc: Global, order: &BTreeMap<u64, Name>) -> Result<Vec<Name>, Memory>
    ensures names { IfOk result (λ names. names.items ≡ map (λ p. p.1) order.now.entries) }
    ensures ordered { IsStrictlySortedBy nat_cmp (tree.keys order.now) }
{
    let mut names = Vec::new(alloc);
    for (_, name) in order {
        names.push(*name)?;
    }
    Ok(names)
}

/// Says that the names of the held artifacts rise, and that each is found by its name.
pub(crate) fn is_map(held: &BTreeMap<Name, HeldArtifact>)
    ensures found { All (λ e. held_at held.now.entries e.0 ≡ Some e.1) held.now.entries }
    ensures ordered { IsStrictlySortedBy bytes_cmp (tree.keys held.now) }
{
    let _ = held.iter();
}

/// Describes the held artifacts, in the order of their names.
pub(crate) fn holdings<'a>(
    alloc: Global,
    held: &'a BTreeMap<Name, HeldArtifact>,
) -> Result<Vec<Holding<'a>>, Memory>
    ensures holdings { IfOk result (λ list. map held_as list.items ≡ map entry_of held.now.entries) }
    ensures known { IfOk result (λ list. map known_as list.items ≡ map known_of held.now.entries) }
    ensures ordered { IsStrictlySortedBy bytes_cmp (tree.keys held.now) }
{
    let mut list = Vec::new(alloc);
    for (name, artifact) in held {
        let holding = Holding {
            name: *name,
            private: artifact.private,
            place: artifact.place,
            size: artifact.size,
            bytes: &artifact.bytes,
        };
        if list.push(holding).is_err() {
            return Err(Memory);
        }
    }
    Ok(list)
}
