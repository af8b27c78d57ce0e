//! Lists the held artifacts by place, and finds those that a reply sends.
ghost use Rattle.std.specs.Prelude.{◌≡◌, IfOk, IfSome, map, filter_map};
ghost use Rattle.std.specs.List.{AllByRecursion};
ghost use Rattle.std.specs.Option.{option_map};
ghost use Rattle.std.specs.FinMap as map_of;
ghost use Rattle.fsl_blobs.specs.Fold.{contents};
ghost use Rattle.fsl_repo.specs.Replies.{held_at, placed_in};
ghost use Rattle.fsl_repo.specs.Sending.{IsSized, as_held, front_after, names_of, public_on};

use fsl_blobs::{Blobs, Holding, Placed};
use fsl_name::Name;
use fsl_text::{BUDGET, Memory, SHARE};
use std::alloc::Global;

/// A held artifact at its place. Its bytes are in the file, and clauses alone see them.
#[derive(Clone, Copy)]
pub(crate) struct PlacedHolding<'a> {
    pub(crate) place: u64,
    pub(crate) holding: Holding<'a>,
}

/// The artifact of a held name, at its place.
fn placed_at<'a>(blobs: &'a Blobs, placed: &Placed) -> Option<PlacedHolding<'a>>
    ensures held { option_map as_held result ≡ option_map (held_at (placed.now.place, placed.now.name)) (map_of.get (contents blobs.now.records).held placed.now.name) }
    ensures sized { IfSome result IsSized }
{
    match blobs.holding(placed.name) {
        Some(holding) => Some(PlacedHolding {
            place: placed.place,
            holding,
        }),
        None => None,
    }
}

/// The artifacts of some places, in their order.
fn placed_over<'a>(
    alloc: Global,
    blobs: &'a Blobs,
    names: &[Placed],
) -> Result<Vec<PlacedHolding<'a>>, Memory>
    ensures held { IfOk result (λ list. map as_held list.items ≡ filter_map (λ p. option_map (held_at p) (map_of.get (contents blobs.now.records).held p.1)) (map (λ p. (p.place, p.name)) names.now)) }
    ensures sized { IfOk result (λ list. AllByRecursion IsSized list.items) }
{
    let mut list = Vec::new(alloc);
    for placed in names {
        if let Some(artifact) = placed_at(blobs, placed) {
            if list.push(artifact).is_err() {
                return Err(Memory);
            }
        }
    }
    Ok(list)
}

/// The names of the held artifacts that are private, or of those that aren't, in the order of their places. The others
/// aren't walked.
pub(crate) fn names_by(alloc: Global, blobs: &Blobs, private: bool) -> Result<Vec<Name>, Memory>
    ensures { IfOk result (λ names. names.items ≡ names_of private (placed_in blobs.now.records)) }
{
    let names = blobs.names_by_place(alloc, private)?;
    Ok(names.into_vec())
}

/// The first public artifacts from a place on, by place: those that the budget takes, and one more where there is one. No
/// others are looked up, so that a round of a clone costs what it sends.
pub(crate) fn public_from<'a>(
    alloc: Global,
    blobs: &'a Blobs,
    place: u64,
) -> Result<Vec<PlacedHolding<'a>>, Memory>
    ensures held { IfOk result (λ list. map as_held list.items ≡ front_after 0 (public_on place (placed_in blobs.now.records))) }
    ensures sized { IfOk result (λ list. AllByRecursion IsSized list.items) }
{
    match blobs.public_front(alloc, place, BUDGET, SHARE) {
        Ok(names) => placed_over(alloc, blobs, names.items()),
        Err(_) => Err(Memory),
    }
}
