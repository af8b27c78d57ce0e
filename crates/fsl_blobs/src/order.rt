//! Keeps the held names by their places.
ghost use Rattle.std.specs.Prelude.{◌≡◌, ℕ, Bool, None, Some, ◌&&◌, if◌then◌else◌, OnOk, OnErr};
ghost use Rattle.fsl_blobs.specs.Kept.{is_kind, is_place, names_in, name_in};

use fsl_name::Name;
use fsl_text::Memory;
use std::collections::BTreeMap;

/// The held names by the places of their artifacts, counted from 1, the public ones and the private ones apart. So either are
/// walked from a place on without a step for the others.
#[derive(Drop)]
pub(crate) struct Order {
    pub(crate) public: BTreeMap<u64, Name>,
    pub(crate) private: BTreeMap<u64, Name>,
}

/// Puts a name at a place among those of its kind.
pub(crate) fn put(order: &mut Order, private: bool, place: u64, name: Name) -> Result<(), Memory>
    ensures put { OnOk result ((b : Bool) (n : ℕ) → name_in b order.new n ≡ (if is_kind b private && is_place place n then Some name else name_in b order.old n)) }
    ensures err { OnErr result ((b : Bool) → names_in b order.new ≡ names_in b order.old) }
{
    if private {
        order.private.insert(place, name)?;
    } else {
        order.public.insert(place, name)?;
    }
    Ok(())
}

/// Takes the name of a place out of those of a kind.
pub(crate) fn take(order: &mut Order, private: bool, place: u64)
    ensures { (b : Bool) (n : ℕ) → name_in b order.new n ≡ (if is_kind b private && is_place place n then None else name_in b order.old n) }
{
    if private {
        order.private.remove(&place);
    } else {
        order.public.remove(&place);
    }
}
