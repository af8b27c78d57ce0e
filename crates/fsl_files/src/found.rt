//! Finds the files of a name without a copy.
ghost use Rattle.std.specs.Prelude.{◌≡◌, IfSome, map};
ghost use Rattle.std.specs.Option.{option_copied};
ghost use Rattle.std.specs.List.Sorted.{IsStrictlySortedBy};
ghost use Rattle.fsl_order.specs.Names.{bytes_cmp};
ghost use Rattle.fsl_files.specs.Kept.{AreFit, IsFit};
ghost use Rattle.fsl_files.specs.At.{both_at, files_at, listing_at, over_entry};
ghost use Rattle.fsl_files.specs.Files.{known};
ghost use Rattle.fsl_files.specs.Walks.{as_listing};
ghost use Rattle.fsl_files.specs.declared.Listing.TheVariants as listing;

use crate::entry::Entry;
use crate::lookup::Lookup;
use crate::overlay::Overlay;
use fsl_name::Name;
use fsl_text::Steps;
use std::sync::ledger::Ledger;

/// The files of a name, before they are copied.
#[derive(Drop)]
pub enum Found<'a> {
    /// No check-in has the name.
    NotCheckin,
    /// The baseline isn't there, or has a baseline itself.
    NoBaseline,
    /// The files.
    Known(Overlay<'a>),
}

/// The files of a check-in without a baseline.
fn own(entry: &Entry) -> Found<'_>
    requires fit { IsFit entry.now }
    requires own { entry.now.baseline ≡ None }
    ensures listing { as_listing result ≡ listing.Known entry.now.files }
    ensures rising { IfSome (known (as_listing result)) (λ files. IsStrictlySortedBy bytes_cmp (map (λ r. r.path) files)) }
{
    let files = entry.files.items();
    Found::Known(Overlay::new(&files[..0], files))
}

/// The files of a check-in over those of its baseline, where that is there.
fn over_baseline<'a>(entry: &'a Entry, baseline: Option<&'a Entry>) -> Found<'a>
    requires fit { IsFit entry.now }
    requires base_fit { IfSome (option_copied baseline) IsFit }
    ensures listing { as_listing result ≡ over_entry entry.now.files (option_copied baseline.entry) }
    ensures rising { IfSome (known (as_listing result)) (λ files. IsStrictlySortedBy bytes_cmp (map (λ r. r.path) files)) }
{
    let Some(base) = baseline else {
        return Found::NoBaseline;
    };
    match base.baseline {
        Some(_) => Found::NoBaseline,
        None => Found::Known(Overlay::new(base.files.items(), entry.files.items())),
    }
}

/// The files of a check-in that is at hand.
fn files_of<'a, L: Ledger>(
    checkins: &Lookup<'a>,
    entry: &'a Entry,
    steps: &mut Steps<L>,
) -> Found<'a>
    requires all { AreFit checkins.now }
    requires one { IsFit entry.now }
    ensures listing { as_listing result ≡ listing_at checkins.now entry.now }
    ensures rising { IfSome (known (as_listing result)) (λ files. IsStrictlySortedBy bytes_cmp (map (λ r. r.path) files)) }
{
    match entry.baseline {
        None => own(entry),
        Some(baseline) => over_baseline(entry, checkins.get(baseline, steps)),
    }
}

/// The files of a name.
pub(crate) fn find<'a, L: Ledger>(
    checkins: &Lookup<'a>,
    name: Name,
    steps: &mut Steps<L>,
) -> Found<'a>
    requires { AreFit checkins.now }
    ensures listing { as_listing result ≡ files_at checkins.now name }
    ensures rising { IfSome (known (as_listing result)) (λ files. IsStrictlySortedBy bytes_cmp (map (λ r. r.path) files)) }
{
    match checkins.get(name, steps) {
        None => Found::NotCheckin,
        Some(entry) => files_of(checkins, entry, steps),
    }
}

/// The files of the primary parent of a check-in and its own, where both are defined.
pub(crate) fn find_both<'a, L: Ledger>(
    checkins: &Lookup<'a>,
    name: Name,
    steps: &mut Steps<L>,
) -> Option<(Overlay<'a>, Overlay<'a>)>
    requires { AreFit checkins.now }
    ensures both { result ≡ both_at checkins.now name }
    ensures old_rises { IfSome result (λ both. IsStrictlySortedBy bytes_cmp (map (λ r. r.path) both.0)) }
    ensures new_rises { IfSome result (λ both. IsStrictlySortedBy bytes_cmp (map (λ r. r.path) both.1)) }
{
    let Some(entry) = checkins.get(name, steps) else {
        return None;
    };
    let Some(parent) = entry.parent else {
        return None;
    };
    let Found::Known(old) = find(checkins, parent, steps) else {
        return None;
    };
    let Found::Known(new) = files_of(checkins, entry, steps) else {
        return None;
    };
    Some((old, new))
}
