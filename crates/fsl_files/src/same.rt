//! Tells whether the row of a name is the same with some check-ins as with others.
ghost use Rattle.std.specs.Prelude.{ℕ, List, ◌≡◌, ◌&&◌, ◌||◌, ◌==◌, not, false, true, length, IfOk, OnOk, Some, is_some};
ghost use Rattle.std.specs.Cmp.Lexicographic.{pointwise};
ghost use Rattle.std.specs.Str.{bytes_eq};
ghost use Rattle.fsl_order.specs.Names.{bytes_cmp, has};
ghost use Rattle.fsl_table.specs.Contents.{value_at};
ghost use Rattle.fsl_files.specs.Kept.{AreFit};
ghost use Rattle.fsl_files.specs.At.{changes_at};
ghost use Rattle.fsl_files.specs.Same.{is_change, is_row, is_same_changes, is_same_listing, is_same_row, how_code as code_of_how, perm_code as code_of_perm};
ghost use Rattle.fsl_files.specs.Walks.{as_listing};

use crate::changes::differences;
use crate::found::{Found, find, find_both};
use crate::lookup::Lookup;
use crate::overlay::Overlay;
use crate::{Change, FileRow, How, Perm};
use fsl_name::Name;
use fsl_table::names::note;
use fsl_text::{Memory, Steps};
use std::alloc::Global;
use std::collections::BTreeSet;
use std::sync::ledger::Ledger;

/// A number for each permission.
fn perm_code(perm: Perm) -> u8
    ensures { result ≡ code_of_perm perm }
{
    match perm {
        Perm::Plain => 0,
        Perm::Writable => 1,
        Perm::Exec => 2,
        Perm::Symlink => 3,
    }
}

/// A number for each way in which a file may differ.
fn how_code(how: How) -> u8
    ensures { result ≡ code_of_how how }
{
    match how {
        How::Added => 0,
        How::Edited => 1,
        How::Deleted => 2,
    }
}

/// Whether two files are one and the same.
fn is_file(one: &FileRow, other: &FileRow) -> bool
    ensures { result ≡ is_row one.now other.now }
{
    one.path == other.path && one.hash == other.hash && perm_code(one.perm) == perm_code(other.perm)
}

/// Whether two changes are one and the same.
fn is_one(one: &Change, other: &Change) -> bool
    ensures { result ≡ is_change one.now other.now }
{
    one.path == other.path && how_code(one.how) == how_code(other.how)
}

/// Whether two lists of files are the same. It takes time by the shorter one, and no memory.
fn are_files(old: Overlay, new: Overlay) -> bool
    ensures { result ≡ pointwise is_row old.entry new.entry }
{
    let mut left = old;
    let mut right = new;
    while let Some(row) = left.take_first() {
        let Some(other) = right.take_first() else {
            return false;
        };
        if !is_file(row, other) {
            return false;
        }
    }
    right.take_first().is_none()
}

/// Whether two lists of changes are the same.
fn are_changes(old: &[Change], new: &[Change]) -> bool
    ensures { result ≡ pointwise is_change old.now new.now }
{
    let mut left = old;
    let mut right = new;
    while let Some((one, ones)) = left.split_first() {
        let Some((other, others)) = right.split_first() else {
            return false;
        };
        if !is_one(one, other) {
            return false;
        }
        left = ones;
        right = others;
    }
    right.is_empty()
}

/// Whether the files of a name are the same.
fn are_listings(old: Found, new: Found) -> bool
    ensures { result ≡ is_same_listing (as_listing old.entry) (as_listing new.entry) }
{
    match (old, new) {
        (Found::NotCheckin, Found::NotCheckin) => true,
        (Found::NoBaseline, Found::NoBaseline) => true,
        (Found::Known(old), Found::Known(new)) => are_files(old, new),
        _ => false,
    }
}

/// Whether the changes of a name against its primary parent are the same. Where they are defined with one of the two alone, nothing
/// is read of the files.
fn is_same_against<L: Ledger>(
    alloc: Global,
    old: &Lookup,
    new: &Lookup,
    name: Name,
    steps: &mut Steps<L>,
) -> Result<bool, Memory>
    requires old { AreFit old.now }
    requires new { AreFit new.now }
    ensures { IfOk result (λ same. same ≡ is_same_changes (changes_at old.now name) (changes_at new.now name)) }
{
    match (find_both(old, name, steps), find_both(new, name, steps)) {
        (None, None) => Ok(true),
        (Some(old), Some(new)) => {
            let old = differences(alloc, old.0, old.1)?;
            let new = differences(alloc, new.0, new.1)?;
            Ok(are_changes(old.items(), new.items()))
        }
        _ => Ok(false),
    }
}

/// Tells whether the row of a name is the same with some check-ins as with others.
fn is_same<L: Ledger>(
    alloc: Global,
    old: &Lookup,
    new: &Lookup,
    name: Name,
    steps: &mut Steps<L>,
) -> Result<bool, Memory>
    requires old { AreFit old.now }
    requires new { AreFit new.now }
    ensures { IfOk result (λ same. same ≡ is_same_row old.now new.now name) }
{
    if !is_same_against(alloc, old, new, name, steps)? {
        return Ok(false);
    }
    let old = find(old, name, steps);
    let new = find(new, name, steps);
    Ok(are_listings(old, new))
}

/// Notes a name whose row isn't the same.
fn note_if_other<L: Ledger>(
    alloc: Global,
    names: &mut BTreeSet<Name>,
    old: &Lookup,
    new: &Lookup,
    name: Name,
    steps: &mut Steps<L>,
) -> Result<(), Memory>
    requires old { AreFit old.now }
    requires new { AreFit new.now }
    ensures noted { OnOk result ((q : List ℕ) → has names.new.keys q ≡ ((bytes_eq q name && not (is_same_row old.now new.now q)) || has names.old.keys q)) }
{
    if is_same(alloc, old, new, name, steps)? {
        return Ok(());
    }
    note(names, name)
}

/// Notes those of some names whose rows aren't the same. After `Memory` some may be there.
pub(crate) fn note_others<L: Ledger>(
    alloc: Global,
    names: &mut BTreeSet<Name>,
    old: &Lookup,
    new: &Lookup,
    more: &[Name],
    steps: &mut Steps<L>,
) -> Result<(), Memory>
    requires old { AreFit old.now }
    requires new { AreFit new.now }
    ensures noted { OnOk result ((q : List ℕ) → has names.new.keys q ≡ ((has more.now q && not (is_same_row old.now new.now q)) || has names.old.keys q)) }
    ensures cost { length more.now ≡ 0 → steps.new ≡ steps.old }
{
    for name in more {
        note_if_other(alloc, names, old, new, *name, steps)?;
    }
    Ok(())
}

/// Notes the name of a check-in that is put, where its row isn't the same. A check-in that wasn't there has another row.
pub(crate) fn note_own<L: Ledger>(
    alloc: Global,
    names: &mut BTreeSet<Name>,
    old: &Lookup,
    new: &Lookup,
    name: Name,
    was_there: bool,
    steps: &mut Steps<L>,
) -> Result<(), Memory>
    requires old { AreFit old.now }
    requires new { AreFit new.now }
    requires there { was_there ≡ is_some (value_at bytes_cmp name old.now) }
    requires put { is_some (value_at bytes_cmp name new.now) ≡ true }
    ensures noted { OnOk result ((q : List ℕ) → has names.new.keys q ≡ ((bytes_eq q name && not (is_same_row old.now new.now q)) || has names.old.keys q)) }
    ensures cost { was_there ≡ false → steps.new ≡ steps.old }
{
    if was_there {
        note_if_other(alloc, names, old, new, name, steps)
    } else {
        note(names, name)
    }
}
