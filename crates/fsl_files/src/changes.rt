//! Finds how the files of a check-in differ from those of its primary parent.
ghost use Rattle.std.specs.Prelude.{◌≡◌, ◌+◌, ◌<◌, ◌++◌, ◌∷◌, [], true, false, map, drop, length, slice_get, IfOk, OnOk};
ghost use Rattle.std.specs.Option.{option_copied};
ghost use Rattle.std.specs.List.Sorted.{IsStrictlySortedBy};
ghost use Rattle.fsl_order.specs.Names.{bytes_cmp};
ghost use Rattle.fsl_files.specs.Files.{differences};
ghost use Rattle.fsl_files.specs.Walks.{edits};

use super::overlay::Overlay;
use super::rows::same_file;
use super::{Change, FileRow, How};
use fsl_text::{List, Memory, Text};
use std::alloc::Global;
use std::cmp::Ordering;
use std::marker::Model;

/// Files by rising path, with the first that is left at hand. Contracts see the list of those that are left.
#[derive(Drop)]
struct Ahead<'a> {
    first: Option<&'a FileRow>,
    rest: Overlay<'a>,
}

impl<'a> Model for Ahead<'a> {
    ghost use Rattle.std.specs.Prelude.{◌≡◌, [], List, IfNone};
    ghost use Rattle.std.specs.Option.{option_copied};
    ghost use Rattle.fsl_files.specs.declared.FileRow.{FileRow};
    ghost use Rattle.fsl_files.specs.Walks.{with_first};

    ghost Value = { List FileRow };

    ghost view = { λ a. with_first (option_copied a.first) a.rest };

    ghost invariant = { λ a. IfNone (option_copied a.first) (a.rest ≡ []) };
}

impl<'a> Ahead<'a> {
    /// Looks at the first of some files.
    fn new(files: Overlay<'a>) -> Ahead<'a>
        ensures { result ≡ files.entry }
    {
        let mut rest = files;
        let first = rest.take_first();
        Ahead { first, rest }
    }

    /// The first file that is left.
    fn first(&self) -> Option<&'a FileRow>
        ensures { option_copied result ≡ slice_get self.now 0 }
    {
        self.first
    }

    /// Leaves the first file behind.
    fn advance(&mut self)
        ensures { self.new ≡ drop 1 self.old }
    {
        self.first = self.rest.take_first();
    }
}

/// Notes how the file of a path changed.
fn note(alloc: Global, changes: &mut List<Change>, path: &Text, how: How) -> Result<(), Memory>
    ensures { OnOk result (changes.new ≡ changes.old ++ record { path = path.now; how = how } ∷ []) }
{
    let path = Text::of(alloc, path.bytes())?;
    match changes.push(Change { path, how }) {
        Ok(()) => Ok(()),
        Err(_) => Err(Memory),
    }
}

/// Notes a file that both have, where hash or permission differ.
fn note_edit(
    alloc: Global,
    changes: &mut List<Change>,
    before: &FileRow,
    after: &FileRow,
) -> Result<(), Memory>
    ensures { OnOk result (changes.new ≡ changes.old ++ edits before.now after.now) }
{
    if same_file(before, after) {
        return Ok(());
    }
    note(alloc, changes, &after.path, How::Edited)
}

/// Notes how the file of a path changed, and leaves it behind where it is the first.
fn pass(
    alloc: Global,
    changes: &mut List<Change>,
    path: &Text,
    how: How,
    files: &mut Ahead,
) -> Result<bool, Memory>
    ensures noted { OnOk result (changes.new ≡ changes.old ++ record { path = path.now; how = how } ∷ []) }
    ensures passed { files.new ≡ drop 1 files.old }
    ensures more { IfOk result (λ more. more ≡ true) }
{
    files.advance();
    note(alloc, changes, path, how)?;
    Ok(true)
}

/// Notes a file that both have, where hash or permission differ, and leaves it behind in both.
fn pass_both(
    alloc: Global,
    changes: &mut List<Change>,
    before: &FileRow,
    after: &FileRow,
    old: &mut Ahead,
    new: &mut Ahead,
) -> Result<bool, Memory>
    ensures noted { OnOk result (changes.new ≡ changes.old ++ edits before.now after.now) }
    ensures old_passed { old.new ≡ drop 1 old.old }
    ensures new_passed { new.new ≡ drop 1 new.old }
    ensures more { IfOk result (λ more. more ≡ true) }
{
    old.advance();
    new.advance();
    note_edit(alloc, changes, before, after)?;
    Ok(true)
}

/// Leaves the first path behind that is left, and notes how its file changed. The answer is whether there was one.
fn note_first(
    alloc: Global,
    changes: &mut List<Change>,
    old: &mut Ahead,
    new: &mut Ahead,
) -> Result<bool, Memory>
    requires old_rises { IsStrictlySortedBy bytes_cmp (map (λ r. r.path) old.old) }
    requires new_rises { IsStrictlySortedBy bytes_cmp (map (λ r. r.path) new.old) }
    ensures noted { OnOk result (changes.new ++ differences old.new new.new ≡ changes.old ++ differences old.old new.old) }
    ensures old_rises { OnOk result (IsStrictlySortedBy bytes_cmp (map (λ r. r.path) old.new)) }
    ensures new_rises { OnOk result (IsStrictlySortedBy bytes_cmp (map (λ r. r.path) new.new)) }
    ensures ended { IfOk result (λ more. more ≡ false → (old.new ≡ []) × (new.new ≡ [])) }
    ensures shorter { IfOk result (λ more. more ≡ true → length old.new + length new.new < length old.old + length new.old) }
{
    match (old.first(), new.first()) {
        (None, None) => Ok(false),
        (Some(before), None) => pass(alloc, changes, &before.path, How::Deleted, old),
        (None, Some(after)) => pass(alloc, changes, &after.path, How::Added, new),
        (Some(before), Some(after)) => match before.path.cmp(&after.path) {
            Ordering::Less => pass(alloc, changes, &before.path, How::Deleted, old),
            Ordering::Equal => pass_both(alloc, changes, before, after, old, new),
            Ordering::Greater => pass(alloc, changes, &after.path, How::Added, new),
        },
    }
}

/// Returns the paths at which two lists of files differ, ascending, each with its kind of change. It takes time by the length of
/// both. `Memory` is the only error.
pub fn differences(alloc: Global, old: Overlay, new: Overlay) -> Result<List<Change>, Memory>
    requires old_rises { IsStrictlySortedBy bytes_cmp (map (λ r. r.path) old) }
    requires new_rises { IsStrictlySortedBy bytes_cmp (map (λ r. r.path) new) }
    ensures { IfOk result (λ changes. changes ≡ differences old.entry new.entry) }
{
    let mut changes = List::new(alloc);
    let mut old = Ahead::new(old);
    let mut new = Ahead::new(new);
    while note_first(alloc, &mut changes, &mut old, &mut new)? {}
    Ok(changes)
}
