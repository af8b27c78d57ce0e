//! A check-in under another one that gets another file, and is taken back.
ghost use Rattle.std.specs.Prelude.{◌≡◌, [], true, false, map, IfOk, OnOk};
ghost use Rattle.std.specs.Str.{bytes_eq};
ghost use Rattle.fsl_order.specs.Names.{has};
ghost use Rattle.fsl_files.specs.Conditions.{IsFilesFact};

use crate::names::letter;
use crate::wanting::want;
use fsl_files::{Change, Fact, FileRow, Files, How, Listing, Perm, Undo};
use fsl_name::{Name, Ref};
use fsl_text::{List, Memory, Steps, Text};
use std::alloc::Global;
use std::sync::ledger::Ledger;
use tests_kit::{Play, add, put_names, shown};

/// A check-in with one F card.
fn checkin(alloc: Global, name: Name, baseline: Option<Name>, path: &[u8]) -> Result<Fact, Memory>
    ensures name { IfOk result (λ fact. fact.name ≡ name) }
    ensures fit { IfOk result (λ fact. IsFilesFact fact) }
{
    let path = Text::of(alloc, path)?;
    let mut files = List::new(alloc);
    files.append(FileRow {
        path,
        hash: Some(Ref::Own(name)),
        perm: Perm::Plain,
    })?;
    let parent = baseline;
    Ok(Fact {
        name,
        baseline,
        parent,
        files,
    })
}

/// Adds the path of a file and how it differs.
fn add_change(into: &mut Text, change: &Change) -> Result<(), Memory> {
    into.append(match change.how {
        How::Added => b" +",
        How::Edited => b" *",
        How::Deleted => b" -",
    })?;
    into.append(change.path.bytes())
}

/// Adds what a check-in changes against its primary parent, or a question mark.
fn add_changes(alloc: Global, files: &Files, name: Name, into: &mut Text) -> Result<(), Memory> {
    add(into, b"/")?;
    let Some(changes) = files.changes(alloc, name)? else {
        return add(into, b"?");
    };
    for change in changes.items() {
        add_change(into, change)?;
    }
    Ok(())
}

/// Adds the paths of the files of a check-in, or a question mark.
fn add_files(alloc: Global, files: &Files, name: Name, into: &mut Text) -> Result<(), Memory> {
    add(into, b"=")?;
    let Listing::Known(rows) = files.files(alloc, name)? else {
        return add(into, b"?");
    };
    for row in rows.items() {
        add(into, row.path.bytes())?;
    }
    Ok(())
}

/// Adds the files of the check-in `d` and what it changes, as far as there is memory.
fn show(alloc: Global, files: &Files, into: &mut Text) {
    let _ = add_files(alloc, files, letter(b'd'), into);
    let _ = add_changes(alloc, files, letter(b'd'), into);
}

/// Takes a check-in in whose baseline and primary parent hasn't come.
fn come_first<L: Ledger>(
    alloc: Global,
    files: &mut Files,
    delta: Name,
    name: Name,
    steps: &mut Steps<L>,
) -> Result<(), Memory>
    requires none { files.old.facts ≡ [] }
    requires differ { bytes_eq name delta ≡ false }
    ensures { OnOk result (has (map (λ f. f.name) files.new.facts) name ≡ false) }
{
    let fact = checkin(alloc, delta, Some(name), b"x")?;
    match files.add(alloc, fact, steps) {
        Ok(undo) => {
            drop(undo);
            Ok(())
        }
        Err(Memory) => Err(Memory),
    }
}

/// Takes that one in.
fn come<L: Ledger>(
    alloc: Global,
    files: &mut Files,
    name: Name,
    steps: &mut Steps<L>,
) -> Result<(), Memory>
    requires { has (map (λ f. f.name) files.old.facts) name ≡ false }
    ensures { OnOk result (has (map (λ f. f.name) files.new.facts) name ≡ true) }
{
    let fact = checkin(alloc, name, None, b"x")?;
    match files.add(alloc, fact, steps) {
        Ok(undo) => {
            drop(undo);
            Ok(())
        }
        Err(Memory) => Err(Memory),
    }
}

/// Takes the last change back: what it tells, and what stands before and after.
fn take_back(alloc: Global, files: &mut Files, undo: Undo, into: &mut Text)
    requires { undo.after ≡ files.old }
{
    put_names(into, undo.changed().items());
    show(alloc, files, into);
    files.undo(undo);
    show(alloc, files, into);
}

/// Puts a check-in with another file in the place of one and takes it back.
fn change_back<L: Ledger>(
    alloc: Global,
    files: &mut Files,
    name: Name,
    into: &mut Text,
    steps: &mut Steps<L>,
) -> Result<(), Memory>
    requires { has (map (λ f. f.name) files.old.facts) name ≡ true }
{
    let changed = checkin(alloc, name, None, b"z")?;
    match files.change(alloc, changed, steps) {
        Ok(undo) => {
            take_back(alloc, files, undo, into);
            Ok(())
        }
        Err(Memory) => Err(Memory),
    }
}

fn there_and_back<L: Ledger>(
    alloc: Global,
    files: &mut Files,
    into: &mut Text,
    steps: &mut Steps<L>,
) -> Result<(), Memory>
    requires { files.old.facts ≡ [] }
{
    let (name, delta) = (letter(b'a'), letter(b'd'));
    if name == delta {
        return Err(Memory);
    }
    come_first(alloc, files, delta, name, steps)?;
    show(alloc, files, into);
    come(alloc, files, name, steps)?;
    show(alloc, files, into);
    change_back(alloc, files, name, into, steps)
}

/// The baseline of a check-in is changed.
struct OfFiles;

impl Play for OfFiles {
    fn play<L: Ledger>(
        &self,
        alloc: Global,
        into: &mut Text,
        steps: &mut Steps<L>,
    ) -> Result<(), Memory> {
        let mut files = Files::new(alloc);
        there_and_back(alloc, &mut files, into, steps)
    }
}

#[test]
fn a_baseline_comes_after_its_delta_and_changes(rt: HostRuntime) -> Result<(), Memory> {
    want(
        &rt,
        shown(rt.alloc(), &OfFiles)?,
        b" = ? / ? = x / *x 3c36 86f7 = x z / +x = x / *x",
    );
    Ok(())
}
