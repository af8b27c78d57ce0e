//! A technote that becomes an attachment, and that taken back.
ghost use Rattle.std.specs.Prelude.{◌≡◌, [], true, map, IfOk, OnOk};
ghost use Rattle.fsl_order.specs.Names.{has};
ghost use Rattle.fsl_wiki.specs.Pages.{fact_name};

use crate::names::letter;
use crate::wanting::want;
use fsl_name::Name;
use fsl_text::{Memory, Steps, Text};
use fsl_wiki::{Attached, Fact, Note, Pages, Undo};
use std::alloc::Global;
use std::sync::ledger::Ledger;
use tests_kit::{Play, moment, put, put_names, shown};

/// A technote of the id `x`.
fn note(name: Name) -> Result<Fact, Memory>
    ensures { IfOk result (λ fact. fact_name fact ≡ name) }
{
    let date = moment(1)?;
    Ok(Fact::Note(Note {
        name,
        date,
        time: date,
        id: letter(b'x'),
    }))
}

/// An attachment to the page `t`.
fn attachment(alloc: Global, name: Name) -> Result<Fact, Memory>
    ensures { IfOk result (λ fact. fact_name fact ≡ name) }
{
    let date = moment(3)?;
    let target = Text::of(alloc, b"t")?;
    Ok(Fact::Attached(Attached {
        name,
        date,
        target,
        file: Text::of(alloc, b"f")?,
        sourced: false,
    }))
}

/// Adds as many letters as the page `t` has attachments.
fn put_attached(alloc: Global, pages: &Pages, into: &mut Text) {
    match pages.attached(alloc, b"t") {
        Ok(list) => {
            for _ in list.items() {
                put(into, b"attached");
            }
        }
        Err(Memory) => put(into, b"?"),
    }
}

/// Adds the first digits of the current technote, or a dash, and a word for each attachment.
fn show(alloc: Global, pages: &Pages, into: &mut Text) {
    match pages.note(letter(b'x')) {
        None => put(into, b"-"),
        Some(name) => put(into, &name.text()[..4]),
    }
    put_attached(alloc, pages, into);
}

/// Takes a technote in.
fn come<L: Ledger>(
    alloc: Global,
    pages: &mut Pages,
    name: Name,
    steps: &mut Steps<L>,
) -> Result<(), Memory>
    requires { pages.old.facts ≡ [] }
    ensures { OnOk result (has (map fact_name pages.new.facts) name ≡ true) }
{
    let fact = note(name)?;
    match pages.add(alloc, fact, steps) {
        Ok(undo) => {
            drop(undo);
            Ok(())
        }
        Err(Memory) => Err(Memory),
    }
}

/// Takes the last change back: what it tells, and what stands before and after.
fn take_back(alloc: Global, pages: &mut Pages, undo: Undo, into: &mut Text)
    requires { undo.after ≡ pages.old }
{
    put_names(into, undo.changed().items());
    show(alloc, pages, into);
    pages.undo(undo);
    show(alloc, pages, into);
}

/// Puts an attachment in the place of a technote and takes that back.
fn move_back<L: Ledger>(
    alloc: Global,
    pages: &mut Pages,
    name: Name,
    into: &mut Text,
    steps: &mut Steps<L>,
) -> Result<(), Memory>
    requires { has (map fact_name pages.old.facts) name ≡ true }
{
    let moved = attachment(alloc, name)?;
    match pages.change(alloc, moved, steps) {
        Ok(undo) => {
            take_back(alloc, pages, undo, into);
            Ok(())
        }
        Err(Memory) => Err(Memory),
    }
}

/// Takes a technote in and moves it: what stands after each.
fn come_and_move<L: Ledger>(
    alloc: Global,
    pages: &mut Pages,
    into: &mut Text,
    steps: &mut Steps<L>,
) -> Result<(), Memory>
    requires { pages.old.facts ≡ [] }
{
    let name = letter(b'b');
    come(alloc, pages, name, steps)?;
    show(alloc, pages, into);
    move_back(alloc, pages, name, into, steps)
}

/// A technote becomes an attachment.
struct OfPages;

impl Play for OfPages {
    fn play<L: Ledger>(
        &self,
        alloc: Global,
        into: &mut Text,
        steps: &mut Steps<L>,
    ) -> Result<(), Memory> {
        let mut pages = Pages::new(alloc);
        come_and_move(alloc, &mut pages, into, steps)
    }
}

#[test]
fn a_technote_becomes_an_attachment(rt: HostRuntime) -> Result<(), Memory> {
    want(
        &rt,
        shown(rt.alloc(), &OfPages)?,
        b" e9d7 e9d7 - attached e9d7",
    );
    Ok(())
}
