//! A reply to a post that hasn't come, which is then a start.
ghost use Rattle.std.specs.Prelude.{◌≡◌, [], true, map, IfOk, OnOk};
ghost use Rattle.fsl_order.specs.Names.{has};

use crate::names::letter;
use crate::wanting::want;
use fsl_forum::*;
use fsl_name::Name;
use fsl_text::{Memory, Steps, Text};
use std::alloc::Global;
use std::sync::ledger::Ledger;
use tests_kit::{Play, moment, put, put_names, shown};

/// A post with the root and the post it replies to that it names.
fn post(alloc: Global, name: Name, root: Option<Name>, reply: Option<Name>) -> Result<Fact, Memory>
    ensures { IfOk result (λ fact. fact.name ≡ name) }
{
    let date = moment(1)?;
    Ok(Fact {
        name,
        date,
        user: Text::of(alloc, b"ann")?,
        root,
        reply,
        prior: None,
    })
}

/// Adds the first digits of the thread of a post, or a dash.
fn put_place(threads: &Threads, name: Name, into: &mut Text) {
    match threads.place(name) {
        Some(root) => put(into, &root.text()[..4]),
        None => put(into, b"-"),
    }
}

/// Takes a reply to a post in that hasn't come.
fn reply<L: Ledger>(
    alloc: Global,
    threads: &mut Threads,
    name: Name,
    steps: &mut Steps<L>,
) -> Result<(), Memory>
    requires { threads.old.facts ≡ [] }
    ensures { OnOk result (has (map (λ f. f.name) threads.new.facts) name ≡ true) }
{
    let (root, reply) = (Some(letter(b'm')), Some(letter(b'a')));
    let fact = post(alloc, name, root, reply)?;
    match threads.add(alloc, fact, steps) {
        Ok(undo) => {
            drop(undo);
            Ok(())
        }
        Err(Memory) => Err(Memory),
    }
}

/// Takes the last change back: the names that changed, and the thread of a post before and after.
fn take_back(threads: &mut Threads, undo: Undo, name: Name, into: &mut Text)
    requires { undo.after ≡ threads.old }
{
    put_names(into, undo.changed().items());
    put_place(threads, name, into);
    threads.undo(undo);
    put_place(threads, name, into);
}

/// Puts a start in the place of a reply and takes that back: its thread, and the names that changed.
fn there_and_back<L: Ledger>(
    alloc: Global,
    threads: &mut Threads,
    name: Name,
    into: &mut Text,
    steps: &mut Steps<L>,
) -> Result<(), Memory>
    requires { has (map (λ f. f.name) threads.old.facts) name ≡ true }
{
    let start = post(alloc, name, None, None)?;
    match threads.change(alloc, start, steps) {
        Ok(undo) => {
            take_back(threads, undo, name, into);
            Ok(())
        }
        Err(Memory) => Err(Memory),
    }
}

fn change<L: Ledger>(
    alloc: Global,
    threads: &mut Threads,
    into: &mut Text,
    steps: &mut Steps<L>,
) -> Result<(), Memory>
    requires { threads.old.facts ≡ [] }
{
    let name = letter(b'b');
    reply(alloc, threads, name, steps)?;
    put_place(threads, name, into);
    there_and_back(alloc, threads, name, into, steps)
}

/// A reply becomes a start.
struct OfPosts;

impl Play for OfPosts {
    fn play<L: Ledger>(
        &self,
        alloc: Global,
        into: &mut Text,
        steps: &mut Steps<L>,
    ) -> Result<(), Memory> {
        let mut threads = Threads::new(alloc);
        change(alloc, &mut threads, into, steps)
    }
}

#[test]
fn a_reply_becomes_a_start(rt: HostRuntime) -> Result<(), Memory> {
    invalid_stays();
    want(&rt, shown(rt.alloc(), &OfPosts)?, b" 6b0d e9d7 e9d7 6b0d");
    Ok(())
}
