//! Two posts that reply to each other, in a thread whose start isn't held.
ghost use Rattle.std.specs.Prelude.{◌≡◌, ◌∷◌, [], false, map, IfOk, OnOk};
ghost use Rattle.std.specs.Str.{bytes_eq};
ghost use Rattle.fsl_order.specs.Names.{has};
ghost use Rattle.fsl_order.specs.Rows.{by_name};

use super::are_same;
use crate::wanting::want;
use fsl_forum::{Fact, Threads};
use fsl_name::Name;
use fsl_text::{Memory, Steps, Text};
use std::alloc::Global;
use std::sync::ledger::Ledger;
use tests_kit::{Play, moment, put, put_names, shown};

fn first() -> Name {
    Name::of(b"p1")
}

fn second() -> Name {
    Name::of(b"p2")
}

fn root() -> Name {
    Name::of(b"p3")
}

/// A post that replies to another.
fn reply(alloc: Global, name: Name, date: i64, to: Name) -> Result<Fact, Memory>
    ensures { IfOk result (λ fact. fact.name ≡ name) }
{
    let date = moment(date)?;
    Ok(Fact {
        name,
        date,
        user: Text::of(alloc, b"ann")?,
        root: Some(root()),
        reply: Some(to),
        prior: None,
    })
}

/// Takes a post in.
fn take<L: Ledger>(
    alloc: Global,
    threads: &mut Threads,
    fact: Fact,
    steps: &mut Steps<L>,
) -> Result<(), Memory>
    requires absent { has (map (λ f. f.name) threads.old.facts) fact.name ≡ false }
    ensures { OnOk result (threads.new.facts ≡ by_name (λ f. f.name) (fact ∷ threads.old.facts)) }
{
    match threads.add(alloc, fact, steps) {
        Ok(undo) => {
            drop(undo);
            Ok(())
        }
        Err(Memory) => Err(Memory),
    }
}

/// Adds the thread of a post, or a dash.
fn show_place(threads: &Threads, name: Name, into: &mut Text) {
    match threads.place(name) {
        Some(root) => put_names(into, &[root]),
        None => put(into, b"-"),
    }
}

/// Adds the threads of both posts, and the posts of the thread.
fn show(alloc: Global, threads: &Threads, into: &mut Text) {
    show_place(threads, first(), into);
    show_place(threads, second(), into);
    match threads.thread(alloc, root()) {
        Ok(posts) => {
            for post in posts.items() {
                put_names(into, &[post.name]);
            }
        }
        Err(Memory) => put(into, b"no memory"),
    }
}

/// Takes both posts in, and shows what stands behind each.
fn take_both<L: Ledger>(
    alloc: Global,
    threads: &mut Threads,
    early: Fact,
    late: Fact,
    into: &mut Text,
    steps: &mut Steps<L>,
) -> Result<(), Memory>
    requires none { threads.old.facts ≡ [] }
    requires differ { bytes_eq late.name early.name ≡ false }
{
    take(alloc, threads, early, steps)?;
    show(alloc, threads, into);
    take(alloc, threads, late, steps)?;
    show(alloc, threads, into);
    Ok(())
}

/// The posts, the one that comes later first.
struct Turns {
    late: Fact,
    early: Fact,
}

fn in_turn(alloc: Global, is_reversed: bool) -> Result<Turns, Memory> {
    let one = reply(alloc, first(), 1, second())?;
    let other = reply(alloc, second(), 2, first())?;
    Ok(if is_reversed {
        Turns {
            late: one,
            early: other,
        }
    } else {
        Turns {
            late: other,
            early: one,
        }
    })
}

/// Posts come into a circle.
struct OfPosts {
    is_reversed: bool,
}

impl Play for OfPosts {
    fn play<L: Ledger>(
        &self,
        alloc: Global,
        into: &mut Text,
        steps: &mut Steps<L>,
    ) -> Result<(), Memory> {
        let Turns { late, early } = in_turn(alloc, self.is_reversed)?;
        if are_same(late.name, early.name) {
            return Err(Memory);
        }
        let mut threads = Threads::new(alloc);
        take_both(alloc, &mut threads, early, late, into, steps)
    }
}

/// Shows what a table of two posts shows that is made at once.
fn show_built(alloc: Global, late: Fact, early: Fact, into: &mut Text) -> Result<(), Memory>
    requires { bytes_eq late.name early.name ≡ false }
{
    let threads = Threads::build(alloc, &[late, early])?;
    show(alloc, &threads, into);
    Ok(())
}

/// A table of a circle of posts that is made at once.
struct OfBuiltPosts {
    is_reversed: bool,
}

impl Play for OfBuiltPosts {
    fn play<L: Ledger>(
        &self,
        alloc: Global,
        into: &mut Text,
        _steps: &mut Steps<L>,
    ) -> Result<(), Memory> {
        let Turns { late, early } = in_turn(alloc, self.is_reversed)?;
        if are_same(late.name, early.name) {
            return Err(Memory);
        }
        show_built(alloc, late, early, into)
    }
}

#[test]
fn a_table_of_a_circle_of_posts_is_the_same(rt: HostRuntime) -> Result<(), Memory> {
    let wanted = b" e4fb e4fb b78f c5fd";
    want(
        &rt,
        shown(rt.alloc(), &OfBuiltPosts { is_reversed: false })?,
        wanted,
    );
    want(
        &rt,
        shown(rt.alloc(), &OfBuiltPosts { is_reversed: true })?,
        wanted,
    );
    Ok(())
}

#[test]
fn posts_come_into_a_circle(rt: HostRuntime) -> Result<(), Memory> {
    want(
        &rt,
        shown(rt.alloc(), &OfPosts { is_reversed: false })?,
        b" e4fb - b78f e4fb e4fb b78f c5fd",
    );
    want(
        &rt,
        shown(rt.alloc(), &OfPosts { is_reversed: true })?,
        b" - e4fb c5fd e4fb e4fb b78f c5fd",
    );
    Ok(())
}
