//! Tags of check-ins in a circle, which no artifacts make, since each name stands for the parents in it.
mod fit;
mod late;

use crate::names::{are_distinct, letter};
use crate::wanting::want;
use fit::are_fit;
use fsl_tags::*;
use fsl_text::{List, Memory, Text};
use std::alloc::Global;
use tests_kit::{add, moment};

/// A tag of `a` on itself, with the value `v`.
fn assertion(alloc: Global, place: u64, prefix: Prefix, tag: &[u8]) -> Result<Assertion, Memory> {
    let date = moment(1)?;
    let tag = Text::of(alloc, tag)?;
    Ok(Assertion {
        date,
        source: letter(b'a'),
        place,
        prefix,
        tag,
        value: Text::of(alloc, b"v")?,
        target: letter(b'a'),
    })
}

/// A tag that propagates, and one that doesn't.
fn tags(alloc: Global) -> Result<List<Assertion>, Memory> {
    let mut tags = List::new(alloc);
    tags.append(assertion(alloc, 0, Prefix::Propagate, b"k")?)?;
    tags.append(assertion(alloc, 1, Prefix::Once, b"j")?)?;
    Ok(tags)
}

fn child(name: u8, parent: u8, tags: List<Assertion>) -> Fact {
    Fact {
        name: letter(name),
        checkin: true,
        parent: Some(letter(parent)),
        tags,
    }
}

/// Two check-ins of which each is the parent of the other, and the first has tags.
fn table(alloc: Global) -> Result<Tags, Memory> {
    let facts = [
        child(b'a', b'b', tags(alloc)?),
        child(b'b', b'a', List::new(alloc)),
    ];
    if !are_distinct(facts[0].name, facts[1].name) || !are_fit(&facts) {
        return Err(Memory);
    }
    Tags::build(alloc, &facts)
}

/// Adds the tags in force on a check-in.
fn add_in_force(alloc: Global, tags: &Tags, name: u8, into: &mut Text) -> Result<(), Memory> {
    into.append(&[name])?;
    for assertion in tags.in_force(alloc, letter(name))?.items() {
        add(into, assertion.tag.bytes())?;
    }
    into.append(b"\n")
}

/// The tags in force on `a` and on `b`, and then the values of tags.
fn told(alloc: Global, tags: &Tags) -> Result<Text, Memory> {
    let mut into = Text::empty(alloc);
    add_in_force(alloc, tags, b'a', &mut into)?;
    add_in_force(alloc, tags, b'b', &mut into)?;
    late::show(tags, &mut into);
    Ok(into)
}

fn built(alloc: Global) -> Result<Text, Memory> {
    let tags = table(alloc)?;
    let text = told(alloc, &tags);
    drop(tags);
    text
}

#[test]
fn check_ins_in_a_circle_share_what_propagates(rt: HostRuntime) -> Result<(), Memory> {
    effective_by_row();
    others_stay();
    want(&rt, built(rt.alloc())?, b"a j k\nb k\n v v - v");
    Ok(())
}
