//! Two check-ins of which each is the other's parent, and one has a tag that passes on.
ghost use Rattle.std.specs.Prelude.{◌≡◌, ◌∷◌, [], false, true, map, IfOk, OnOk, None, Some, All};
ghost use Rattle.std.specs.List.Sorted.{IsStrictlyIncreasing};
ghost use Rattle.std.specs.Str.{bytes_eq};
ghost use Rattle.fsl_order.specs.Names.{has};
ghost use Rattle.fsl_order.specs.Rows.{by_name};
ghost use Rattle.fsl_tags.specs.Conditions.{IsParentChange};
ghost use Rattle.fsl_tags.specs.Tags.{IsTagFact};
ghost use Rattle.tests_hostile.specs.Circles.{IsCheckin};

use super::are_same;
use crate::wanting::want;
use fsl_name::{Name, Named};
use fsl_tags::{Assertion, Fact, Prefix, Tags};
use fsl_text::{List, Memory, Steps, Text};
use std::alloc::Global;
use std::sync::ledger::Ledger;
use tests_kit::{Play, moment, put, put_names, shown};

fn first() -> Name {
    Name::of(b"c1")
}

fn second() -> Name {
    Name::of(b"c2")
}

/// A tag of a check-in on itself, which passes on.
fn tag(alloc: Global, name: Name) -> Result<Assertion, Memory>
    ensures { IfOk result (λ assertion. assertion.source ≡ name) }
{
    let date = moment(1)?;
    let tag = Text::of(alloc, b"k")?;
    Ok(Assertion {
        date,
        source: name,
        place: 0,
        prefix: Prefix::Propagate,
        tag,
        value: Text::of(alloc, b"v")?,
        target: name,
    })
}

/// That tag, or no tag.
fn tags(alloc: Global, name: Name, is_tagged: bool) -> Result<List<Assertion>, Memory>
    ensures sources { IfOk result (λ tags. All (λ a. a.source ≡ name) tags) }
    ensures places { IfOk result (λ tags. IsStrictlyIncreasing (map (λ a. a.place) tags)) }
{
    let mut tags = List::new(alloc);
    if is_tagged {
        tags.append(tag(alloc, name)?)?;
    }
    Ok(tags)
}

/// A check-in with a parent.
fn check_in(alloc: Global, name: Name, parent: Name, is_tagged: bool) -> Result<Fact, Memory>
    ensures { IfOk result (λ fact. IsCheckin name parent fact) }
{
    let tags = tags(alloc, name, is_tagged)?;
    Ok(Fact {
        name,
        checkin: true,
        parent: Some(parent),
        tags,
    })
}

/// The same without its parent.
fn orphan(alloc: Global, fact: &Fact) -> Result<Fact, Memory>
    ensures { IfOk result (λ early. early ≡ record fact.now { parent = None }) }
{
    let mut early = fact.copied(alloc)?;
    early.parent = None;
    Ok(early)
}

/// Takes a check-in in.
fn take<L: Ledger>(
    alloc: Global,
    tags: &mut Tags,
    fact: Fact,
    steps: &mut Steps<L>,
) -> Result<(), Memory>
    requires absent { has (map (λ f. f.name) tags.old.facts) fact.name ≡ false }
    requires fit { IsTagFact (fact ∷ tags.old.facts) fact }
    ensures { OnOk result (tags.new.facts ≡ by_name (λ f. f.name) (fact ∷ tags.old.facts)) }
{
    match tags.add(alloc, fact, steps) {
        Ok(undo) => {
            drop(undo);
            Ok(())
        }
        Err(Memory) => Err(Memory),
    }
}

/// Gives a check-in its parent.
fn grow<L: Ledger>(
    alloc: Global,
    tags: &mut Tags,
    fact: Fact,
    steps: &mut Steps<L>,
) -> Result<(), Memory>
    requires change { IsParentChange tags.old.facts fact }
    requires fit { IsTagFact tags.old.facts fact }
{
    match tags.change(alloc, fact, steps) {
        Ok(undo) => {
            drop(undo);
            Ok(())
        }
        Err(Memory) => Err(Memory),
    }
}

/// Adds the names on which the tag is in force.
fn show(alloc: Global, tags: &Tags, into: &mut Text) {
    put(into, b"on");
    match tags.holders(alloc, b"k") {
        Ok(names) => {
            put_names(into, names.items());
        }
        Err(Memory) => put(into, b"no memory"),
    }
}

/// Takes a check-in in that has no parent yet, then its child, which is its parent too, and then gives it this parent. It shows
/// what stands behind each.
fn take_both<L: Ledger>(
    alloc: Global,
    tags: &mut Tags,
    early: Fact,
    whole: Fact,
    late: Fact,
    into: &mut Text,
    steps: &mut Steps<L>,
) -> Result<(), Memory>
    requires none { tags.old.facts ≡ [] }
    requires early { early ≡ record whole { parent = None } }
    requires whole { IsCheckin whole.name late.name whole }
    requires late { IsCheckin late.name whole.name late }
    requires differ { bytes_eq late.name whole.name ≡ false }
{
    take(alloc, tags, early, steps)?;
    show(alloc, tags, into);
    take(alloc, tags, late, steps)?;
    show(alloc, tags, into);
    grow(alloc, tags, whole, steps)?;
    show(alloc, tags, into);
    Ok(())
}

/// Takes two check-ins in of which each is the other's parent.
fn come<L: Ledger>(
    alloc: Global,
    whole: Fact,
    late: Fact,
    into: &mut Text,
    steps: &mut Steps<L>,
) -> Result<(), Memory>
    requires whole { IsCheckin whole.name late.name whole }
    requires late { IsCheckin late.name whole.name late }
    requires differ { bytes_eq late.name whole.name ≡ false }
{
    let early = orphan(alloc, &whole)?;
    let mut tags = Tags::new(alloc);
    take_both(alloc, &mut tags, early, whole, late, into, steps)
}

/// Takes two check-ins in of these names, of which the one has the tag that is to have it.
fn come_named<L: Ledger>(
    alloc: Global,
    early: Name,
    late: Name,
    is_tagged: bool,
    into: &mut Text,
    steps: &mut Steps<L>,
) -> Result<(), Memory> {
    if are_same(late, early) {
        return Err(Memory);
    }
    let whole = check_in(alloc, early, late, is_tagged)?;
    let child = check_in(alloc, late, early, !is_tagged)?;
    come(alloc, whole, child, into, steps)
}

/// Check-ins come into a circle.
struct OfCheckIns {
    is_reversed: bool,
}

impl Play for OfCheckIns {
    fn play<L: Ledger>(
        &self,
        alloc: Global,
        into: &mut Text,
        steps: &mut Steps<L>,
    ) -> Result<(), Memory> {
        if self.is_reversed {
            come_named(alloc, second(), first(), false, into, steps)
        } else {
            come_named(alloc, first(), second(), true, into, steps)
        }
    }
}

/// Shows what a table of two check-ins shows that is made at once.
fn show_built(alloc: Global, whole: Fact, late: Fact, into: &mut Text) -> Result<(), Memory>
    requires whole { IsCheckin whole.name late.name whole }
    requires late { IsCheckin late.name whole.name late }
    requires differ { bytes_eq late.name whole.name ≡ false }
{
    let tags = Tags::build(alloc, &[late, whole])?;
    show(alloc, &tags, into);
    Ok(())
}

/// Shows what a table of check-ins of these names shows that is made at once, of which the one has the tag that is to have it.
fn show_named(
    alloc: Global,
    early: Name,
    late: Name,
    is_tagged: bool,
    into: &mut Text,
) -> Result<(), Memory> {
    if are_same(late, early) {
        return Err(Memory);
    }
    let whole = check_in(alloc, early, late, is_tagged)?;
    let child = check_in(alloc, late, early, !is_tagged)?;
    show_built(alloc, whole, child, into)
}

/// A table of a circle of check-ins that is made at once.
struct OfBuiltCheckIns {
    is_reversed: bool,
}

impl Play for OfBuiltCheckIns {
    fn play<L: Ledger>(
        &self,
        alloc: Global,
        into: &mut Text,
        _steps: &mut Steps<L>,
    ) -> Result<(), Memory> {
        if self.is_reversed {
            show_named(alloc, second(), first(), false, into)
        } else {
            show_named(alloc, first(), second(), true, into)
        }
    }
}

#[test]
fn a_table_of_a_circle_of_check_ins_is_the_same(rt: HostRuntime) -> Result<(), Memory> {
    let wanted = b" on 2f22 6b1f";
    want(
        &rt,
        shown(rt.alloc(), &OfBuiltCheckIns { is_reversed: false })?,
        wanted,
    );
    want(
        &rt,
        shown(rt.alloc(), &OfBuiltCheckIns { is_reversed: true })?,
        wanted,
    );
    Ok(())
}

#[test]
fn check_ins_come_into_a_circle(rt: HostRuntime) -> Result<(), Memory> {
    want(
        &rt,
        shown(rt.alloc(), &OfCheckIns { is_reversed: false })?,
        b" on 2f22 on 2f22 6b1f on 2f22 6b1f",
    );
    want(
        &rt,
        shown(rt.alloc(), &OfCheckIns { is_reversed: true })?,
        b" on on 2f22 on 2f22 6b1f",
    );
    Ok(())
}
