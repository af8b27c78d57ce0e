//! Check-ins of which each is the other's parent, who come one after the other, and the last step taken back.
ghost use Rattle.std.specs.Prelude.{◌≡◌, ◌∷◌, [], false, None, map, IsTrue, IfOk, OnOk};
ghost use Rattle.std.specs.Str.{bytes_eq};
ghost use Rattle.fsl_order.specs.Names.{has};
ghost use Rattle.fsl_order.specs.Rows.{by_name};
ghost use Rattle.fsl_tags.specs.Conditions.{IsParentChange};
ghost use Rattle.fsl_tags.specs.Tags.{IsTagFact};

use super::fit::is_fit;
use super::{child, tags};
use crate::names::letter;
use crate::wanting::want;
use fsl_name::{Name, Named};
use fsl_tags::*;
use fsl_text::{List, Memory, Steps, Text};
use std::alloc::Global;
use std::sync::ledger::Ledger;
use tests_kit::{Play, put, put_names, shown};

fn without_parent(alloc: Global, fact: &Fact) -> Result<Fact, Memory>
    ensures { IfOk result (λ early. early ≡ record fact.now { parent = None }) }
{
    let mut early = fact.copied(alloc)?;
    early.parent = None;
    Ok(early)
}

/// Whether a fact can be taken in alone, then a second one, and then the first as a whole.
fn fit(alloc: Global, early: &Fact, second: &Fact, whole: &Fact) -> Result<bool, Memory>
    ensures early { IfOk result (λ fit. IsTrue fit → IsTagFact (early.now ∷ []) early.now) }
    ensures second { IfOk result (λ fit. IsTrue fit → IsTagFact (second.now ∷ early.now ∷ []) second.now) }
    ensures whole { IfOk result (λ fit. IsTrue fit → IsTagFact (second.now ∷ early.now ∷ []) whole.now) }
{
    let alone = [early.copied(alloc)?];
    let both = [second.copied(alloc)?, early.copied(alloc)?];
    Ok(is_fit(&alone, early) && is_fit(&both, second) && is_fit(&both, whole))
}

/// Takes a fact in.
fn add<L: Ledger>(
    alloc: Global,
    tags: &mut Tags,
    fact: &Fact,
    steps: &mut Steps<L>,
) -> Result<(), Memory>
    requires absent { has (map (λ f. f.name) tags.old.facts) fact.now.name ≡ false }
    requires fit { IsTagFact (fact.now ∷ tags.old.facts) fact.now }
    ensures { OnOk result (tags.new.facts ≡ by_name (λ f. f.name) (fact.now ∷ tags.old.facts)) }
{
    let fact = fact.copied(alloc)?;
    match tags.add(alloc, fact, steps) {
        Ok(undo) => {
            drop(undo);
            Ok(())
        }
        Err(Memory) => Err(Memory),
    }
}

/// Takes the last change back: what it tells, and what stands before and after.
fn take_back(tags: &mut Tags, undo: Undo, into: &mut Text)
    requires { undo.after ≡ tags.old }
{
    put_names(into, undo.changed().items());
    show(tags, into);
    tags.undo(undo);
    show(tags, into);
}

/// Gives a fact its parent and takes that back.
fn change_back<L: Ledger>(
    alloc: Global,
    tags: &mut Tags,
    whole: &Fact,
    into: &mut Text,
    steps: &mut Steps<L>,
) -> Result<(), Memory>
    requires change { IsParentChange tags.old.facts whole.now }
    requires fit { IsTagFact tags.old.facts whole.now }
{
    let changed = whole.copied(alloc)?;
    match tags.change(alloc, changed, steps) {
        Ok(undo) => {
            take_back(tags, undo, into);
            Ok(())
        }
        Err(Memory) => Err(Memory),
    }
}

/// Takes a fact in, a second one, and then the first with its parent.
fn arrive<L: Ledger>(
    alloc: Global,
    tags: &mut Tags,
    early: &Fact,
    second: &Fact,
    whole: &Fact,
    into: &mut Text,
    steps: &mut Steps<L>,
) -> Result<(), Memory>
    requires none { tags.old.facts ≡ [] }
    requires early { early.now ≡ record whole.now { parent = None } }
    requires differ { bytes_eq second.now.name early.now.name ≡ false }
    requires early_fit { IsTagFact (early.now ∷ []) early.now }
    requires second_fit { IsTagFact (second.now ∷ early.now ∷ []) second.now }
    requires whole_fit { IsTagFact (second.now ∷ early.now ∷ []) whole.now }
{
    add(alloc, tags, early, steps)?;
    add(alloc, tags, second, steps)?;
    show(tags, into);
    change_back(alloc, tags, whole, into, steps)
}

/// Adds the value of a tag on a check-in, or a dash.
fn show_tag(tags: &Tags, name: Name, tag: &[u8], into: &mut Text) {
    match tags.effective(name, tag) {
        Some(assertion) => put(into, assertion.value.bytes()),
        None => put(into, b"-"),
    }
}

/// Adds the values of the tags `j` and `k` on `a` and on `b`.
pub fn show(tags: &Tags, into: &mut Text) {
    for byte in *b"ab" {
        show_tag(tags, letter(byte), b"j", into);
        show_tag(tags, letter(byte), b"k", into);
    }
}

/// Plays them where each fits.
fn come<L: Ledger>(
    alloc: Global,
    whole: &Fact,
    second: &Fact,
    tags: &mut Tags,
    into: &mut Text,
    steps: &mut Steps<L>,
) -> Result<(), Memory>
    requires { tags.old.facts ≡ [] }
{
    let early = without_parent(alloc, whole)?;
    if second.name == early.name || !fit(alloc, &early, second, whole)? {
        return Err(Memory);
    }
    arrive(alloc, tags, &early, second, whole, into, steps)
}

/// Check-ins come into a circle.
struct OfTags;

impl Play for OfTags {
    fn play<L: Ledger>(
        &self,
        alloc: Global,
        into: &mut Text,
        steps: &mut Steps<L>,
    ) -> Result<(), Memory> {
        let tagged = child(b'a', b'b', tags(alloc)?);
        let other = child(b'b', b'a', List::new(alloc));
        let mut tags = Tags::new(alloc);
        come(alloc, &other, &tagged, &mut tags, into, steps)
    }
}

#[test]
fn check_ins_come_into_a_circle(rt: HostRuntime) -> Result<(), Memory> {
    want(
        &rt,
        shown(rt.alloc(), &OfTags)?,
        b" v v - - e9d7 v v - v v v - -",
    );
    Ok(())
}
