//! Whether a table can be built from facts.
ghost use Rattle.std.specs.Prelude.{◌≡◌, IsTrue, All, map, false};
ghost use Rattle.std.specs.List.{AllByRecursion};
ghost use Rattle.std.specs.List.Sorted.{IsStrictlyIncreasing};
ghost use Rattle.std.specs.Option.{option_map_or};
ghost use Rattle.std.specs.Str.{bytes_eq};
ghost use Rattle.fsl_order.specs.Rows.{AreDistinct, named};
ghost use Rattle.fsl_tags.specs.Tags.{AreTagFacts, IsTagFact};

use fsl_name::Name;
use fsl_tags::{Assertion, Fact};

fn is_named(fact: &Fact, name: Name) -> bool
    ensures { result ≡ bytes_eq fact.now.name name }
{
    fact.name == name
}

fn is_checkin(facts: &[Fact], name: Name) -> bool
    ensures { IsTrue result → IsTrue (option_map_or (λ f. f.checkin) (named (λ f. f.name) facts.now name) false) }
{
    for fact in facts {
        if is_named(fact, name) {
            return fact.checkin;
        }
    }
    false
}

fn is_of(assertion: &Assertion, name: Name) -> bool
    ensures { result ≡ bytes_eq assertion.now.source name }
{
    assertion.source == name
}

fn are_of(tags: &[Assertion], name: Name) -> bool
    ensures { IsTrue result → All (λ a. a.source ≡ name) tags.now }
{
    for assertion in tags {
        if !is_of(assertion, name) {
            return false;
        }
    }
    true
}

fn places_rise(tags: &[Assertion]) -> bool
    ensures { IsTrue result → IsStrictlyIncreasing (map (λ a. a.place) tags.now) }
{
    for i in 1..tags.len() {
        if tags[i - 1].place >= tags[i].place {
            return false;
        }
    }
    true
}

pub fn is_fit(facts: &[Fact], fact: &Fact) -> bool
    ensures { IsTrue result → IsTagFact facts.now fact.now }
{
    let child = match fact.parent {
        Some(up) => fact.checkin && is_checkin(facts, up),
        None => true,
    };
    child && are_of(fact.tags.items(), fact.name) && places_rise(fact.tags.items())
}

fn each_is_fit(facts: &[Fact]) -> bool
    ensures { IsTrue result → AllByRecursion (IsTagFact facts.now) facts.now }
{
    for fact in facts {
        if !is_fit(facts, fact) {
            return false;
        }
    }
    true
}

pub fn are_fit(facts: &[Fact]) -> bool
    requires { AreDistinct (map (λ f. f.name) facts.now) }
    ensures { IsTrue result → AreTagFacts facts.now }
{
    each_is_fit(facts)
}
