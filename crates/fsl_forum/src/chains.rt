//! Finds the end of each post's chain of next posts.
ghost use Rattle.std.specs.Prelude.{◌≡◌, ◌+◌, ◌||◌, ℕ, List, Some, None, true, is_some, cond, length, if◌then◌else◌, IfOk, OnOk, option_and_then};
ghost use Rattle.std.specs.Str.{bytes_eq};
ghost use Rattle.std.specs.Map.{keys_of};
ghost use Rattle.std.specs.List.Sorted.{IsStrictlySortedBy};
ghost use Rattle.fsl_order.specs.Names.{bytes_cmp, has};
ghost use Rattle.fsl_order.specs.Maps.{value_at};
ghost use Rattle.fsl_forum.specs.Kept.{AreEnds, AreNexts, Climbs, IsWithin, StayRight, known_end};

use super::Fact;
use fsl_name::Name;
use fsl_text::Memory;
use std::alloc::Global;
use std::collections::BTreeMap;

/// By the name of each post its next post.
type Nexts = BTreeMap<Name, Option<Name>>;

/// A map from the name of a post to the end of its chain. The end is `None` where the chain is broken.
pub type Ends = BTreeMap<Name, Option<Name>>;

/// The posts that a climb passed, and what it came to.
#[derive(Drop)]
struct Climb {
    path: Vec<Name>,
    end: Option<Name>,
}

/// Puts the value of a name in.
fn put(
    map: &mut BTreeMap<Name, Option<Name>>,
    name: Name,
    value: Option<Name>,
) -> Result<(), Memory>
    ensures value { OnOk result ((q : List ℕ) → value_at map.new.entries q ≡ cond (bytes_eq name q) (Some value) (value_at map.old.entries q)) }
    ensures len { OnOk result (length map.new.entries ≡ length map.old.entries + (if is_some (value_at map.old.entries name) then 0 else 1)) }
    ensures rising { IsStrictlySortedBy bytes_cmp (keys_of map.new.entries) }
{
    match map.insert(name, value) {
        Ok(_) => Ok(()),
        Err(_) => Err(Memory),
    }
}

/// The next post of each post.
fn nexts_of(alloc: Global, facts: &[Fact]) -> Result<Nexts, Memory>
    ensures { IfOk result (λ nexts. AreNexts facts.now nexts.entries) }
{
    let mut nexts = BTreeMap::new(alloc);
    let mut left = facts.len();
    while left > 0 {
        left -= 1;
        let fact = &facts[left];
        put(&mut nexts, fact.name, fact.next())?;
    }
    Ok(nexts)
}

/// The next post of a post whose end isn't known. None where it is known, the post isn't there, or it has no next post.
fn ahead(nexts: &Nexts, ends: &Ends, at: Name) -> Option<Name>
    ensures { result ≡ (if is_some (value_at ends.now.entries at) then None else option_and_then (λ n. n) (value_at nexts.now.entries at)) }
{
    if ends.contains_key(&at) {
        return None;
    }
    *nexts.get(&at)?
}

/// The end of the chain at a name where a climb stops: the known one, else the post itself where it is there.
fn end_there(nexts: &Nexts, ends: &Ends, at: Name) -> Option<Name>
    ensures { result ≡ known_end nexts.now.entries ends.now.entries at }
{
    match ends.get(&at) {
        Some(end) => *end,
        None if nexts.contains_key(&at) => Some(at),
        None => None,
    }
}

/// Follows the chain of a post up to the first one whose end is known, or that has no next post, or that isn't there. Those that are
/// passed stand as broken until their end is put in, so that a climb which comes to its own path finds that it is.
fn follow(alloc: Global, nexts: &Nexts, ends: &mut Ends, from: Name) -> Result<Climb, Memory>
    requires { IsWithin ends.old.entries nexts.now.entries }
    ensures within { OnOk result (IsWithin ends.new.entries nexts.now.entries) }
    ensures passed { IfOk result (λ climb. (q : List ℕ) → has climb.path.items q ≡ true → is_some (value_at ends.new.entries q) ≡ true) }
    ensures stays { OnOk result (IsWithin ends.old.entries ends.new.entries) }
    ensures climbed { IfOk result (λ climb. Climbs nexts.now.entries ends.old.entries ends.new.entries climb.path.items from climb.end) }
{
    let mut path = Vec::new(alloc);
    let mut at = from;
    while let Some(next) = ahead(nexts, ends, at) {
        put(ends, at, None)?;
        path.push(at)?;
        at = next;
    }
    let end = end_there(nexts, ends, at);
    Ok(Climb { path, end })
}

/// Puts the end of the chains of some posts in.
fn put_each(ends: &mut Ends, names: &[Name], end: &Option<Name>) -> Result<(), Memory>
    ensures { OnOk result ((q : List ℕ) → value_at ends.new.entries q ≡ cond (has names.now q) (Some end.now) (value_at ends.old.entries q)) }
{
    for name in names {
        put(ends, *name, *end)?;
    }
    Ok(())
}

/// Finds the end of the chain of a post that is there, and of each post that it passes.
fn settle(alloc: Global, nexts: &Nexts, ends: &mut Ends, name: Name) -> Result<(), Memory>
    requires within { IsWithin ends.old.entries nexts.now.entries }
    requires there { is_some (value_at nexts.now.entries name) ≡ true }
    ensures within { OnOk result (IsWithin ends.new.entries nexts.now.entries) }
    ensures right { OnOk result (StayRight nexts.now.entries ends.old.entries ends.new.entries) }
    ensures known { OnOk result ((q : List ℕ) → (bytes_eq name q || is_some (value_at ends.old.entries q)) ≡ true → is_some (value_at ends.new.entries q) ≡ true) }
{
    let climb = follow(alloc, nexts, ends, name)?;
    put_each(ends, &climb.path, &climb.end)?;
    // A post without a next post isn't on the path.
    put(ends, name, climb.end)
}

/// Finds the end of the chain of each post. It passes every post once, so it takes time by n log n of the posts. `Memory` is the
/// only error.
pub fn ends_of(alloc: Global, facts: &[Fact]) -> Result<Ends, Memory>
    ensures { IfOk result (λ ends. AreEnds facts.now ends.entries) }
{
    let nexts = nexts_of(alloc, facts)?;
    let mut ends = BTreeMap::new(alloc);
    for fact in facts {
        settle(alloc, &nexts, &mut ends, fact.name)?;
    }
    Ok(ends)
}
