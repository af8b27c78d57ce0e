//! A pair holds a name and one that belongs to it. Calls put pairs, take them out, and walk them by their first name.
ghost use Rattle.std.specs.Prelude.{◌≡◌, ◌+◌, ◌≤◌, ◌&&◌, ◌||◌, not, length, option_and_then, None, OnOk, OnErr, IfOk};
ghost use Rattle.std.specs.List.Sorted.{IsStrictlySortedBy};
ghost use Rattle.std.specs.Map.{keys_of};
ghost use Rattle.fsl_table.specs.Contents.{Contents, first_of, entries_after};
ghost use Rattle.fsl_table.specs.Exact.{pair_cmp};
ghost use Rattle.fsl_table.specs.Pairs.{is_linked, is_link, is_link_of, second_of, seconds as seconds_of};
ghost use Rattle.fsl_table.specs.Undo.{Undoes};
ghost use Rattle.fsl_table.specs.declared.key.Pair as pair;

use crate::key::Pair;
use crate::log;
use crate::log::Log;
use crate::table::Table;
use fsl_name::Name;
use fsl_text::{List, Memory, Steps};
use std::alloc::Global;
use std::sync::ledger::Ledger;

/// Gives the least name that belongs to a name, or the least of them above another. `None` says that there is none.
pub fn second_after<L: Ledger>(
    pairs: &Table<Pair, ()>,
    first: Name,
    after: Option<Name>,
    steps: &mut Steps<L>,
) -> Option<Name>
    ensures next { result ≡ option_and_then (second_of first) (first_of (entries_after pair_cmp (record { first = first; second = after }) pairs.now.entries)) }
    ensures cost { steps.new ≡ steps.old + 1 }
{
    let key = Pair {
        first,
        second: after,
    };
    let (next, _) = pairs.next_after(&key, steps)?;
    if next.first == first {
        next.second
    } else {
        None
    }
}

/// Lists the names that belong to a name, ascending. `Memory` is the only error.
pub fn seconds<L: Ledger>(
    alloc: Global,
    pairs: &Table<Pair, ()>,
    first: Name,
    steps: &mut Steps<L>,
) -> Result<List<Name>, Memory>
    requires { IsStrictlySortedBy pair_cmp (keys_of pairs.now.entries) }
    ensures seconds { IfOk result (λ list. list ≡ seconds_of first pairs.now.entries) }
    ensures cost { steps.new ≤ steps.old + (1 + length (seconds_of first pairs.now.entries)) }
{
    let mut list = List::new(alloc);
    let mut next = second_after(pairs, first, None, steps);
    while let Some(second) = next {
        if list.push(second).is_err() {
            return Err(Memory);
        }
        next = second_after(pairs, first, Some(second), steps);
    }
    Ok(list)
}

/// Puts the pair of a name and of the one to which it belongs, where it belongs to one. `Memory` is the only error, and nothing
/// changes then.
pub fn link<L: Ledger>(
    pairs: &mut Table<Pair, ()>,
    log: &mut Log<Pair, ()>,
    second: Name,
    first: Option<Name>,
    steps: &mut Steps<L>,
) -> Result<(), Memory>
    requires { IsStrictlySortedBy pair_cmp (keys_of pairs.old.entries) }
    ensures ordered { OnOk result (IsStrictlySortedBy pair_cmp (keys_of pairs.new.entries)) }
    ensures pairs { OnOk result ((k : pair.Pair) → is_linked pairs.new.entries k ≡ (is_link second first k || is_linked pairs.old.entries k)) }
    ensures err { OnErr result (pairs.new ≡ pairs.old) }
    ensures kept { OnErr result (log.new ≡ log.old) }
    ensures undoes { (before : Contents pair.Pair Unit) → Undoes pair_cmp log.old pairs.old before → Undoes pair_cmp log.new pairs.new before }
    ensures most { steps.new ≤ steps.old + 1 }
    ensures logged { length log.new ≤ length log.old + 1 }
{
    match first {
        Some(first) => {
            let key = Pair {
                first,
                second: Some(second),
            };
            let again = Pair {
                first,
                second: Some(second),
            };
            log::put(pairs, log, key, again, (), steps)
        }
        None => Ok(()),
    }
}

/// Takes out the pair of a name and of the one to which it belongs, where it belongs to one. `Memory` is the only error, and
/// nothing changes then.
pub fn unlink<L: Ledger>(
    pairs: &mut Table<Pair, ()>,
    log: &mut Log<Pair, ()>,
    second: Name,
    first: Option<Name>,
    steps: &mut Steps<L>,
) -> Result<(), Memory>
    requires { IsStrictlySortedBy pair_cmp (keys_of pairs.old.entries) }
    ensures ordered { OnOk result (IsStrictlySortedBy pair_cmp (keys_of pairs.new.entries)) }
    ensures pairs { OnOk result ((k : pair.Pair) → is_linked pairs.new.entries k ≡ (not (is_link second first k) && is_linked pairs.old.entries k)) }
    ensures err { OnErr result (pairs.new ≡ pairs.old) }
    ensures kept { OnErr result (log.new ≡ log.old) }
    ensures undoes { (before : Contents pair.Pair Unit) → Undoes pair_cmp log.old pairs.old before → Undoes pair_cmp log.new pairs.new before }
    ensures none { first ≡ None → steps.new ≡ steps.old }
    ensures none_logged { first ≡ None → length log.new ≡ length log.old }
    ensures most { steps.new ≤ steps.old + 1 }
    ensures logged { length log.new ≤ length log.old + 1 }
{
    match first {
        Some(first) => {
            let key = Pair {
                first,
                second: Some(second),
            };
            log::remove(pairs, log, key, steps)
        }
        None => Ok(()),
    }
}

/// Puts the pairs of a name and of each of those to which it belongs. `Memory` is the only error: some may be put then, and the
/// log has them.
pub fn link_each<L: Ledger>(
    pairs: &mut Table<Pair, ()>,
    log: &mut Log<Pair, ()>,
    second: Name,
    firsts: &[Name],
    steps: &mut Steps<L>,
) -> Result<(), Memory>
    ensures pairs { OnOk result ((k : pair.Pair) → is_linked pairs.new.entries k ≡ (is_linked pairs.old.entries k || is_link_of second firsts.now k)) }
    ensures ordered { OnOk result (IsStrictlySortedBy pair_cmp (keys_of pairs.old.entries) → IsStrictlySortedBy pair_cmp (keys_of pairs.new.entries)) }
    ensures undoes { (before : Contents pair.Pair Unit) → Undoes pair_cmp log.old pairs.old before → Undoes pair_cmp log.new pairs.new before }
    ensures most { steps.new ≤ steps.old + length firsts.now }
    ensures logged { length log.new ≤ length log.old + length firsts.now }
{
    for first in firsts {
        let key = Pair {
            first: *first,
            second: Some(second),
        };
        let again = Pair {
            first: *first,
            second: Some(second),
        };
        log::put(pairs, log, key, again, (), steps)?;
    }
    Ok(())
}

/// Takes out the pairs of a name and of each of those to which it belongs. `Memory` is the only error: some may be out then, and
/// the log has them.
pub fn unlink_each<L: Ledger>(
    pairs: &mut Table<Pair, ()>,
    log: &mut Log<Pair, ()>,
    second: Name,
    firsts: &[Name],
    steps: &mut Steps<L>,
) -> Result<(), Memory>
    requires { IsStrictlySortedBy pair_cmp (keys_of pairs.old.entries) }
    ensures pairs { OnOk result ((k : pair.Pair) → is_linked pairs.new.entries k ≡ (not (is_link_of second firsts.now k) && is_linked pairs.old.entries k)) }
    ensures ordered { OnOk result (IsStrictlySortedBy pair_cmp (keys_of pairs.new.entries)) }
    ensures undoes { (before : Contents pair.Pair Unit) → Undoes pair_cmp log.old pairs.old before → Undoes pair_cmp log.new pairs.new before }
    ensures most { steps.new ≤ steps.old + length firsts.now }
    ensures logged { length log.new ≤ length log.old + length firsts.now }
{
    for first in firsts {
        let key = Pair {
            first: *first,
            second: Some(second),
        };
        log::remove(pairs, log, key, steps)?;
    }
    Ok(())
}
