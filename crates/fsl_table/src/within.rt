//! A key within a group has a first part, and a second part that belongs to it. A call walks what belongs to a first part.
ghost use Rattle.std.specs.Prelude.{◌≡◌, ◌+◌};
ghost use Rattle.std.specs.Option.{option_map, option_and_then};
ghost use Rattle.std.specs.List.Sorted.{IsStrictlySortedBy};
ghost use Rattle.std.specs.Map.{keys_of};
ghost use Rattle.fsl_table.specs.Contents.{first_of, entries_after};
ghost use Rattle.fsl_table.specs.Within.{within_cmp, second_in, within, above};
ghost use Rattle.fsl_table.specs.ExactWithin.{exact_within};

use crate::key::Key;
use crate::table::Table;
use fsl_text::Steps;
use std::sync::ledger::Ledger;

/// A key has a first part, and one that belongs to it. A walk through what belongs to a first part begins at that part with none.
#[derive(Drop, PartialEq, Eq, PartialOrd, Ord)]
pub struct Within<A, B> {
    pub first: A,
    pub second: Option<B>,
}

impl<A: Key, B: Key> Key for Within<A, B> {
    ghost exact = { exact_within A.cmp B.cmp A.exact B.exact };
}

/// Gives the second part of the next key, where that has the first part of this one.
fn second_of_next<A: Key, B: Key + Copy, L: Ledger>(
    table: &Table<Within<A, B>, ()>,
    key: &Within<A, B>,
    steps: &mut Steps<L>,
) -> Option<B>
    ensures next { result ≡ option_and_then (second_in A.cmp key.now.first) (first_of (entries_after (within_cmp A.cmp B.cmp) key.now table.now.entries)) }
    ensures cost { steps.new ≡ steps.old + 1 }
{
    let (next, _) = table.next_after(key, steps)?;
    if key.first.cmp(&next.first).is_eq() {
        next.second
    } else {
        None
    }
}

/// Gives what comes next among what belongs to the first part of a key: the least, or the least above the second part of the
/// key.
pub fn next_within<A: Key, B: Key + Copy, L: Ledger>(
    table: &Table<Within<A, B>, ()>,
    key: &Within<A, B>,
    steps: &mut Steps<L>,
) -> Option<B>
    requires { IsStrictlySortedBy (within_cmp A.cmp B.cmp) (keys_of table.now.entries) }
    ensures next { option_map (λ b. (b, tt)) result ≡ first_of (above B.cmp key.now.second (within A.cmp key.now.first table.now.entries)) }
    ensures cost { steps.new ≡ steps.old + 1 }
{
    second_of_next(table, key, steps)
}
