//! These calls read the names of a table, one after another.
ghost use Rattle.std.specs.Prelude.{◌≡◌, IfOk};
ghost use Rattle.std.specs.List.Sorted.{IsStrictlySortedBy};
ghost use Rattle.std.specs.Map.{keys_of};
ghost use Rattle.fsl_order.specs.Names.{bytes_cmp};
ghost use Rattle.fsl_table.specs.Contents.{first_of};
ghost use Rattle.fsl_table.specs.Pairs.{rest_after};

use crate::table::Table;
use fsl_name::Name;
use fsl_text::{List, Memory, Steps};
use std::alloc::Global;
use std::sync::ledger::Ledger;

/// Gives the first name of a table, or the first above another.
fn name_after<L: Ledger>(
    table: &Table<Name, ()>,
    after: Option<Name>,
    steps: &mut Steps<L>,
) -> Option<Name>
    ensures { result ≡ first_of (rest_after after (keys_of table.now.entries)) }
{
    match after {
        None => match table.first(steps) {
            None => None,
            Some((name, _)) => Some(*name),
        },
        Some(name) => match table.next_after(&name, steps) {
            None => None,
            Some((next, _)) => Some(*next),
        },
    }
}

/// Lists the names of a table, ascending. `Memory` is the only error.
pub fn keys<L: Ledger>(
    alloc: Global,
    table: &Table<Name, ()>,
    steps: &mut Steps<L>,
) -> Result<List<Name>, Memory>
    requires { IsStrictlySortedBy bytes_cmp (keys_of table.now.entries) }
    ensures keys { IfOk result (λ list. list ≡ keys_of table.now.entries) }
{
    let mut list = List::new(alloc);
    let mut next = name_after(table, None, steps);
    while let Some(name) = next {
        if list.push(name).is_err() {
            return Err(Memory);
        }
        next = name_after(table, Some(name), steps);
    }
    Ok(list)
}
