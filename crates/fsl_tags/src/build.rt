//! A build fills all maps from facts: first the facts and their assertions, then the row of each name, once.
ghost use Rattle.std.specs.List.Sorted.{IsStrictlySortedBy};
ghost use Rattle.std.specs.Map.{keys_of};
ghost use Rattle.std.specs.Prelude.{◌≡◌, [], List, ℕ, OnOk, unwrap_or};
ghost use Rattle.fsl_order.specs.Names.{bytes_cmp};
ghost use Rattle.fsl_order.specs.Rows.{by_name};
ghost use Rattle.fsl_table.specs.Contents.{value_at};
ghost use Rattle.fsl_tags.specs.Held.{IsKept, facts_in, rows_of};
ghost use Rattle.fsl_tags.specs.Laid.{row_in, AreFull};
ghost use Rattle.fsl_tags.specs.Tags as table;

use super::Fact;
use super::changed::pop;
use super::lay::{lay, put_row};
use super::maps::Maps;
use super::row::Row;
use super::settle::settle_all;
use fsl_name::Name;
use fsl_table::Tracked;
use fsl_text::{Memory, Steps};
use std::alloc::Global;
use std::collections::BTreeMap;
use std::sync::ledger::Ledger;

/// Puts rows into an empty map, those that aren't empty. They are moved.
fn keep<L: Ledger>(
    settled: BTreeMap<Name, Row>,
    rows: &mut Tracked<Name, Row>,
    steps: &mut Steps<L>,
) -> Result<(), Memory>
    requires ordered { IsStrictlySortedBy bytes_cmp (keys_of settled.entries) }
    requires empty { rows.old.held.entries ≡ [] }
    ensures full { OnOk result (AreFull rows.new.held.entries) }
    ensures rows { OnOk result ((x : List ℕ) → row_in rows.new.held.entries x ≡ unwrap_or (value_at bytes_cmp x settled.entries) []) }
{
    let mut left = settled;
    while let Some(entry) = pop(&mut left) {
        let (name, row) = entry;
        put_row(rows, name, row, steps)?;
    }
    Ok(())
}

/// Fills empty maps from facts. `Memory` is the only error.
pub(crate) fn fill<L: Ledger>(
    alloc: Global,
    given: &[Fact],
    maps: &mut Maps,
    steps: &mut Steps<L>,
) -> Result<(), Memory>
    requires fit { table.AreTagFacts given.now }
    requires facts { maps.old.graph.facts.held.entries ≡ [] }
    requires children { maps.old.graph.children.held.entries ≡ [] }
    requires own { maps.old.own.held.entries ≡ [] }
    requires rows { maps.old.flow.rows.held.entries ≡ [] }
    ensures kept { OnOk result (IsKept (rows_of maps.new)) }
    ensures facts { OnOk result (facts_in maps.new ≡ by_name (λ f. f.name) given.now) }
{
    lay(alloc, given, &mut maps.graph, &mut maps.own, steps)?;
    let mut settled = BTreeMap::new(alloc);
    let most = maps.graph.facts.map().len();
    settle_all(
        alloc,
        given,
        &maps.graph.facts,
        &maps.own,
        &mut settled,
        most,
        steps,
    )?;
    let _count = settled.len();
    keep(settled, &mut maps.flow.rows, steps)
}
