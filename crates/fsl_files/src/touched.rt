//! Finds the names whose rows a check-in may change, and those whose rows it changes.
ghost use Rattle.std.specs.Prelude.{ℕ, List, ◌≡◌, ◌+◌, ◌≤◌, ◌||◌, length, false, is_some, IfOk, OnOk};
ghost use Rattle.std.specs.List.{list_any};
ghost use Rattle.std.specs.List.Sorted.{IsStrictlySortedBy};
ghost use Rattle.std.specs.Map.{keys_of};
ghost use Rattle.fsl_order.specs.Names.{bytes_cmp, has};
ghost use Rattle.fsl_table.specs.Contents.{value_at};
ghost use Rattle.fsl_table.specs.Exact.{pair_cmp};
ghost use Rattle.fsl_table.specs.Pairs.{seconds};
ghost use Rattle.fsl_files.specs.Kept.{IsFit, IsKept, IsUnfollowed, ListsPut, belongs, is_touched, rows_of};

use crate::entry::Entry;
use crate::lookup::Lookup;
use crate::maps::Maps;
use crate::same::{note_others, note_own};
use fsl_name::Name;
use fsl_table::names::{listed, note_all};
use fsl_table::{Pair, Tracked};
use fsl_text::{List, Memory, Steps};
use std::alloc::Global;
use std::collections::BTreeSet;
use std::sync::ledger::Ledger;

/// Notes the check-ins whose primary parent has the name.
fn note_children<L: Ledger>(
    alloc: Global,
    names: &mut BTreeSet<Name>,
    children: &Tracked<Pair, ()>,
    up: Name,
    steps: &mut Steps<L>,
) -> Result<(), Memory>
    requires { IsStrictlySortedBy pair_cmp (keys_of children.now.held.entries) }
    ensures noted { OnOk result ((q : List ℕ) → has names.new.keys q ≡ (belongs children.now.held.entries up q || has names.old.keys q)) }
    ensures cost { steps.new ≤ steps.old + (1 + length (seconds up children.now.held.entries)) }
{
    let list = children.seconds(alloc, up, steps)?;
    note_all(names, list.items())
}

/// Notes the check-ins whose primary parents have one of some names.
fn note_each<L: Ledger>(
    alloc: Global,
    names: &mut BTreeSet<Name>,
    children: &Tracked<Pair, ()>,
    ups: &[Name],
    steps: &mut Steps<L>,
) -> Result<(), Memory>
    requires { IsStrictlySortedBy pair_cmp (keys_of children.now.held.entries) }
    ensures noted { OnOk result ((q : List ℕ) → has names.new.keys q ≡ (list_any (λ up. belongs children.now.held.entries up q) ups.now || has names.old.keys q)) }
    ensures cost { length ups.now ≡ 0 → steps.new ≡ steps.old }
{
    for up in ups {
        note_children(alloc, names, children, *up, steps)?;
    }
    Ok(())
}

/// The names whose rows may differ where the check-in of a name does, beside its own, ascending: the check-ins over it, its
/// children, and the children of those over it.
fn touched<L: Ledger>(
    alloc: Global,
    deltas: &Tracked<Pair, ()>,
    children: &Tracked<Pair, ()>,
    name: Name,
    steps: &mut Steps<L>,
) -> Result<List<Name>, Memory>
    requires deltas { IsStrictlySortedBy pair_cmp (keys_of deltas.now.held.entries) }
    requires children { IsStrictlySortedBy pair_cmp (keys_of children.now.held.entries) }
    ensures names { IfOk result (λ list. (q : List ℕ) → has list q ≡ is_touched deltas.now.held.entries children.now.held.entries name q) }
    ensures cost { length (seconds name deltas.now.held.entries) ≡ 0 → length (seconds name children.now.held.entries) ≡ 0 → steps.new ≤ steps.old + 2 }
{
    let over = deltas.seconds(alloc, name, steps)?;
    let mut names = BTreeSet::new(alloc);
    note_all(&mut names, over.items())?;
    note_children(alloc, &mut names, children, name, steps)?;
    note_each(alloc, &mut names, children, over.items(), steps)?;
    listed(alloc, &names)
}

/// The names whose rows differ once a check-in is put, ascending.
pub(crate) fn changed_by<L: Ledger>(
    alloc: Global,
    maps: &Maps,
    line: &(Name, Entry),
    was_there: bool,
    steps: &mut Steps<L>,
) -> Result<List<Name>, Memory>
    requires kept { IsKept (rows_of maps.now) }
    requires fit { IsFit line.now.1 }
    requires there { was_there ≡ is_some (value_at bytes_cmp line.now.0 maps.now.facts.held.entries) }
    ensures changed { IfOk result (ListsPut line.now maps.now.facts.held.entries) }
    ensures cost { was_there ≡ false → IsUnfollowed (rows_of maps.now) line.now.0 → steps.new ≤ steps.old + 2 }
{
    let list = touched(alloc, &maps.deltas, &maps.children, line.0, steps)?;
    let old = Lookup::of(&maps.facts);
    let new = Lookup::with(&maps.facts, line);
    let mut names = BTreeSet::new(alloc);
    note_own(alloc, &mut names, &old, &new, line.0, was_there, steps)?;
    note_others(alloc, &mut names, &old, &new, list.items(), steps)?;
    listed(alloc, &names)
}
