//! Puts a check-in into the three maps.
ghost use Rattle.std.specs.Prelude.{None, ◌≡◌, ◌+◌, ◌≤◌, OnOk, IfOk};
ghost use Rattle.std.specs.List.Sorted.{IsStrictlySortedBy};
ghost use Rattle.std.specs.Map.{keys_of};
ghost use Rattle.fsl_order.specs.Names.{bytes_cmp};
ghost use Rattle.fsl_table.specs.Contents.{value_at, with_entry};
ghost use Rattle.fsl_table.specs.Exact.{pair_cmp};
ghost use Rattle.fsl_files.specs.Kept.{AreMoved, IsFit, IsKept, IsUnfollowed, ListsPut, rows_before, rows_of, steps_back};
ghost use Rattle.fsl_files.specs.Before.{was_at};

use crate::entry::Entry;
use crate::maps::Maps;
use crate::touched::changed_by;
use fsl_name::Name;
use fsl_table::{Pair, Tracked};
use fsl_text::{List, Memory, Steps};
use std::alloc::Global;
use std::sync::ledger::Ledger;

/// What stands at a name before a check-in is put there: whether there is one, and the names of its baseline and primary parent.
#[derive(Clone, Copy)]
pub(crate) struct Before {
    pub(crate) is_there: bool,
    pub(crate) baseline: Option<Name>,
    pub(crate) parent: Option<Name>,
}

/// What stands at a name.
fn stands<L: Ledger>(facts: &Tracked<Name, Entry>, name: Name, steps: &mut Steps<L>) -> Before
    ensures was { result ≡ was_at facts.now.held.entries name }
    ensures cost { steps.new ≡ steps.old + 1 }
{
    match facts.get(&name, steps) {
        None => Before {
            is_there: false,
            baseline: None,
            parent: None,
        },
        Some(entry) => Before {
            is_there: true,
            baseline: entry.baseline,
            parent: entry.parent,
        },
    }
}

/// Puts the pair of a name and of the one to which it belongs in the place of the old one.
fn relink<L: Ledger>(
    pairs: &mut Tracked<Pair, ()>,
    name: Name,
    old: Option<Name>,
    new: Option<Name>,
    steps: &mut Steps<L>,
) -> Result<(), Memory>
    requires { IsStrictlySortedBy pair_cmp (keys_of pairs.old.held.entries) }
    ensures pairs { OnOk result (AreMoved name old new pairs.old.held.entries pairs.new.held.entries) }
    ensures was { pairs.new.was ≡ pairs.old.was }
    ensures most { old ≡ None → steps.new ≤ steps.old + 1 }
    ensures back { old ≡ None → pairs.new.back ≤ pairs.old.back + 1 }
{
    pairs.unlink(name, old, steps)?;
    pairs.link(name, new, steps)
}

/// Puts a check-in in the place of what stood at its name. After `Memory` a part may be done.
pub(crate) fn put_line<L: Ledger>(
    maps: &mut Maps,
    line: (Name, Entry),
    was: &Before,
    steps: &mut Steps<L>,
) -> Result<(), Memory>
    requires kept { IsKept (rows_of maps.old) }
    requires fit { IsFit line.1 }
    requires was { was.now ≡ was_at maps.old.facts.held.entries line.0 }
    ensures entries { OnOk result (maps.new.facts.held.entries ≡ with_entry bytes_cmp line.0 line.1 maps.old.facts.held.entries) }
    ensures kept { OnOk result (IsKept (rows_of maps.new)) }
    ensures was { rows_before maps.new ≡ rows_before maps.old }
    ensures cost { value_at bytes_cmp line.0 maps.old.facts.held.entries ≡ None → steps.new ≤ steps.old + 3 }
    ensures back { value_at bytes_cmp line.0 maps.old.facts.held.entries ≡ None → steps_back maps.new ≤ steps_back maps.old + 3 }
{
    let (name, entry) = line;
    relink(&mut maps.deltas, name, was.baseline, entry.baseline, steps)?;
    relink(&mut maps.children, name, was.parent, entry.parent, steps)?;
    maps.facts.put(name, name, entry, steps)
}

/// Puts a new check-in. After `Memory` a part may be done.
pub(crate) fn put_new<L: Ledger>(
    maps: &mut Maps,
    line: (Name, Entry),
    steps: &mut Steps<L>,
) -> Result<(), Memory>
    requires kept { IsKept (rows_of maps.old) }
    requires fit { IsFit line.1 }
    requires absent { value_at bytes_cmp line.0 maps.old.facts.held.entries ≡ None }
    ensures entries { OnOk result (maps.new.facts.held.entries ≡ with_entry bytes_cmp line.0 line.1 maps.old.facts.held.entries) }
    ensures kept { OnOk result (IsKept (rows_of maps.new)) }
{
    let was = Before {
        is_there: false,
        baseline: None,
        parent: None,
    };
    put_line(maps, line, &was, steps)
}

/// Puts a check-in, in the place of that of its name where there is one, and tells the names whose rows differ, ascending. After
/// `Memory` a part may be done.
pub(crate) fn put_either<L: Ledger>(
    alloc: Global,
    maps: &mut Maps,
    line: (Name, Entry),
    steps: &mut Steps<L>,
) -> Result<List<Name>, Memory>
    requires kept { IsKept (rows_of maps.old) }
    requires fit { IsFit line.1 }
    ensures entries { OnOk result (maps.new.facts.held.entries ≡ with_entry bytes_cmp line.0 line.1 maps.old.facts.held.entries) }
    ensures kept { OnOk result (IsKept (rows_of maps.new)) }
    ensures changed { IfOk result (ListsPut line maps.old.facts.held.entries) }
    ensures was { rows_before maps.new ≡ rows_before maps.old }
    ensures cost { value_at bytes_cmp line.0 maps.old.facts.held.entries ≡ None → IsUnfollowed (rows_of maps.old) line.0 → steps.new ≤ steps.old + 6 }
    ensures back { value_at bytes_cmp line.0 maps.old.facts.held.entries ≡ None → steps_back maps.new ≤ steps_back maps.old + 3 }
{
    let was = stands(&maps.facts, line.0, steps);
    match changed_by(alloc, maps, &line, was.is_there, steps) {
        Ok(changed) => match put_line(maps, line, &was, steps) {
            Ok(()) => Ok(changed),
            Err(Memory) => {
                drop(changed);
                Err(Memory)
            }
        },
        Err(Memory) => {
            drop(line);
            Err(Memory)
        }
    }
}
