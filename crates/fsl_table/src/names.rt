//! A set of names gathers the names of the rows that change.
ghost use Rattle.std.specs.Prelude.{◌≡◌, ◌||◌, ◌&&◌, not, if◌then◌else◌, ℕ, List, OnOk, IfOk};
ghost use Rattle.std.specs.Str.{bytes_eq};
ghost use Rattle.std.specs.List.Sorted.{IsStrictlySortedBy};
ghost use Rattle.fsl_order.specs.Names.{bytes_cmp, has};

use fsl_name::Name;
use fsl_text::{List, Memory};
use std::alloc::Global;
use std::collections::BTreeSet;

/// Puts a name in. `Memory` is the only error, and the set then stays as it is.
pub fn note(names: &mut BTreeSet<Name>, name: Name) -> Result<(), Memory>
    ensures noted { OnOk result ((q : List ℕ) → has names.new.keys q ≡ (bytes_eq q name || has names.old.keys q)) }
{
    match names.insert(name) {
        Ok(_) => Ok(()),
        Err(_) => Err(Memory),
    }
}

/// Puts some names in. `Memory` is the only error, and some may be there then.
pub fn note_all(names: &mut BTreeSet<Name>, more: &[Name]) -> Result<(), Memory>
    ensures noted { OnOk result ((q : List ℕ) → has names.new.keys q ≡ (has more.now q || has names.old.keys q)) }
{
    for name in more {
        note(names, *name)?;
    }
    Ok(())
}

/// Puts a name in, unless another set has it. `Memory` is the only error.
fn note_unless(names: &mut BTreeSet<Name>, name: Name, but: &BTreeSet<Name>) -> Result<(), Memory>
    ensures noted { OnOk result ((q : List ℕ) → has names.new.keys q ≡ ((bytes_eq q name && not (has but.now.keys q)) || has names.old.keys q)) }
{
    if but.contains(&name) {
        return Ok(());
    }
    note(names, name)
}

/// Puts those of some names in that another set hasn't. `Memory` is the only error, and some may be there then.
pub fn note_others(
    names: &mut BTreeSet<Name>,
    more: &[Name],
    but: &BTreeSet<Name>,
) -> Result<(), Memory>
    ensures noted { OnOk result ((q : List ℕ) → has names.new.keys q ≡ ((has more.now q && not (has but.now.keys q)) || has names.old.keys q)) }
{
    for name in more {
        note_unless(names, *name, but)?;
    }
    Ok(())
}

/// Puts a name in where it isn't there, and takes it out where it is. `Memory` is the only error.
pub fn flip(names: &mut BTreeSet<Name>, name: Name) -> Result<(), Memory>
    ensures flipped { OnOk result ((q : List ℕ) → has names.new.keys q ≡ (if bytes_eq q name then not (has names.old.keys q) else has names.old.keys q)) }
{
    if names.remove(&name) {
        return Ok(());
    }
    match names.insert(name) {
        Ok(_) => Ok(()),
        Err(_) => Err(Memory),
    }
}

/// Lists the names of a set, ascending. `Memory` is the only error.
pub fn listed(alloc: Global, names: &BTreeSet<Name>) -> Result<List<Name>, Memory>
    ensures names { IfOk result (λ list. list ≡ names.now.keys) }
    ensures rising { IsStrictlySortedBy bytes_cmp names.now.keys }
{
    let mut list = List::new(alloc);
    for name in names.iter() {
        if list.push(*name).is_err() {
            return Err(Memory);
        }
    }
    Ok(list)
}
