//! A group has the assertions on one target.
ghost use Rattle.std.specs.Prelude.{◌≡◌, ◌++◌, ◌∷◌, [], List, ℕ, OnOk, IfOk, cond};
ghost use Rattle.std.specs.Str.{bytes_eq};
ghost use Rattle.fsl_tags.specs.Kept.{on_target};
ghost use Rattle.fsl_tags.specs.Laid.{row_in, AreFull};

use super::merge::push;
use super::shared::Shared;
use fsl_name::Name;
use fsl_text::{List, Memory};
use std::alloc::Global;
use std::collections::BTreeMap;

/// Takes the group of a name out; none is an empty one.
pub(crate) fn take_out(
    alloc: Global,
    groups: &mut BTreeMap<Name, List<Shared>>,
    target: Name,
) -> List<Shared>
    requires { AreFull groups.old.entries }
    ensures full { AreFull groups.new.entries }
    ensures group { result ≡ row_in groups.old.entries target }
    ensures others { (x : List ℕ) → row_in groups.new.entries x ≡ cond (bytes_eq x target) [] (row_in groups.old.entries x) }
{
    match groups.remove(&target) {
        Some(group) => group,
        None => List::new(alloc),
    }
}

/// Puts an assertion at the end of the group of its target.
fn add(
    alloc: Global,
    groups: &mut BTreeMap<Name, List<Shared>>,
    target: Name,
    assertion: &Shared,
) -> Result<(), Memory>
    requires { AreFull groups.old.entries }
    ensures full { OnOk result (AreFull groups.new.entries) }
    ensures groups { OnOk result ((x : List ℕ) → row_in groups.new.entries x ≡ row_in groups.old.entries x ++ cond (bytes_eq x target) (assertion.now ∷ []) []) }
{
    let mut group = take_out(alloc, groups, target);
    push(&mut group, assertion)?;
    match groups.insert(target, group) {
        Ok(_) => Ok(()),
        Err(_) => Err(Memory),
    }
}

/// Puts assertions at the ends of the groups of their targets, in the order in which they stand.
pub(crate) fn add_all(
    alloc: Global,
    groups: &mut BTreeMap<Name, List<Shared>>,
    assertions: &[Shared],
) -> Result<(), Memory>
    requires { AreFull groups.old.entries }
    ensures full { OnOk result (AreFull groups.new.entries) }
    ensures groups { OnOk result ((x : List ℕ) → row_in groups.new.entries x ≡ row_in groups.old.entries x ++ on_target x assertions.now) }
{
    for assertion in assertions {
        add(alloc, groups, assertion.get().target, assertion)?;
    }
    Ok(())
}

/// Assertions by their targets, those of one target in the order in which they stand.
pub(crate) fn grouped(
    alloc: Global,
    assertions: &[Shared],
) -> Result<BTreeMap<Name, List<Shared>>, Memory>
    ensures full { IfOk result (λ groups. AreFull groups.entries) }
    ensures groups { IfOk result (λ groups. (x : List ℕ) → row_in groups.entries x ≡ on_target x assertions.now) }
{
    let mut groups = BTreeMap::new(alloc);
    add_all(alloc, &mut groups, assertions)?;
    Ok(groups)
}
