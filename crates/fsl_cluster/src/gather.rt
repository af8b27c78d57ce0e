//! Gathers names from facts.
ghost use Rattle.std.specs.Prelude.{◌≡◌, ◌++◌, ◌&&◌, IfOk, OnOk, map, filter, not};
ghost use Rattle.std.specs.List.{flat_map};
ghost use Rattle.fsl_order.specs.Names.{has};
ghost use Rattle.fsl_order.specs.Rows.{ascending};
ghost use Rattle.fsl_cluster.specs.Clusters.{names};
ghost use Rattle.fsl_cluster.specs.Clusters as table;

use super::Fact;
use super::name_set::NameSet;
use fsl_name::Name;
use fsl_text::{List, Memory};
use std::alloc::{AllocError, Global};

/// The members of the clusters among the facts.
fn members(alloc: Global, facts: &[Fact]) -> Result<NameSet, Memory>
    ensures { IfOk result (λ set. set ≡ ascending (flat_map (λ f. f.members) facts.now)) }
{
    let mut names = Vec::new(alloc);
    for fact in facts {
        names.extend_from_slice(fact.members.items())?;
    }
    Ok(NameSet::of(names))
}

/// The names of the public facts that aren't in a set.
fn public_names(alloc: Global, facts: &[Fact], members: &NameSet) -> Result<Vec<Name>, AllocError>
    ensures { IfOk result (λ found. found.items ≡ map (λ f. f.name) (filter (λ f. not f.private && not (has members.now f.name)) facts.now)) }
{
    facts
        .iter()
        .filter(|fact| !fact.private && !members.contains(&fact.name))
        .map(|fact| fact.name)
        .collect(alloc)
}

/// Returns the public names of some facts that are in no M card of theirs, ascending. `Memory` is the only error.
pub fn unclustered(alloc: Global, facts: &[Fact]) -> Result<List<Name>, Memory>
    ensures { IfOk result (λ found. found ≡ table.unclustered facts.now) }
{
    let members = members(alloc, facts)?;
    let names = public_names(alloc, facts, &members)?;
    Ok(NameSet::of(names).into_list())
}

/// The names of some facts.
fn held_names(alloc: Global, facts: &[Fact]) -> Result<Vec<Name>, AllocError>
    ensures { IfOk result (λ found. found.items ≡ names facts.now) }
{
    facts.iter().map(|fact| fact.name).collect(alloc)
}

/// Puts those of some names at the end that aren't in a set.
fn append_unheld(into: &mut Vec<Name>, more: &[Name], held: &NameSet) -> Result<(), Memory>
    ensures { OnOk result (into.new.items ≡ into.old.items ++ filter (λ name. not (has held.now name)) more.now) }
{
    for name in more {
        if !held.contains(name) {
            into.push(*name)?;
        }
    }
    Ok(())
}

/// The names that some facts refer to and that aren't in a set.
fn refs_unheld(alloc: Global, facts: &[Fact], held: &NameSet) -> Result<Vec<Name>, Memory>
    ensures { IfOk result (λ found. found.items ≡ filter (λ name. not (has held.now name)) (flat_map (λ f. f.refs) facts.now)) }
{
    let mut found = Vec::new(alloc);
    for fact in facts {
        append_unheld(&mut found, fact.refs.items(), held)?;
    }
    Ok(found)
}

/// Returns the names that some facts refer to and that are the name of none of them, ascending. `Memory` is the only error.
pub fn missing(alloc: Global, facts: &[Fact]) -> Result<List<Name>, Memory>
    ensures { IfOk result (λ found. found ≡ table.missing facts.now) }
{
    let held = NameSet::of(held_names(alloc, facts)?);
    let found = refs_unheld(alloc, facts, &held)?;
    Ok(NameSet::of(found).into_list())
}
