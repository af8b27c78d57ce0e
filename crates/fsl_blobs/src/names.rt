//! Lists names, ascending.
ghost use Rattle.std.specs.Prelude.{◌≡◌, IfOk, map, filter};
ghost use Rattle.std.specs.BTreeMap as tree;
ghost use Rattle.std.specs.List.Sorted.{IsStrictlySortedBy};
ghost use Rattle.std.specs.FinSet as set;
ghost use Rattle.fsl_order.specs.Names.{bytes_cmp};
ghost use Rattle.fsl_order.specs.Rows.{ascending};
ghost use Rattle.fsl_blobs.specs.Fold.{contents, private_names};

use crate::Blobs;
use crate::blobs::HeldArtifact;
use fsl_name::Name;
use fsl_text::{List, Memory};
use std::alloc::Global;
use std::collections::{BTreeMap, BTreeSet};

/// Copies a set of names, ascending.
fn copied(alloc: Global, names: &BTreeSet<Name>) -> Result<Vec<Name>, Memory>
    ensures names { IfOk result (λ list. list.items ≡ names.now.keys) }
    ensures ordered { IsStrictlySortedBy bytes_cmp names.now.keys }
{
    let mut list = Vec::new(alloc);
    for name in names {
        list.push(*name)?;
    }
    Ok(list)
}

/// Returns the names of the private artifacts of a map, ascending.
fn private_in(alloc: Global, held: &BTreeMap<Name, HeldArtifact>) -> Result<Vec<Name>, Memory>
    ensures names { IfOk result (λ list. list.items ≡ map (λ e. e.0) (filter (λ e. e.1.private) held.now.entries)) }
    ensures ordered { IsStrictlySortedBy bytes_cmp (tree.keys held.now) }
{
    let mut list = Vec::new(alloc);
    for (name, artifact) in held {
        if artifact.private {
            list.push(*name)?;
        }
    }
    Ok(list)
}

impl Blobs {
    /// Returns the names of the held artifacts that are private, ascending. `Memory` is the only error.
    pub fn privates(&self, alloc: Global) -> Result<List<Name>, Memory>
        ensures { IfOk result (λ names. names ≡ private_names (contents self.now.records).held) }
    {
        let names = private_in(alloc, &self.held)?;
        Ok(List::from_vec(names))
    }

    /// Returns whether a name is shunned. Takes no memory.
    pub fn is_shunned(&self, name: Name) -> bool
        ensures { result ≡ set.contains (contents self.now.records).shunned name }
    {
        self.shunned.contains(&name)
    }

    /// Returns the shunned names, ascending. `Memory` is the only error.
    pub fn shuns(&self, alloc: Global) -> Result<List<Name>, Memory>
        ensures { IfOk result (λ names. names ≡ ascending (set.items (contents self.now.records).shunned)) }
    {
        let names = copied(alloc, &self.shunned)?;
        Ok(List::from_vec(names))
    }

    /// Returns the announced names, ascending. `Memory` is the only error.
    pub fn announced(&self, alloc: Global) -> Result<List<Name>, Memory>
        ensures { IfOk result (λ names. names ≡ ascending (set.items self.now.announced)) }
    {
        let names = copied(alloc, &self.announced)?;
        Ok(List::from_vec(names))
    }
}
