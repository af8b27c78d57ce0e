//! Finds the artifacts that an artifact names.
ghost use Rattle.std.specs.Prelude.{◌≡◌, ◌++◌, IfOk, OnOk};
ghost use Rattle.fsl_artifact.specs.References.{members, names_in, references};

use super::Artifact;
use super::names::{append_names, append_refs};
use fsl_name::{Name, ordered};
use fsl_text::{List, Memory};
use std::alloc::Global;

/// Returns the own names in the cards of an artifact.
fn names_in(alloc: Global, artifact: &Artifact) -> Result<Vec<Name>, Memory>
    ensures { IfOk result (λ names. names.items ≡ names_in artifact.now) }
{
    let mut names = Vec::new(alloc);
    append_names(&mut names, artifact)?;
    Ok(names)
}

/// Finds the names that an artifact refers to, ascending, each once: those of 40 digits in its B, F, P, Q, T, M, G and I cards,
/// and the source in its A card. The target `*` of a tag is no name. Plain content and tickets refer to none. `Memory` is the
/// only error.
pub fn refs(alloc: Global, artifact: &Artifact) -> Result<List<Name>, Memory>
    ensures { IfOk result (λ names. names ≡ references artifact.now) }
{
    let names = names_in(alloc, artifact)?;
    Ok(List::from_vec(ordered(names)))
}

/// Finds the names of 40 digits in the M cards of a cluster, in their order. Every other artifact has none. `Memory` is the only
/// error.
pub fn members(alloc: Global, artifact: &Artifact) -> Result<List<Name>, Memory>
    ensures { IfOk result (λ names. names ≡ members artifact.now) }
{
    let mut names = Vec::new(alloc);
    append_members(&mut names, artifact)?;
    Ok(List::from_vec(names))
}

/// Adds the names in the M cards of a cluster at the end.
fn append_members(names: &mut Vec<Name>, artifact: &Artifact) -> Result<(), Memory>
    ensures { OnOk result (names.new.items ≡ names.old.items ++ members artifact.now) }
{
    match artifact {
        Artifact::Cluster(cluster) => append_refs(names, cluster.members.items()),
        _ => Ok(()),
    }
}
