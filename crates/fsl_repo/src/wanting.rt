//! Finds the wanted names.
ghost use Rattle.std.specs.Prelude.{◌≡◌, IfOk, filter, not};
ghost use Rattle.std.specs.FinSet as set;
ghost use Rattle.fsl_blobs.specs.Fold.{contents};
ghost use Rattle.fsl_cluster.specs.Clusters as clusters;
ghost use Rattle.fsl_repo.specs.Machine.{wants};

use fsl_blobs::Blobs;
use fsl_cluster::Clusters;
use fsl_cross::Items;
use fsl_name::Name;
use fsl_text::{List, Memory};
use std::alloc::Global;

/// Those of some names that aren't shunned, in their order.
fn not_shunned(alloc: Global, names: &[Name], blobs: &Blobs) -> Result<Vec<Name>, Memory>
    ensures { IfOk result (λ found. found.items ≡ filter (λ name. not (set.contains (contents blobs.now.records).shunned name)) names.now) }
{
    let mut found = Vec::new(alloc);
    for name in names {
        if !blobs.is_shunned(*name) {
            found.push(*name)?;
        }
    }
    Ok(found)
}

/// The missing names that aren't shunned, ascending.
pub(crate) fn wanted(alloc: Global, table: &Clusters, blobs: &Blobs) -> Result<List<Name>, Memory>
    ensures { IfOk result (λ names. names ≡ clusters.wants table.now.facts (set.items (contents blobs.now.records).shunned)) }
{
    let missing = table.missing(alloc)?;
    let names = not_shunned(alloc, missing.items(), blobs)?;
    Ok(List::from_vec(names))
}

/// Returns the names that some artifacts refer to and that are neither among them nor shunned, ascending. For the held artifacts
/// these are the wanted names. `Memory` is the only error.
pub fn wants_of(alloc: Global, blobs: &Blobs, items: &Items) -> Result<List<Name>, Memory>
    ensures { IfOk result (λ names. names ≡ wants (contents blobs.now.records) items.now) }
{
    let clusters = items.cluster(alloc)?;
    wanted(alloc, &clusters, blobs)
}
