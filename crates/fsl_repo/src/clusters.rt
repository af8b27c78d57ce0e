//! Makes clusters.
ghost use Rattle.std.specs.Prelude.{◌≡◌, take, true};
ghost use Rattle.fsl_cluster.specs.Clusters.{AreMembers};
ghost use Rattle.fsl_repo.specs.Machine.{ClusterStep};
ghost use Rattle.fsl_repo.specs.Touches.{is_idle_cluster};

use crate::{ArriveFault, Clustering, Repo};
use fsl_cluster::make_cluster;
use fsl_disk::Disk;
use fsl_name::Name;
use fsl_text::Steps;
use std::sync::ledger::Ledger;

/// No cluster is made of so few names.
const FEW: u64 = 100;

/// A cluster has at most so many names.
const MOST_MEMBERS: usize = 4096;

/// The first names of a list, at most 4,096.
fn front(names: &[Name]) -> &[Name]
    ensures { result.now ≡ take 4096 names.now }
{
    if names.len() <= MOST_MEMBERS {
        names
    } else {
        &names[..MOST_MEMBERS]
    }
}

impl<D: Disk> Repo<D> {
    /// Makes a cluster of the first 4,096 public names that are in no cluster, where there are more than 100. It arrives as a
    /// public artifact.
    ///
    /// Errors: those of `arrive`.
    pub fn cluster<L: Ledger>(&mut self, steps: &mut Steps<L>) -> Result<Clustering, ArriveFault>
        ensures step { ClusterStep self.old.seen.state result self.new.seen.state }
        ensures loaded { self.new.seen.loaded ≡ self.old.seen.loaded }
        ensures disk { self.new.disk ≡ self.old.disk }
        // An answer that only says what is known takes no touches.
        ensures idle { is_idle_cluster result ≡ true → steps.new ≡ steps.old }
    {
        if let Some(faults) = self.journal.stopped() {
            return Err(ArriveFault::Stopped { faults });
        }
        let count = self.tables.cluster().unclustered_count();
        if count <= FEW {
            return Ok(Clustering::Few { count });
        }
        let Ok(names) = self.tables.cluster().unclustered(self.alloc) else {
            return Err(ArriveFault::Memory);
        };
        let Ok(text) = make_cluster(self.alloc, front(names.items())) else {
            return Err(ArriveFault::Memory);
        };
        let name = Name::of(text.bytes());
        match self.arrive(name, text.bytes(), false, steps) {
            Ok(arrival) => Ok(Clustering::Arrived { name, arrival }),
            Err(fault) => Err(fault),
        }
    }
}
