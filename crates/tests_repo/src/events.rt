//! A cluster that is asked of a repository, by a call of its own, so that no event and no answer is let go here.
ghost use Rattle.std.specs.Prelude.{◌≡◌, ◌<◌};

use fsl_disk::Disk;
use fsl_repo::{ArriveFault, Clustering, Repo};
use fsl_text::Steps;
use std::marker::Brand;
use std::sync::ledger::{Blank, Ledger};

fn cluster_counted<D: Disk, L: Ledger>(
    repo: &mut Repo<D>,
    blank: Blank,
) -> Result<Clustering, ArriveFault>
    requires name { blank.name ≡ L.name }
    requires parts { blank.parts ≡ L.parts }
    requires counts { 0 < L.parts }
{
    let mut steps: Steps<L> = Steps::new(blank);
    repo.cluster(&mut steps)
}

/// A cluster is made.
pub(crate) fn cluster<D: Disk>(repo: &mut Repo<D>) -> Result<Clustering, ArriveFault> {
    cluster_counted::<D, Brand>(repo, Blank::new(1))
}
