//! Repositories over memory, and what arrives in them.
ghost use Rattle.std.specs.Prelude.{◌≡◌, ◌<◌, IfSome, length};

use fsl_disk::{Disk, MemoryDisk};
use fsl_name::Name;
use fsl_repo::{Arrival, ArriveFault, Repo};
use fsl_text::{Memory, Steps};
use std::alloc::Global;
use std::marker::Brand;
use std::sync::ledger::{Blank, Ledger};

/// A disk with these bytes. `Memory` is the only error.
pub fn disk_of(alloc: Global, bytes: &[u8]) -> Result<MemoryDisk, Memory> {
    Ok(MemoryDisk::new(alloc, bytes.to_vec(alloc)?, Vec::new(alloc)))
}

/// An empty spare file.
pub fn spare_of(alloc: Global) -> MemoryDisk {
    MemoryDisk::new(alloc, Vec::new(alloc), Vec::new(alloc))
}

/// The repository of a disk, in which all is committed; none where it doesn't load.
pub fn loaded<D: Disk + Drop>(alloc: Global, disk: D) -> Option<Repo<D>>
    ensures { IfSome result (λ repo. length repo.seen.state.records ≡ repo.seen.state.committed) }
{
    match Repo::load(alloc, disk) {
        Ok(repo) => Some(repo),
        Err((disk, _)) => {
            drop(disk);
            None
        }
    }
}

/// The repository of a disk with these bytes, in which all is committed; none where it doesn't load, or without memory.
pub fn opened(alloc: Global, bytes: &[u8]) -> Option<Repo<MemoryDisk>>
    ensures { IfSome result (λ repo. length repo.seen.state.records ≡ repo.seen.state.committed) }
{
    match disk_of(alloc, bytes) {
        Ok(disk) => loaded(alloc, disk),
        Err(_) => None,
    }
}

fn arrive_counted<D: Disk, L: Ledger>(
    repo: &mut Repo<D>,
    name: Name,
    bytes: &[u8],
    private: bool,
    blank: Blank,
) -> Result<Arrival, ArriveFault>
    requires name { blank.name ≡ L.name }
    requires parts { blank.parts ≡ L.parts }
    requires counts { 0 < L.parts }
{
    let mut steps: Steps<L> = Steps::new(blank);
    repo.arrive(name, bytes, private, &mut steps)
}

/// Bytes arrive under a name, with a counter of steps of their own. The errors are those of `Repo::arrive`.
pub fn arrive<D: Disk>(
    repo: &mut Repo<D>,
    name: Name,
    bytes: &[u8],
    private: bool,
) -> Result<Arrival, ArriveFault> {
    arrive_counted::<D, Brand>(repo, name, bytes, private, Blank::new(1))
}

/// Whether bytes arrive under their own name, as a public artifact.
pub fn arrives<D: Disk>(repo: &mut Repo<D>, bytes: &[u8]) -> bool {
    arrive(repo, Name::of(bytes), bytes, false).is_ok()
}
