//! What ends a step of a disk in memory that stops after so many calls.
ghost use Rattle.std.specs.Prelude.{◌≡◌};
ghost use Rattle.laws_openings.specs.Chain.{IsLeftBy, IsSince};
ghost use Rattle.tests_laws.specs.Crashes.{IsCrashOf, IsKeptOf, state_of};

use fsl_disk::{FuseDisk, MemoryDisk};
use fsl_text::Memory;
use laws_openings::Outage;
use std::alloc::Global;
use std::snapshot::Snapshot;

/// A disk in memory that stops after so many calls.
pub type Fused = FuseDisk<MemoryDisk>;

/// A file with a Config alone: the project of forty digits `1` and the server of forty digits `2`.
const FILE: &[u8] =
    b"fossil-blobs-2\nO\0\0\0\0\0\0\0+C\x11\x11\x11\x11\x11\x11\x11\x11\x11\x11\x11\x11\x11\x11\x11\x11\x11\x11\x11\x11\x22\x22\x22\x22\x22\x22\x22\x22\x22\x22\x22\x22\x22\x22\x22\x22\x22\x22\x22\x22\0\0C";

/// A disk with that file, which stops after so many calls.
pub fn stopping_after(alloc: Global, calls: u64) -> Result<Fused, Memory> {
    let disk = MemoryDisk::new(alloc, FILE.to_vec(alloc)?, Vec::new(alloc));
    Ok(FuseDisk::new(disk, calls))
}

/// The disk as it stands, with each of the images that a crash may leave, which stops after so many calls.
pub fn all_of(disk: Fused, calls: u64) -> Fused
    ensures crash { IsCrashOf (state_of disk) (state_of result) }
    ensures kept { IsKeptOf (state_of disk) (state_of result) }
{
    FuseDisk::new(disk.inner(), calls)
}

/// A disk with the image of this number, all of it stable, which stops after so many calls; where there is no memory for it, the
/// disk as it stands.
fn image_or_all(alloc: Global, disk: Fused, pick: u64, calls: u64) -> Fused
    ensures { IsCrashOf (state_of disk) (state_of result) }
{
    let inner = disk.inner();
    match inner.crash(alloc, pick) {
        Ok(image) => {
            drop(inner);
            FuseDisk::new(image, calls)
        }
        Err(_) => FuseDisk::new(inner, calls),
    }
}

/// What ends a step and leaves each of the images that a crash allows: the disk stays as it stands, as where a process ends alone.
/// Then it stops after so many calls.
#[derive(Drop)]
pub struct KeepsEach {
    pub calls: u64,
}

impl Outage<Fused> for KeepsEach {
    fn strike(&mut self, began: Snapshot<Fused>, disk: Fused) -> Fused
        requires { IsSince (state_of began.value) (state_of disk) }
        ensures { IsLeftBy (state_of began.value) (state_of disk) (state_of result) }
    {
        let _began = began;
        all_of(disk, self.calls)
    }
}

/// What ends a step and leaves one image, which a number tells: 0 that of the last sync, 1 what a read gave last. Then the disk
/// stops after so many calls.
#[derive(Drop)]
pub struct LeavesOne {
    pub alloc: Global,
    pub pick: u64,
    pub calls: u64,
}

impl Outage<Fused> for LeavesOne {
    fn strike(&mut self, began: Snapshot<Fused>, disk: Fused) -> Fused
        requires { IsSince (state_of began.value) (state_of disk) }
        ensures { IsLeftBy (state_of began.value) (state_of disk) (state_of result) }
    {
        let _began = began;
        image_or_all(self.alloc, disk, self.pick, self.calls)
    }
}
