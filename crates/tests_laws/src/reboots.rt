//! Power failures of a disk in memory that stops after so many calls, and ends of the process that uses it.
ghost use Rattle.std.specs.Prelude.{◌≡◌, IfOk};
ghost use Rattle.fsl_disk.specs.Disk.{IsModelled};
ghost use Rattle.laws_runs.specs.Reboot.{IsRebooted, IsKilled};
ghost use Rattle.tests_laws.specs.Crashes.{IsImageOf, state_of};

use crate::crashes::{Fused, LeavesOne, all_of};
use fsl_disk::FuseDisk;
use fsl_text::Memory;
use laws_runs::Reboot;
use std::alloc::Global;
use std::snapshot::Snapshot;

/// A disk with the image of this number, all of it stable, which stops after so many calls.
fn image_of(alloc: Global, disk: Fused, pick: u64, calls: u64) -> Result<Fused, Memory>
    ensures { IfOk result (λ left. IsImageOf (state_of disk) (state_of left)) }
{
    let inner = disk.inner();
    let image = inner.crash(alloc, pick);
    drop(inner);
    match image {
        Ok(image) => Ok(FuseDisk::new(image, calls)),
        Err(fault) => Err(fault),
    }
}

impl Reboot<Fused> for LeavesOne {
    fn strike(&mut self, began: Snapshot<Fused>, disk: Fused) -> Result<Fused, Memory>
        ensures modelled { IfOk result (λ left. IsModelled (state_of disk) → IsModelled (state_of left)) }
        ensures rebooted { IfOk result (λ left. IsRebooted (state_of began.value) (state_of disk) (state_of left)) }
    {
        let _began = began;
        image_of(self.alloc, disk, self.pick, self.calls)
    }

    fn kill(&mut self, began: Snapshot<Fused>, disk: Fused) -> Result<Fused, Memory>
        ensures modelled { IfOk result (λ left. IsModelled (state_of disk) → IsModelled (state_of left)) }
        ensures killed { IfOk result (λ left. IsKilled (state_of began.value) (state_of disk) (state_of left)) }
    {
        let _began = began;
        Ok(all_of(disk, self.calls))
    }
}
