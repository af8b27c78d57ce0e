//! Ends runs by a power failure, or by the end of a process.
ghost use Rattle.std.specs.Prelude.{◌≡◌, ◌≤◌, IfOk};
ghost use Rattle.fsl_disk.specs.Disk.{DiskState, IsModelled};
ghost use Rattle.laws_runs.specs.Reboot.{IsRebooted, IsKilled};

use fsl_disk::Disk;
use fsl_text::Memory;
use std::snapshot::Snapshot;

/// An agent that may cut the power of a disk and start it again, or kill the process that uses it.
pub trait Reboot<D: Disk> {
    /// Returns the disk behind a power failure at some moment since the run began. It holds one of the contents that a crash then
    /// might have left, and a crash of it leaves this alone. `Memory` is the only error.
    fn strike(&mut self, began: Snapshot<D>, disk: D) -> Result<D, Memory>
        ensures modelled { IfOk result (λ left. IsModelled (D.state disk) → IsModelled (D.state left)) }
        ensures rebooted { IfOk result (λ left. IsRebooted (D.state began.value) (D.state disk) (D.state left)) };

    /// Returns the disk behind the end of its process at some moment since the run began, while the system goes on. It reads as
    /// one of the contents that a crash then might have left, and a crash of it leaves one of these. `Memory` is the only error.
    fn kill(&mut self, began: Snapshot<D>, disk: D) -> Result<D, Memory>
        ensures modelled { IfOk result (λ left. IsModelled (D.state disk) → IsModelled (D.state left)) }
        ensures killed { IfOk result (λ left. IsKilled (D.state began.value) (D.state disk) (D.state left)) };
}
