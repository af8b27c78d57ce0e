//! Ends steps by crashes.
ghost use Rattle.std.specs.Prelude.{◌≡◌};
ghost use Rattle.fsl_disk.specs.Disk.{DiskState};
ghost use Rattle.laws_openings.specs.Chain.{IsLeftBy, IsSince};

use fsl_disk::Disk;
use std::snapshot::Snapshot;

/// An agent that may crash a disk. Behind a crash there is a disk that holds what the crash left. Without a crash it is the same
/// disk.
pub trait Outage<D: Disk> {
    /// Ends a step by a crash at some moment since it began, or lets it be.
    fn strike(&mut self, began: Snapshot<D>, disk: D) -> D
        requires { IsSince (D.state began.value) (D.state disk) }
        ensures { IsLeftBy (D.state began.value) (D.state disk) (D.state result) };
}
