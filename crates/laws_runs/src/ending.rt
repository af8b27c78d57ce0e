//! The ends that a run may have.
ghost use Rattle.std.specs.Prelude.{◌≡◌, IfOk};
ghost use Rattle.fsl_disk.specs.Disk.{DiskState, IsModelled};
ghost use Rattle.fossil.specs.Run.{is_done as has_done};
ghost use Rattle.laws_runs.specs.Reboot.{IsRebooted};
ghost use Rattle.laws_runs.specs.Runs.{IsEndedBy};

use crate::reboot::Reboot;
use crate::session::End;
use fsl_disk::Disk;
use fsl_text::Memory;
use std::snapshot::Snapshot;

/// Whether a run with this status has done its command.
fn is_done(status: u8) -> bool
    ensures { result ≡ has_done status }
{
    status == 0 || status == 6
}

/// The power fails behind a run.
fn strike_behind<D: Disk, R: Reboot<D>>(disk: D, reboot: &mut R) -> Result<D, Memory>
    ensures modelled { IfOk result (λ left. IsModelled (D.state disk) → IsModelled (D.state left)) }
    ensures rebooted { IfOk result (λ left. IsRebooted (D.state disk) (D.state disk) (D.state left)) }
{
    let ended = Snapshot::of(&disk);
    reboot.strike(ended, disk)
}

/// The end of a run that had this status. `Memory` is the only error.
pub(crate) fn end_run<D: Disk, R: Reboot<D>>(
    end: End,
    status: u8,
    began: Snapshot<D>,
    disk: D,
    reboot: &mut R,
) -> Result<D, Memory>
    ensures modelled { IfOk result (λ left. IsModelled (D.state disk) → IsModelled (D.state left)) }
    ensures ended { IfOk result (λ left. IsEndedBy (λ d. D.state d) end status began.value disk left) }
{
    match end {
        End::Cut => reboot.strike(began, disk),
        End::Killed => reboot.kill(began, disk),
        End::Heard => strike_behind(disk, reboot),
        End::Spared => {
            if is_done(status) {
                Ok(disk)
            } else {
                strike_behind(disk, reboot)
            }
        }
    }
}
