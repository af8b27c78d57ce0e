//! States a law on runs over one disk, whoever makes them.
ghost use Rattle.laws_runs.specs.Runs.{RunsSurvive, states_of};

use fsl_disk::Disk;
use fsl_journal::some_file;
use fsl_outside::{Clock, Dial, Sink, Source};

/// Runs follow one another over a disk, and the power or the end of its process cuts each of them off at any moment. Then the
/// disk is as [`run_all`](crate::run_all) says before each of them, and behind all. So what survives depends on no code that
/// makes the runs, or their ends. This is a law and no code.
pub fn runs_survive<S: Source, K: Sink, P: Disk, N: Dial, C: Clock, D: Disk>()
    ensures { RunsSurvive (states_of S.state K.state P.state N.state C.told D.state) }
{
    some_file();
}
