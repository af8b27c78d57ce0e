//! States laws on two repositories that pull from each other.
ghost use Rattle.laws_pulls.specs.Pulls.{PulledShowTheSame};
ghost use Rattle.laws_pulls.specs.Runs.{RunsEachWay};

use fsl_journal::is_one_file;

/// A pull from another repository that ended well leaves what was held, and each public artifact of that one held or shunned
/// here. Two repositories that pulled from each other hold the same artifacts, and each report of the one is that of the other,
/// but for those that tell of the file. Two runs of `pull-local` with status 0, one each way, leave two files of which the same is
/// true. Nothing is private or shunned in either then, no name has two texts, and no clusters make a circle. This is a law and no
/// code.
pub fn pulled_show_the_same()
    ensures pulls { PulledShowTheSame }
    ensures runs { RunsEachWay }
{
    is_one_file();
}
