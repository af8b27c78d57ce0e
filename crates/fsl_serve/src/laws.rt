//! States laws on all sessions.
ghost use Rattle.fsl_serve.specs.Acknowledged.{AnsweredStays, CommitsWhatItAnswers};
ghost use Rattle.fsl_serve.specs.Damage.{NoneInSessions, NoneSince};
ghost use Rattle.fsl_serve.specs.Midst.{StandsInTheMidst};

use fsl_disk::Disk;

/// Over a disk that tells its contents and meets the disk model no session finds a content damaged. Where every disk of the type
/// is such a one, this holds of each session by itself, and else of all that one history leads through. This is a law and no
/// code.
pub fn nothing_is_damaged<D: Disk>()
    ensures sessions { NoneInSessions D.state }
    ensures history { NoneSince D.state }
{}

/// From each state of a history on, the file that a crash leaves at any moment stands for a front of the records that the history
/// comes to, with all that were committed in that state. This is a law and no code.
pub fn nothing_is_lost<D: Disk>()
    ensures { StandsInTheMidst D.state }
{}

/// An artifact that arrived in a session, other than as a shunned one, is in every file that a crash leaves from the commit on
/// that ends the session's calls, whatever the other crews do. Where a session with such an arrival replies with status 200, its
/// calls end with a commit that was answered Ok. A refusal has this status too, and makes no call. This is a law and no code.
pub fn answered_stays<D: Disk>()
    ensures replies { CommitsWhatItAnswers }
    ensures history { AnsweredStays D.state }
{}
