//! Laws on files, for proofs above. These calls do nothing when the program runs.
ghost use Rattle.fsl_journal.specs.Beside.{IsSeenRight, IsFrontWhole, IsBehindNothing, CommitKeeps, IsBesideRight};
ghost use Rattle.fsl_journal.specs.Lives.{HasFileGroups, IsLifeGrown, IsCommitInSteps, IsCutAStep};
ghost use Rattle.fsl_journal.specs.Laws.{FailsOnce, IsOneFile, IsNoFileThere, IsSomeFile};

/// Says that bytes have one list of records at most.
pub fn is_one_file()
    ensures { IsOneFile }
{}

/// Says that bytes fail to be a file at one place at most.
pub fn fails_once()
    ensures { FailsOnce }
{}

/// Says that bytes that fail to be a file have no records.
pub fn is_no_file()
    ensures { IsNoFileThere }
{}

/// Says that bytes have records, or fail to be a file at a place.
pub fn some_file()
    ensures { IsSomeFile }
{}

/// Says that a front that was seen beside a writer has no other records than the file had at that moment.
pub fn seen_is_right()
    ensures { IsSeenRight }
{}

/// Says that the bytes up to the closed gate have all records of a file.
pub fn front_is_whole()
    ensures { IsFrontWhole }
{}

/// Says that the bytes behind the closed gate have no meaning.
pub fn behind_is_nothing()
    ensures { IsBehindNothing }
{}

/// Says that a commit keeps the bytes before the closed gate at each of its moments.
pub fn commit_keeps()
    ensures { CommitKeeps }
{}

/// Says that a reader beside a writer answers what was committed when it began, or later. An opening over the front that
/// `front_of` found answers the records that the file had at that front's moment, which is within the call, and isn't refused.
pub fn beside_is_right()
    ensures { IsBesideRight }
{}

/// Says that a file of records has groups, by which `Grows` speaks of it.
pub fn file_has_groups()
    ensures { HasFileGroups }
{}

/// Says that a file grows whose every next moment is a step of a writer, whatever commits and openings make these steps.
pub fn life_grows()
    ensures { IsLifeGrown }
{}

/// Says that steps of a writer reach whatever a commit may leave at a moment of it.
pub fn commit_in_steps()
    ensures { IsCommitInSteps }
{}

/// Says that one step of a writer reaches whatever an opening may leave at a moment of its cut.
pub fn cut_is_a_step()
    ensures { IsCutAStep }
{}
