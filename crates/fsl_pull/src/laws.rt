//! States laws on syncs.
ghost use Rattle.fsl_pull.specs.Laws.{SyncsHaveOneEnd, SyncsHaveSomeEnd, LocalPullsEnd, PullsEndWell, PullsMissWhatIsKept, SyncsMoveOn, LocalPullsLeaveAll, ClonesHoldTheFiles, ClonesCountNoFaults, SyncsCommit, SyncsCommitAll};

/// Two syncs whose replies begin alike need the same number of them, and have the same end. This is a law and no code.
pub fn syncs_have_one_end()
    ensures { SyncsHaveOneEnd }
{}

/// Of as many replies as a sync may have, some first ones are a whole sync. This is a law and no code.
pub fn syncs_have_some_end()
    ensures { SyncsHaveSomeEnd }
{}

/// A pull from another repository always has its end. This is a law and no code.
pub fn local_pulls_end()
    ensures { LocalPullsEnd }
{}

/// A pull that ended well leaves each name that its last reply announced held or shunned. Each other name that is next was asked
/// for and not sent. This is a law and no code.
pub fn pulls_end_well()
    ensures { PullsEndWell }
{}

/// The name that a pull misses was asked for in its last round, and was announced and not sent. This is a law and no code.
pub fn pulls_miss_what_is_kept()
    ensures { PullsMissWhatIsKept }
{}

/// A round of a pull that isn't the last stored or published an artifact, or the next one asks for a new name. Of two rounds of a
/// push that follow each other, neither of them the last, one sent a new file. Each round of a clone asks from a greater place
/// than the one before it. This is a law and no code.
pub fn syncs_move_on()
    ensures { SyncsMoveOn }
{}

/// A pull from another repository that ended well leaves each of its public names that are in no cluster held or shunned, and
/// each of its public artifacts to which an artifact held here refers. This is a law and no code.
pub fn local_pulls_leave_all()
    ensures { LocalPullsLeaveAll }
{}

/// A clone that ended well holds the files that came and no others, the first of each name, as public, under the Config of the
/// first reply's project code. This is a law and no code.
pub fn clones_hold_the_files()
    ensures { ClonesHoldTheFiles }
{}

/// A clone comes to the same with every count of faults of the disk. This is a law and no code.
pub fn clones_count_no_faults()
    ensures { ClonesCountNoFaults }
{}

/// The committed records behind a sync are those before it followed by the records of its commits. Those behind a clone are the
/// records of its commits. This is a law and no code.
pub fn syncs_commit()
    ensures { SyncsCommit }
{}

/// Behind a sync that ended well all records are committed. This is a law and no code.
pub fn syncs_commit_all()
    ensures { SyncsCommitAll }
{}
