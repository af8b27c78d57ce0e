//! States laws on every repository, whatever it holds.
ghost use Rattle.fsl_repo.specs.Keeps.{BuildsKeep};
ghost use Rattle.fsl_repo.specs.Machine.{AreOneList, HasItems, HasArrival, HasOneArrival, HasClustering, HasOneClustering, HasUnshunning, HasOneUnshunning};
ghost use Rattle.fsl_repo.specs.Onward.{HasStep};
ghost use Rattle.fsl_repo.specs.Replies.{HasBuilt, HasOneBuilt};

/// A reply names a private artifact only to one who may see it and asks for it, and a shunned one to nobody. This is a law and no
/// code.
pub fn builds_keep()
    ensures { BuildsKeep }
{}

/// Held artifacts are some list of items. This is a law and no code.
pub fn held_are_items()
    ensures { HasItems }
{}

/// Held artifacts are one list of items at most. This is a law and no code.
pub fn held_are_one_list()
    ensures { AreOneList }
{}

/// Every arrival has an answer, at every state. This is a law and no code.
pub fn arrival_has_an_answer()
    ensures { HasArrival }
{}

/// An arrival has one answer at most, so the state decides it unless memory runs out. This is a law and no code.
pub fn arrival_has_one_answer()
    ensures { HasOneArrival }
{}

/// A call for a cluster has an answer, at every state, with the state that is due then. This is a law and no code.
pub fn clustering_has_an_answer()
    ensures { HasClustering }
{}

/// A call for a cluster has one answer at most, and one state that is due. This is a law and no code.
pub fn clustering_has_one_answer()
    ensures { HasOneClustering }
{}

/// A call that takes a name off the list of the shunned ones has an answer, at every state. This is a law and no code.
pub fn unshunning_has_an_answer()
    ensures { HasUnshunning }
{}

/// A call that takes a name off the list of the shunned ones has one answer at most. This is a law and no code.
pub fn unshunning_has_one_answer()
    ensures { HasOneUnshunning }
{}

/// Every call for a reply has an answer, at every state. This is a law and no code.
pub fn build_has_an_answer()
    ensures { HasBuilt }
{}

/// Over a disk that tells its contents and meets the disk model there is one reply at most. So the state decides the reply,
/// unless the disk has a fault or memory runs out. This is a law and no code.
pub fn build_has_one_answer()
    ensures { HasOneBuilt }
{}

/// Each event has an answer other than that memory ran out, and a state that it leaves, at every state. This is a law and no
/// code.
pub fn events_have_answers()
    ensures { HasStep }
{}
