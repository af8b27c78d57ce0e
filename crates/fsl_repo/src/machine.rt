//! Makes the repository a machine with one step for each event.
ghost use Rattle.std.specs.Prelude.{◌≡◌};
ghost use Rattle.fsl_disk.specs.Disk.{Keeps};
ghost use Rattle.fsl_repo.specs.Onward.{Step, DiskStep, StepsGoOn};
ghost use Rattle.fsl_repo.specs.Whole.{log_of};

use crate::{Answer, Event, Repo};
use fsl_disk::Disk;
use fsl_text::Steps;
use fsl_turn::Machine;
use std::sync::ledger::Ledger;

impl<D: Disk> Repo<D> {
    /// Does what an event asks, by the call of its own, and answers as that does. The disk stays of its kind; a commit
    /// alone writes to it, and a build alone reads it.
    fn obey<L: Ledger>(&mut self, event: &Event, steps: &mut Steps<L>) -> Answer
        ensures step { Step self.old.seen.state event.now result self.new.seen.state }
        ensures loaded { self.new.seen.loaded ≡ self.old.seen.loaded }
        ensures keeps { Keeps (D.state self.old.disk) (D.state self.new.disk) }
        ensures disk { DiskStep event.now (D.state self.old.disk) (D.state self.new.disk) (log_of self.old) (self.new.disk ≡ self.old.disk) }
    {
        match event {
            Event::Arrive {
                name,
                bytes,
                private,
            } => Answer::Arrive(self.arrive(*name, bytes.bytes(), *private, steps)),
            Event::Receive {
                name,
                bytes,
                private,
                receipt,
            } => Answer::Receive(self.receive(*name, bytes.bytes(), *private, receipt, steps)),
            Event::Announce { name } => Answer::Announce(self.announce(*name)),
            Event::Shun { name } => Answer::Shun(self.shun(*name)),
            Event::Unshun { name } => Answer::Unshun(self.unshun(*name)),
            Event::Cluster => Answer::Cluster(self.cluster(steps)),
            Event::Build { ask } => Answer::Build(self.build(ask)),
            Event::Commit => Answer::Commit(self.commit()),
        }
    }
}

/// A repository makes the step of each event. One is later than another where its records go on from those, and as many
/// artifacts were stored as blobs came.
impl<D: Disk> Machine for Repo<D> {
    type Event = Event;

    type Answer = Answer;

    ghost use Rattle.fsl_repo.specs.Onward.{MayStep, IsLaterOn};
    ghost use Rattle.fsl_repo.specs.Whole.{stored};
    ghost use Rattle.fsl_repo.specs.Laters as laters;

    ghost may_step = { λ a e r b. MayStep (D.state a.disk) (D.state b.disk) a e r b };

    ghost later = { λ a b. IsLaterOn (D.state a.disk) (D.state b.disk) a b };

    ghost stored_count = { λ a. stored a.seen };

    ghost later_self = { λ a. laters.later_self (D.state a.disk) a };

    ghost later_through = { λ a b c. laters.later_through (D.state a.disk) (D.state b.disk) (D.state c.disk) a b c };

    ghost step_later = { λ a e r b. laters.step_later (λ d. D.state d) a e r b };

    ghost never_falls = { λ a b. laters.never_falls (D.state a.disk) (D.state b.disk) a b };

    fn step<L: Ledger>(&mut self, event: &Event, steps: &mut Steps<L>) -> Answer {
        self.is_whole();
        let answer = self.obey(event, steps);
        self.is_whole();
        answer
    }

    fn stored(&self) -> u64 {
        Repo::stored(self)
    }
}

/// The records go on with every event and every answer, and the state after it is later. This is a law and no code.
pub fn steps_go_on()
    ensures { StepsGoOn }
{}
