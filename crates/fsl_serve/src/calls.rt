//! Makes events one by one, and tells whether a session goes on after each.
ghost use Rattle.std.specs.Prelude.{◌≡◌, [], ◌∷◌};
ghost use Rattle.std.specs.Result.{result_err};
ghost use Rattle.fsl_serve.specs.Calls.{Gains, May, halt_of};

use crate::said::Halt;
use crate::shared::Serving;
use crate::turning::Calls;
use fsl_disk::Disk;
use fsl_repo::{Answer, ArriveFault, Event, Repo};

/// One event, under the lock for that time alone.
pub(crate) fn call<T: Calls<Repo<D>>, D: Disk>(
    serving: &Serving<T>,
    pass: &mut T::Pass,
    event: &Event,
) -> Answer
    ensures grown { T.grows pass.old pass.new }
    ensures may { May D.state event.now result }
    ensures made { Gains D.state (T.calls pass.old) (T.calls pass.new) (λ made. made ≡ (event.now, result) ∷ []) }
{
    serving.turns.call(pass, event)
}

/// Whether a session goes on after this answer, and if not, why.
pub(crate) fn heed(answer: &Answer) -> Result<(), Halt>
    ensures { result_err result ≡ halt_of answer.now }
{
    match answer {
        Answer::Receive(Err(ArriveFault::Stopped { .. }))
        | Answer::Cluster(Err(ArriveFault::Stopped { .. })) => Err(Halt::Stopped),
        Answer::Receive(Err(ArriveFault::Memory))
        | Answer::Cluster(Err(ArriveFault::Memory))
        | Answer::Announce(Err(_)) => Err(Halt::Memory),
        _ => Ok(()),
    }
}
