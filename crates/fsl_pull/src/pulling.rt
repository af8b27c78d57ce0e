//! Pulls from a server.
ghost use Rattle.std.specs.Prelude.{◌≡◌, ◌≤◌, None, IsSome, OnOk, IfOk};
ghost use Rattle.std.specs.List.Sorted.{IsStrictlySortedBy};
ghost use Rattle.fsl_order.specs.Names.{bytes_cmp};
ghost use Rattle.fsl_disk.specs.Disk.{Keeps};
ghost use Rattle.fsl_pull.specs.Steps.{step_of, step_answer, Rises, NamesRise};
ghost use Rattle.fsl_pull.specs.Replies.{announced_in};
ghost use Rattle.fsl_pull.specs.Pulls.{missing_fault};
ghost use Rattle.fsl_pull.specs.PullTurns.{IsTaken, IsTurned};
ghost use Rattle.fsl_pull.specs.Calls.{IsPulledOver};
ghost use Rattle.fsl_pull.specs.Asking.{IsDialCounted};

use crate::asking::{Unasked, send_and_read};
use crate::committing::commit;
use crate::next::{Step, announced, wanted, what_follows};
use crate::requests::pull_request;
use crate::taking::take_cards;
use crate::{Login, PullFault, Pulled};
use fsl_disk::Disk;
use fsl_name::Name;
use fsl_outside::Dial;
use fsl_repo::Repo;
use fsl_text::{List, MOST_ROUNDS, Memory};
use fsl_wire::WireCard;
use std::alloc::Global;

/// The names of the round that follows, or none at the end, or what is missing there.
fn answer(step: Step) -> Result<Option<List<Name>>, PullFault>
    ensures answer { result ≡ step_answer step }
{
    match step {
        Step::On(names) => Ok(Some(names)),
        Step::End(None) => Ok(None),
        Step::End(Some(name)) => Err(PullFault::Missing { name }),
    }
}

/// What follows a round of a pull whose reply has these cards.
fn told_step<D: Disk>(
    alloc: Global,
    repo: &Repo<D>,
    asked: &[Name],
    cards: &[WireCard],
    moved: bool,
) -> Result<Step, Memory>
    requires { IsStrictlySortedBy bytes_cmp asked.now }
    ensures step { IfOk result (λ step. step ≡ step_of asked.now moved (announced_in cards.now) repo.now.seen) }
    ensures rising { IfOk result Rises }
{
    let told = announced(alloc, cards)?;
    what_follows(alloc, repo, asked, &told, moved)
}

/// Takes the cards of a reply to a request for these names, and commits.
fn take_reply<D: Disk>(
    alloc: Global,
    repo: &mut Repo<D>,
    asked: &[Name],
    cards: &[WireCard],
) -> Result<Option<List<Name>>, PullFault>
    requires runs { repo.old.seen.state.stopped ≡ None }
    requires rising { IsStrictlySortedBy bytes_cmp asked.now }
    ensures step { IsTaken missing_fault asked.now cards.now
        (D.state repo.old.disk) (D.state repo.new.disk) repo.old.seen repo.new.seen (repo.new.disk ≡ repo.old.disk) result }
    ensures runs { OnOk result (repo.new.seen.state.stopped ≡ None) }
    ensures rising { IfOk result NamesRise }
    ensures later { repo.old.seen.state.faults ≤ repo.new.seen.state.faults }
    ensures loaded { repo.new.seen.loaded ≡ repo.old.seen.loaded }
    ensures keeps { Keeps (D.state repo.old.disk) (D.state repo.new.disk) }
{
    repo.is_whole();
    let moved = match take_cards(repo, cards, None) {
        Ok(moved) => moved,
        Err(fault) => return Err(fault),
    };
    repo.is_whole();
    let step = match told_step(alloc, repo, asked, cards, moved) {
        Ok(step) => step,
        Err(_) => return Err(PullFault::Memory),
    };
    match commit(repo) {
        Ok(()) => answer(step),
        Err(_) => Err(PullFault::Disk),
    }
}

/// One round of a pull: asks for these names, takes the files that come, and commits. It answers the names that the next
/// round asks for, or none at the end.
fn pull_round<D: Disk, N: Dial>(
    alloc: Global,
    repo: &mut Repo<D>,
    dial: &mut N,
    login: &Option<Login>,
    asked: &[Name],
) -> Result<Option<List<Name>>, PullFault>
    requires runs { repo.old.seen.state.stopped ≡ None }
    requires rising { IsStrictlySortedBy bytes_cmp asked.now }
    ensures round { IsTurned login.now asked.now (N.state dial.old) (N.state dial.new)
        (D.state repo.old.disk) (D.state repo.new.disk) repo.old.seen repo.new.seen (repo.new.disk ≡ repo.old.disk) result }
    ensures runs { OnOk result (repo.new.seen.state.stopped ≡ None) }
    ensures rising { IfOk result NamesRise }
    ensures later { repo.old.seen.state.faults ≤ repo.new.seen.state.faults }
    ensures loaded { repo.new.seen.loaded ≡ repo.old.seen.loaded }
    ensures keeps { Keeps (D.state repo.old.disk) (D.state repo.new.disk) }
    ensures dialled { (N.state dial.old).faults ≤ (N.state dial.new).faults }
    ensures counts { IsDialCounted (N.state dial.old) (N.state dial.new) result }
{
    let request = match pull_request(alloc, login, repo.config(), asked) {
        Ok(request) => request,
        Err(_) => return Err(PullFault::Memory),
    };
    match send_and_read(alloc, dial, request.bytes()) {
        Ok(Ok(reply)) => take_reply(alloc, repo, asked, reply.cards()),
        Ok(Err(why)) => Err(PullFault::Peer(why)),
        Err(Unasked::Link) => Err(PullFault::Link),
        Err(Unasked::Memory) => Err(PullFault::Memory),
    }
}

/// Pulls from the repository at the other end of the dial. The first round asks for the wanted names, and each later one for the
/// wanted names and those that the reply before it announced, without those that are held or shunned. The files of a reply arrive
/// as public, and one commit follows. The pull is at its end with the first round in which no artifact was stored or published
/// and after which each name that is next was asked for in it.
///
/// Errors: `Stopped`, before any round, where a commit has failed; `Link` where a call of the dial failed, and `Disk` where
/// one of the disk did; `Peer`, `TooLarge` and `Full` by the first thing that is wrong with a reply; `Missing` at the end
/// with the least name that is next and that the last reply announced; `Rounds` after 100,000 rounds; `Memory`. The rounds
/// that were committed stay, and so does in memory what the last one appended.
/// FORMATS: Users, logins and replies
pub fn pull<D: Disk, N: Dial>(
    alloc: Global,
    repo: &mut Repo<D>,
    dial: &mut N,
    login: &Option<Login>,
) -> Result<Pulled, PullFault>
    ensures pulls { IsPulledOver login.now (N.state, dial.old, dial.new) (D.state, repo.old, repo.new) result }
    ensures loaded { repo.new.seen.loaded ≡ repo.old.seen.loaded }
    ensures keeps { Keeps (D.state repo.old.disk) (D.state repo.new.disk) }
    ensures counts { IsDialCounted (N.state dial.old) (N.state dial.new) result }
    // A stopped repository calls no device.
    ensures idle { IsSome repo.old.seen.state.stopped → repo.new.disk ≡ repo.old.disk }
{
    match repo.stopped() {
        Some(faults) => return Err(PullFault::Stopped { faults }),
        None => {}
    }
    repo.is_whole();
    let before = repo.stored();
    let mut names = match wanted(repo) {
        Ok(names) => names,
        Err(_) => return Err(PullFault::Memory),
    };
    for round in 0..MOST_ROUNDS {
        match pull_round(alloc, repo, dial, login, names.items()) {
            Ok(Some(next)) => names = next,
            Ok(None) => {
                return Ok(Pulled {
                    rounds: round + 1,
                    stored: repo.stored() - before,
                });
            }
            Err(fault) => return Err(fault),
        }
    }
    Err(PullFault::Rounds)
}
