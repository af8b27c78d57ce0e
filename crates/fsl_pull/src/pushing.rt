//! Pushes to a server.
ghost use Rattle.std.specs.Prelude.{◌≡◌, ◌≤◌, ◌++◌, None, IsSome, OnOk, IfOk};
ghost use Rattle.fsl_disk.specs.Disk.{Keeps};
ghost use Rattle.fsl_pull.specs.PushTurns.{quiet_by, push_step, push_answer, IsPushTaken, IsPushTurned};
ghost use Rattle.fsl_pull.specs.Calls.{IsPushedOver};
ghost use Rattle.fsl_pull.specs.Asking.{IsDialCounted};

use crate::asking::{Unasked, send_and_read};
use crate::choosing::{asked, due, public_ordered};
use crate::committing::commit;
use crate::local::unclustered;
use crate::requests::push_request;
use crate::sent::SentSoFar;
use crate::taking::take_cards;
use crate::{Login, PeerFault, PullFault, Pulled};
use fsl_disk::Disk;
use fsl_name::Name;
use fsl_outside::Dial;
use fsl_repo::Repo;
use fsl_text::{List, MOST_ROUNDS, Memory};
use fsl_wire::WireCard;
use std::alloc::Global;

/// What follows a round of a push.
#[derive(Drop)]
pub(crate) enum PushStep {
    /// A round follows that sends the files of these names.
    On(List<Name>),
    /// The push is at its end.
    End,
    /// The push is at its end, since a file that was sent is asked for again.
    Again(Name),
}

/// What follows a round without files, where these names are asked for, and where these public ones are among them.
fn quiet_step(sent: &SentSoFar, here: &[Name], next: Vec<Name>) -> PushStep
    ensures { result ≡ quiet_by sent.now.order here.now next.items }
{
    match here.first() {
        None => PushStep::End,
        Some(least) => {
            if sent.has_all(here) {
                PushStep::Again(*least)
            } else {
                PushStep::On(List::from_vec(next))
            }
        }
    }
}

/// What follows a round that sent the files of these names and whose reply has these cards.
fn told_step<D: Disk>(
    alloc: Global,
    repo: &Repo<D>,
    sent: &SentSoFar,
    due: &[Name],
    cards: &[WireCard],
) -> Result<PushStep, Memory>
    ensures { IfOk result (λ step. step ≡ push_step sent.now due.now repo.now.seen cards.now) }
{
    let next = asked(alloc, cards)?;
    if !due.is_empty() {
        return Ok(PushStep::On(List::from_vec(next)));
    }
    let here = public_ordered(alloc, repo, &next)?;
    Ok(quiet_step(sent, &here, next))
}

/// The same, and these names are noted as sent.
fn noted_step<D: Disk>(
    alloc: Global,
    repo: &Repo<D>,
    sent: &mut SentSoFar,
    due: &[Name],
    cards: &[WireCard],
) -> Result<PushStep, Memory>
    ensures step { IfOk result (λ step. step ≡ push_step sent.old due.now repo.now.seen cards.now) }
    ensures sent { OnOk result (sent.new.order ≡ sent.old.order ++ due.now) }
{
    let step = told_step(alloc, repo, sent, due, cards)?;
    sent.note_all(due)?;
    Ok(step)
}

/// The names of the round that follows, or none at the end, or what is asked for again there.
fn answer(step: PushStep) -> Result<Option<List<Name>>, PullFault>
    ensures answer { result ≡ push_answer step }
{
    match step {
        PushStep::On(names) => Ok(Some(names)),
        PushStep::End => Ok(None),
        PushStep::Again(name) => Err(PullFault::Peer(PeerFault::Again { name })),
    }
}

/// Takes the cards of a reply to a request that sent the files of these names, and commits.
fn take_reply<D: Disk>(
    alloc: Global,
    repo: &mut Repo<D>,
    sent: &mut SentSoFar,
    due: &[Name],
    cards: &[WireCard],
) -> Result<Option<List<Name>>, PullFault>
    requires runs { repo.old.seen.state.stopped ≡ None }
    ensures step { IsPushTaken due.now cards.now (D.state repo.old.disk) (D.state repo.new.disk)
        repo.old.seen repo.new.seen sent.old sent.new (repo.new.disk ≡ repo.old.disk) result }
    ensures runs { OnOk result (repo.new.seen.state.stopped ≡ None) }
    ensures later { repo.old.seen.state.faults ≤ repo.new.seen.state.faults }
    ensures loaded { repo.new.seen.loaded ≡ repo.old.seen.loaded }
    ensures keeps { Keeps (D.state repo.old.disk) (D.state repo.new.disk) }
{
    repo.is_whole();
    match take_cards(repo, cards, None) {
        Ok(_) => {}
        Err(fault) => return Err(fault),
    }
    let step = match noted_step(alloc, repo, sent, due, cards) {
        Ok(step) => step,
        Err(_) => return Err(PullFault::Memory),
    };
    match commit(repo) {
        Ok(()) => answer(step),
        Err(_) => Err(PullFault::Disk),
    }
}

/// One round of a push: announces the public names that stand in no cluster, sends the files that the last reply asked
/// for as they are read, takes the files that come, and commits. It answers the names that the reply asks for, or none at the end.
fn push_round<D: Disk, N: Dial>(
    alloc: Global,
    repo: &mut Repo<D>,
    dial: &mut N,
    login: &Option<Login>,
    sent: &mut SentSoFar,
    gimmes: &[Name],
) -> Result<Option<List<Name>>, PullFault>
    requires runs { repo.old.seen.state.stopped ≡ None }
    ensures round { IsPushTurned login.now gimmes.now (N.state dial.old) (N.state dial.new) (D.state repo.old.disk) (D.state repo.new.disk)
        repo.old.seen repo.new.seen sent.old sent.new result }
    ensures runs { OnOk result (repo.new.seen.state.stopped ≡ None) }
    ensures later { repo.old.seen.state.faults ≤ repo.new.seen.state.faults }
    ensures loaded { repo.new.seen.loaded ≡ repo.old.seen.loaded }
    ensures keeps { Keeps (D.state repo.old.disk) (D.state repo.new.disk) }
    ensures dialled { (N.state dial.old).faults ≤ (N.state dial.new).faults }
    ensures counts { IsDialCounted (N.state dial.old) (N.state dial.new) result }
{
    repo.is_whole();
    let names = match unclustered(alloc, repo) {
        Ok(names) => names,
        Err(_) => return Err(PullFault::Memory),
    };
    let due = match due(alloc, repo, sent, gimmes) {
        Ok(due) => due,
        Err(_) => return Err(PullFault::Memory),
    };
    let request = match push_request(alloc, login, repo, names.items(), &due) {
        Ok(request) => request,
        Err(fault) => return Err(fault),
    };
    match send_and_read(alloc, dial, request.bytes()) {
        Ok(Ok(reply)) => take_reply(alloc, repo, sent, &due, reply.cards()),
        Ok(Err(why)) => Err(PullFault::Peer(why)),
        Err(Unasked::Link) => Err(PullFault::Link),
        Err(Unasked::Memory) => Err(PullFault::Memory),
    }
}

/// Pushes to the repository at the other end of the dial. Each round announces the public names that are in no cluster, and sends
/// the public artifacts that the reply before it asked for and that weren't sent, as many as a reply takes too. The files of a
/// reply arrive as public, and one commit follows. The push is at its end with the first round without files after which no
/// public artifact is asked for. `stored` counts the files sent.
///
/// The files that are sent are read from the disk. Over a disk that tells its contents and meets the disk model they are the held
/// ones. Over every other disk they have the same names and sizes.
///
/// Errors: `Stopped`, before any round, where a commit has failed; `Link` where a call of the dial failed, and `Disk` where
/// one of the disk did; `Damaged`, before the round that was to send it, with the name of a file and that of the bytes that
/// were read for it, where that is another one; `Peer`, `TooLarge` and `Full` by the first thing that is wrong with a reply, and `Peer` with the
/// least name that is asked for again, where behind a round without files each public artifact that is asked for was sent;
/// `Rounds` after 100,000 rounds; `Memory`. The rounds that were committed stay, and so does in memory what the last one
/// appended.
/// FORMATS: Users, logins and replies
pub fn push<D: Disk, N: Dial>(
    alloc: Global,
    repo: &mut Repo<D>,
    dial: &mut N,
    login: &Option<Login>,
) -> Result<Pulled, PullFault>
    ensures pushes { IsPushedOver login.now (N.state, dial.old, dial.new) (D.state, repo.old, repo.new) result }
    ensures loaded { repo.new.seen.loaded ≡ repo.old.seen.loaded }
    ensures keeps { Keeps (D.state repo.old.disk) (D.state repo.new.disk) }
    ensures counts { IsDialCounted (N.state dial.old) (N.state dial.new) result }
    // A stopped repository calls no device.
    ensures idle { IsSome repo.old.seen.state.stopped → repo.new.disk ≡ repo.old.disk }
{
    match repo.stopped() {
        Some(faults) => return Err(PullFault::Stopped { faults }),
        None => {}
    }
    repo.is_whole();
    let mut sent = SentSoFar::new(alloc);
    let mut gimmes = List::new(alloc);
    for round in 0..MOST_ROUNDS {
        match push_round(alloc, repo, dial, login, &mut sent, gimmes.items()) {
            Ok(Some(next)) => gimmes = next,
            Ok(None) => {
                return Ok(Pulled {
                    rounds: round + 1,
                    stored: sent.count(),
                });
            }
            Err(fault) => return Err(fault),
        }
    }
    Err(PullFault::Rounds)
}
