//! Pulls from another repository.
ghost use Rattle.std.specs.Prelude.{◌≡◌, ◌≤◌, false, None, IsSome, OnOk, IfOk, IfErr};
ghost use Rattle.std.specs.List.Sorted.{IsStrictlySortedBy};
ghost use Rattle.std.specs.Str.{bytes_eq};
ghost use Rattle.fsl_order.specs.Names.{bytes_cmp};
ghost use Rattle.fsl_disk.specs.Disk.{Keeps};
ghost use Rattle.fsl_repo.specs.Machine.{now, unclustered_names};
ghost use Rattle.fsl_pull.specs.Locals.{project_code};
ghost use Rattle.fsl_pull.specs.Steps.{local_answer, NamesRise};
ghost use Rattle.fsl_pull.specs.Reading.{IsOnlyRead};
ghost use Rattle.fsl_pull.specs.Calls.{IsLocalFault};
ghost use Rattle.fsl_pull.specs.CloneCalls.{UnlessDisk};
ghost use Rattle.fsl_pull.specs.LocalTurns.{TakesGiven, TakesAsked, IsLocalTurned, other_code, IsPulledFrom};

use crate::committing::commit;
use crate::next::{Step, wanted, what_follows};
use crate::reading::read_public;
use crate::taking::{either, file_fault, moves, take_file};
use crate::{PullFault, Pulled};
use fsl_disk::Disk;
use fsl_name::Name;
use fsl_repo::Repo;
use fsl_text::{List, Memory};
use std::alloc::Global;

/// Takes the artifact of a name as it is read, where the peer holds it as public.
fn take_given<D: Disk, P: Disk>(
    repo: &mut Repo<D>,
    peer: &mut Repo<P>,
    name: Name,
) -> Result<bool, PullFault>
    ensures taken { TakesGiven peer.old.seen.state name repo.old.seen result repo.new.seen peer.new.seen.state }
    ensures faults { IfErr result IsLocalFault }
    ensures disk { repo.new.disk ≡ repo.old.disk }
    ensures peer { IsOnlyRead P.state peer.old peer.new }
{
    let bytes = match read_public(peer, name) {
        Ok(Some(bytes)) => bytes,
        Ok(None) => return Ok(false),
        Err(fault) => return Err(fault),
    };
    match take_file(repo, name, bytes.bytes()) {
        Ok(arrival) => Ok(moves(arrival)),
        Err(fault) => Err(file_fault(name, fault)),
    }
}

/// Takes the artifacts of those of some names that the peer holds as public, in order, each as it is read, up to the first
/// that is wrong or isn't read, and answers whether one was stored or published.
fn take_asked<D: Disk, P: Disk>(
    repo: &mut Repo<D>,
    peer: &mut Repo<P>,
    asked: &[Name],
) -> Result<bool, PullFault>
    ensures taken { TakesAsked peer.old.seen.state asked.now repo.old.seen result repo.new.seen peer.new.seen.state }
    ensures faults { IfErr result IsLocalFault }
    ensures disk { repo.new.disk ≡ repo.old.disk }
    ensures peer { IsOnlyRead P.state peer.old peer.new }
{
    let mut moved = false;
    for name in asked {
        match take_given(repo, peer, *name) {
            Ok(more) => moved = either(moved, more),
            Err(fault) => return Err(fault),
        }
    }
    Ok(moved)
}

/// The names of the round that follows, or none at the end.
fn answer(step: Step) -> Option<List<Name>>
    ensures { result ≡ local_answer step }
{
    match step {
        Step::On(names) => Some(names),
        Step::End(_) => None,
    }
}

/// One round: takes what the peer gives of the names that are asked for, and commits. It answers the names that the next
/// round asks for, or none at the end. `told` are the unclustered public names of the peer.
fn local_round<D: Disk, P: Disk>(
    alloc: Global,
    repo: &mut Repo<D>,
    peer: &mut Repo<P>,
    told: &[Name],
    asked: &[Name],
) -> Result<Option<List<Name>>, PullFault>
    requires runs { repo.old.seen.state.stopped ≡ None }
    requires rising { IsStrictlySortedBy bytes_cmp asked.now }
    ensures step { IsLocalTurned peer.old.seen.state told.now asked.now (D.state repo.old.disk) (D.state repo.new.disk)
        repo.old.seen repo.new.seen (repo.new.disk ≡ repo.old.disk) result peer.new.seen.state }
    ensures faults { IfErr result IsLocalFault }
    ensures runs { OnOk result (repo.new.seen.state.stopped ≡ None) }
    ensures rising { IfOk result NamesRise }
    ensures later { repo.old.seen.state.faults ≤ repo.new.seen.state.faults }
    ensures loaded { repo.new.seen.loaded ≡ repo.old.seen.loaded }
    ensures keeps { Keeps (D.state repo.old.disk) (D.state repo.new.disk) }
    ensures peer { IsOnlyRead P.state peer.old peer.new }
{
    repo.is_whole();
    let moved = match take_asked(repo, peer, asked) {
        Ok(moved) => moved,
        Err(fault) => return Err(fault),
    };
    repo.is_whole();
    let step = match what_follows(alloc, repo, asked, told, moved) {
        Ok(step) => step,
        Err(_) => return Err(PullFault::Memory),
    };
    match commit(repo) {
        Ok(()) => Ok(answer(step)),
        Err(_) => Err(PullFault::Disk),
    }
}

/// The public names that stand in no cluster, ascending.
pub(crate) fn unclustered<D: Disk>(alloc: Global, repo: &Repo<D>) -> Result<List<Name>, Memory>
    ensures { IfOk result (λ names. names ≡ unclustered_names repo.now.seen.items) }
{
    repo.is_whole();
    match repo.tables().cluster().unclustered(alloc) {
        Ok(names) => Ok(names),
        Err(memory) => Err(memory),
    }
}

/// The project code of a peer, where it is another one.
fn other_project<D: Disk, P: Disk>(repo: &Repo<D>, peer: &Repo<P>) -> Option<Name>
    ensures { result ≡ other_code (project_code (now repo.now.seen.state)) (project_code (now peer.now.seen.state)) }
{
    let found = peer.config().project;
    if repo.config().project == found {
        None
    } else {
        Some(found)
    }
}

/// Pulls from another repository of the same project. It only reads that one. The first round asks for the wanted names, and each
/// later one for the wanted names and the public names of the peer that are in no cluster, without those that are held or
/// shunned. The peer gives each asked artifact that it holds as public, as it is read from its disk. Over a disk that tells its
/// contents and meets the disk model these are the held bytes. Over every other disk they are bytes of the same name and size.
/// Each arrives as public, and one commit follows. The pull is at its end with the first round in which no artifact was stored or
/// published and after which each name that is next was asked for in it.
///
/// Errors: `Project` with the peer's project code, where it has another one; `Stopped` where a commit has failed; `Full`
/// by the first artifact with which a limit would be passed; `Disk` where a call of one of the two disks failed; `Damaged`
/// with the name of an artifact of the peer and that of the bytes that were read for it, where that is another one;
/// `Memory`. The rounds that were committed stay, and so does in memory what the last one appended.
/// FORMATS: Users, logins and replies
pub fn pull_local<D: Disk, P: Disk>(
    alloc: Global,
    repo: &mut Repo<D>,
    peer: &mut Repo<P>,
) -> Result<Pulled, PullFault>
    ensures pulls { IsPulledFrom (D.state repo.old.disk) (D.state repo.new.disk)
        repo.old.seen repo.new.seen peer.old.seen peer.new.seen result }
    ensures faults { IfErr result IsLocalFault }
    ensures loaded { repo.new.seen.loaded ≡ repo.old.seen.loaded }
    ensures keeps { Keeps (D.state repo.old.disk) (D.state repo.new.disk) }
    // A stopped repository calls no device, and none is called for a peer of another project.
    ensures idle { IsSome repo.old.seen.state.stopped → repo.new.disk ≡ repo.old.disk }
    ensures idle_for_another { bytes_eq (project_code (now repo.old.seen.state)) (project_code (now peer.old.seen.state))
        ≡ false → repo.new.disk ≡ repo.old.disk }
    // The peer is only read, and none of its calls fails but with `Disk`.
    ensures peer { IsOnlyRead P.state peer.old peer.new }
    ensures peer_count { UnlessDisk (peer.new.seen.state ≡ peer.old.seen.state) result }
    // Before any round it is as it was.
    ensures peer_idle { IsSome repo.old.seen.state.stopped → peer.new ≡ peer.old }
    ensures peer_idle_for_another { bytes_eq (project_code (now repo.old.seen.state)) (project_code (now peer.old.seen.state))
        ≡ false → peer.new ≡ peer.old }
{
    match other_project(repo, peer) {
        Some(found) => return Err(PullFault::Project { found }),
        None => {}
    }
    match repo.stopped() {
        Some(faults) => return Err(PullFault::Stopped { faults }),
        None => {}
    }
    repo.is_whole();
    peer.is_whole();
    let before = repo.stored();
    let told = match unclustered(alloc, peer) {
        Ok(told) => told,
        Err(_) => return Err(PullFault::Memory),
    };
    let mut names = match wanted(repo) {
        Ok(names) => names,
        Err(_) => return Err(PullFault::Memory),
    };
    let mut round = 0u64;
    loop {
        // Each round but the last brings an artifact or asks for a new name, so there are never so many.
        let number = match round.checked_add(1) {
            Some(number) => number,
            None => return Err(PullFault::Memory),
        };
        match local_round(alloc, repo, peer, told.items(), names.items()) {
            Ok(Some(next)) => names = next,
            Ok(None) => {
                return Ok(Pulled {
                    rounds: number,
                    stored: repo.stored() - before,
                });
            }
            Err(fault) => return Err(fault),
        }
        round = number;
    }
}
