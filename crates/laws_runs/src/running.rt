//! Makes runs over one disk, one after the other.
ghost use Rattle.std.specs.Prelude.{◌≡◌, IfOk};
ghost use Rattle.fsl_disk.specs.Disk.{DiskState, IsModelled};
ghost use Rattle.laws_runs.specs.Runs.{IsRun, IsRunOf, AreRuns, AllSurvive, ran_of, states_of};

use crate::ending::end_run;
use crate::reboot::Reboot;
use crate::session::{Past, Session};
use fossil::{Ran, run};
use fsl_disk::Disk;
use fsl_journal::some_file;
use fsl_outside::{Clock, Dial, Sink, Source};
use fsl_text::Memory;
use std::alloc::Global;
use std::snapshot::Snapshot;

/// What a run leaves: the disk, and what is known of the run.
struct Left<S, K, P, N, C, D> {
    disk: D,
    past: Past<S, K, P, N, C, D>,
}

/// Makes one run.
fn run_session<S: Source, K: Sink, P: Disk, N: Dial, C: Clock, D: Disk>(
    alloc: Global,
    disk: D,
    session: Session<S, K, P, N, C>,
) -> Left<S, K, P, N, C, D>
    ensures handed { result.past.handed.value ≡ session }
    ensures began { result.past.began.value ≡ disk }
    ensures ended { result.past.ended.value ≡ result.disk }
    ensures run { IsRun (states_of S.state K.state P.state N.state C.told D.state) session result.past.session disk (ran_of result.past) }
{
    let began = Snapshot::of(&disk);
    let handed = Snapshot::of(&session);
    let Session {
        words,
        end,
        mut input,
        mut out,
        peer,
        mut dial,
        mut clock,
    } = session;
    let Ran { status, repo, peer } = run(
        alloc, &words, &mut input, &mut out, disk, peer, &mut dial, &mut clock,
    );
    let ended = Snapshot::of(&repo);
    let session = Session {
        words,
        end,
        input,
        out,
        peer,
        dial,
        clock,
    };
    Left {
        disk: repo,
        past: Past {
            handed,
            began,
            ended,
            status,
            session,
        },
    }
}

/// Makes one run, and ends it. `Memory` is the only error.
fn run_once<
    S: Source + Drop,
    K: Sink + Drop,
    P: Disk + Drop,
    N: Dial + Drop,
    C: Clock + Drop,
    D: Disk + Drop,
    R: Reboot<D>,
>(
    alloc: Global,
    disk: D,
    session: Session<S, K, P, N, C>,
    reboot: &mut R,
) -> Result<Left<S, K, P, N, C, D>, Memory>
    ensures { IfOk result (λ left. IsRunOf (states_of S.state K.state P.state N.state C.told D.state) disk session left.past left.disk) }
{
    let began = Snapshot::of(&disk);
    let end = session.end;
    let Left { disk, past } = run_session(alloc, disk, session);
    match end_run(end, past.status, began, disk, reboot) {
        Ok(disk) => Ok(Left { disk, past }),
        Err(fault) => {
            drop(past);
            Err(fault)
        }
    }
}

/// The disk behind some runs, and a record of each run.
#[derive(Drop)]
pub struct Lives<S, K, P, N, C, D> {
    pub disk: D,
    pub pasts: Vec<Past<S, K, P, N, C, D>>,
}

/// Makes runs of the program over one disk, one after the other. Each run finds the disk as the end of the one before it left it.
/// `Memory` is the only error. It is that of the list of runs, or of a power failure. A run that runs out of memory itself has
/// status 9.
///
/// Where each command meets no peer or is a `pull`, a `push` or a `pull-local`, and each image of the disk stood for old records
/// before, or was one content that is no repository (as an empty file, where the first command begins one), each image stands
/// before each run, and behind them all, for the old records followed by, for each run before, in order, none, some or all of the
/// commits of its outcome, whole and in order. These are all commits where the run was done and the power didn't fail before its
/// status was heard. Behind a process that was killed the disk reads so. Each image stands so again behind the next run, where
/// this makes it stable.
pub fn run_all<
    S: Source + Drop,
    K: Sink + Drop,
    P: Disk + Drop,
    N: Dial + Drop,
    C: Clock + Drop,
    D: Disk + Drop,
    R: Reboot<D>,
>(
    alloc: Global,
    disk: D,
    sessions: Vec<Session<S, K, P, N, C>>,
    reboot: &mut R,
) -> Result<Lives<S, K, P, N, C, D>, Memory>
    // One for each session.
    ensures runs { IfOk result (λ all. AreRuns (states_of S.state K.state P.state N.state C.told D.state) disk sessions.items all.pasts.items all.disk) }
    ensures survive { IfOk result (λ all. AllSurvive (states_of S.state K.state P.state N.state C.told D.state) disk sessions.items all.pasts.items all.disk) }
{
    some_file();
    let mut disk = disk;
    let mut pasts = Vec::with_capacity(alloc, sessions.len())?;
    for session in sessions {
        let Left { disk: left, past } = run_once(alloc, disk, session, reboot)?;
        disk = left;
        pasts.push(past)?;
    }
    Ok(Lives { disk, pasts })
}
