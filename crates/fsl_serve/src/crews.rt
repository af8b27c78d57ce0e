//! Runs workers in threads.
ghost use Rattle.std.specs.Prelude.{◌≡◌, ◌<◌, ◌≤◌, ◌+◌, [], ◌∷◌, map, slice_index_or, vec_len, ℕ, Some, IfOk, IfErr, IfSome};
ghost use Rattle.fsl_repo.specs.Onward.{IsLaterOn};
ghost use Rattle.fsl_repo.specs.Whole.{stored};
ghost use Rattle.fsl_serve.specs.Workers.{HasPassed};
ghost use Rattle.fsl_repo.specs.declared.Event.TheVariants as event;
ghost use Rattle.fsl_serve.specs.Crews.{AreWorked, AreGated, AreAllCommitted};
ghost use Rattle.fsl_serve.specs.Ordered.{LeavesOneHistory, steps_by};

use crate::staff::{dismissed, staffed};
use crate::turning::Waiting;
use crate::work::{Crew, Work, worker};
use fsl_disk::Disk;
use fsl_history::{Chronicle, Housed, Ticketed};
use fsl_login::Users;
use fsl_name::Name;
use fsl_outside::{Clock, Door, Gate};
use fsl_repo::{Event, Repo};
use fsl_turn::{Turns, step_uncounted};
use std::alloc::Global;
use std::marker::Brand;
use std::sync::Wait;
use std::thread::{Threads, for_each_mut};

/// A worker's crew and pass, and what it did.
pub(crate) struct Job<A, G, C, P> {
    pub(crate) crew: Crew<A, G, C>,
    pub(crate) pass: P,
    pub(crate) work: Work,
}

/// One worker.
fn run_one<T: Turns<Repo<D>>, D: Disk, A: Door, G: Gate, C: Clock, R: Wait>(
    rt: &R,
    alloc: Global,
    turns: &T,
    users: &Users,
    project: Name,
    job: &mut Job<A, G, C, T::Pass>,
    requests: u64,
)
    ensures grown { T.grows job.old.pass job.new.pass }
    ensures worked { HasPassed D.state users.now project requests (A.state, G.passed, C.told, job.old.crew, job.new.crew) (T.calls, job.old.pass, job.new.pass) job.new.work }
{
    let waiting = Waiting::new(turns, rt);
    job.work = worker(
        alloc,
        &waiting,
        &mut job.pass,
        users,
        project,
        &mut job.crew,
        requests,
    );
}

/// Runs all jobs, each in a thread of its own but for one, which runs in the caller's.
pub(crate) fn run_all<
    T: Turns<Repo<D>> + Sync,
    D: Disk + Send,
    A: Door + Send,
    G: Gate + Send,
    C: Clock + Send,
    R: Threads + Wait + Sync,
>(
    rt: &R,
    alloc: Global,
    turns: &T,
    users: &Users,
    project: Name,
    jobs: &mut Vec<Job<A, G, C, T::Pass>>,
    requests: u64,
)
where
    T::Pass: Send,
    requires { 0 < vec_len jobs.old }
    ensures len { vec_len jobs.new ≡ vec_len jobs.old }
    ensures each { (i : ℕ) (d : _) → i < vec_len jobs.old → let before = slice_index_or jobs.old.items i d in let after = slice_index_or jobs.new.items i d in HasPassed D.state users.now project requests (A.state, G.passed, C.told, before.crew, after.crew) (T.calls, before.pass, after.pass) after.work × T.grows before.pass after.pass }
{
    let threads = jobs.len();
    for_each_mut(
        rt,
        jobs.as_mut_slice(),
        threads,
        &|_, job: &mut Job<A, G, C, T::Pass>|
            ensures grown { T.grows job.old.pass job.new.pass }
            ensures worked { HasPassed D.state users.entry.now project requests (A.state, G.passed, C.told, job.old.crew, job.new.crew) (T.calls, job.old.pass, job.new.pass) job.new.work }
        { run_one(rt, alloc, turns, users, project, job, requests) },
    );
}

/// Commits what a session added that no commit followed: memory ran out and cut that session off, and no other one came behind
/// it. A repository that its disk stops says so itself.
fn settle<D: Disk>(repo: &mut Repo<D>)
    ensures later { IsLaterOn (D.state repo.old.disk) (D.state repo.new.disk) repo.old repo.new }
    ensures stored { stored repo.new.seen ≡ stored repo.old.seen }
    ensures settled { AreAllCommitted repo.new.seen.state }
    ensures step { (a : _) × steps_by D.state repo.old event.Commit a repo.new }
{
    step_uncounted(repo, &Event::Commit);
}

/// The repository behind all crews, the crews in their order, the work of each, and the number of artifacts that were stored.
pub struct Served<D: Disk, A, G, C> {
    /// The repository, in a later state than the one that came. All its records are committed, unless it is stopped.
    pub repo: Repo<D>,
    /// The crews, in their order.
    pub crews: Vec<Crew<A, G, C>>,
    /// The work of each crew.
    pub works: Vec<Work>,
    /// The number of artifacts that were stored.
    pub stored: u64,
}

/// Runs a worker for each crew over the repository, by turns that make one history. Out of memory is the only error. The
/// repository and the crews then come back as they were.
pub fn serve_crews<
    D: Disk + Send,
    A: Door + Send,
    G: Gate + Send,
    C: Clock + Send,
    R: Threads + Wait + Sync,
>(
    rt: &R,
    alloc: Global,
    users: &Users,
    project: Name,
    repo: Repo<D>,
    crews: Vec<Crew<A, G, C>>,
    requests: u64,
) -> Result<Served<D, A, G, C>, (Repo<D>, Vec<Crew<A, G, C>>)>
    requires crews { (0 < vec_len crews) × (vec_len crews ≤ 16) }
    ensures later { IfOk result (λ s. IsLaterOn (D.state repo.disk) (D.state s.repo.disk) repo s.repo) }
    ensures stored { IfOk result (λ s. stored s.repo.seen ≡ stored repo.seen + s.stored) }
    // What is counted as stored is committed, unless the disk failed.
    ensures settled { IfOk result (λ s. AreAllCommitted s.repo.seen.state) }
    ensures worked { IfOk result (λ s. AreWorked D.state (λ c. A.state c.door) users.now project requests s.works.items crews.items s.crews.items) }
    ensures gates { IfOk result (λ s. AreGated D.state (A.state, G.passed, C.told) users.now project requests s.works.items crews.items s.crews.items) }
    ensures history { IfOk result (λ s. LeavesOneHistory D.state (A.state, G.passed, C.told) users.now project requests crews.items repo s) }
    ensures refused { IfErr result (λ r. (r.0 ≡ repo) × (r.1.items ≡ crews.items)) }
{
    match Housed::new(alloc, repo) {
        Ok(housed) => serve_housed::<Brand, D, A, G, C, R>(
            rt, alloc, users, project, housed, crews, requests,
        ),
        Err(repo) => Err((repo, crews)),
    }
}

/// The same, where the history has a name.
fn serve_housed<
    B: Chronicle<Repo<D>> + Send + Sync,
    D: Disk + Send,
    A: Door + Send,
    G: Gate + Send,
    C: Clock + Send,
    R: Threads + Wait + Sync,
>(
    rt: &R,
    alloc: Global,
    users: &Users,
    project: Name,
    housed: Housed<Repo<D>>,
    mut crews: Vec<Crew<A, G, C>>,
    requests: u64,
) -> Result<Served<D, A, G, C>, (Repo<D>, Vec<Crew<A, G, C>>)>
    requires table { housed.table.shared.table_id ≡ B.table }
    requires passes { vec_len crews ≡ B.passes }
    requires first { (f : _) × (B.first ≡ Some f) × (map (λ b. b.0) housed.table.shared.key.items ≡ f ∷ []) }
    requires crews { (0 < vec_len crews) × (vec_len crews ≤ 16) }
    ensures later { IfOk result (λ s. IfSome B.first (λ f. IsLaterOn (D.state f.disk) (D.state s.repo.disk) f s.repo)) }
    ensures stored { IfOk result (λ s. IfSome B.first (λ f. stored s.repo.seen ≡ stored f.seen + s.stored)) }
    ensures settled { IfOk result (λ s. AreAllCommitted s.repo.seen.state) }
    ensures worked { IfOk result (λ s. AreWorked D.state (λ c. A.state c.door) users.now project requests s.works.items crews.items s.crews.items) }
    ensures gates { IfOk result (λ s. AreGated D.state (A.state, G.passed, C.told) users.now project requests s.works.items crews.items s.crews.items) }
    ensures history { IfOk result (λ s. IfSome B.first (λ f. LeavesOneHistory D.state (A.state, G.passed, C.told) users.now project requests crews.items f s)) }
    ensures refused { IfErr result (λ r. (B.first ≡ Some r.0) × (r.1.items ≡ crews.items)) }
{
    let count = crews.len() as u64;
    let Ok(jobs) = Vec::with_capacity(alloc, crews.len()) else {
        return Err((housed.into_machine(), crews));
    };
    let Ok(works) = Vec::with_capacity(alloc, crews.len()) else {
        jobs.destroy_empty();
        return Err((housed.into_machine(), crews));
    };
    let (ticketed, mut passes) = match Ticketed::<Repo<D>, B>::make(alloc, housed, count) {
        Ok(made) => made,
        Err(repo) => {
            jobs.destroy_empty();
            works.destroy_empty();
            return Err((repo, crews));
        }
    };
    let mut jobs = staffed(jobs, &mut crews, &mut passes);
    run_all(rt, alloc, &ticketed, users, project, &mut jobs, requests);
    let works = dismissed(jobs, &mut crews, &mut passes, works);
    let (mut repo, stored) = ticketed.finish(passes);
    settle(&mut repo);
    Ok(Served {
        repo,
        crews,
        works,
        stored,
    })
}
