//! Serves a repository to several connections.
ghost use Rattle.std.specs.Prelude.{◌≡◌, ◌<◌, ◌≤◌, None, Some, Err, vec_len, IfOk, IfErr};
ghost use Rattle.std.specs.Option.{option_map};
ghost use Rattle.fossil.specs.Acts.{output_of};
ghost use Rattle.fossil.specs.Run.{IsWritten};
ghost use Rattle.fossil.specs.Served.{AreStaffed, serving_of, serving_in};
ghost use Rattle.fossil.specs.Due.{printed};
ghost use Rattle.fossil.specs.Serving.{IsAsked, IsUnasked};
ghost use Rattle.fossil.specs.RunCall.{texts};
ghost use Rattle.fossil.specs.ServeCall.{disk_left, IsServe, IsFileServed, IsDiskServed, IsLoadedServed};

use crate::answers::due::{Due, print_due};
use crate::answers::fault::Fault;
use crate::reading::load::not_loaded;
use crate::reading::users::read_users;
use crate::worked::finished;
use fsl_disk::Disk;
use fsl_login::Users;
use fsl_outside::{Clock, Door, Gate, Sink, Source};
use fsl_repo::Repo;
use fsl_serve::{Crew, serve_crews};
use fsl_words::{Command, WordsFault, read};
use std::alloc::Global;
use std::sync::Wait;
use std::thread::Threads;

/// The repository that was served, or the disk where none was loaded.
#[derive(Drop)]
pub enum State<D: Disk> {
    Loaded(Repo<D>),
    Unloaded(D),
}

/// The result of a serve: the status, the repository or its disk, and the crews in their order.
#[derive(Drop)]
pub struct Served<D: Disk, A, G, C> {
    pub status: u8,
    pub state: State<D>,
    pub crews: Vec<Crew<A, G, C>>,
}

impl<D: Disk, A: Drop, G: Drop, C: Drop> Served<D, A, G, C> {
    /// Closes the repository and lets the crews go, and gives the status and the disk. A repository has so many parts that a crate
    /// which lets one go by itself proves some fifty functions for it.
    pub fn close(self) -> (u8, D)
        ensures status { result.0 ≡ self.status }
        ensures disk { result.1 ≡ disk_left self.state }
    {
        let Served {
            status,
            state,
            crews,
        } = self;
        drop(crews);
        (status, state.into_disk())
    }
}

impl<D: Disk> State<D> {
    /// Closes the repository and gives its disk, or gives the one that wasn't loaded.
    pub fn into_disk(self) -> D
        ensures { result ≡ disk_left self }
    {
        match self {
            State::Loaded(repo) => repo.close(),
            State::Unloaded(disk) => disk,
        }
    }
}

/// How many connections each worker is to take, where the command is a serve.
fn requests_of(command: &Command) -> Option<u64>
    ensures { result ≡ option_map (λ s. s.requests) (serving_of command.now) }
{
    match command {
        Command::Serve { requests, .. } => Some(*requests),
        _ => None,
    }
}

/// How many connections each worker is to take, by the words.
fn connections_asked(alloc: Global, words: &[String]) -> Result<u64, Fault>
    ensures asked { IfOk result (IsAsked (texts words.now)) }
    ensures few { IfOk result (λ requests. requests ≤ 65536) }
    ensures none { IfErr result (λ fault. IsUnasked (texts words.now) (Err fault)) }
{
    match read(alloc, words) {
        Ok(words) => {
            let requests = requests_of(&words.command);
            // A command has so many parts that it is let go before there are several ends.
            drop(words);
            match requests {
                Some(requests) => Ok(requests),
                None => Err(Fault::Usage),
            }
        }
        Err(WordsFault::Usage) => Err(Fault::Usage),
        Err(WordsFault::Memory) => Err(Fault::Memory),
    }
}

/// Says what is due, and gives the status with what is left.
fn ended<D: Disk, A, G, C, K: Sink>(
    out: &mut K,
    due: Due,
    state: State<D>,
    crews: Vec<Crew<A, G, C>>,
) -> Served<D, A, G, C>
    ensures said { IsWritten (printed due) (output_of (K.state out.old, K.state out.new)) result.status }
    ensures state { result.state ≡ state }
    ensures crews { result.crews ≡ crews }
{
    Served {
        status: print_due(out, due),
        state,
        crews,
    }
}

/// Serves a loaded repository.
fn serve_loaded<
    D: Disk + Send,
    A: Door + Send,
    G: Gate + Send,
    C: Clock + Send,
    K: Sink,
    R: Threads + Wait + Sync,
>(
    rt: &R,
    alloc: Global,
    users: &Users,
    repo: Repo<D>,
    crews: Vec<Crew<A, G, C>>,
    requests: u64,
    out: &mut K,
) -> Served<D, A, G, C>
    requires crews { (0 < vec_len crews) × (vec_len crews ≤ 16) }
    requires requests { requests ≤ 65536 }
    ensures { IsLoadedServed requests users.now (K.state, out.old, out.new) (D.state, repo) ((A.state, G.passed, C.told), crews.items) result }
{
    let project = repo.config().project;
    match serve_crews(rt, alloc, users, project, repo, crews, requests) {
        Ok(worked) => finished(alloc, worked, out),
        Err((repo, crews)) => ended(out, Err(Fault::Memory), State::Loaded(repo), crews),
    }
}

/// Loads the repository of a disk and serves it.
fn serve_disk<
    D: Disk + Send,
    A: Door + Send,
    G: Gate + Send,
    C: Clock + Send,
    K: Sink,
    R: Threads + Wait + Sync,
>(
    rt: &R,
    alloc: Global,
    users: &Users,
    disk: D,
    crews: Vec<Crew<A, G, C>>,
    requests: u64,
    out: &mut K,
) -> Served<D, A, G, C>
    requires crews { (0 < vec_len crews) × (vec_len crews ≤ 16) }
    requires requests { requests ≤ 65536 }
    ensures { IsDiskServed requests users.now (K.state, out.old, out.new) (D.state, disk) ((A.state, G.passed, C.told), crews.items) result }
{
    match Repo::load(alloc, disk) {
        Ok(repo) => serve_loaded(rt, alloc, users, repo, crews, requests, out),
        Err((disk, fault)) => ended(out, not_loaded(alloc, fault), State::Unloaded(disk), crews),
    }
}

/// Reads the users file, and serves the repository of a disk to these users.
fn serve_file<
    S: Source,
    D: Disk + Send,
    A: Door + Send,
    G: Gate + Send,
    C: Clock + Send,
    K: Sink,
    R: Threads + Wait + Sync,
>(
    rt: &R,
    alloc: Global,
    users: &mut S,
    disk: D,
    crews: Vec<Crew<A, G, C>>,
    requests: u64,
    out: &mut K,
) -> Served<D, A, G, C>
    requires crews { (0 < vec_len crews) × (vec_len crews ≤ 16) }
    requires requests { requests ≤ 65536 }
    ensures { IsFileServed requests (S.state, users.old, users.new) (K.state, out.old, out.new) (D.state, disk) ((A.state, G.passed, C.told), crews.items) result }
{
    match read_users(alloc, users) {
        Ok(users) => serve_disk(rt, alloc, &users, disk, crews, requests, out),
        Err(due) => ended(out, due, State::Unloaded(disk), crews),
    }
}

/// Serves the repository of a disk to as many connections a worker as the words say, one worker for each crew, by turns. Two
/// lines are printed, `sessions N` with how many connections were served and `stored M` with how many artifacts were stored.
///
/// The words are read first, then the users file to its end or past 2^20 bytes, then the repository is loaded, then the workers
/// run, then the lines are printed. The status is 0, or the first of these: 1 for words that are no serve, 5 where the users file
/// couldn't be read, 3 where one of its lines is bad, 2 where the file isn't a repository, 4 where the disk failed, 7 where a door
/// failed, 6 where the output failed. 9, out of memory, may come in place of each. The crews come back in their order, as their
/// workers left them; where no worker ran, as they were.
pub fn serve<
    S: Source,
    D: Disk + Send,
    A: Door + Send,
    G: Gate + Send,
    C: Clock + Send,
    K: Sink,
    R: Threads + Wait + Sync,
>(
    rt: &R,
    alloc: Global,
    words: &[String],
    users: &mut S,
    repo: D,
    crews: Vec<Crew<A, G, C>>,
    out: &mut K,
) -> Served<D, A, G, C>
    requires staffed { AreStaffed (texts words.now) (vec_len crews) }
    ensures said { IsServe words.now (S.state, users.old, users.new) (K.state, out.old, out.new) (D.state, repo) ((A.state, G.passed, C.told), crews.items) result }
    ensures unread { serving_in (texts words.now) ≡ None → users.new ≡ users.old }
{
    match connections_asked(alloc, words) {
        Ok(requests) => serve_file(rt, alloc, users, repo, crews, requests, out),
        Err(fault) => ended(out, Err(fault), State::Unloaded(repo), crews),
    }
}
