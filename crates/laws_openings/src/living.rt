//! Runs one life of a repository. The repository is opened, some work is done, and the records that this appended are committed.
ghost use Rattle.std.specs.Prelude.{◌≡◌, ℕ, Bool, List, None, IsTrue, true, OnOk};
ghost use Rattle.fsl_disk.specs.Disk.{DiskState, IsModelled, Keeps, LeavesOnly};
ghost use Rattle.fsl_record.specs.declared.Record.{Record};
ghost use Rattle.fsl_journal.specs.File.{IsFileOf};
ghost use Rattle.fsl_journal.specs.Log.{BeforeOrAll};
ghost use Rattle.fsl_repo.specs.Whole.{log_of};
ghost use Rattle.laws_openings.specs.Chain.{MayHave, Has, IsSince, try_of};
ghost use Rattle.laws_openings.specs.Lives.{IsWork, IsFresh, IsCommitOf, IsTried, HasEnded, group_in, is_done};

use fsl_disk::Disk;
use fsl_journal::{LoadFault, is_one_file};
use fsl_repo::Repo;
use fsl_text::Memory;
use std::alloc::Global;
use std::snapshot::Snapshot;

/// The work of a life before its commit.
pub trait Work<D: Disk> {
    /// The records that it puts behind others.
    ghost puts: { Self → List Record → List Record → Type 0 };

    /// Says whether somebody waits to hear that its commit was done.
    ghost heard: { Self → Bool };

    /// Says whether somebody waits to hear that its commit was done.
    fn is_heard(&self) -> bool
        ensures { result ≡ heard self.now };

    /// Does work that calls no device and commits nothing. The records of `puts` come behind the others. `Memory` is the only
    /// error. Then nothing of the work is committed.
    fn work(&self, repo: &mut Repo<D>) -> Result<(), Memory>
        requires { IsFresh repo.old }
        ensures disk { repo.new.disk ≡ repo.old.disk }
        ensures put { OnOk result (IsWork (puts self.now) repo.old repo.new) };
}

/// A repository as it was opened, and as a work left it. The value has no bytes. Only clauses see both.
#[derive(Drop)]
pub struct Put<D: Disk> {
    pub opened: Snapshot<Repo<D>>,
    pub worked: Snapshot<Repo<D>>,
}

/// The end of a life.
#[derive(Drop)]
pub enum Ending<D: Disk> {
    /// Its work is committed.
    Done(Put<D>),
    /// A call of the disk failed in the commit. All of the work is there, or none of it.
    Cut(Put<D>),
    /// Memory ran out in the work, so nothing was committed.
    Unworked,
    /// The repository wasn't opened.
    Unopened(LoadFault),
}

/// The disk behind a life, and the end of the life.
#[derive(Drop)]
pub struct Life<D: Disk> {
    pub disk: D,
    pub ending: Ending<D>,
}

/// Commits some work in a repository, and closes.
fn commit_put<D: Disk>(repo: Repo<D>, put: Put<D>) -> Life<D>
    requires worked { put.worked.value ≡ repo }
    requires runs { repo.seen.state.stopped ≡ None }
    ensures keeps { Keeps (D.state repo.disk) (D.state result.disk) }
    ensures any_moment { IsModelled (D.state repo.disk) → LeavesOnly (D.state repo.disk) (D.state result.disk) (BeforeOrAll (log_of repo)) }
    ensures durable { IsTrue (is_done result.ending) → IsModelled (D.state repo.disk) → (c : List ℕ) → (D.state result.disk).images c → IsFileOf c repo.seen.state.records }
    ensures ended { IsCommitOf put (D.state repo.disk) (D.state result.disk) result.ending }
{
    let mut repo = repo;
    repo.is_whole();
    let ending = match repo.commit() {
        Ok(_) => Ending::Done(put),
        Err(_) => Ending::Cut(put),
    };
    repo.is_whole();
    Life {
        disk: repo.close(),
        ending,
    }
}

/// Does some work in a repository all of whose records are committed, commits, and closes.
fn commit_work<D: Disk, W: Work<D>>(repo: Repo<D>, work: &W) -> Life<D>
    requires { IsFresh repo }
    ensures { IsTried (W.puts work.now) repo.seen.state.records result.ending (D.state repo.disk) (D.state result.disk) }
{
    let opened = Snapshot::of(&repo);
    repo.is_whole();
    let mut repo = repo;
    match work.work(&mut repo) {
        Ok(()) => {
            let worked = Snapshot::of(&repo);
            commit_put(repo, Put { opened, worked })
        }
        Err(_) => Life {
            disk: repo.close(),
            ending: Ending::Unworked,
        },
    }
}

/// Opens the repository of a disk, does some work, commits and closes, as far as the disk goes and there is memory, and returns
/// how that ended. At each moment each image stands for what was reached before or, with all that the work put, behind it. It
/// stands for the latter where the life was done. The life was done unless a call of the disk failed, memory ran out, or the file
/// is no repository.
pub fn live<D: Disk, W: Work<D>>(alloc: Global, disk: D, work: &W) -> Life<D>
    ensures keeps { Keeps (D.state disk) (D.state result.disk) }
    ensures later { IsSince (D.state disk) (D.state result.disk) }
    ensures ended { HasEnded (W.puts work.now) (D.state disk) (D.state result.disk) result.ending }
    ensures any_moment { MayHave (λ w. W.puts w) work.now (group_in result.ending) (D.state disk) (D.state result.disk) }
    ensures done { IsTrue (is_done result.ending) → Has (λ w. W.puts w) (try_of work.now true (group_in result.ending)) (D.state disk) (D.state result.disk) }
{
    is_one_file();
    match Repo::load(alloc, disk) {
        Ok(repo) => commit_work(repo, work),
        Err((disk, fault)) => Life {
            disk,
            ending: Ending::Unopened(fault),
        },
    }
}
