//! `unshun`: takes a name off the list of the shunned ones.
ghost use Rattle.std.specs.Prelude.{◌≡◌, None, IfOk};
ghost use Rattle.fsl_words.specs.declared.Command.TheVariants as command_of;
ghost use Rattle.fossil.specs.Printed.{name_line};
ghost use Rattle.fossil.specs.Unshun.{word_of};
ghost use Rattle.fossil.specs.RunCall.{ActsUnread, ActsOpened};

use crate::answers::answer::{Answer, full};
use crate::answers::due::Due;
use crate::answers::fault::Fault;
use crate::answers::ingest_report::add_line;
use crate::answers::status::DONE;
use crate::reading::load::not_loaded;
use fsl_disk::Disk;
use fsl_name::Name;
use fsl_repo::{Repo, UnshunFault, Unshunning};
use fsl_text::{Memory, Text};
use std::alloc::Global;

/// The word for what became of a name that was to be taken off the list.
fn word(done: Unshunning) -> &'static [u8]
    ensures { result.now ≡ word_of done }
{
    match done {
        Unshunning::NotShunned => b"not shunned",
        Unshunning::Unshunned => b"unshunned",
    }
}

/// The line of what became of a name that was to be taken off the list.
fn unshun_answer(alloc: Global, name: Name, done: Unshunning) -> Result<Answer, Memory>
    ensures { IfOk result (λ a. a ≡ record { status = 0; text = name_line (word_of done) name }) }
{
    let mut text = Text::empty(alloc);
    add_line(&mut text, word(done), &name)?;
    Ok(Answer { status: DONE, text })
}

/// Takes a name off the list of a repository that was opened, and commits that. Where there is no memory for the line, or too
/// many names would be wanted without the name in the list, nothing is committed.
fn unlist<D: Disk>(alloc: Global, name: Name, repo: &mut Repo<D>) -> Due
    requires runs { repo.old.seen.state.stopped ≡ None }
    ensures { ActsOpened (command_of.Unshun name) (D.state, repo.old, repo.new) result }
{
    let done = match repo.unshun(name) {
        Ok(done) => done,
        Err(UnshunFault::Full { .. }) => return Ok(full(alloc, name)?),
        Err(_) => return Err(Fault::Memory),
    };
    let answer = unshun_answer(alloc, name, done)?;
    repo.is_whole();
    let committed = repo.commit();
    repo.is_whole();
    match committed {
        Ok(_) => Ok(answer),
        // No commit has failed before, so the disk did.
        Err(_) => Err(Fault::Disk),
    }
}

/// Takes a name off the list of the shunned ones, in one commit: artifacts of this name are taken again. Nothing is
/// committed where it isn't shunned. Where too many names would be wanted without it in the list, it is refused, and
/// nothing is committed. The disk comes back.
///
/// FORMATS: Messages of files
pub fn unshun<D: Disk>(alloc: Global, name: Name, disk: D) -> (Due, D)
    ensures { ActsUnread (command_of.Unshun name) (D.state, disk, result.1) result.0 }
{
    match Repo::load(alloc, disk) {
        Ok(mut repo) => {
            repo.is_whole();
            let answer = unlist(alloc, name, &mut repo);
            (answer, repo.close())
        }
        Err((disk, fault)) => (not_loaded(alloc, fault), disk),
    }
}
