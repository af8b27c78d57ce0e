//! `shun`: takes a name out of the repository, and keeps it out.
ghost use Rattle.std.specs.Prelude.{◌≡◌, None, IfOk};
ghost use Rattle.fsl_words.specs.declared.Command.TheVariants as command_of;
ghost use Rattle.fossil.specs.Printed.{name_line};
ghost use Rattle.fossil.specs.Shun.{word_of};
ghost use Rattle.fossil.specs.RunCall.{ActsUnread, ActsOpened};

use crate::answers::answer::Answer;
use crate::answers::due::Due;
use crate::answers::fault::Fault;
use crate::answers::ingest_report::add_line;
use crate::answers::status::DONE;
use crate::reading::load::not_loaded;
use fsl_disk::Disk;
use fsl_name::Name;
use fsl_repo::{Repo, Shunning};
use fsl_text::{Memory, Text};
use std::alloc::Global;

/// The word for what became of a name that was shunned.
fn word(done: Shunning) -> &'static [u8]
    ensures { result.now ≡ word_of done }
{
    match done {
        Shunning::Already => b"already",
        Shunning::Removed => b"removed",
        Shunning::Listed => b"listed",
    }
}

/// The line of what became of a name that was shunned.
fn shun_answer(alloc: Global, name: Name, done: Shunning) -> Result<Answer, Memory>
    ensures { IfOk result (λ a. a ≡ record { status = 0; text = name_line (word_of done) name }) }
{
    let mut text = Text::empty(alloc);
    add_line(&mut text, word(done), &name)?;
    Ok(Answer { status: DONE, text })
}

/// Shuns a name in a repository that was opened, and commits that. Where there is no memory for the line nothing is
/// committed.
fn take_out<D: Disk>(alloc: Global, name: Name, repo: &mut Repo<D>) -> Due
    requires runs { repo.old.seen.state.stopped ≡ None }
    ensures { ActsOpened (command_of.Shun name) (D.state, repo.old, repo.new) result }
{
    let done = match repo.shun(name) {
        Ok(done) => done,
        Err(_) => return Err(Fault::Memory),
    };
    let answer = shun_answer(alloc, name, done)?;
    repo.is_whole();
    let committed = repo.commit();
    repo.is_whole();
    match committed {
        Ok(_) => Ok(answer),
        // No commit has failed before, so the disk did.
        Err(_) => Err(Fault::Disk),
    }
}

/// Takes a name out of the repository, in one commit: its artifact isn't held any more, and no artifact of this name is
/// taken until it is unshunned. Nothing is committed where it is shunned already. The disk comes back.
///
/// FORMATS: Messages of files
pub fn shun<D: Disk>(alloc: Global, name: Name, disk: D) -> (Due, D)
    ensures { ActsUnread (command_of.Shun name) (D.state, disk, result.1) result.0 }
{
    match Repo::load(alloc, disk) {
        Ok(mut repo) => {
            repo.is_whole();
            let answer = take_out(alloc, name, &mut repo);
            (answer, repo.close())
        }
        Err((disk, fault)) => (not_loaded(alloc, fault), disk),
    }
}
