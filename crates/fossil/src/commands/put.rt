//! `put`: takes a message of files into the repository.
ghost use Rattle.std.specs.Prelude.{◌≡◌, None};
ghost use Rattle.fsl_words.specs.declared.Command.TheVariants as command_of;
ghost use Rattle.fossil.specs.RunCall.{ActsReading};
ghost use Rattle.fossil.specs.Taking.{IsPutReceipt, PutsWith, PutsMessage, PutsFiles, PutsInput};

use crate::answers::answer::{Answer, too_long};
use crate::answers::due::Due;
use crate::answers::fault::Fault;
use crate::answers::status::DONE;
use crate::reading::arrivals::{Arrivals, arrive};
use crate::reading::checking::{Checked, check_message};
use crate::reading::input::read_input;
use crate::reading::load::not_loaded;
use crate::reading::message::MessageFile;
use fsl_disk::Disk;
use fsl_outside::{Clock, Source};
use fsl_record::Receipt;
use fsl_repo::Repo;
use fsl_text::{List, Text};
use std::alloc::Global;

/// Takes the one moment of a `put` or a `checkin`, as the receipt of its files. It has no login.
pub(crate) fn put_receipt<C: Clock>(alloc: Global, clock: &mut C) -> Receipt
    ensures { IsPutReceipt (C.told clock.old) (C.told clock.new) result }
{
    Receipt::new(Text::empty(alloc), clock.now()).unwrap()
}

/// Takes files into a repository that was opened, each with this receipt, and commits them. Where one is refused, or there is
/// no memory, nothing is committed.
fn take_with<D: Disk>(
    alloc: Global,
    files: List<MessageFile>,
    receipt: &Receipt,
    repo: &mut Repo<D>,
) -> Due
    requires runs { repo.old.seen.state.stopped ≡ None }
    ensures { PutsWith receipt.now files (D.state, repo.old, repo.new) result }
{
    let text = match arrive(alloc, files, receipt, repo)? {
        Arrivals::Taken(text) => text,
        Arrivals::Refused(answer) => return Ok(answer),
    };
    repo.is_whole();
    let committed = repo.commit();
    repo.is_whole();
    match committed {
        Ok(_) => Ok(Answer { status: DONE, text }),
        // No commit has failed before, so the disk did.
        Err(_) => Err(Fault::Disk),
    }
}

/// Takes the files of a message into a repository that was opened, behind one moment of the clock.
fn take_files<C: Clock, D: Disk>(
    alloc: Global,
    files: List<MessageFile>,
    clock: &mut C,
    repo: &mut Repo<D>,
) -> Due
    requires runs { repo.old.seen.state.stopped ≡ None }
    ensures { PutsFiles files (C.told, clock.old, clock.new) (D.state, repo.old, repo.new) result }
{
    let receipt = put_receipt(alloc, clock);
    let answer = take_with(alloc, files, &receipt, repo);
    drop(receipt);
    answer
}

/// Takes a message into a repository that was opened: it is refused, or else its files are taken.
fn take_message<C: Clock, D: Disk>(
    alloc: Global,
    message: Text,
    clock: &mut C,
    repo: &mut Repo<D>,
) -> Due
    requires runs { repo.old.seen.state.stopped ≡ None }
    ensures { PutsMessage message (C.told, clock.old, clock.new) (D.state, repo.old, repo.new) result }
{
    match check_message(alloc, message)? {
        Checked::Files(files) => take_files(alloc, files, clock, repo),
        Checked::Refused(answer) => Ok(answer),
    }
}

/// Reads the input, and takes it into a repository that was opened.
fn take_input<S: Source, C: Clock, D: Disk>(
    alloc: Global,
    input: &mut S,
    clock: &mut C,
    repo: &mut Repo<D>,
) -> Due
    requires runs { repo.old.seen.state.stopped ≡ None }
    ensures { PutsInput (S.state, input.old, input.new) (C.told, clock.old, clock.new) (D.state, repo.old, repo.new) result }
{
    match read_input(alloc, input)? {
        Some(message) => take_message(alloc, message, clock, repo),
        None => Ok(too_long(alloc)?),
    }
}

/// Takes a message of files into the repository: all of them in one commit, or none. The disk comes back. The clock is
/// asked once, behind the reading of the message's form, and not at all where the message is too long or a line or a card
/// is refused; each artifact that is stored has a receipt of this moment, without login.
///
/// FORMATS: Messages of files
pub fn put<S: Source, C: Clock, D: Disk>(
    alloc: Global,
    input: &mut S,
    clock: &mut C,
    disk: D,
) -> (Due, D)
    ensures { ActsReading command_of.Put (S.state, input.old, input.new) (C.told, clock.old, clock.new) (D.state, disk, result.1) result.0 }
{
    match Repo::load(alloc, disk) {
        Ok(mut repo) => {
            repo.is_whole();
            let answer = take_input(alloc, input, clock, &mut repo);
            (answer, repo.close())
        }
        Err((disk, fault)) => (not_loaded(alloc, fault), disk),
    }
}
