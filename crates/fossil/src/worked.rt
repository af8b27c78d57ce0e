//! Answers behind the workers of a serve.
ghost use Rattle.std.specs.Prelude.{◌≡◌, ◌≤◌, ◌++◌, length, decimal, IfOk, OnOk};
ghost use Rattle.std.specs.List.{list_any};
ghost use Rattle.fsl_repo.specs.Whole.{IsWholeOn};
ghost use Rattle.fsl_serve.specs.Crews.{sessions_of};
ghost use Rattle.fossil.specs.declared.commands.serve.State.TheVariants as state_is;
ghost use Rattle.fossil.specs.Acts.{output_of};
ghost use Rattle.fossil.specs.Printed.{line_of, with_text};
ghost use Rattle.fossil.specs.Served.{served_text, worked};
ghost use Rattle.fossil.specs.Due.{IsDue};
ghost use Rattle.fossil.specs.Serving.{AreWithin, IsSaidOf};

use crate::answers::answer::Answer;
use crate::answers::due::{Due, answered, print_due};
use crate::answers::fault::Fault;
use crate::answers::status::DONE;
use crate::commands::serve::{Served, State};
use fsl_disk::Disk;
use fsl_outside::Sink;
use fsl_serve::{Served as Worked, Work};
use fsl_text::{Memory, Text};
use std::alloc::Global;

/// The sum of the connections that were served.
fn sessions(works: &[Work]) -> u64
    requires few { length works.now ≤ 16 }
    requires within { AreWithin 65536 works.now }
    ensures { result ≡ sessions_of works.now }
{
    let mut sum = 0;
    for work in works {
        sum += work.sessions;
    }
    sum
}

/// Whether a door failed.
fn has_failed(works: &[Work]) -> bool
    ensures { result ≡ list_any (λ w. w.failed) works.now }
{
    works.iter().any(|work| work.failed)
}

/// Puts words and a number on a line at the end.
pub(crate) fn append_line(
    alloc: Global,
    text: &mut Text,
    words: &[u8],
    number: u64,
) -> Result<(), Memory>
    ensures { OnOk result (text.new ≡ text.old ++ line_of (words.now ++ decimal number)) }
{
    let digits = number.to_string(alloc)?;
    text.append(words)?;
    text.append(digits.as_bytes())?;
    text.append(b"\n")
}

/// The two lines of a serve.
fn lines(alloc: Global, sessions: u64, stored: u64) -> Result<Answer, Memory>
    ensures { IfOk result (λ a. a ≡ with_text 0 (served_text sessions stored)) }
{
    let mut text = Text::empty(alloc);
    append_line(alloc, &mut text, b"sessions ", sessions)?;
    append_line(alloc, &mut text, b"stored ", stored)?;
    Ok(Answer { status: DONE, text })
}

/// What is due after the workers: that the repository is stopped, or that a door failed, or the two lines.
fn due_of(alloc: Global, stopped: Option<u64>, works: &[Work], stored: u64) -> Due
    requires few { length works.now ≤ 16 }
    requires within { AreWithin 65536 works.now }
    ensures { IsDue (worked stopped works.now stored) result }
{
    if stopped.is_some() {
        return Err(Fault::Disk);
    }
    if has_failed(works) {
        return Err(Fault::Link);
    }
    answered(lines(alloc, sessions(works), stored))
}

/// Says what is due after the workers, and gives the status with what they left.
pub(crate) fn finished<D: Disk, A, G, C, K: Sink>(
    alloc: Global,
    done: Worked<D, A, G, C>,
    out: &mut K,
) -> Served<D, A, G, C>
    requires few { length done.works.items ≤ 16 }
    requires within { AreWithin 65536 done.works.items }
    ensures said { IsSaidOf (worked done.repo.seen.state.stopped done.works.items done.stored) (output_of (K.state out.old, K.state out.new)) result.status }
    ensures state { result.state ≡ state_is.Loaded done.repo }
    ensures crews { result.crews ≡ done.crews }
    ensures whole { IsWholeOn (D.state done.repo.disk) done.repo }
{
    let Worked {
        repo,
        crews,
        works,
        stored,
    } = done;
    repo.is_whole();
    let due = due_of(alloc, repo.stopped(), works.as_slice(), stored);
    Served {
        status: print_due(out, due),
        state: State::Loaded(repo),
        crews,
    }
}
