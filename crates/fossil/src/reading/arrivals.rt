//! Takes files into a repository one after another, in memory alone.
ghost use Rattle.std.specs.Prelude.{◌≡◌, ◌<◌, None, IfOk};
ghost use Rattle.fossil.specs.Arrivals.{arrival_word};
ghost use Rattle.fossil.specs.Taking.{HasCome, HaveArrived};

use crate::answers::answer::{Answer, file_refusal};
use crate::answers::ingest_report::add_line;
use crate::reading::message::MessageFile;
use fsl_disk::Disk;
use fsl_record::Receipt;
use fsl_repo::{Arrival, Repo};
use fsl_text::{List, Memory, Steps, Text};
use std::alloc::Global;
use std::marker::Brand;
use std::sync::ledger::{Blank, Ledger};

/// The result of files that arrived.
#[derive(Drop)]
pub enum Arrivals {
    /// Each was taken, and these are their lines.
    Taken(Text),
    /// One is refused, and with it all.
    Refused(Answer),
}

/// The word for what became of a file.
fn word(arrival: Arrival) -> &'static [u8]
    ensures { result.now ≡ arrival_word arrival }
{
    match arrival {
        Arrival::Shunned => b"shunned",
        Arrival::Present => b"present",
        Arrival::Published => b"published",
        Arrival::Stored => b"stored",
    }
}

/// One file arrives with a receipt, and its line is put at the end, or else it is refused.
fn arrive_one<D: Disk, L: Ledger>(
    alloc: Global,
    file: MessageFile,
    receipt: &Receipt,
    repo: &mut Repo<D>,
    text: &mut Text,
    steps: &mut Steps<L>,
) -> Result<Option<Answer>, Memory>
    requires runs { repo.old.seen.state.stopped ≡ None }
    ensures come { IfOk result (HasCome receipt.now file (repo.old.seen.state, repo.new.seen.state) (text.old, text.new)) }
    ensures disk { repo.new.disk ≡ repo.old.disk }
{
    let MessageFile {
        name,
        bytes,
        private,
    } = file;
    let came = repo.receive(name, bytes.bytes(), private, receipt, steps);
    // The bytes are let go before there are several ends.
    drop(bytes);
    match came {
        Ok(arrival) => {
            add_line(text, word(arrival), &name)?;
            Ok(None)
        }
        Err(fault) => Ok(Some(file_refusal(alloc, name, fault)?)),
    }
}

/// The arrivals, with a counter of their own.
fn arrive_counted<D: Disk, L: Ledger>(
    alloc: Global,
    files: List<MessageFile>,
    receipt: &Receipt,
    repo: &mut Repo<D>,
    blank: Blank,
) -> Result<Arrivals, Memory>
    requires name { blank.name ≡ L.name }
    requires parts { blank.parts ≡ L.parts }
    requires counts { 0 < L.parts }
    requires runs { repo.old.seen.state.stopped ≡ None }
    ensures arrived { IfOk result (HaveArrived receipt.now files repo.old.seen.state repo.new.seen.state) }
    ensures disk { repo.new.disk ≡ repo.old.disk }
{
    let mut steps: Steps<L> = Steps::new(blank);
    let mut text = Text::empty(alloc);
    for file in files.into_vec() {
        if let Some(refused) = arrive_one(alloc, file, receipt, repo, &mut text, &mut steps)? {
            return Ok(Arrivals::Refused(refused));
        }
    }
    Ok(Arrivals::Taken(text))
}

/// Takes files into a repository one after another, in memory alone, each with this receipt. The first that is too large,
/// has another name or finds no room refuses all; else each has its line. `Memory` is the only error.
///
/// FORMATS: Messages of files
pub fn arrive<D: Disk>(
    alloc: Global,
    files: List<MessageFile>,
    receipt: &Receipt,
    repo: &mut Repo<D>,
) -> Result<Arrivals, Memory>
    requires runs { repo.old.seen.state.stopped ≡ None }
    ensures arrived { IfOk result (HaveArrived receipt.now files repo.old.seen.state repo.new.seen.state) }
    ensures disk { repo.new.disk ≡ repo.old.disk }
{
    arrive_counted::<D, Brand>(alloc, files, receipt, repo, Blank::new(1))
}
