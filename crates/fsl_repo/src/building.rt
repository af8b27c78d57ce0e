//! Builds the reply to a message.
ghost use Rattle.std.specs.Prelude.{◌≡◌, [], ◌∷◌, IfOk, IfErr, OnOk, map, take};
ghost use Rattle.std.specs.List.{AllZip};
ghost use Rattle.fsl_answer.specs.Contents as reply;
ghost use Rattle.fsl_answer.specs.Replies.{reply_text};
ghost use Rattle.fsl_disk.specs.Disk.{Quiet};
ghost use Rattle.fsl_repo.specs.Replies.{BuildStep, placed_in, reply_lists};
ghost use Rattle.fsl_repo.specs.Machine.{Leaves};
ghost use Rattle.fsl_repo.specs.Sending.{AreDue, AreDueIn, IsReadFile, FilesFail, as_build_fault, files_by, files_for, listed, seen_by};

use crate::asking::{first_clone, has_pull, has_push, sends_private};
use crate::replying::{asked_for, codes_of, first_notices, told_names};
use crate::sending::{Due, asked_due, due_from};
use crate::{Ask, BuildFault, Reply, Repo};
use fsl_answer::{Lists, SentFile, frame};
use fsl_blobs::{BlobFault, Blobs};
use fsl_cluster::Clusters;
use fsl_disk::Disk;
use fsl_name::Name;
use fsl_text::{List, Memory, Text};
use fsl_wire::WireCard;
use std::alloc::Global;

/// The place from which a clone asks for files: one of version 2 and up does.
fn asked_place(clone: Option<(u64, u64)>) -> Option<u64>
    ensures { result ≡ reply.asks_from clone }
{
    match clone {
        Some((version, place)) if version > 1 => Some(place),
        _ => None,
    }
}

/// Whether a clone asks for names: one of version 0 or 1 does.
fn asks_names(clone: Option<(u64, u64)>) -> bool
    ensures { result ≡ reply.asks_names clone }
{
    match clone {
        Some((version, _)) => version <= 1,
        None => false,
    }
}

/// The files that are due in a reply, and where a clone goes on.
fn due_of(
    alloc: Global,
    blobs: &Blobs,
    message: &[WireCard],
    private: bool,
    clone: Option<(u64, u64)>,
) -> Result<(Vec<Due>, Option<u64>), Memory>
    ensures { IfOk result (λ f. AreDue (files_by blobs.now.records (placed_in blobs.now.records) message.now private clone) f.0.items f.1) }
{
    if let Some(place) = asked_place(clone) {
        let (files, next) = due_from(alloc, blobs, place)?;
        return Ok((files, Some(next)));
    }
    if has_pull(message) || clone.is_some() {
        return Ok((asked_due(alloc, blobs, message, private)?, None));
    }
    Ok((Vec::new(alloc), None))
}

/// The files that are due in the reply to a message, and where a clone goes on.
fn due_to(alloc: Global, blobs: &Blobs, ask: &Ask) -> Result<(Vec<Due>, Option<u64>), Memory>
    ensures { IfOk result (λ f. AreDue (files_for blobs.now.records ask.now) f.0.items f.1) }
{
    let message = ask.message.cards();
    let private = sends_private(message, &ask.caps);
    due_of(alloc, blobs, message, private, first_clone(message))
}

/// The lists of a reply with these files, and the first 100 of its notices.
fn lists_of(
    alloc: Global,
    blobs: &Blobs,
    table: &Clusters,
    ask: &Ask,
    files: List<SentFile>,
    sequel: Option<u64>,
) -> Result<Lists, Memory>
    ensures { IfOk result (λ l. l ≡ record (listed (seen_by blobs.now table.now.facts) ask.now files sequel) { notices = take 100 ask.now.notices }) }
{
    let message = ask.message.cards();
    let private = sends_private(message, &ask.caps);
    let clone = first_clone(message);
    Ok(Lists {
        notices: first_notices(alloc, ask.notices.items())?,
        codes: codes_of(blobs.config(), clone),
        igots: told_names(
            alloc,
            blobs,
            table,
            private,
            asks_names(clone),
            has_pull(message),
        )?,
        gimmes: asked_for(alloc, blobs, table, has_push(message))?,
        files,
        sequel,
    })
}

/// The bytes of a reply with these files.
fn reply_to(
    alloc: Global,
    blobs: &Blobs,
    table: &Clusters,
    ask: &Ask,
    files: List<SentFile>,
    sequel: Option<u64>,
) -> Result<Text, Memory>
    ensures { IfOk result (λ text. text ≡ reply_text (listed (seen_by blobs.now table.now.facts) ask.now files sequel)) }
{
    let lists = lists_of(alloc, blobs, table, ask, files, sequel)?;
    frame(alloc, &lists)
}

impl<D: Disk> Repo<D> {
    /// The files that are due in the reply to a message, and where a clone goes on.
    fn due(&self, ask: &Ask) -> Result<(Vec<Due>, Option<u64>), Memory>
        ensures { IfOk result (λ f. AreDueIn (reply_lists self.now.seen.state self.now.seen.items ask.now) f.0.items f.1) }
    {
        due_to(self.alloc, &self.blobs, ask)
    }

    /// The bytes of the reply to a message with these files.
    fn framed(&self, ask: &Ask, files: List<SentFile>, sequel: Option<u64>) -> Result<Text, Memory>
        ensures { IfOk result (λ text. text ≡ reply_text (record (reply_lists self.now.seen.state self.now.seen.items ask.now) { files = files; sequel = sequel })) }
    {
        reply_to(
            self.alloc,
            &self.blobs,
            self.tables.cluster(),
            ask,
            files,
            sequel,
        )
    }

    /// Reads a file that is due.
    fn read_file(&mut self, due: &Due) -> Result<SentFile, BuildFault>
        ensures file { IfOk result (IsReadFile self.old.seen.state due.now) }
        ensures fault { IfErr result (λ fault. FilesFail fault (due.now.name ∷ []) self.old.seen.state self.new.seen.state.faults) }
        ensures count { OnOk result (self.new.seen.state ≡ self.old.seen.state) }
        ensures state { Leaves self.old.seen.state self.old.seen.state self.new.seen.state }
        ensures items { self.new.seen.items ≡ self.old.seen.items }
        ensures loaded { self.new.seen.loaded ≡ self.old.seen.loaded }
        ensures quiet { Quiet (D.state self.old.disk) (D.state self.new.disk) }
    {
        match self.content(due.name) {
            Ok(bytes) => Ok(SentFile {
                name: due.name,
                private: due.private,
                bytes,
            }),
            Err(fault) => Err(build_fault(due.name, fault)),
        }
    }

    /// Reads the files that are due, in order.
    fn read_files(&mut self, due: &[Due]) -> Result<List<SentFile>, BuildFault>
        ensures files { IfOk result (λ files. AllZip (IsReadFile self.old.seen.state) due.now files) }
        ensures fault { IfErr result (λ fault. FilesFail fault (map (λ d. d.name) due.now) self.old.seen.state self.new.seen.state.faults) }
        ensures count { OnOk result (self.new.seen.state ≡ self.old.seen.state) }
        ensures state { Leaves self.old.seen.state self.old.seen.state self.new.seen.state }
        ensures items { self.new.seen.items ≡ self.old.seen.items }
        ensures loaded { self.new.seen.loaded ≡ self.old.seen.loaded }
        ensures quiet { Quiet (D.state self.old.disk) (D.state self.new.disk) }
    {
        let mut files = Vec::new(self.alloc);
        for file in due {
            match self.read_file(file) {
                Ok(sent) => {
                    if files.push(sent).is_err() {
                        return Err(BuildFault::Memory);
                    }
                }
                Err(fault) => return Err(fault),
            }
        }
        Ok(List::from_vec(files))
    }

    /// Builds the reply to a message from the artifacts that are held and the names that are wanted and announced now. It has the
    /// notices, for a clone the codes, names that are held, for a push names that are wanted or announced, and the files that are
    /// asked for, as many as the budget takes. Private ones go to one who may see them and asks for them. Only the contents of
    /// the reply's files are read, from the disk or from the last that were read. Nothing changes but the disk's count of faults.
    ///
    /// Errors: `Disk` where a call of the disk failed; `Damaged` where the bytes that were read for a file have another name;
    /// `Memory`.
    /// FORMATS: Users, logins and replies
    pub fn build(&mut self, ask: &Ask) -> Result<Reply, BuildFault>
        ensures step { BuildStep self.old.seen.state ask.now result self.new.seen.state }
        ensures items { self.new.seen.items ≡ self.old.seen.items }
        ensures loaded { self.new.seen.loaded ≡ self.old.seen.loaded }
        // It only reads.
        ensures disk { Quiet (D.state self.old.disk) (D.state self.new.disk) }
    {
        self.is_whole();
        let (due, sequel) = match self.due(ask) {
            Ok(due) => due,
            Err(_) => return Err(BuildFault::Memory),
        };
        let files = self.read_files(&due)?;
        match self.framed(ask, files, sequel) {
            Ok(held) => Ok(Reply { held }),
            Err(_) => Err(BuildFault::Memory),
        }
    }
}

/// Why a reply isn't built whose file isn't read.
fn build_fault(name: Name, fault: BlobFault) -> BuildFault
    ensures { result ≡ as_build_fault name fault }
{
    match fault {
        BlobFault::Disk => BuildFault::Disk,
        BlobFault::Damaged { found } => BuildFault::Damaged { name, found },
        _ => BuildFault::Memory,
    }
}
