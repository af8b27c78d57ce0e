//! A journal counts the records of a repository, and says how many of them are committed.
ghost use Rattle.std.specs.Prelude.{◌≡◌, ◌⊎◌, IsSome, ◌++◌, ◌∷◌, [], ◌<◌, ◌≤◌, ◌+◌, ◌-◌, ◌^◌, List, ℕ, None, Some, Ok, length, take, IfOk, IfErr, OnOk, OnErr, false};
ghost use Rattle.fsl_disk.specs.Disk.{IsModelled, Keeps, LeavesOnly, Quiet};
ghost use Rattle.fsl_record.specs.Records.{AreRecords, IsWritable, is_config};
ghost use Rattle.fsl_journal.specs.File.{IsFileOf};
ghost use Rattle.fsl_journal.specs.Journal.{Belongs, Unspoilt, BytesFailed, Committed, CommitFailed, WritesGroup};
ghost use Rattle.fsl_journal.specs.Log.{Log, BeforeOrAll};
ghost use Rattle.fsl_journal.specs.Places.{HasContent, HasAppended, HasPending, IsAppendedText, IsPendingText, next_place, with_record, without_last};
ghost use Rattle.fsl_journal.specs.Reading.{records_of, places_of, resumed_log};
ghost use Rattle.fsl_journal.specs.declared.BytesFault.TheVariants.{Memory as MemoryFault};

use crate::commit::{carried_mark, write_commit};
use crate::contents::{copy_part, read_if_there, read_text};
use crate::found::Found;
use crate::names::know_names;
use crate::places::write_behind;
use crate::{BytesFault, CommitFault};
use fsl_disk::Disk;
use fsl_record::Record;
use fsl_text::{Memory, Text};
use std::alloc::Global;
use std::marker::Model;
use std::snapshot::Snapshot;

/// The journal of a repository. It knows how many records there are and how many of them are committed, and keeps the
/// bytes of those that aren't. Contracts see the records too.
///
/// `commit` takes the disk that `load` took, and nothing else may write to it in between.
#[derive(Drop)]
pub struct Journal {
    // no bytes: clauses alone see them, and where their contents begin in the file
    records: Vec<Snapshot<Record>>,
    places: Vec<Snapshot<u64>>,
    // the bytes of the records that aren't committed
    pending: Text,
    // where each of these records begins in them
    starts: Vec<usize>,
    stable: u64,
    // the byte of the header that tells the file's version
    mark: u8,
    place: u64,
    stopped: Option<u64>,
}

impl Model for Journal {
    ghost use Rattle.fsl_journal.specs.Log.{Log};

    ghost Value = { Log };

    ghost use Rattle.fsl_journal.specs.Inside.{log_of, IsSound};

    ghost view = { log_of };

    ghost invariant = { IsSound };
}

impl Journal {
    /// Returns how many records there are: loaded, committed and appended.
    pub fn count(&self) -> u64
        ensures { result ≡ length self.now.records }
    {
        self.records.len() as u64
    }

    /// Returns how many of them are committed.
    pub fn stable(&self) -> u64
        ensures { result ≡ self.now.stable }
    {
        self.stable
    }

    /// Returns the disk's count of faults when a commit failed, or nothing.
    pub fn stopped(&self) -> Option<u64>
        ensures { result ≡ self.now.stopped }
    {
        self.stopped
    }

    /// A journal whose records are all committed: those that were found in a file, whose closed gate stands where the last
    /// group ends.
    pub(crate) fn resumed(alloc: Global, found: Found) -> Journal
        requires fit { AreRecords (records_of found) }
        requires place { found.place < 2 ^ 63 }
        requires header { 15 ≤ found.place }
        requires as_many { length (places_of found) ≡ length (records_of found) }
        requires inside { (at : ℕ) (content : List ℕ) → HasContent (records_of found) (places_of found) at content → (at + length content ≤ found.place) × (15 ≤ at) }
        ensures { result ≡ resumed_log found }
    {
        let Found {
            records,
            places,
            mark,
            place,
        } = found;
        let stable = records.len() as u64;
        Journal {
            records,
            places,
            pending: Text::empty(alloc),
            starts: Vec::new(alloc),
            stable,
            mark,
            place,
            stopped: None,
        }
    }

    /// Adds a record, in memory alone, and makes all the room that `commit` needs. Answers the place in the file where the
    /// content of a Blob will begin, and 0 for another record. It is not for a stopped journal, nor for a Config.
    ///
    /// Errors: `Memory`, after which the journal has the records that it had.
    pub fn append(&mut self, entry: &Record) -> Result<u64, Memory>
        requires runs { self.old.stopped ≡ None }
        requires place { is_config entry.now ≡ false }
        requires fit { IsWritable entry.now }
        ensures at { IfOk result (λ at. at ≡ next_place self.old entry.now) }
        ensures ok { IfOk result (λ at. self.new ≡ with_record self.old entry.now at) }
        ensures err { OnErr result (self.new ≡ self.old) }
        ensures fit { AreRecords self.new.records }
    {
        self.records.reserve(1)?;
        self.places.reserve(1)?;
        self.starts.reserve(1)?;
        let start = self.pending.bytes().len();
        know_names(entry);
        let at = write_behind(entry, self.place + 9, &mut self.pending)?;
        self.starts.push(start).unwrap();
        self.places.push(Snapshot::of(&at)).unwrap();
        self.records.push(Snapshot::of(entry)).unwrap();
        Ok(at)
    }

    /// Takes the last appended record out again. It takes no memory, and is for a journal that isn't stopped and has a
    /// record that isn't committed.
    pub fn take_back(&mut self)
        requires runs { self.old.stopped ≡ None }
        requires appended { self.old.stable < length self.old.records }
        ensures value { self.new ≡ without_last self.old }
        ensures fit { AreRecords self.new.records }
    {
        let start = self.starts.pop().unwrap();
        self.pending.truncate(start);
        let _ = self.places.pop();
        let _ = self.records.pop();
    }

    /// Puts the appended records on the disk, all of them or none, and answers how many records are committed. It takes
    /// no memory. Where something is appended it first carries a file of version 1 over to version 2. The disk is the one
    /// that this journal was loaded from, as this journal left it.
    ///
    /// Errors: `Stopped` with the disk's count of faults when an earlier commit failed; `Disk` where a call of the disk
    /// failed, after which the journal is stopped.
    ///
    /// FORMATS: The repository file
    pub fn commit<D: Disk>(&mut self, disk: &mut D) -> Result<u64, CommitFault>
        requires { Belongs self.old (D.state disk.old) }

        ensures belongs { Belongs self.new (D.state disk.new) }
        ensures ok { IfOk result (λ count. Committed count self.old self.new (D.state disk.old) (D.state disk.new)) }
        ensures fault { IfErr result (λ fault. CommitFailed fault self.old self.new (D.state disk.old) (D.state disk.new)) }
        ensures keeps { Keeps (D.state disk.old) (D.state disk.new) }
        ensures later { (D.state disk.old).faults ≤ (D.state disk.new).faults }
        // With nothing to write it calls no device, and a stopped journal never does.
        ensures idle { IsSome self.old.stopped ⊎ (self.old.stable ≡ length self.old.records) → disk.new ≡ disk.old }

        ensures nothing { self.old.stopped ≡ None → self.old.stable ≡ length self.old.records → result ≡ Ok (length self.old.records) }

        // At each moment since its start each image stands for the committed records or for all.
        ensures any_moment { IsModelled (D.state disk.old) → LeavesOnly (D.state disk.old) (D.state disk.new) (BeforeOrAll self.old) }
        // After Ok each stands for all.
        ensures durable { OnOk result (IsModelled (D.state disk.old) → (c : List ℕ) → (D.state disk.new).images c → IsFileOf c self.old.records) }
        // The appended records are one group in a file of version 2, byte for byte, with a new closed gate behind it.
        ensures written { OnOk result (WritesGroup self.old (D.state disk.old) (D.state disk.new)) }
    {
        if let Some(faults) = self.stopped {
            return Err(CommitFault::Stopped { faults });
        }
        let count = self.count();
        if self.stable == count {
            return Ok(count);
        }
        let bytes = self.pending.bytes();
        let size = bytes.len() as u64;
        match write_commit(disk, self.mark, self.place, bytes) {
            Ok(()) => {
                self.pending.truncate(0);
                self.starts.clear();
                self.mark = carried_mark(self.mark);
                self.place += size + 9;
                self.stable = count;
                Ok(count)
            }
            Err(_) => {
                self.stopped = Some(disk.faults());
                Err(CommitFault::Disk)
            }
        }
    }

    /// Reads the content of this size that begins at this place, as `append` or `load` answered it. One that isn't committed
    /// comes from memory, also after a commit that failed. The disk is the one that this journal was loaded from, as this
    /// journal left it.
    ///
    /// Over a disk that tells its contents and meets the disk model these are the appended bytes. Over another disk they
    /// are as many bytes as it gives.
    ///
    /// Errors: `Disk` where a call of the disk failed; `Memory`, which also says that a disk that doesn't meet the disk
    /// model lost these bytes in a commit that failed.
    pub fn bytes<D: Disk>(
        &self,
        alloc: Global,
        disk: &mut D,
        at: u64,
        size: u64,
    ) -> Result<Text, BytesFault>
        requires belongs { Belongs self.now (D.state disk.old) }
        requires appended { HasAppended self.now at size }

        ensures sized { IfOk result (λ text. length text ≡ size) }
        ensures held { IfOk result (λ text. Unspoilt self.now (D.state disk.old) (λ _. IsAppendedText self.now at size text)) }
        ensures pending { IfOk result (IsPendingText self.now at size) }
        ensures count { OnOk result ((D.state disk.new).faults ≡ (D.state disk.old).faults) }
        ensures later { (D.state disk.old).faults ≤ (D.state disk.new).faults }
        ensures fault { IfErr result (λ fault. BytesFailed fault (D.state disk.old) (D.state disk.new)) }
        // What isn't committed comes from memory.
        ensures memory { HasPending self.now at size → (disk.new ≡ disk.old) × IfErr result (λ fault. fault ≡ MemoryFault) }
        // It only reads.
        ensures quiet { Quiet (D.state disk.old) (D.state disk.new) }
        ensures belongs { Belongs self.now (D.state disk.new) }
    {
        if at > self.place {
            let start = (at - self.place - 9) as usize;
            return copy_part(alloc, self.pending.bytes(), start, size as usize);
        }
        if self.stopped.is_some() {
            return read_if_there(alloc, disk, at, size);
        }
        read_text(alloc, disk, at, size)
    }
}
