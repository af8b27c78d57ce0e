//! A store of unversioned files: the disk that it owns, the journal of its records, and the newest entry of each path.
ghost use Rattle.std.specs.Prelude.{◌≡◌, ◌≤◌, ◌⊎◌, ℕ, List, length, Ok, IsSome, IsTrue, IfOk, IfErr, OnOk};
ghost use Rattle.fsl_disk.specs.Disk.{DiskState, IsModelled, Told, Keeps, Quiet, LeavesOnly};
ghost use Rattle.fsl_journal.specs.File.{IsFileOf, FailsAt};
ghost use Rattle.fsl_journal.specs.Journal.{Committed, CommitFailed, WritesGroup, HeldOrSame, IsSpared};
ghost use Rattle.fsl_journal.specs.Log.{BeforeOrAll, IsBetween, StandsBetween, WhereBetween};
ghost use Rattle.fsl_uv.specs.Cards.{message_text};
ghost use Rattle.fsl_uv.specs.Entries.{is_path};
ghost use Rattle.fsl_uv.specs.Reports.{listed};
ghost use Rattle.std.specs.Option.{option_copied};
ghost use Rattle.fsl_order.specs.Maps.{value_at};
ghost use Rattle.fsl_uv.specs.Syncing.{entries_of, offered, answered, given};
ghost use Rattle.fsl_uv.specs.declared.UvLoadFault.TheVariants as load_fault;
ghost use Rattle.fsl_uv.specs.Stores.{IsStore, IsSettled, IsPut, IsOpened, OpenFailed, disk_of, Answers, IsMessageFault, IsApplied};

use crate::applying::{refused, take_all};
use crate::entries::MOST_OF_CONTENT;
use crate::held::Held;
use crate::messages::{answer_to, given_to, read_cards};
use crate::opening::{Opened, open};
use crate::storing::put_in;
use crate::version::{Version, bytes_of};
use crate::{ApplyFault, Entry, Put, UvFault, UvLoadFault, UvMessageFault};
use fsl_disk::Disk;
use fsl_journal::{CommitFault, Journal};
use fsl_record::Config;
use fsl_text::{List, Memory, Text};
use std::alloc::Global;
use std::marker::Model;

/// A store over a disk of its own. Its map is that of its records between any two calls: each path of an entry with the greatest
/// one. Contracts see the disk, all records, how many of them are committed, the Config record and the map.
/// FORMATS: Unversioned files
#[derive(Drop)]
pub struct Store<D: Disk> {
    pub(crate) alloc: Global,
    pub(crate) disk: D,
    pub(crate) journal: Journal,
    pub(crate) config: Config,
    pub(crate) held: Held,
}

impl<D: Disk> Model for Store<D> {
    ghost use Rattle.fsl_uv.specs.Stores as stores;

    ghost Value = { stores.Whole D };

    ghost view = { λ s. record { disk = s.disk; seen = record { log = s.journal; config = s.config; map = s.held } } };

    ghost invariant = { λ s. stores.IsStore (D.state s.disk) (record { log = s.journal; config = s.config; map = s.held }) };
}

impl<D: Disk> Store<D> {
    /// Says what every store meets. This call only proves it to its caller, and does nothing.
    pub fn is_store(&self)
        ensures { IsStore (D.state self.now.disk) self.now.seen }
    {
        let _ = &self.disk;
    }

    /// Opens the store of a disk. It makes the content of the disk stable, reads the file, cuts the bytes behind the closed gate,
    /// and takes the greatest entry of each path. It may be stopped at any moment. On a fault the disk comes back.
    ///
    /// Errors: `Disk` if a call of the disk failed; `NotRepository` with the place at which the file fails to be records;
    /// `NotEntry` with the name of the first artifact whose bytes aren't an entry; `Memory`.
    pub fn load(alloc: Global, disk: D) -> Result<Store<D>, (D, UvLoadFault)>
        ensures opened { IfOk result (λ store. IsOpened (D.state disk) (D.state store.disk) store.seen) }
        ensures fault { IfErr result (λ failed. OpenFailed failed.1 (D.state disk) (D.state failed.0)) }
        ensures keeps { Keeps (D.state disk) (D.state (disk_of result)) }
        ensures refused { Told (D.state disk) (λ held. (at : ℕ) → FailsAt held at → Quiet (D.state disk) (D.state (disk_of result))) }
        ensures harmless { IsModelled (D.state disk) → LeavesOnly (D.state disk) (D.state (disk_of result)) (HeldOrSame (D.state disk)) }
        ensures spared { IsSpared (D.state disk) (D.state (disk_of result)) }
        ensures any_moment { WhereBetween (D.state disk) (λ low high. LeavesOnly (D.state disk) (D.state (disk_of result)) (StandsBetween low high)) }
        ensures between { IfOk result (λ store. WhereBetween (D.state disk) (λ low high. IsBetween low high store.seen.log.records)) }
        ensures durable { IfOk result (λ store. IsModelled (D.state disk) → (c : List ℕ) → (D.state store.disk).images c → IsFileOf c store.seen.log.records) }
        // The fault isn't `NotRepository` if each image stands for records between two lists.
        ensures stays { IfErr result (λ failed. (at : ℕ) → failed.1 ≡ load_fault.NotRepository at → WhereBetween (D.state disk) (λ _ _. ⊥)) }
    {
        let mut disk = disk;
        match open(alloc, &mut disk) {
            Ok(
                Opened {
                    journal,
                    config,
                    held,
                },
            ) => Ok(Store {
                alloc,
                disk,
                journal,
                config,
                held,
            }),
            Err(fault) => Err((disk, fault)),
        }
    }

    /// Returns the Config record of the file.
    pub fn config(&self) -> &Config
        ensures { result.now ≡ self.now.seen.config }
    {
        &self.config
    }

    /// Returns the disk's count of faults when a commit failed, or nothing.
    pub fn stopped(&self) -> Option<u64>
        ensures { result ≡ self.now.seen.log.stopped }
    {
        self.journal.stopped()
    }

    /// Returns the newest entry of a path, deleted or not.
    pub fn find(&self, path: &Text) -> Option<&Version>
        ensures { option_copied result ≡ value_at self.now.seen.map path.now }
    {
        self.held.get(path)
    }

    /// Puts an entry in. It is stored, unless its path has an equal or a greater one. The path is one that an entry may have. It
    /// takes memory for `Stored` alone.
    ///
    /// Errors: `Stopped` after a commit that failed; `TooLarge` for a content above 16,711,680 bytes; `Full` if all contents
    /// would have more than 67,108,864 bytes or there would be more than 65,536 paths; `Memory`. Nothing changes then.
    pub fn put(&mut self, entry: &Entry) -> Result<Put, UvFault>
        requires { IsTrue (is_path entry.now.path) }
        ensures put { IsPut self.old.seen entry.now result self.new.seen }
        ensures disk { self.new.disk ≡ self.old.disk }
    {
        if let Some(faults) = self.journal.stopped() {
            return Err(UvFault::Stopped { faults });
        }
        let _ = entry.moment.ms();
        let size = bytes_of(&entry.bytes).len();
        if size > MOST_OF_CONTENT {
            return Err(UvFault::TooLarge { size: size as u64 });
        }
        put_in(self.alloc, &mut self.journal, &mut self.held, entry)
    }

    /// Puts the appended records on the disk, all of them or none, and returns how many records are committed. It takes no
    /// memory.
    ///
    /// Errors: `Stopped` with the disk's count of faults when an earlier commit failed; `Disk` if a call of the disk failed,
    /// after which the store is stopped.
    pub fn commit(&mut self) -> Result<u64, CommitFault>
        ensures ok { IfOk result (λ count. Committed count self.old.seen.log self.new.seen.log (D.state self.old.disk) (D.state self.new.disk)) }
        ensures fault { IfErr result (λ fault. CommitFailed fault self.old.seen.log self.new.seen.log (D.state self.old.disk) (D.state self.new.disk)) }
        ensures map { self.new.seen.map ≡ self.old.seen.map }
        ensures config { self.new.seen.config ≡ self.old.seen.config }
        ensures keeps { Keeps (D.state self.old.disk) (D.state self.new.disk) }
        ensures later { (D.state self.old.disk).faults ≤ (D.state self.new.disk).faults }
        // With nothing to write it calls no device, and a stopped store never does.
        ensures idle { IsSome self.old.seen.log.stopped ⊎ (self.old.seen.log.stable ≡ length self.old.seen.log.records) → self.new.disk ≡ self.old.disk }
        ensures nothing { IsSettled self.old.seen.log → result ≡ Ok (length self.old.seen.log.records) }
        // At each moment since its start each image stands for the committed records or for all, and after Ok for all.
        ensures any_moment { IsModelled (D.state self.old.disk) → LeavesOnly (D.state self.old.disk) (D.state self.new.disk) (BeforeOrAll self.old.seen.log) }
        ensures durable { OnOk result (IsModelled (D.state self.old.disk) → (c : List ℕ) → (D.state self.new.disk).images c → IsFileOf c self.old.seen.log.records) }
        // The appended records are one group in a file of version 2, byte for byte, with a new closed gate behind it.
        ensures written { OnOk result (WritesGroup self.old.seen.log (D.state self.old.disk) (D.state self.new.disk)) }
    {
        self.journal.commit(&mut self.disk)
    }

    /// Returns the newest entries, by path, deleted ones included. `Memory` is the only error.
    pub fn entries(&self) -> Result<List<Entry>, Memory>
        ensures { IfOk result (λ entries. entries ≡ entries_of self.now.seen.map) }
    {
        self.held.entries(self.alloc)
    }

    /// Writes a line `MOMENT HASH SIZE PATH` for each path that isn't deleted, by path. `Memory` is the only error.
    pub fn list(&self) -> Result<Text, Memory>
        ensures { IfOk result (λ text. text ≡ listed self.now.seen.map) }
    {
        self.held.list(self.alloc)
    }

    /// Writes a line `uvigot PATH MOMENT HASH SIZE` for each path, by path. `Memory` is the only error.
    pub fn offer(&self) -> Result<Text, Memory>
        ensures { IfOk result (λ text. text ≡ message_text (offered self.now.seen.map)) }
    {
        self.held.offer(self.alloc)
    }

    /// Writes the answer to the offers of a message, by path. It has `uvgimme PATH` if the offer is greater by moment and hash or
    /// the path isn't here. It has the file if the entry here is greater by these or the path isn't offered. Of several offers of
    /// a path the first counts.
    ///
    /// Errors: `Line` at the first line that is none of the three cards, or whose content is short or too large; `NameWrong` at
    /// the first content with another name; `Memory`.
    pub fn answer(&self, message: &[u8]) -> Result<Text, UvMessageFault>
        ensures ok { IfOk result (Answers (answered self.now.seen.map) message.now) }
        ensures fault { IfErr result (IsMessageFault message.now) }
    {
        let cards = read_cards(self.alloc, message)?;
        Ok(answer_to(self.alloc, &self.held, cards.items())?)
    }

    /// Writes a file for each `uvgimme` of a path that is here, in order.
    ///
    /// Errors: those of `answer`.
    pub fn give(&self, message: &[u8]) -> Result<Text, UvMessageFault>
        ensures ok { IfOk result (Answers (given self.now.seen.map) message.now) }
        ensures fault { IfErr result (IsMessageFault message.now) }
    {
        let cards = read_cards(self.alloc, message)?;
        Ok(given_to(self.alloc, &self.held, cards.items())?)
    }

    /// Puts all files of a message in, or changes nothing, and returns how many were stored.
    ///
    /// Errors: `Stopped` after a commit that failed; `Line` and `NameWrong` as for `answer`; `Full` if the map with them is above
    /// a limit of `put`; `Memory`.
    pub fn apply(&mut self, message: &[u8]) -> Result<u64, ApplyFault>
        ensures applied { IsApplied self.old.seen message.now result self.new.seen }
        ensures disk { self.new.disk ≡ self.old.disk }
    {
        if let Some(faults) = self.journal.stopped() {
            return Err(ApplyFault::Stopped { faults });
        }
        match read_cards(self.alloc, message) {
            Ok(cards) => take_all(self.alloc, &mut self.journal, &mut self.held, cards),
            Err(fault) => Err(refused(&fault)),
        }
    }

    /// Gives the disk back.
    pub fn close(self) -> D
        ensures { result ≡ self.disk }
    {
        let Store {
            alloc: _,
            disk,
            journal,
            config,
            held,
        } = self;
        drop(journal);
        drop(config);
        drop(held);
        disk
    }
}
