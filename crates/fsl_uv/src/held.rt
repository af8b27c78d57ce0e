//! Holds the newest version of each path.
ghost use Rattle.std.specs.Prelude.{◌≡◌, ◌+◌, ◌<◌, ◌≤◌, ◌^◌, [], length, not, is_some, true, nat_lt, ◌||◌, OnOk, OnErr, IfOk};
ghost use Rattle.std.specs.Option.{option_copied};
ghost use Rattle.std.specs.Map.{remove_entry, keys_of};
ghost use Rattle.fsl_uv.specs.Reading.{offers_seen, first_offers};
ghost use Rattle.std.specs.BTreeMap.{insert_entry, is_at};
ghost use Rattle.fsl_order.specs.Names.{bytes_cmp};
ghost use Rattle.fsl_order.specs.Maps.{value_at};
ghost use Rattle.fsl_uv.specs.Cards.{message_text};
ghost use Rattle.fsl_uv.specs.Maps.{total, most_bytes, most_paths};
ghost use Rattle.fsl_uv.specs.Syncing.{is_kept, with_entry, entry_of, entries_of, offered};
ghost use Rattle.fsl_uv.specs.Holding.{size_at, new_paths, IsPlace};
ghost use Rattle.fsl_uv.specs.Laws.{Rises};
ghost use Rattle.fsl_uv.specs.Reports.{listed};

use crate::Entry;
use crate::cards::{add_igot, add_line};
use crate::entries::hash_of;
use crate::messages::{Offer, note};
use crate::version::{Version, bytes_of};
use fsl_text::{List, Memory, Text};
use std::alloc::Global;
use std::collections::BTreeMap;
use std::marker::Model;

/// The bytes that all contents stay below. No memory holds so many.
const BELOW: u64 = 1 << 63;

/// The most bytes of all contents.
const MOST_BYTES: u64 = 1 << 26;

/// The most paths, deleted ones included.
const MOST_PATHS: u64 = 65_536;

/// The place of an entry.
#[derive(Clone, Copy)]
pub(crate) enum Place {
    /// The entry goes nowhere: its path has an equal or a greater one.
    Kept,
    /// The entry goes nowhere: with it there are so many bytes and paths, which is too many.
    Over { bytes: u64, count: u64 },
    /// The entry goes to its path.
    Free,
}

/// Returns whether so many bytes and paths are too many.
pub(crate) fn is_over(bytes: u64, count: u64) -> bool
    ensures { result ≡ (nat_lt most_bytes bytes || nat_lt most_paths count) }
{
    bytes > MOST_BYTES || count > MOST_PATHS
}

/// The version of each path, by path, and the bytes of all contents. A look-up and a change take time logarithmic in the number
/// of paths.
#[derive(Drop)]
pub(crate) struct Held {
    map: BTreeMap<Text, Version>,
    bytes: u64,
}

impl Model for Held {
    ghost use Rattle.std.specs.Prelude.{List, ℕ};
    ghost use Rattle.fsl_uv.specs.Entries as entries;
    ghost use Rattle.fsl_uv.specs.Holding.{IsHeld};

    ghost Value = { List (List ℕ × entries.Version) };

    ghost view = { λ h. h.map.entries };

    ghost invariant = { λ h. IsHeld h.map.entries h.bytes };
}

impl Held {
    /// Returns no paths.
    pub(crate) fn new(alloc: Global) -> Held
        ensures { result ≡ [] }
    {
        Held {
            map: BTreeMap::new(alloc),
            bytes: 0,
        }
    }

    /// Returns the version of a path.
    pub(crate) fn get(&self, path: &Text) -> Option<&Version>
        ensures { option_copied result ≡ value_at self.now path.now }
    {
        self.map.get(path)
    }

    /// Returns the bytes of all contents, which are below 2^63.
    pub(crate) fn bytes(&self) -> u64
        ensures bytes { result ≡ total self.now }
        ensures fits { result < 2 ^ 63 }
    {
        self.bytes
    }

    /// Returns the number of paths.
    pub(crate) fn count(&self) -> u64
        ensures count { result ≡ length self.now }
        ensures fits { result < 2 ^ 63 }
        ensures rises { Rises self.now }
    {
        self.map.len() as u64
    }

    /// Returns the bytes of the content of a path, 0 if it isn't there.
    pub(crate) fn size_of(&self, path: &Text) -> u64
        ensures size { result ≡ size_at self.now path.now }
        ensures within { result ≤ total self.now }
    {
        match self.map.get(path) {
            Some(version) => version.bytes().len() as u64,
            None => 0,
        }
    }

    /// Returns the bytes of all contents once that of a path has this size.
    pub(crate) fn bytes_with(&self, path: &Text, size: usize) -> u64
        requires { size < 2 ^ 63 }
        ensures { result + size_at self.now path.now ≡ total self.now + size }
    {
        self.bytes - self.size_of(path) + size as u64
    }

    /// Returns the number of paths once a path is there.
    pub(crate) fn count_with(&self, path: &Text) -> u64
        ensures { result ≡ length self.now + new_paths self.now path.now }
    {
        if self.map.contains_key(path) {
            self.count()
        } else {
            self.count() + 1
        }
    }

    /// Returns whether the path of an entry has an equal or a greater one.
    pub(crate) fn keeps(&self, entry: &Entry) -> bool
        ensures kept { result ≡ is_kept self.now entry.now }
        ensures rises { Rises self.now }
    {
        let hash = hash_of(&entry.bytes);
        match self.map.get(&entry.path) {
            Some(held) => !held.order_with(entry.moment, &hash, &entry.bytes).is_lt(),
            None => false,
        }
    }

    /// Finds the place of an entry whose content isn't too large. Takes no memory.
    pub(crate) fn place_for(&self, entry: &Entry) -> Place
        ensures { IsPlace self.now entry.now result }
    {
        if self.keeps(entry) {
            return Place::Kept;
        }
        let bytes = self.bytes_with(&entry.path, bytes_of(&entry.bytes).len());
        let count = self.count_with(&entry.path);
        if is_over(bytes, count) {
            Place::Over { bytes, count }
        } else {
            Place::Free
        }
    }

    /// Gives a path a version, and returns the one that it had. If out of memory, everything stays.
    pub(crate) fn set(&mut self, path: Text, version: Version) -> Result<Option<Version>, Memory>
        ensures before { IfOk result (λ before. before ≡ value_at self.old path) }
        ensures ok { OnOk result (self.new ≡ insert_entry bytes_cmp self.old path version) }
        ensures err { OnErr result (self.new ≡ self.old) }
        ensures small { total self.old < 2 ^ 63 }
    {
        let bytes = self.bytes_with(&path, version.bytes().len());
        if bytes >= BELOW {
            return Err(Memory);
        }
        match self.map.insert(path, version) {
            Ok(before) => {
                self.bytes = bytes;
                Ok(before)
            }
            Err(_) => Err(Memory),
        }
    }

    /// Gives a path that is there a version, with which all contents stay below 2^63. It takes no memory.
    pub(crate) fn put_back(&mut self, path: Text, version: Version)
        requires there { is_some (value_at self.old path) ≡ true }
        requires small { total (insert_entry bytes_cmp self.old path version) < 2 ^ 63 }
        ensures { self.new ≡ insert_entry bytes_cmp self.old path version }
    {
        let bytes = self.bytes_with(&path, version.bytes().len());
        match self.map.insert(path, version) {
            Ok(before) => {
                drop(before);
                self.bytes = bytes;
            }
            Err(_) => unreachable!(),
        }
    }

    /// Puts an entry in, if its path has no equal or greater one, and returns whether it did. If out of memory, everything stays.
    pub(crate) fn put(&mut self, entry: Entry) -> Result<bool, Memory>
        ensures stored { IfOk result (λ stored. stored ≡ not (is_kept self.old entry)) }
        ensures ok { OnOk result (self.new ≡ with_entry self.old entry) }
        ensures err { OnErr result (self.new ≡ self.old) }
    {
        if self.keeps(&entry) {
            return Ok(false);
        }
        let Entry {
            path,
            moment,
            bytes,
        } = entry;
        match self.set(path, Version::of(moment, bytes)) {
            Ok(before) => {
                drop(before);
                Ok(true)
            }
            Err(_) => Err(Memory),
        }
    }

    /// Takes a path out. It takes no memory.
    pub(crate) fn unset(&mut self, path: &Text)
        ensures { self.new ≡ remove_entry (is_at (bytes_cmp path.now)) self.old }
    {
        let bytes = self.bytes - self.size_of(path);
        drop(self.map.remove(path));
        self.bytes = bytes;
    }

    /// Returns the newest entry of each path, by path.
    pub(crate) fn entries(&self, alloc: Global) -> Result<List<Entry>, Memory>
        ensures { IfOk result (λ entries. entries ≡ entries_of self.now) }
    {
        let mut entries = List::new(alloc);
        for (path, version) in &self.map {
            let entry = entry_at(alloc, path, version)?;
            entries.append(entry)?;
        }
        Ok(entries)
    }

    /// Returns each path, without an offer.
    pub(crate) fn paths(&self, alloc: Global) -> Result<BTreeMap<Text, Option<Offer>>, Memory>
        ensures { IfOk result (λ paths. offers_seen paths.entries ≡ first_offers (keys_of self.now) []) }
    {
        let mut paths = BTreeMap::new(alloc);
        for (path, _) in &self.map {
            note(alloc, &mut paths, path, None)?;
        }
        Ok(paths)
    }

    /// Writes a `uvigot` card for each path, by path.
    pub(crate) fn offer(&self, alloc: Global) -> Result<Text, Memory>
        ensures { IfOk result (λ text. text ≡ message_text (offered self.now)) }
    {
        let mut text = Text::empty(alloc);
        for (path, version) in &self.map {
            add_igot(alloc, &mut text, path, version)?;
        }
        Ok(text)
    }

    /// Writes a line `MOMENT HASH SIZE PATH` for each path that isn't deleted, by path.
    pub(crate) fn list(&self, alloc: Global) -> Result<Text, Memory>
        ensures { IfOk result (λ text. text ≡ listed self.now) }
    {
        let mut text = Text::empty(alloc);
        for (path, version) in &self.map {
            add_line(alloc, &mut text, path, version)?;
        }
        Ok(text)
    }
}

/// Makes the entry of a path and its version.
pub(crate) fn entry_at(alloc: Global, path: &Text, version: &Version) -> Result<Entry, Memory>
    ensures { IfOk result (λ e. e ≡ entry_of path.now version.now) }
{
    let path = Text::of(alloc, path.bytes())?;
    let bytes = copied(alloc, version.held())?;
    Ok(Entry {
        path,
        moment: version.moment(),
        bytes,
    })
}

/// Copies a content, or none.
pub(crate) fn copied(alloc: Global, bytes: &Option<Text>) -> Result<Option<Text>, Memory>
    ensures { IfOk result (λ copy. copy ≡ bytes.now) }
{
    match bytes {
        Some(held) => Ok(Some(Text::of(alloc, held.bytes())?)),
        None => Ok(None),
    }
}
