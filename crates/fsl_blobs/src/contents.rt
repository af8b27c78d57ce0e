//! Reads contents through the journal, and keeps the last ones in memory. The last ones are kept in memory.
ghost use Rattle.std.specs.Prelude.{◌≡◌, ◌↔◌, ◌≤◌, ℕ, List, length, None, Err, IfOk, IfErr, IfSome, OnOk, Contains, MatchOption};
ghost use Rattle.std.specs.FinMap as map_of;
ghost use Rattle.fsl_disk.specs.Disk.{IsModelled, Quiet};
ghost use Rattle.fsl_journal.specs.Journal.{Belongs};
ghost use Rattle.fsl_blobs.specs.Fold.{contents};
ghost use Rattle.fsl_blobs.specs.Seen.{AreTrue, IsBounded};
ghost use Rattle.fsl_blobs.specs.Kept.{held_at, IsSpotOf};
ghost use Rattle.fsl_blobs.specs.Content.{IsOf, IsContentOf, ContentFailed, IsStored, AwaitsCommit, IsPendingAt, IsReadOf, ReadFailed, KeepsOrHas};
ghost use Rattle.fsl_blobs.specs.declared.BlobFault.TheVariants.{Absent as AbsentFault, Memory as MemoryFault};

use crate::blobs::HeldArtifact;
use crate::{BlobFault, Blobs};
use fsl_disk::Disk;
use fsl_journal::{BytesFault, Journal};
use fsl_name::Name;
use fsl_text::{Memory, Text};
use lru::LruCache;
use std::alloc::Global;
use std::collections::BTreeMap;

/// A content of more bytes isn't kept in memory.
const MOST_KEPT: usize = 1_048_576;

/// The place of a record, and the place and the size of its content in the file.
#[derive(Clone, Copy)]
pub(crate) struct Spot {
    pub(crate) place: u64,
    pub(crate) at: u64,
    pub(crate) size: u64,
}

/// Finds the content of a held artifact in the file.
fn spot_of(held: &BTreeMap<Name, HeldArtifact>, name: Name) -> Option<Spot>
    ensures { MatchOption result (held_at held.now.entries name ≡ None) (λ s. IsSpotOf (held_at held.now.entries name) s) }
{
    match held.get(&name) {
        Some(artifact) => Some(Spot {
            place: artifact.place,
            at: artifact.at,
            size: artifact.size,
        }),
        None => None,
    }
}

/// Says that no more contents are kept than there may be, as the type ensures.
fn know_bound(cache: &LruCache<u64, Text>)
    ensures { length cache.now.entries ≤ cache.now.cap }
{
    let _ = cache.len();
}

/// Returns a copy of the content that is kept for a record, if one is. It becomes the last one that was asked for.
fn recalled(
    alloc: Global,
    cache: &mut LruCache<u64, Text>,
    place: u64,
) -> Result<Option<Text>, Memory>
    ensures found { IfOk result (λ found. IfSome found (λ text. Contains cache.old.entries (place, text))) }
    ensures kept { (e : ℕ × List ℕ) → Contains cache.new.entries e → Contains cache.old.entries e }
    ensures few { length cache.new.entries ≤ cache.new.cap }
    ensures cap { cache.new.cap ≡ cache.old.cap }
{
    cache.promote(&place);
    know_bound(cache);
    match cache.peek(&place) {
        Some(text) => Ok(Some(Text::of(alloc, text.bytes())?)),
        None => Ok(None),
    }
}

/// Keeps a copy of the content of a record, if it isn't large and there is memory for it.
fn keep(alloc: Global, cache: &mut LruCache<u64, Text>, place: u64, text: &Text)
    ensures kept { KeepsOrHas cache.old.entries place text.now cache.new.entries }
    ensures cap { cache.new.cap ≡ cache.old.cap }
{
    if text.bytes().len() > MOST_KEPT {
        return;
    }
    if let Ok(copy) = Text::of(alloc, text.bytes()) {
        drop(cache.put(place, copy));
    }
}

/// Reads a content through the journal, and tests its name.
fn read_named<D: Disk>(
    alloc: Global,
    journal: &Journal,
    disk: &mut D,
    spot: Spot,
    name: Name,
) -> Result<Text, BlobFault>
    requires belongs { Belongs journal.now (D.state disk.old) }
    requires stored { IsStored journal.now spot.at spot.size name }
    ensures read { IfOk result (λ text. IsReadOf (D.state disk.old) journal.now spot.at spot.size name text) }
    ensures later { (D.state disk.old).faults ≤ (D.state disk.new).faults }
    ensures fault { IfErr result (λ fault. ReadFailed fault name spot.size (D.state disk.old) (D.state disk.new)) }
    ensures count { OnOk result ((D.state disk.new).faults ≡ (D.state disk.old).faults) }
    ensures memory { IsPendingAt journal.now spot.at spot.size name → (disk.new ≡ disk.old) × IfErr result (λ fault. fault ≡ MemoryFault) }
    ensures quiet { Quiet (D.state disk.old) (D.state disk.new) }
    ensures belongs { Belongs journal.now (D.state disk.new) }
{
    match journal.bytes(alloc, disk, spot.at, spot.size) {
        Ok(text) => {
            let found = Name::of(text.bytes());
            if found == name {
                Ok(text)
            } else {
                Err(BlobFault::Damaged { found })
            }
        }
        Err(BytesFault::Disk) => Err(BlobFault::Disk),
        Err(BytesFault::Memory) => Err(BlobFault::Memory),
    }
}

impl Blobs {
    /// Reads the content of a held artifact, public or private. It reads through the journal, whose records these are, and tests
    /// the content's name. The last contents that were read are kept in memory, and then no device is called. Nor is one for a
    /// content that isn't committed.
    ///
    /// Over a disk that records its contents and meets the disk model these are the held bytes. Over every other disk they are
    /// bytes of the same name and size.
    ///
    /// Errors: `Absent` if the name isn't held; `Disk` if a call of the disk failed; `Damaged` with the name of the bytes that
    /// were read, if it is another one; `Memory`.
    /// FORMATS: The repository file
    pub fn content<D: Disk>(
        &mut self,
        alloc: Global,
        journal: &Journal,
        disk: &mut D,
        name: Name,
    ) -> Result<Text, BlobFault>
        requires same { IsOf journal.now self.old }
        requires belongs { Belongs journal.now (D.state disk.old) }

        ensures bytes { IfOk result (λ text. IsContentOf (D.state disk.old) self.old name text) }
        ensures absent { (result ≡ Err AbsentFault) ↔ (map_of.get (contents self.old.records).held name ≡ None) }
        ensures later { (D.state disk.old).faults ≤ (D.state disk.new).faults }
        ensures fault { IfErr result (λ fault. ContentFailed fault self.old name (D.state disk.old) (D.state disk.new)) }
        ensures count { OnOk result ((D.state disk.new).faults ≡ (D.state disk.old).faults) }
        ensures value { self.new ≡ record self.old { cached = self.new.cached } }
        ensures kept { IsModelled (D.state disk.old) → AreTrue self.old → AreTrue self.new }
        // At most 64 contents are kept in memory, and none of more than 2^20 bytes.
        ensures bounded { IsBounded self.new.cached }
        // What isn't committed comes from memory.
        ensures memory { AwaitsCommit journal.now self.old name → (disk.new ≡ disk.old) × IfErr result (λ fault. fault ≡ MemoryFault) }
        // It only reads.
        ensures quiet { Quiet (D.state disk.old) (D.state disk.new) }
        ensures belongs { Belongs journal.now (D.state disk.new) }
    {
        let Some(spot) = spot_of(&self.held, name) else {
            return Err(BlobFault::Absent);
        };
        match recalled(alloc, &mut self.cache, spot.place) {
            Ok(Some(text)) => return Ok(text),
            Ok(None) => {}
            Err(_) => return Err(BlobFault::Memory),
        }
        match read_named(alloc, journal, disk, spot, name) {
            Ok(text) => {
                keep(alloc, &mut self.cache, spot.place, &text);
                know_bound(&self.cache);
                Ok(text)
            }
            Err(fault) => Err(fault),
        }
    }
}
