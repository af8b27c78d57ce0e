//! Holds the artifacts, and changes them by records.
ghost use Rattle.std.specs.Prelude.{◌≡◌, ◌<◌, ◌++◌, ◌∷◌, [], length, slice_get, Some, IfOk, OnOk, OnErr, IsTrue};
ghost use Rattle.std.specs.FinSet as set;
ghost use Rattle.std.specs.List.{AllByRecursion};
ghost use Rattle.fsl_record.specs.Records.{AreRecords, IsWritable, is_config};
ghost use Rattle.fsl_record.specs.declared.Record.TheVariants as record_of;
ghost use Rattle.lru.specs.LruCache.{lru_cache};
ghost use Rattle.fsl_blobs.specs.Seen.{applied};

use crate::changes::change;
use crate::order::Order;
use crate::sizes::total_with;
use fsl_name::Name;
use fsl_record::{Config, Receipt, Record};
use fsl_text::{List, Memory, Text};
use lru::LruCache;
use std::alloc::Global;
use std::collections::{BTreeMap, BTreeSet};
use std::marker::Model;
use std::num::NonZeroUsize;
use std::snapshot::Snapshot;

/// The most contents that are kept in memory.
const MOST_CACHED: usize = 64;

/// A held artifact. Its bytes are in the file.
#[derive(Drop)]
pub(crate) struct HeldArtifact {
    /// The place of the record that added it, counted from 1.
    pub(crate) place: u64,
    pub(crate) private: bool,
    /// The place in the file at which its content begins.
    pub(crate) at: u64,
    /// The number of its bytes.
    pub(crate) size: u64,
    pub(crate) receipt: Option<Receipt>,
    // no bytes: clauses alone see them
    pub(crate) bytes: Snapshot<Text>,
}

/// The held artifacts, the shunned and the announced names, and the configuration. Contents stay in the file, and the last ones
/// that were read are kept in memory too. Contracts see the records that were read, in order, the place in the file at which the
/// content of each begins, the announced names, and the contents in memory. All else follows from these records.
///
/// Announced names are neither held nor shunned.
#[derive(Drop)]
pub struct Blobs {
    pub(crate) config: Config,
    pub(crate) held: BTreeMap<Name, HeldArtifact>,
    pub(crate) shunned: BTreeSet<Name>,
    pub(crate) announced: BTreeSet<Name>,
    /// The sum of the held sizes.
    pub(crate) total: u128,
    pub(crate) order: Order,
    /// Contents by the places of their records.
    pub(crate) cache: LruCache<u64, Text>,
    // no bytes: clauses alone see them
    pub(crate) records: Vec<Snapshot<Record>>,
    pub(crate) starts: Vec<Snapshot<u64>>,
}

impl Model for Blobs {
    ghost use Rattle.std.specs.Prelude.{map};
    ghost use Rattle.std.specs.Coded.{codes, coded_list, coded_ℕ};
    ghost use Rattle.std.specs.FinSet as set;
    ghost use Rattle.fsl_order.specs.Names.{bytes_cmp};
    ghost use Rattle.fsl_blobs.specs.Seen.{Seen};

    ghost Value = { Seen };

    ghost coded = { Prim.hlevel (codes, set.code {R = bytes_cmp} (coded_list coded_ℕ)) };

    ghost use Rattle.fsl_blobs.specs.Kept.{IsCounted};

    ghost view = { λ b. record { records = map (λ s. s.value) b.records.items; starts = map (λ s. s.value) b.starts.items; announced = set.from_list b.announced.keys; cached = b.cache.entries } };

    ghost invariant = { λ b. IsCounted (map (λ s. s.value) b.records.items) (map (λ s. s.value) b.starts.items) b.config b.held.entries b.shunned.keys b.announced.keys b.total b.order b.cache };
}

/// Shows a record to contracts.
fn seen(entry: &Record) -> Snapshot<Record>
    ensures { result.value ≡ entry.now }
{
    Snapshot::of(entry)
}

/// Shows a place to contracts.
fn told(at: &u64) -> Snapshot<u64>
    ensures { result.value ≡ at.now }
{
    Snapshot::of(at)
}

/// Returns the Config of a record.
fn config_of(first: Record) -> Config
    requires { IsTrue (is_config first) }
    ensures { first ≡ record_of.Config result }
{
    let Record::Config(config) = first else {
        unreachable!()
    };
    config
}

/// Returns the place of a record's content in the file, by the number of the records before it.
fn start_at(starts: &[u64], before: usize) -> u64
    requires { before < length starts.now }
    ensures { slice_get starts.now before ≡ Some result }
{
    starts[before]
}

/// Returns room for contents, with none of them.
fn no_contents(alloc: Global) -> Result<LruCache<u64, Text>, Memory>
    ensures { IfOk result (λ cache. cache ≡ lru_cache [] 64) }
{
    match LruCache::new(alloc, NonZeroUsize::new(MOST_CACHED).unwrap()) {
        Ok(cache) => Ok(cache),
        Err(_) => Err(Memory),
    }
}

impl Blobs {
    /// Applies the records of a repository: the first is its Config, and no other is. Their contents begin in the file at these
    /// places, one for each record. `Memory` is the only error.
    pub fn fold(alloc: Global, places: &List<u64>, entries: List<Record>) -> Result<Blobs, Memory>
        requires records { AreRecords entries }
        requires places { length places.now ≡ length entries }
        ensures { IfOk result (λ b. b ≡ record { records = entries; starts = places.now; announced = set.empty; cached = [] }) }
    {
        let starts = places.items();
        let mut rest = entries.into_vec().into_iter();
        let Some(first) = rest.next() else {
            unreachable!()
        };
        let mut blobs = Blobs::configured(alloc, start_at(starts, 0), first)?;
        for entry in rest {
            let at = start_at(starts, blobs.read());
            blobs.apply(at, entry)?;
        }
        Ok(blobs)
    }

    /// Applies further records, none of them a Config, whose contents begin in the file at these places, one for each. Their
    /// contents are not kept. No name may be announced. `Memory` is the only error, and then nothing comes back.
    pub fn and_more(self, places: &List<u64>, entries: List<Record>) -> Result<Blobs, Memory>
        requires fit { AllByRecursion IsWritable entries }
        requires places { length places.now ≡ length entries }
        requires quiet { self.announced ≡ set.empty }
        ensures { IfOk result (λ b. b ≡ record self { records = self.records ++ entries; starts = self.starts ++ places.now }) }
    {
        let before = self.read();
        let starts = places.items();
        let mut blobs = self;
        for entry in entries.into_vec() {
            let at = start_at(starts, blobs.read() - before);
            blobs.apply(at, entry)?;
        }
        Ok(blobs)
    }

    /// Returns how many records were read.
    fn read(&self) -> usize
        ensures { result ≡ length self.now.records }
    {
        self.records.len()
    }

    /// Applies a Config.
    fn configured(alloc: Global, at: u64, first: Record) -> Result<Blobs, Memory>
        requires { IsTrue (is_config first) }
        ensures { IfOk result (λ b. b ≡ record { records = first ∷ []; starts = at ∷ []; announced = set.empty; cached = [] }) }
    {
        let mut records = Vec::new(alloc);
        records.push(seen(&first))?;
        let mut starts = Vec::new(alloc);
        starts.push(told(&at))?;
        let cache = no_contents(alloc)?;
        Ok(Blobs {
            config: config_of(first),
            held: BTreeMap::new(alloc),
            shunned: BTreeSet::new(alloc),
            announced: BTreeSet::new(alloc),
            total: 0,
            order: Order {
                public: BTreeMap::new(alloc),
                private: BTreeMap::new(alloc),
            },
            cache,
            records,
            starts,
        })
    }

    /// Applies one more record, whose content begins in the file at this place. A blob's bytes have its name and are at most
    /// 2^24. An announced name that becomes held or shunned is no longer announced, and another Config changes nothing. `Memory`
    /// is the only error, and then everything stays as it was.
    /// FORMATS: Messages of files
    pub fn apply(&mut self, at: u64, entry: Record) -> Result<(), Memory>
        requires fit { IsWritable entry }
        ensures ok { OnOk result (self.new ≡ applied self.old at entry) }
        ensures err { OnErr result (self.new ≡ self.old) }
    {
        self.records.reserve(1)?;
        self.starts.reserve(1)?;
        let place = self.records.len() as u64 + 1;
        let seen = seen(&entry);
        let total = total_with(&self.held, &self.shunned, self.total, &entry);
        change(
            &mut self.held,
            &mut self.shunned,
            &mut self.announced,
            &mut self.order,
            place,
            at,
            entry,
        )?;
        self.records.push(seen).unwrap();
        self.starts.push(told(&at)).unwrap();
        self.total = total;
        Ok(())
    }
}
