//! Counts the sum of the held sizes, as records change it.
ghost use Rattle.std.specs.Prelude.{◌≡◌, ◌<◌, ◌≤◌, ◌+◌, ◌^◌, ◌++◌, ◌∷◌, [], ℕ, List};
ghost use Rattle.std.specs.Option.{option_map_or};
ghost use Rattle.std.specs.FinMap as map_of;
ghost use Rattle.fsl_record.specs.declared.Config as config_of;
ghost use Rattle.fsl_record.specs.declared.Record as record_of;
ghost use Rattle.fsl_blobs.specs.Fold.{contents, held_bytes};
ghost use Rattle.fsl_blobs.specs.Kept.{held_at, is_kept, AreFrom, IsKept};

use crate::Blobs;
use crate::blobs::HeldArtifact;
use fsl_name::Name;
use fsl_record::Record;
use std::collections::{BTreeMap, BTreeSet};

/// Returns the size of a held artifact, in bytes, or 0 if the name isn't held.
pub(crate) fn size_of(held: &BTreeMap<Name, HeldArtifact>, name: &Name) -> u64
    ensures { result ≡ option_map_or (λ a. a.size) (held_at held.now.entries name.now) 0 }
{
    match held.get(name) {
        Some(artifact) => artifact.size,
        None => 0,
    }
}

/// Returns whether a name is held or shunned.
pub(crate) fn is_kept(
    held: &BTreeMap<Name, HeldArtifact>,
    shunned: &BTreeSet<Name>,
    name: &Name,
) -> bool
    ensures { result ≡ is_kept held.now.entries shunned.now.keys name.now }
{
    held.contains_key(name) || shunned.contains(name)
}

/// Returns the sum of the held sizes with one record more.
pub(crate) fn total_with(
    held: &BTreeMap<Name, HeldArtifact>,
    shunned: &BTreeSet<Name>,
    total: u128,
    entry: &Record,
) -> u128
    requires { total < 2 ^ 126 }
    ensures total { (records : List record_of.Record) (starts : List ℕ) (found : config_of.Config) (announced : List (List ℕ)) → IsKept records found held.now.entries shunned.now.keys announced → AreFrom records starts held.now.entries → total ≡ held_bytes (contents records).held → result ≡ held_bytes (contents (records ++ entry.now ∷ [])).held }
    ensures fits { result ≤ total + 2 ^ 63 }
{
    match entry {
        Record::Blob { name, bytes, .. } => {
            if is_kept(held, shunned, name) {
                return total;
            }
            total + bytes.bytes().len() as u128
        }
        Record::Shun { name } => total.saturating_sub(u128::from(size_of(held, name))),
        Record::Publish { .. } => total,
        Record::Unshun { .. } => total,
        Record::Config(_) => total,
    }
}

impl Blobs {
    /// Returns the sum of the sizes of all held artifacts, in bytes. Takes no memory.
    pub fn bytes(&self) -> u128
        ensures bytes { result ≡ held_bytes (contents self.now.records).held }
        ensures fits { result < 2 ^ 127 }
    {
        let _ = self.records.len();
        self.total
    }

    /// Returns how many artifacts are held. Takes no memory.
    pub fn count(&self) -> u64
        ensures count { result ≡ map_of.len (contents self.now.records).held }
        ensures fits { result < 2 ^ 63 }
    {
        self.held.len() as u64
    }
}
