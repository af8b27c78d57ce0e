//! Changes the held artifacts, the shunned and the announced names by one record.
ghost use Rattle.std.specs.Prelude.{◌≡◌, ℕ, ◌+◌, ◌++◌, ◌∷◌, [], List, length, None, Some, not, ◌&&◌, ◌||◌, Bool, if◌then◌else◌, OnOk, OnErr};
ghost use Rattle.std.specs.Option.{option_map};
ghost use Rattle.std.specs.FinSet as set;
ghost use Rattle.fsl_record.specs.declared.Config as config_of;
ghost use Rattle.fsl_record.specs.declared.Record as record_of;
ghost use Rattle.fsl_record.specs.Records.{IsWritable};
ghost use Rattle.fsl_blobs.specs.Fold.{contents};
ghost use Rattle.fsl_blobs.specs.Held.{still_new};
ghost use Rattle.fsl_blobs.specs.Kept.{is_same, is_kept, held_at, stands, published, name_in, names_in, added, revealed, gone, artifact_of, IsKept, AreFrom, StaysOrdered};

use crate::blobs::HeldArtifact;
use crate::order::{Order, put, take};
use crate::sizes::is_kept;
use fsl_name::Name;
use fsl_record::{Receipt, Record};
use fsl_text::{Memory, Text};
use std::collections::{BTreeMap, BTreeSet};
use std::snapshot::Snapshot;

/// Makes an artifact whose content is in the file, without its bytes.
fn in_file(
    place: u64,
    at: u64,
    private: bool,
    receipt: Option<Receipt>,
    bytes: Text,
) -> HeldArtifact
    ensures artifact { artifact_of result ≡ record { private = private; bytes = bytes } }
    ensures receipt { result.receipt ≡ receipt }
    ensures place { result.place ≡ place }
    ensures at { result.at ≡ at }
    ensures size { result.size ≡ length bytes }
    ensures bytes { result.bytes.value ≡ bytes }
{
    HeldArtifact {
        place,
        private,
        at,
        size: bytes.bytes().len() as u64,
        receipt,
        bytes: Snapshot::of(&bytes),
    }
}

/// Adds an artifact, unless its name is held or shunned.
fn add(
    held: &mut BTreeMap<Name, HeldArtifact>,
    shunned: &BTreeSet<Name>,
    order: &mut Order,
    name: Name,
    artifact: HeldArtifact,
) -> Result<(), Memory>
    ensures held { OnOk result ((q : List ℕ) → held_at held.new.entries q ≡ (if is_same name q && not (is_kept held.old.entries shunned.now.keys name) then Some artifact else held_at held.old.entries q)) }
    ensures order { OnOk result ((b : Bool) (n : ℕ) → name_in b order.new n ≡ added (is_kept held.old.entries shunned.now.keys name) name artifact b n (name_in b order.old n)) }
    ensures err { OnErr result (held.new.entries ≡ held.old.entries) }
    // Nothing stood at its place.
    ensures order_err { OnErr result (((b : Bool) → name_in b order.old artifact.place ≡ None) → (b : Bool) (n : ℕ) → name_in b order.new n ≡ name_in b order.old n) }
{
    if is_kept(held, shunned, &name) {
        return Ok(());
    }
    let place = artifact.place;
    let private = artifact.private;
    put(order, private, place, name)?;
    if let Err(_) = held.insert(name, artifact) {
        take(order, private, place);
        return Err(Memory);
    }
    Ok(())
}

/// Moves the name of a private artifact among the public ones.
fn reveal(held: &BTreeMap<Name, HeldArtifact>, order: &mut Order, name: Name) -> Result<(), Memory>
    ensures order { OnOk result ((b : Bool) (n : ℕ) → name_in b order.new n ≡ revealed name (held_at held.now.entries name) b n (name_in b order.old n)) }
    ensures err { OnErr result ((b : Bool) → names_in b order.new ≡ names_in b order.old) }
{
    match held.get(&name) {
        Some(artifact) => {
            if artifact.private {
                put(order, false, artifact.place, name)?;
                take(order, true, artifact.place);
            }
            Ok(())
        }
        None => Ok(()),
    }
}

/// Makes an artifact public if the name is held.
fn publish(held: &mut BTreeMap<Name, HeldArtifact>, name: &Name)
    ensures { (q : List ℕ) → held_at held.new.entries q ≡ option_map (published name.now q) (held_at held.old.entries q) }
{
    if let Some(artifact) = held.get_mut(name) {
        artifact.private = false;
    }
}

/// Takes an artifact out and lists its name.
fn shun(
    held: &mut BTreeMap<Name, HeldArtifact>,
    shunned: &mut BTreeSet<Name>,
    order: &mut Order,
    name: Name,
) -> Result<(), Memory>
    ensures held { OnOk result ((q : List ℕ) → held_at held.new.entries q ≡ (if is_same name q then None else held_at held.old.entries q)) }
    ensures shunned { OnOk result ((q : List ℕ) → stands shunned.new.keys q ≡ (is_same name q || stands shunned.old.keys q)) }
    ensures held_err { OnErr result (held.new.entries ≡ held.old.entries) }
    ensures shunned_err { OnErr result (shunned.new.keys ≡ shunned.old.keys) }
    ensures order { OnOk result ((b : Bool) (n : ℕ) → name_in b order.new n ≡ gone (held_at held.old.entries name) b n (name_in b order.old n)) }
    ensures order_err { OnErr result ((b : Bool) → names_in b order.new ≡ names_in b order.old) }
{
    shunned.insert(name)?;
    if let Some(artifact) = held.remove(&name) {
        take(order, artifact.private, artifact.place);
    }
    Ok(())
}

/// Takes a name off the list of the shunned ones.
fn unshun(shunned: &mut BTreeSet<Name>, name: &Name)
    ensures { (q : List ℕ) → stands shunned.new.keys q ≡ (not (is_same name.now q) && stands shunned.old.keys q) }
{
    shunned.remove(name);
}

/// Reads a record, which comes behind the first Config at this place, counted from 1. Its content begins in the file at a
/// place too. Another Config changes nothing. A name that is held or shunned isn't announced.
pub(crate) fn change(
    held: &mut BTreeMap<Name, HeldArtifact>,
    shunned: &mut BTreeSet<Name>,
    announced: &mut BTreeSet<Name>,
    order: &mut Order,
    place: u64,
    at: u64,
    entry: Record,
) -> Result<(), Memory>
    requires fit { IsWritable entry }
    ensures kept { OnOk result ((records : List record_of.Record) (found : config_of.Config) → IsKept records found held.old.entries shunned.old.keys announced.old.keys → place ≡ length records + 1 → IsKept (records ++ entry ∷ []) found held.new.entries shunned.new.keys announced.new.keys) }
    ensures announced { OnOk result ((records : List record_of.Record) (found : config_of.Config) → IsKept records found held.old.entries shunned.old.keys announced.old.keys → set.from_list announced.new.keys ≡ still_new (contents (records ++ entry ∷ [])) (set.from_list announced.old.keys)) }
    ensures from { OnOk result ((records : List record_of.Record) (starts : List ℕ) → AreFrom records starts held.old.entries → place ≡ length records + 1 → length starts ≡ length records → AreFrom (records ++ entry ∷ []) (starts ++ at ∷ []) held.new.entries) }
    // Whatever the answer.
    ensures ordered { StaysOrdered held.old.entries shunned.old.keys announced.old.keys place order.old held.new.entries order.new }
    ensures held_err { OnErr result (held.new.entries ≡ held.old.entries) }
    ensures shunned_err { OnErr result (shunned.new.keys ≡ shunned.old.keys) }
    ensures announced_err { OnErr result (announced.new.keys ≡ announced.old.keys) }
{
    match entry {
        Record::Config(_) => Ok(()),
        Record::Blob {
            private,
            name,
            receipt,
            bytes,
        } => {
            let artifact = in_file(place, at, private, receipt, bytes);
            add(held, shunned, order, name, artifact)?;
            announced.remove(&name);
            Ok(())
        }
        Record::Publish { name } => {
            reveal(held, order, name)?;
            publish(held, &name);
            Ok(())
        }
        Record::Shun { name } => {
            shun(held, shunned, order, name)?;
            announced.remove(&name);
            Ok(())
        }
        Record::Unshun { name } => {
            unshun(shunned, &name);
            Ok(())
        }
    }
}
