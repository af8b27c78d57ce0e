ghost use Rattle.std.specs.Prelude.{◌≡◌, ◌≤◌, ◌∷◌, [], length, reverse, OnOk, OnErr, IfOk, Some};
ghost use Rattle.fsl_disk.specs.Disk.{written};
ghost use Rattle.fsl_disk.specs.Change.{reads, stable, AreInside, Leaves};
ghost use Rattle.fsl_disk.specs.History.{beginning};
ghost use Rattle.fsl_disk.specs.declared.change.Change.TheVariants.{Write, Cut, Sync};

use crate::change::Change;
use crate::tearing::tear;
use fsl_text::{Memory, Text};
use std::alloc::Global;
use std::marker::Model;

/// The bytes that a disk in memory began with, and what its calls made of them.
#[derive(Drop)]
pub struct History {
    alloc: Global,
    // Kept from the first write or cut on.
    first: Option<Text>,
    changes: Vec<Change>,
    // How many changes stand before the last sync, itself among them.
    synced: usize,
    bytes: Vec<u8>,
}

impl Model for History {
    ghost use Rattle.std.specs.Prelude.{reverse};
    ghost use Rattle.fsl_disk.specs.History.{AreKept, Past, beginning};

    ghost Value = { Past };

    ghost view = { λ h. record { first = beginning h.first h.bytes.items; changes = reverse h.changes.items } };

    ghost invariant = { λ h. AreKept (beginning h.first h.bytes.items) h.changes.items h.synced h.bytes.items };
}

impl History {
    /// Makes the history of a file that has these bytes and no change yet. Takes no memory.
    pub fn new(alloc: Global, bytes: Vec<u8>) -> History
        ensures { result ≡ record { first = bytes.items; changes = [] } }
    {
        History {
            alloc,
            first: None,
            changes: Vec::new(alloc),
            synced: 0,
            bytes,
        }
    }

    /// Returns what a read gives.
    pub fn bytes(&self) -> &[u8]
        ensures { result.now ≡ reads self.now.first self.now.changes }
    {
        &self.bytes
    }

    /// Writes these bytes from `at` on, by a call that was to write `range` bytes.
    ///
    /// Errors: `Memory`, after which nothing has changed.
    pub fn write(&mut self, at: u64, bytes: &[u8], range: u64) -> Result<(), Memory>
        requires inside { at ≤ length (reads self.old.first self.old.changes) }
        requires part { length bytes.now ≤ range }
        ensures ok { OnOk result (self.new ≡ record self.old { changes = Write at bytes.now range ∷ self.old.changes }) }
        ensures err { OnErr result (self.new ≡ self.old) }
    {
        keep_first(self.alloc, &mut self.first, &self.bytes)?;
        let kept = Text::of(self.alloc, bytes)?;
        self.changes.reserve(1)?;
        put(&mut self.bytes, at as usize, bytes)?;
        let change = Change::Write {
            at,
            bytes: kept,
            range,
        };
        self.changes.push(change).unwrap();
        Ok(())
    }

    /// Cuts to the length `left`, by a call that was to cut to `len`.
    ///
    /// Errors: `Memory`, after which nothing has changed.
    pub fn cut(&mut self, len: u64, left: u64) -> Result<(), Memory>
        requires part { len ≤ left }
        ensures ok { OnOk result (self.new ≡ record self.old { changes = Cut len left ∷ self.old.changes }) }
        ensures err { OnErr result (self.new ≡ self.old) }
    {
        keep_first(self.alloc, &mut self.first, &self.bytes)?;
        self.changes.push(Change::Cut { len, left })?;
        self.bytes.truncate(left as usize);
        Ok(())
    }

    /// Makes all stable.
    ///
    /// Errors: `Memory`, after which nothing has changed.
    pub fn sync(&mut self) -> Result<(), Memory>
        ensures ok { OnOk result (self.new ≡ record self.old { changes = Sync ∷ self.old.changes }) }
        ensures err { OnErr result (self.new ≡ self.old) }
    {
        self.changes.push(Change::Sync)?;
        self.synced = self.changes.len();
        Ok(())
    }

    /// Returns what a read gave at the last sync, or at the beginning.
    ///
    /// Errors: `Memory` where there was none for these bytes.
    pub fn stable(&self, alloc: Global) -> Result<Vec<u8>, Memory>
        ensures { IfOk result (λ bytes. bytes.items ≡ stable self.now.first self.now.changes) }
    {
        let first = match &self.first {
            Some(first) => first.bytes(),
            None => self.bytes.as_slice(),
        };
        let mut bytes = first.to_vec(alloc)?;
        replay(&mut bytes, &self.changes[..self.synced])?;
        Ok(bytes)
    }

    /// Says that each change was one that a disk takes. It has no code.
    pub fn are_inside(&self)
        ensures { AreInside self.now.first self.now.changes }
    {
        let _ = &self.bytes;
    }

    /// Returns what a crash leaves. For 0 these are the stable bytes, for 1 what a read gives, else what stopped changes leave.
    ///
    /// Errors: `Memory` where there was none for these bytes.
    pub fn crashed(&self, alloc: Global, pick: u64) -> Result<Vec<u8>, Memory>
        ensures image { IfOk result (λ bytes. Leaves self.now.first self.now.changes bytes.items) }
        ensures stable { pick ≡ 0 → IfOk result (λ bytes. bytes.items ≡ stable self.now.first self.now.changes) }
        ensures reads { pick ≡ 1 → IfOk result (λ bytes. bytes.items ≡ reads self.now.first self.now.changes) }
    {
        if pick == 1 {
            return Ok(self.bytes.to_vec(alloc)?);
        }
        let mut bytes = self.stable(alloc)?;
        if pick == 0 {
            return Ok(bytes);
        }
        tear(alloc, &mut bytes, &self.changes[self.synced..], pick)?;
        Ok(bytes)
    }
}

// Keeps the bytes of the beginning, where they aren't kept yet.
fn keep_first(alloc: Global, first: &mut Option<Text>, bytes: &[u8]) -> Result<(), Memory>
    ensures ok { OnOk result (first.new ≡ Some (beginning first.old bytes.now)) }
    ensures err { OnErr result (first.new ≡ first.old) }
{
    if first.is_none() {
        *first = Some(Text::of(alloc, bytes)?);
    }
    Ok(())
}

// Does the changes again.
fn replay(bytes: &mut Vec<u8>, changes: &[Change]) -> Result<(), Memory>
    ensures { OnOk result (bytes.new.items ≡ reads bytes.old.items (reverse changes.now)) }
{
    for change in changes {
        match change {
            Change::Write {
                at,
                bytes: piece,
                ..
            } => put(bytes, *at as usize, piece.bytes())?,
            Change::Cut { left, .. } => bytes.truncate(*left as usize),
            Change::Sync => {}
        }
    }
    Ok(())
}

/// Writes a piece over the bytes from `at` on, and past the end. It begins at the end where that comes earlier.
///
/// Errors: `Memory`, after which nothing has changed.
pub fn put(bytes: &mut Vec<u8>, at: usize, piece: &[u8]) -> Result<(), Memory>
    ensures ok { OnOk result (bytes.new.items ≡ written at piece.now bytes.old.items) }
    ensures err { OnErr result (bytes.new.items ≡ bytes.old.items) }
{
    let at = at.min(bytes.len());
    let over = piece.len().min(bytes.len() - at);
    bytes.extend_from_slice(&piece[over..])?;
    bytes[at..at + over].copy_from_slice(&piece[..over]);
    Ok(())
}
