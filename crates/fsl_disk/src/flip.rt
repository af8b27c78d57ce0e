ghost use Rattle.std.specs.Prelude.{◌≡◌, ◌+◌, ◌-◌, ◌==◌, ◌^◌, ◌≤◌, ◌<◌, length, take, drop, Some, IsErr, OnErr, OnOk, IfOk, IsTrue};
ghost use Rattle.fsl_order.specs.Causes.{Rose, HasCause};
ghost use Rattle.fsl_disk.specs.Disk.{Told, Calls, Same, Torn, CutShort, IsWritten, IsMadeStable};
ghost use Rattle.fsl_disk.specs.Flip.{flip_state, turned, covers, given, reads_after};

use crate::Disk;
use fsl_outside::Failed;
use std::marker::Model;

/// A flip passes its calls on to another disk, and gives one byte of it wrong. The first `reads` reads that cover the byte
/// at `at` give it right, and each later one gives it with its lowest bit turned. It tells nothing of its contents, and a
/// read, write or cut that isn't within the contents is a fault.
#[derive(Drop)]
pub struct FlipDisk<D: Disk> {
    disk: D,
    at: u64,
    reads: u64,
    refused: u64,
}

impl<D: Disk> Model for FlipDisk<D> {
    ghost use Rattle.fsl_disk.specs.Flip.{Flipped};

    ghost Value = { Flipped D };

    ghost view = { λ f. record { disk = f.disk; at = f.at; reads = f.reads; refused = f.refused } };
}

impl<D: Disk> FlipDisk<D> {
    /// Makes a flip before `disk`, whose first `reads` reads of the byte at `at` give it right, and the later ones wrong.
    pub fn new(disk: D, at: u64, reads: u64) -> FlipDisk<D>
        ensures { result ≡ record { disk = disk; at = at; reads = reads; refused = 0 } }
    {
        FlipDisk {
            disk,
            at,
            reads,
            refused: 0,
        }
    }

    /// Returns the disk behind the flip.
    pub fn inner(self) -> D
        ensures { result ≡ self.disk }
    {
        self.disk
    }
}

// Whether so many bytes from `at` on lie inside the contents.
fn lies_within<D: Disk>(disk: &mut D, at: u64, size: u64) -> Result<bool, Failed>
    ensures inside { IfOk result (λ inside. IsTrue inside → Told (D.state disk.new) (λ held. at + size ≤ length held)) }
    ensures contents { (D.state disk.new).contents ≡ (D.state disk.old).contents }
    ensures cause { HasCause (D.state disk.old).faults (D.state disk.new).faults result }
{
    let len = disk.len()?;
    Ok(at <= len && size <= len - at)
}

// Refuses a call, and counts it.
fn refuse(refused: &mut u64) -> Result<(), Failed>
    ensures fails { IsErr result }
    ensures rose { OnErr result (Rose refused.old refused.new) }
    ensures later { refused.old ≤ refused.new }
{
    *refused = refused.saturating_add(1);
    Err(Failed)
}

// A byte with its lowest bit turned.
fn turn(byte: u8) -> u8
    ensures { result ≡ turned byte }
{
    if byte % 2 == 0 { byte + 1 } else { byte - 1 }
}

// Turns the byte at a place, where these bytes cover it that were read from `from` on, and it was given right often enough.
fn flip(at: u64, reads: &mut u64, from: u64, bytes: &mut [u8])
    ensures bytes { bytes.new ≡ given at reads.old from bytes.old }
    ensures reads { reads.new ≡ reads_after at reads.old from (length bytes.old) }
{
    if at < from || at - from >= bytes.len() as u64 {
        return;
    }
    if *reads == 0 {
        let place = (at - from) as usize;
        bytes[place] = turn(bytes[place]);
        return;
    }
    *reads -= 1;
}

impl<D: Disk> Disk for FlipDisk<D> {
    ghost state = { flip_state D.state };

    ghost reads_as_image = { λ f held model told. tt };

    ghost counts_now = { λ f t c model le now. tt };

    ghost only_now = { λ f c model left. tt };

    fn faults(&self) -> u64 {
        self.disk.faults().saturating_add(self.refused)
    }

    fn len(&mut self) -> Result<u64, Failed>
        ensures answer { IfOk result (λ len. (len < 2 ^ 63) × Told (flip_state D.state self.old) (λ held. len ≡ length held)) }
        ensures contents { (flip_state D.state self.new).contents ≡ (flip_state D.state self.old).contents }
        ensures call { Calls Same (flip_state D.state self.old) (flip_state D.state self.new) }
        ensures cause { HasCause (flip_state D.state self.old).faults (flip_state D.state self.new).faults result }
        ensures passes { IfOk result (λ len. Told (D.state self.old.disk) (λ held. len ≡ length held)) }
        ensures kept { (self.new.at ≡ self.old.at) × (self.new.reads ≡ self.old.reads) }
        ensures behind { (D.state self.new.disk).contents ≡ (D.state self.old.disk).contents }
        ensures inner { Calls Same (D.state self.old.disk) (D.state self.new.disk) }
    {
        self.disk.len()
    }

    fn read_at(&mut self, at: u64, into: &mut [u8]) -> Result<(), Failed>
        ensures answer { OnOk result (Told (flip_state D.state self.old) (λ held. into.new ≡ take (length into.old) (drop at held))) }
        ensures contents { (flip_state D.state self.new).contents ≡ (flip_state D.state self.old).contents }
        ensures call { Calls Same (flip_state D.state self.old) (flip_state D.state self.new) }
        ensures cause { HasCause (flip_state D.state self.old).faults (flip_state D.state self.new).faults result }
        ensures gives { OnOk result (Told (D.state self.old.disk) (λ held. into.new ≡ given self.old.at self.old.reads at (take (length into.old) (drop at held)))) }
        ensures counts { OnOk result (self.new.reads ≡ reads_after self.old.at self.old.reads at (length into.old)) }
        ensures kept { (self.new.at ≡ self.old.at) × (OnErr result (self.new.reads ≡ self.old.reads)) }
        ensures behind { (D.state self.new.disk).contents ≡ (D.state self.old.disk).contents }
    {
        if !lies_within(&mut self.disk, at, into.len() as u64)? {
            return refuse(&mut self.refused);
        }
        self.disk.read_at(at, into)?;
        flip(self.at, &mut self.reads, at, into);
        Ok(())
    }

    fn write_at(&mut self, at: u64, bytes: &[u8]) -> Result<(), Failed>
        ensures fits { OnOk result (at + length bytes.now < 2 ^ 63) }
        ensures written { OnOk result (IsWritten at bytes.now (flip_state D.state self.old) (flip_state D.state self.new)) }
        ensures call { Calls (Torn at (length bytes.now)) (flip_state D.state self.old) (flip_state D.state self.new) }
        ensures cause { HasCause (flip_state D.state self.old).faults (flip_state D.state self.new).faults result }
        ensures passes { OnOk result (IsWritten at bytes.now (D.state self.old.disk) (D.state self.new.disk)) }
        ensures kept { (self.new.at ≡ self.old.at) × (self.new.reads ≡ self.old.reads) }
    {
        if !lies_within(&mut self.disk, at, 0)? {
            return refuse(&mut self.refused);
        }
        self.disk.write_at(at, bytes)
    }

    fn cut(&mut self, len: u64) -> Result<(), Failed>
        ensures cut { OnOk result (Told (flip_state D.state self.old) (λ held. (flip_state D.state self.new).contents ≡ Some (take len held))) }
        ensures call { Calls (CutShort len) (flip_state D.state self.old) (flip_state D.state self.new) }
        ensures cause { HasCause (flip_state D.state self.old).faults (flip_state D.state self.new).faults result }
        ensures passes { OnOk result (Told (D.state self.old.disk) (λ held. (D.state self.new.disk).contents ≡ Some (take len held))) }
        ensures kept { (self.new.at ≡ self.old.at) × (self.new.reads ≡ self.old.reads) }
    {
        if !lies_within(&mut self.disk, len, 0)? {
            return refuse(&mut self.refused);
        }
        self.disk.cut(len)
    }

    fn sync(&mut self) -> Result<(), Failed>
        ensures durable { OnOk result (IsMadeStable (flip_state D.state self.old) (flip_state D.state self.new)) }
        ensures contents { (flip_state D.state self.new).contents ≡ (flip_state D.state self.old).contents }
        ensures call { Calls Same (flip_state D.state self.old) (flip_state D.state self.new) }
        ensures cause { HasCause (flip_state D.state self.old).faults (flip_state D.state self.new).faults result }
        ensures kept { (self.new.at ≡ self.old.at) × (self.new.reads ≡ self.old.reads) }
        ensures behind { (D.state self.new.disk).contents ≡ (D.state self.old.disk).contents }
        ensures inner { Calls Same (D.state self.old.disk) (D.state self.new.disk) }
        ensures made_stable { OnOk result (IsMadeStable (D.state self.old.disk) (D.state self.new.disk)) }
    {
        self.disk.sync()
    }
}
