ghost use Rattle.std.specs.Prelude.{◌≡◌, ◌+◌, ◌-◌, ◌^◌, ◌≤◌, ◌<◌, ◌↔◌, length, take, drop, min, Some, IsErr, OnErr, OnOk, IfOk, IsTrue};
ghost use Rattle.fsl_order.specs.Causes.{Rose, HasCause};
ghost use Rattle.fsl_disk.specs.Disk.{DiskState, Told, Calls, Same, Torn, CutShort, Only, written};
ghost use Rattle.fsl_disk.specs.Fuse.{Burns, fused};

use crate::Disk;
use fsl_outside::Failed;
use std::marker::Model;

/// A fuse passes so many calls on to another disk, and then fails each call. It tells what that disk tells.
#[derive(Drop)]
pub struct FuseDisk<D: Disk> {
    disk: D,
    calls: u64,
    blown: u64,
}

impl<D: Disk> Model for FuseDisk<D> {
    ghost use Rattle.fsl_disk.specs.Fuse.{Fused};

    ghost Value = { Fused D };

    ghost view = { λ f. record { disk = f.disk; calls = f.calls; blown = f.blown } };
}

impl<D: Disk> FuseDisk<D> {
    /// Makes a fuse before `disk`, which passes `calls` calls.
    pub fn new(disk: D, calls: u64) -> FuseDisk<D>
        ensures { result ≡ record { disk = disk; calls = calls; blown = 0 } }
    {
        FuseDisk {
            disk,
            calls,
            blown: 0,
        }
    }

    /// Returns the disk behind the fuse.
    pub fn inner(self) -> D
        ensures { result ≡ self.disk }
    {
        self.disk
    }
}

// Takes one from the calls that are left. Where there is none, the call fails and is counted.
fn spend(calls: &mut u64, blown: &mut u64) -> Result<(), Failed>
    ensures rose { OnErr result (Rose blown.old blown.new) }
    ensures stays { OnOk result (blown.new ≡ blown.old) }
    ensures later { blown.old ≤ blown.new }
    ensures blown { IsErr result ↔ (calls.old ≡ 0) }
    ensures spent { calls.new ≡ calls.old - 1 }
{
    if *calls == 0 {
        *blown = blown.saturating_add(1);
        return Err(Failed);
    }
    *calls -= 1;
    Ok(())
}

impl<D: Disk> Disk for FuseDisk<D> {
    ghost state = { λ f. fused f.blown (D.state f.disk) };

    ghost reads_as_image = { λ f held model told. D.reads_as_image f.disk held model told };

    ghost counts_now = { λ f t c model le now. D.counts_now f.disk t c model le now };

    ghost only_now = { λ f c model left. D.only_now f.disk c model left };

    fn faults(&self) -> u64 {
        self.disk.faults().saturating_add(self.blown)
    }

    fn len(&mut self) -> Result<u64, Failed>
        ensures answer { IfOk result (λ len. (len < 2 ^ 63) × Told (D.state self.old.disk) (λ held. len ≡ length held)) }
        ensures contents { (D.state self.new.disk).contents ≡ (D.state self.old.disk).contents }
        ensures call { Calls Same (fused self.old.blown (D.state self.old.disk)) (fused self.new.blown (D.state self.new.disk)) }
        ensures cause { HasCause (fused self.old.blown (D.state self.old.disk)).faults (fused self.new.blown (D.state self.new.disk)).faults result }
        ensures fuse { Burns (λ d. (D.state d).faults) self.old self.new result }
    {
        spend(&mut self.calls, &mut self.blown)?;
        self.disk.len()
    }

    fn read_at(&mut self, at: u64, into: &mut [u8]) -> Result<(), Failed>
        requires { Told (D.state self.old.disk) (λ held. at + length into.old ≤ length held) }
        ensures answer { OnOk result (Told (D.state self.old.disk) (λ held. into.new ≡ take (length into.old) (drop at held))) }
        ensures contents { (D.state self.new.disk).contents ≡ (D.state self.old.disk).contents }
        ensures call { Calls Same (fused self.old.blown (D.state self.old.disk)) (fused self.new.blown (D.state self.new.disk)) }
        ensures cause { HasCause (fused self.old.blown (D.state self.old.disk)).faults (fused self.new.blown (D.state self.new.disk)).faults result }
        ensures fuse { Burns (λ d. (D.state d).faults) self.old self.new result }
    {
        spend(&mut self.calls, &mut self.blown)?;
        self.disk.read_at(at, into)
    }

    fn write_at(&mut self, at: u64, bytes: &[u8]) -> Result<(), Failed>
        requires { Told (D.state self.old.disk) (λ held. at ≤ length held) }
        ensures fits { OnOk result (at + length bytes.now < 2 ^ 63) }
        ensures written { OnOk result (Told (D.state self.old.disk) (λ held. (D.state self.new.disk).contents ≡ Some (written at bytes.now held))) }
        ensures call { Calls (Torn at (length bytes.now)) (fused self.old.blown (D.state self.old.disk)) (fused self.new.blown (D.state self.new.disk)) }
        ensures cause { HasCause (fused self.old.blown (D.state self.old.disk)).faults (fused self.new.blown (D.state self.new.disk)).faults result }
        ensures fuse { Burns (λ d. (D.state d).faults) self.old self.new result }
    {
        spend(&mut self.calls, &mut self.blown)?;
        self.disk.write_at(at, bytes)
    }

    fn cut(&mut self, len: u64) -> Result<(), Failed>
        requires { Told (D.state self.old.disk) (λ held. len ≤ length held) }
        ensures cut { OnOk result (Told (D.state self.old.disk) (λ held. (D.state self.new.disk).contents ≡ Some (take len held))) }
        ensures call { Calls (CutShort len) (fused self.old.blown (D.state self.old.disk)) (fused self.new.blown (D.state self.new.disk)) }
        ensures cause { HasCause (fused self.old.blown (D.state self.old.disk)).faults (fused self.new.blown (D.state self.new.disk)).faults result }
        ensures fuse { Burns (λ d. (D.state d).faults) self.old self.new result }
    {
        spend(&mut self.calls, &mut self.blown)?;
        self.disk.cut(len)
    }

    fn sync(&mut self) -> Result<(), Failed>
        ensures durable { OnOk result (IsTrue (D.state self.old.disk).is_model → Told (D.state self.old.disk) (λ held. Only held (D.state self.new.disk).images)) }
        ensures contents { (D.state self.new.disk).contents ≡ (D.state self.old.disk).contents }
        ensures call { Calls Same (fused self.old.blown (D.state self.old.disk)) (fused self.new.blown (D.state self.new.disk)) }
        ensures cause { HasCause (fused self.old.blown (D.state self.old.disk)).faults (fused self.new.blown (D.state self.new.disk)).faults result }
        ensures fuse { Burns (λ d. (D.state d).faults) self.old self.new result }
    {
        spend(&mut self.calls, &mut self.blown)?;
        self.disk.sync()
    }
}
