ghost use Rattle.std.specs.Prelude.{◌≡◌, ◌+◌, ◌^◌, ◌<◌, ◌≤◌, length, take, drop, Some, IfOk, OnOk};
ghost use Rattle.fsl_order.specs.Causes.{HasCause};
ghost use Rattle.fsl_disk.specs.Disk.{Told, Calls, Same, Torn, CutShort, IsWritten, IsMadeStable};
ghost use Rattle.fsl_disk.specs.Either.{either_state, either_reads, either_counts, either_only};

use crate::Disk;
use fsl_outside::Failed;

/// One of two disks. Its contents, answers and images come through unchanged.
#[derive(Drop)]
pub enum EitherDisk<A: Disk, B: Disk> {
    One(A),
    Other(B),
}

impl<A: Disk, B: Disk> Disk for EitherDisk<A, B> {
    ghost state = { either_state A.state B.state };

    ghost reads_as_image = { either_reads A.state B.state A.reads_as_image B.reads_as_image };

    ghost counts_now = { either_counts A.state B.state A.counts_now B.counts_now };

    ghost only_now = { either_only A.state B.state A.only_now B.only_now };

    #[tactic(auto, unfolding(crate::specs::Either::either_state))]
    fn faults(&self) -> u64 {
        match self {
            EitherDisk::One(disk) => disk.faults(),
            EitherDisk::Other(disk) => disk.faults(),
        }
    }

    #[tactic(auto, unfolding(crate::specs::Either::either_state))]
    fn len(&mut self) -> Result<u64, Failed>
        ensures answer { IfOk result (λ len. (len < 2 ^ 63) × Told (either_state A.state B.state self.old) (λ held. len ≡ length held)) }
        ensures contents { (either_state A.state B.state self.new).contents ≡ (either_state A.state B.state self.old).contents }
        ensures call { Calls Same (either_state A.state B.state self.old) (either_state A.state B.state self.new) }
        ensures cause { HasCause (either_state A.state B.state self.old).faults (either_state A.state B.state self.new).faults result }
    {
        match self {
            EitherDisk::One(disk) => disk.len(),
            EitherDisk::Other(disk) => disk.len(),
        }
    }

    #[tactic(auto, unfolding(crate::specs::Either::either_state))]
    fn read_at(&mut self, at: u64, into: &mut [u8]) -> Result<(), Failed>
        requires { Told (either_state A.state B.state self.old) (λ held. at + length into.old ≤ length held) }
        ensures answer { OnOk result (Told (either_state A.state B.state self.old) (λ held. into.new ≡ take (length into.old) (drop at held))) }
        ensures contents { (either_state A.state B.state self.new).contents ≡ (either_state A.state B.state self.old).contents }
        ensures call { Calls Same (either_state A.state B.state self.old) (either_state A.state B.state self.new) }
        ensures cause { HasCause (either_state A.state B.state self.old).faults (either_state A.state B.state self.new).faults result }
    {
        match self {
            EitherDisk::One(disk) => disk.read_at(at, into),
            EitherDisk::Other(disk) => disk.read_at(at, into),
        }
    }

    #[tactic(auto, unfolding(crate::specs::Either::either_state))]
    fn write_at(&mut self, at: u64, bytes: &[u8]) -> Result<(), Failed>
        requires { Told (either_state A.state B.state self.old) (λ held. at ≤ length held) }
        ensures fits { OnOk result (at + length bytes.now < 2 ^ 63) }
        ensures written { OnOk result (IsWritten at bytes.now (either_state A.state B.state self.old) (either_state A.state B.state self.new)) }
        ensures call { Calls (Torn at (length bytes.now)) (either_state A.state B.state self.old) (either_state A.state B.state self.new) }
        ensures cause { HasCause (either_state A.state B.state self.old).faults (either_state A.state B.state self.new).faults result }
    {
        match self {
            EitherDisk::One(disk) => disk.write_at(at, bytes),
            EitherDisk::Other(disk) => disk.write_at(at, bytes),
        }
    }

    #[tactic(auto, unfolding(crate::specs::Either::either_state))]
    fn cut(&mut self, len: u64) -> Result<(), Failed>
        requires { Told (either_state A.state B.state self.old) (λ held. len ≤ length held) }
        ensures cut { OnOk result (Told (either_state A.state B.state self.old) (λ held. (either_state A.state B.state self.new).contents ≡ Some (take len held))) }
        ensures call { Calls (CutShort len) (either_state A.state B.state self.old) (either_state A.state B.state self.new) }
        ensures cause { HasCause (either_state A.state B.state self.old).faults (either_state A.state B.state self.new).faults result }
    {
        match self {
            EitherDisk::One(disk) => disk.cut(len),
            EitherDisk::Other(disk) => disk.cut(len),
        }
    }

    #[tactic(auto, unfolding(crate::specs::Either::either_state))]
    fn sync(&mut self) -> Result<(), Failed>
        ensures durable { OnOk result (IsMadeStable (either_state A.state B.state self.old) (either_state A.state B.state self.new)) }
        ensures contents { (either_state A.state B.state self.new).contents ≡ (either_state A.state B.state self.old).contents }
        ensures call { Calls Same (either_state A.state B.state self.old) (either_state A.state B.state self.new) }
        ensures cause { HasCause (either_state A.state B.state self.old).faults (either_state A.state B.state self.new).faults result }
    {
        match self {
            EitherDisk::One(disk) => disk.sync(),
            EitherDisk::Other(disk) => disk.sync(),
        }
    }
}
