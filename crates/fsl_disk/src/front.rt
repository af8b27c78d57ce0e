ghost use Rattle.std.specs.Prelude.{◌≡◌, ◌+◌, ◌^◌, ◌<◌, ◌≤◌, ℕ, length, take, drop, slice_index, Some, IfOk, OnOk, OnErr};
ghost use Rattle.fsl_order.specs.Causes.{HasCause, Rose};
ghost use Rattle.fsl_disk.specs.Disk.{Told, Calls, Same, Torn, CutShort, IsWritten, IsMadeStable};
ghost use Rattle.fsl_disk.specs.Front.{Stays, AreShown, front_state, byte_at};
ghost use Rattle.fsl_disk.specs.Shared.{ToldOf, Sees, ReadFailed};

use crate::Disk;
use crate::file::settle;
use crate::shared::Shared;
use fsl_outside::Failed;
use std::marker::Model;
use std::snapshot::Snapshot;

/// A byte that was read once, and its place. A reader is given this byte there from then on.
#[derive(Clone, Copy)]
pub struct Seen {
    pub at: u64,
    pub byte: u8,
}

/// The front of a file: so many bytes of it, and two of them as they were seen.
#[derive(Clone, Copy)]
pub struct Front {
    pub len: u64,
    pub mark: Option<Seen>,
    pub gate: Option<Seen>,
}

/// A disk over the front of a file, to which another process may write behind it. It has no way to write to the file. A
/// sync does nothing, a cut shortens what it reads of the file, and a write fails.
#[derive(Drop)]
pub struct FrontDisk<F: Shared> {
    file: F,
    // no bytes: clauses alone see it, as the file was when this disk was made
    first: Snapshot<F>,
    front: Front,
    faults: u64,
}

impl<F: Shared> Model for FrontDisk<F> {
    ghost use Rattle.fsl_disk.specs.Front.{Fronted, IsFronted};

    ghost Value = { Fronted F };

    ghost view = { λ d. record { file = d.file; first = d.first.value; front = d.front; faults = d.faults } };

    ghost invariant = { λ d. IsFronted (F.state d.first.value) (F.state d.file) d.front };
}

impl<F: Shared> FrontDisk<F> {
    /// Makes a disk over this front of a file. From now on the bytes of the front stay, but for those that were seen.
    pub fn over(file: F, front: Front) -> FrontDisk<F>
        requires len { front.len < 2 ^ 63 }
        requires stays { ToldOf (F.state file) (λ held. Stays front held (F.state file).moment) }
        ensures { result ≡ record { file = file; first = file; front = front; faults = 0 } }
    {
        let first = Snapshot::of(&file);
        FrontDisk {
            file,
            first,
            front,
            faults: 0,
        }
    }
}

// Puts a byte that was seen among those that were read from `at` on, where these cover it.
fn put_seen(seen: Option<Seen>, at: u64, into: &mut [u8])
    ensures length { length into.new ≡ length into.old }
    ensures put { (k : ℕ) → k < length into.old → slice_index into.new k ≡ byte_at seen (at + k) (slice_index into.old k) }
{
    if let Some(seen) = seen {
        if seen.at >= at && seen.at - at < into.len() as u64 {
            into[(seen.at - at) as usize] = seen.byte;
        }
    }
}

// Bytes of a front, where they lie in it.
fn read_front<F: Shared>(file: &mut F, front: Front, at: u64, into: &mut [u8]) -> Result<(), Failed>
    ensures sees { Sees (F.state file.old) (F.state file.new) }
    ensures length { length into.new ≡ length into.old }
    ensures inside { OnOk result (at + length into.new ≤ front.len) }
    ensures answer { OnOk result (ToldOf (F.state file.old) (λ held. AreShown front held (F.state file.old).moment at into.new)) }
    ensures cause { OnErr result (at + length into.old ≤ front.len → ReadFailed (F.state file.old) (F.state file.new) (at + length into.old)) }
{
    if at > front.len || into.len() as u64 > front.len - at {
        return Err(Failed);
    }
    file.read_at(at, into)?;
    put_seen(front.mark, at, into);
    put_seen(front.gate, at, into);
    Ok(())
}

impl<F: Shared> Disk for FrontDisk<F> {
    ghost state = { front_state F.state };

    ghost reads_as_image = { λ d held model told. tt };

    ghost counts_now = { λ d t c model le now. tt };

    ghost only_now = { λ d c model left. tt };

    fn faults(&self) -> u64 {
        self.faults
    }

    fn len(&mut self) -> Result<u64, Failed>
        ensures answer { IfOk result (λ len. (len < 2 ^ 63) × Told (front_state F.state self.old) (λ held. len ≡ length held)) }
        ensures contents { (front_state F.state self.new).contents ≡ (front_state F.state self.old).contents }
        ensures call { Calls Same (front_state F.state self.old) (front_state F.state self.new) }
        ensures cause { HasCause self.old.faults self.new.faults result }
    {
        Ok(self.front.len)
    }

    fn read_at(&mut self, at: u64, into: &mut [u8]) -> Result<(), Failed>
        ensures answer { OnOk result (Told (front_state F.state self.old) (λ held. into.new ≡ take (length into.old) (drop at held))) }
        ensures contents { (front_state F.state self.new).contents ≡ (front_state F.state self.old).contents }
        ensures call { Calls Same (front_state F.state self.old) (front_state F.state self.new) }
        ensures cause { HasCause self.old.faults self.new.faults result }
        // Inside the front a read fails only where a call of the file failed, and never because of a writer.
        ensures served { OnErr result (at + length into.old ≤ self.old.front.len → Rose (F.state self.old.file).faults (F.state self.new.file).faults) }
    {
        let answer = read_front(&mut self.file, self.front, at, into);
        settle(&mut self.faults, answer)
    }

    fn write_at(&mut self, at: u64, bytes: &[u8]) -> Result<(), Failed>
        ensures fits { OnOk result (at + length bytes.now < 2 ^ 63) }
        ensures written { OnOk result (IsWritten at bytes.now (front_state F.state self.old) (front_state F.state self.new)) }
        ensures call { Calls (Torn at (length bytes.now)) (front_state F.state self.old) (front_state F.state self.new) }
        ensures cause { HasCause self.old.faults self.new.faults result }
    {
        let _at = at;
        let _bytes = bytes;
        settle(&mut self.faults, Err(Failed))
    }

    fn cut(&mut self, len: u64) -> Result<(), Failed>
        ensures cut { OnOk result (Told (front_state F.state self.old) (λ held. (front_state F.state self.new).contents ≡ Some (take len held))) }
        ensures call { Calls (CutShort len) (front_state F.state self.old) (front_state F.state self.new) }
        ensures cause { HasCause self.old.faults self.new.faults result }
    {
        self.front.len = self.front.len.min(len);
        Ok(())
    }

    fn sync(&mut self) -> Result<(), Failed>
        ensures durable { OnOk result (IsMadeStable (front_state F.state self.old) (front_state F.state self.new)) }
        ensures contents { (front_state F.state self.new).contents ≡ (front_state F.state self.old).contents }
        ensures call { Calls Same (front_state F.state self.old) (front_state F.state self.new) }
        ensures cause { HasCause self.old.faults self.new.faults result }
    {
        Ok(())
    }
}
