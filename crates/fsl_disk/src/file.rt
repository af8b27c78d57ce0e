ghost use Rattle.std.specs.Prelude.{◌≡◌, ◌+◌, ◌^◌, ◌<◌, ◌≤◌, length, take, drop, true, false, Some, IsTrue, IfOk, OnOk};
ghost use Rattle.fsl_order.specs.Causes.{HasCause};
ghost use Rattle.fsl_disk.specs.Disk.{Told, Calls, Same, Torn, CutShort, Only, written};
ghost use Rattle.fsl_disk.specs.File.{Serves, untold};

use crate::Disk;
use crate::disk::MAX_LEN;
use fsl_outside::Failed;
use std::fs::File;
use std::marker::Model;
use std::os::unix::fs::FileExt;

/// A disk over a real file, or one whose every call fails. It tells nothing of contents, and doesn't claim the disk model.
///
/// It reads and writes on until all is moved, and again after an interruption. Each other error of the system is a fault,
/// and so are a read past the end, a write that moves no byte, and a length of 2^63 or above.
#[derive(Drop)]
pub struct FileDisk {
    file: Option<File>,
    faults: u64,
}

impl Model for FileDisk {
    ghost use Rattle.std.specs.Prelude.{is_some};
    ghost use Rattle.fsl_disk.specs.File.{OverFile};

    ghost Value = { OverFile };

    ghost view = { λ d. record { is_open = is_some d.file; faults = d.faults } };
}

impl FileDisk {
    /// Makes a disk over a file that was opened for reading and writing.
    pub fn over(file: File) -> FileDisk
        ensures { result ≡ record { is_open = true; faults = 0 } }
    {
        FileDisk {
            file: Some(file),
            faults: 0,
        }
    }

    /// Makes a disk whose every call fails, as for a file that couldn't be opened.
    pub fn none() -> FileDisk
        ensures { result ≡ record { is_open = false; faults = 0 } }
    {
        FileDisk {
            file: None,
            faults: 0,
        }
    }
}

// Counts a fault where there is one.
pub(crate) fn settle<T>(faults: &mut u64, answer: Result<T, Failed>) -> Result<T, Failed>
    ensures same { result ≡ answer }
    ensures cause { HasCause faults.old faults.new result }
{
    if answer.is_err() {
        *faults = faults.saturating_add(1);
    }
    answer
}

pub(crate) fn length_of(file: &File) -> Result<u64, Failed>
    ensures { IfOk result (λ len. len < 2 ^ 63) }
{
    match file.metadata() {
        Ok(found) if found.len() < MAX_LEN => Ok(found.len()),
        _ => Err(Failed),
    }
}

fn write_to(file: &File, at: u64, bytes: &[u8]) -> Result<(), Failed>
    ensures { OnOk result (at + length bytes.now < 2 ^ 63) }
{
    if at >= MAX_LEN || bytes.len() as u64 >= MAX_LEN - at {
        return Err(Failed);
    }
    file.write_all_at(bytes, at).map_err(|_| Failed)
}

impl Disk for FileDisk {
    ghost state = { λ d. untold d.faults };

    ghost reads_as_image = { λ d held model told. tt };

    ghost counts_now = { λ d t c model le now. tt };

    ghost only_now = { λ d c model left. tt };

    fn faults(&self) -> u64 {
        self.faults
    }

    fn len(&mut self) -> Result<u64, Failed>
        ensures answer { IfOk result (λ len. (len < 2 ^ 63) × Told (untold self.old.faults) (λ held. len ≡ length held)) }
        ensures contents { (untold self.new.faults).contents ≡ (untold self.old.faults).contents }
        ensures call { Calls Same (untold self.old.faults) (untold self.new.faults) }
        ensures cause { HasCause self.old.faults self.new.faults result }
        ensures serves { Serves self.old self.new result }
    {
        let answer = match &self.file {
            Some(file) => length_of(file),
            None => Err(Failed),
        };
        settle(&mut self.faults, answer)
    }

    fn read_at(&mut self, at: u64, into: &mut [u8]) -> Result<(), Failed>
        ensures answer { OnOk result (Told (untold self.old.faults) (λ held. into.new ≡ take (length into.old) (drop at held))) }
        ensures contents { (untold self.new.faults).contents ≡ (untold self.old.faults).contents }
        ensures call { Calls Same (untold self.old.faults) (untold self.new.faults) }
        ensures cause { HasCause self.old.faults self.new.faults result }
        ensures serves { Serves self.old self.new result }
    {
        let answer = match &self.file {
            Some(file) => file.read_exact_at(into, at).map_err(|_| Failed),
            None => Err(Failed),
        };
        settle(&mut self.faults, answer)
    }

    fn write_at(&mut self, at: u64, bytes: &[u8]) -> Result<(), Failed>
        ensures fits { OnOk result (at + length bytes.now < 2 ^ 63) }
        ensures written { OnOk result (Told (untold self.old.faults) (λ held. (untold self.new.faults).contents ≡ Some (written at bytes.now held))) }
        ensures call { Calls (Torn at (length bytes.now)) (untold self.old.faults) (untold self.new.faults) }
        ensures cause { HasCause self.old.faults self.new.faults result }
        ensures serves { Serves self.old self.new result }
    {
        let answer = match &self.file {
            Some(file) => write_to(file, at, bytes),
            None => Err(Failed),
        };
        settle(&mut self.faults, answer)
    }

    fn cut(&mut self, len: u64) -> Result<(), Failed>
        ensures cut { OnOk result (Told (untold self.old.faults) (λ held. (untold self.new.faults).contents ≡ Some (take len held))) }
        ensures call { Calls (CutShort len) (untold self.old.faults) (untold self.new.faults) }
        ensures cause { HasCause self.old.faults self.new.faults result }
        ensures serves { Serves self.old self.new result }
    {
        let answer = match &self.file {
            Some(file) => file.set_len(len).map_err(|_| Failed),
            None => Err(Failed),
        };
        settle(&mut self.faults, answer)
    }

    fn sync(&mut self) -> Result<(), Failed>
        ensures durable { OnOk result (IsTrue (untold self.old.faults).is_model → Told (untold self.old.faults) (λ held. Only held (untold self.new.faults).images)) }
        ensures contents { (untold self.new.faults).contents ≡ (untold self.old.faults).contents }
        ensures call { Calls Same (untold self.old.faults) (untold self.new.faults) }
        ensures cause { HasCause self.old.faults self.new.faults result }
        ensures serves { Serves self.old self.new result }
    {
        let answer = match &self.file {
            Some(file) => file.sync_all().map_err(|_| Failed),
            None => Err(Failed),
        };
        settle(&mut self.faults, answer)
    }
}
