//! A disk that reports how much of it was read and written.
ghost use Rattle.std.specs.Prelude.{◌≡◌, ◌+◌, ◌^◌, ◌<◌, ◌≤◌, length, take, drop, Some, IsTrue, IfOk, OnOk, OnErr};
ghost use Rattle.fsl_order.specs.Causes.{HasCause};
ghost use Rattle.fsl_disk.specs.Disk.{Told, Calls, Same, Torn, CutShort, Only, written};
ghost use Rattle.fsl_watch.specs.Lines.{more, disk_line as disk_text};
ghost use Rattle.fsl_watch.specs.Watched.{TellsSoFar};

use crate::lines::{Progress, Whose, disk_line};
use crate::pace::Pace;
use fsl_disk::Disk;
use fsl_outside::{Failed, Sink};
use std::alloc::Global;
use std::marker::Model;
use std::time::Clock;

/// Reports the progress of another disk, whose contents, answers and images come through unchanged. A read or a write writes a
/// line of the bytes that were read and written so far, and of the last known length. It does so at most once a second, and not
/// in the first second.
#[derive(Drop)]
pub struct WatchedDisk<D: Disk, K: Sink, C: Clock> {
    disk: D,
    lines: Pace<K, C>,
    whose: Whose,
    progress: Progress,
    alloc: Global,
}

impl<D: Disk, K: Sink, C: Clock> Model for WatchedDisk<D, K, C> {
    ghost use Rattle.fsl_watch.specs.Watched.{WatchedOn};

    ghost Value = { WatchedOn D K };

    ghost view = { λ s. record { disk = s.disk; lines = s.lines; whose = s.whose; progress = s.progress } };
}

impl<D: Disk, K: Sink, C: Clock> WatchedDisk<D, K, C> {
    /// Returns a disk around `disk` whose lines go to `out`. Its first second begins now.
    pub fn new(alloc: Global, disk: D, whose: Whose, out: K, clock: C) -> WatchedDisk<D, K, C>
        ensures disk { result.disk ≡ disk }
        ensures out { result.lines.out ≡ out }
        ensures later { 1000 ≤ result.lines.due }
        ensures whose { result.whose ≡ whose }
        ensures none { result.progress ≡ record { read = 0; written = 0; len = 0 } }
    {
        WatchedDisk {
            disk,
            lines: Pace::new(out, clock),
            whose,
            progress: Progress {
                read: 0,
                written: 0,
                len: 0,
            },
            alloc,
        }
    }

    /// Returns the sink of its lines.
    pub fn out(&self) -> &K
        ensures { result.now ≡ self.now.lines.out }
    {
        self.lines.out()
    }

    /// Writes how much was read and written, if that is due.
    fn tell(&mut self)
        ensures disk { self.new.disk ≡ self.old.disk }
        ensures whose { self.new.whose ≡ self.old.whose }
        ensures progress { self.new.progress ≡ self.old.progress }
        ensures tells { TellsSoFar K.state self.old.lines self.new.lines (disk_text self.old.whose self.old.progress) }
    {
        if self.lines.is_due() {
            self.lines
                .put(disk_line(self.alloc, self.whose, self.progress));
        }
    }
}

impl<D: Disk, K: Sink, C: Clock> Disk for WatchedDisk<D, K, C> {
    ghost state = { λ s. D.state s.disk };

    ghost reads_as_image = { λ s held model told. D.reads_as_image s.disk held model told };

    ghost counts_now = { λ s t c model le now. D.counts_now s.disk t c model le now };

    ghost only_now = { λ s c model left. D.only_now s.disk c model left };

    fn faults(&self) -> u64 {
        self.disk.faults()
    }

    fn len(&mut self) -> Result<u64, Failed>
        ensures answer { IfOk result (λ len. (len < 2 ^ 63) × Told (D.state self.old.disk) (λ held. len ≡ length held)) }
        ensures contents { (D.state self.new.disk).contents ≡ (D.state self.old.disk).contents }
        ensures call { Calls Same (D.state self.old.disk) (D.state self.new.disk) }
        ensures cause { HasCause (D.state self.old.disk).faults (D.state self.new.disk).faults result }
        ensures told { IfOk result (λ len. self.new ≡ record self.old { disk = self.new.disk; progress = record self.old.progress { len = len } }) }
        ensures failed { OnErr result (self.new ≡ record self.old { disk = self.new.disk }) }
    {
        let len = self.disk.len()?;
        self.progress.len = len;
        Ok(len)
    }

    fn read_at(&mut self, at: u64, into: &mut [u8]) -> Result<(), Failed>
        requires { Told (D.state self.old.disk) (λ held. at + length into.old ≤ length held) }
        ensures answer { OnOk result (Told (D.state self.old.disk) (λ held. into.new ≡ take (length into.old) (drop at held))) }
        ensures contents { (D.state self.new.disk).contents ≡ (D.state self.old.disk).contents }
        ensures call { Calls Same (D.state self.old.disk) (D.state self.new.disk) }
        ensures cause { HasCause (D.state self.old.disk).faults (D.state self.new.disk).faults result }
        ensures read { OnOk result (self.new.progress ≡ record self.old.progress { read = more (length into.old) self.old.progress.read }) }
        ensures tells { OnOk result (TellsSoFar K.state self.old.lines self.new.lines (disk_text self.old.whose self.new.progress)) }
        ensures failed { OnErr result (self.new ≡ record self.old { disk = self.new.disk }) }
    {
        self.disk.read_at(at, into)?;
        self.progress.read = self.progress.read.saturating_add(into.len() as u64);
        self.tell();
        Ok(())
    }

    fn write_at(&mut self, at: u64, bytes: &[u8]) -> Result<(), Failed>
        requires { Told (D.state self.old.disk) (λ held. at ≤ length held) }
        ensures fits { OnOk result (at + length bytes.now < 2 ^ 63) }
        ensures written { OnOk result (Told (D.state self.old.disk) (λ held. (D.state self.new.disk).contents ≡ Some (written at bytes.now held))) }
        ensures call { Calls (Torn at (length bytes.now)) (D.state self.old.disk) (D.state self.new.disk) }
        ensures cause { HasCause (D.state self.old.disk).faults (D.state self.new.disk).faults result }
        ensures wrote { OnOk result (self.new.progress ≡ record self.old.progress { written = more (length bytes.now) self.old.progress.written }) }
        ensures tells { OnOk result (TellsSoFar K.state self.old.lines self.new.lines (disk_text self.old.whose self.new.progress)) }
        ensures failed { OnErr result (self.new ≡ record self.old { disk = self.new.disk }) }
    {
        self.disk.write_at(at, bytes)?;
        self.progress.written = self.progress.written.saturating_add(bytes.len() as u64);
        self.tell();
        Ok(())
    }

    fn cut(&mut self, len: u64) -> Result<(), Failed>
        requires { Told (D.state self.old.disk) (λ held. len ≤ length held) }
        ensures cut { OnOk result (Told (D.state self.old.disk) (λ held. (D.state self.new.disk).contents ≡ Some (take len held))) }
        ensures call { Calls (CutShort len) (D.state self.old.disk) (D.state self.new.disk) }
        ensures cause { HasCause (D.state self.old.disk).faults (D.state self.new.disk).faults result }
        ensures silent { self.new ≡ record self.old { disk = self.new.disk } }
    {
        self.disk.cut(len)
    }

    fn sync(&mut self) -> Result<(), Failed>
        ensures durable { OnOk result (IsTrue (D.state self.old.disk).is_model → Told (D.state self.old.disk) (λ held. Only held (D.state self.new.disk).images)) }
        ensures contents { (D.state self.new.disk).contents ≡ (D.state self.old.disk).contents }
        ensures call { Calls Same (D.state self.old.disk) (D.state self.new.disk) }
        ensures cause { HasCause (D.state self.old.disk).faults (D.state self.new.disk).faults result }
        ensures silent { self.new ≡ record self.old { disk = self.new.disk } }
    {
        self.disk.sync()
    }
}
