//! Connections over memory, as a dial and a door keep them.
ghost use Rattle.std.specs.Prelude.{◌≡◌, ◌<◌, ◌≤◌, ◌↔◌, min, length, take, [], IsErr, IsNone, IsSome, Contains, OnOk, OnErr, IfOk, IfSome, IfNone, None, get_or};
ghost use Rattle.std.specs.Io.{ReadsAtMost, WritesAtMost};
ghost use Rattle.fsl_order.specs.Causes.{HasCause, Rose};
ghost use Rattle.fsl_outside.specs.Memory.{next};
ghost use Rattle.fsl_outside.specs.Connections.{IsRead, LinkReads, LinkWrites, fresh};
ghost use Rattle.fsl_outside.specs.Lines.{none_yet, none_here, all_of, line_count, called, begin, sent_on, LinesRead, LinesWrite, LinesFail, IsOneCall};

use super::outside::Failed;
use std::alloc::Global;
use std::marker::Model;

/// A connection over bytes.
#[derive(Drop)]
pub(crate) struct Line {
    bytes: Vec<u8>,
    at: usize,
    sent: Vec<u8>,
    failed: u64,
}

impl Model for Line {
    ghost use Rattle.std.specs.Prelude.{◌≤◌, take, drop, length};
    ghost use Rattle.fsl_outside.specs.Connections.{Connection};

    ghost Value = { Connection };

    ghost view = { λ s. record { read = take s.at s.bytes.items; left = drop s.at s.bytes.items; taken = s.sent.items; failed = s.failed } };

    ghost invariant = { λ s. s.at ≤ length s.bytes.items };
}

impl Line {
    /// Returns a connection that gives these bytes.
    pub(crate) fn new(alloc: Global, bytes: Vec<u8>) -> Line
        ensures { result ≡ fresh bytes.items }
    {
        Line {
            bytes,
            at: 0,
            sent: Vec::new(alloc),
            failed: 0,
        }
    }

    /// Moves bytes to the front of `into`, as many as fit.
    pub(crate) fn read(&mut self, into: &mut [u8]) -> usize
        ensures bound { result ≤ length into.new }
        ensures moved { IsRead self.old self.new (take result into.new) }
        ensures end { result ≡ 0 → 0 < length into.new → self.new.left ≡ [] }
        ensures most { result ≡ min (length into.old) (length self.old.left) }
    {
        let rest = &self.bytes[self.at..];
        let count = into.len().min(rest.len());
        into[..count].copy_from_slice(&rest[..count]);
        self.at += count;
        count
    }

    /// Takes all of the piece, or nothing if out of memory.
    pub(crate) fn write(&mut self, piece: &[u8]) -> Result<(), Failed>
        ensures ok { OnOk result (self.new ≡ sent_on self.old piece.now) }
        ensures err { OnErr result (self.new ≡ self.old) }
    {
        match self.sent.extend_from_slice(piece) {
            Ok(()) => Ok(()),
            Err(_) => Err(Failed),
        }
    }

    /// Counts a call that failed.
    pub(crate) fn fail(&mut self) -> Failed
        ensures counted { self.new ≡ record self.old { failed = next self.old.failed } }
        ensures later { self.old.failed ≤ self.new.failed }
        ensures rose { Rose self.old.failed self.new.failed }
    {
        self.failed = self.failed.saturating_add(1);
        Failed
    }

    /// Returns the bytes that it took.
    pub(crate) fn sent(&self) -> &[u8]
        ensures { result.now ≡ self.now.taken }
    {
        self.sent.as_slice()
    }

    /// Returns how many calls on it failed.
    pub(crate) fn failed(&self) -> u64
        ensures { result ≡ self.now.failed }
    {
        self.failed
    }
}

/// The connections so far, and their calls. The last connection is the present one. The calls with these numbers fail.
#[derive(Drop)]
pub(crate) struct Connections {
    earlier: Vec<Line>,
    present: Option<Line>,
    fails: Vec<u64>,
    calls: u64,
    faults: u64,
}

impl Model for Connections {
    ghost use Rattle.fsl_outside.specs.Lines.{Lines};

    ghost Value = { Lines };

    ghost view = { λ s. record { earlier = s.earlier.items; present = s.present; fails = s.fails.items; calls = s.calls; faults = s.faults } };
}

impl Connections {
    /// Returns no connections.
    pub(crate) fn new(alloc: Global, fails: Vec<u64>) -> Connections
        ensures { result ≡ none_yet fails.items }
    {
        Connections {
            earlier: Vec::new(alloc),
            present: None,
            fails,
            calls: 0,
            faults: 0,
        }
    }

    /// Returns how many calls failed.
    pub(crate) fn faults(&self) -> u64
        ensures { result ≡ self.now.faults }
    {
        self.faults
    }

    /// Counts one more call, which fails if its number is listed.
    pub(crate) fn call(&mut self) -> Result<(), Failed>
        ensures calls { self.new ≡ called self.old }
        ensures told { IsErr result ↔ Contains self.old.fails (next self.old.calls) }
    {
        self.calls = self.calls.saturating_add(1);
        if self.fails.contains(&self.calls) {
            return Err(Failed);
        }
        Ok(())
    }

    /// Counts a failed call that was on no connection.
    pub(crate) fn refuse(&mut self) -> Failed
        ensures counted { self.new ≡ record self.old { faults = next self.old.faults } }
        ensures later { self.old.faults ≤ self.new.faults }
        ensures rose { Rose self.old.faults self.new.faults }
    {
        self.faults = self.faults.saturating_add(1);
        Failed
    }

    // Counts a call that failed on the present connection, if there is one.
    fn fail(&mut self) -> Failed
        ensures counted { LinesFail self.old self.new }
        ensures later { self.old.faults ≤ self.new.faults }
        ensures rose { Rose self.old.faults self.new.faults }
    {
        self.faults = self.faults.saturating_add(1);
        match &mut self.present {
            Some(line) => line.fail(),
            None => Failed,
        }
    }

    /// Reads from the present connection. Fails without one.
    pub(crate) fn read(&mut self, into: &mut [u8]) -> Result<usize, Failed>
        ensures bound { ReadsAtMost result into.new }
        ensures moves { LinkReads self.old.present self.new.present result into.new }
        ensures cause { HasCause self.old.faults self.new.faults result }
        ensures counted { OnErr result (self.new.faults ≡ next self.old.faults) }
        ensures only { IsOneCall self.old self.new }
        ensures told { Contains self.old.fails (next self.old.calls) → IsErr result }
        ensures none { IsNone self.old.present → IsErr result }
        ensures serves { IsErr result → IsSome self.old.present → Contains self.old.fails (next self.old.calls) }
        ensures most { IfOk result (λ n. IfSome self.old.present (λ c. n ≡ min (length into.old) (length c.left))) }
    {
        match self.call() {
            Ok(()) => {}
            Err(_) => return Err(self.fail()),
        }
        match read_on(&mut self.present, into) {
            Some(count) => Ok(count),
            None => Err(self.fail()),
        }
    }

    /// Writes to the present connection. Fails without one, or if out of memory.
    pub(crate) fn write(&mut self, piece: &[u8]) -> Result<usize, Failed>
        ensures bound { WritesAtMost result piece.now }
        ensures some { IfOk result (λ n. 0 < length piece.now → 0 < n) }
        ensures moves { LinkWrites self.old.present self.new.present result piece.now }
        ensures cause { HasCause self.old.faults self.new.faults result }
        ensures counted { OnErr result (self.new.faults ≡ next self.old.faults) }
        ensures only { IsOneCall self.old self.new }
        ensures told { Contains self.old.fails (next self.old.calls) → IsErr result }
        ensures none { IsNone self.old.present → IsErr result }
        ensures whole { IfOk result (λ n. n ≡ length piece.now) }
    {
        match self.call() {
            Ok(()) => {}
            Err(_) => return Err(self.fail()),
        }
        match write_on(&mut self.present, piece) {
            Some(Ok(())) => Ok(piece.len()),
            Some(Err(_)) => Err(self.fail()),
            None => Err(self.fail()),
        }
    }

    /// Begins a connection that gives these bytes, and makes it the present one. It takes memory for the list of those before it.
    pub(crate) fn begin(&mut self, alloc: Global, bytes: Vec<u8>) -> Result<(), Failed>
        ensures ok { OnOk result (self.new ≡ begin self.old bytes.items) }
        ensures err { OnErr result (self.new ≡ self.old) }
    {
        let line = Line::new(alloc, bytes);
        match self.present.take() {
            Some(old) => match self.earlier.push(old) {
                Ok(()) => {
                    self.present = Some(line);
                    Ok(())
                }
                Err(refused) => {
                    self.present = Some(refused.value);
                    Err(Failed)
                }
            },
            None => {
                self.present = Some(line);
                Ok(())
            }
        }
    }

    /// Returns how many connections there are.
    pub(crate) fn count(&self) -> usize
        ensures { result ≡ line_count self.now }
    {
        match &self.present {
            Some(_) => self.earlier.len() + 1,
            None => self.earlier.len(),
        }
    }

    /// Returns the bytes that a connection took, or `None` if there is none. Connections are counted from 0.
    pub(crate) fn sent(&self, connection: u64) -> Option<&[u8]>
        ensures some { IfSome result (λ s. connection < line_count self.now) }
        ensures taken { IfSome result (λ s. s.now ≡ (get_or (all_of self.now.earlier self.now.present) connection none_here).taken) }
        ensures none { IfNone result (line_count self.now ≤ connection) }
    {
        if connection >= self.count() as u64 {
            return None;
        }
        let at = connection as usize;
        if at < self.earlier.len() {
            return Some(self.earlier[at].sent());
        }
        match &self.present {
            Some(line) => Some(line.sent()),
            None => None,
        }
    }
}

// Reads from a connection, if there is one.
fn read_on(present: &mut Option<Line>, into: &mut [u8]) -> Option<usize>
    ensures bound { IfSome result (λ n. n ≤ length into.new) }
    ensures moves { LinesRead present.old present.new result into.new }
    ensures most { IfSome result (λ n. IfSome present.old (λ c. n ≡ min (length into.old) (length c.left))) }
{
    match present {
        Some(line) => Some(line.read(into)),
        None => None,
    }
}

// Writes to a connection, if there is one.
fn write_on(present: &mut Option<Line>, piece: &[u8]) -> Option<Result<(), Failed>>
    ensures { LinesWrite present.old present.new result piece.now }
{
    match present {
        Some(line) => Some(line.write(piece)),
        None => None,
    }
}
