//! Counts the bytes of a connection.
ghost use Rattle.std.specs.Prelude.{◌≡◌, ◌++◌, [], take, length, option_map};
ghost use Rattle.fsl_watch.specs.Lines.{status_in};
ghost use Rattle.fsl_watch.specs.Logged.{nothing_moved, came_more, went_more};

use std::marker::Model;
use std::time::{Clock, Duration};

/// The number of bytes of a reply that say its status: `HTTP/1.1 200`.
const FRONT: usize = 12;

/// The place in them at which the status begins.
const STATUS: usize = 9;

/// The first bytes that were sent.
#[derive(Drop)]
struct Front {
    bytes: [u8; FRONT],
    len: usize,
}

impl Model for Front {
    ghost use Rattle.std.specs.Prelude.{List, ℕ, ◌≤◌, take};

    ghost Value = { List ℕ };

    ghost view = { λ f. take f.len f.bytes };

    ghost invariant = { λ f. f.len ≤ 12 };
}

impl Front {
    /// Returns no bytes.
    fn new() -> Front
        ensures { result ≡ [] }
    {
        Front {
            bytes: [0; FRONT],
            len: 0,
        }
    }

    /// Keeps the first of what follows.
    fn keep(&mut self, bytes: &[u8])
        ensures { self.new ≡ take 12 (self.old ++ bytes.now) }
    {
        let count = bytes.len().min(FRONT - self.len);
        self.bytes[self.len..self.len + count].copy_from_slice(&bytes[..count]);
        self.len += count;
    }

    /// Returns the three digits of the status, or `-` if fewer bytes were sent.
    fn status(&self) -> &[u8]
        ensures { result.now ≡ status_in self.now }
    {
        if self.len < FRONT {
            b"-"
        } else {
            &self.bytes[STATUS..]
        }
    }
}

/// The bytes received and sent on a connection, up to the last value of `u64`. It also has the first bytes that were sent, and
/// the milliseconds that a clock showed at its beginning and when bytes moved last.
#[derive(Drop)]
pub(crate) struct Traffic {
    came: u64,
    went: u64,
    front: Front,
    begun: u64,
    last: u64,
}

impl Model for Traffic {
    ghost use Rattle.fsl_watch.specs.Lines.{Traffic};

    ghost Value = { Traffic };

    ghost view = { λ t. record { came = t.came; went = t.went; front = t.front } };
}

impl Traffic {
    /// Returns a connection that has just begun.
    pub(crate) fn new<C: Clock>(clock: &C) -> Traffic
        ensures { result ≡ nothing_moved }
    {
        let begun = millis(clock);
        Traffic {
            came: 0,
            went: 0,
            front: Front::new(),
            begun,
            last: begun,
        }
    }

    /// Counts bytes that were received.
    fn come<C: Clock>(&mut self, clock: &C, count: usize)
        ensures { self.new ≡ came_more count self.old }
    {
        self.came = self.came.saturating_add(count as u64);
        self.last = millis(clock);
    }

    /// Counts these bytes as sent.
    fn go<C: Clock>(&mut self, clock: &C, bytes: &[u8])
        ensures { self.new ≡ went_more bytes.now self.old }
    {
        self.went = self.went.saturating_add(bytes.len() as u64);
        self.front.keep(bytes);
        self.last = millis(clock);
    }

    /// Returns how many bytes were received.
    pub(crate) fn came(&self) -> u64
        ensures { result ≡ self.now.came }
    {
        self.came
    }

    /// Returns how many bytes were sent.
    pub(crate) fn went(&self) -> u64
        ensures { result ≡ self.now.went }
    {
        self.went
    }

    /// Returns the status of the reply that was sent.
    pub(crate) fn status(&self) -> &[u8]
        ensures { result.now ≡ status_in self.now.front }
    {
        self.front.status()
    }

    /// Returns the milliseconds from its beginning to the last byte that moved.
    pub(crate) fn time(&self) -> u64 {
        self.last.saturating_sub(self.begun)
    }
}

/// Counts bytes that were received on the connection, if there is one.
pub(crate) fn count_come<C: Clock>(traffic: &mut Option<Traffic>, clock: &C, count: usize)
    ensures { traffic.new ≡ option_map (came_more count) traffic.old }
{
    if let Some(traffic) = traffic {
        traffic.come(clock, count);
    }
}

/// Counts these bytes as sent on the connection, if there is one.
pub(crate) fn count_gone<C: Clock>(traffic: &mut Option<Traffic>, clock: &C, bytes: &[u8])
    ensures { traffic.new ≡ option_map (went_more bytes.now) traffic.old }
{
    if let Some(traffic) = traffic {
        traffic.go(clock, bytes);
    }
}

/// Returns the milliseconds that a clock shows, or 0 if it can't be read.
pub(crate) fn millis<C: Clock>(clock: &C) -> u64 {
    let shown = clock.monotonic().unwrap_or(Duration::ZERO);
    shown.as_millis().min(u64::MAX as u128) as u64
}
