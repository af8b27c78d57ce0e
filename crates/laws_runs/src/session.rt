//! Holds the objects of a run beside the repository's disk, and the record of a run that was made.
use std::snapshot::Snapshot;

/// The ends that a run may have.
#[derive(Clone, Copy, PartialEq, Eq, Debug)]
pub enum End {
    /// The power fails at some moment since the run began.
    Cut,
    /// Its process is killed at some moment since the run began, and the system goes on.
    Killed,
    /// The power fails behind the run, whose status somebody heard.
    Heard,
    /// Nothing fails behind a run that was done, and the next one finds the disk as this one left it. A run that wasn't done ends
    /// as one whose status somebody heard.
    Spared,
}

/// A run: the words of its command, its end, and the objects that it uses beside the repository's disk.
#[derive(Drop)]
pub struct Session<S, K, P, N, C> {
    pub words: Vec<String>,
    pub end: End,
    pub input: S,
    pub out: K,
    pub peer: P,
    pub dial: N,
    pub clock: C,
}

/// A run that was made: its session before and after it, its status, the disk before it, and the disk as it left it. Only clauses
/// see the session before it and the two disks.
#[derive(Drop)]
pub struct Past<S, K, P, N, C, D> {
    pub handed: Snapshot<Session<S, K, P, N, C>>,
    pub began: Snapshot<D>,
    pub ended: Snapshot<D>,
    pub status: u8,
    pub session: Session<S, K, P, N, C>,
}
