//! Has the result of a run.

/// What a command ends with that asks no peer: the status, and the disk that it was handed.
#[derive(Drop)]
pub(crate) struct Done<D> {
    pub status: u8,
    pub repo: D,
}

/// The result of a run: the status, and the disks of the repository and of the peer that it was handed.
#[derive(Drop)]
pub struct Ran<D, P> {
    pub status: u8,
    pub repo: D,
    pub peer: P,
}
