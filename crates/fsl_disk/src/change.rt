use fsl_text::Text;

/// A call that changed a disk in memory, or stopped on the way.
#[derive(Debug, Drop)]
pub enum Change {
    /// These bytes were written from `at` on, by a call that was to write `range` bytes.
    Write { at: u64, bytes: Text, range: u64 },
    /// The contents were cut to the length `left`, by a call that was to cut them to `len`.
    Cut { len: u64, left: u64 },
    /// All was made stable.
    Sync,
}
