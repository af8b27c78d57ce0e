//! Reasons to refuse a message.

/// Says why a message is refused.
#[derive(Clone, Copy, Debug, PartialEq, Eq)]
pub enum Refusal {
    /// The code is that of another project.
    Project,
    /// The sender may not push, or a file has no push card before it.
    Write,
    /// The sender may not pull.
    Read,
    /// The sender may not clone.
    Clone,
    /// The sender may send no private artifacts.
    Private,
}
