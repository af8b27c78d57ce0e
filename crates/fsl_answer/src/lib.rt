//! Answers a message. It says why a message is refused and how many files a reply takes, and writes the bytes of a reply.
#![tactic(auto)]

mod budget;
mod framing;
mod laws;
mod reasons;
mod refusing;

pub use budget::taken;
pub use framing::frame;
use fsl_name::Name;
use fsl_text::{List, Text};
pub use laws::replies_keep;
pub use reasons::Refusal;
pub use refusing::refusal;

/// A file of a reply.
#[derive(Drop)]
pub struct SentFile {
    pub name: Name,
    pub private: bool,
    pub bytes: Text,
}

/// The content of a reply, in its order.
#[derive(Drop)]
pub struct Lists {
    /// Notices, as plain texts. A reply has the first 100.
    pub notices: List<Text>,
    /// The codes of the server and of its project.
    pub codes: Option<(Name, Name)>,
    /// The names that the server has, with true if the artifact is private.
    pub igots: List<(Name, bool)>,
    /// The names that the server asks for.
    pub gimmes: List<Name>,
    pub files: List<SentFile>,
    /// The place at which a clone goes on: that of the first artifact that wasn't sent, or 0.
    pub sequel: Option<u64>,
}
