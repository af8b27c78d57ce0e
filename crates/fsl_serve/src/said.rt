//! Decides the reply to a request, and how a session ends.
ghost use Rattle.std.specs.Prelude.{◌≡◌};
ghost use Rattle.fsl_serve.specs.Sessions.{sent_of};

use fsl_repo::Reply;
use fsl_text::Text as Bytes;

/// The end of a session.
#[derive(Clone, Copy, Debug, PartialEq, Eq)]
pub enum SessionEnd {
    /// No byte came.
    Closed,
    /// The reply was sent, with this status.
    Answered { status: u16 },
    /// A read or a write failed.
    Link,
}

/// Why a session makes no further event.
#[derive(Clone, Copy, Debug, PartialEq, Eq)]
pub(crate) enum Halt {
    /// The repository is stopped, or a content of its disk couldn't be read or is damaged.
    Stopped,
    /// Memory ran out.
    Memory,
}

/// What is said to a request.
#[derive(Drop)]
pub(crate) enum Said {
    /// A status alone, for a request that brings no message.
    Refused(u16),
    /// An error card.
    Text(Bytes),
    /// The reply that was built.
    Built(Reply),
    /// A status alone, for a session that ended early.
    Halted(Halt),
}

impl Said {
    /// The status.
    pub(crate) fn status(&self) -> u16
        ensures { result ≡ (sent_of self.now).0 }
    {
        match self {
            Said::Refused(status) => *status,
            Said::Text(_) | Said::Built(_) => 200,
            Said::Halted(Halt::Stopped) => 500,
            Said::Halted(Halt::Memory) => 503,
        }
    }

    /// The body.
    pub(crate) fn body(&self) -> &[u8]
        ensures { result.now ≡ (sent_of self.now).1 }
    {
        match self {
            Said::Text(text) => text.bytes(),
            Said::Built(reply) => reply.bytes(),
            Said::Refused(_) | Said::Halted(_) => &[],
        }
    }
}
