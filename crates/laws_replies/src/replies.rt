//! States laws on replies as messages.
ghost use Rattle.fsl_answer.specs.Fits.{RepliesFit};
ghost use Rattle.laws_replies.specs.Fits.{SessionRepliesFit};
ghost use Rattle.laws_replies.specs.Replies.{RepliesRead};

use fsl_wire::reads_back;

/// Every reply is shorter than a message may be, where a repository and the notices are within their limits. This is a law and no
/// code.
pub fn replies_fit()
    ensures { RepliesFit }
{}

/// Every reply is shorter than a message may be, where a repository is within its limits and the notices are as long as those of
/// a session. This is a law and no code.
pub fn session_replies_fit()
    ensures { SessionRepliesFit }
{}

/// The text of a reply is a message, and its cards are those that the lists of the reply name, in their order. This is a law and
/// no code.
pub fn replies_read()
    ensures { RepliesRead }
{
    reads_back();
}
