//! Laws of replies.
ghost use Rattle.fsl_answer.specs.Keeps.{RepliesKeep};

/// Says that a reply names private artifacts only to a sender who may see them and asks for them. This is a law and runs no code.
pub fn replies_keep()
    ensures { RepliesKeep }
{}
