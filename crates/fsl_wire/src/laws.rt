//! Laws of messages.
ghost use Rattle.fsl_wire.specs.Messages.{ReadsOneWay};
ghost use Rattle.fsl_wire.specs.Writing.{IsReadBack};

/// Says that bytes are one message, each card on a line of its own, or have one first fault, and not both. This is a law and runs
/// no code.
pub fn reads_one_way()
    ensures { ReadsOneWay }
{}

/// Says that a written message reads back. This is a law and runs no code.
pub fn reads_back()
    ensures { IsReadBack }
{}
