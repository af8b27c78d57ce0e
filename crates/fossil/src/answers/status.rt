//! Lists the statuses with which the program ends.

/// All was done, and the report was printed.
pub const DONE: u8 = 0;
/// The words are outside the grammar.
pub const USAGE: u8 = 1;
/// The file isn't a repository.
pub const NOT_REPOSITORY: u8 = 2;
/// The command or its input was refused.
pub const REFUSED: u8 = 3;
/// The repository file couldn't be read or written.
pub const DISK_FAULT: u8 = 4;
/// The input couldn't be read.
pub const INPUT_FAULT: u8 = 5;
/// The report couldn't be written whole.
pub const OUTPUT_FAULT: u8 = 6;
/// A connection failed, or none could be taken.
pub const LINK_FAULT: u8 = 7;
/// A reply of the peer is wrong.
pub const WRONG_REPLY: u8 = 8;
/// The program is out of memory.
pub const NO_MEMORY: u8 = 9;
/// A name that the peer announced isn't sent.
pub const MISSING: u8 = 10;
/// A sync wasn't at its end behind the rounds that it may have.
pub const TOO_MANY_ROUNDS: u8 = 11;
/// A content was read whose bytes have another name.
pub const DAMAGED: u8 = 12;
