//! Reads and writes messages of a sync: lines, some of which are cards, and the contents of files between them.
//!
//! `read` reads the cards of a message, or names the first line that doesn't read, and why. `write` writes a message that reads
//! back. `line_of` finds the line of a card. Each reads its bytes once from front to back. A `Draft` is a message without the
//! tails of its logins, and makes them one by one when they are asked for. `read_bare` reads for callers that look at no login.
#![tactic(auto)]

ghost use Rattle.std.specs.Prelude.{◌≡◌};

mod arguments;
mod boxed;
mod cards;
mod drafts;
mod fronts;
mod laws;
mod meaning;
mod operators;
mod places;
mod reading;
mod tokens;
mod writing;

pub use arguments::{Arguments, arguments_of};
pub use boxed::Boxed;
pub use drafts::Draft;
use fsl_name::Name;
use fsl_text::{List, Text};
pub use laws::{reads_back, reads_one_way};
pub use places::line_of;
pub use reading::{read, read_bare};
use std::marker::Model;
pub use tokens::first_token;
pub use writing::{
    append_error, append_file, append_gimme, append_igot, append_line, append_seqno, write,
};

/// One card of a message.
#[derive(Drop)]
pub enum WireCard {
    /// `login USER NONCE SIGNATURE`: the user is unescaped. The tail is the SHA-1 of all bytes behind the newline of the card's
    /// line. The line is counted from 1. All but the line is behind pointers, since every card is as large as the largest.
    Login {
        user: Boxed<Text>,
        nonce: Boxed<Text>,
        signature: Boxed<Text>,
        tail: Boxed<Name>,
        line: u64,
    },
    /// `push SERVER PROJECT`: the codes of a server and of a project, as they are written.
    Push {
        server: Text,
        project: Text,
    },
    /// `pull SERVER PROJECT`: the codes of a server and of a project, as they are written.
    Pull {
        server: Text,
        project: Text,
    },
    /// `clone`, or `clone VERSION SEQUENCE`.
    Clone {
        from: Option<(u64, u64)>,
    },
    /// `clone_seqno NUMBER`.
    CloneSeqno {
        next: u64,
    },
    /// `file NAME SIZE`, with the content that follows its line.
    File {
        name: Name,
        bytes: Text,
    },
    /// `private`: the next file is private.
    Private,
    /// `igot NAME`, with `0` or `1` behind it: the sender has the artifact, and with the flag `1` it is private.
    Igot {
        name: Name,
        private: bool,
    },
    /// `gimme NAME`: the sender asks for the artifact.
    Gimme {
        name: Name,
    },
    /// `error TEXT`, unescaped.
    Error {
        text: Text,
    },
    /// `message TEXT`, unescaped.
    Message {
        text: Text,
    },
    /// `pragma send-private`: the sender asks for private artifacts too.
    SendPrivate,
}

/// Says why a message doesn't read. The line is the first that doesn't read, counted from 1. Contents aren't counted.
#[derive(Clone, Copy, Debug, PartialEq, Eq)]
pub enum WireFault {
    /// The operator is unknown.
    Unknown { line: u64 },
    /// The arguments have a wrong number or form.
    Args { line: u64 },
    /// A file card has three arguments.
    Delta { line: u64 },
    /// A size is no decimal number of 64 bits.
    Size { line: u64 },
    /// The content is shorter than its size, or the file's line has no newline behind it.
    Short { line: u64 },
    /// The cards don't fit in memory.
    Memory,
}

/// The cards of a message, in order.
#[derive(Drop)]
pub struct Message {
    cards: List<WireCard>,
}

impl Model for Message {
    ghost use Rattle.std.specs.Prelude.{List};
    ghost use Rattle.fsl_wire.specs.declared.WireCard.{WireCard};

    ghost Value = { List WireCard };

    ghost view = { λ m. m.cards };
}

impl Message {
    /// Makes the message of these cards, whatever they are. Takes no memory.
    pub fn of(cards: List<WireCard>) -> Message
        ensures { result ≡ cards }
    {
        Message { cards }
    }

    /// Returns the cards, in order.
    pub fn cards(&self) -> &[WireCard]
        ensures { result.now ≡ self.now }
    {
        self.cards.items()
    }

    /// Returns the cards, in order, without a copy.
    pub fn into_cards(self) -> List<WireCard>
        ensures { result ≡ self }
    {
        self.cards
    }
}

/// The rights of a user: pull, push, clone, and send and get private artifacts.
#[derive(Clone, Copy, Debug, PartialEq, Eq)]
pub struct Caps {
    pub pull: bool,
    pub push: bool,
    pub clone: bool,
    pub private: bool,
}
