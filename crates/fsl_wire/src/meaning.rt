//! Reads a line of a message.
ghost use Rattle.std.specs.Prelude.{◌≡◌, ◌==◌, slice_index};
ghost use Rattle.fsl_wire.specs.Lines.{line_meant};
ghost use Rattle.fsl_wire.specs.Meanings.{line_of, wrong_fault};

use super::arguments::arguments_of;
use super::operators::operator_line;
use super::tokens::first_token;
use crate::WireFault;
use fsl_name::Name;

/// Says why a line doesn't read.
#[derive(Clone, Copy)]
pub enum Wrong {
    Unknown,
    Args,
    Delta,
    Size,
    Short,
}

impl Wrong {
    /// Makes the fault of this line.
    pub fn at(self, line: u64) -> WireFault
        ensures { result ≡ wrong_fault self line }
    {
        match self {
            Wrong::Unknown => WireFault::Unknown { line },
            Wrong::Args => WireFault::Args { line },
            Wrong::Delta => WireFault::Delta { line },
            Wrong::Size => WireFault::Size { line },
            Wrong::Short => WireFault::Short { line },
        }
    }
}

/// The meaning of a line, by its tokens, without a copy. Texts are as they are written.
#[derive(Clone, Copy)]
pub enum Meaning<'a> {
    /// A line without meaning.
    Blank,
    Login {
        user: &'a [u8],
        nonce: &'a [u8],
        signature: &'a [u8],
    },
    Push {
        server: &'a [u8],
        project: &'a [u8],
    },
    Pull {
        server: &'a [u8],
        project: &'a [u8],
    },
    Clone {
        from: Option<(u64, u64)>,
    },
    CloneSeqno {
        next: u64,
    },
    File {
        name: Name,
        size: u64,
    },
    Private,
    Igot {
        name: Name,
        private: bool,
    },
    Gimme {
        name: Name,
    },
    Error {
        text: &'a [u8],
    },
    Message {
        text: &'a [u8],
    },
    SendPrivate,
    /// A line that doesn't read.
    Bad(Wrong),
}

fn is_comment(operator: &[u8]) -> bool
    ensures { result ≡ (slice_index operator.now 0 == 35) }
{
    operator.first() == Some(&b'#')
}

/// Reads a line, without its newline.
/// FORMATS: Messages of a sync
pub fn read_line(line: &[u8]) -> Meaning<'_>
    ensures { line_of result ≡ line_meant line.now }
{
    let Some((operator, rest)) = first_token(line) else {
        return Meaning::Blank;
    };
    if is_comment(operator) {
        return Meaning::Blank;
    }
    operator_line(operator, arguments_of(rest))
}
