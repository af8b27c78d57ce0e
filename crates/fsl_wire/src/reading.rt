//! Reads a message as its cards.
ghost use Rattle.std.specs.Prelude.{◌≡◌, [], IfOk, IfErr, OnOk};
ghost use Rattle.fsl_wire.specs.declared.WireFault.TheVariants as wire_fault;
ghost use Rattle.fsl_wire.specs.Messages.{IsMessage, IsReadFault};
ghost use Rattle.fsl_wire.specs.Drafts.{with_tails, IsBareMessage};

use super::cards::add_card;
use super::drafts::Draft;
use super::fronts::{Front, front_of};
use crate::{Message, WireCard, WireFault};
use fsl_text::Memory;
use std::alloc::Global;

impl From<Memory> for WireFault {
    ghost from_gives = { λ _ fault. fault ≡ wire_fault.Memory };

    fn from(_: Memory) -> Self {
        WireFault::Memory
    }
}

/// Reads the cards of a message into a list that is empty, and the bytes behind the line of each login into another.
fn read_cards<'a>(
    alloc: Global,
    bytes: &'a [u8],
    cards: &mut Vec<WireCard>,
    behinds: &mut Vec<&'a [u8]>,
) -> Result<(), WireFault>
    requires { (cards.old.items ≡ []) × (behinds.old.items ≡ []) }
    ensures message { OnOk result (IsMessage bytes.now (with_tails cards.new.items behinds.new.items)) }
    ensures fault { IfErr result (IsReadFault bytes.now) }
{
    let mut at = 0usize;
    let mut line = 1u64;
    'lines: loop {
        let rest = &bytes[at..];
        match front_of(rest) {
            Front::Bad { wrong } => return Err(wrong.at(line)),
            Front::Last { meaning } => {
                add_card(alloc, cards, behinds, &meaning, line, &[], &[])?;
                return Ok(());
            }
            Front::Line { meaning, from, to } => {
                let behind = &rest[from..];
                add_card(
                    alloc,
                    cards,
                    behinds,
                    &meaning,
                    line,
                    &rest[from..to],
                    behind,
                )?;
                at += to;
            }
        }
        line += 1;
    }
}

impl<'a> Draft<'a> {
    /// Reads the cards of a message, as [`read`], without the tails of its logins. It hashes nothing.
    ///
    /// Errors: the fault of the first line that doesn't read, or `Memory`.
    pub fn read(alloc: Global, bytes: &'a [u8]) -> Result<Draft<'a>, WireFault>
        ensures message { IfOk result (λ draft. IsMessage bytes.now draft.message) }
        ensures none { IfOk result (λ draft. draft.settled ≡ 0) }
        ensures fault { IfErr result (IsReadFault bytes.now) }
    {
        let mut cards = Vec::new(alloc);
        let mut behinds = Vec::new(alloc);
        read_cards(alloc, bytes, &mut cards, &mut behinds)?;
        Ok(Draft::of(cards, behinds))
    }
}

/// Reads the cards of a message.
///
/// A message is lines that end with a newline or with the message. Spaces, tabs and carriage returns at both ends of a line are
/// dropped, and separate its tokens: an operator and its arguments. A line without tokens and one that begins with `#` have no
/// meaning. `cookie` and other pragmas than `send-private` have none either. The content of a file follows the newline of its
/// line, with as many bytes as the line says. Each login costs a hash of all bytes behind its line. A card takes 56 bytes and its
/// texts, and the list of them has an eighth of room to spare.
///
/// Errors: the fault of the first line that doesn't read, or `Memory`. A login takes some 300 bytes, each other card its 56 and
/// its texts.
/// FORMATS: Messages of a sync
pub fn read(alloc: Global, bytes: &[u8]) -> Result<Message, WireFault>
    ensures message { IfOk result (IsMessage bytes.now) }
    ensures fault { IfErr result (IsReadFault bytes.now) }
{
    Ok(Draft::read(alloc, bytes)?.into_message())
}

/// Reads the cards of a message, as [`read`], for callers that look at no login. Each login has the tail of no bytes, and nothing
/// behind its line is hashed, so that many logins cost no more than other cards.
///
/// Errors: the fault of the first line that doesn't read, or `Memory`.
pub fn read_bare(alloc: Global, bytes: &[u8]) -> Result<Message, WireFault>
    ensures message { IfOk result (IsBareMessage bytes.now) }
    ensures fault { IfErr result (IsReadFault bytes.now) }
{
    let mut cards = Vec::new(alloc);
    let mut behinds = Vec::new(alloc);
    read_cards(alloc, bytes, &mut cards, &mut behinds)?;
    Ok(Draft::of(cards, Vec::new(alloc)).into_message())
}
