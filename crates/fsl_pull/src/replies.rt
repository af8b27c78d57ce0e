//! Reads the body of a reply: its cards, or the first thing that is wrong with it.
ghost use Rattle.std.specs.Prelude.{◌≡◌, position, option_map, IfOk};
ghost use Rattle.std.specs.Option.{option_map_or};
ghost use Rattle.fsl_wire.specs.Messages.{IsReadFault};
ghost use Rattle.fsl_wire.specs.Drafts.{IsBareMessage};
ghost use Rattle.fsl_pull.specs.Replies.{IsBodyRead, is_private, error_of, error_text};

use crate::PeerFault;
use fsl_text::{Memory, Text};
use fsl_wire::{Message, WireCard, WireFault, line_of, read_bare};
use std::alloc::Global;

/// The place of the first private card.
fn private_card(cards: &[WireCard]) -> Option<usize>
    ensures { result ≡ position is_private cards.now }
{
    cards
        .iter()
        .position(|card| matches!(card, WireCard::Private))
}

/// The text of an error card.
fn error_of(card: &WireCard) -> Option<&[u8]>
    ensures { option_map (λ text. text.now) result ≡ error_of card.now }
{
    match card {
        WireCard::Error { text } => Some(text.bytes()),
        _ => None,
    }
}

/// The text of the first error card.
fn error_card(cards: &[WireCard]) -> Option<&[u8]>
    ensures { option_map (λ text. text.now) result ≡ error_text cards.now }
{
    for card in cards {
        if let Some(text) = error_of(card) {
            return Some(text);
        }
    }
    None
}

/// The fault of the first line that doesn't read.
fn unread(body: &[u8], fault: WireFault) -> Result<PeerFault, Memory>
    requires { IsReadFault body.now fault }
    ensures { IfOk result (λ why. IsBodyRead body.now (Err why)) }
{
    match fault {
        WireFault::Unknown { line } => Ok(PeerFault::Line { line }),
        WireFault::Args { line } => Ok(PeerFault::Line { line }),
        WireFault::Delta { line } => Ok(PeerFault::Line { line }),
        WireFault::Size { line } => Ok(PeerFault::Line { line }),
        WireFault::Short { line } => Ok(PeerFault::Line { line }),
        WireFault::Memory => Err(Memory),
    }
}

/// What is wrong with the cards of a body, if anything is: a private card, or else an error card.
fn wrong_card(alloc: Global, body: &[u8], cards: &[WireCard]) -> Result<Option<PeerFault>, Memory>
    requires { IsBareMessage body.now cards.now }
    ensures { IfOk result (λ wrong. IsBodyRead body.now (option_map_or (λ why. Err why) wrong (Ok cards.now))) }
{
    if let Some(place) = private_card(cards) {
        let line = line_of(body, place as u64);
        return Ok(Some(PeerFault::Line { line }));
    }
    match error_card(cards) {
        Some(text) => Ok(Some(PeerFault::Error {
            text: Text::of(alloc, text)?,
        })),
        None => Ok(None),
    }
}

/// The cards of a body, or the first line of it that doesn't read, or else its first private card, or else its first
/// error card. `Memory` is the only error.
pub(crate) fn read_body(alloc: Global, body: &[u8]) -> Result<Result<Message, PeerFault>, Memory>
    ensures { IfOk result (IsBodyRead body.now) }
{
    let message = match read_bare(alloc, body) {
        Ok(message) => message,
        Err(fault) => return Ok(Err(unread(body, fault)?)),
    };
    match wrong_card(alloc, body, message.cards())? {
        Some(why) => Ok(Err(why)),
        None => Ok(Ok(message)),
    }
}
