//! Reads a text as cards.
ghost use Rattle.std.specs.Prelude.{◌≡◌, ◌∷◌, [], None, IfOk, IfSome, IfNone};
ghost use Rattle.fsl_card.specs.Cards.{IsCards, IsReading};
ghost use Rattle.fsl_card.specs.Parts.{AreOrdered};

use super::front::front_card;
use super::order::may_follow_all;
use super::seal::sealed;
use super::types::{Card, Cards};
use fsl_text::{List, Memory, Text};
use std::alloc::Global;

/// Reads the cards of a text, each by itself a card that may follow the one before it.
fn ordered_cards(alloc: Global, text: &[u8]) -> Result<Option<List<Card>>, Memory>
    ensures { IfOk result (IsReading AreOrdered text.now) }
{
    let mut cards = List::new(alloc);
    let mut rest = text;
    while !rest.is_empty() {
        let Some(front) = front_card(alloc, rest)? else {
            return Ok(None);
        };
        if !may_follow_all(cards.items(), &front.card) {
            return Ok(None);
        }
        rest = &rest[front.taken..];
        cards.append(front.card)?;
    }
    Ok(Some(cards))
}

/// Makes a card with one argument and no body.
fn card_of(alloc: Global, letter: u8, argument: &[u8]) -> Result<Card, Memory>
    ensures { IfOk result (λ card. card ≡ record { letter = letter; args = argument.now ∷ []; body = None }) }
{
    let mut args = List::new(alloc);
    args.append(Text::of(alloc, argument)?)?;
    Ok(Card {
        letter,
        args,
        body: None,
    })
}

/// Reads the cards of a structural text. Returns `None` if the text is none. `Memory` is the only error.
///
/// A card is a letter from `A` to `Z`, a space and an argument for each argument, and a newline. An argument has one byte or
/// more, none of which is 0, 9 to 13 or 32. The second and last argument of a `J` card may be empty. A `W` card has a decimal
/// size as its one argument, and behind its newline come that many bytes and a newline. Letters don't fall. `F` cards rise by the
/// path that they decode to, `M` cards by their first argument. `J`, `Q` and `T` cards come in any order. Of every other letter
/// there is one card at most. The last card is `Z` with the MD5 of all bytes before it, in 32 lower-case digits.
///
/// The last 35 bytes alone show of most texts that they are no cards.
/// FORMATS: Cards
pub fn cards(alloc: Global, text: &[u8]) -> Result<Option<Cards>, Memory>
    ensures { IfOk result (IsReading IsCards text.now) }
{
    let Some(sealed) = sealed(text) else {
        return Ok(None);
    };
    let Some(mut cards) = ordered_cards(alloc, sealed.front)? else {
        return Ok(None);
    };
    let seal = card_of(alloc, b'Z', sealed.digits)?;
    if !may_follow_all(cards.items(), &seal) {
        return Ok(None);
    }
    cards.append(seal)?;
    Ok(Some(Cards::from_list(cards)))
}
