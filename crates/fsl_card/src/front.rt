//! Reads the first card of some bytes.
ghost use Rattle.std.specs.Prelude.{◌≡◌, ◌++◌, ◌∷◌, ◌<◌, ◌≤◌, ℕ, List, length, drop, IfOk, IfSome, IfNone, None};
ghost use Rattle.fsl_card.specs.declared.types.Card.{Card as SpecCard};
ghost use Rattle.fsl_card.specs.Cards.{IsCard, card_text};

use super::arguments::arguments;
use super::body::body_size;
use super::types::Card;
use fsl_text::{Memory, Text};
use std::alloc::Global;

/// A card, and the number of bytes that it takes in its text.
#[derive(Drop)]
pub struct Front {
    pub card: Card,
    pub taken: usize,
}

/// Reads the card that the bytes begin with. Returns `None` if they begin with no card. `Memory` is the only error.
pub fn front_card(alloc: Global, bytes: &[u8]) -> Result<Option<Front>, Memory>
    ensures card { IfOk result (λ r. IfSome r (λ f. IsCard f.card)) }
    ensures spelled { IfOk result (λ r. IfSome r (λ f. bytes.now ≡ card_text f.card ++ drop f.taken bytes.now)) }
    ensures within { IfOk result (λ r. IfSome r (λ f. f.taken ≤ length bytes.now)) }
    ensures none { IfOk result (λ r. IfNone r ((card : SpecCard) (more : List ℕ) → IsCard card → bytes.now ≡ card_text card ++ more → ⊥)) }
{
    let [letter, line @ ..] = bytes else {
        return Ok(None);
    };
    let letter = *letter;
    if letter < b'A' || b'Z' < letter {
        return Ok(None);
    }
    let Some(found) = arguments(alloc, letter, line)? else {
        return Ok(None);
    };
    let behind = &line[found.taken..];
    if letter != b'W' {
        let card = Card {
            letter,
            args: found.list,
            body: None,
        };
        let taken = bytes.len() - behind.len();
        return Ok(Some(Front { card, taken }));
    }
    let Some(size) = body_size(found.list.items(), behind) else {
        return Ok(None);
    };
    let (body, rest) = behind.split_at(size);
    let body = Text::of(alloc, body)?;
    let card = Card {
        letter,
        args: found.list,
        body: Some(body),
    };
    let taken = bytes.len() - rest.len() + 1;
    Ok(Some(Front { card, taken }))
}
