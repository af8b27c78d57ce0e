//! Checks the order of cards.
ghost use Rattle.std.specs.Prelude.{◌≡◌};
ghost use Rattle.fsl_order.specs.Names.{is_before};
ghost use Rattle.fsl_card.specs.Cards.{first_argument, may_follow};
ghost use Rattle.fsl_card.specs.Parts.{may_follow_all};

use super::decoded::is_before_decoded;
use super::types::Card;
use std::cmp::Ordering;

/// Returns the first argument of a card as it is written, or nothing.
fn first_argument(card: &Card) -> &[u8]
    ensures { result.now ≡ first_argument card.now }
{
    match card.args.items().first() {
        Some(argument) => argument.bytes(),
        None => &[],
    }
}

/// Returns whether one text comes before another by its bytes.
fn is_before(a: &[u8], b: &[u8]) -> bool
    ensures { result ≡ is_before a.now b.now }
{
    a.cmp(b) == Ordering::Less
}

/// Returns whether a card may follow another. Letters don't fall. `F` cards rise by their decoded path, `M` cards by name. `J`,
/// `Q` and `T` cards come in any order. Of every other letter there is one card at most.
fn may_follow(before: &Card, after: &Card) -> bool
    ensures { result ≡ may_follow before.now after.now }
{
    if before.letter != after.letter {
        return before.letter < after.letter;
    }
    match before.letter {
        b'F' => is_before_decoded(first_argument(before), first_argument(after)),
        b'M' => is_before(first_argument(before), first_argument(after)),
        b'J' | b'Q' | b'T' => true,
        _ => false,
    }
}

/// Returns whether a card may follow the last of some cards.
pub fn may_follow_all(cards: &[Card], next: &Card) -> bool
    ensures { result ≡ may_follow_all cards.now next.now }
{
    match cards.split_last() {
        Some((last, _)) => may_follow(last, next),
        None => true,
    }
}
