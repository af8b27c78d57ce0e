//! Finds the lines of cards.
ghost use Rattle.std.specs.Prelude.{◌≡◌, ◌<◌, List as Items, length};
ghost use Rattle.fsl_wire.specs.declared.WireCard.{WireCard as Card};
ghost use Rattle.fsl_wire.specs.Messages.{IsMessage, IsLineOf};
ghost use Rattle.fsl_wire.specs.Meanings.{line_of as line_said};
ghost use Rattle.fsl_wire.specs.Counts.{has_card};

use super::fronts::{Front, front_of};
use super::meaning::Meaning;

/// Returns whether a line that reads has a card.
fn has_card(meaning: &Meaning<'_>) -> bool
    ensures { result ≡ has_card (line_said meaning.now) }
{
    !matches!(*meaning, Meaning::Blank | Meaning::Bad(_))
}

/// Finds the line of the card at a place of a message. Lines are counted from 1, and places from 0. Contents of files aren't
/// counted as lines. The bytes must read as a message with more cards than that place. Takes no memory.
pub fn line_of(bytes: &[u8], card: u64) -> u64
    requires { (cards : Items Card) × IsMessage bytes.now cards × (card < length cards) }
    ensures { IsLineOf bytes.now card result }
{
    let mut at = 0usize;
    let mut line = 1u64;
    let mut left = card;
    'lines: loop {
        let rest = &bytes[at..];
        match front_of(rest) {
            Front::Line { meaning, to, .. } => {
                if has_card(&meaning) {
                    if left == 0 {
                        return line;
                    }
                    left -= 1;
                }
                at += to;
            }
            Front::Last { .. } => return line,
            Front::Bad { .. } => return line,
        }
        line += 1;
    }
}
