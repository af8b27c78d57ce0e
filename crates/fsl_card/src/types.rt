ghost use Rattle.std.specs.Prelude.{◌≡◌};
ghost use Rattle.fsl_card.specs.Cards.{AreCards};

use fsl_text::{List, Text};
use std::marker::Model;

/// A card of a structural text. The arguments are kept as they are written, and only a `W` card has a body.
#[derive(Drop)]
pub struct Card {
    pub letter: u8,
    pub args: List<Text>,
    pub body: Option<Text>,
}

/// The cards of a structural text, in order, the `Z` card included. `cards` alone makes them.
#[derive(Drop)]
pub struct Cards {
    items: List<Card>,
}

impl Model for Cards {
    ghost use Rattle.std.specs.Prelude.{List};
    ghost use Rattle.fsl_card.specs.declared.types.Card.{Card};

    ghost Value = { List Card };

    ghost use Rattle.fsl_card.specs.Cards.{AreCards};

    ghost view = { λ c. c.items };

    ghost invariant = { λ c. AreCards c.items };
}

impl Cards {
    /// Makes the cards of a text. Takes no memory.
    pub(crate) fn from_list(items: List<Card>) -> Cards
        requires { AreCards items }
        ensures { result ≡ items }
    {
        Cards { items }
    }

    /// Returns the cards, in order.
    pub fn items(&self) -> &[Card]
        ensures { result.now ≡ self.now }
    {
        self.items.items()
    }

    /// Returns the cards, in order, without a copy. Takes no memory.
    pub fn into_list(self) -> List<Card>
        ensures { result ≡ self }
    {
        self.items
    }
}
