//! Laws of cards.
ghost use Rattle.fsl_card.specs.Cards.{IsUnambiguous};
ghost use Rattle.fsl_card.specs.Writing.{IsFinished, IsReadBack};

/// Says that a text is the cards of one list at most.
pub fn text_is_unambiguous()
    ensures { IsUnambiguous }
{}

/// Says that `finish` turns the text of cards into the text of these cards and the Z card.
pub fn text_is_finished()
    ensures { IsFinished }
{}

/// Says that the text of ordered cards, none of them a Z card, reads back with the Z card behind them.
pub fn sealed_text_reads_back()
    ensures { IsReadBack }
{}
