//! Copies J cards and the names of fields.
ghost use Rattle.std.specs.Prelude.{◌≡◌, IfOk};

use super::FieldChange;
use fsl_text::{List, Memory, Text};
use std::alloc::Global;

/// Copies some cards. `Memory` is the only error.
pub fn copied(alloc: Global, cards: &[FieldChange]) -> Result<List<FieldChange>, Memory>
    ensures { IfOk result (λ copy. copy ≡ cards.now) }
{
    let mut copy = List::new(alloc);
    for card in cards {
        if copy.push(card.copied(alloc)?).is_err() {
            return Err(Memory);
        }
    }
    Ok(copy)
}

/// Copies some texts. `Memory` is the only error.
pub fn texts(alloc: Global, texts: &[Text]) -> Result<List<Text>, Memory>
    ensures { IfOk result (λ copy. copy ≡ texts.now) }
{
    let mut copy = List::new(alloc);
    for text in texts {
        if copy.push(Text::of(alloc, text.bytes())?).is_err() {
            return Err(Memory);
        }
    }
    Ok(copy)
}
