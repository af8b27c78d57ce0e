//! Makes the receipt of the files that a message brings.
ghost use Rattle.std.specs.Prelude.{◌≡◌, ◌≤◌, ◌^◌, ℕ, [], ◌∷◌, length, IfOk, OnErr};
ghost use Rattle.fsl_outside.specs.Clocks.{Asks};
ghost use Rattle.fsl_serve.specs.Session.{login_in, receipt_of};

use fsl_outside::Clock;
use fsl_record::Receipt;
use fsl_text::{Memory, Text};
use fsl_wire::{Message, WireCard};
use std::alloc::Global;

/// The user of the first login card, or `nobody`.
fn first_login<'a>(cards: &'a [WireCard]) -> &'a [u8]
    ensures { result.now ≡ login_in cards.now }
{
    for card in cards {
        if let WireCard::Login { user, .. } = card {
            return user.get().bytes();
        }
    }
    b"nobody"
}

/// The receipt of what a message brings now: who sent it, and the moment that the clock answers. Where memory lacks, the clock
/// isn't asked.
pub(crate) fn receipt_now<C: Clock>(
    alloc: Global,
    message: &Message,
    clock: &mut C,
) -> Result<Receipt, Memory>
    requires short { length (login_in message.now) ≤ 2 ^ 20 }
    ensures receipt { IfOk result (λ r. (r ≡ receipt_of message.now r.moment) × Asks (C.told clock.old) (C.told clock.new) (r.moment ∷ [])) }
    ensures none { OnErr result (C.told clock.new ≡ C.told clock.old) }
{
    let login = Text::of(alloc, first_login(message.cards()))?;
    Ok(Receipt::new(login, clock.now()).unwrap())
}
