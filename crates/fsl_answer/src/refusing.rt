//! Decides which message is refused, and why.
ghost use Rattle.std.specs.Prelude.{◌≡◌};
ghost use Rattle.std.specs.Str.{bytes_eq};
ghost use Rattle.fsl_name.specs.Name.{name_text};
ghost use Rattle.fsl_answer.specs.Refusals.{unless, or_else, refusal_of, is_push, refusal};
ghost use Rattle.fsl_answer.specs.declared.reasons.Refusal.TheVariants as refusal_is;

use crate::Refusal;
use fsl_name::Name;
use fsl_wire::{Caps, Message, WireCard};

/// Returns a reason, unless a test holds.
fn unless(holds: bool, reason: Refusal) -> Option<Refusal>
    ensures { result ≡ unless holds reason }
{
    if holds { None } else { Some(reason) }
}

/// Returns whether a code is that of the project.
fn is_code(code: &[u8], project: Name) -> bool
    ensures { result ≡ bytes_eq code.now (name_text project) }
{
    code == project.text().as_slice()
}

/// Returns why a card with a project's code is refused: the code is another one, or else the sender isn't allowed.
fn code_refusal(code: &[u8], project: Name, allowed: bool, reason: Refusal) -> Option<Refusal>
    ensures { result ≡ or_else (unless (bytes_eq code.now (name_text project)) refusal_is.Project) (unless allowed reason) }
{
    if is_code(code, project) {
        unless(allowed, reason)
    } else {
        Some(Refusal::Project)
    }
}

/// Returns why a card is refused. `pushed` says whether a push card came before it.
fn card_refusal(card: &WireCard, caps: Caps, project: Name, pushed: bool) -> Option<Refusal>
    ensures { result ≡ refusal_of caps project pushed card.now }
{
    match card {
        WireCard::Push { project: code, .. } => {
            code_refusal(code.bytes(), project, caps.push, Refusal::Write)
        }
        WireCard::Pull { project: code, .. } => {
            code_refusal(code.bytes(), project, caps.pull, Refusal::Read)
        }
        WireCard::Clone { .. } => unless(caps.clone, Refusal::Clone),
        WireCard::File { .. } => unless(pushed, Refusal::Write),
        WireCard::Private => unless(caps.private, Refusal::Private),
        _ => None,
    }
}

fn is_push(card: &WireCard) -> bool
    ensures { result ≡ is_push card.now }
{
    matches!(card, WireCard::Push { .. })
}

/// Returns why a message is refused, by its sender and the project's code. The first card that refuses decides. A `push` or a
/// `pull` card refuses if its project code differs, or else without the right to push or pull. A `clone` card refuses without the
/// right to clone, a `file` card without a push card before it, and a `private` card without the right to private artifacts.
/// Returns `None` if no card refuses. Takes no memory.
/// FORMATS: Users, logins and replies
pub fn refusal(message: &Message, caps: Caps, project: Name) -> Option<Refusal>
    ensures { result ≡ refusal message.now caps project }
{
    let mut pushed = false;
    for card in message.cards() {
        if let Some(reason) = card_refusal(card, caps, project, pushed) {
            return Some(reason);
        }
        pushed = pushed || is_push(card);
    }
    None
}
