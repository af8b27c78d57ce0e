//! Makes the cards of lines, with their texts unescaped and copied.
ghost use Rattle.std.specs.Prelude.{◌≡◌, [], ◌∷◌, ◌++◌, ℕ, List as Items, length, IfOk, OnOk, option_map, option_to_list};
ghost use Rattle.fsl_text.specs.Escapes.{unescape};
ghost use Rattle.fsl_name.specs.Name.{name_of};
ghost use Rattle.fsl_wire.specs.declared.WireCard.TheVariants as card_is;
ghost use Rattle.fsl_wire.specs.Messages.{line_cards};
ghost use Rattle.fsl_wire.specs.Meanings.{line_of};
ghost use Rattle.fsl_wire.specs.Drafts.{with_tail, with_tails, logins_of};

use super::drafts::is_login;
use super::meaning::Meaning;
use crate::{Boxed, WireCard};
use fsl_name::Name;
use fsl_text::{Memory, Text, unescape};
use std::alloc::Global;

/// The placeholder of a login's tail until the tail is made.
const NO_TAIL: [u8; 20] = [0; 20];

/// Unescapes a text, and puts it behind a pointer.
fn boxed_unescaped(alloc: Global, text: &[u8]) -> Result<Boxed<Text>, Memory>
    ensures { IfOk result (λ boxed. boxed ≡ unescape text.now) }
{
    Boxed::of(alloc, unescape(alloc, text)?)
}

/// Copies a text behind a pointer.
fn boxed_copy(alloc: Global, text: &[u8]) -> Result<Boxed<Text>, Memory>
    ensures { IfOk result (λ boxed. boxed ≡ text.now) }
{
    Boxed::of(alloc, Text::of(alloc, text)?)
}

/// Makes a login with its line. Its tail has no bytes yet.
fn login(
    alloc: Global,
    user: &[u8],
    nonce: &[u8],
    signature: &[u8],
    line: u64,
) -> Result<WireCard, Memory>
    ensures { IfOk result (λ card. (b : Items ℕ) → with_tail b card ≡ card_is.Login (unescape user.now) nonce.now signature.now (name_of b) line) }
{
    let tail = Boxed::of(alloc, Name::from_bytes(NO_TAIL))?;
    Ok(WireCard::Login {
        user: boxed_unescaped(alloc, user)?,
        nonce: boxed_copy(alloc, nonce)?,
        signature: boxed_copy(alloc, signature)?,
        tail,
        line,
    })
}

fn push(alloc: Global, server: &[u8], project: &[u8]) -> Result<WireCard, Memory>
    ensures { IfOk result (λ card. card ≡ card_is.Push server.now project.now) }
{
    Ok(WireCard::Push {
        server: Text::of(alloc, server)?,
        project: Text::of(alloc, project)?,
    })
}

fn pull(alloc: Global, server: &[u8], project: &[u8]) -> Result<WireCard, Memory>
    ensures { IfOk result (λ card. card ≡ card_is.Pull server.now project.now) }
{
    Ok(WireCard::Pull {
        server: Text::of(alloc, server)?,
        project: Text::of(alloc, project)?,
    })
}

/// Makes the card of a line that has one, by its number and its content. A login has no tail yet.
fn card_of(
    alloc: Global,
    meaning: &Meaning<'_>,
    line: u64,
    content: &[u8],
) -> Result<Option<WireCard>, Memory>
    ensures { IfOk result (λ card. (b : Items ℕ) → option_to_list (option_map (with_tail b) card) ≡ line_cards (line_of meaning.now) line content.now b) }
{
    match *meaning {
        Meaning::Login {
            user,
            nonce,
            signature,
        } => Ok(Some(login(alloc, user, nonce, signature, line)?)),
        Meaning::Push { server, project } => Ok(Some(push(alloc, server, project)?)),
        Meaning::Pull { server, project } => Ok(Some(pull(alloc, server, project)?)),
        Meaning::Clone { from } => Ok(Some(WireCard::Clone { from })),
        Meaning::CloneSeqno { next } => Ok(Some(WireCard::CloneSeqno { next })),
        Meaning::File { name, .. } => Ok(Some(WireCard::File {
            name,
            bytes: Text::of(alloc, content)?,
        })),
        Meaning::Private => Ok(Some(WireCard::Private)),
        Meaning::Igot { name, private } => Ok(Some(WireCard::Igot { name, private })),
        Meaning::Gimme { name } => Ok(Some(WireCard::Gimme { name })),
        Meaning::Error { text } => Ok(Some(WireCard::Error {
            text: unescape(alloc, text)?,
        })),
        Meaning::Message { text } => Ok(Some(WireCard::Message {
            text: unescape(alloc, text)?,
        })),
        Meaning::SendPrivate => Ok(Some(WireCard::SendPrivate)),
        Meaning::Blank | Meaning::Bad(_) => Ok(None),
    }
}

/// Adds an item at the end. The room grows by an eighth at a time: to double it would take as much again as the items do.
fn put<T: Drop>(list: &mut Vec<T>, item: T) -> Result<(), Memory>
    ensures { OnOk result (list.new.items ≡ list.old.items ++ item ∷ []) }
{
    if list.len() == list.capacity() && list.reserve_exact(list.len() / 8 + 16).is_err() {
        return Err(Memory);
    }
    match list.push(item) {
        Ok(()) => Ok(()),
        Err(_) => Err(Memory),
    }
}

/// Adds a card at the end, and for a login the bytes behind its line at the end of theirs.
fn add_made<'a>(
    cards: &mut Vec<WireCard>,
    behinds: &mut Vec<&'a [u8]>,
    card: WireCard,
    behind: &'a [u8],
) -> Result<(), Memory>
    requires { length behinds.old.items ≡ logins_of cards.old.items }
    ensures cards { OnOk result (with_tails cards.new.items behinds.new.items ≡ with_tails cards.old.items behinds.old.items ++ with_tail behind.now card ∷ []) }
    ensures each { OnOk result (length behinds.new.items ≡ logins_of cards.new.items) }
{
    let login = is_login(&card);
    // The card goes first, so that none is held if there is no memory for the bytes.
    put(cards, card)?;
    if login { put(behinds, behind) } else { Ok(()) }
}

/// Adds the card of a line at the end, if it has one. For a login it adds the bytes behind the line's newline at the end of
/// theirs. `Memory` is the only error.
pub fn add_card<'a>(
    alloc: Global,
    cards: &mut Vec<WireCard>,
    behinds: &mut Vec<&'a [u8]>,
    meaning: &Meaning<'_>,
    line: u64,
    content: &[u8],
    behind: &'a [u8],
) -> Result<(), Memory>
    requires { length behinds.old.items ≡ logins_of cards.old.items }
    ensures cards { OnOk result (with_tails cards.new.items behinds.new.items ≡ with_tails cards.old.items behinds.old.items ++ line_cards (line_of meaning.now) line content.now behind.now) }
    ensures each { OnOk result (length behinds.new.items ≡ logins_of cards.new.items) }
{
    match card_of(alloc, meaning, line, content)? {
        Some(card) => add_made(cards, behinds, card, behind),
        None => Ok(()),
    }
}
