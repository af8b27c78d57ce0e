//! Checks the logins of a message.
ghost use Rattle.std.specs.Prelude.{◌≡◌, ◌++◌, None, Some, length, IfOk, IfErr, option_copied};
ghost use Rattle.std.specs.Str.{bytes_eq};
ghost use Rattle.fsl_name.specs.Name.{name_of, name_text};
ghost use Rattle.fsl_wire.specs.declared.WireCard.TheVariants as card_is;
ghost use Rattle.fsl_login.specs.Logins.{nobody, user_named, caps_or_none, both, granted};
ghost use Rattle.fsl_login.specs.Judging.{IsJudged, IsSpared};

use crate::{LoginFault, User, Users};
use fsl_name::Name;
use fsl_wire::{Caps, Draft, Message, WireCard};
use sha1::Sha1;

/// The user whose rights every message has.
const NOBODY: &[u8] = b"nobody";

fn no_caps() -> Caps
    ensures { result ≡ caps_or_none None }
{
    Caps {
        pull: false,
        push: false,
        clone: false,
        private: false,
    }
}

/// Finds the user of a name.
fn user_named<'a>(users: &'a [User], name: &[u8]) -> Option<&'a User>
    ensures { option_copied result ≡ user_named users.now name.now }
{
    users.iter().find(|user| user.name.bytes() == name)
}

/// Returns the rights of the user with a name, or none if there is no such user.
fn caps_named(users: &[User], name: &[u8]) -> Caps
    ensures { result ≡ caps_or_none (user_named users.now name.now) }
{
    match user_named(users, name) {
        Some(user) => user.caps,
        None => no_caps(),
    }
}

fn is_nobody(name: &[u8]) -> bool
    ensures { result ≡ bytes_eq name.now nobody }
{
    name == NOBODY
}

/// Returns whether a text is the 40 digits of a name.
fn is_name_text(text: &[u8], name: Name) -> bool
    ensures { result ≡ bytes_eq text.now (name_text name) }
{
    text == name.text().as_slice()
}

/// Returns whether a signature is the digits of the SHA-1 of a nonce followed by a secret.
fn is_signed(nonce: &[u8], secret: &[u8], signature: &[u8]) -> bool
    ensures { result ≡ bytes_eq signature.now (name_text (name_of (nonce.now ++ secret.now))) }
{
    let mut hasher = Sha1::new();
    hasher.update(nonce);
    hasher.update(secret);
    is_name_text(signature, Name::from_bytes(hasher.finalize()))
}

/// Returns the rights of a login, or why it isn't accepted. It tests the nonce first, then the user, then the signature.
fn login_caps(
    users: &[User],
    user: &[u8],
    nonce: &[u8],
    signature: &[u8],
    tail: Name,
    line: u64,
) -> Result<Caps, LoginFault>
    ensures { IsJudged users.now (card_is.Login user.now nonce.now signature.now tail line) result }
{
    if !is_name_text(nonce, tail) {
        return Err(LoginFault::Nonce { line });
    }
    if is_nobody(user) {
        return Err(LoginFault::NoUser { line });
    }
    let Some(found) = user_named(users, user) else {
        return Err(LoginFault::NoUser { line });
    };
    if is_signed(nonce, found.secret.bytes(), signature) {
        Ok(found.caps)
    } else {
        Err(LoginFault::Signature { line })
    }
}

/// Returns the rights that a card adds: none, if it is no login.
fn card_caps(users: &[User], card: &WireCard) -> Result<Caps, LoginFault>
    ensures { IsJudged users.now card.now result }
{
    match card {
        WireCard::Login {
            user,
            nonce,
            signature,
            tail,
            line,
        } => login_caps(
            users,
            user.get().bytes(),
            nonce.get().bytes(),
            signature.get().bytes(),
            *tail.get(),
            *line,
        ),
        _ => Ok(no_caps()),
    }
}

/// Returns the rights of either of two.
fn both(a: Caps, b: Caps) -> Caps
    ensures { result ≡ both a b }
{
    Caps {
        pull: a.pull || b.pull,
        push: a.push || b.push,
        clone: a.clone || b.clone,
        private: a.private || b.private,
    }
}

/// Returns the rights of a message: those of `nobody`, and those that its logins add.
///
/// The nonce of a login is the 40 digits of its tail, and its signature those of the SHA-1 of the nonce followed by the
/// user's secret. Takes no memory. Each login costs a look over all users and one hash.
///
/// Errors: the first login that isn't accepted, with its line. The fault is `Nonce` if the nonce is another one, else `NoUser`
/// for `nobody` and for a name without a line, else `Signature`.
/// FORMATS: Users, logins and replies
pub fn granted(users: &Users, message: &Message) -> Result<Caps, LoginFault>
    ensures { result ≡ granted users.now message.now }
{
    let users = users.items();
    let mut caps = caps_named(users, NOBODY);
    for card in message.cards() {
        caps = both(caps, card_caps(users, card)?);
    }
    Ok(caps)
}

/// Returns the rights of a draft's message, as [`granted`], and settles its logins one after another. No login is settled behind
/// the first that isn't accepted. To settle one makes its tail, a hash of all bytes behind its line, and the secret of an
/// accepted one costs another, of a few bytes. If all are accepted, all cards are settled.
///
/// Errors: those of [`granted`].
pub fn granted_by(users: &Users, draft: &mut Draft<'_>) -> Result<Caps, LoginFault>
    ensures granted { result ≡ granted users.now draft.old.message }
    ensures message { draft.new.message ≡ draft.old.message }
    ensures all { IfOk result (λ _. draft.new.settled ≡ length draft.old.message) }
    ensures spared { IfErr result (λ _. IsSpared users.now draft.old draft.new.settled) }
{
    let users = users.items();
    let mut caps = caps_named(users, NOBODY);
    for place in 0..draft.len() {
        draft.settle(place);
        caps = both(caps, card_caps(users, draft.card(place))?);
    }
    Ok(caps)
}
