//! Prints what a sync came to.
ghost use Rattle.std.specs.Prelude.{◌≡◌, IfOk};
ghost use Rattle.fossil.specs.Syncs as syncs;

use crate::answers::answer::{Answer, joined, line, numbered, refusal_of, wrong_name};
use crate::answers::status::{DONE, MISSING, NOT_REPOSITORY, TOO_MANY_ROUNDS, WRONG_REPLY};
use crate::worked::append_line;
use fsl_name::Name;
use fsl_pull::{PeerFault, Pulled};
use fsl_text::{Memory, Text, escape};
use std::alloc::Global;

/// The text of an error card, escaped.
fn error_text(alloc: Global, error: &[u8]) -> Result<Text, Memory>
    ensures { IfOk result (λ text. text ≡ syncs.error_text error.now) }
{
    let escaped = escape(alloc, error)?;
    joined(alloc, b"error ", escaped.bytes())
}

/// What is wrong with a reply.
fn peer_text(alloc: Global, why: &PeerFault) -> Result<Text, Memory>
    ensures { IfOk result (λ text. text ≡ syncs.peer_text why.now) }
{
    match why {
        PeerFault::Head => Text::of(alloc, b"head"),
        PeerFault::Http { found } => numbered(alloc, b"http ", u64::from(*found)),
        PeerFault::Long { found } => numbered(alloc, b"long ", *found),
        PeerFault::Short { found } => numbered(alloc, b"short ", *found),
        PeerFault::Line { line } => numbered(alloc, b"line ", *line),
        PeerFault::Error { text } => error_text(alloc, text.bytes()),
        PeerFault::WrongName { name, found } => wrong_name(alloc, *name, *found),
        PeerFault::NoPush => Text::of(alloc, b"no push card"),
        PeerFault::NoSequence => Text::of(alloc, b"no sequence"),
        PeerFault::Sequence { found } => numbered(alloc, b"sequence ", *found),
        PeerFault::Again { name } => joined(alloc, b"asked again ", name.text().as_slice()),
    }
}

/// Makes the answer of a sync that ended well: how many rounds it had, and how many artifacts were stored. `Memory` is
/// the only error.
pub fn synced(alloc: Global, pulled: &Pulled) -> Result<Answer, Memory>
    ensures { IfOk result (λ a. a ≡ syncs.synced pulled.now.rounds pulled.now.stored) }
{
    let mut text = Text::empty(alloc);
    append_line(alloc, &mut text, b"rounds ", pulled.rounds)?;
    append_line(alloc, &mut text, b"stored ", pulled.stored)?;
    Ok(Answer { status: DONE, text })
}

/// Makes the answer about a wrong reply. `Memory` is the only error.
pub fn wrong_reply(alloc: Global, why: &PeerFault) -> Result<Answer, Memory>
    ensures { IfOk result (λ a. a ≡ syncs.wrong_reply why.now) }
{
    let text = peer_text(alloc, why)?;
    line(alloc, WRONG_REPLY, b"peer: ", text.bytes())
}

/// Makes the answer about a name that was asked for and isn't sent. `Memory` is the only error.
pub fn missing(alloc: Global, name: Name) -> Result<Answer, Memory>
    ensures { IfOk result (λ a. a ≡ syncs.missing name) }
{
    line(alloc, MISSING, b"missing ", name.text().as_slice())
}

/// Makes the answer of a sync that was given up. `Memory` is the only error.
pub fn too_many_rounds(alloc: Global) -> Result<Answer, Memory>
    ensures { IfOk result (λ a. a ≡ syncs.too_many_rounds) }
{
    line(alloc, TOO_MANY_ROUNDS, b"too many ", b"rounds")
}

/// Makes the refusal of a peer of another project, by its code. `Memory` is the only error.
pub fn other_project(alloc: Global, found: Name) -> Result<Answer, Memory>
    ensures { IfOk result (λ a. a ≡ syncs.other_project found) }
{
    refusal_of(alloc, b"other project ", found.text().as_slice())
}

/// Makes the answer about a peer's file that isn't a repository, by the place at which it fails to be one. `Memory` is
/// the only error.
pub fn no_peer(alloc: Global, at: u64) -> Result<Answer, Memory>
    ensures { IfOk result (λ a. a ≡ syncs.no_peer at) }
{
    let digits = at.to_string(alloc)?;
    line(
        alloc,
        NOT_REPOSITORY,
        b"not a repository: peer ",
        digits.as_bytes(),
    )
}
