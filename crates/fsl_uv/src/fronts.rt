//! Reads the front of a message.
ghost use Rattle.std.specs.Prelude.{◌≡◌, ◌≢◌, ◌+◌, ◌<◌, ◌^◌, ◌++◌, ◌∷◌, ℕ, List, length, drop, Some, IfOk, MatchOption};
ghost use Rattle.fsl_name.specs.Name.{name_of};
ghost use Rattle.fsl_uv.specs.Reading.{IsFront, IsStamped, IsHead, IsNamedFront, IsFrontBehind};

use crate::entries::content_of;
use crate::heads::{Head, Stamped, read_head};
use crate::words::split_at;
use crate::{Card, Entry};
use fsl_name::Name;
use fsl_text::Memory;
use std::alloc::Global;

/// The front of some bytes.
#[derive(Drop)]
pub(crate) enum Front {
    /// The bytes begin with a card, whose text has this length.
    Card { card: Card, size: usize },
    /// The bytes begin with a file whose content has the second name, and its line the first.
    Misnamed { kept: Name, found: Name },
    /// The bytes begin with no card.
    Bad,
}

/// Returns the content of this size, which a newline follows.
fn held_behind(behind: &[u8], size: u64) -> Option<&[u8]>
    ensures { MatchOption result ((held rest : List ℕ) → length held ≡ size → behind.now ≢ held ++ 10 ∷ rest) (λ held. (length held.now ≡ size) × (behind.now ≡ held.now ++ 10 ∷ drop (size + 1) behind.now)) }
{
    if size >= behind.len() as u64 || behind[size as usize] != b'\n' {
        None
    } else {
        Some(&behind[..size as usize])
    }
}

/// Returns the name of a line and that of the bytes behind it, if they differ.
fn misnamed(hash: &Option<Name>, held: &[u8]) -> Option<(Name, Name)>
    ensures { MatchOption result ((name : List ℕ) → hash.now ≡ Some name → name ≡ name_of held.now) (λ p. (hash.now ≡ Some p.0) × (p.1 ≡ name_of held.now) × (p.0 ≢ p.1)) }
{
    match hash {
        Some(kept) => {
            let found = Name::of(held);
            if *kept == found {
                None
            } else {
                Some((*kept, found))
            }
        }
        None => None,
    }
}

/// Makes the file of a line and its content, whose text has this length.
fn file_front(alloc: Global, stamped: Stamped, held: &[u8], size: usize) -> Result<Front, Memory>
    requires good { IsStamped stamped }
    requires size { length held.now ≡ stamped.size }
    ensures { IfOk result (IsNamedFront stamped held.now size) }
{
    if let Some((kept, found)) = misnamed(&stamped.hash, held) {
        return Ok(Front::Misnamed { kept, found });
    }
    let bytes = content_of(alloc, &stamped.hash, held)?;
    let entry = Entry {
        path: stamped.path,
        moment: stamped.moment,
        bytes,
    };
    Ok(Front::Card {
        card: Card::File { entry },
        size,
    })
}

/// Makes the front of a line's head and the bytes behind it.
fn front_behind(alloc: Global, head: Head, behind: &[u8], from: usize) -> Result<Front, Memory>
    requires fits { from + length behind.now < 2 ^ 63 }
    requires good { IsHead head }
    ensures { IfOk result (IsFrontBehind head behind.now from) }
{
    match head {
        Head::Igot(stamped) => Ok(Front::Card {
            card: Card::Igot {
                path: stamped.path,
                moment: stamped.moment,
                hash: stamped.hash,
                size: stamped.size,
            },
            size: from,
        }),
        Head::Gimme(path) => Ok(Front::Card {
            card: Card::Gimme { path },
            size: from,
        }),
        Head::File(stamped) => match held_behind(behind, stamped.size) {
            Some(held) => file_front(alloc, stamped, held, from + held.len() + 1),
            None => Ok(Front::Bad),
        },
    }
}

/// Reads the front of some bytes.
pub(crate) fn front_of(alloc: Global, bytes: &[u8]) -> Result<Front, Memory>
    ensures { IfOk result (IsFront bytes.now) }
{
    let Some((line, behind)) = split_at(bytes, b'\n') else {
        return Ok(Front::Bad);
    };
    let head = read_head(alloc, line)?;
    match head {
        Some(head) => front_behind(alloc, head, behind, line.len() + 1),
        None => Ok(Front::Bad),
    }
}
