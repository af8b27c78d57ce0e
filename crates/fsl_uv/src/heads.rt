//! Reads the lines of cards in their written form and in no other.
ghost use Rattle.std.specs.Prelude.{◌≡◌, ◌≢◌, ◌++◌, ◌∷◌, ◌<◌, ◌^◌, ℕ, List, Option, decimal, IfOk, MatchBool, MatchOption};
ghost use Rattle.std.specs.Option.{option_map};
ghost use Rattle.fsl_date.specs.Moment.{IsMoment};
ghost use Rattle.fsl_uv.specs.Cards.{IsSized};
ghost use Rattle.fsl_uv.specs.Words.{stamped};
ghost use Rattle.fsl_uv.specs.Reading.{IsStamped, stamped_text, IsHead, head_text};
ghost use Rattle.fsl_uv.specs.declared.heads.Head as head_type;
ghost use Rattle.fsl_uv.specs.declared.heads.Head.TheVariants as head_is;
ghost use Rattle.fsl_uv.specs.declared.heads.Stamped as stamped_type;

use crate::entries::{MOST_OF_CONTENT, read_stamp};
use crate::words::{behind, read_path, read_size, split_at};
use fsl_date::Moment;
use fsl_name::Name;
use fsl_text::{Memory, Text};
use std::alloc::Global;

/// The facts of a line on a path: its moment, the name of its content or none, and the size.
#[derive(Drop)]
pub(crate) struct Stamped {
    pub(crate) path: Text,
    pub(crate) moment: Moment,
    pub(crate) hash: Option<Name>,
    pub(crate) size: u64,
}

/// The line of a card.
#[derive(Drop)]
pub(crate) enum Head {
    Igot(Stamped),
    Gimme(Text),
    File(Stamped),
}

/// Returns whether a content of this hash may have a size.
fn is_sized(hash: &Option<Name>, size: u64) -> bool
    ensures { MatchBool result (IsSized hash.now size) (¬ (IsSized hash.now size)) }
{
    match hash {
        Some(name) => {
            let _ = name.bytes();
            size <= MOST_OF_CONTENT as u64
        }
        None => size == 0,
    }
}

/// Returns a stamp with its size, if a content of the hash may have that size.
fn sized(stamp: (Moment, Option<Name>, &[u8]), size: u64) -> Option<(Moment, Option<Name>, u64)>
    ensures { MatchOption result (¬ (IsSized stamp.entry.1 size)) (λ s. (s.0 ≡ stamp.entry.0) × (s.1 ≡ stamp.entry.1) × (s.2 ≡ size) × IsSized stamp.entry.1 size) }
{
    let (moment, hash, _) = stamp;
    if is_sized(&hash, size) {
        Some((moment, hash, size))
    } else {
        None
    }
}

/// Reads a moment, a hash and a size.
fn read_marks(words: &[u8]) -> Option<(Moment, Option<Name>, u64)>
    ensures { MatchOption result ((m : ℕ) (h : Option (List ℕ)) (n : ℕ) → IsMoment m → IsSized h n → words.now ≢ stamped m h (decimal n)) (λ s. IsMoment s.0 × IsSized s.1 s.2 × (words.now ≡ stamped s.0 s.1 (decimal s.2))) }
{
    let Some(stamp) = read_stamp(words) else {
        return None;
    };
    let Some(size) = read_size(stamp.2) else {
        return None;
    };
    match sized(stamp, size) {
        Some(marks) => Some(marks),
        None => None,
    }
}

/// Reads a path, a moment, a hash and a size.
fn read_stamped(alloc: Global, words: &[u8]) -> Result<Option<Stamped>, Memory>
    ensures { IfOk result (λ o. MatchOption o ((s : stamped_type.Stamped) → IsStamped s → words.now ≢ stamped_text s) (λ s. IsStamped s × (words.now ≡ stamped_text s))) }
{
    let Some((word, rest)) = split_at(words, b' ') else {
        return Ok(None);
    };
    let Some((moment, hash, size)) = read_marks(rest) else {
        return Ok(None);
    };
    let path = read_path(alloc, word)?;
    match path {
        Some(path) => Ok(Some(Stamped {
            path,
            moment,
            hash,
            size,
        })),
        None => Ok(None),
    }
}

/// Makes the line of an offer.
fn igot_of(stamped: Option<Stamped>) -> Option<Head>
    ensures { result ≡ option_map head_is.Igot stamped }
{
    match stamped {
        Some(stamped) => Some(Head::Igot(stamped)),
        None => None,
    }
}

/// Makes the line of a file.
fn file_of(stamped: Option<Stamped>) -> Option<Head>
    ensures { result ≡ option_map head_is.File stamped }
{
    match stamped {
        Some(stamped) => Some(Head::File(stamped)),
        None => None,
    }
}

/// Makes the line of a question.
fn gimme_of(path: Option<Text>) -> Option<Head>
    ensures { result ≡ option_map head_is.Gimme path }
{
    match path {
        Some(path) => Some(Head::Gimme(path)),
        None => None,
    }
}

/// Reads the line at the front of a card.
pub(crate) fn read_head(alloc: Global, line: &[u8]) -> Result<Option<Head>, Memory>
    ensures { IfOk result (λ o. MatchOption o ((h : head_type.Head) → IsHead h → line.now ≢ head_text h) (λ h. IsHead h × (line.now ≡ head_text h))) }
{
    if let Some(words) = behind(line, b"uvigot ") {
        return Ok(igot_of(read_stamped(alloc, words)?));
    }
    if let Some(words) = behind(line, b"uvfile ") {
        return Ok(file_of(read_stamped(alloc, words)?));
    }
    match behind(line, b"uvgimme ") {
        Some(word) => Ok(gimme_of(read_path(alloc, word)?)),
        None => Ok(None),
    }
}
