//! Writes stored entries, and reads them in their written form and in no other.
ghost use Rattle.std.specs.Prelude.{◌≡◌, ◌≢◌, ◌++◌, ◌≤◌, ℕ, List, Option, length, IfOk, OnOk, MatchBool, MatchOption, ◌∷◌, []};
ghost use Rattle.std.specs.Option.{option_map};
ghost use Rattle.fsl_name.specs.Name.{name_of};
ghost use Rattle.fsl_date.specs.Moment.{IsMoment};
ghost use Rattle.fsl_uv.specs.declared.Entry as entry_type;
ghost use Rattle.fsl_uv.specs.Entries.{IsEntry, IsEntryText, entry_text};
ghost use Rattle.fsl_uv.specs.Cards.{hashed};
ghost use Rattle.fsl_uv.specs.Words.{stamped, IsHash, IsContent, IsHeldAs, AreParts, HasNoParts};

use crate::Entry;
use crate::words::{behind, read_hash, read_moment, read_path, split_at};
use fsl_date::Moment;
use fsl_name::Name;
use fsl_text::{Memory, Text, escape};
use std::alloc::Global;

/// The most bytes of a content.
pub(crate) const MOST_OF_CONTENT: usize = 16_711_680;

/// Returns the name of a content, or none of a deleted file.
pub(crate) fn hash_of(bytes: &Option<Text>) -> Option<Name>
    ensures value { result ≡ option_map name_of bytes.now }
    ensures named { IsHash result }
{
    match bytes {
        Some(content) => Some(Name::of(content.bytes())),
        None => None,
    }
}

/// A moment, a hash and a further word.
pub(crate) fn read_stamp(words: &[u8]) -> Option<(Moment, Option<Name>, &[u8])>
    ensures { MatchOption result ((m : ℕ) (h : Option (List ℕ)) (w : List ℕ) → IsMoment m → IsHash h → words.now ≢ stamped m h w) (λ s. IsMoment s.0 × IsHash s.1 × (words.now ≡ stamped s.0 s.1 s.2.now)) }
{
    let Some((moment, rest)) = split_at(words, b' ') else {
        return None;
    };
    let Some((hash, word)) = split_at(rest, b' ') else {
        return None;
    };
    let Some(moment) = read_moment(moment) else {
        return None;
    };
    match read_hash(hash) {
        Some(hash) => Some((moment, hash, word)),
        None => None,
    }
}

/// Returns whether bytes are the content with this hash, and are not too many.
pub(crate) fn is_content(hash: &Option<Name>, held: &[u8]) -> bool
    ensures { MatchBool result (IsContent hash.now held.now) (¬ (IsContent hash.now held.now)) }
{
    match hash {
        Some(name) => held.len() <= MOST_OF_CONTENT && *name == Name::of(held),
        None => held.is_empty(),
    }
}

/// The parts of an entry's text, with its path as it is written.
#[derive(Clone, Copy)]
pub(crate) struct Parts<'a> {
    pub(crate) moment: Moment,
    pub(crate) hash: Option<Name>,
    pub(crate) word: &'a [u8],
    pub(crate) held: &'a [u8],
}

/// Returns the parts of a stamp and these bytes, if they are the content of the hash.
fn checked<'a>(stamp: (Moment, Option<Name>, &'a [u8]), held: &'a [u8]) -> Option<Parts<'a>>
    ensures { MatchOption result (¬ (IsContent stamp.entry.1 held.now)) (λ p. (p.moment ≡ stamp.entry.0) × (p.hash ≡ stamp.entry.1) × (p.word.now ≡ stamp.entry.2.now) × (p.held.now ≡ held.now) × IsContent stamp.entry.1 held.now) }
{
    let (moment, hash, word) = stamp;
    if is_content(&hash, held) {
        Some(Parts {
            moment,
            hash,
            word,
            held,
        })
    } else {
        None
    }
}

/// Splits an entry's text into its parts.
fn parts_of(text: &[u8]) -> Option<Parts<'_>>
    ensures { MatchOption result (HasNoParts text.now) (λ p. AreParts text.now p.moment p.hash p.word.now p.held.now) }
{
    let Some((line, held)) = split_at(text, b'\n') else {
        return None;
    };
    let Some(words) = behind(line, b"uv ") else {
        return None;
    };
    let Some(stamp) = read_stamp(words) else {
        return None;
    };
    match checked(stamp, held) {
        Some(parts) => Some(parts),
        None => None,
    }
}

/// Returns the content with this hash.
pub(crate) fn content_of(
    alloc: Global,
    hash: &Option<Name>,
    held: &[u8],
) -> Result<Option<Text>, Memory>
    requires { IsContent hash.now held.now }
    ensures { IfOk result (λ bytes. IsHeldAs hash.now held.now bytes) }
{
    match hash {
        Some(_) => Ok(Some(Text::of(alloc, held)?)),
        None => Ok(None),
    }
}

/// Reads the entry of a text, which is written as [`entry_text`] writes it. Returns `None` for every other text.
/// FORMATS: Unversioned files
pub(crate) fn read_entry(alloc: Global, text: &[u8]) -> Result<Option<Entry>, Memory>
    ensures { IfOk result (λ o. MatchOption o ((e : entry_type.Entry) → IsEntry e → text.now ≢ entry_text e) (IsEntryText text.now)) }
{
    let Some(parts) = parts_of(text) else {
        return Ok(None);
    };
    let bytes = content_of(alloc, &parts.hash, parts.held)?;
    let path = read_path(alloc, parts.word)?;
    match path {
        Some(path) => Ok(Some(Entry {
            path,
            moment: parts.moment,
            bytes,
        })),
        None => Ok(None),
    }
}

/// Writes a space and a word at the end of a text.
pub(crate) fn add_word(into: &mut Text, word: &[u8]) -> Result<(), Memory>
    ensures { OnOk result (into.new ≡ into.old ++ 32 ∷ word.now) }
{
    into.append(b" ")?;
    into.append(word)
}

/// Writes a space and a hash at the end of a text.
pub(crate) fn add_hash(into: &mut Text, hash: &Option<Name>) -> Result<(), Memory>
    ensures { OnOk result (into.new ≡ into.old ++ 32 ∷ hashed hash.now) }
{
    match hash {
        Some(name) => add_word(into, &name.text()),
        None => add_word(into, b"-"),
    }
}

/// Writes a space, a moment, a hash and a further word at the end of a text.
pub(crate) fn add_stamp(
    into: &mut Text,
    moment: &Moment,
    hash: &Option<Name>,
    word: &[u8],
) -> Result<(), Memory>
    ensures { OnOk result (into.new ≡ into.old ++ 32 ∷ stamped moment.now hash.now word.now) }
{
    add_word(into, &moment.text())?;
    add_hash(into, hash)?;
    add_word(into, word)
}

/// Writes the text of an entry.
/// FORMATS: Unversioned files
pub(crate) fn entry_text(alloc: Global, entry: &Entry) -> Result<Text, Memory>
    ensures { IfOk result (λ text. text ≡ entry_text entry.now) }
{
    let path = escape(alloc, entry.path.bytes())?;
    let mut text = Text::of(alloc, b"uv")?;
    add_stamp(
        &mut text,
        &entry.moment,
        &hash_of(&entry.bytes),
        path.bytes(),
    )?;
    text.append(b"\n")?;
    if let Some(content) = &entry.bytes {
        text.append(content.bytes())?;
    }
    Ok(text)
}
