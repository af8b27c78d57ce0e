//! Reads the words of lines in their written form and in no other.
ghost use Rattle.std.specs.Prelude.{◌≡◌, ◌≢◌, ◌++◌, ◌∷◌, ◌==◌, ◌&&◌, ◌<◌, ◌^◌, ℕ, List, Option, false, IsTrue, IfOk, MatchOption, position, decimal};
ghost use Rattle.std.specs.Str.{bytes_eq};
ghost use Rattle.fsl_text.specs.Escapes.{escape};
ghost use Rattle.fsl_date.specs.Moment.{IsMoment, moment_text};
ghost use Rattle.fsl_uv.specs.Entries.{is_path};
ghost use Rattle.fsl_uv.specs.Cards.{hashed};
ghost use Rattle.fsl_uv.specs.Words.{stands, IsHash};

use fsl_date::Moment;
use fsl_name::Name;
use fsl_text::{MOST_OF_PATH, Memory, Text, decimal, escape, path_ok, unescape};
use itoa::Buffer;
use std::alloc::Global;

/// Finds the first such byte.
fn place_of(bytes: &[u8], byte: u8) -> Option<usize>
    ensures { result ≡ position (λ b. b == byte) bytes.now }
{
    bytes.iter().position(|b| *b == byte)
}

/// Returns the bytes before the first such byte, and those behind it.
pub(crate) fn split_at(bytes: &[u8], byte: u8) -> Option<(&[u8], &[u8])>
    ensures { MatchOption result (stands byte bytes.now ≡ false) (λ s. (stands byte s.0.now ≡ false) × (bytes.now ≡ s.0.now ++ byte ∷ s.1.now)) }
{
    match place_of(bytes, byte) {
        Some(place) => Some((&bytes[..place], &bytes[place + 1..])),
        None => None,
    }
}

/// Returns the bytes behind a prefix.
pub(crate) fn behind<'a>(line: &'a [u8], prefix: &[u8]) -> Option<&'a [u8]>
    ensures { MatchOption result ((rest : List ℕ) → line.now ≢ prefix.now ++ rest) (λ rest. line.now ≡ prefix.now ++ rest.now) }
{
    match line.strip_prefix(prefix) {
        Some(rest) => Some(rest),
        None => None,
    }
}

/// Reads a word as a moment.
pub(crate) fn read_moment(word: &[u8]) -> Option<Moment>
    ensures { MatchOption result ((m : ℕ) → IsMoment m → word.now ≢ moment_text m) (λ m. IsMoment m × (word.now ≡ moment_text m)) }
{
    match Moment::read(word) {
        Some(moment) => {
            if moment.text().as_slice() == word {
                Some(moment)
            } else {
                None
            }
        }
        None => None,
    }
}

/// Reads a word as a hash: a name, or none.
pub(crate) fn read_hash(word: &[u8]) -> Option<Option<Name>>
    ensures { MatchOption result ((hash : Option (List ℕ)) → IsHash hash → word.now ≢ hashed hash) (λ hash. IsHash hash × (word.now ≡ hashed hash)) }
{
    if word == b"-".as_slice() {
        return Some(None);
    }
    match Name::read(word) {
        Ok(name) => Some(Some(name)),
        Err(_) => None,
    }
}

/// Reads a word as a size, a number of 64 bits.
pub(crate) fn read_size(word: &[u8]) -> Option<u64>
    ensures { MatchOption result ((n : ℕ) → n < 2 ^ 64 → word.now ≢ decimal n) (λ n. (word.now ≡ decimal n) × (n < 2 ^ 64)) }
{
    match decimal(word) {
        Ok(size) => {
            let mut buffer = Buffer::new();
            if buffer.format(size).as_bytes() == word {
                Some(size)
            } else {
                None
            }
        }
        Err(_) => None,
    }
}

/// Returns whether an entry may have a path: parts with one slash between them, none of which is empty, `.` or `..`, and at most
/// 512 bytes.
pub fn is_path(path: &[u8]) -> bool
    ensures { result ≡ is_path path.now }
{
    path_ok(path) && path.len() <= MOST_OF_PATH
}

/// Returns whether a word is a path that an entry may have, as it is written.
fn is_written(alloc: Global, word: &[u8], path: &[u8]) -> Result<bool, Memory>
    ensures { IfOk result (λ is. is ≡ (is_path path.now && bytes_eq (escape path.now) word.now)) }
{
    let again = escape(alloc, path)?;
    Ok(is_path(path) && again.bytes() == word)
}

/// Reads a word as a path.
pub(crate) fn read_path(alloc: Global, word: &[u8]) -> Result<Option<Text>, Memory>
    ensures { IfOk result (λ o. MatchOption o ((p : List ℕ) → IsTrue (is_path p) → word.now ≢ escape p) (λ p. IsTrue (is_path p) × (word.now ≡ escape p))) }
{
    let path = unescape(alloc, word)?;
    let is = is_written(alloc, word, path.bytes())?;
    if is { Ok(Some(path)) } else { Ok(None) }
}
