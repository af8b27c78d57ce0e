//! Reads single words by their forms.
ghost use Rattle.std.specs.Prelude.{◌≡◌};
ghost use Rattle.std.specs.List.{list_all};
ghost use Rattle.fsl_name.specs.Name.{is_name_digit, name_in};
ghost use Rattle.fsl_words.specs.Grammar.{is_word, is_prefix, prefix_in, is_path, path_in, number_in};
ghost use Rattle.fsl_words.specs.Answers.{IsAnswer};

use crate::WordsFault;
use fsl_name::Name;
use fsl_text::{MOST_OF_PATH, Text, decimal, path_ok};
use std::alloc::Global;

/// Tells whether a word has a byte, and begins with `-` only where it is `-` alone.
pub fn is_word(word: &[u8]) -> bool
    ensures { result ≡ is_word word.now }
{
    match word {
        [] => false,
        [first, rest @ ..] => *first != b'-' || rest.is_empty(),
    }
}

fn is_digit(byte: u8) -> bool
    ensures { result ≡ is_name_digit byte }
{
    matches!(byte, b'0'..=b'9' | b'a'..=b'f')
}

fn are_digits(word: &[u8]) -> bool
    ensures { result ≡ list_all is_name_digit word.now }
{
    word.iter().all(|byte| is_digit(*byte))
}

/// Whether a word is 4 to 40 digits of a name.
fn is_prefix(word: &[u8]) -> bool
    ensures { result ≡ is_prefix word.now }
{
    (4..=40).contains(&word.len()) && are_digits(word)
}

/// Reads a word as 4 to 40 digits of a name or an id, in lower case.
///
/// Errors: `Usage` where it isn't that; `Memory` where the program is out of memory.
pub fn prefix(alloc: Global, word: &[u8]) -> Result<Text, WordsFault>
    ensures { IsAnswer (prefix_in word.now) result }
{
    if !is_prefix(word) {
        return Err(WordsFault::Usage);
    }
    Ok(Text::of(alloc, word)?)
}

/// Whether a word is a path that an unversioned file may have.
fn is_path(word: &[u8]) -> bool
    ensures { result ≡ is_path word.now }
{
    path_ok(word) && word.len() <= MOST_OF_PATH
}

/// Reads a word as the path of an unversioned file: at most 512 bytes, with no part between slashes that is empty, `.` or
/// `..`.
///
/// Errors: `Usage` where it isn't that; `Memory` where the program is out of memory.
pub fn path(alloc: Global, word: &[u8]) -> Result<Text, WordsFault>
    ensures { IsAnswer (path_in word.now) result }
{
    if !is_path(word) {
        return Err(WordsFault::Usage);
    }
    Ok(Text::of(alloc, word)?)
}

/// Reads a word as a name of 40 digits. Errors: `Usage` where it isn't that.
pub fn name(word: &[u8]) -> Result<Name, WordsFault>
    ensures { IsAnswer (name_in word.now) result }
{
    match Name::read(word) {
        Ok(name) => Ok(name),
        Err(_) => Err(WordsFault::Usage),
    }
}

/// Reads a word as a decimal number from 1 to `most`. Errors: `Usage` where it isn't that.
pub fn number(word: &[u8], most: u64) -> Result<u64, WordsFault>
    ensures { IsAnswer (number_in most word.now) result }
{
    match decimal(word) {
        Ok(number) if (1..=most).contains(&number) => Ok(number),
        _ => Err(WordsFault::Usage),
    }
}
