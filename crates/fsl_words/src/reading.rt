//! Reads the words.
ghost use Rattle.std.specs.Prelude.{◌≡◌, ◌⊎◌, map, string_bytes, Some, None, Err, IfOk};
ghost use Rattle.std.specs.List.{list_all};
ghost use Rattle.fsl_words.specs.declared.WordsFault.TheVariants as words_fault;
ghost use Rattle.fsl_words.specs.Grammar.{is_word, words_in};

use crate::commands::command;
use crate::forms::is_word;
use crate::places::by_place;
use crate::{Words, WordsFault};
use fsl_text::Text;
use std::alloc::Global;

/// Whether each word may be on the command line.
fn are_words(words: &[String]) -> bool
    ensures { result ≡ list_all is_word (map string_bytes words.now) }
{
    for word in words {
        if !is_word(word.as_bytes()) {
            return false;
        }
    }
    true
}

/// Reads the words behind the program's name: a repository's path, a command, and the command's words. No word is empty,
/// and none but `-` alone begins with `-`.
///
/// Errors: `Usage` exactly where the words are outside the grammar of commands; `Memory` where the program is out of
/// memory.
///
/// FORMATS: Words
pub fn read(alloc: Global, words: &[String]) -> Result<Words, WordsFault>
    ensures ok { IfOk result (λ read. words_in (map string_bytes words.now) ≡ Some read) }
    ensures usage { result ≡ Err words_fault.Usage → words_in (map string_bytes words.now) ≡ None }
    ensures outside { words_in (map string_bytes words.now) ≡ None → (result ≡ Err words_fault.Usage) ⊎ (result ≡ Err words_fault.Memory) }
{
    if !are_words(words) {
        return Err(WordsFault::Usage);
    }
    let places = match by_place(alloc, words) {
        Ok(places) => places,
        Err(fault) => return Err(fault),
    };
    Ok(Words {
        command: command(alloc, places.command, places.words)?,
        repository: Text::of(alloc, places.repository.as_bytes())?,
    })
}
