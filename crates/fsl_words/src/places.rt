//! Sorts the words by place, as `clap` reads them: a repository, a command, and the command's words.
ghost use Rattle.std.specs.Prelude.{◌≡◌, ◌≤◌, ◌<◌, ◌-◌, ◌∷◌, [], true, map, drop, length, string_bytes, Err, IfOk, IsOkAnd, codes, option_map, unwrap_or};
ghost use Rattle.std.specs.List.{list_all};
ghost use Rattle.clap.specs.Simple.{app_of};
ghost use Rattle.clap.specs.Matches.{found_of, matched_of, raw_values};
ghost use Rattle.fsl_words.specs.declared.WordsFault.TheVariants as words_fault;
ghost use Rattle.fsl_words.specs.Grammar.{is_word};
ghost use Rattle.fsl_words.specs.Places.{HasPlaces, bare_line, line};

use crate::WordsFault;
use clap::error::ErrorKind;
use clap::{Arg, ArgMatches, Command};
use std::alloc::{AllocError, Global};

/// The words by place.
#[derive(Drop)]
pub struct Places<'a> {
    pub repository: &'a str,
    pub command: &'a str,
    /// The words of the command.
    pub words: &'a [String],
}

/// A command without places, of whose words none is a flag.
fn bare<'a>(alloc: Global) -> Command<'a>
    ensures { app_of result ≡ bare_line }
{
    Command::new(alloc, "fossil")
        .no_binary_name(true)
        .disable_help_flag(true)
        .disable_version_flag(true)
        .disable_help_subcommand(true)
}

/// One command of words by place.
fn line<'a>(alloc: Global) -> Result<Command<'a>, AllocError>
    ensures { IfOk result (λ made. app_of made ≡ line) }
{
    bare(alloc)
        .arg(Arg::new(alloc, "repository").required(true))?
        .arg(Arg::new(alloc, "command").required(true))?
        .arg(Arg::new(alloc, "words").num_args(0..))
}

/// The matches of plain words.
fn matches<'a>(alloc: Global, words: &'a [String]) -> Result<ArgMatches<'a>, WordsFault>
    requires { list_all is_word (map string_bytes words.now) ≡ true }
    ensures ok { IfOk result (HasPlaces (map string_bytes words.now)) }
    ensures usage { result ≡ Err words_fault.Usage → length words.now < 2 }
{
    let line = match line(alloc) {
        Ok(line) => line,
        Err(_) => return Err(WordsFault::Memory),
    };
    match line.try_get_matches_from(words) {
        Ok(matches) => Ok(matches),
        Err(error) => match error.kind() {
            ErrorKind::OutOfMemory => Err(WordsFault::Memory),
            _ => Err(WordsFault::Usage),
        },
    }
}

/// How many words the command has.
fn count(matches: &ArgMatches<'_>) -> usize
    ensures { result ≡ length (unwrap_or (option_map raw_values (matched_of (found_of matches.now) (codes "words"))) []) }
{
    match matches.get_raw("words") {
        Some(words) => words.len(),
        None => 0,
    }
}

/// The last words, so many.
fn last(words: &[String], count: usize) -> &[String]
    requires { count ≤ length words.now }
    ensures { result.now ≡ drop (length words.now - count) words.now }
{
    &words[words.len() - count..]
}

/// The words at the places that the matches tell.
fn found<'a>(matches: &ArgMatches<'a>, words: &'a [String]) -> Result<Places<'a>, WordsFault>
    requires { HasPlaces (map string_bytes words.now) matches.now }
    ensures { IsOkAnd result (λ places. map string_bytes words.now ≡ places.repository.now ∷ places.command.now ∷ map string_bytes places.words.now) }
{
    let Some(repository) = matches.get_str("repository") else {
        return Err(WordsFault::Usage);
    };
    let Some(command) = matches.get_str("command") else {
        return Err(WordsFault::Usage);
    };
    Ok(Places {
        repository,
        command,
        words: last(words, count(matches)),
    })
}

/// Sorts plain words by place.
///
/// Errors: `Usage` where they are fewer than two; `Memory` where the program is out of memory.
pub fn by_place<'a>(alloc: Global, words: &'a [String]) -> Result<Places<'a>, WordsFault>
    requires { list_all is_word (map string_bytes words.now) ≡ true }
    ensures ok { IfOk result (λ places. map string_bytes words.now ≡ places.repository.now ∷ places.command.now ∷ map string_bytes places.words.now) }
    ensures usage { result ≡ Err words_fault.Usage → length words.now < 2 }
{
    match matches(alloc, words) {
        Ok(matches) => found(&matches, words),
        Err(fault) => Err(fault),
    }
}
