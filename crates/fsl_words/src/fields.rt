//! Reads the ticket fields among the words.
ghost use Rattle.std.specs.Prelude.{◌≡◌, IfOk, map, string_bytes};
ghost use Rattle.std.specs.List.{list_all};
ghost use Rattle.fsl_record.specs.Records.{is_field};
ghost use Rattle.fsl_words.specs.Grammar.{all_differ, fields_in};
ghost use Rattle.fsl_words.specs.Answers.{IsAnswer};

use crate::WordsFault;
use fsl_text::{List, MOST_FIELDS, Memory, Text};
use std::alloc::Global;
use std::collections::BTreeSet;
use std::slice;

/// Copies of the words.
fn texts(alloc: Global, words: &[String]) -> Result<List<Text>, Memory>
    ensures { IfOk result (λ texts. texts ≡ map string_bytes words.now) }
{
    let mut texts = Vec::new(alloc);
    for word in words {
        texts.push(Text::of(alloc, word.as_bytes())?)?;
    }
    Ok(List::from_vec(texts))
}

/// Whether a text is a field's name, as the list of it alone tells.
fn is_field(field: &Text) -> bool
    ensures { result ≡ is_field field.now }
{
    fsl_record::are_fields(slice::from_ref(field))
}

fn are_formed(fields: &[Text]) -> bool
    ensures { result ≡ list_all is_field fields.now }
{
    fields.iter().all(is_field)
}

/// Whether the texts differ.
fn all_differ(alloc: Global, texts: &[Text]) -> Result<bool, Memory>
    ensures { IfOk result (λ differ. differ ≡ all_differ texts.now) }
{
    let mut seen = BTreeSet::new(alloc);
    for text in texts {
        if !seen.insert(text.bytes())? {
            return Ok(false);
        }
    }
    Ok(true)
}

/// Reads words as ticket fields: each has its form, all differ, and there are at most 256.
///
/// Errors: `Usage` where they aren't so; `Memory` where the program is out of memory.
pub fn fields(alloc: Global, words: &[String]) -> Result<List<Text>, WordsFault>
    ensures { IsAnswer (fields_in (map string_bytes words.now)) result }
{
    if words.len() > MOST_FIELDS {
        return Err(WordsFault::Usage);
    }
    let fields = texts(alloc, words)?;
    if !are_formed(fields.items()) || !all_differ(alloc, fields.items())? {
        return Err(WordsFault::Usage);
    }
    Ok(fields)
}
