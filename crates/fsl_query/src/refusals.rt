//! Prints the texts of refusals.
ghost use Rattle.std.specs.Prelude.{◌≡◌, ◌++◌, IfOk};
ghost use Rattle.fsl_text.specs.Escapes.{escape};
ghost use Rattle.fsl_name.specs.Name.{name_text};
ghost use Rattle.fsl_query.specs.Refusals.{refusal_text};

use crate::Refused;
use fsl_name::Name;
use fsl_text::{Memory, Text, escape_into};
use std::alloc::Global;

/// Words, and behind them bytes as they are.
fn plain(alloc: Global, words: &[u8], bytes: &[u8]) -> Result<Text, Memory>
    ensures { IfOk result (λ text. text ≡ words.now ++ bytes.now) }
{
    let mut text = Text::of(alloc, words)?;
    text.append(bytes)?;
    Ok(text)
}

/// Words, and behind them a name.
fn named(alloc: Global, words: &[u8], name: &Name) -> Result<Text, Memory>
    ensures { IfOk result (λ text. text ≡ words.now ++ name_text name.now) }
{
    plain(alloc, words, &name.text())
}

/// Words, and behind them a text that is escaped.
fn escaped(alloc: Global, words: &[u8], bytes: &Text) -> Result<Text, Memory>
    ensures { IfOk result (λ text. text ≡ words.now ++ escape bytes.now) }
{
    let mut text = Text::of(alloc, words)?;
    escape_into(&mut text, bytes.bytes())?;
    Ok(text)
}

/// Prints the text of a refusal: the words of its reason, and what was asked for. A symbolic name, a title and a field
/// are escaped. `Memory` is the only error.
///
/// FORMATS: Reports
pub fn refusal_text(alloc: Global, refused: &Refused) -> Result<Text, Memory>
    ensures { IfOk result (λ text. text ≡ refusal_text refused.now) }
{
    match refused {
        Refused::NoArtifact { prefix } => plain(alloc, b"no artifact ", prefix.bytes()),
        Refused::SeveralArtifacts { prefix } => plain(alloc, b"several artifacts ", prefix.bytes()),
        Refused::NotCheckin { name } => named(alloc, b"not a check-in ", name),
        Refused::NoBaseline { name } => named(alloc, b"baseline not held ", name),
        Refused::NoCheckin { symbol } => escaped(alloc, b"no check-in ", symbol),
        Refused::NoPage { title } => escaped(alloc, b"no page ", title),
        Refused::NoTicket { prefix } => plain(alloc, b"no ticket ", prefix.bytes()),
        Refused::NoThread { prefix } => plain(alloc, b"no thread ", prefix.bytes()),
        Refused::Several { prefix } => plain(alloc, b"several ", prefix.bytes()),
        Refused::NoField { field } => escaped(alloc, b"no field ", field),
    }
}
