//! Derives the date and the user of each artifact, and words with a number behind them, from its number.
ghost use Rattle.std.specs.Prelude.{◌≡◌, ◌<◌, IfOk};
ghost use Rattle.fsl_gen.specs.Table.{date_at, numbered, user_at};

use fsl_date::Moment;
use fsl_text::{Memory, Text};
use std::alloc::Global;

/// The first moment of 2020, in milliseconds since 1970.
const START_MS: i64 = 1_577_836_800_000;

/// Returns the date of an artifact. Each is a second later than the one before it.
pub fn date_of(number: u64) -> Moment
    requires { number < 100_000 }
    ensures { result ≡ date_at number }
{
    Moment::new(START_MS + number as i64 * 1000).unwrap()
}

/// Returns the user of an artifact. Three users take turns. `Memory` is the only error.
pub fn user_of(alloc: Global, number: u64) -> Result<Text, Memory>
    ensures { IfOk result (λ user. user ≡ user_at number) }
{
    numbered(alloc, b"u", number % 3)
}

/// Writes a word with a number behind it, in decimal. `Memory` is the only error.
pub fn numbered(alloc: Global, word: &[u8], number: u64) -> Result<Text, Memory>
    ensures { IfOk result (λ text. text ≡ numbered word.now number) }
{
    let mut text = Text::of(alloc, word)?;
    let digits = format!(in alloc; "{number}")?;
    text.append(digits.as_bytes())?;
    Ok(text)
}
