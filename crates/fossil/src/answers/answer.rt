//! Makes answers: a status, and the text that is printed.
ghost use Rattle.std.specs.Prelude.{◌≡◌, ◌≢◌, ◌++◌, ℕ, Some, Err, IfOk, decimal};
ghost use Rattle.fossil.specs.Printed as printing;
ghost use Rattle.fossil.specs.Printed.{with_line};
ghost use Rattle.fossil.specs.Outcome.{printed_of, not_repository};
ghost use Rattle.fossil.specs.Arrivals.{refusal_of as refused_for};
ghost use Rattle.fsl_repo.specs.declared.ArriveFault.TheVariants as arrive_fault;

use crate::answers::status::{NOT_REPOSITORY, REFUSED};
use fsl_name::Name;
use fsl_repo::ArriveFault;
use fsl_text::{Memory, Text};
use std::alloc::Global;
use std::marker::Model;

/// A status, and the text that is printed.
#[derive(Drop)]
pub struct Answer {
    pub status: u8,
    pub text: Text,
}

impl Model for Answer {
    ghost use Rattle.fossil.specs.Printed.{Printed};

    ghost Value = { Printed };

    ghost view = { λ a. record { status = a.status; text = a.text } };
}

/// Joins words and the bytes behind them. `Memory` is the only error.
pub fn joined(alloc: Global, words: &[u8], rest: &[u8]) -> Result<Text, Memory>
    ensures { IfOk result (λ text. text ≡ words.now ++ rest.now) }
{
    let mut text = Text::of(alloc, words)?;
    text.append(rest)?;
    Ok(text)
}

/// Joins words and a decimal number behind them. `Memory` is the only error.
pub fn numbered(alloc: Global, words: &[u8], number: u64) -> Result<Text, Memory>
    ensures { IfOk result (λ text. text ≡ words.now ++ decimal number) }
{
    let digits = number.to_string(alloc)?;
    joined(alloc, words, digits.as_bytes())
}

/// Prints the reason `wrong name`: the name that a file was sent under, and that of its bytes. `Memory` is the only
/// error.
pub fn wrong_name(alloc: Global, name: Name, found: Name) -> Result<Text, Memory>
    ensures { IfOk result (λ text. text ≡ printing.wrong_name name found) }
{
    let mut text = joined(alloc, b"wrong name ", name.text().as_slice())?;
    text.append(b" ")?;
    text.append(found.text().as_slice())?;
    Ok(text)
}

/// Makes an answer of a status and one line: words, and the bytes behind them. `Memory` is the only error.
pub fn line(alloc: Global, status: u8, words: &[u8], rest: &[u8]) -> Result<Answer, Memory>
    ensures { IfOk result (λ a. a ≡ with_line status (words.now ++ rest.now)) }
{
    let mut text = joined(alloc, words, rest)?;
    text.append(b"\n")?;
    Ok(Answer { status, text })
}

/// Makes the refusal for a reason. `Memory` is the only error.
pub fn refusal(alloc: Global, reason: &[u8]) -> Result<Answer, Memory>
    ensures { IfOk result (λ a. a ≡ printing.refused reason.now) }
{
    line(alloc, REFUSED, b"refused: ", reason)
}

/// Makes the refusal for a reason that ends with some bytes. `Memory` is the only error.
pub fn refusal_of(alloc: Global, reason: &[u8], bytes: &[u8]) -> Result<Answer, Memory>
    ensures { IfOk result (λ a. a ≡ printing.refused (reason.now ++ bytes.now)) }
{
    let whole = joined(alloc, reason, bytes)?;
    refusal(alloc, whole.bytes())
}

/// Makes the refusal for a reason that ends with a number. `Memory` is the only error.
pub fn numbered_refusal(alloc: Global, reason: &[u8], number: u64) -> Result<Answer, Memory>
    ensures { IfOk result (λ a. a ≡ printing.refused (reason.now ++ decimal number)) }
{
    let whole = numbered(alloc, reason, number)?;
    refusal(alloc, whole.bytes())
}

/// Makes the refusal of the line with this number. `Memory` is the only error.
pub fn bad_line(alloc: Global, line: u64) -> Result<Answer, Memory>
    ensures { IfOk result (λ a. a ≡ printing.bad_line line) }
{
    numbered_refusal(alloc, b"line ", line)
}

/// Makes the refusal of the line with this number, where its card isn't one of files. `Memory` is the only error.
pub fn not_a_file(alloc: Global, line: u64) -> Result<Answer, Memory>
    ensures { IfOk result (λ a. a ≡ printing.not_a_file line) }
{
    numbered_refusal(alloc, b"not a file line ", line)
}

/// Makes the refusal of an input with more than 2^27 bytes. `Memory` is the only error.
pub fn too_long(alloc: Global) -> Result<Answer, Memory>
    ensures { IfOk result (λ a. a ≡ printing.too_long) }
{
    refusal(alloc, b"input too long")
}

/// Makes the refusal of a file by its name and its size in bytes. `Memory` is the only error.
pub fn too_large(alloc: Global, name: Name, size: u64) -> Result<Answer, Memory>
    ensures { IfOk result (λ a. a ≡ printing.too_large name size) }
{
    let mut reason = joined(alloc, b"too large ", name.text().as_slice())?;
    reason.append(b" ")?;
    numbered_refusal(alloc, reason.bytes(), size)
}

/// The refusal of a file by the name that it was sent under and the name of its content.
fn wrongly_named(alloc: Global, name: Name, found: Name) -> Result<Answer, Memory>
    ensures { IfOk result (λ a. a ≡ printing.wrong (name, found)) }
{
    let reason = wrong_name(alloc, name, found)?;
    refusal(alloc, reason.bytes())
}

/// Makes the refusal of a file for which there is no room, by its name. `Memory` is the only error.
pub fn full(alloc: Global, name: Name) -> Result<Answer, Memory>
    ensures { IfOk result (λ a. a ≡ printing.full name) }
{
    refusal_of(alloc, b"full ", name.text().as_slice())
}

/// Makes the refusal of a file by its name and the fault of its arrival, which isn't that of a stopped repository.
/// `Memory` is the only error.
pub fn file_refusal(alloc: Global, name: Name, fault: ArriveFault) -> Result<Answer, Memory>
    requires { (faults : ℕ) → fault ≢ arrive_fault.Stopped faults }
    ensures { IfOk result (λ a. refused_for name (Err fault) ≡ Some a) }
{
    match fault {
        ArriveFault::TooLarge { size } => too_large(alloc, name, size),
        ArriveFault::NameWrong { found } => wrongly_named(alloc, name, found),
        ArriveFault::Full { .. } => full(alloc, name),
        ArriveFault::Memory => Err(Memory),
        ArriveFault::Stopped { .. } => unreachable!(),
    }
}

/// Makes the answer about a file that isn't a repository, by the place at which it fails to be one. `Memory` is the only
/// error.
pub fn not_repository(alloc: Global, at: u64) -> Result<Answer, Memory>
    ensures { IfOk result (λ a. a ≡ printed_of (not_repository at)) }
{
    let digits = at.to_string(alloc)?;
    line(
        alloc,
        NOT_REPOSITORY,
        b"not a repository: ",
        digits.as_bytes(),
    )
}
