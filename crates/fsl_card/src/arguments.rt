//! Reads the arguments of a card.
ghost use Rattle.std.specs.Prelude.{◌≡◌, ◌++◌, ◌∷◌, ◌≤◌, drop, length, position, IfOk, IfSome, IfNone, List, ℕ, Bool, not, IsTrue};
ghost use Rattle.fsl_card.specs.Cards.{is_argument_byte, are_arguments};
ghost use Rattle.fsl_card.specs.Parts.{IsRun, argument_length, arguments_text, next_argument};

use fsl_text::{List, Memory, Text};
use std::alloc::Global;

/// The arguments of a line, and the number of bytes that they take with the newline behind them.
#[derive(Drop)]
pub struct ArgumentList {
    pub list: List<Text>,
    pub taken: usize,
}

/// Returns whether a byte may occur in an argument: all may but 0, 9 to 13 and 32.
fn is_argument_byte(byte: u8) -> bool
    ensures { result ≡ is_argument_byte byte }
{
    !(byte == 0 || byte == 32 || (9 <= byte && byte <= 13))
}

/// Finds the place of the first byte that can't occur in an argument.
fn argument_end(bytes: &[u8]) -> Option<usize>
    ensures { result ≡ position (λ b. not (is_argument_byte b)) bytes.now }
{
    bytes.iter().position(|byte| !is_argument_byte(*byte))
}

/// Counts the bytes before the first that can't occur in an argument.
fn argument_length(bytes: &[u8]) -> usize
    ensures { result ≡ argument_length bytes.now }
{
    match argument_end(bytes) {
        Some(length) => length,
        None => bytes.len(),
    }
}

/// Returns the length of the argument behind the space that the bytes begin with, if there is one.
fn next_argument(bytes: &[u8]) -> Option<usize>
    ensures { result ≡ next_argument bytes.now }
{
    match bytes {
        [b' ', rest @ ..] => match argument_length(rest) {
            0 => None,
            length => Some(length),
        },
        _ => None,
    }
}

/// Reads as many arguments as the bytes begin with, each behind a space.
fn leading_arguments(alloc: Global, bytes: &[u8]) -> Result<ArgumentList, Memory>
    ensures { IfOk result (λ run. IsRun bytes.now run.list run.taken) }
{
    let mut list = List::new(alloc);
    let mut rest = bytes;
    while let Some(length) = next_argument(rest) {
        let (argument, behind) = rest[1..].split_at(length);
        list.append(Text::of(alloc, argument)?)?;
        rest = behind;
    }
    Ok(ArgumentList {
        list,
        taken: bytes.len() - rest.len(),
    })
}

/// Returns whether a text begins with some bytes.
fn starts_with(text: &[u8], bytes: &[u8]) -> bool
    ensures yes { IsTrue result → text.now ≡ bytes.now ++ drop (length bytes.now) text.now }
    ensures no { (rest : List ℕ) → text.now ≡ bytes.now ++ rest → IsTrue result }
{
    text.starts_with(bytes)
}

/// Returns whether the arguments are those of a `J` card whose second argument is empty and comes at the front of a text.
fn is_empty_field(letter: u8, args: &[Text], text: &[u8]) -> bool
    ensures letter { IsTrue result → letter ≡ 74 }
    ensures one { IsTrue result → length args.now ≡ 1 }
    ensures spelled { IsTrue result → text.now ≡ 32 ∷ 10 ∷ drop 2 text.now }
    ensures no { (more : List ℕ) → letter ≡ 74 → length args.now ≡ 1 → text.now ≡ 32 ∷ 10 ∷ more → IsTrue result }
{
    letter == b'J' && args.len() == 1 && starts_with(text, b" \n")
}

/// Reads the arguments behind a card's letter, up to the newline. Returns `None` if the bytes have another form. A `J` card may
/// end with a space, and its second argument is then empty. `Memory` is the only error.
pub fn arguments(alloc: Global, letter: u8, bytes: &[u8]) -> Result<Option<ArgumentList>, Memory>
    ensures some { IfOk result (λ r. IfSome r (λ a. IsTrue (are_arguments letter a.list))) }
    ensures spelled { IfOk result (λ r. IfSome r (λ a. bytes.now ≡ arguments_text a.list ++ 10 ∷ drop a.taken bytes.now)) }
    ensures within { IfOk result (λ r. IfSome r (λ a. a.taken ≤ length bytes.now)) }
    ensures none { IfOk result (λ r. IfNone r ((args : List (List ℕ)) (more : List ℕ) → IsTrue (are_arguments letter args) → bytes.now ≡ arguments_text args ++ 10 ∷ more → ⊥)) }
{
    let ArgumentList { mut list, taken } = leading_arguments(alloc, bytes)?;
    let rest = &bytes[taken..];
    if starts_with(rest, b"\n") {
        return Ok(Some(ArgumentList {
            list,
            taken: taken + 1,
        }));
    }
    if !is_empty_field(letter, list.items(), rest) {
        return Ok(None);
    }
    list.append(Text::empty(alloc))?;
    Ok(Some(ArgumentList {
        list,
        taken: taken + 2,
    }))
}
