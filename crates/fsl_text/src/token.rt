//! Finds the tokens of a line.
ghost use Rattle.std.specs.Prelude.{◌≡◌, IfOk, OnOk, ◌++◌};
ghost use Rattle.fsl_text.specs.Tokens.{token_spans, token_at, is_blank, AreTokens, AreTextsOfSpans};

use super::fault::Span;
use super::list::List;
use super::memory::Memory;
use std::alloc::Global;

fn is_blank(byte: u8) -> bool
    ensures { result ≡ is_blank byte }
{
    byte == b' ' || byte == b'\t' || byte == b'\r'
}

/// Adds the bytes between two places as a token at the end, if there are any.
fn push_token(spans: &mut List<Span>, from: usize, to: usize) -> Result<(), Memory>
    ensures { OnOk result (spans.new ≡ spans.old ++ token_at from to) }
{
    if from < to {
        let span = Span {
            from: from as u64,
            to: to as u64,
        };
        return spans.append(span);
    }
    Ok(())
}

/// Finds the places of the tokens of a line, in order. A token is a longest run of bytes that are no blank. The blanks are space,
/// tab and carriage return. Places count bytes from the line's beginning. `Memory` is the only error.
/// FORMATS: Texts
pub fn tokens(alloc: Global, line: &[u8]) -> Result<List<Span>, Memory>
    ensures spans { IfOk result (λ spans. spans ≡ token_spans line.now) }
    ensures every { IfOk result (AreTokens line.now) }
{
    let mut spans = List::new(alloc);
    let mut from = 0;
    for (at, byte) in line.iter().enumerate() {
        if is_blank(*byte) {
            push_token(&mut spans, from, at)?;
            from = at + 1;
        }
    }
    push_token(&mut spans, from, line.len())?;
    Ok(spans)
}

/// Says that the bytes at the places of the tokens are the parts between blanks that have a byte. This is a law and runs no code.
pub fn tokens_at_spans()
    ensures { AreTextsOfSpans }
{}
