//! Writes bytes that cards and messages can't hold as two bytes each.
ghost use Rattle.std.specs.Prelude.{◌≡◌, ◌++◌, ◌∷◌, [], length, take, IfOk, OnOk, OnErr, MatchOption};
ghost use Rattle.fsl_text.specs.Escapes.{escape, escaped_byte, unescape, byte_meant, UnescapesEscaped};

use super::memory::Memory;
use super::text::Text;
use std::alloc::Global;

/// Returns the letter behind the backslash for a byte that can't be written as itself.
fn letter_of(byte: u8) -> Option<u8>
    ensures { MatchOption result (escaped_byte byte ≡ byte ∷ []) (λ letter. escaped_byte byte ≡ 92 ∷ letter ∷ []) }
{
    match byte {
        b' ' => Some(b's'),
        b'\n' => Some(b'n'),
        b'\\' => Some(b'\\'),
        b'\t' => Some(b't'),
        b'\r' => Some(b'r'),
        0x0B => Some(b'v'),
        0x0C => Some(b'f'),
        0 => Some(b'0'),
        _ => None,
    }
}

/// Returns the byte that a backslash and this byte mean.
fn byte_of(letter: u8) -> u8
    ensures { result ≡ byte_meant letter }
{
    match letter {
        b's' => b' ',
        b'n' => b'\n',
        b't' => b'\t',
        b'r' => b'\r',
        b'v' => 0x0B,
        b'f' => 0x0C,
        b'0' => 0,
        other => other,
    }
}

/// Writes bytes as the text of a card or a message. Space, newline, backslash, tab, carriage return and the bytes 11, 12 and 0
/// become `\s`, `\n`, `\\`, `\t`, `\r`, `\v`, `\f` and `\0`. Every other byte stays itself. `Memory` is the only error.
/// FORMATS: Texts
pub fn escape(alloc: Global, bytes: &[u8]) -> Result<Text, Memory>
    ensures { IfOk result (λ text. text ≡ escape bytes.now) }
{
    let mut text = Text::empty(alloc);
    escape_into(&mut text, bytes)?;
    Ok(text)
}

/// Writes one byte at the end of a text, escaped if it needs that.
fn append_byte(into: &mut Text, byte: u8) -> Result<(), Memory>
    ensures ok { OnOk result (into.new ≡ into.old ++ escaped_byte byte) }
    ensures err { OnErr result (into.new ≡ into.old) }
{
    match letter_of(byte) {
        Some(letter) => into.append(&[b'\\', letter]),
        None => into.append(&[byte]),
    }
}

/// Writes bytes at the end of a text, escaped, all of them or some.
#[tactic(auto, using(crate::proofs::Fronts::front_stays))]
fn append_bytes(into: &mut Text, bytes: &[u8]) -> Result<(), Memory>
    ensures ok { OnOk result (into.new ≡ into.old ++ escape bytes.now) }
    ensures err { OnErr result (take (length into.old) into.new ≡ into.old) }
{
    for byte in bytes {
        append_byte(into, *byte)?;
    }
    Ok(())
}

/// Adds bytes at the end of a text, written as `escape` writes them. `Memory` is the only error, and then the text stays as it
/// was.
pub fn escape_into(into: &mut Text, bytes: &[u8]) -> Result<(), Memory>
    ensures ok { OnOk result (into.new ≡ into.old ++ escape bytes.now) }
    ensures err { OnErr result (into.new ≡ into.old) }
{
    let length = into.bytes().len();
    let written = append_bytes(into, bytes);
    if written.is_err() {
        into.truncate(length);
    }
    written
}

/// Reads the text of a card or a message back into bytes. A backslash and the byte behind it give one byte: one of the eight of
/// `escape`, or else the byte behind it. A last backslash gives itself. `Memory` is the only error.
/// FORMATS: Texts
pub fn unescape(alloc: Global, text: &[u8]) -> Result<Text, Memory>
    ensures { IfOk result (λ bytes. bytes ≡ unescape text.now) }
{
    let mut bytes = Vec::with_capacity(alloc, text.len())?;
    let mut escaped = false;
    for byte in text {
        if escaped {
            bytes.push(byte_of(*byte))?;
            escaped = false;
        } else if *byte == b'\\' {
            escaped = true;
        } else {
            bytes.push(*byte)?;
        }
    }
    if escaped {
        bytes.push(b'\\')?;
    }
    Ok(Text::from_vec(bytes))
}

/// Says that `unescape` gives back the bytes that `escape` took. This is a law and runs no code.
pub fn unescapes_escaped()
    ensures { UnescapesEscaped }
{}
