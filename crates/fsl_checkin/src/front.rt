//! Reads the item at the front of a text.
ghost use Rattle.std.specs.Prelude.{◌≡◌, IfOk, Some, None, option_map, position, ◌==◌};
ghost use Rattle.std.specs.List.{list_all};
ghost use Rattle.fsl_card.specs.Cards.{is_argument, is_argument_byte};
ghost use Rattle.fsl_checkin.specs.Reading.{IsFront, as_head, as_parts, content_in, cut, head_in, parts_in, perm_in, size_in};

use crate::{Perm, TreeItem};
use fsl_text::{Memory, Text, decimal, path_ok, unescape};
use itoa::Buffer;
use std::alloc::Global;

/// What stands of an item before its content, and what stands behind that.
#[derive(Clone, Copy)]
struct Head<'a> {
    /// The path as it is written.
    path: &'a [u8],
    perm: Perm,
    size: u64,
    rest: &'a [u8],
}

/// The parts of an item, with its path as it is written, and what stands behind it.
#[derive(Clone, Copy)]
struct Parts<'a> {
    path: &'a [u8],
    perm: Perm,
    bytes: &'a [u8],
    rest: &'a [u8],
}

/// An item, and what stands behind it.
#[derive(Drop)]
pub(crate) struct Front<'a> {
    pub(crate) item: TreeItem,
    pub(crate) rest: &'a [u8],
}

/// The place of the first such byte.
fn place_of(text: &[u8], stop: u8) -> Option<usize>
    ensures { result ≡ position (λ b. b == stop) text.now }
{
    text.iter().position(|byte| *byte == stop)
}

/// The bytes before the first such byte, and those behind it.
fn cut(text: &[u8], stop: u8) -> Option<(&[u8], &[u8])>
    ensures { option_map (λ parts. (parts.0.now, parts.1.now)) result ≡ cut stop text.now }
{
    match place_of(text, stop) {
        Some(place) => Some((&text[..place], &text[place + 1..])),
        None => None,
    }
}

/// Whether a byte may stand in an argument: all may but 0, 9 to 13 and 32.
fn is_argument_byte(byte: u8) -> bool
    ensures { result ≡ is_argument_byte byte }
{
    !(byte == 0 || byte == 32 || (9 <= byte && byte <= 13))
}

/// Whether all bytes may stand in an argument.
fn are_argument_bytes(text: &[u8]) -> bool
    ensures { result ≡ list_all is_argument_byte text.now }
{
    text.iter().all(|byte| is_argument_byte(*byte))
}

/// Whether bytes are an argument: one or more that may stand in one.
fn is_argument(text: &[u8]) -> bool
    ensures { result ≡ is_argument text.now }
{
    !text.is_empty() && are_argument_bytes(text)
}

/// The permission that is written so.
fn perm_of(text: &[u8]) -> Option<Perm>
    ensures { result ≡ perm_in text.now }
{
    if text == b"-".as_slice() {
        Some(Perm::Plain)
    } else if text == b"x".as_slice() {
        Some(Perm::Exec)
    } else if text == b"l".as_slice() {
        Some(Perm::Symlink)
    } else {
        None
    }
}

/// The size that is written so, without leading zeros.
fn size_of(text: &[u8]) -> Option<u64>
    ensures { result ≡ size_in text.now }
{
    match decimal(text) {
        Ok(size) if Buffer::new().format(size).as_bytes() == text => Some(size),
        _ => None,
    }
}

/// What stands of an item before its content at the front of a text: `add`, a path, a permission and a size, with a
/// space between, and a newline.
fn head_of(text: &[u8]) -> Option<Head<'_>>
    ensures { option_map as_head result ≡ head_in text.now }
{
    let (word, rest) = cut(text, b' ')?;
    let (path, rest) = cut(rest, b' ')?;
    let (perm, rest) = cut(rest, b' ')?;
    let (size, rest) = cut(rest, b'\n')?;
    if word != b"add".as_slice() || !is_argument(path) {
        return None;
    }
    let perm = perm_of(perm)?;
    let size = size_of(size)?;
    Some(Head {
        path,
        perm,
        size,
        rest,
    })
}

/// So many bytes, where a newline stands behind them, and what stands behind that.
fn content_of(text: &[u8], size: u64) -> Option<(&[u8], &[u8])>
    ensures { option_map (λ parts. (parts.0.now, parts.1.now)) result ≡ content_in size text.now }
{
    let size = size as usize;
    if size < text.len() && text[size] == b'\n' {
        Some((&text[..size], &text[size + 1..]))
    } else {
        None
    }
}

/// The parts of the item at the front of a text, and what stands behind it.
fn parts_of(text: &[u8]) -> Option<Parts<'_>>
    ensures { option_map as_parts result ≡ parts_in text.now }
{
    let head = head_of(text)?;
    let (bytes, rest) = content_of(head.rest, head.size)?;
    Some(Parts {
        path: head.path,
        perm: head.perm,
        bytes,
        rest,
    })
}

/// The item of parts, and what stands behind it.
fn item_of<'a>(alloc: Global, path: Text, parts: &Parts<'a>) -> Result<Front<'a>, Memory>
    ensures item { IfOk result (λ front. front.item ≡ record { path = path; perm = parts.now.perm; bytes = parts.now.bytes.now }) }
    ensures rest { IfOk result (λ front. front.rest.now ≡ parts.now.rest.now) }
{
    let bytes = Text::of(alloc, parts.bytes)?;
    Ok(Front {
        item: TreeItem {
            path,
            perm: parts.perm,
            bytes,
        },
        rest: parts.rest,
    })
}

/// The item at the front of a text, where one stands there, and what stands behind it. `Memory` is the only error.
pub(crate) fn front_of(alloc: Global, text: &[u8]) -> Result<Option<Front<'_>>, Memory>
    ensures { IfOk result (IsFront text.now) }
{
    let _ = text.len();
    let Some(parts) = parts_of(text) else {
        return Ok(None);
    };
    let path = unescape(alloc, parts.path)?;
    if !path_ok(path.bytes()) {
        return Ok(None);
    }
    Ok(Some(item_of(alloc, path, &parts)?))
}
