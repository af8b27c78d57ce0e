//! The Z card seals a text by the MD5 of all bytes before it.
ghost use Rattle.std.specs.Prelude.{◌≡◌, ◌↔◌, List, ℕ, length, IfSome, IfNone, IsTrue, OnOk, OnErr};
ghost use Rattle.md5.specs.Md5.{md5};
ghost use Rattle.hex.specs.Hex.{encode_lower};
ghost use Rattle.fsl_card.specs.Writing.{finished};
ghost use Rattle.fsl_card.specs.Parts.{seal_line};

use fsl_text::{Memory, Text};
use md5::{Digest, Md5};

/// The number of bytes of a Z card: its letter, a space, 32 digits and a newline.
const SEAL_LENGTH: usize = 35;

/// The bytes before the Z card of a text, and the digits of that card.
#[derive(Clone, Copy)]
pub struct SealedText<'a> {
    pub front: &'a [u8],
    pub digits: &'a [u8],
}

/// Computes the MD5 of some bytes, in 32 lower-case digits.
fn checksum(bytes: &[u8]) -> [u8; 32]
    ensures { result ≡ encode_lower (md5 bytes.now) }
{
    let digest = Md5::digest(bytes);
    let mut digits = [0u8; 32];
    let _ = hex::encode_to_slice(&digest, &mut digits);
    digits
}

/// Returns whether digits are the MD5 of some bytes.
fn is_checksum(digits: &[u8], bytes: &[u8]) -> bool
    ensures { IsTrue result ↔ (digits.now ≡ encode_lower (md5 bytes.now)) }
{
    checksum(bytes).as_slice() == digits
}

/// Returns the digits of a line that is long enough for a Z card, if it has the form of one.
fn seal_digits(line: &[u8]) -> Option<&[u8]>
    requires { length line.now ≡ 35 }
    ensures some { IfSome result (λ digits. line.now ≡ seal_line digits.now) }
    ensures long { IfSome result (λ digits. length digits.now ≡ 32) }
    ensures none { IfNone result ((digits : List ℕ) → length digits ≡ 32 → line.now ≡ seal_line digits → ⊥) }
{
    if line[0] != b'Z' || line[1] != b' ' || line[34] != b'\n' {
        return None;
    }
    Some(&line[2..34])
}

/// Returns the bytes before the last card of a text, if that is the Z card of their checksum.
pub fn sealed(text: &[u8]) -> Option<SealedText<'_>>
    ensures spelled { IfSome result (λ s. text.now ≡ finished s.front.now) }
    ensures digits { IfSome result (λ s. s.digits.now ≡ encode_lower (md5 s.front.now)) }
    ensures none { IfNone result ((front : List ℕ) → text.now ≡ finished front → ⊥) }
{
    if text.len() < SEAL_LENGTH {
        return None;
    }
    let (front, last) = text.split_at(text.len() - SEAL_LENGTH);
    let Some(digits) = seal_digits(last) else {
        return None;
    };
    if !is_checksum(digits, front) {
        return None;
    }
    Some(SealedText { front, digits })
}

/// Adds the Z card behind lines: the MD5 of all bytes before it, in 32 lower-case digits, and a newline. If out of memory, the
/// lines stay as they are.
/// FORMATS: Cards
pub fn finish(lines: &mut Text) -> Result<(), Memory>
    ensures ok { OnOk result (lines.new ≡ finished lines.old) }
    ensures err { OnErr result (lines.new ≡ lines.old) }
{
    let mut seal = [b' '; SEAL_LENGTH];
    seal[0] = b'Z';
    seal[2..34].copy_from_slice(checksum(lines.bytes()).as_slice());
    seal[34] = b'\n';
    lines.append(&seal)
}
