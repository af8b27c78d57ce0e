//! Compares escaped texts by the bytes that they mean.
ghost use Rattle.std.specs.Prelude.{◌≡◌, ◌∷◌, ◌<◌, ◌≤◌, [], List, ℕ, drop, length, IfSome, IfNone};
ghost use Rattle.fsl_order.specs.Names.{is_before};
ghost use Rattle.fsl_text.specs.Escapes.{unescape, byte_meant};

/// A byte of a decoded text, and the number of bytes that it takes in the escaped one.
#[derive(Clone, Copy)]
struct Decoded {
    byte: u8,
    taken: usize,
}

/// Returns the meaning of a byte behind a backslash.
fn byte_meant(byte: u8) -> u8
    ensures { result ≡ byte_meant byte }
{
    match byte {
        b's' => b' ',
        b'n' => b'\n',
        b't' => b'\t',
        b'r' => b'\r',
        b'v' => 11,
        b'f' => 12,
        b'0' => 0,
        other => other,
    }
}

/// Decodes the first byte of an escaped text.
fn first_decoded(text: &[u8]) -> Option<Decoded>
    ensures some { IfSome result (λ d. unescape text.now ≡ d.byte ∷ unescape (drop d.taken text.now)) }
    ensures some_taken { IfSome result (λ d. 0 < d.taken) }
    ensures within { IfSome result (λ d. d.taken ≤ length text.now) }
    ensures none { IfNone result (text.now ≡ []) }
{
    match text {
        [] => None,
        [b'\\', byte, ..] => Some(Decoded {
            byte: byte_meant(*byte),
            taken: 2,
        }),
        [byte, ..] => Some(Decoded {
            byte: *byte,
            taken: 1,
        }),
    }
}

/// Returns whether one escaped text comes before another by their decoded bytes.
pub fn is_before_decoded(a: &[u8], b: &[u8]) -> bool
    ensures { result ≡ is_before (unescape a.now) (unescape b.now) }
{
    let mut a = a;
    let mut b = b;
    while let Some(right) = first_decoded(b) {
        let Some(left) = first_decoded(a) else {
            return true;
        };
        if left.byte != right.byte {
            return left.byte < right.byte;
        }
        a = &a[left.taken..];
        b = &b[right.taken..];
    }
    false
}
