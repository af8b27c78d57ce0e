//! Finds the counted body of a `W` card.
ghost use Rattle.std.specs.Prelude.{◌≡◌, ◌++◌, ◌∷◌, ◌<◌, ◌+◌, ℕ, List, Some, length, take, drop, IfSome, IfNone};
ghost use Rattle.fsl_card.specs.Cards.{BodyFits};

use fsl_text::{Text, decimal};

/// Returns the number of bytes that the arguments announce, if the body is at the front of the bytes with a newline behind it.
pub fn body_size(args: &[Text], bytes: &[u8]) -> Option<usize>
    ensures within { IfSome result (λ size. size < length bytes.now) }
    ensures announced { IfSome result (λ size. BodyFits 87 args.now (Some (take size bytes.now))) }
    ensures spelled { IfSome result (λ size. bytes.now ≡ take size bytes.now ++ 10 ∷ drop (size + 1) bytes.now) }
    ensures none { IfNone result ((body more : List ℕ) → BodyFits 87 args.now (Some body) → bytes.now ≡ body ++ 10 ∷ more → ⊥) }
{
    let [size] = args else {
        return None;
    };
    let Ok(size) = decimal(size.bytes()) else {
        return None;
    };
    if (bytes.len() as u64) <= size {
        return None;
    }
    let size = size as usize;
    if bytes[size] != b'\n' {
        return None;
    }
    Some(size)
}
