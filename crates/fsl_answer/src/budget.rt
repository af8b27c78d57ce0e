//! Chooses how many files a reply takes.
ghost use Rattle.std.specs.Prelude.{◌≡◌};
ghost use Rattle.fsl_answer.specs.Replies.{taken};

use fsl_text::{BUDGET, SHARE};

/// Returns how many leading files the budget takes, by their sizes in bytes. A file is taken as long as the sum before it, 64
/// bytes more for each, is below 1,000,000. So the first is always taken. Takes no memory.
pub fn taken(sizes: &[u64]) -> u64
    ensures { result ≡ taken sizes.now }
{
    let mut left = BUDGET;
    for (at, size) in sizes.iter().enumerate() {
        if left == 0 {
            return at as u64;
        }
        left = left.saturating_sub(*size).saturating_sub(SHARE);
    }
    sizes.len() as u64
}
