//! Facts on texts, for proofs alone.
ghost use Rattle.std.specs.Prelude.{◌<◌, ◌^◌, length};

use fsl_text::Text;

/// Says that a text has fewer than 2^64 bytes. It changes nothing and gives nothing.
pub(crate) fn know_length(text: &Text)
    ensures { length text.now < 2 ^ 64 }
{
    let _ = text.bytes().len();
}
