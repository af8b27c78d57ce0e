//! Says which values have a text.
ghost use Rattle.std.specs.Prelude.{◌≡◌, not};
ghost use Rattle.std.specs.List.{list_all};
ghost use Rattle.std.specs.Str.{bytes_eq};
ghost use Rattle.fsl_name.specs.Ref.{ref_bytes};
ghost use Rattle.fsl_grammar.specs.Forms.{is_filled, is_tag_written, refs_differ};

use crate::TagCard;
use fsl_name::Ref;
use fsl_text::Text;

/// Returns whether an optional text has a byte if it is there.
pub fn is_filled(text: &Option<Text>) -> bool
    ensures { result ≡ is_filled text.now }
{
    match text {
        Some(text) => !text.bytes().is_empty(),
        None => true,
    }
}

/// Returns whether a tag can be written: its name has a byte, and so has its value if it is there.
pub fn is_tag_written(tag: &TagCard) -> bool
    ensures { result ≡ is_tag_written tag.now }
{
    !tag.tag.bytes().is_empty() && is_filled(&tag.value)
}

/// Returns whether all references differ. It takes no memory, and compares each one with each one behind it.
pub fn refs_differ(refs: &[Ref]) -> bool
    ensures { result ≡ refs_differ refs.now }
{
    let mut rest = refs;
    while let Some((first, others)) = rest.split_first() {
        if !differs_from_all(first, others) {
            return false;
        }
        rest = others;
    }
    true
}

fn differs_from_all(found: &Ref, others: &[Ref]) -> bool
    ensures { result ≡ list_all (λ other. not (bytes_eq (ref_bytes found.now) (ref_bytes other))) others.now }
{
    let bytes = found.bytes();
    others.iter().all(|other| bytes != other.bytes())
}
