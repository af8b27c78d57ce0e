//! Wants texts of a test.
use fsl_text::Text;
use std::process::Abort;

/// Wants a text to be this one. The tests hand theirs over to this one function, as a text that is held where an assertion may end is dear to
/// prove.
pub fn want(rt: &impl Abort, found: Text, wanted: &[u8]) {
    assert_eq!(rt; found.bytes(), wanted);
}
