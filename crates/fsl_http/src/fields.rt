//! Finds the fields of a head by name.
ghost use Rattle.std.specs.Prelude.{◌≡◌, [], length, map, All, IfSome, IfNone};
ghost use Rattle.httparse.specs.Spans.{header_bytes, IsHeaderWithin};
ghost use Rattle.fsl_http.specs.Fields.{same_text, values_of, IsAt};

use httparse::spans::HeaderSpan;

/// Returns whether two texts are equal but for the case of letters.
pub fn is_same(a: &[u8], b: &[u8]) -> bool
    ensures { result ≡ same_text a.now b.now }
{
    a.eq_ignore_ascii_case(b)
}

/// Finds the first field of that name.
pub fn find(buf: &[u8], headers: &[HeaderSpan], name: &[u8]) -> Option<usize>
    requires { All (IsHeaderWithin (length buf.now)) headers.now }
    ensures found { IfSome result (IsAt buf.now headers.now name.now) }
    ensures none { IfNone result (values_of name.now (map (header_bytes buf.now) headers.now) ≡ []) }
{
    for i in 0..headers.len() {
        if is_same(headers[i].name.of(buf), name) {
            return Some(i);
        }
    }
    None
}
