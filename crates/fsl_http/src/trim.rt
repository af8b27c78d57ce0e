ghost use Rattle.std.specs.Prelude.{◌≡◌, reverse};
ghost use Rattle.httparse.specs.Grammar.{skip_ows, trim_ows, is_ows};
ghost use Rattle.fsl_http.specs.Fields.{before_semicolon};

/// Returns the bytes before the first semicolon.
pub fn first_part(value: &[u8]) -> &[u8]
    ensures { result.now ≡ before_semicolon value.now }
{
    for i in 0..value.len() {
        if value[i] == b';' {
            return &value[..i];
        }
    }
    value
}

fn is_blank(byte: u8) -> bool
    ensures { result ≡ is_ows byte }
{
    byte == b' ' || byte == b'\t'
}

/// Returns the bytes without the blanks at both ends.
#[tactic(auto, unfolding(httparse::specs::Grammar::trim_ows))]
pub fn trim(value: &[u8]) -> &[u8]
    ensures { result.now ≡ trim_ows value.now }
{
    trim_end(trim_start(value))
}

fn trim_start(value: &[u8]) -> &[u8]
    ensures { result.now ≡ skip_ows value.now }
{
    for i in 0..value.len() {
        if !is_blank(value[i]) {
            return &value[i..];
        }
    }
    &value[value.len()..]
}

fn trim_end(value: &[u8]) -> &[u8]
    ensures { result.now ≡ reverse (skip_ows (reverse value.now)) }
{
    let mut end = value.len();
    while 0 < end {
        if !is_blank(value[end - 1]) {
            return &value[..end];
        }
        end -= 1;
    }
    &value[..0]
}
