//! Finds the tokens of a line, one after another.
ghost use Rattle.std.specs.Prelude.{◌≡◌, [], ◌∷◌, IfNone, IfSome, not, position, ◌≤◌, length};
ghost use Rattle.std.specs.List.{position_or_len};
ghost use Rattle.std.specs.Str.{bytes_eq};
ghost use Rattle.fsl_text.specs.Tokens.{is_blank, tokens_of};

/// Returns whether a byte separates tokens: a space, a tab or a carriage return.
fn is_blank(byte: u8) -> bool
    ensures { result ≡ is_blank byte }
{
    byte == b' ' || byte == b'\t' || byte == b'\r'
}

/// Finds the first byte that is no blank.
fn token_start(line: &[u8]) -> Option<usize>
    ensures { result ≡ position (λ b. not (is_blank b)) line.now }
{
    line.iter().position(|byte| !is_blank(*byte))
}

/// Finds the first blank.
fn first_blank(line: &[u8]) -> Option<usize>
    ensures { result ≡ position is_blank line.now }
{
    line.iter().position(|byte| is_blank(*byte))
}

/// Finds the first blank, or the end of the line.
fn token_end(line: &[u8]) -> usize
    ensures place { result ≡ position_or_len is_blank line.now }
    ensures within { result ≤ length line.now }
{
    match first_blank(line) {
        Some(end) => end,
        None => line.len(),
    }
}

/// Splits off the first token of a line. Returns it and the bytes behind it, or `None` if the line has no token. The blanks
/// between tokens are space, tab and carriage return. Nothing is copied.
pub fn first_token(line: &[u8]) -> Option<(&[u8], &[u8])>
    ensures none { IfNone result (tokens_of line.now ≡ []) }
    ensures some { IfSome result (λ s. tokens_of line.now ≡ s.0.now ∷ tokens_of s.1.now) }
    ensures short { IfSome result (λ s. length s.0.now ≤ length line.now) }
{
    let Some(start) = token_start(line) else {
        return None;
    };
    let rest = &line[start..];
    let end = token_end(rest);
    Some((&rest[..end], &rest[end..]))
}

/// Returns whether a token is a word.
pub fn is_word(token: &[u8], word: &[u8]) -> bool
    ensures { result ≡ bytes_eq token.now word.now }
{
    token == word
}
