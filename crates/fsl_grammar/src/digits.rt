//! Reads checksums in hexadecimal digits.
ghost use Rattle.std.specs.Prelude.{◌≡◌, IsTrue};
ghost use Rattle.std.specs.List.{list_all};
ghost use Rattle.fsl_grammar.specs.Forms.{checksum_in};
ghost use Rattle.fsl_name.specs.Name.{are_digits, bytes_of_digits, is_name_digit};

/// Reads 16 bytes from 32 lower-case digits.
pub fn read_checksum(arg: &[u8]) -> Option<[u8; 16]>
    ensures { result ≡ checksum_in arg.now }
{
    if are_digits(arg) {
        Some(spelled(arg))
    } else {
        None
    }
}

/// Returns whether the text is 32 lower-case digits.
fn are_digits(text: &[u8]) -> bool
    ensures { result ≡ are_digits 32 text.now }
{
    text.len() == 32 && all_digits(text)
}

fn all_digits(text: &[u8]) -> bool
    ensures { result ≡ list_all is_name_digit text.now }
{
    text.iter().all(|byte| is_digit(*byte))
}

fn is_digit(byte: u8) -> bool
    ensures { result ≡ is_name_digit byte }
{
    matches!(byte, b'0'..=b'9' | b'a'..=b'f')
}

/// Returns the bytes that 32 digits spell.
fn spelled(text: &[u8]) -> [u8; 16]
    requires { IsTrue (are_digits 32 text.now) }
    ensures { result ≡ bytes_of_digits text.now }
{
    let mut bytes = [0u8; 16];
    let _ = hex::decode_to_slice(text, &mut bytes);
    bytes
}
