//! Reads numbers in decimal digits.
ghost use Rattle.std.specs.Prelude.{◌≡◌, ℕ, ◌+◌, ◌*◌, ◌-◌, ◌≤◌};
ghost use Rattle.fsl_text.specs.Decimals.{decimal_of, fitting};

use super::fault::DecimalFault;

/// Adds a digit behind a number, if both fit into 64 bits.
fn next_value(value: Option<u64>, digit: u8) -> Option<u64>
    requires { 48 ≤ digit }
    ensures { (n : ℕ) → value ≡ fitting n → result ≡ fitting (10 * n + (digit - 48)) }
{
    value?.checked_mul(10)?.checked_add(u64::from(digit - b'0'))
}

/// Reads a text as a number in decimal digits. Leading zeros are allowed. A sign or a blank is no digit. Fails with `Empty` only
/// for no byte, else with `Digit` and the place of the first byte that is no digit, and with `Range` only for digits alone whose
/// number is 2^64 or more.
/// FORMATS: Texts
pub fn decimal(text: &[u8]) -> Result<u64, DecimalFault>
    ensures { result ≡ decimal_of text.now }
{
    if text.is_empty() {
        return Err(DecimalFault::Empty);
    }
    let mut value = Some(0);
    for (at, byte) in text.iter().enumerate() {
        if !byte.is_ascii_digit() {
            return Err(DecimalFault::Digit { at: at as u64 });
        }
        value = next_value(value, *byte);
    }
    value.ok_or(DecimalFault::Range)
}
