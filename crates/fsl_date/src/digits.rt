//! Numbers of two, three and four decimal digits.
ghost use Rattle.std.specs.Prelude.{◌≡◌, ◌<◌, ◌≤◌, ◌^◌, IsTrue, length};
ghost use Rattle.std.specs.List.{list_all, zip};
ghost use Rattle.std.specs.Cmp.Lexicographic.{pointwise};
ghost use Rattle.fsl_text.specs.Decimals.{is_decimal_digit, decimal_value};
ghost use Rattle.fsl_date.specs.Moment.{fits_place, has_date_shape, two_digits, three_digits, four_digits};

/// Returns whether the text has one of the two shapes of a date.
pub(crate) fn has_date_shape(text: &[u8]) -> bool
    ensures { result ≡ has_date_shape text.now }
{
    has_shape(text, b"9999-99-99T99:99:99") || has_shape(text, b"9999-99-99T99:99:99.999")
}

/// Returns whether the text has a digit wherever the shape has a `9`, and elsewhere the shape's own byte.
fn has_shape(text: &[u8], shape: &[u8]) -> bool
    ensures { result ≡ pointwise fits_place shape.now text.now }
{
    text.len() == shape.len() && fits_each(text, shape)
}

fn fits_each(text: &[u8], shape: &[u8]) -> bool
    ensures { result ≡ list_all (λ p. fits_place p.0 p.1) (zip shape.now text.now) }
{
    shape
        .iter()
        .zip(text)
        .all(|(place, byte)| fits(*place, *byte))
}

fn fits(place: u8, byte: u8) -> bool
    ensures { result ≡ fits_place place byte }
{
    if place == b'9' {
        byte.is_ascii_digit()
    } else {
        byte == place
    }
}

/// Returns the number that up to four digits make.
pub(crate) fn number(digits: &[u8]) -> u16
    requires short { length digits.now ≤ 4 }
    requires digits { IsTrue (list_all is_decimal_digit digits.now) }
    ensures value { result ≡ decimal_value digits.now }
    ensures bound { result < 10 ^ length digits.now }
{
    let mut value = 0;
    for digit in digits {
        value = 10 * value + u16::from(digit - b'0');
    }
    value
}

pub(crate) fn two(number: u16) -> [u8; 2]
    requires { number ≤ 99 }
    ensures { result ≡ two_digits number }
{
    [b'0' + (number / 10) as u8, b'0' + (number % 10) as u8]
}

pub(crate) fn three(number: u16) -> [u8; 3]
    requires { number ≤ 999 }
    ensures { result ≡ three_digits number }
{
    let [tens, ones] = two(number % 100);
    [b'0' + (number / 100) as u8, tens, ones]
}

pub(crate) fn four(number: u16) -> [u8; 4]
    requires { number ≤ 9999 }
    ensures { result ≡ four_digits number }
{
    let [thousands, hundreds] = two(number / 100);
    let [tens, ones] = two(number % 100);
    [thousands, hundreds, tens, ones]
}
