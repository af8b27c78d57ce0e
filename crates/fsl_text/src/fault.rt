/// Says why a text is no decimal number of 64 bits.
#[derive(Clone, Copy, Debug, PartialEq, Eq)]
pub enum DecimalFault {
    /// The text has no byte.
    Empty,
    /// This byte is the first that is no digit.
    Digit { at: u64 },
    /// The number is 2^64 or more.
    Range,
}

/// The place of a token in its line, counted in bytes from the line's beginning.
#[derive(Clone, Copy, Debug, PartialEq, Eq)]
pub struct Span {
    /// The place of the token's first byte.
    pub from: u64,
    /// The place right behind the token's last byte.
    pub to: u64,
}
