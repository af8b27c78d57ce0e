//! Takes the parts of a record from the front of bytes. Numbers are written with the greatest byte first.
ghost use Rattle.std.specs.Prelude.{◌≡◌, ◌++◌, ◌∷◌, ◌<◌, ◌≤◌, ◌^◌, length, slice_index, MatchOption};
ghost use Rattle.std.specs.Int.{to_be_bytes, w16, w32, w64};

/// Splits off the first `count` bytes. Returns them and the bytes behind them, or `None` if there are fewer.
pub fn split_bytes(bytes: &[u8], count: usize) -> Option<(&[u8], &[u8])>
    ensures { MatchOption result (length bytes.now < count) (λ split. (bytes.now ≡ split.0.now ++ split.1.now) × (length split.0.now ≡ count)) }
{
    if bytes.len() < count {
        return None;
    }
    Some(bytes.split_at(count))
}

/// Splits off the number in the first 2 bytes, and returns it and the bytes behind it.
pub fn split_count(bytes: &[u8]) -> Option<(u16, &[u8])>
    ensures { MatchOption result (length bytes.now < 2) (λ split. (bytes.now ≡ to_be_bytes w16 split.0 ++ split.1.now) × (split.0 < 2 ^ 16)) }
{
    let (count, rest) = bytes.split_first_chunk()?;
    Some((u16::from_be_bytes(*count), rest))
}

/// Splits off the number in the first 8 bytes, and returns it and the bytes behind it.
pub fn split_length(bytes: &[u8]) -> Option<(u64, &[u8])>
    ensures { MatchOption result (length bytes.now < 8) (λ split. (bytes.now ≡ to_be_bytes w64 split.0 ++ split.1.now) × (split.0 < 2 ^ 64)) }
{
    let (length, rest) = bytes.split_first_chunk()?;
    Some((u64::from_be_bytes(*length), rest))
}

/// Splits off the number in the first 4 bytes, and returns it and the bytes behind it.
pub fn split_login_length(bytes: &[u8]) -> Option<(u32, &[u8])>
    ensures { MatchOption result (length bytes.now < 4) (λ split. (bytes.now ≡ to_be_bytes w32 split.0 ++ split.1.now) × (split.0 < 2 ^ 32)) }
{
    let (length, rest) = bytes.split_first_chunk()?;
    Some((u32::from_be_bytes(*length), rest))
}
