//! Tests of trees, check-ins and scrubs, by public calls alone, with values from outside.
#![tactic(auto)]

#[cfg(test)]
mod checkins;
#[cfg(test)]
mod faults;
#[cfg(test)]
mod scrub;
#[cfg(test)]
mod sums;
#[cfg(test)]
mod trees;

/// A file with a Config without fields, 68 bytes.
#[cfg(test)]
const EMPTY: &[u8] =
    b"fossil-blobs-1\nO\0\0\0\0\0\0\0\x2BCabcdefghijklmnopqrstABCDEFGHIJKLMNOPQRST\0\0C";
