//! Limits of heads and bodies, and of one read.
use fsl_text::MOST_OF_MESSAGE;

/// The most bytes of a head.
pub const HEAD_LIMIT: usize = 16_384;

/// The most fields of a head.
pub const FIELD_LIMIT: usize = 64;

/// The most bytes of a body.
pub const BODY_LIMIT: u64 = MOST_OF_MESSAGE;

/// The most bytes that one read asks for.
pub const PIECE: usize = 4_096;
