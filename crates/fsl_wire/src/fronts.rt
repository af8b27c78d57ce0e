//! Reads the next line of a message, with the content behind it.
ghost use Rattle.std.specs.Prelude.{◌≡◌, None, Some, position};
ghost use Rattle.fsl_text.specs.Bytes.{is_newline};
ghost use Rattle.fsl_wire.specs.Fronts.{IsFrontOf};

use super::meaning::{Meaning, Wrong, read_line};

/// The line at the front of some bytes.
#[derive(Clone, Copy)]
pub enum Front<'a> {
    /// A line that reads. The content goes from one place to another, and a line without content ends at both.
    Line {
        meaning: Meaning<'a>,
        from: usize,
        to: usize,
    },
    /// A last line that reads, without a newline.
    Last {
        meaning: Meaning<'a>,
    },
    /// A line that doesn't read.
    Bad {
        wrong: Wrong,
    },
}

fn newline(bytes: &[u8]) -> Option<usize>
    ensures { result ≡ position is_newline bytes.now }
{
    bytes.iter().position(|byte| *byte == b'\n')
}

/// Reads bytes without a newline as a last line. The line of a file has no content there.
fn last_line(bytes: &[u8]) -> Front<'_>
    requires { position is_newline bytes.now ≡ None }
    ensures { IsFrontOf bytes.now result }
{
    match read_line(bytes) {
        Meaning::Bad(wrong) => Front::Bad { wrong },
        Meaning::File { .. } => Front::Bad {
            wrong: Wrong::Short,
        },
        meaning => Front::Last { meaning },
    }
}

/// Reads the line before the first newline, which is at a place.
fn line_before(bytes: &[u8], end: usize) -> Front<'_>
    requires { position is_newline bytes.now ≡ Some end }
    ensures { IsFrontOf bytes.now result }
{
    let from = end + 1;
    match read_line(&bytes[..end]) {
        Meaning::Bad(wrong) => Front::Bad { wrong },
        Meaning::File { name, size } => {
            if size > (bytes.len() - from) as u64 {
                return Front::Bad {
                    wrong: Wrong::Short,
                };
            }
            Front::Line {
                meaning: Meaning::File { name, size },
                from,
                to: from + size as usize,
            }
        }
        meaning => Front::Line {
            meaning,
            from,
            to: from,
        },
    }
}

/// Reads the line at the front of the bytes.
pub fn front_of(bytes: &[u8]) -> Front<'_>
    ensures { IsFrontOf bytes.now result }
{
    match newline(bytes) {
        Some(end) => line_before(bytes, end),
        None => last_line(bytes),
    }
}
