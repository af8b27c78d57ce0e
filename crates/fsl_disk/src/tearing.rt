//! Makes what a crash may leave of changes that weren't made stable.
ghost use Rattle.std.specs.Prelude.{◌≡◌, ◌≤◌, reverse, All, OnOk};
ghost use Rattle.fsl_disk.specs.Disk.{Torn, CutShort};
ghost use Rattle.fsl_disk.specs.History.{IsPart, Wears};

use crate::change::Change;
use crate::history::put;
use fsl_text::Memory;
use std::alloc::Global;

/// Does some of these changes, some not, and some in part, as `pick` says.
///
/// Errors: `Memory`, after which some of them may be done.
pub fn tear(alloc: Global, image: &mut Vec<u8>, changes: &[Change], pick: u64) -> Result<(), Memory>
    requires { All IsPart changes.now }
    ensures { OnOk result (Wears (reverse changes.now) image.old.items image.new.items) }
{
    let mut roll = pick;
    for change in changes {
        roll = next_roll(roll);
        match change {
            Change::Write { at, bytes, range } => {
                tear_write(
                    alloc,
                    image,
                    *at as usize,
                    *range as usize,
                    bytes.bytes(),
                    roll,
                )?
            }
            Change::Cut { len, .. } => tear_cut(image, *len as usize, roll),
            Change::Sync => {}
        }
    }
    Ok(())
}

// The next number that a pick leads to. Its two highest bits say whether a change is left out, done, done in part, or done
// in part with another byte in the places behind.
fn next_roll(roll: u64) -> u64 {
    roll.wrapping_mul(6364136223846793005)
        .wrapping_add(1442695040888963407)
}

// How many of so many bytes are done.
fn extent(roll: u64, most: usize) -> usize
    ensures { result ≤ most }
{
    match roll >> 62 {
        0 => 0,
        1 => most,
        _ if most > 0 => (roll >> 8) as usize % most,
        _ => 0,
    }
}

// A write of `range` bytes that stops. One that began behind the end does nothing.
fn tear_write(
    alloc: Global,
    image: &mut Vec<u8>,
    at: usize,
    range: usize,
    bytes: &[u8],
    roll: u64,
) -> Result<(), Memory>
    ensures { OnOk result (Torn at range image.old.items image.new.items) }
{
    if image.len() < at {
        return Ok(());
    }
    let done = extent(roll, bytes.len().min(range));
    put(image, at, &bytes[..done])?;
    if roll >> 62 == 3 {
        let filler = vec![in alloc; (roll % 256) as u8; range - done]?;
        put(image, at + done, &filler)?;
    }
    Ok(())
}

// A cut to a length that stops.
fn tear_cut(image: &mut Vec<u8>, len: usize, roll: u64)
    ensures { CutShort len image.old.items image.new.items }
{
    if image.len() <= len {
        return;
    }
    let done = extent(roll, image.len() - len);
    image.truncate(image.len() - done);
    if roll >> 62 == 3 {
        image[len..].fill((roll % 256) as u8);
    }
}
