//! The lines of the reports.
ghost use Rattle.std.specs.Prelude.{◌≡◌, ◌++◌, ℕ, List, decimal, IfOk, OnOk, IsErr};
ghost use Rattle.fsl_watch.specs.Lines.{request_line as request_text, round_line as round_text, input_line as input_text, disk_line as disk_text, said_of as said_text, Takes, Notes};

use crate::traffic::Traffic;
use fsl_outside::{Sink, write_whole};
use fsl_text::{Memory, Text};
use itoa::Buffer;
use std::alloc::Global;

/// Says to whom the file of a disk belongs.
#[derive(Clone, Copy)]
pub enum Whose {
    /// The file is the command's own.
    Own,
    /// The file is the peer's.
    Peer,
}

/// The counts of a disk: the bytes that were read and written, up to the last value of `u64`, and its last known length, in
/// bytes.
#[derive(Clone, Copy)]
pub struct Progress {
    pub read: u64,
    pub written: u64,
    pub len: u64,
}

/// Adds a number and the bytes behind it at the end.
fn append_count(text: &mut Text, count: u64, behind: &[u8]) -> Result<(), Memory>
    ensures { OnOk result (text.new ≡ text.old ++ decimal count ++ behind.now) }
{
    text.append(Buffer::new().format(count).as_bytes())?;
    text.append(behind)
}

/// Writes the line of a request that took so many milliseconds.
pub(crate) fn request_line(alloc: Global, traffic: &Traffic, ms: u64) -> Result<Text, Memory>
    ensures { IfOk result (λ text. text ≡ request_text traffic.now ms) }
{
    let mut text = Text::of(alloc, b"fossil: status ")?;
    text.append(traffic.status())?;
    text.append(b", ")?;
    append_count(&mut text, traffic.came(), b" bytes in, ")?;
    append_count(&mut text, traffic.went(), b" bytes out, ")?;
    append_count(&mut text, ms, b" ms\n")?;
    Ok(text)
}

/// Writes the line of a round of a sync that took so many milliseconds.
pub(crate) fn round_line(
    alloc: Global,
    round: u64,
    traffic: &Traffic,
    ms: u64,
) -> Result<Text, Memory>
    ensures { IfOk result (λ text. text ≡ round_text round traffic.now ms) }
{
    let mut text = Text::of(alloc, b"fossil: round ")?;
    append_count(&mut text, round, b", ")?;
    append_count(&mut text, traffic.went(), b" bytes sent, ")?;
    append_count(&mut text, traffic.came(), b" bytes got, ")?;
    append_count(&mut text, ms, b" ms\n")?;
    Ok(text)
}

/// Writes the line of an input.
pub(crate) fn input_line(alloc: Global, count: u64) -> Result<Text, Memory>
    ensures { IfOk result (λ text. text ≡ input_text count) }
{
    let mut text = Text::of(alloc, b"fossil: the input: ")?;
    append_count(&mut text, count, b" bytes read\n")?;
    Ok(text)
}

/// Returns the beginning of the line of a file.
fn name_of(whose: Whose) -> &'static [u8]
    ensures { result.now ≡ said_text whose }
{
    match whose {
        Whose::Own => b"fossil: the file: ",
        Whose::Peer => b"fossil: the peer's file: ",
    }
}

/// Writes the line of a file.
pub(crate) fn disk_line(alloc: Global, whose: Whose, progress: Progress) -> Result<Text, Memory>
    ensures { IfOk result (λ text. text ≡ disk_text whose progress) }
{
    let mut text = Text::of(alloc, name_of(whose))?;
    append_count(&mut text, progress.read, b" of ")?;
    append_count(&mut text, progress.len, b" bytes read, ")?;
    append_count(&mut text, progress.written, b" written\n")?;
    Ok(text)
}

/// Puts a line out, if it could be made. A line that can't be put out is dropped.
pub(crate) fn put_out<K: Sink>(out: &mut K, line: Result<Text, Memory>)
    ensures took { IfOk line (λ text. Takes (K.state out.old) (K.state out.new) text) }
    ensures none { IsErr line → out.new ≡ out.old }
    ensures notes { (text : List ℕ) → IfOk line (λ t. t ≡ text) → Notes (K.state out.old) (K.state out.new) text }
{
    if let Ok(line) = line {
        drop(write_whole(out, line.bytes()));
    }
}
