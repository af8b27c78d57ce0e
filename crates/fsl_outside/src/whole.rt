//! Reads a source to its end, and writes a whole text into a sink.
ghost use Rattle.std.specs.Prelude.{◌≡◌, ◌<◌, ◌≤◌, length, IfOk, IfSome, IfNone, OnOk, OnErr, IfErr};
ghost use Rattle.std.specs.Io.KnownBytes.{Appends, Consumes, IsAtEnd};
ghost use Rattle.fsl_order.specs.Causes.{HasCause};
ghost use Rattle.fsl_outside.specs.Whole.{AppendsFront, ConsumesSome, ConsumesMore, FailsBy};

use super::outside::{Failed, Sink, Source};
use fsl_text::Text;
use std::alloc::Global;

// The number of bytes that one read asks for.
const PIECE: usize = 65536;

/// Says why a source wasn't read to its end.
#[derive(Clone, Copy, Debug, PartialEq, Eq)]
pub enum ReadFault {
    /// A read failed.
    Failed,
    /// The bytes didn't fit in memory.
    Memory,
}

/// Reads to the end, and returns all bytes, or `None` if there are more than `limit`. In that case it has read more than `limit`.
/// After a fault, the bytes that were read are lost.
pub fn read_whole<S: Source>(
    alloc: Global,
    source: &mut S,
    limit: usize,
) -> Result<Option<Text>, ReadFault>
    ensures whole { IfOk result (λ r. IfSome r (λ text. Consumes (S.state source.old).left (S.state source.new).left text)) }
    ensures end { IfOk result (λ r. IfSome r (λ _. IsAtEnd (S.state source.new).left)) }
    ensures within { IfOk result (λ r. IfSome r (λ text. length text ≤ limit)) }
    ensures long { IfOk result (λ r. IfNone r (ConsumesMore limit (S.state source.old).left (S.state source.new).left)) }
    ensures lost { OnErr result (ConsumesSome (S.state source.old).left (S.state source.new).left) }
    ensures cause { IfErr result (FailsBy (S.state source.old).faults (S.state source.new).faults) }
    ensures same { OnOk result ((S.state source.new).faults ≡ (S.state source.old).faults) }
{
    let mut text = Vec::new(alloc);
    let mut piece = [0u8; PIECE];
    for _ in 0..=limit {
        match source.read(&mut piece) {
            Ok(0) => return Ok(Some(Text::from_vec(text))),
            Ok(count) => {
                if text.extend_from_slice(&piece[..count]).is_err() {
                    return Err(ReadFault::Memory);
                }
                if text.len() > limit {
                    return Ok(None);
                }
            }
            Err(_) => return Err(ReadFault::Failed),
        }
    }
    Ok(None)
}

/// Writes all of the text. After a failure a front of it was taken.
pub fn write_whole<K: Sink>(sink: &mut K, text: &[u8]) -> Result<(), Failed>
    ensures ok { OnOk result (Appends (K.state sink.old).taken (K.state sink.new).taken text.now) }
    ensures err { OnErr result (AppendsFront (K.state sink.old).taken (K.state sink.new).taken text.now) }
    ensures cause { HasCause (K.state sink.old).faults (K.state sink.new).faults result }
{
    let mut rest = text;
    while !rest.is_empty() {
        let count = sink.write(rest)?;
        rest = &rest[count..];
    }
    Ok(())
}
