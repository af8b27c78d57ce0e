ghost use Rattle.std.specs.Prelude.{◌≡◌, ◌≤◌, IfOk, IfErr, OnOk};
ghost use Rattle.fsl_http.specs.Requests.{HasOneAnswer};
ghost use Rattle.fsl_http.specs.Asking.{IsAsked, IsListedAnswer, ended_answer, body_answer};
ghost use Rattle.fsl_http.specs.Reading.{SendsNothing, FailsBy, Breaks};

use super::body::read_body;
use super::head::{Front, read_head};
use super::request_head::Verdict;
use fsl_outside::Link;
use fsl_text::Text;
use std::alloc::Global;

/// The answer that a connection asks for.
#[derive(Drop)]
pub enum Asked {
    /// The connection ended before its first byte.
    Closed,
    /// The request isn't granted, and this status says why.
    Refused { status: u16 },
    /// The request asks for an answer to this message.
    Body(Text),
}

/// Says why a request is unknown.
#[derive(Clone, Copy, Debug, PartialEq, Eq)]
pub enum HttpFault {
    /// A read failed.
    Link,
    /// The program is out of memory.
    Memory,
}

/// Reads one request. The first of these tests that holds decides the answer:
///
/// no byte came: `Closed`; no head of HTTP/1.0 or 1.1 within 16,384 bytes and 64 fields: 400; a method that isn't POST:
/// 405; a target that is neither `/` nor `/xfer`: 404; the first Content-Type, up to a `;`, without blanks around it and
/// whatever the case of its letters, isn't `application/x-fossil-uncompressed`: 415; neither Content-Length nor
/// Transfer-Encoding: 411; Transfer-Encoding, two Content-Length fields, or one that isn't a decimal number of 64 bits:
/// 400; a length above 2^27 bytes: 413; fewer bytes than the length: 400; else the body.
///
/// No more is read than that needs, but for the rest of one read. Errors: `Link` if a read failed, and `Memory`. Nothing is sent.
/// FORMATS: HTTP
pub fn ask<L: Link>(alloc: Global, link: &mut L) -> Result<Asked, HttpFault>
    ensures ok { IfOk result (IsAsked (L.state link.old).present (L.state link.new).present) }
    ensures listed { IfOk result IsListedAnswer }
    ensures err { IfErr result (FailsBy (L.state link.old).faults (L.state link.new).faults) }
    ensures broken { IfErr result (Breaks (L.state link.old).present (L.state link.new).present) }
    ensures sent { SendsNothing (L.state link.old).present (L.state link.new).present }
    ensures stands { (L.state link.new).standing ≡ (L.state link.old).standing }
    ensures later { (L.state link.old).faults ≤ (L.state link.new).faults }
    ensures same { OnOk result ((L.state link.new).faults ≡ (L.state link.old).faults) }
{
    let mut bytes = Vec::new(alloc);
    match read_head(link, &mut bytes)? {
        Front::Whole { len, head } => match head {
            Verdict::Refuse(status) => Ok(Asked::Refused { status }),
            Verdict::Length(size) => {
                let text = read_body(alloc, link, &bytes[len..], size as usize)?;
                Ok(whole_or_short(text, size))
            }
        },
        Front::Never => Ok(Asked::Refused { status: 400 }),
        Front::Open => Ok(ended(&bytes)),
    }
}

// Returns the answer if the bytes end before a whole head.
fn ended(bytes: &[u8]) -> Asked
    ensures { result ≡ ended_answer bytes.now }
{
    if bytes.is_empty() {
        Asked::Closed
    } else {
        Asked::Refused { status: 400 }
    }
}

// Returns the answer to the bytes of a body of that size.
fn whole_or_short(text: Text, size: u64) -> Asked
    ensures { result ≡ body_answer text size }
{
    if (text.bytes().len() as u64) < size {
        Asked::Refused { status: 400 }
    } else {
        Asked::Body(text)
    }
}

/// Says that the bytes of a connection have one answer at most. This is a law and runs no code.
pub fn one_answer()
    ensures { HasOneAnswer }
{}
