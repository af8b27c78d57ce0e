ghost use Rattle.std.specs.Prelude.{◌≡◌, ◌≤◌, IfSome, IfErr, OnOk, OnErr};
ghost use Rattle.fsl_order.specs.Causes.{HasCause};
ghost use Rattle.fsl_http.specs.Reading.{SendsNothing};
ghost use Rattle.fsl_http.specs.Sending.{Sends, SendsFront};
ghost use Rattle.fsl_http.specs.Responses.{request_text, HasOneReply};
ghost use Rattle.fsl_http.specs.Exchanges.{ReadsReply, BreaksReply, FailsBy, IsExchangeOf, CutsOff, exchanged, body_result};

use super::body::read_body;
use super::head::{Front, read_head};
use super::limits::BODY_LIMIT;
use super::reply_head::ReplyHead;
use super::request::HttpFault;
use super::sending::send_all;
use fsl_outside::{Dial, Failed, Link};
use fsl_text::Text;
use itoa::Buffer;
use std::alloc::Global;

/// Says why an exchange gave no body, in the order of the tests.
#[derive(Clone, Copy, Debug, PartialEq, Eq)]
pub enum ExchangeFault {
    /// A call of the dial failed.
    Link,
    /// No head of a reply came, or its fields haven't exactly one Content-Length that is a decimal number of 64 bits.
    Head,
    /// The status isn't 200.
    Status { found: u16 },
    /// The length is above 2^27 bytes.
    Long { found: u64 },
    /// The body ended after so many bytes, fewer than its length.
    Short { found: u64 },
    /// The program is out of memory.
    Memory,
}

impl From<HttpFault> for ExchangeFault {
    ghost use Rattle.fsl_http.specs.Exchanges.{IsFaultOf};

    ghost from_gives = { IsFaultOf };

    fn from(fault: HttpFault) -> ExchangeFault {
        match fault {
            HttpFault::Link => ExchangeFault::Link,
            HttpFault::Memory => ExchangeFault::Memory,
        }
    }
}

/// Begins a connection, sends a request with this body, and reads the reply. No more is read than that needs, but for the rest of
/// one read. Errors: `Link` if a call of the dial failed, `Head`, `Status`, `Long` and `Short` by the bytes that were read, in
/// this order, and `Memory`.
/// FORMATS: HTTP
pub fn exchange<N: Dial>(alloc: Global, dial: &mut N, body: &[u8]) -> Result<Text, ExchangeFault>
    ensures exchanges { IfSome (exchanged result) (IsExchangeOf (N.state dial.old) (N.state dial.new) body.now) }
    ensures cut { IfErr result (CutsOff (N.state dial.old) (N.state dial.new) body.now) }
    ensures err { IfErr result (FailsBy (N.state dial.old).faults (N.state dial.new).faults) }
    ensures later { (N.state dial.old).faults ≤ (N.state dial.new).faults }
    ensures same { OnOk result ((N.state dial.new).faults ≡ (N.state dial.old).faults) }
{
    match dial.connect() {
        Ok(()) => {}
        Err(_) => return Err(ExchangeFault::Link),
    }
    match send_request(dial, body) {
        Ok(()) => read_reply(alloc, dial),
        Err(_) => Err(ExchangeFault::Link),
    }
}

// Writes the request. Takes no memory. After a failed write the connection took a front of it.
fn send_request<L: Link>(link: &mut L, body: &[u8]) -> Result<(), Failed>
    ensures sent { OnOk result (Sends (L.state link.old).present (L.state link.new).present (request_text body.now)) }
    ensures cut { OnErr result (SendsFront (L.state link.old).present (L.state link.new).present (request_text body.now)) }
    ensures stands { (L.state link.new).standing ≡ (L.state link.old).standing }
    ensures cause { HasCause (L.state link.old).faults (L.state link.new).faults result }
{
    let mut buffer = Buffer::new();
    let pieces: [&[u8]; 4] = [
        b"POST /xfer HTTP/1.1\r\nHost: fossil\r\nContent-Type: application/x-fossil-uncompressed\r\nContent-Length: ",
        buffer.format(body.len()).as_bytes(),
        b"\r\nConnection: close\r\n\r\n",
        body,
    ];
    send_all(link, &pieces)
}

// Reads the reply.
fn read_reply<L: Link>(alloc: Global, link: &mut L) -> Result<Text, ExchangeFault>
    ensures replied { ReadsReply (L.state link.old).present (L.state link.new).present result }
    ensures broken { IfErr result (BreaksReply (L.state link.old).present (L.state link.new).present) }
    ensures err { IfErr result (FailsBy (L.state link.old).faults (L.state link.new).faults) }
    ensures sent { SendsNothing (L.state link.old).present (L.state link.new).present }
    ensures stands { (L.state link.new).standing ≡ (L.state link.old).standing }
    ensures later { (L.state link.old).faults ≤ (L.state link.new).faults }
    ensures same { OnOk result ((L.state link.new).faults ≡ (L.state link.old).faults) }
{
    let mut bytes = Vec::new(alloc);
    let front: Front<ReplyHead> = match read_head(link, &mut bytes) {
        Ok(front) => front,
        Err(fault) => return Err(ExchangeFault::from(fault)),
    };
    let Front::Whole { len, head } = front else {
        return Err(ExchangeFault::Head);
    };
    if head.code != 200 {
        return Err(ExchangeFault::Status { found: head.code });
    }
    if BODY_LIMIT < head.size {
        return Err(ExchangeFault::Long { found: head.size });
    }
    match read_body(alloc, link, &bytes[len..], head.size as usize) {
        Ok(text) => whole_body(text, head.size),
        Err(fault) => Err(ExchangeFault::from(fault)),
    }
}

// Returns a body, if all bytes of that size came.
fn whole_body(text: Text, size: u64) -> Result<Text, ExchangeFault>
    ensures { result ≡ body_result text size }
{
    let found = text.bytes().len() as u64;
    if found < size {
        return Err(ExchangeFault::Short { found });
    }
    Ok(text)
}

/// Says that bytes are one reply at most. This is a law and runs no code.
pub fn one_reply()
    ensures { HasOneReply }
{}
