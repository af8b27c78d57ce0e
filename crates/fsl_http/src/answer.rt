ghost use Rattle.std.specs.Prelude.{◌≡◌, OnOk, OnErr};
ghost use Rattle.fsl_order.specs.Causes.{HasCause};
ghost use Rattle.http.specs.StatusCode.{code_digits};
ghost use Rattle.fsl_http.specs.Sending.{Sends, SendsFront};
ghost use Rattle.fsl_http.specs.Replies.{IsStatus, phrase, field_text, body_text, pieces_text, reply_text};

use super::sending::send_all;
use fsl_outside::{Failed, Link};
use http::StatusCode;
use itoa::Buffer;

// Makes the status as a type of its own.
fn code_of(status: u16) -> StatusCode
    requires { IsStatus status }
    ensures { result ≡ status }
{
    match StatusCode::from_u16(status) {
        Ok(code) => code,
        Err(_) => unreachable!(),
    }
}

// Returns the digits of a status.
fn digits_of(code: StatusCode) -> &'static [u8]
    ensures { result.now ≡ code_digits code }
{
    code.as_str().as_bytes()
}

#[tactic(auto, unfolding(crate::specs::Replies::phrase))]
// Returns the phrase behind a status.
fn phrase_of(code: StatusCode) -> &'static [u8]
    ensures { result.now ≡ phrase code }
{
    match code.canonical_reason() {
        Some(phrase) => phrase.as_bytes(),
        None => b"",
    }
}

#[tactic(auto, unfolding(crate::specs::Replies::field_text))]
// Returns the field before the length.
fn field_of(status: u16) -> &'static [u8]
    ensures { result.now ≡ field_text status }
{
    match status {
        200 => b"Content-Type: application/x-fossil-uncompressed\r\n",
        405 => b"Allow: POST\r\n",
        _ => b"",
    }
}

#[tactic(auto, unfolding(crate::specs::Replies::body_text))]
// Returns the part of the body that a reply sends.
fn body_of(status: u16, body: &[u8]) -> &[u8]
    ensures { result.now ≡ body_text status body.now }
{
    if status == 200 { body } else { b"" }
}

// Writes a reply by its pieces.
fn send_pieces<'a, L: Link>(
    link: &mut L,
    digits: &'a [u8],
    phrase: &'a [u8],
    field: &'a [u8],
    sent: &'a [u8],
) -> Result<(), Failed>
    ensures sent { OnOk result (Sends (L.state link.old).present (L.state link.new).present (pieces_text digits.now phrase.now field.now sent.now)) }
    ensures cut { OnErr result (SendsFront (L.state link.old).present (L.state link.new).present (pieces_text digits.now phrase.now field.now sent.now)) }
    ensures stands { (L.state link.new).standing ≡ (L.state link.old).standing }
    ensures cause { HasCause (L.state link.old).faults (L.state link.new).faults result }
{
    let mut buffer = Buffer::new();
    let pieces: [&[u8]; 10] = [
        b"HTTP/1.1 ",
        digits,
        b" ",
        phrase,
        b"\r\n",
        field,
        b"Content-Length: ",
        buffer.format(sent.len()).as_bytes(),
        b"\r\nConnection: close\r\n\r\n",
        sent,
    ];
    send_all(link, &pieces)
}

/// Writes the reply: its status, one of 200, 400, 404, 405, 411, 413, 415, 500 and 503, and with 200 the body. Takes no memory.
/// Fails only if a write failed, and then the connection took a front of the reply.
/// FORMATS: HTTP
pub fn reply<L: Link>(link: &mut L, status: u16, body: &[u8]) -> Result<(), Failed>
    requires { IsStatus status }
    ensures sent { OnOk result (Sends (L.state link.old).present (L.state link.new).present (reply_text status body.now)) }
    ensures cut { OnErr result (SendsFront (L.state link.old).present (L.state link.new).present (reply_text status body.now)) }
    ensures stands { (L.state link.new).standing ≡ (L.state link.old).standing }
    ensures cause { HasCause (L.state link.old).faults (L.state link.new).faults result }
{
    let code = code_of(status);
    send_pieces(
        link,
        digits_of(code),
        phrase_of(code),
        field_of(status),
        body_of(status, body),
    )
}
