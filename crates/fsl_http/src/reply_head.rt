//! Reads the head of a reply.
ghost use Rattle.std.specs.Prelude.{ℕ, length, map, All, IfSome, IfNone};
ghost use Rattle.httparse.specs.Spans.{header_bytes, IsHeaderWithin};
ghost use Rattle.fsl_http.specs.Responses.{SaysLength};

use super::fields::find;
use super::head::{Front, Head};
use super::limits::{FIELD_LIMIT, HEAD_LIMIT};
use fsl_text::decimal;
use httparse::Status;
use httparse::spans::{EMPTY_HEADER_SPAN, HeaderSpan, parse_response};

/// The status of a reply, and the length of its body.
#[derive(Clone, Copy)]
pub struct ReplyHead {
    pub code: u16,
    pub size: u64,
}

impl Head for ReplyHead {
    ghost use Rattle.fsl_http.specs.Exchanges.{IsWholeReply};
    ghost use Rattle.fsl_http.specs.Responses.{HasNoReply, IsUnfinishedReply};

    ghost begins = { IsWholeReply };

    ghost lacks = { HasNoReply };

    ghost opens = { IsUnfinishedReply };

    fn front_of(bytes: &[u8]) -> Front<ReplyHead> {
        let mut headers = [EMPTY_HEADER_SPAN; FIELD_LIMIT];
        match parse_response(bytes, &mut headers) {
            Ok(Status::Complete(head)) => match length_of(bytes, &headers[..head.headers]) {
                Some(size) => Front::Whole {
                    len: head.len,
                    head: ReplyHead {
                        code: head.code,
                        size,
                    },
                },
                None => Front::Never,
            },
            Ok(Status::Partial) => {
                if bytes.len() < HEAD_LIMIT {
                    Front::Open
                } else {
                    Front::Never
                }
            }
            Err(_) => Front::Never,
        }
    }
}

// Finds the one length that the fields have.
fn length_of(buf: &[u8], headers: &[HeaderSpan]) -> Option<u64>
    requires { All (IsHeaderWithin (length buf.now)) headers.now }
    ensures found { IfSome result (SaysLength (map (header_bytes buf.now) headers.now)) }
    ensures none { IfNone result ((n : ℕ) → SaysLength (map (header_bytes buf.now) headers.now) n → ⊥) }
{
    let Some(i) = find(buf, headers, b"content-length") else {
        return None;
    };
    if let Some(_) = find(buf, &headers[i + 1..], b"content-length") {
        return None;
    }
    match decimal(headers[i].value.of(buf)) {
        Ok(size) => Some(size),
        Err(_) => None,
    }
}
