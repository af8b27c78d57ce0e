//! Reads the head of a request.
ghost use Rattle.std.specs.Prelude.{◌≡◌, length, map, All, bytes_eq, codes};
ghost use Rattle.httparse.specs.Spans.{header_bytes, IsHeaderWithin};
ghost use Rattle.fsl_http.specs.Fields.{values_of};
ghost use Rattle.fsl_http.specs.Requests.{judge_parts, judge_length, judge_number, is_message_type, is_message_text, IsListed};

use super::fields::{find, is_same};
use super::head::{Front, Head};
use super::limits::{BODY_LIMIT, FIELD_LIMIT, HEAD_LIMIT};
use super::trim::{first_part, trim};
use fsl_text::decimal;
use httparse::Status;
use httparse::spans::{EMPTY_HEADER_SPAN, HeaderSpan, parse_request};

/// The answer to a head: a status that refuses it, or a body of that many bytes.
#[derive(Clone, Copy)]
pub enum Verdict {
    Refuse(u16),
    Length(u64),
}

impl Head for Verdict {
    ghost use Rattle.fsl_http.specs.Requests.{IsWholeHead, HasNoHead, IsUnfinished};

    ghost begins = { IsWholeHead };

    ghost lacks = { HasNoHead };

    ghost opens = { IsUnfinished };

    fn front_of(bytes: &[u8]) -> Front<Verdict> {
        let mut headers = [EMPTY_HEADER_SPAN; FIELD_LIMIT];
        match parse_request(bytes, &mut headers) {
            Ok(Status::Complete(head)) => {
                let method = head.method.of(bytes);
                let target = head.path.of(bytes);
                let verdict = judge(bytes, method, target, &headers[..head.headers]);
                Front::Whole {
                    len: head.len,
                    head: verdict,
                }
            }
            Ok(Status::Partial) => {
                if bytes.len() < HEAD_LIMIT {
                    Front::Open
                } else {
                    Front::Never
                }
            }
            Err(_) => Front::Never,
        }
    }
}

// Finds the first test that the head fails, or the length of its body.
fn judge(buf: &[u8], method: &[u8], target: &[u8], headers: &[HeaderSpan]) -> Verdict
    requires { All (IsHeaderWithin (length buf.now)) headers.now }
    ensures listed { IsListed result }
    ensures value { result ≡ judge_parts method.now target.now (map (header_bytes buf.now) headers.now) }
{
    if !is_equal(method, b"POST") {
        return Verdict::Refuse(405);
    }
    if !is_equal(target, b"/") && !is_equal(target, b"/xfer") {
        return Verdict::Refuse(404);
    }
    if !has_message_type(buf, headers) {
        return Verdict::Refuse(415);
    }
    judge_fields(buf, headers)
}

fn is_equal(a: &[u8], b: &[u8]) -> bool
    ensures { result ≡ bytes_eq a.now b.now }
{
    a == b
}

fn has_message_type(buf: &[u8], headers: &[HeaderSpan]) -> bool
    requires { All (IsHeaderWithin (length buf.now)) headers.now }
    ensures { result ≡ is_message_type (values_of (codes "content-type") (map (header_bytes buf.now) headers.now)) }
{
    match find(buf, headers, b"content-type") {
        Some(i) => is_message(headers[i].value.of(buf)),
        None => false,
    }
}

fn is_message(value: &[u8]) -> bool
    ensures { result ≡ is_message_text value.now }
{
    is_same(
        trim(first_part(value)),
        b"application/x-fossil-uncompressed",
    )
}

fn judge_fields(buf: &[u8], headers: &[HeaderSpan]) -> Verdict
    requires { All (IsHeaderWithin (length buf.now)) headers.now }
    ensures listed { IsListed result }
    ensures value { result ≡ judge_length (map (header_bytes buf.now) headers.now) }
{
    if let Some(_) = find(buf, headers, b"transfer-encoding") {
        return Verdict::Refuse(400);
    }
    let Some(i) = find(buf, headers, b"content-length") else {
        return Verdict::Refuse(411);
    };
    if let Some(_) = find(buf, &headers[i + 1..], b"content-length") {
        return Verdict::Refuse(400);
    }
    judge_value(headers[i].value.of(buf))
}

fn judge_value(text: &[u8]) -> Verdict
    ensures listed { IsListed result }
    ensures value { result ≡ judge_number text.now }
{
    match decimal(text) {
        Ok(number) => {
            let is_above = BODY_LIMIT < number;
            if is_above {
                return Verdict::Refuse(413);
            }
            Verdict::Length(number)
        }
        Err(_) => Verdict::Refuse(400),
    }
}
