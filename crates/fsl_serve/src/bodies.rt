//! Writes the bodies that come in place of a reply.
ghost use Rattle.std.specs.Prelude.{◌≡◌, ◌⊎◌, IfOk, codes, [], ◌++◌, decimal};
ghost use Rattle.fsl_wire.specs.declared.WireFault.TheVariants as wire_fault;
ghost use Rattle.fsl_answer.specs.Replies.{error_line};
ghost use Rattle.fsl_answer.specs.Refusals.{refusal_text as text_of};
ghost use Rattle.fsl_serve.specs.Session.{malformed_body, login_body, refusal_body};
ghost use Rattle.fsl_serve.specs.Sessions.{line_of, sent_of};

use crate::said::{Halt, Said};
use fsl_answer::Refusal;
use fsl_text::{Memory, Text};
use fsl_wire::{WireFault, append_error};
use itoa::Buffer;
use std::alloc::Global;

/// The error card of a text.
fn error_body(alloc: Global, text: &[u8]) -> Result<Text, Memory>
    ensures { IfOk result (λ body. body ≡ error_line text.now) }
{
    let mut body = Text::empty(alloc);
    append_error(&mut body, text)?;
    Ok(body)
}

/// An error card is said, or that there was no memory for it.
fn error_said(alloc: Global, text: &[u8]) -> Said
    ensures { (sent_of result ≡ (200, error_line text.now)) ⊎ (sent_of result ≡ (503, [])) }
{
    match error_body(alloc, text) {
        Ok(body) => Said::Text(body),
        Err(_) => Said::Halted(Halt::Memory),
    }
}

/// `malformed line`, and the line.
fn malformed_text(alloc: Global, line: u64) -> Result<Text, Memory>
    ensures { IfOk result (λ text. text ≡ codes "malformed line " ++ decimal line) }
{
    let mut text = Text::of(alloc, b"malformed line ")?;
    text.append(Buffer::new().format(line).as_bytes())?;
    Ok(text)
}

/// What is said to a message whose line with this number doesn't read.
fn malformed(alloc: Global, line: u64) -> Said
    ensures { (sent_of result ≡ (200, malformed_body line)) ⊎ (sent_of result ≡ (503, [])) }
{
    match malformed_text(alloc, line) {
        Ok(text) => error_said(alloc, text.bytes()),
        Err(_) => Said::Halted(Halt::Memory),
    }
}

/// What is said where no message was read.
pub(crate) fn unread(alloc: Global, fault: WireFault) -> Said
    ensures line { (sent_of result ≡ (200, malformed_body (line_of fault))) ⊎ (sent_of result ≡ (503, [])) }
    ensures memory { fault ≡ wire_fault.Memory → sent_of result ≡ (503, []) }
{
    match fault {
        WireFault::Unknown { line }
        | WireFault::Args { line }
        | WireFault::Delta { line }
        | WireFault::Size { line }
        | WireFault::Short { line } => malformed(alloc, line),
        WireFault::Memory => Said::Halted(Halt::Memory),
    }
}

/// What is said to a message whose login isn't accepted.
pub(crate) fn login_failed(alloc: Global) -> Said
    ensures { (sent_of result ≡ (200, login_body)) ⊎ (sent_of result ≡ (503, [])) }
{
    error_said(alloc, b"login failed")
}

/// The words of a refusal.
fn refusal_text(refusal: Refusal) -> &'static [u8]
    ensures { result.now ≡ text_of refusal }
{
    match refusal {
        Refusal::Project => b"wrong project",
        Refusal::Write => b"not authorized to write",
        Refusal::Read => b"not authorized to read",
        Refusal::Clone => b"not authorized to clone",
        Refusal::Private => b"not authorized to write private",
    }
}

/// What is said to a message that is refused.
pub(crate) fn not_allowed(alloc: Global, refusal: Refusal) -> Said
    ensures { (sent_of result ≡ (200, refusal_body refusal)) ⊎ (sent_of result ≡ (503, [])) }
{
    error_said(alloc, refusal_text(refusal))
}
