//! Writes messages.
ghost use Rattle.std.specs.Prelude.{◌≡◌, ◌∷◌, ◌++◌, [], length, map, take, IfOk, OnErr, OnOk, IsTrue};
ghost use Rattle.std.specs.List.{join_with_byte, list_all};
ghost use Rattle.fsl_text.specs.Escapes.{escape};
ghost use Rattle.fsl_name.specs.Name.{name_text, IsName};
ghost use Rattle.fsl_wire.specs.Messages.{IsMessage};
ghost use Rattle.fsl_wire.specs.declared.WireCard.TheVariants as card_is;
ghost use Rattle.fsl_wire.specs.Writing.{line, card_bytes, message_bytes, is_writable, AreNumbers, IsOfType};

use crate::{Message, WireCard};
use fsl_name::Name;
use fsl_text::{Memory, Text, escape_into};
use itoa::Buffer;
use std::alloc::Global;

/// Cuts a text back to a length if a part alone was written.
fn whole(into: &mut Text, length: usize, written: Result<(), Memory>) -> Result<(), Memory>
    ensures same { result ≡ written }
    ensures ok { OnOk written (into.new ≡ into.old) }
    ensures err { OnErr written (into.new ≡ take length into.old) }
{
    if written.is_err() {
        into.truncate(length);
    }
    written
}

/// Writes tokens at the end of a text, with a space before each but the first, all of them or some.
fn add_tokens(into: &mut Text, tokens: &[&[u8]]) -> Result<(), Memory>
    ensures ok { OnOk result (into.new ≡ into.old ++ join_with_byte 32 (map (λ t. t.now) tokens.now)) }
    ensures err { OnErr result (take (length into.old) into.new ≡ into.old) }
{
    for (at, token) in tokens.iter().enumerate() {
        if at > 0 {
            into.append(b" ")?;
        }
        into.append(token)?;
    }
    Ok(())
}

/// Writes a line of tokens at the end of a text, all of it or some.
fn add_line(into: &mut Text, tokens: &[&[u8]]) -> Result<(), Memory>
    ensures ok { OnOk result (into.new ≡ into.old ++ line (map (λ t. t.now) tokens.now)) }
    ensures err { OnErr result (take (length into.old) into.new ≡ into.old) }
{
    add_tokens(into, tokens)?;
    into.append(b"\n")
}

/// Writes a line of a message at the end of a text: the tokens with one space between them, and a newline. `Memory` is the only
/// error, and then the text stays as it was.
pub fn append_line(into: &mut Text, tokens: &[&[u8]]) -> Result<(), Memory>
    ensures ok { OnOk result (into.new ≡ into.old ++ line (map (λ t. t.now) tokens.now)) }
    ensures err { OnErr result (into.new ≡ into.old) }
{
    let length = into.bytes().len();
    let written = add_line(into, tokens);
    whole(into, length, written)
}

/// Writes the line of an operator and one escaped text at the end of a text, all of it or some.
fn add_text_line(into: &mut Text, operator: &[u8], text: &[u8]) -> Result<(), Memory>
    ensures ok { OnOk result (into.new ≡ into.old ++ line (operator.now ∷ escape text.now ∷ [])) }
    ensures err { OnErr result (take (length into.old) into.new ≡ into.old) }
{
    into.append(operator)?;
    into.append(b" ")?;
    escape_into(into, text)?;
    into.append(b"\n")
}

/// Writes the line of an operator and one escaped text at the end of a text.
fn append_text_line(into: &mut Text, operator: &[u8], text: &[u8]) -> Result<(), Memory>
    ensures ok { OnOk result (into.new ≡ into.old ++ line (operator.now ∷ escape text.now ∷ [])) }
    ensures err { OnErr result (into.new ≡ into.old) }
{
    let length = into.bytes().len();
    let written = add_text_line(into, operator, text);
    whole(into, length, written)
}

/// Returns the digits of a name. This call proves to its caller that it has 20 bytes.
fn digits_of(name: &Name) -> [u8; 40]
    ensures text { result ≡ name_text name.now }
    ensures named { IsName name.now }
{
    let _ = name.bytes();
    name.text()
}

/// Writes a `clone` card at the end of a text: its version and its sequence, if it has them.
fn append_clone(into: &mut Text, from: Option<(u64, u64)>) -> Result<(), Memory>
    ensures ok { OnOk result (into.new ≡ into.old ++ card_bytes (card_is.Clone from)) }
    ensures err { OnErr result (into.new ≡ into.old) }
    ensures typed { AreNumbers from }
{
    let Some((version, sequence)) = from else {
        return append_line(into, &[b"clone"]);
    };
    let mut first = Buffer::new();
    let mut second = Buffer::new();
    let version = first.format(version).as_bytes();
    let sequence = second.format(sequence).as_bytes();
    append_line(into, &[b"clone", version, sequence])
}

/// Writes a `clone_seqno` card at the end of a text. `Memory` is the only error, and then the text stays as it was.
pub fn append_seqno(into: &mut Text, next: u64) -> Result<(), Memory>
    ensures ok { OnOk result (into.new ≡ into.old ++ card_bytes (card_is.CloneSeqno next)) }
    ensures err { OnErr result (into.new ≡ into.old) }
{
    let mut buffer = Buffer::new();
    append_line(into, &[b"clone_seqno", buffer.format(next).as_bytes()])
}

/// Writes a `file` card at the end of a text, all of it or some.
fn add_file(into: &mut Text, name: &Name, bytes: &[u8]) -> Result<(), Memory>
    ensures ok { OnOk result (into.new ≡ into.old ++ card_bytes (card_is.File name.now bytes.now)) }
    ensures err { OnErr result (take (length into.old) into.new ≡ into.old) }
    ensures named { IsName name.now }
{
    let mut buffer = Buffer::new();
    append_line(
        into,
        &[
            b"file",
            &digits_of(name),
            buffer.format(bytes.len()).as_bytes(),
        ],
    )?;
    into.append(bytes)?;
    into.append(b"\n")
}

/// Writes a `file` card at the end of a text: its line, the content and a newline. `Memory` is the only error, and then the text
/// stays as it was.
pub fn append_file(into: &mut Text, name: &Name, bytes: &[u8]) -> Result<(), Memory>
    ensures ok { OnOk result (into.new ≡ into.old ++ card_bytes (card_is.File name.now bytes.now)) }
    ensures err { OnErr result (into.new ≡ into.old) }
    ensures named { IsName name.now }
{
    let length = into.bytes().len();
    let written = add_file(into, name, bytes);
    whole(into, length, written)
}

/// Writes an `igot` card at the end of a text, with the flag `1` if the artifact is private. `Memory` is the only error, and then
/// the text stays as it was.
pub fn append_igot(into: &mut Text, name: &Name, private: bool) -> Result<(), Memory>
    ensures ok { OnOk result (into.new ≡ into.old ++ card_bytes (card_is.Igot name.now private)) }
    ensures err { OnErr result (into.new ≡ into.old) }
    ensures named { IsName name.now }
{
    if private {
        append_line(into, &[b"igot", &digits_of(name), b"1"])
    } else {
        append_line(into, &[b"igot", &digits_of(name)])
    }
}

/// Writes a `gimme` card at the end of a text. `Memory` is the only error, and then the text stays as it was.
pub fn append_gimme(into: &mut Text, name: &Name) -> Result<(), Memory>
    ensures ok { OnOk result (into.new ≡ into.old ++ card_bytes (card_is.Gimme name.now)) }
    ensures err { OnErr result (into.new ≡ into.old) }
    ensures named { IsName name.now }
{
    append_line(into, &[b"gimme", &digits_of(name)])
}

/// Writes an `error` card at the end of a text, with its own text escaped. `Memory` is the only error, and then the text stays as
/// it was.
pub fn append_error(into: &mut Text, text: &[u8]) -> Result<(), Memory>
    ensures ok { OnOk result (into.new ≡ into.old ++ card_bytes (card_is.Error text.now)) }
    ensures err { OnErr result (into.new ≡ into.old) }
{
    append_text_line(into, b"error", text)
}

/// Writes the line of an operator alone at the end of a text.
fn append_operator(into: &mut Text, operator: &[u8]) -> Result<(), Memory>
    ensures ok { OnOk result (into.new ≡ into.old ++ line (operator.now ∷ [])) }
    ensures err { OnErr result (into.new ≡ into.old) }
{
    append_line(into, &[operator])
}

/// Writes the line of an operator and two tokens at the end of a text.
fn append_pair(into: &mut Text, operator: &[u8], first: &[u8], second: &[u8]) -> Result<(), Memory>
    ensures ok { OnOk result (into.new ≡ into.old ++ line (operator.now ∷ first.now ∷ second.now ∷ [])) }
    ensures err { OnErr result (into.new ≡ into.old) }
{
    append_line(into, &[operator, first, second])
}

/// Writes a `pragma send-private` card at the end of a text.
fn append_send_private(into: &mut Text) -> Result<(), Memory>
    ensures ok { OnOk result (into.new ≡ into.old ++ card_bytes card_is.SendPrivate) }
    ensures err { OnErr result (into.new ≡ into.old) }
{
    append_line(into, &[b"pragma", b"send-private"])
}

/// Writes a card that can be written, so no login, at the end of a text.
fn append_card(into: &mut Text, card: &WireCard) -> Result<(), Memory>
    requires { IsTrue (is_writable card.now) }
    ensures ok { OnOk result (into.new ≡ into.old ++ card_bytes card.now) }
    ensures typed { OnOk result (IsOfType card.now) }
{
    match card {
        WireCard::Login { .. } => Ok(()),
        WireCard::Push { server, project } => {
            append_pair(into, b"push", server.bytes(), project.bytes())
        }
        WireCard::Pull { server, project } => {
            append_pair(into, b"pull", server.bytes(), project.bytes())
        }
        WireCard::Clone { from } => append_clone(into, *from),
        WireCard::CloneSeqno { next } => append_seqno(into, *next),
        WireCard::File { name, bytes } => append_file(into, name, bytes.bytes()),
        WireCard::Private => append_operator(into, b"private"),
        WireCard::Igot { name, private } => append_igot(into, name, *private),
        WireCard::Gimme { name } => append_gimme(into, name),
        WireCard::Error { text } => append_error(into, text.bytes()),
        WireCard::Message { text } => append_text_line(into, b"message", text.bytes()),
        WireCard::SendPrivate => append_send_private(into),
    }
}

/// Writes a message: one space between tokens, and one newline after each line and each content.
///
/// The message has no `Login` card, no empty text of an `Error` or a `Message` card, and each code of a `Push` or a
/// `Pull` card is one token. `read` reads it back. `Memory` is the only error.
/// FORMATS: Messages of a sync
pub fn write(alloc: Global, message: &Message) -> Result<Text, Memory>
    requires { IsTrue (list_all is_writable message.now) }
    ensures text { IfOk result (λ text. text ≡ message_bytes message.now) }
    ensures again { IfOk result (λ text. IsMessage text message.now) }
{
    let mut text = Text::empty(alloc);
    for card in message.cards() {
        append_card(&mut text, card)?;
    }
    Ok(text)
}
