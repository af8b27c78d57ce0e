//! Writes values as cards, at the end of a text. If out of memory, the text stays as it was: a value that is written in several
//! steps is cut back to its beginning.
ghost use Rattle.std.specs.Prelude.{◌≡◌, ◌++◌, ◌∷◌, [], OnErr, OnOk, decimal, flat_map, length, map, take};
ghost use Rattle.fsl_card.specs.Cards.{card_text, text_of};
ghost use Rattle.fsl_grammar.specs.Writing.{body_card, card, card_if, parents_card, sign_of, tag_card, target_text, written_if};
ghost use Rattle.fsl_name.specs.Name.{name_text};
ghost use Rattle.fsl_name.specs.Ref.{ref_text};
ghost use Rattle.fsl_text.specs.Escapes.{escape};

use crate::{Prefix, TagCard};
use fsl_name::{Name, Ref};
use fsl_text::{Memory, Text, escape_into};
use std::alloc::Global;

/// Cuts a text back to a length if a value was written only in part.
fn whole(into: &mut Text, length: usize, written: Result<(), Memory>) -> Result<(), Memory>
    ensures same { result ≡ written }
    ensures ok { OnOk written (into.new ≡ into.old) }
    ensures err { OnErr written (into.new ≡ take length into.old) }
{
    if written.is_err() {
        into.truncate(length);
    }
    written
}

/// Begins a card with its letter. `Memory` is the only error.
pub fn begin_card(into: &mut Text, letter: u8) -> Result<(), Memory>
    ensures ok { OnOk result (into.new ≡ into.old ++ letter ∷ []) }
    ensures err { OnErr result (into.new ≡ into.old) }
{
    into.append(&[letter])
}

/// Ends the line of a card. `Memory` is the only error.
pub fn end_card(into: &mut Text) -> Result<(), Memory>
    ensures ok { OnOk result (into.new ≡ into.old ++ 10 ∷ []) }
    ensures err { OnErr result (into.new ≡ into.old) }
{
    into.append(b"\n")
}

/// Writes an argument as it is. `Memory` is the only error.
pub fn write_argument(into: &mut Text, argument: &[u8]) -> Result<(), Memory>
    ensures ok { OnOk result (into.new ≡ into.old ++ 32 ∷ argument.now) }
    ensures err { OnErr result (into.new ≡ into.old) }
{
    let length = into.bytes().len();
    let written = add_argument(into, argument);
    whole(into, length, written)
}

fn add_argument(into: &mut Text, argument: &[u8]) -> Result<(), Memory>
    ensures ok { OnOk result (into.new ≡ into.old ++ 32 ∷ argument.now) }
    ensures err { OnErr result (take (length into.old) into.new ≡ into.old) }
{
    into.append(b" ")?;
    into.append(argument)
}

/// Writes a text as an argument, escaped. `Memory` is the only error.
pub fn write_text(into: &mut Text, text: &[u8]) -> Result<(), Memory>
    ensures ok { OnOk result (into.new ≡ into.old ++ 32 ∷ escape text.now) }
    ensures err { OnErr result (into.new ≡ into.old) }
{
    let length = into.bytes().len();
    let written = add_text(into, text);
    whole(into, length, written)
}

fn add_text(into: &mut Text, text: &[u8]) -> Result<(), Memory>
    ensures ok { OnOk result (into.new ≡ into.old ++ 32 ∷ escape text.now) }
    ensures err { OnErr result (take (length into.old) into.new ≡ into.old) }
{
    into.append(b" ")?;
    escape_into(into, text)
}

/// Writes a name as an argument, in its 40 digits. `Memory` is the only error.
pub fn write_name(into: &mut Text, name: &Name) -> Result<(), Memory>
    ensures ok { OnOk result (into.new ≡ into.old ++ 32 ∷ name_text name.now) }
    ensures err { OnErr result (into.new ≡ into.old) }
{
    write_argument(into, &name.text())
}

/// Writes a reference as an argument, in its 40 or 64 digits. `Memory` is the only error.
pub fn write_ref(into: &mut Text, reference: &Ref) -> Result<(), Memory>
    ensures ok { OnOk result (into.new ≡ into.old ++ 32 ∷ ref_text reference.now) }
    ensures err { OnErr result (into.new ≡ into.old) }
{
    let mut digits = [0u8; 64];
    let count = reference.write(&mut digits) as usize;
    write_argument(into, &digits[..count])
}

/// Writes a sign and a text behind it as one argument. `Memory` is the only error.
pub fn write_signed_text(into: &mut Text, sign: u8, text: &[u8]) -> Result<(), Memory>
    ensures ok { OnOk result (into.new ≡ into.old ++ 32 ∷ sign ∷ escape text.now) }
    ensures err { OnErr result (into.new ≡ into.old) }
{
    let length = into.bytes().len();
    let written = add_signed_text(into, sign, text);
    whole(into, length, written)
}

fn add_signed_text(into: &mut Text, sign: u8, text: &[u8]) -> Result<(), Memory>
    ensures ok { OnOk result (into.new ≡ into.old ++ 32 ∷ sign ∷ escape text.now) }
    ensures err { OnErr result (take (length into.old) into.new ≡ into.old) }
{
    into.append(&[b' ', sign])?;
    escape_into(into, text)
}

/// Writes a text as an argument, if there is one. `Memory` is the only error.
pub fn write_optional_text(into: &mut Text, text: &Option<Text>) -> Result<(), Memory>
    ensures ok { OnOk result (into.new ≡ into.old ++ flat_map (λ arg. 32 ∷ arg) (written_if escape text.now)) }
    ensures err { OnErr result (into.new ≡ into.old) }
{
    match text {
        Some(text) => write_text(into, text.bytes()),
        None => Ok(()),
    }
}

/// Writes a reference as an argument, if there is one. `Memory` is the only error.
pub fn write_optional_ref(into: &mut Text, reference: &Option<Ref>) -> Result<(), Memory>
    ensures ok { OnOk result (into.new ≡ into.old ++ flat_map (λ arg. 32 ∷ arg) (written_if ref_text reference.now)) }
    ensures err { OnErr result (into.new ≡ into.old) }
{
    match reference {
        Some(found) => write_ref(into, found),
        None => Ok(()),
    }
}

/// Writes a card with one argument as it is. `Memory` is the only error.
pub fn write_card(into: &mut Text, letter: u8, argument: &[u8]) -> Result<(), Memory>
    ensures ok { OnOk result (into.new ≡ into.old ++ card_text (card letter (argument.now ∷ []))) }
    ensures err { OnErr result (into.new ≡ into.old) }
{
    let length = into.bytes().len();
    let written = add_card(into, letter, argument);
    whole(into, length, written)
}

fn add_card(into: &mut Text, letter: u8, argument: &[u8]) -> Result<(), Memory>
    ensures ok { OnOk result (into.new ≡ into.old ++ card_text (card letter (argument.now ∷ []))) }
    ensures err { OnErr result (take (length into.old) into.new ≡ into.old) }
{
    begin_card(into, letter)?;
    write_argument(into, argument)?;
    end_card(into)
}

/// Writes a card with a text, escaped. `Memory` is the only error.
pub fn write_text_card(into: &mut Text, letter: u8, text: &[u8]) -> Result<(), Memory>
    ensures ok { OnOk result (into.new ≡ into.old ++ card_text (card letter (escape text.now ∷ []))) }
    ensures err { OnErr result (into.new ≡ into.old) }
{
    let length = into.bytes().len();
    let written = add_text_card(into, letter, text);
    whole(into, length, written)
}

fn add_text_card(into: &mut Text, letter: u8, text: &[u8]) -> Result<(), Memory>
    ensures ok { OnOk result (into.new ≡ into.old ++ card_text (card letter (escape text.now ∷ []))) }
    ensures err { OnErr result (take (length into.old) into.new ≡ into.old) }
{
    begin_card(into, letter)?;
    write_text(into, text)?;
    end_card(into)
}

/// Writes a card with a name. `Memory` is the only error.
pub fn write_name_card(into: &mut Text, letter: u8, name: &Name) -> Result<(), Memory>
    ensures ok { OnOk result (into.new ≡ into.old ++ card_text (card letter (name_text name.now ∷ []))) }
    ensures err { OnErr result (into.new ≡ into.old) }
{
    write_card(into, letter, &name.text())
}

/// Writes a card with a reference. `Memory` is the only error.
pub fn write_ref_card(into: &mut Text, letter: u8, reference: &Ref) -> Result<(), Memory>
    ensures ok { OnOk result (into.new ≡ into.old ++ card_text (card letter (ref_text reference.now ∷ []))) }
    ensures err { OnErr result (into.new ≡ into.old) }
{
    let mut digits = [0u8; 64];
    let count = reference.write(&mut digits) as usize;
    write_card(into, letter, &digits[..count])
}

/// Writes a card with a text, if there is one. `Memory` is the only error.
pub fn write_optional_text_card(
    into: &mut Text,
    letter: u8,
    text: &Option<Text>,
) -> Result<(), Memory>
    ensures ok { OnOk result (into.new ≡ into.old ++ text_of (card_if letter escape text.now)) }
    ensures err { OnErr result (into.new ≡ into.old) }
{
    match text {
        Some(text) => write_text_card(into, letter, text.bytes()),
        None => Ok(()),
    }
}

/// Writes a card with a name, if there is one. `Memory` is the only error.
pub fn write_optional_name_card(
    into: &mut Text,
    letter: u8,
    name: &Option<Name>,
) -> Result<(), Memory>
    ensures ok { OnOk result (into.new ≡ into.old ++ text_of (card_if letter name_text name.now)) }
    ensures err { OnErr result (into.new ≡ into.old) }
{
    match name {
        Some(name) => write_name_card(into, letter, name),
        None => Ok(()),
    }
}

/// Writes the P card of some parents. Without parents it writes nothing. `Memory` is the only error.
pub fn write_parents(into: &mut Text, parents: &[Ref]) -> Result<(), Memory>
    ensures ok { OnOk result (into.new ≡ into.old ++ text_of (parents_card parents.now)) }
    ensures err { OnErr result (into.new ≡ into.old) }
{
    let length = into.bytes().len();
    let written = add_parents(into, parents);
    whole(into, length, written)
}

fn add_parents(into: &mut Text, parents: &[Ref]) -> Result<(), Memory>
    ensures ok { OnOk result (into.new ≡ into.old ++ text_of (parents_card parents.now)) }
    ensures err { OnErr result (take (length into.old) into.new ≡ into.old) }
{
    if parents.is_empty() {
        return Ok(());
    }
    begin_card(into, b'P')?;
    add_refs(into, parents)?;
    end_card(into)
}

fn add_refs(into: &mut Text, refs: &[Ref]) -> Result<(), Memory>
    ensures ok { OnOk result (into.new ≡ into.old ++ flat_map (λ r. 32 ∷ ref_text r) refs.now) }
    ensures err { OnErr result (take (length into.old) into.new ≡ into.old) }
{
    for found in refs {
        write_ref(into, found)?;
    }
    Ok(())
}

/// Writes the T cards of some tags, in their order. `Memory` is the only error.
pub fn write_tags(into: &mut Text, tags: &[TagCard]) -> Result<(), Memory>
    ensures ok { OnOk result (into.new ≡ into.old ++ text_of (map tag_card tags.now)) }
    ensures err { OnErr result (into.new ≡ into.old) }
{
    let length = into.bytes().len();
    let written = add_tags(into, tags);
    whole(into, length, written)
}

fn add_tags(into: &mut Text, tags: &[TagCard]) -> Result<(), Memory>
    ensures ok { OnOk result (into.new ≡ into.old ++ text_of (map tag_card tags.now)) }
    ensures err { OnErr result (take (length into.old) into.new ≡ into.old) }
{
    for tag in tags {
        write_tag(into, tag)?;
    }
    Ok(())
}

/// Writes the T card of a tag. `Memory` is the only error.
pub fn write_tag(into: &mut Text, tag: &TagCard) -> Result<(), Memory>
    ensures ok { OnOk result (into.new ≡ into.old ++ card_text (tag_card tag.now)) }
    ensures err { OnErr result (into.new ≡ into.old) }
{
    let length = into.bytes().len();
    let written = add_tag(into, tag);
    whole(into, length, written)
}

fn add_tag(into: &mut Text, tag: &TagCard) -> Result<(), Memory>
    ensures ok { OnOk result (into.new ≡ into.old ++ card_text (tag_card tag.now)) }
    ensures err { OnErr result (take (length into.old) into.new ≡ into.old) }
{
    begin_card(into, b'T')?;
    write_signed_text(into, sign_of(tag.prefix), tag.tag.bytes())?;
    write_target(into, &tag.target)?;
    write_optional_text(into, &tag.value)?;
    end_card(into)
}

fn sign_of(prefix: Prefix) -> u8
    ensures { result ≡ sign_of prefix }
{
    match prefix {
        Prefix::Once => b'+',
        Prefix::Cancel => b'-',
        Prefix::Propagate => b'*',
    }
}

fn write_target(into: &mut Text, target: &Option<Ref>) -> Result<(), Memory>
    ensures ok { OnOk result (into.new ≡ into.old ++ 32 ∷ target_text target.now) }
    ensures err { OnErr result (into.new ≡ into.old) }
{
    match target {
        Some(found) => write_ref(into, found),
        None => write_argument(into, b"*"),
    }
}

/// Writes the W card of a text, with its size in bytes before it. `Memory` is the only error.
pub fn write_body(alloc: Global, into: &mut Text, text: &[u8]) -> Result<(), Memory>
    ensures ok { OnOk result (into.new ≡ into.old ++ card_text (body_card text.now)) }
    ensures err { OnErr result (into.new ≡ into.old) }
{
    let length = into.bytes().len();
    let written = add_body(alloc, into, text);
    whole(into, length, written)
}

fn add_body(alloc: Global, into: &mut Text, text: &[u8]) -> Result<(), Memory>
    ensures ok { OnOk result (into.new ≡ into.old ++ card_text (body_card text.now)) }
    ensures err { OnErr result (take (length into.old) into.new ≡ into.old) }
{
    begin_card(into, b'W')?;
    write_size(alloc, into, text.len())?;
    end_card(into)?;
    into.append(text)?;
    end_card(into)
}

fn write_size(alloc: Global, into: &mut Text, size: usize) -> Result<(), Memory>
    ensures ok { OnOk result (into.new ≡ into.old ++ 32 ∷ decimal size) }
    ensures err { OnErr result (into.new ≡ into.old) }
{
    let digits = format!(in alloc; "{size}")?;
    write_argument(into, digits.as_bytes())
}
