//! Reads the forms of arguments that several kinds share.
ghost use Rattle.std.specs.Prelude.{◌≡◌, option_map};
ghost use Rattle.fsl_grammar.specs.Forms.{checksum_form, date_form, hash_form, optional, prefix_in, ref_form, tag_form, tag_in, target_in, text_form, user_form};
ghost use Rattle.fsl_grammar.specs.Reading.{IsGiven};
ghost use Rattle.fsl_name.specs.Name.{name_in};
ghost use Rattle.fsl_name.specs.Ref.{ref_in};
ghost use Rattle.fsl_text.specs.Escapes.{unescape};

use super::digits::read_checksum;
use crate::{Prefix, TagCard, Unread};
use fsl_date::Moment;
use fsl_name::{Name, Ref};
use fsl_text::{Text, unescape};
use std::alloc::Global;

/// A form of the arguments of one card.
pub trait Form {
    /// The value that arguments of this form have.
    type Value: Drop;

    ghost use Rattle.std.specs.Prelude.{List, ℕ, Option};

    ghost form: { List (List ℕ) → Option Self.Value };

    /// Reads the value of the arguments. Fails with `Form` if they haven't the form, or with `Memory`.
    fn read(alloc: Global, args: &[Text]) -> Result<Self::Value, Unread>
        ensures { IsGiven (form args.now) result };
}

/// One argument, the 40 lower-case digits of a name.
pub struct HashForm;

impl Form for HashForm {
    type Value = Name;

    ghost form = { hash_form };

    fn read(_alloc: Global, args: &[Text]) -> Result<Name, Unread> {
        match args {
            [arg] => read_hash(arg.bytes()).ok_or(Unread::Form),
            _ => Err(Unread::Form),
        }
    }
}

/// One argument, the 40 or 64 lower-case digits of a reference.
pub struct RefForm;

impl Form for RefForm {
    type Value = Ref;

    ghost form = { ref_form };

    fn read(_alloc: Global, args: &[Text]) -> Result<Ref, Unread> {
        match args {
            [arg] => read_ref(arg.bytes()).ok_or(Unread::Form),
            _ => Err(Unread::Form),
        }
    }
}

/// One argument, an escaped text.
pub struct TextForm;

impl Form for TextForm {
    type Value = Text;

    ghost form = { text_form };

    fn read(alloc: Global, args: &[Text]) -> Result<Text, Unread> {
        match args {
            [arg] => Ok(unescape(alloc, arg.bytes())?),
            _ => Err(Unread::Form),
        }
    }
}

/// One argument, a date.
pub struct DateForm;

impl Form for DateForm {
    type Value = Moment;

    ghost form = { date_form };

    fn read(_alloc: Global, args: &[Text]) -> Result<Moment, Unread> {
        match args {
            [arg] => Moment::read(arg.bytes()).ok_or(Unread::Form),
            _ => Err(Unread::Form),
        }
    }
}

/// One argument, 32 lower-case digits.
pub struct ChecksumForm;

impl Form for ChecksumForm {
    type Value = [u8; 16];

    ghost form = { checksum_form };

    fn read(_alloc: Global, args: &[Text]) -> Result<[u8; 16], Unread> {
        match args {
            [arg] => read_checksum(arg.bytes()).ok_or(Unread::Form),
            _ => Err(Unread::Form),
        }
    }
}

/// The user. Without an argument it is `anonymous`.
pub struct UserForm;

impl Form for UserForm {
    type Value = Text;

    ghost form = { user_form };

    fn read(alloc: Global, args: &[Text]) -> Result<Text, Unread> {
        match args {
            [] => Ok(Text::of(alloc, b"anonymous")?),
            [arg] => Ok(unescape(alloc, arg.bytes())?),
            _ => Err(Unread::Form),
        }
    }
}

/// A tag with its prefix, its target and its value, if it has one.
pub struct TagForm;

impl Form for TagForm {
    type Value = TagCard;

    ghost form = { tag_form };

    fn read(alloc: Global, args: &[Text]) -> Result<TagCard, Unread> {
        match args {
            [tag, target] => read_tag(alloc, tag.bytes(), target.bytes(), None),
            [tag, target, value] => {
                let value = unescape(alloc, value.bytes())?;
                read_tag(alloc, tag.bytes(), target.bytes(), Some(value))
            }
            _ => Err(Unread::Form),
        }
    }
}

/// Reads a name from 40 lower-case digits.
pub fn read_hash(arg: &[u8]) -> Option<Name>
    ensures { result ≡ name_in arg.now }
{
    match Name::read(arg) {
        Ok(name) => Some(name),
        Err(_) => None,
    }
}

/// Reads a reference from 40 or 64 lower-case digits.
pub fn read_ref(arg: &[u8]) -> Option<Ref>
    ensures { result ≡ ref_in arg.now }
{
    match Ref::read(arg) {
        Ok(found) => Some(found),
        Err(_) => None,
    }
}

/// Reads the reference of an argument that may be missing. Returns `None` if it is there and no reference.
pub fn read_optional_ref(arg: Option<&Text>) -> Option<Option<Ref>>
    ensures { result ≡ optional ref_in (option_map (λ text. text.now) arg.entry) }
{
    let Some(arg) = arg else {
        return Some(None);
    };
    match read_ref(arg.bytes()) {
        Some(found) => Some(Some(found)),
        None => None,
    }
}

fn read_prefix(byte: u8) -> Option<Prefix>
    ensures { result ≡ prefix_in byte }
{
    match byte {
        b'+' => Some(Prefix::Once),
        b'-' => Some(Prefix::Cancel),
        b'*' => Some(Prefix::Propagate),
        _ => None,
    }
}

/// Reads the target of a tag: `*` means the artifact itself.
fn read_target(arg: &[u8]) -> Option<Option<Ref>>
    ensures { result ≡ target_in arg.now }
{
    if arg == b"*".as_slice() {
        return Some(None);
    }
    match read_ref(arg) {
        Some(found) => Some(Some(found)),
        None => None,
    }
}

/// Reads a tag of a prefix and a name of one byte or more.
fn read_tag(
    alloc: Global,
    tag: &[u8],
    target: &[u8],
    value: Option<Text>,
) -> Result<TagCard, Unread>
    ensures { IsGiven (tag_in (unescape tag.now) target.now value) result }
{
    let tag = unescape(alloc, tag)?;
    let Some((sign, tag)) = tag.bytes().split_first() else {
        return Err(Unread::Form);
    };
    let prefix = read_prefix(*sign).ok_or(Unread::Form)?;
    let target = read_target(target).ok_or(Unread::Form)?;
    if tag.is_empty() {
        return Err(Unread::Form);
    }
    Ok(TagCard {
        prefix,
        tag: Text::of(alloc, tag)?,
        target,
        value,
    })
}
