//! Checks the names of configured ticket fields.
ghost use Rattle.std.specs.Prelude.{◌≡◌, ◌↔◌, ◌&&◌, not, IsTrue};
ghost use Rattle.std.specs.List.{list_all};
ghost use Rattle.fsl_order.specs.Names.{has};
ghost use Rattle.fsl_record.specs.Records.{is_letter, is_field_byte, is_field, AreFields};

use fsl_text::{MOST_FIELDS, Text};

/// The greatest length of a field's name, in bytes.
const LONGEST_FIELD: usize = 64;

fn is_letter(byte: u8) -> bool
    ensures { result ≡ is_letter byte }
{
    byte.is_ascii_lowercase()
}

fn is_field_byte(byte: u8) -> bool
    ensures { result ≡ is_field_byte byte }
{
    is_letter(byte) || byte.is_ascii_digit() || byte == b'_'
}

fn are_field_bytes(bytes: &[u8]) -> bool
    ensures { result ≡ list_all is_field_byte bytes.now }
{
    bytes.iter().all(|byte| is_field_byte(*byte))
}

/// Returns whether the bytes are a field's name: 1 to 64 of `a` to `z`, digits and `_`, the first a letter.
fn is_field(name: &[u8]) -> bool
    ensures { result ≡ is_field name.now }
{
    let [first, rest @ ..] = name else {
        return false;
    };
    if rest.len() >= LONGEST_FIELD {
        return false;
    }
    is_letter(*first) && are_field_bytes(rest)
}

fn has_field(fields: &[Text], name: &[u8]) -> bool
    ensures { result ≡ has fields.now name.now }
{
    fields.iter().any(|field| name == field.bytes())
}

/// Returns whether the bytes are a field's name, and none of these fields.
pub fn is_new_field(fields: &[Text], name: &[u8]) -> bool
    ensures { result ≡ (is_field name.now && not (has fields.now name.now)) }
{
    is_field(name) && !has_field(fields, name)
}

/// Returns whether the names are a list of fields: at most 256, each of them a field's name, and all different.
pub fn are_fields(fields: &[Text]) -> bool
    ensures { IsTrue result ↔ AreFields fields.now }
{
    if fields.len() > MOST_FIELDS {
        return false;
    }
    for (place, field) in fields.iter().enumerate() {
        if !is_new_field(&fields[..place], field.bytes()) {
            return false;
        }
    }
    true
}
