//! Writes records.
ghost use Rattle.std.specs.Prelude.{◌≡◌, ◌≤◌, ◌^◌, ◌++◌, ◌∷◌, length, take, flat_map, if◌then◌else◌, None, Some, OnOk, OnErr};
ghost use Rattle.std.specs.Int.{to_be_bytes, w64};
ghost use Rattle.fsl_record.specs.declared.Record.TheVariants.{Config as ConfigRecord, Blob};
ghost use Rattle.fsl_record.specs.Receipts.{receipt_bytes};
ghost use Rattle.fsl_record.specs.Records.{field_bytes, record_bytes, AreFields, IsWritable};

use crate::{Config, Receipt, Record};
use fsl_name::Name;
use fsl_text::{Memory, Text};

/// Adds a letter and a name.
fn add_named(letter: u8, name: &Name, into: &mut Text) -> Result<(), Memory>
    ensures ok { OnOk result (into.new ≡ into.old ++ letter ∷ name.now) }
    ensures err { OnErr result (take (length into.old) into.new ≡ into.old) }
{
    into.append(&[letter])?;
    into.append(&name.bytes())
}

/// Adds a field behind its length.
fn add_field(field: &[u8], into: &mut Text) -> Result<(), Memory>
    requires { length field.now ≤ 64 }
    ensures ok { OnOk result (into.new ≡ into.old ++ field_bytes field.now) }
    ensures err { OnErr result (take (length into.old) into.new ≡ into.old) }
{
    into.append(&[field.len() as u8])?;
    into.append(field)
}

/// Adds each field behind its length.
fn add_fields(fields: &[Text], into: &mut Text) -> Result<(), Memory>
    requires { AreFields fields.now }
    ensures ok { OnOk result (into.new ≡ into.old ++ flat_map field_bytes fields.now) }
    ensures err { OnErr result (take (length into.old) into.new ≡ into.old) }
{
    for field in fields {
        add_field(field.bytes(), into)?;
    }
    Ok(())
}

/// Adds a Config's bytes.
fn add_config(config: &Config, into: &mut Text) -> Result<(), Memory>
    requires { AreFields config.now.fields }
    ensures ok { OnOk result (into.new ≡ into.old ++ record_bytes (ConfigRecord config.now)) }
    ensures err { OnErr result (take (length into.old) into.new ≡ into.old) }
{
    let fields = config.fields.items();
    add_named(b'C', &config.project, into)?;
    into.append(&config.server.bytes())?;
    into.append(&(fields.len() as u16).to_be_bytes())?;
    add_fields(fields, into)
}

/// Adds a blob's bytes behind their length.
fn add_content(bytes: &[u8], into: &mut Text) -> Result<(), Memory>
    requires { length bytes.now ≤ 2 ^ 24 }
    ensures ok { OnOk result (into.new ≡ into.old ++ to_be_bytes w64 (length bytes.now) ++ bytes.now) }
    ensures err { OnErr result (take (length into.old) into.new ≡ into.old) }
{
    into.append(&(bytes.len() as u64).to_be_bytes())?;
    into.append(bytes)
}

/// Adds the bytes of a Blob without a receipt.
fn add_blob(private: bool, name: &Name, bytes: &[u8], into: &mut Text) -> Result<(), Memory>
    requires { length bytes.now ≤ 2 ^ 24 }
    ensures ok { OnOk result (into.new ≡ into.old ++ record_bytes (Blob private name.now None bytes.now)) }
    ensures err { OnErr result (take (length into.old) into.new ≡ into.old) }
{
    into.append(&[b'B', u8::from(private)])?;
    into.append(&name.bytes())?;
    into.append(&(bytes.len() as u64).to_be_bytes())?;
    into.append(bytes)
}

/// Adds a receipt's bytes: its moment, and its login behind its length.
fn add_receipt(receipt: &Receipt, into: &mut Text) -> Result<(), Memory>
    ensures ok { OnOk result (into.new ≡ into.old ++ receipt_bytes receipt.now) }
    ensures err { OnErr result (take (length into.old) into.new ≡ into.old) }
{
    let login = receipt.login();
    into.append(&receipt.moment_number().to_be_bytes())?;
    into.append(&(login.len() as u32).to_be_bytes())?;
    into.append(login)
}

/// Returns the byte that says whether a blob is private.
fn private_byte(private: bool) -> u8
    ensures { result ≡ (if private then 1 else 0) }
{
    u8::from(private)
}

/// Adds the bytes of a Blob with a receipt.
fn add_brought(
    private: bool,
    name: &Name,
    receipt: &Receipt,
    bytes: &[u8],
    into: &mut Text,
) -> Result<(), Memory>
    requires { length bytes.now ≤ 2 ^ 24 }
    ensures ok { OnOk result (into.new ≡ into.old ++ record_bytes (Blob private name.now (Some receipt.now) bytes.now)) }
    ensures err { OnErr result (take (length into.old) into.new ≡ into.old) }
{
    into.append(&[b'R', private_byte(private)])?;
    into.append(&name.bytes())?;
    add_receipt(receipt, into)?;
    add_content(bytes, into)
}

/// Adds a record's bytes, all of them or some.
fn add_record(entry: &Record, into: &mut Text) -> Result<(), Memory>
    requires { IsWritable entry.now }
    ensures ok { OnOk result (into.new ≡ into.old ++ record_bytes entry.now) }
    ensures err { OnErr result (take (length into.old) into.new ≡ into.old) }
{
    match entry {
        Record::Config(config) => add_config(config, into),
        Record::Blob {
            private,
            name,
            receipt: None,
            bytes,
        } => add_blob(*private, name, bytes.bytes(), into),
        Record::Blob {
            private,
            name,
            receipt: Some(receipt),
            bytes,
        } => add_brought(*private, name, receipt, bytes.bytes(), into),
        Record::Publish { name } => add_named(b'P', name, into),
        Record::Shun { name } => add_named(b'S', name, into),
        Record::Unshun { name } => add_named(b'U', name, into),
    }
}

/// Adds a Config's record at the end of a text. Its fields are in their form (`are_fields`).
///
/// Fails only if out of memory, and then the text stays as it was.
pub fn write_config(config: &Config, into: &mut Text) -> Result<(), Memory>
    requires { AreFields config.now.fields }
    ensures ok { OnOk result (into.new ≡ into.old ++ record_bytes (ConfigRecord config.now)) }
    ensures err { OnErr result (into.new ≡ into.old) }
{
    let length = into.bytes().len();
    let written = add_config(config, into);
    if written.is_err() {
        into.truncate(length);
    }
    written
}

/// Adds a record at the end of a text. The fields of a Config have their form (`are_fields`). A Blob has at most 2^24 bytes, and
/// its name is the SHA-1 of these.
///
/// Fails only if out of memory, and then the text stays as it was.
/// FORMATS: The repository file
pub fn write(entry: &Record, into: &mut Text) -> Result<(), Memory>
    requires { IsWritable entry.now }
    ensures ok { OnOk result (into.new ≡ into.old ++ record_bytes entry.now) }
    ensures err { OnErr result (into.new ≡ into.old) }
{
    let length = into.bytes().len();
    let written = add_record(entry, into);
    if written.is_err() {
        into.truncate(length);
    }
    written
}
