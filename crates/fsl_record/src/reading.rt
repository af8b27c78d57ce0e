//! Reads a record at the front of bytes.
ghost use Rattle.std.specs.Prelude.{◌≡◌, ◌≢◌, ◌⊎◌, ◌<◌, ◌≤◌, ℕ, List, [], ◌∷◌, ◌++◌, length, true, false, IfOk, IfErr, OnOk};
ghost use Rattle.fsl_date.specs.Moment.{IsMoment};
ghost use Rattle.fsl_name.specs.Name.{name_of};
ghost use Rattle.fsl_record.specs.Brought.{IsPrivateRead, PrivateFails, IsNumberRead, NumberFails, IsReceiptRead, ReceiptFails, IsContentRead, ContentFails};
ghost use Rattle.fsl_record.specs.declared.Record.{Record};
ghost use Rattle.fsl_record.specs.declared.RecordFault.TheVariants.{NameWrong as NameFault, Memory as MemoryFault};
ghost use Rattle.fsl_record.specs.Records.{AreFields, IsVersion};
ghost use Rattle.fsl_record.specs.Reading.{IsRead, IsFieldRead, AreRead, FieldFails, FieldsFail, Fails};

use crate::fields::is_new_field;
use crate::pieces::{split_bytes, split_count, split_length, split_login_length};
use crate::receipts::{LAST_MOMENT, MOST_OF_LOGIN, MS_BEFORE_1970};
use crate::{Config, Receipt, Record, RecordFault};
use fsl_date::Moment;
use fsl_name::Name;
use fsl_text::{List, MOST_FIELDS, MOST_OF_ARTIFACT, Text};
use std::alloc::Global;

/// Reads a field and adds it: its length in one byte, and its bytes.
fn read_field<'a>(
    alloc: Global,
    bytes: &'a [u8],
    fields: &mut Vec<Text>,
) -> Result<&'a [u8], RecordFault>
    requires fit { AreFields fields.old.items }
    requires room { length fields.old.items < 256 }
    ensures field { IfOk result (λ rest. (field : List ℕ) × (fields.new.items ≡ fields.old.items ++ field ∷ []) × IsFieldRead fields.old.items bytes.now field rest.now) }
    ensures fault { IfErr result (λ fault. FieldFails fields.old.items bytes.now fault) }
{
    let Some((length, bytes)) = bytes.split_first() else {
        return Err(RecordFault::Short);
    };
    let Some((field, rest)) = split_bytes(bytes, *length as usize) else {
        return Err(RecordFault::Short);
    };
    if !is_new_field(fields, field) {
        return Err(RecordFault::Length {
            found: u64::from(*length),
        });
    }
    fields.push(Text::of(alloc, field)?)?;
    Ok(rest)
}

/// Reads so many fields.
fn read_fields<'a>(
    alloc: Global,
    bytes: &'a [u8],
    count: usize,
    fields: &mut Vec<Text>,
) -> Result<&'a [u8], RecordFault>
    requires few { count ≤ 256 }
    requires none { fields.old.items ≡ [] }
    ensures fields { IfOk result (λ rest. AreRead count bytes.now fields.new.items rest.now) }
    ensures fault { IfErr result (λ fault. FieldsFail count bytes.now fault) }
{
    let mut rest = bytes;
    'fields: while fields.len() < count {
        rest = read_field(alloc, rest, fields)?;
    }
    Ok(rest)
}

/// Reads the bytes behind the letter of a Config, and adds the Config.
fn read_config<'a>(
    alloc: Global,
    bytes: &'a [u8],
    records: &mut Vec<Record>,
) -> Result<&'a [u8], RecordFault>
    ensures record { IfOk result (λ rest. (read : Record) × (records.new.items ≡ records.old.items ++ read ∷ []) × ((version : ℕ) → IsRead version true (67 ∷ bytes.now) read rest.now)) }
    ensures fault { IfErr result (λ fault. (version : ℕ) → Fails version true (67 ∷ bytes.now) fault) }
{
    let Some((project, bytes)) = bytes.split_first_chunk() else {
        return Err(RecordFault::Short);
    };
    let Some((server, bytes)) = bytes.split_first_chunk() else {
        return Err(RecordFault::Short);
    };
    let Some((count, bytes)) = split_count(bytes) else {
        return Err(RecordFault::Short);
    };
    let count = count as usize;
    if count > MOST_FIELDS {
        return Err(RecordFault::Length {
            found: count as u64,
        });
    }
    let mut fields = Vec::new(alloc);
    let rest = read_fields(alloc, bytes, count, &mut fields)?;
    records.push(Record::Config(Config {
        project: Name::from_bytes(*project),
        server: Name::from_bytes(*server),
        fields: List::from_vec(fields),
    }))?;
    Ok(rest)
}

/// Reads whether a blob is private.
fn read_private(bytes: &[u8]) -> Result<(bool, &[u8]), RecordFault>
    ensures private { IfOk result (λ read. IsPrivateRead bytes.now read.0 read.1.now) }
    ensures fault { IfErr result (λ fault. PrivateFails bytes.now fault) }
{
    match bytes {
        [] => Err(RecordFault::Short),
        [0, rest @ ..] => Ok((false, rest)),
        [1, rest @ ..] => Ok((true, rest)),
        [found, ..] => Err(RecordFault::Kind { found: *found }),
    }
}

/// Checks that a blob's bytes have the name that it is kept under.
fn check_name(kept: Name, content: &[u8]) -> Result<(), RecordFault>
    ensures right { OnOk result (kept ≡ name_of content.now) }
    ensures fault { IfErr result (λ fault. (fault ≡ NameFault kept (name_of content.now)) × (kept ≢ name_of content.now)) }
{
    let found = Name::of(content);
    if kept != found {
        return Err(RecordFault::NameWrong { kept, found });
    }
    Ok(())
}

/// Reads a number of 8 bytes that isn't above `most`.
fn read_number(bytes: &[u8], most: u64) -> Result<(u64, &[u8]), RecordFault>
    ensures number { IfOk result (λ read. IsNumberRead most bytes.now read.0 read.1.now) }
    ensures fault { IfErr result (λ fault. NumberFails most bytes.now fault) }
{
    let Some((number, rest)) = split_length(bytes) else {
        return Err(RecordFault::Short);
    };
    if number > most {
        return Err(RecordFault::Length { found: number });
    }
    Ok((number, rest))
}

/// Reads a blob's bytes behind their length. They have this name.
fn read_content<'a>(
    alloc: Global,
    name: Name,
    bytes: &'a [u8],
) -> Result<(Text, &'a [u8]), RecordFault>
    ensures content { IfOk result (λ read. IsContentRead name bytes.now read.0 read.1.now) }
    ensures fault { IfErr result (λ fault. (fault ≡ MemoryFault) ⊎ ContentFails name bytes.now fault) }
{
    let (length, bytes) = read_number(bytes, MOST_OF_ARTIFACT)?;
    let Some((content, rest)) = split_bytes(bytes, length as usize) else {
        return Err(RecordFault::Short);
    };
    check_name(name, content)?;
    Ok((Text::of(alloc, content)?, rest))
}

/// Reads the bytes behind the letter of a Blob without a receipt, and adds the Blob.
fn read_blob<'a>(
    alloc: Global,
    bytes: &'a [u8],
    records: &mut Vec<Record>,
) -> Result<&'a [u8], RecordFault>
    ensures record { IfOk result (λ rest. (read : Record) × (records.new.items ≡ records.old.items ++ read ∷ []) × ((version : ℕ) → IsRead version false (66 ∷ bytes.now) read rest.now)) }
    ensures fault { IfErr result (λ fault. (version : ℕ) → Fails version false (66 ∷ bytes.now) fault) }
{
    let (private, bytes) = read_private(bytes)?;
    let Some((name, bytes)) = bytes.split_first_chunk() else {
        return Err(RecordFault::Short);
    };
    let name = Name::from_bytes(*name);
    let (content, rest) = read_content(alloc, name, bytes)?;
    records.push(Record::Blob {
        private,
        name,
        receipt: None,
        bytes: content,
    })?;
    Ok(rest)
}

/// Makes the moment of a number.
fn moment_of(number: u64) -> Moment
    requires { IsMoment number }
    ensures value { result ≡ number }
    ensures moment { IsMoment result }
{
    Moment::new(number as i64 - MS_BEFORE_1970).unwrap()
}

/// Reads the number of a receipt's moment, and its login.
fn read_receipt(bytes: &[u8]) -> Result<(u64, &[u8], &[u8]), RecordFault>
    ensures receipt { IfOk result (λ read. IsReceiptRead bytes.now (record { login = read.1.now; moment = read.0 }) read.2.now) }
    ensures fault { IfErr result (λ fault. ReceiptFails bytes.now fault) }
{
    let (number, bytes) = read_number(bytes, LAST_MOMENT)?;
    let Some((length, bytes)) = split_login_length(bytes) else {
        return Err(RecordFault::Short);
    };
    let length = length as usize;
    if length > MOST_OF_LOGIN {
        return Err(RecordFault::Length {
            found: length as u64,
        });
    }
    let Some((login, rest)) = split_bytes(bytes, length) else {
        return Err(RecordFault::Short);
    };
    Ok((number, login, rest))
}

/// Reads the bytes behind the letter of a Blob with a receipt, and adds the Blob.
fn read_brought<'a>(
    alloc: Global,
    bytes: &'a [u8],
    records: &mut Vec<Record>,
) -> Result<&'a [u8], RecordFault>
    ensures record { IfOk result (λ rest. (read : Record) × (records.new.items ≡ records.old.items ++ read ∷ []) × IsRead 2 false (82 ∷ bytes.now) read rest.now) }
    ensures fault { IfErr result (λ fault. Fails 2 false (82 ∷ bytes.now) fault) }
{
    let (private, bytes) = read_private(bytes)?;
    let Some((name, bytes)) = bytes.split_first_chunk() else {
        return Err(RecordFault::Short);
    };
    let name = Name::from_bytes(*name);
    let (number, login, bytes) = read_receipt(bytes)?;
    let (content, rest) = read_content(alloc, name, bytes)?;
    let receipt = Receipt::of_login(alloc, login, moment_of(number))?;
    records.push(Record::Blob {
        private,
        name,
        receipt: Some(receipt),
        bytes: content,
    })?;
    Ok(rest)
}

/// Reads the name of a Publish, and adds it.
fn read_publish<'a>(bytes: &'a [u8], records: &mut Vec<Record>) -> Result<&'a [u8], RecordFault>
    ensures record { IfOk result (λ rest. (read : Record) × (records.new.items ≡ records.old.items ++ read ∷ []) × ((version : ℕ) → IsRead version false (80 ∷ bytes.now) read rest.now)) }
    ensures fault { IfErr result (λ fault. (version : ℕ) → Fails version false (80 ∷ bytes.now) fault) }
{
    let Some((name, rest)) = bytes.split_first_chunk() else {
        return Err(RecordFault::Short);
    };
    records.push(Record::Publish {
        name: Name::from_bytes(*name),
    })?;
    Ok(rest)
}

/// Reads the name of a Shun, and adds it.
fn read_shun<'a>(bytes: &'a [u8], records: &mut Vec<Record>) -> Result<&'a [u8], RecordFault>
    ensures record { IfOk result (λ rest. (read : Record) × (records.new.items ≡ records.old.items ++ read ∷ []) × ((version : ℕ) → IsRead version false (83 ∷ bytes.now) read rest.now)) }
    ensures fault { IfErr result (λ fault. (version : ℕ) → Fails version false (83 ∷ bytes.now) fault) }
{
    let Some((name, rest)) = bytes.split_first_chunk() else {
        return Err(RecordFault::Short);
    };
    records.push(Record::Shun {
        name: Name::from_bytes(*name),
    })?;
    Ok(rest)
}

/// Reads the name of an Unshun, and adds it.
fn read_unshun<'a>(bytes: &'a [u8], records: &mut Vec<Record>) -> Result<&'a [u8], RecordFault>
    ensures record { IfOk result (λ rest. (read : Record) × (records.new.items ≡ records.old.items ++ read ∷ []) × IsRead 2 false (85 ∷ bytes.now) read rest.now) }
    ensures fault { IfErr result (λ fault. Fails 2 false (85 ∷ bytes.now) fault) }
{
    let Some((name, rest)) = bytes.split_first_chunk() else {
        return Err(RecordFault::Short);
    };
    records.push(Record::Unshun {
        name: Name::from_bytes(*name),
    })?;
    Ok(rest)
}

/// Reads a Config and adds it. Returns the bytes behind it. Fails with the fault of the record if it doesn't read, or with
/// `Memory`.
pub fn read_first<'a>(
    alloc: Global,
    bytes: &'a [u8],
    records: &mut Vec<Record>,
) -> Result<&'a [u8], RecordFault>
    ensures record { IfOk result (λ rest. (read : Record) × (records.new.items ≡ records.old.items ++ read ∷ []) × ((version : ℕ) → IsRead version true bytes.now read rest.now)) }
    ensures fault { IfErr result (λ fault. (version : ℕ) → Fails version true bytes.now fault) }
{
    let Some((letter, behind)) = bytes.split_first() else {
        return Err(RecordFault::Short);
    };
    match *letter {
        b'C' => read_config(alloc, behind, records),
        found => Err(RecordFault::Kind { found }),
    }
}

/// Reads a record with another letter than those of version 1, which are `B`, `P` and `S`.
fn read_later<'a>(
    alloc: Global,
    letter: u8,
    behind: &'a [u8],
    version: u8,
    records: &mut Vec<Record>,
) -> Result<&'a [u8], RecordFault>
    requires version { IsVersion version }
    requires later { (letter ≢ 66) × (letter ≢ 80) × (letter ≢ 83) }
    ensures record { IfOk result (λ rest. (read : Record) × (records.new.items ≡ records.old.items ++ read ∷ []) × IsRead version false (letter ∷ behind.now) read rest.now) }
    ensures fault { IfErr result (λ fault. Fails version false (letter ∷ behind.now) fault) }
{
    if version == 1 {
        return Err(RecordFault::Kind { found: letter });
    }
    match letter {
        b'R' => read_brought(alloc, behind, records),
        b'U' => read_unshun(behind, records),
        found => Err(RecordFault::Kind { found }),
    }
}

/// Reads a record of this version that is no Config and adds it. Returns the bytes behind it. Fails with the fault of the record
/// if it doesn't read, or with `Memory`.
pub fn read_next<'a>(
    alloc: Global,
    bytes: &'a [u8],
    version: u8,
    records: &mut Vec<Record>,
) -> Result<&'a [u8], RecordFault>
    requires { IsVersion version }
    ensures record { IfOk result (λ rest. (read : Record) × (records.new.items ≡ records.old.items ++ read ∷ []) × IsRead version false bytes.now read rest.now) }
    ensures fault { IfErr result (λ fault. Fails version false bytes.now fault) }
{
    let Some((letter, behind)) = bytes.split_first() else {
        return Err(RecordFault::Short);
    };
    match *letter {
        b'B' => read_blob(alloc, behind, records),
        b'P' => read_publish(behind, records),
        b'S' => read_shun(behind, records),
        letter => read_later(alloc, letter, behind, version, records),
    }
}
