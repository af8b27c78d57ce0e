//! Computes where the contents of records begin in a file.
ghost use Rattle.std.specs.Prelude.{◌≡◌, ◌+◌, ◌-◌, ◌++◌, ◌<◌, ◌≤◌, ◌^◌, length, flat_map, IfOk, OnOk, OnErr};
ghost use Rattle.std.specs.List.{AllByRecursion};
ghost use Rattle.fsl_record.specs.Records.{record_bytes, records_bytes, field_bytes, AreFields, IsWritable, IsFit};
ghost use Rattle.fsl_journal.specs.Places.{content_place, content_places};

use fsl_record::{Record, write};
use fsl_text::{Memory, Text};
use std::alloc::AllocError;

/// Adds a record's bytes at the end, and answers where its content then begins in a file in which these bytes stand from
/// `start` on. Where that is no number of 8 bytes, there is no memory for it.
pub(crate) fn write_behind(entry: &Record, start: u64, pending: &mut Text) -> Result<u64, Memory>
    requires fit { IsWritable entry.now }
    ensures ok { IfOk result (λ at. (pending.new ≡ pending.old ++ record_bytes entry.now) × (at ≡ content_place (start + length pending.old) entry.now)) }
    ensures err { OnErr result (pending.new ≡ pending.old) }
{
    let begin = pending.bytes().len();
    write(entry, pending)?;
    let Record::Blob { bytes, .. } = entry else {
        return Ok(0);
    };
    let behind = pending.bytes().len() - bytes.bytes().len();
    match start.checked_add(behind as u64) {
        Some(at) => Ok(at),
        None => {
            pending.truncate(begin);
            Err(Memory)
        }
    }
}

/// The bytes of fields behind their lengths.
fn length_of_fields(fields: &[Text]) -> usize
    requires { AreFields fields.now }
    ensures value { result ≡ length (flat_map field_bytes fields.now) }
    ensures small { result ≤ 16640 }
{
    let mut sum = 0;
    for field in fields {
        sum += 1 + field.bytes().len();
    }
    sum
}

/// How many bytes a record has.
fn length_of(entry: &Record) -> usize
    requires { IsFit entry.now }
    ensures { result ≡ length (record_bytes entry.now) }
{
    match entry {
        Record::Config(config) => 43 + length_of_fields(config.fields.items()),
        Record::Blob {
            receipt: None,
            bytes,
            ..
        } => 30 + bytes.bytes().len(),
        Record::Blob {
            receipt: Some(receipt),
            bytes,
            ..
        } => 42 + receipt.login().len() + bytes.bytes().len(),
        Record::Publish { .. } | Record::Shun { .. } | Record::Unshun { .. } => 21,
    }
}

/// Where the content of a record begins that stands from `start` on and has so many bytes; 0 where it is no Blob.
fn place_of(entry: &Record, start: u64, size: usize) -> u64
    requires size { size ≡ length (record_bytes entry.now) }
    requires fits { start + size < 2 ^ 64 }
    ensures { result ≡ content_place start entry.now }
{
    match entry {
        Record::Blob { bytes, .. } => start + (size - bytes.bytes().len()) as u64,
        _ => 0,
    }
}

/// Adds the places of records whose bytes follow each other from `start` on.
pub(crate) fn add_places(
    records: &[Record],
    start: u64,
    places: &mut Vec<u64>,
) -> Result<(), AllocError>
    requires fit { AllByRecursion IsFit records.now }
    requires fits { start + length (records_bytes records.now) < 2 ^ 64 }
    ensures ok { OnOk result (places.new.items ≡ places.old.items ++ content_places start records.now) }
{
    let mut at = start;
    for entry in records {
        let size = length_of(entry);
        places.push(place_of(entry, at, size))?;
        at += size as u64;
    }
    Ok(())
}
