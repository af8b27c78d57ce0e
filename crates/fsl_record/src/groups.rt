//! Reads the records of a group.
ghost use Rattle.std.specs.Prelude.{◌≡◌, ◌⊎◌, ◌++◌, ◌∷◌, [], IfOk, IfErr};
ghost use Rattle.fsl_record.specs.declared.RecordFault.TheVariants.{Memory as MemoryFault};
ghost use Rattle.fsl_record.specs.declared.Record.{Record};
ghost use Rattle.fsl_record.specs.Records.{IsVersion};
ghost use Rattle.fsl_record.specs.Groups.{IsGroupOf, IsGroupFault};
ghost use Rattle.fsl_record.specs.Reading.{IsRead, Fails};

use crate::reading::{read_first, read_next};
use crate::{Record, RecordFault};
use fsl_text::List;
use std::alloc::Global;

/// Reads a record of this version and adds it; with `first` it must be a Config, which may occur nowhere else. Answers the bytes
/// behind it.
fn read_one<'a>(
    alloc: Global,
    bytes: &'a [u8],
    first: bool,
    version: u8,
    records: &mut Vec<Record>,
) -> Result<&'a [u8], RecordFault>
    requires { IsVersion version }
    ensures record { IfOk result (λ rest. (read : Record) × (records.new.items ≡ records.old.items ++ read ∷ []) × IsRead version first bytes.now read rest.now) }
    ensures fault { IfErr result (λ fault. Fails version first bytes.now fault) }
{
    if first {
        read_first(alloc, bytes, records)
    } else {
        read_next(alloc, bytes, version, records)
    }
}

/// Reads the records of a group of the file: one or more, one behind another to the end of the bytes. In the file's first group,
/// and there alone, the first record is a Config, and no other is. The file's version is 1 or 2. In version 1 a Blob with a
/// receipt and an Unshun are no records.
///
/// Errors: the fault of the first record that doesn't read, or `Memory` if out of memory.
/// FORMATS: The repository file
pub fn group(
    alloc: Global,
    bytes: &[u8],
    first: bool,
    version: u8,
) -> Result<List<Record>, RecordFault>
    requires { IsVersion version }
    ensures records { IfOk result (λ records. IsGroupOf version first bytes.now records) }
    ensures fault { IfErr result (λ fault. (fault ≡ MemoryFault) ⊎ IsGroupFault version first bytes.now fault) }
{
    let mut records = Vec::new(alloc);
    let mut rest = read_one(alloc, bytes, first, version, &mut records)?;
    while !rest.is_empty() {
        rest = read_one(alloc, rest, false, version, &mut records)?;
    }
    Ok(List::from_vec(records))
}
