//! Grows a file at its end, record by record.
ghost use Rattle.std.specs.Prelude.{◌≡◌, ◌∷◌, [], ℕ, List, map, IfErr};
ghost use Rattle.fsl_record.specs.declared.Record.TheVariants as record_of;
ghost use Rattle.fsl_record.specs.Records.{AreFields, IsWritable, record_bytes, records_bytes};
ghost use Rattle.fsl_scrub.specs.Faults.{IsOfSpare};
ghost use Rattle.fsl_scrub.specs.Growing.{EndsAt, Writes};

use crate::faults::WriteFault;
use fsl_disk::Disk;
use fsl_name::Name;
use fsl_record::{Config, Record, write, write_config};
use fsl_text::Text;
use std::alloc::Global;

/// Writes bytes at the end of a file, which is this place, and answers where it ends then. They aren't stable yet.
pub(crate) fn append<P: Disk>(spare: &mut P, at: u64, bytes: &[u8]) -> Result<u64, WriteFault>
    requires { EndsAt at (P.state spare.old) }
    ensures writes { Writes at bytes.now (P.state spare.old) (P.state spare.new) result }
    ensures own { IfErr result IsOfSpare }
{
    spare.write_at(at, bytes)?;
    Ok(at + bytes.len() as u64)
}

/// Writes a record at the end of a file, which is this place, and answers where it ends then.
pub(crate) fn append_record<P: Disk>(
    alloc: Global,
    spare: &mut P,
    at: u64,
    entry: &Record,
) -> Result<u64, WriteFault>
    requires end { EndsAt at (P.state spare.old) }
    requires fit { IsWritable entry.now }
    ensures writes { Writes at (record_bytes entry.now) (P.state spare.old) (P.state spare.new) result }
    ensures own { IfErr result IsOfSpare }
{
    let mut text = Text::empty(alloc);
    write(entry, &mut text)?;
    append(spare, at, text.bytes())
}

/// Writes the record of a Config at the end of a file, which is this place, and answers where it ends then.
pub(crate) fn append_config<P: Disk>(
    alloc: Global,
    spare: &mut P,
    at: u64,
    config: &Config,
) -> Result<u64, WriteFault>
    requires end { EndsAt at (P.state spare.old) }
    requires fit { AreFields config.now.fields }
    ensures writes { Writes at (record_bytes (record_of.Config config.now)) (P.state spare.old) (P.state spare.new) result }
    ensures own { IfErr result IsOfSpare }
{
    let mut head = Text::empty(alloc);
    write_config(config, &mut head)?;
    append(spare, at, head.bytes())
}

/// Writes a Shun of each name at the end of a file, which is this place, and answers where it ends then.
pub(crate) fn append_shuns<P: Disk>(
    alloc: Global,
    spare: &mut P,
    at: u64,
    names: &[Name],
) -> Result<u64, WriteFault>
    requires { EndsAt at (P.state spare.old) }
    ensures writes { Writes at (records_bytes (map record_of.Shun names.now)) (P.state spare.old) (P.state spare.new) result }
    ensures own { IfErr result IsOfSpare }
{
    let mut end = at;
    for name in names {
        end = append_record(alloc, spare, end, &Record::Shun { name: *name })?;
    }
    Ok(end)
}
