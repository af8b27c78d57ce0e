//! Makes a repository's file: the header and a closed gate, and then a group with the Config.
ghost use Rattle.std.specs.Prelude.{◌≡◌, ◌≢◌, ◌⊎◌, ◌∷◌, ◌++◌, [], ◌≤◌, ◌<◌, ◌^◌, ℕ, List, length, Some, IsTrue, IfErr, IfOk, OnOk, slice_index};
ghost use Rattle.fsl_order.specs.Causes.{HasCause};
ghost use Rattle.fsl_disk.specs.Disk.{DiskState, IsModelled, Told, Keeps, Quiet, Only, LeavesOnly};
ghost use Rattle.fsl_record.specs.Records.{AreFields, record_bytes, IsFit};
ghost use Rattle.fsl_record.specs.declared.Record.TheVariants as record_of;
ghost use Rattle.fsl_journal.specs.Create.{new_file, IsShort, config_file};
ghost use Rattle.fsl_journal.specs.File.{IsFileOf, mark_2};
ghost use Rattle.fsl_journal.specs.Journal.{NothingOr, CreateFailed, IsMade};
ghost use Rattle.fsl_journal.specs.Log.{WhereEmpty};

use crate::CreateFault;
use crate::commit::write_group;
use crate::names::know_codes;
use fsl_disk::Disk;
use fsl_outside::Failed;
use fsl_record::{Config, write_config};
use fsl_text::Text;
use std::alloc::Global;

/// The header of version 2 and a closed gate.
const NEW_FILE: [u8; 16] = *b"fossil-blobs-2\nC";

/// Writes the header and a closed gate into an empty file, and makes them stable.
fn write_header<D: Disk>(disk: &mut D) -> Result<(), Failed>
    requires { Told (D.state disk.old) (λ held. held ≡ []) }
    ensures contents { OnOk result (Told (D.state disk.old) (λ held. (D.state disk.new).contents ≡ Some new_file)) }
    ensures durable { OnOk result (IsTrue (D.state disk.old).is_model → Told (D.state disk.old) (λ held. Only new_file (D.state disk.new).images)) }
    ensures keeps { Keeps (D.state disk.old) (D.state disk.new) }
    ensures any_moment { IsTrue (D.state disk.old).is_model → ((c : List ℕ) → (D.state disk.old).images c → c ≡ []) → LeavesOnly (D.state disk.old) (D.state disk.new) IsShort }
    ensures cause { HasCause (D.state disk.old).faults (D.state disk.new).faults result }
{
    disk.write_at(0, &NEW_FILE)?;
    disk.sync()
}

/// Writes the header, and then the group whose records have these bytes.
fn write_file<D: Disk>(disk: &mut D, config: &Config, bytes: &[u8]) -> Result<(), Failed>
    requires empty { Told (D.state disk.old) (λ held. held ≡ []) }
    requires bytes { bytes.now ≡ record_bytes (record_of.Config config.now) }
    requires fit { IsFit (record_of.Config config.now) }
    requires fits { length bytes.now < 2 ^ 64 }
    ensures file { OnOk result (Told (D.state disk.old) (λ _. (held : List ℕ) × ((D.state disk.new).contents ≡ Some held) × IsFileOf held (record_of.Config config.now ∷ []))) }
    ensures mark { OnOk result (Told (D.state disk.old) (λ _. (held : List ℕ) × ((D.state disk.new).contents ≡ Some held) × (slice_index held 13 ≡ mark_2))) }
    ensures durable { OnOk result (IsModelled (D.state disk.old) → (c : List ℕ) → (D.state disk.new).images c → IsFileOf c (record_of.Config config.now ∷ [])) }
    ensures written { OnOk result (Told (D.state disk.old) (λ _. (D.state disk.new).contents ≡ Some (config_file config.now))) }
    ensures any_moment { WhereEmpty (D.state disk.old) (LeavesOnly (D.state disk.old) (D.state disk.new) (NothingOr config.now)) }
    ensures keeps { Keeps (D.state disk.old) (D.state disk.new) }
    ensures cause { HasCause (D.state disk.old).faults (D.state disk.new).faults result }
{
    let _config = config;
    write_header(disk)?;
    write_group(disk, 15, bytes)
}

/// Makes the file of a repository with this Config on an empty disk, of version 2 and stable when it answers Ok. The configured fields
/// are in their form.
///
/// Errors: `NotEmpty` with the disk's length where it isn't 0; `Disk` where a call of the disk failed; `Memory`, before
/// any write.
pub fn create<D: Disk>(alloc: Global, disk: &mut D, config: &Config) -> Result<(), CreateFault>
    requires { AreFields config.now.fields }
    ensures made { OnOk result (IsMade config.now (D.state disk.old) (D.state disk.new)) }
    ensures fault { IfErr result (λ fault. CreateFailed fault (D.state disk.old) (D.state disk.new)) }
    // What was there stays, at each moment.
    ensures untouched { Told (D.state disk.old) (λ held. (held ≡ []) ⊎ Quiet (D.state disk.old) (D.state disk.new)) }
    ensures keeps { Keeps (D.state disk.old) (D.state disk.new) }

    // Where each image is empty at its start, a crash leaves no repository, or the one with the Config alone; after Ok the latter.
    ensures any_moment { WhereEmpty (D.state disk.old) (LeavesOnly (D.state disk.old) (D.state disk.new) (NothingOr config.now)) }
    ensures durable { OnOk result (IsModelled (D.state disk.old) → (c : List ℕ) → (D.state disk.new).images c → IsFileOf c (record_of.Config config.now ∷ [])) }
    // Byte for byte.
    ensures written { OnOk result (Told (D.state disk.old) (λ _. (D.state disk.new).contents ≡ Some (config_file config.now))) }
{
    let len = disk.len()?;
    if len != 0 {
        return Err(CreateFault::NotEmpty { len });
    }
    know_codes(config);
    let mut first = Text::empty(alloc);
    write_config(config, &mut first)?;
    write_file(disk, config, first.bytes())?;
    Ok(())
}
