//! Writes the two ends of a new file: its header, the length of its group, and the one gate. When that gate opens, the file
//! becomes a repository.
ghost use Rattle.std.specs.Prelude.{◌≡◌, ◌≤◌, ◌++◌, [], ℕ, List, length, IsTrue, Some, OnOk};
ghost use Rattle.fsl_order.specs.Causes.{HasCause};
ghost use Rattle.fsl_disk.specs.Disk.{Told, Keeps, Only, LeavesOnly};
ghost use Rattle.fsl_journal.specs.Commit.{eight};
ghost use Rattle.fsl_journal.specs.Create.{new_file, IsShort};
ghost use Rattle.fsl_scrub.specs.Growing.{Grows, Opens};

use fsl_disk::Disk;
use fsl_outside::Failed;

/// The header of version 2 and a closed gate.
const NEW_FILE: [u8; 16] = *b"fossil-blobs-2\nC";

/// The byte of an open gate.
const OPEN: u8 = b'O';

/// Writes the header and a closed gate into an empty file, and makes them stable.
pub(crate) fn write_header<P: Disk>(spare: &mut P) -> Result<(), Failed>
    requires { Told (P.state spare.old) (λ held. held ≡ []) }
    ensures contents { OnOk result (Told (P.state spare.old) (λ held. (P.state spare.new).contents ≡ Some new_file)) }
    ensures durable { OnOk result (IsTrue (P.state spare.old).is_model → Told (P.state spare.old) (λ held. Only new_file (P.state spare.new).images)) }
    ensures keeps { Keeps (P.state spare.old) (P.state spare.new) }
    ensures any_moment { IsTrue (P.state spare.old).is_model → ((c : List ℕ) → (P.state spare.old).images c → c ≡ []) → LeavesOnly (P.state spare.old) (P.state spare.new) IsShort }
    ensures cause { HasCause (P.state spare.old).faults (P.state spare.new).faults result }
{
    spare.write_at(0, &NEW_FILE)?;
    spare.sync()
}

/// Writes the length of the group behind the first gate, where eight bytes hold its place. It isn't stable yet.
pub(crate) fn write_length<P: Disk>(spare: &mut P, size: u64) -> Result<(), Failed>
    requires { Told (P.state spare.old) (λ held. 16 ≤ length held) }
    ensures contents { OnOk result ((place rest : List ℕ) → length place ≡ 8 → (P.state spare.old).contents ≡ Some (new_file ++ place ++ rest) → (P.state spare.new).contents ≡ Some (new_file ++ eight size ++ rest)) }
    ensures grows { Grows 16 (P.state spare.old) (P.state spare.new) }
    ensures cause { HasCause (P.state spare.old).faults (P.state spare.new).faults result }
{
    spare.write_at(16, &size.to_be_bytes())
}

/// Makes what stands behind the closed gate stable, opens the gate, and makes this stable too.
pub(crate) fn open_gate<P: Disk>(spare: &mut P) -> Result<(), Failed>
    requires { Told (P.state spare.old) (λ held. 16 ≤ length held) }
    ensures { Opens (P.state spare.old) (P.state spare.new) result }
{
    spare.sync()?;
    spare.write_at(15, &[OPEN])?;
    spare.sync()
}
