//! Writes a repository into a new file, without the shunned artifacts.
ghost use Rattle.std.specs.Prelude.{◌≡◌, ◌≢◌, [], List, length, Some, IfOk, IfErr, OnOk};
ghost use Rattle.fsl_disk.specs.Disk.{IsModelled, Keeps, LeavesOnly, Only, Quiet, Told};
ghost use Rattle.fsl_journal.specs.File.{IsFileOf};
ghost use Rattle.fsl_journal.specs.Log.{WhereEmpty};
ghost use Rattle.fsl_repo.specs.Machine.{Leaves};
ghost use Rattle.fsl_repo.specs.Whole.{log_of};
ghost use Rattle.fsl_scrub.specs.Closing.{ClosesRecords, HasBegun, IsNewFile, ScrubFailed, UnopenedOr, WasEmpty, WhereHonest, WritesGroup, WritesWhole};
ghost use Rattle.fsl_scrub.specs.Copying.{AsWritten, OnlyReads, WritesRecords, blob_now, blobs_now, group_now};
ghost use Rattle.fsl_scrub.specs.Growing.{EndsAt};
ghost use Rattle.fsl_scrub.specs.Scrubbed.{IsScrubbed, file_text, scrubbed};

use crate::faults::{ScrubFault, WriteFault};
use crate::gate::{open_gate, write_header, write_length};
use crate::growing::{append, append_config, append_record, append_shuns};
use crate::reading::blob_at;
use fsl_blobs::Placed;
use fsl_disk::Disk;
use fsl_name::Name;
use fsl_repo::Repo;
use std::alloc::Global;

/// The counts of a new file.
#[derive(Clone, Copy, PartialEq, Eq, Debug)]
pub struct Scrubbed {
    /// The number of artifacts.
    pub blobs: u64,
    /// The number of shunned names.
    pub shuns: u64,
    /// The number of bytes.
    pub len: u64,
}

/// Writes the Blob of a held artifact at the end of a file, which is this place, and answers where it ends then.
fn append_blob<D: Disk, P: Disk>(
    alloc: Global,
    repo: &mut Repo<D>,
    spare: &mut P,
    at: u64,
    name: Name,
) -> Result<u64, WriteFault>
    requires { EndsAt at (P.state spare.old) }
    ensures writes { WritesRecords repo.old.seen.state (blob_now repo.old.seen.state name) at (P.state spare.old) (P.state spare.new) result }
    ensures reads { OnlyReads (D.state repo.old.disk) (D.state repo.new.disk) repo.old repo.new result }
{
    let entry = blob_at(alloc, repo, name)?;
    append_record(alloc, spare, at, &entry)
}

/// Writes a Blob of each held artifact at the end of a file, which is this place, and answers where it ends then. One
/// content is in memory at a time, beside those that the repository keeps.
fn append_blobs<D: Disk, P: Disk>(
    alloc: Global,
    repo: &mut Repo<D>,
    spare: &mut P,
    at: u64,
    names: &[Placed],
) -> Result<u64, WriteFault>
    requires { EndsAt at (P.state spare.old) }
    ensures writes { WritesRecords repo.old.seen.state (blobs_now repo.old.seen.state names.now) at (P.state spare.old) (P.state spare.new) result }
    ensures reads { OnlyReads (D.state repo.old.disk) (D.state repo.new.disk) repo.old repo.new result }
{
    let mut end = at;
    for placed in names {
        end = append_blob(alloc, repo, spare, end, placed.name)?;
    }
    Ok(end)
}

/// Writes a place for the length of a group, its records and a closed gate behind the first gate, and answers where the file
/// ends then.
fn append_group<D: Disk, P: Disk>(
    alloc: Global,
    repo: &mut Repo<D>,
    spare: &mut P,
    names: &[Placed],
    shuns: &[Name],
) -> Result<u64, WriteFault>
    requires { EndsAt 16 (P.state spare.old) }
    ensures writes { WritesGroup repo.old.seen.state (group_now repo.old.seen.state names.now shuns.now) (P.state spare.old) (P.state spare.new) result }
    ensures reads { OnlyReads (D.state repo.old.disk) (D.state repo.new.disk) repo.old repo.new result }
{
    repo.is_whole();
    let front = append(spare, 16, &[0; 8])?;
    let head = append_config(alloc, spare, front, repo.config())?;
    let tail = append_blobs(alloc, repo, spare, head, names)?;
    let last = append_shuns(alloc, spare, tail, shuns)?;
    append(spare, last, b"C")
}

/// Writes a file whose gate is closed in front of the group of these names and shunned names, into an empty file, and answers
/// where it ends. Only the header and the gate are stable.
fn write_closed<D: Disk, P: Disk>(
    alloc: Global,
    repo: &mut Repo<D>,
    spare: &mut P,
    names: &[Placed],
    shuns: &[Name],
) -> Result<u64, WriteFault>
    requires { Told (P.state spare.old) (λ held. held ≡ []) }
    ensures closes { ClosesRecords repo.old.seen.state (group_now repo.old.seen.state names.now shuns.now) (P.state spare.old) (P.state spare.new) result }
    ensures reads { OnlyReads (D.state repo.old.disk) (D.state repo.new.disk) repo.old repo.new result }
{
    write_header(spare)?;
    let end = append_group(alloc, repo, spare, names, shuns)?;
    write_length(spare, end - 25)?;
    Ok(end)
}

/// Writes the whole file of the group of these names and shunned names into an empty file, and answers where it ends.
fn write_file<D: Disk, P: Disk>(
    alloc: Global,
    repo: &mut Repo<D>,
    spare: &mut P,
    names: &[Placed],
    shuns: &[Name],
) -> Result<u64, WriteFault>
    requires { Told (P.state spare.old) (λ held. held ≡ []) }
    ensures writes { WritesWhole repo.old.seen.state (group_now repo.old.seen.state names.now shuns.now) (P.state spare.old) (P.state spare.new) result }
    ensures reads { OnlyReads (D.state repo.old.disk) (D.state repo.new.disk) repo.old repo.new result }
{
    let end = write_closed(alloc, repo, spare, names, shuns)?;
    open_gate(spare)?;
    Ok(end)
}

/// Writes a repository into an empty file, without the shunned artifacts. The file gets its Config, its held artifacts by their
/// places, each with its present privacy and its receipt, and its shunned names, in one group of a file of version 2. The last
/// write opens the one gate. Until then the file is no repository. Each step is made stable before the next, and one content is
/// in memory at a time. The repository has no appended and uncommitted record. It stays as it is: its disk is only read.
///
/// Over a repository's disk that tells its contents and meets the disk model the new file has the held contents. Over every
/// other disk it has bytes of the same names and sizes in their place.
///
/// Errors: `NotEmpty` with the length of the spare file where it was read and isn't 0, before anything is read of the repository,
/// and no other error for such a file; `Disk` where a call of one of the two disks failed; `Damaged` with a held name and that of
/// the bytes that were read for it, where they have another name; `Memory`. A spare file that isn't finished is no repository.
/// FORMATS: Scrubbed files
pub fn scrub<D: Disk, P: Disk>(
    alloc: Global,
    repo: &mut Repo<D>,
    spare: &mut P,
) -> Result<Scrubbed, ScrubFault>
    requires { length repo.old.seen.state.records ≡ repo.old.seen.state.committed }
    ensures scrubbed { IfOk result (IsScrubbed repo.old.seen.state.records) }
    // The spare file was empty; or its length wasn't 0 or couldn't be read, and just that is answered.
    ensures begun { HasBegun repo.old repo.new (P.state spare.old) (P.state spare.new) result }
    ensures empty { OnOk result (WasEmpty (P.state spare.old)) }
    // Where it had bytes nothing of it changed, whatever is answered, and the repository wasn't read.
    ensures untouched { Told (P.state spare.old) (λ held. held ≢ [] → Quiet (P.state spare.old) (P.state spare.new)) }
    ensures unread { Told (P.state spare.old) (λ held. held ≢ [] → repo.new ≡ repo.old) }
    // After Ok it is exactly the new one,
    ensures contents { OnOk result (WhereHonest repo.old.seen.state (λ all. Told (P.state spare.old) (λ _. (P.state spare.new).contents ≡ Some (file_text all)))) }
    // which stands for the scrubbed records.
    ensures stands { OnOk result (IsFileOf (file_text (scrubbed repo.old.seen.state.records)) (scrubbed repo.old.seen.state.records)) }
    // Each image is that file too, so no byte is left of what is shunned.
    ensures durable { OnOk result (WhereHonest repo.old.seen.state (λ all. IsModelled (P.state spare.old) → Only (file_text all) (P.state spare.new).images)) }
    // Where each image of the spare file is empty at the start, at each moment each is no repository yet or the whole new file.
    ensures any_moment { WhereHonest repo.old.seen.state (λ all. WhereEmpty (P.state spare.old) (LeavesOnly (P.state spare.old) (P.state spare.new) (UnopenedOr all))) }
    // Over every disk all this is so of the scrubbed records as they are written.
    ensures other { AsWritten repo.old.seen.state (scrubbed repo.old.seen.state.records) (IsNewFile (P.state spare.old) (P.state spare.new) result) }
    ensures fault { IfErr result (λ f. ScrubFailed f repo.old.seen.state repo.new.seen.state (P.state spare.old) (P.state spare.new)) }
    ensures count { OnOk result ((P.state spare.new).faults ≡ (P.state spare.old).faults) }
    ensures keeps { Keeps (P.state spare.old) (P.state spare.new) }
    // The repository stays but for the count of its disk's faults, and that stays after Ok.
    ensures same { OnOk result (repo.new.seen.state ≡ repo.old.seen.state) }
    ensures state { Leaves repo.old.seen.state repo.old.seen.state repo.new.seen.state }
    ensures items { repo.new.seen.items ≡ repo.old.seen.items }
    ensures loaded { repo.new.seen.loaded ≡ repo.old.seen.loaded }
    ensures log { log_of repo.new ≡ log_of repo.old }
    // Its disk is read alone.
    ensures quiet { Quiet (D.state repo.old.disk) (D.state repo.new.disk) }
{
    repo.is_whole();
    let len = spare.len()?;
    if len != 0 {
        return Err(ScrubFault::NotEmpty { len });
    }
    let names = repo.held(0)?;
    let shuns = repo.shuns()?;
    let end = write_file(alloc, repo, spare, names.items(), shuns.items())?;
    Ok(Scrubbed {
        blobs: names.items().len() as u64,
        shuns: shuns.items().len() as u64,
        len: end,
    })
}
