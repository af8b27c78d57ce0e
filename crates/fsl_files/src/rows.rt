//! Copies and compares facts and their files.
ghost use Rattle.std.specs.Prelude.{◌≡◌, ◌==◌, IfOk};
ghost use Rattle.fsl_files.specs.Files.{perm_rank, same_file};

use super::overlay::Overlay;
use super::{Fact, FileRow, Perm};
use fsl_name::{Name, Named};
use fsl_text::{List, Memory, Text};
use std::alloc::Global;

impl FileRow {
    /// Returns a file with the same content. `Memory` is the only error.
    pub fn copied(&self, alloc: Global) -> Result<FileRow, Memory>
        ensures { IfOk result (λ row. row ≡ self.now) }
    {
        Ok(FileRow {
            path: Text::of(alloc, self.path.bytes())?,
            hash: self.hash,
            perm: self.perm,
        })
    }
}

impl Named for Fact {
    ghost name = { λ fact. fact.name };

    fn name(&self) -> Name {
        self.name
    }

    fn copied(&self, alloc: Global) -> Result<Fact, Memory> {
        Ok(Fact {
            name: self.name,
            baseline: self.baseline,
            parent: self.parent,
            files: copies(alloc, self.files.items())?,
        })
    }
}

/// Copies of some files.
fn copies(alloc: Global, rows: &[FileRow]) -> Result<List<FileRow>, Memory>
    ensures { IfOk result (λ list. list ≡ rows.now) }
{
    let mut list = List::new(alloc);
    for row in rows {
        if list.push(row.copied(alloc)?).is_err() {
            return Err(Memory);
        }
    }
    Ok(list)
}

/// Copies files that come one after the other. `Memory` is the only error.
pub fn collected(alloc: Global, files: Overlay) -> Result<List<FileRow>, Memory>
    ensures { IfOk result (λ list. list ≡ files.entry) }
{
    let mut list = List::new(alloc);
    for row in files {
        if list.push(row.copied(alloc)?).is_err() {
            return Err(Memory);
        }
    }
    Ok(list)
}

/// Whether two permissions are the same where files are compared: `w` counts as none.
fn same_perm(one: Perm, other: Perm) -> bool
    ensures { result ≡ (perm_rank one == perm_rank other) }
{
    match (one, other) {
        (Perm::Plain | Perm::Writable, Perm::Plain | Perm::Writable) => true,
        (Perm::Exec, Perm::Exec) | (Perm::Symlink, Perm::Symlink) => true,
        _ => false,
    }
}

/// Tells whether two files have the same hash and permission.
pub fn same_file(one: &FileRow, other: &FileRow) -> bool
    ensures { result ≡ same_file one.now other.now }
{
    one.hash == other.hash && same_perm(one.perm, other.perm)
}
