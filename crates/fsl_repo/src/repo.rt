//! Holds a repository: its disk, the journal of its records, the artifacts that these leave, and their tables.
ghost use Rattle.std.specs.Prelude.{◌≡◌};
ghost use Rattle.fsl_repo.specs.Whole.{IsWholeOn};

use fsl_blobs::Blobs;
use fsl_cross::Tables;
use fsl_disk::Disk;
use fsl_journal::Journal;
use std::alloc::Global;
use std::marker::Model;

/// A repository over a disk of its own. Between any two calls its tables are those of its held artifacts, these are the ones that
/// its records leave, and its announced names are neither held nor shunned. Contracts see all records, how many of them are
/// committed, the announced names, the artifacts of the tables, and the disk.
#[derive(Drop)]
pub struct Repo<D: Disk> {
    pub(crate) alloc: Global,
    pub(crate) disk: D,
    pub(crate) journal: Journal,
    pub(crate) blobs: Blobs,
    pub(crate) tables: Tables,
    /// How many records were loaded.
    pub(crate) loaded: u64,
    /// How many artifacts were stored since.
    pub(crate) stored: u64,
}

impl<D: Disk> Model for Repo<D> {
    ghost use Rattle.std.specs.Coded.{codes, coded_list, coded_ℕ};
    ghost use Rattle.std.specs.FinSet as set;
    ghost use Rattle.fsl_order.specs.Names.{bytes_cmp};
    ghost use Rattle.fsl_repo.specs.Whole.{Whole};

    ghost Value = { Whole D };

    ghost coded = { Prim.hlevel (codes, set.code {R = bytes_cmp} (coded_list coded_ℕ)) };

    ghost use Rattle.fsl_repo.specs.Keeping.{state_of, IsKept};
    ghost use Rattle.fsl_repo.specs.Whole.{is_modelled};

    ghost view = { λ r. record { disk = r.disk; seen = record { state = state_of r.journal r.blobs (D.state r.disk).faults (is_modelled (D.state r.disk)); items = r.tables.items; loaded = r.loaded }; places = r.journal.places; mark = r.journal.mark; place = r.journal.place } };

    ghost invariant = { λ r. IsKept r.journal r.blobs r.tables r.loaded r.stored (D.state r.disk) };
}

impl<D: Disk> Repo<D> {
    /// States what every repository meets. The call does nothing when the program runs.
    pub fn is_whole(&self)
        ensures { IsWholeOn (D.state self.now.disk) self.now }
    {
        let _ = &self.disk;
    }

    /// Returns the disk.
    pub fn close(self) -> D
        ensures { result ≡ self.disk }
    {
        let Repo {
            alloc: _,
            disk,
            journal,
            blobs,
            tables,
            loaded: _,
            stored: _,
        } = self;
        drop(journal);
        drop(blobs);
        tables.close();
        disk
    }
}
