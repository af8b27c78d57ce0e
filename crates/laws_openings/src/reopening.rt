//! Opens a journal many times, one after the other.
ghost use Rattle.std.specs.Prelude.{◌≡◌, ℕ, List, length, IfOk};
ghost use Rattle.fsl_disk.specs.Disk.{DiskState, IsModelled, Keeps, LeavesOnly};
ghost use Rattle.fsl_journal.specs.Log.{StandsBetween, WhereBetween};
ghost use Rattle.laws_openings.specs.Chain.{AreBetween, IsSince};
ghost use Rattle.laws_openings.specs.Openings.{IsAnsweredAs, IsOpeningOf, AreOpenings};

use crate::Outage;
use fsl_disk::Disk;
use fsl_journal::{Journal, LoadFault};
use fsl_text::Memory;
use std::alloc::Global;
use std::snapshot::Snapshot;

/// One opening of a journal: the disk before it, the disk as it left it, and its answer. Only clauses see the two disks.
#[derive(Drop)]
pub struct Opening<D> {
    pub began: Snapshot<D>,
    pub ended: Snapshot<D>,
    /// The number of records that the file stands for, or the reason why it wasn't opened.
    pub answer: Result<u64, LoadFault>,
}

/// What an opening and its outage leave: the disk, and what was answered.
struct Opened<D> {
    disk: D,
    opening: Opening<D>,
}

/// Opens the journal of a disk, and answers how many records there are.
fn count_records<D: Disk>(alloc: Global, disk: &mut D) -> Result<u64, LoadFault>
    ensures answer { IsAnsweredAs (D.state disk.old) (D.state disk.new) result }
    ensures keeps { Keeps (D.state disk.old) (D.state disk.new) }
    ensures later { IsSince (D.state disk.old) (D.state disk.new) }
    ensures any_moment { WhereBetween (D.state disk.old) (λ low high. LeavesOnly (D.state disk.old) (D.state disk.new) (StandsBetween low high)) }
{
    match Journal::load(alloc, disk) {
        Ok((journal, places, records)) => {
            let count = journal.count();
            drop(journal);
            drop(places);
            drop(records);
            Ok(count)
        }
        Err(fault) => Err(fault),
    }
}

/// Opens the journal of a disk, whatever the answer, and ends that by an outage.
fn reopen_once<D: Disk, O: Outage<D>>(alloc: Global, disk: D, outage: &mut O) -> Opened<D>
    ensures opening { IsOpeningOf (λ d. D.state d) disk result.opening result.disk }
    ensures modelled { IsModelled (D.state disk) → IsModelled (D.state result.disk) }
    ensures between { WhereBetween (D.state disk) (λ low high. AreBetween low high (D.state result.disk).images) }
{
    let began = Snapshot::of(&disk);
    let first = Snapshot::of(&disk);
    let mut disk = disk;
    let answer = count_records(alloc, &mut disk);
    let opening = Opening {
        began,
        ended: Snapshot::of(&disk),
        answer,
    };
    Opened {
        disk: outage.strike(first, disk),
        opening,
    }
}

/// The disk behind some openings, and the answer of each.
#[derive(Drop)]
pub struct Reopened<D> {
    pub disk: D,
    pub openings: Vec<Opening<D>>,
}

/// Opens the journal of a disk this many times, each with an outage at its end or within it, and returns the answer of each. The
/// answer is the number of records that the disk stood for then, or the reason why it wasn't opened. Where each image of the disk
/// stands for records between two lists, each image stands for such records behind all openings, however often and wherever they
/// were stopped. `Memory` is the only error.
pub fn reopen<D: Disk + Drop, O: Outage<D>>(
    alloc: Global,
    disk: D,
    outage: &mut O,
    times: u64,
) -> Result<Reopened<D>, Memory>
    // One for each time.
    ensures each { IfOk result (λ all. length all.openings.items ≡ times) }
    ensures openings { IfOk result (λ all. AreOpenings (λ d. D.state d) disk all.openings.items all.disk) }
    ensures modelled { IfOk result (λ all. IsModelled (D.state disk) → IsModelled (D.state all.disk)) }
    ensures between { IfOk result (λ all. WhereBetween (D.state disk) (λ low high. AreBetween low high (D.state all.disk).images)) }
{
    let mut all = Reopened {
        disk,
        openings: Vec::new(alloc),
    };
    for count in 0..times {
        let Opened { disk, opening } = reopen_once(alloc, all.disk, outage);
        all.disk = disk;
        all.openings.push(opening)?;
    }
    Ok(all)
}
