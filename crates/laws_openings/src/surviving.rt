//! Runs lives of a repository, one after the other.
ghost use Rattle.std.specs.Prelude.{◌≡◌, ◌&&◌, IfOk};
ghost use Rattle.fsl_disk.specs.Disk.{DiskState, IsModelled};
ghost use Rattle.laws_openings.specs.Chain.{Has};
ghost use Rattle.laws_openings.specs.Lives.{IsLifeOf, AreLives, SurvivesAll, is_done, does_of, try_in};

use crate::living::{Ending, Life, Work, live};
use crate::outage::Outage;
use fsl_disk::Disk;
use fsl_text::Memory;
use std::alloc::Global;
use std::snapshot::Snapshot;

/// A life that ended: the disk before it, the disk as it left it, its end, and whether somebody heard that its commit was done.
/// Only clauses see the two disks.
#[derive(Drop)]
pub struct Lived<D: Disk> {
    pub began: Snapshot<D>,
    pub ended: Snapshot<D>,
    pub ending: Ending<D>,
    pub is_heard: bool,
}

/// What a life and its end leave: the disk, and what that life was.
struct Ended<D: Disk> {
    disk: D,
    lived: Lived<D>,
}

/// Whether somebody who waits for a life's answer hears that its commit was done.
fn is_told<D: Disk, W: Work<D>>(work: &W, ending: &Ending<D>) -> bool
    ensures { result ≡ (is_done ending.now && W.heard work.now) }
{
    match ending {
        Ending::Done(_) => work.is_heard(),
        _ => false,
    }
}

/// One life and its end: an outage at some moment since it began or, where somebody heard that its commit was done, behind that.
fn live_once<D: Disk, W: Work<D>, O: Outage<D>>(
    alloc: Global,
    disk: D,
    work: &W,
    outage: &mut O,
) -> Ended<D>
    ensures modelled { IsModelled (D.state disk) → IsModelled (D.state result.disk) }
    ensures life { IsLifeOf (λ d. D.state d) (does_of (λ w. W.puts w) (λ w. W.heard w)) work.now disk result.lived result.disk }
    ensures has { Has (λ w. W.puts w) (try_in work.now result.lived) (D.state disk) (D.state result.disk) }
{
    let began = Snapshot::of(&disk);
    let first = Snapshot::of(&disk);
    let Life { disk, ending } = live(alloc, disk, work);
    let ended = Snapshot::of(&disk);
    if is_told(work, &ending) {
        let heard = Snapshot::of(&disk);
        Ended {
            disk: outage.strike(heard, disk),
            lived: Lived {
                began,
                ended,
                ending,
                is_heard: true,
            },
        }
    } else {
        Ended {
            disk: outage.strike(first, disk),
            lived: Lived {
                began,
                ended,
                ending,
                is_heard: false,
            },
        }
    }
}

/// The disk behind some lives, and the end of each life.
#[derive(Drop)]
pub struct Story<D: Disk> {
    pub disk: D,
    pub lives: Vec<Lived<D>>,
}

/// Takes a repository's disk through lives of these works, one after the other, and returns how each ended, of the disk as it was
/// then. Where each image of the disk stands for records between two lists, each image stands behind them for such a list,
/// followed in order by the records that each life put behind those before it. Of each life these are all or none, and all where
/// somebody heard that it was done. `Memory` is the only error.
pub fn live_on<D: Disk + Drop, W: Work<D>, O: Outage<D>>(
    alloc: Global,
    disk: D,
    works: &[W],
    outage: &mut O,
) -> Result<Story<D>, Memory>
    ensures modelled { IfOk result (λ story. IsModelled (D.state disk) → IsModelled (D.state story.disk)) }
    // One for each work.
    ensures lives { IfOk result (λ story. AreLives (λ d. D.state d) (does_of (λ w. W.puts w) (λ w. W.heard w)) disk works.now story.lives.items story.disk) }
    ensures survives { IfOk result (λ story. SurvivesAll (λ w. W.puts w) works.now story.lives.items (D.state disk) (D.state story.disk)) }
{
    let mut story = Story {
        disk,
        lives: Vec::new(alloc),
    };
    for work in works {
        let Ended { disk, lived } = live_once(alloc, story.disk, work, outage);
        story.disk = disk;
        story.lives.push(lived)?;
    }
    Ok(story)
}
