//! States laws on files behind any number of commits, for proofs above. The calls do nothing when the program runs.
ghost use Rattle.fsl_record.specs.declared.Record.{Record};
ghost use Rattle.laws_openings.specs.Chain.{FirstStays, HeardStays};

use crate::living::Work;
use fsl_disk::Disk;

/// The records that were there before all commits stay. This is a law and no code.
pub fn first_stays<D: Disk, W: Work<D>>()
    ensures { FirstStays (λ w. W.puts w) }
{}

/// The records of a commit that somebody heard to be done stay, behind those that were there before it. This is a law and no
/// code.
pub fn heard_stays<D: Disk, W: Work<D>>()
    ensures { HeardStays (λ w. W.puts w) }
{}
