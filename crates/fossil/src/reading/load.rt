//! Answers about a repository file that isn't loaded.
ghost use Rattle.fossil.specs.Due.{IsNotLoadedDue};

use crate::answers::answer::not_repository;
use crate::answers::due::{Due, answered};
use crate::answers::fault::Fault;
use fsl_journal::LoadFault;
use std::alloc::Global;

/// Answers about a file that isn't loaded: it is no repository, its disk failed, or the program is out of memory.
pub fn not_loaded(alloc: Global, fault: LoadFault) -> Due
    ensures { IsNotLoadedDue fault result }
{
    match fault {
        LoadFault::Disk => Err(Fault::Disk),
        LoadFault::NotRepository { at } => answered(not_repository(alloc, at)),
        LoadFault::Memory => Err(Fault::Memory),
    }
}
