//! `clone`: the repository at the other end of a dial comes onto an empty disk.
ghost use Rattle.fsl_record.specs.Records.{AreFields};
ghost use Rattle.fossil.specs.Syncing.{HasCloned};

use crate::answers::due::Due;
use crate::answers::sync_due::sync_due;
use fsl_disk::Disk;
use fsl_name::Name;
use fsl_outside::Dial;
use fsl_pull::clone_from;
use fsl_text::{List, Text};
use std::alloc::Global;

/// Clones the repository at the other end of the dial onto an empty disk, without login: the new one has its project code,
/// and the server code and the ticket fields that are given. What is due of that is answered, and the disk comes back.
pub(crate) fn clone_onto<D: Disk, N: Dial>(
    alloc: Global,
    server: Name,
    fields: &List<Text>,
    disk: D,
    dial: &mut N,
) -> (Due, D)
    requires { AreFields fields.now }
    ensures { HasCloned server fields.now (D.state, disk, result.1) (N.state, dial.old, dial.new) result.0 }
{
    let (disk, made) = clone_from(alloc, disk, server, fields, dial, &None);
    (sync_due(alloc, made), disk)
}
