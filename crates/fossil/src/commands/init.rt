//! `init`: makes a new repository.
ghost use Rattle.fsl_record.specs.Records.{AreFields};
ghost use Rattle.fsl_words.specs.declared.Command.TheVariants as command_of;
ghost use Rattle.fossil.specs.RunCall.{ActsUnread};

use crate::answers::answer::{Answer, numbered_refusal};
use crate::answers::due::Due;
use crate::answers::fault::Fault;
use crate::answers::status::DONE;
use fsl_disk::Disk;
use fsl_journal::{CreateFault, create};
use fsl_record::Config;
use fsl_text::Text;
use std::alloc::Global;

/// Writes a new repository with this Config into an empty file. A file that isn't empty is refused.
///
/// FORMATS: The repository file
pub fn init<D: Disk>(alloc: Global, config: &Config, disk: &mut D) -> Due
    requires { AreFields config.now.fields }
    ensures { ActsUnread (command_of.Init config.now.project config.now.server config.now.fields) (D.state, disk.old, disk.new) result }
{
    match create(alloc, disk, config) {
        Ok(()) => Ok(Answer {
            status: DONE,
            text: Text::empty(alloc),
        }),
        Err(CreateFault::NotEmpty { len }) => Ok(numbered_refusal(alloc, b"file not empty ", len)?),
        Err(CreateFault::Disk) => Err(Fault::Disk),
        Err(CreateFault::Memory) => Err(Fault::Memory),
    }
}
