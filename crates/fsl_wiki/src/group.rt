//! Groups facts by their page, their technote, or their attached file.
ghost use Rattle.std.specs.Prelude.{◌≡◌, IfOk};
ghost use Rattle.fsl_wiki.specs.Exact.{exact_group};
ghost use Rattle.fsl_wiki.specs.Groups.{page_group, note_group, file_group};

use fsl_name::Name;
use fsl_table::Key;
use fsl_text::{Memory, Text};
use std::alloc::Global;

/// The title of a page, the id of a technote, or the target and the file of an attachment.
#[derive(Drop, PartialEq, Eq, PartialOrd, Ord)]
pub struct Group {
    pub id: Option<Name>,
    pub first: Option<Text>,
    pub second: Option<Text>,
}

impl Key for Group {
    ghost exact = { exact_group };
}

impl Group {
    /// Makes the group of the page of a title. `Memory` is the only error.
    pub fn page(alloc: Global, title: &[u8]) -> Result<Group, Memory>
        ensures { IfOk result (λ group. group ≡ page_group title.now) }
    {
        Ok(Group {
            id: None,
            first: Some(Text::of(alloc, title)?),
            second: None,
        })
    }

    /// Makes the group of the technote of an id. Takes no memory.
    pub fn note(id: Name) -> Group
        ensures { result ≡ note_group id }
    {
        Group {
            id: Some(id),
            first: None,
            second: None,
        }
    }

    /// Makes the group of the attachments of a file to a target. `Memory` is the only error.
    pub fn file(alloc: Global, target: &[u8], file: &[u8]) -> Result<Group, Memory>
        ensures { IfOk result (λ group. group ≡ file_group target.now file.now) }
    {
        Ok(Group {
            id: None,
            first: Some(Text::of(alloc, target)?),
            second: Some(Text::of(alloc, file)?),
        })
    }
}
