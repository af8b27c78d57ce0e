//! Holds the files of a check-in, and the names of its baseline and parent.
ghost use Rattle.std.specs.Prelude.{◌≡◌};
ghost use Rattle.fsl_files.specs.Kept.{entry_of};

use crate::{Fact, FileRow};
use fsl_name::Name;
use fsl_text::List;

/// The names of the B card and of the primary parent of a check-in, and its F cards.
#[derive(Drop)]
pub struct Entry {
    pub baseline: Option<Name>,
    pub parent: Option<Name>,
    pub files: List<FileRow>,
}

/// A fact as its name and what is kept beside it. It is moved.
pub(crate) fn line_of(fact: Fact) -> (Name, Entry)
    ensures { result ≡ (fact.name, entry_of fact) }
{
    let Fact {
        name,
        baseline,
        parent,
        files,
    } = fact;
    let entry = Entry {
        baseline,
        parent,
        files,
    };
    (name, entry)
}
