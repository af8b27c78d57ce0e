//! Holds the part of a held artifact that the table needs, without its name.
ghost use Rattle.std.specs.Prelude.{◌≡◌};
ghost use Rattle.fsl_cluster.specs.Kept.{entry_of};

use crate::Fact;
use fsl_name::Name;
use fsl_text::List;

/// The privacy of an artifact, the names in its M cards, and the names that it refers to.
#[derive(Drop)]
pub struct Entry {
    pub private: bool,
    pub members: List<Name>,
    pub refs: List<Name>,
}

/// What is kept of a fact.
pub(crate) fn entry_from(fact: Fact) -> Entry
    ensures { result ≡ entry_of fact }
{
    let Fact {
        name: _,
        private,
        members,
        refs,
    } = fact;
    Entry {
        private,
        members,
        refs,
    }
}
