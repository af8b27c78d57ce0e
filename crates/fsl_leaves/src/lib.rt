//! Finds the leaves: check-ins without a child in their own branch. `Leaves` is the table of them. It answers as the definition
//! does over the facts that it holds. It is the same in whatever order these came: that is the law
//! `fsl_order::by_name_in_any_order`. One call adds a check-in, and another one replaces a check-in. Each returns the names whose
//! rows differ, and can be undone.
#![tactic(auto)]

ghost use Rattle.std.specs.Prelude.{◌≡◌, IfOk};

mod branch;
mod ends;
mod kin;
mod leaves;
mod line;
mod maps;
mod rows;

use fsl_name::{Name, Named};
use fsl_text::{List, Memory, Text};
pub use leaves::{Leaves, Undo};
use std::alloc::Global;

/// A check-in with the names of its P card and its branch.
#[derive(Drop)]
pub struct Fact {
    /// Its name.
    pub name: Name,
    /// The names of its P card. No check-in need have them.
    pub parents: List<Name>,
    /// The name of its branch.
    pub branch: Text,
}

impl Named for Fact {
    ghost name = { λ fact. fact.name };

    fn name(&self) -> Name {
        self.name
    }

    fn copied(&self, alloc: Global) -> Result<Fact, Memory> {
        Ok(Fact {
            name: self.name,
            parents: copy(alloc, self.parents.items())?,
            branch: Text::of(alloc, self.branch.bytes())?,
        })
    }
}

/// A list of some names.
fn copy(alloc: Global, names: &[Name]) -> Result<List<Name>, Memory>
    ensures { IfOk result (λ list. list ≡ names.now) }
{
    Ok(List::from_vec(names.to_vec(alloc)?))
}
