//! Keeps names, ascending, each once.
ghost use Rattle.std.specs.Prelude.{◌≡◌};
ghost use Rattle.fsl_order.specs.Names.{has};
ghost use Rattle.fsl_order.specs.Rows.{ascending};

use fsl_name::{Name, ordered, stands};
use fsl_text::List;
use std::marker::Model;

/// A set of names. Contracts see it as the ascending list of them.
#[derive(Drop)]
pub struct NameSet {
    names: Vec<Name>,
}

impl Model for NameSet {
    ghost use Rattle.std.specs.Prelude.{List, ℕ};
    ghost use Rattle.std.specs.List.Sorted.{IsStrictlySortedBy};
    ghost use Rattle.fsl_order.specs.Names.{bytes_cmp};

    ghost Value = { List (List ℕ) };

    ghost view = { λ s. s.names.items };

    ghost invariant = { λ s. IsStrictlySortedBy bytes_cmp s.names.items };
}

impl NameSet {
    /// Makes the set of the names of a vector. Takes no memory.
    pub fn of(names: Vec<Name>) -> NameSet
        ensures { result ≡ ascending names.items }
    {
        NameSet {
            names: ordered(names),
        }
    }

    /// Tells whether the name is in the set.
    pub fn contains(&self, name: &Name) -> bool
        ensures { result ≡ has self.now name.now }
    {
        stands(&self.names, name)
    }

    /// Returns the names, ascending.
    pub fn into_list(self) -> List<Name>
        ensures { result ≡ self }
    {
        List::from_vec(self.names)
    }
}
