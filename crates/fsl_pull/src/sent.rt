//! Keeps the names that a push has sent.
ghost use Rattle.std.specs.Prelude.{◌≡◌, ◌∷◌, ◌++◌, [], length, OnOk};
ghost use Rattle.std.specs.List.{list_all};
ghost use Rattle.fsl_order.specs.Names.{has};

use fsl_name::Name;
use fsl_text::Memory;
use std::alloc::Global;
use std::collections::BTreeSet;
use std::marker::Model;

/// The names that a push has sent, in the order of the sending, and as a set.
#[derive(Drop)]
pub(crate) struct SentSoFar {
    order: Vec<Name>,
    set: BTreeSet<Name>,
}

impl Model for SentSoFar {
    ghost use Rattle.fsl_pull.specs.Sent.{SentNames, AreSame};

    ghost Value = { SentNames };

    ghost view = { λ s. record { order = s.order.items; set = s.set.keys } };

    ghost invariant = { λ s. AreSame (record { order = s.order.items; set = s.set.keys }) };
}

impl SentSoFar {
    /// Nothing was sent.
    pub(crate) fn new(alloc: Global) -> SentSoFar
        ensures { result.order ≡ [] }
    {
        SentSoFar {
            order: Vec::new(alloc),
            set: BTreeSet::new(alloc),
        }
    }

    /// How many names were sent.
    pub(crate) fn count(&self) -> u64
        ensures { result ≡ length self.now.order }
    {
        self.order.len() as u64
    }

    /// Whether a name was sent.
    pub(crate) fn has(&self, name: Name) -> bool
        ensures { result ≡ has self.now.order name }
    {
        self.set.contains(&name)
    }

    /// Whether each of some names was sent.
    pub(crate) fn has_all(&self, names: &[Name]) -> bool
        ensures { result ≡ list_all (has self.now.order) names.now }
    {
        for name in names {
            if !self.has(*name) {
                return false;
            }
        }
        true
    }

    /// Notes that a name was sent.
    fn note(&mut self, name: Name) -> Result<(), Memory>
        ensures { OnOk result (self.new.order ≡ self.old.order ++ name ∷ []) }
    {
        self.order.push(name)?;
        match self.set.insert(name) {
            Ok(_) => Ok(()),
            Err(_) => {
                self.order.pop();
                Err(Memory)
            }
        }
    }

    /// Notes that names were sent. Where memory runs out, some of them are noted.
    pub(crate) fn note_all(&mut self, names: &[Name]) -> Result<(), Memory>
        ensures { OnOk result (self.new.order ≡ self.old.order ++ names.now) }
    {
        for name in names {
            self.note(*name)?;
        }
        Ok(())
    }
}
