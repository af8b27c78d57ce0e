//! Holds an artifact of a set, which other sets may have too.
ghost use Rattle.std.specs.Prelude.{◌≡◌, IfOk, false};

use super::Item;
use fsl_artifact::Artifact;
use fsl_name::Name;
use fsl_text::Memory;
use std::alloc::Global;
use std::marker::Model;
use std::sync::Arc;

/// An artifact that is kept once, however many sets have it. Contracts see it as the item.
#[derive(Drop)]
pub(crate) struct Held {
    name: Name,
    private: bool,
    artifact: Arc<Artifact>,
}

impl Model for Held {
    ghost use Rattle.fsl_cross.specs.declared.Item.{Item};

    ghost Value = { Item };

    ghost view = { λ h. record { name = h.name; private = h.private; artifact = h.artifact.value } };
}

impl Held {
    /// Keeps an item. `Memory` is the only error.
    pub(crate) fn of(alloc: Global, item: Item) -> Result<Held, Memory>
        ensures { IfOk result (λ held. held ≡ item) }
    {
        match Arc::new(alloc, item.artifact) {
            Ok(artifact) => Ok(Held {
                name: item.name,
                private: item.private,
                artifact,
            }),
            Err(refused) => {
                drop(refused);
                Err(Memory)
            }
        }
    }

    /// The same item for one set more. `Memory` is the only error.
    pub(crate) fn again(&self) -> Result<Held, Memory>
        ensures { IfOk result (λ held. held ≡ self.now) }
    {
        match Arc::try_clone(&self.artifact) {
            Ok(artifact) => Ok(Held {
                name: self.name,
                private: self.private,
                artifact,
            }),
            Err(_) => Err(Memory),
        }
    }

    /// Its name.
    pub(crate) fn name(&self) -> Name
        ensures { result ≡ self.now.name }
    {
        self.name
    }

    /// Whether it is private.
    pub(crate) fn is_private(&self) -> bool
        ensures { result ≡ self.now.private }
    {
        self.private
    }

    /// What its bytes are.
    pub(crate) fn artifact(&self) -> &Artifact
        ensures { result.now ≡ self.now.artifact }
    {
        &self.artifact
    }

    /// Makes it private, or public.
    pub(crate) fn set_private(&mut self, private: bool)
        ensures { self.new ≡ record self.old { private = private } }
    {
        self.private = private;
    }
}
