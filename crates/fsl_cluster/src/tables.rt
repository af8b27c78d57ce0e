//! Holds the maps of a table as it is filled, and the names whose rows change.
ghost use Rattle.std.specs.Prelude.{◌≡◌, []};

use crate::entry::Entry;
use fsl_name::Name;
use fsl_table::{Pair, Table};
use std::alloc::Global;
use std::collections::BTreeSet;

/// The maps of a table of facts as they are filled, with no way back.
#[derive(Drop)]
pub struct Tables {
    /// Maps the name of each fact to the rest of it.
    pub facts: Table<Name, Entry>,
    /// Has a pair for each name of an M card and the cluster with that card.
    pub members: Table<Pair, ()>,
    /// Has a pair for each name that an artifact refers to, and that artifact.
    pub refs: Table<Pair, ()>,
    /// Has the public names that are in no M card.
    pub unclustered: Table<Name, ()>,
    /// Has the names that an artifact refers to and that aren't held.
    pub missing: Table<Name, ()>,
}

impl Tables {
    /// Returns maps without facts. Takes no memory.
    pub fn new(alloc: Global) -> Tables
        ensures facts { result.facts.entries ≡ [] }
        ensures members { result.members.entries ≡ [] }
        ensures refs { result.refs.entries ≡ [] }
        ensures unclustered { result.unclustered.entries ≡ [] }
        ensures missing { result.missing.entries ≡ [] }
    {
        Tables {
            facts: Table::new(alloc),
            members: Table::new(alloc),
            refs: Table::new(alloc),
            unclustered: Table::new(alloc),
            missing: Table::new(alloc),
        }
    }
}

/// The names that became unclustered or ceased to be, and those that became missing or ceased to be.
#[derive(Drop)]
pub struct Flips {
    pub unclustered: BTreeSet<Name>,
    pub missing: BTreeSet<Name>,
}

impl Flips {
    /// Returns no names. Takes no memory.
    pub fn new(alloc: Global) -> Flips
        ensures unclustered { result.unclustered.keys ≡ [] }
        ensures missing { result.missing.keys ≡ [] }
    {
        Flips {
            unclustered: BTreeSet::new(alloc),
            missing: BTreeSet::new(alloc),
        }
    }
}
