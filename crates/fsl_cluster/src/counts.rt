//! Counts the names of the table, and tells whether it has one. None of these calls takes memory.
ghost use Rattle.std.specs.Prelude.{◌≡◌, ◌<◌, length};
ghost use Rattle.fsl_order.specs.Names.{has};
ghost use Rattle.fsl_cluster.specs.Clusters as table;

use crate::Clusters;
use crate::sets::is_entered;
use fsl_name::Name;
use fsl_text::Steps;
use std::marker::Brand;
use std::sync::ledger::{Blank, Ledger};

impl Clusters {
    /// Counts the public artifacts that are in no M card of a held cluster.
    pub fn unclustered_count(&self) -> u64
        ensures { result ≡ length (table.unclustered self.now.facts) }
    {
        self.maps.unclustered.map().len()
    }

    /// Counts the names that a held artifact refers to and that aren't held.
    pub fn missing_count(&self) -> u64
        ensures { result ≡ length (table.missing self.now.facts) }
    {
        self.maps.missing.map().len()
    }

    /// Tells whether a held artifact refers to this name, and it isn't held.
    pub fn is_missing(&self, name: Name) -> bool
        ensures { result ≡ has (table.missing self.now.facts) name }
    {
        self.is_missing_counted::<Brand>(name, Blank::new(1))
    }

    fn is_missing_counted<L: Ledger>(&self, name: Name, blank: Blank) -> bool
        requires name { blank.name ≡ L.name }
        requires parts { blank.parts ≡ L.parts }
        requires counts { 0 < L.parts }
        ensures { result ≡ has (table.missing self.now.facts) name }
    {
        let mut steps: Steps<L> = Steps::new(blank);
        is_entered(&self.maps.missing, &name, &mut steps)
    }
}
