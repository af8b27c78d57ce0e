//! Finds the names of held artifacts that are in no cluster, and the names that an artifact refers to and that aren't held.
//! `Clusters` is the table of both. It answers as the definitions do over the facts that it holds. It is the same in whatever
//! order these came: that is the law `fsl_order::by_name_in_any_order`. One call adds an artifact, and another one replaces an
//! artifact. Each returns the names whose rows differ, and can be undone.
#![tactic(auto)]

mod build;
mod clusters;
mod counts;
mod entry;
mod gather;
mod maps;
mod name_set;
mod rows;
mod sets;
mod tables;
mod writing;

pub use clusters::{Clusters, Undo};
use fsl_name::Name;
use fsl_text::List;
pub use gather::{missing, unclustered};
pub use writing::make_cluster;

/// The part of a held artifact that the table needs.
#[derive(Drop)]
pub struct Fact {
    /// Its name.
    pub name: Name,
    /// Says whether it is private.
    pub private: bool,
    /// The names in its M cards. There are none where it is no cluster.
    pub members: List<Name>,
    /// The names that it refers to.
    pub refs: List<Name>,
}
