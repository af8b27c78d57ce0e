//! A node is a fact without its name.
use super::shared::Shared;
use fsl_name::Name;
use fsl_text::List;

/// A node has all of a fact but its name.
#[derive(Drop)]
pub(crate) struct Node {
    pub checkin: bool,
    pub parent: Option<Name>,
    pub tags: List<Shared>,
}
