//! Holds the parents and the branch of a check-in.
use crate::branch::Branch;
use fsl_name::Name;
use fsl_text::List;

/// The names of the P card of a check-in, and its branch.
#[derive(Drop)]
pub struct Line {
    pub parents: List<Name>,
    pub branch: Branch,
}
