//! Handles trees of files. It reads a tree from its text, writes it as one, makes a manifest of it, and takes it back out of a
//! check-in of a repository. The checksum of a manifest's R card is that of the tree.
#![tactic(auto)]

mod answers;
mod cards;
mod contents;
mod exporting;
mod front;
mod laws;
mod manifests;
mod reading;
mod sums;
mod types;
mod verifying;
mod writing;

pub use answers::{Export, ExportFault, Verdict};
pub use exporting::export;
pub use laws::{
    bad_item_is_one, bad_text_is_no_tree, export_has_an_answer, export_has_one_answer,
    export_reads_what_is_held, text_is_one_tree, text_is_tree_or_not,
    tree_that_comes_back_is_answered, trees_come_back, verify_has_an_answer, verify_has_one_answer,
    verify_reads_what_is_held, written_tree_reads_back,
};
pub use manifests::manifest;
pub use reading::read_tree;
pub use sums::sum;
pub use types::{Perm, TreeFault, TreeItem};
pub use verifying::verify;
pub use writing::tree_text;
