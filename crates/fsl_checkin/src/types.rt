//! Holds the items of trees, and the reasons why a text is no tree.
ghost use Rattle.std.specs.Prelude.{◌≡◌};
ghost use Rattle.fsl_checkin.specs.declared.types.TreeFault.TheVariants as tree_fault;

use fsl_text::{Memory, Text};

/// The permission of a file in a tree. The `w` of a manifest counts as none.
#[derive(Clone, Copy, PartialEq, Eq, Debug)]
pub enum Perm {
    /// `-`: the file has no permission.
    Plain,
    /// `x`: the file can be run.
    Exec,
    /// `l`: the file is a symbolic link.
    Symlink,
}

/// A file of a tree.
#[derive(Drop)]
pub struct TreeItem {
    /// Its path.
    pub path: Text,
    /// Its permission.
    pub perm: Perm,
    /// Its content.
    pub bytes: Text,
}

/// A reason why a text is no tree.
#[derive(Clone, Copy, PartialEq, Eq, Debug)]
pub enum TreeFault {
    /// The item with this number, counted from 1, hasn't the form of an item or doesn't rise by path.
    Item { number: u64 },
    /// Memory ran out.
    Memory,
}

impl From<Memory> for TreeFault {
    ghost from_gives = { λ _ fault. fault ≡ tree_fault.Memory };

    fn from(_: Memory) -> Self {
        TreeFault::Memory
    }
}
