//! Laws of one command behind another. These functions have no code.
ghost use Rattle.fossil.specs.Returning.{TreeComesBack};

/// A tree that `checkin` took comes back. After status 0 the input is a tree, and the last line that was printed names its
/// check-in. Where none of what arrived was shunned, and of all that is held and that arrived two texts with one name are
/// equal, `export` of that name prints the tree, and `verify` of it says `right`: over the records, and over each file that
/// stands for them, where its disk tells its contents and meets the disk model. What is printed reads as the tree that was
/// read; it is the input byte for byte where that escapes its paths as `export` does.
pub fn tree_comes_back()
    ensures law { TreeComesBack }
{}
