//! Computes the checksum of a tree.
ghost use Rattle.std.specs.Prelude.{◌≡◌, ◌++◌, ℕ, List, [], flat_map, IsTrue};
ghost use Rattle.md5.specs.Md5.{Holds, md5};
ghost use Rattle.fsl_order.specs.Rows.{rises};
ghost use Rattle.fsl_checkin.specs.Sums.{sum, summed, summed_file};
ghost use Rattle.fsl_checkin.specs.Trees.{paths};

use crate::TreeItem;
use itoa::Buffer;
use md5::{Digest, Md5};

/// Takes a file into a checksum: its path, a space, its size, a newline and its content.
pub(crate) fn take_file(hasher: &mut Md5, path: &[u8], bytes: &[u8])
    ensures { (m : List ℕ) → Holds hasher.old m → Holds hasher.new (m ++ summed path.now bytes.now) }
{
    hasher.update(path);
    hasher.update(b" ".as_slice());
    hasher.update(Buffer::new().format(bytes.len()).as_bytes());
    hasher.update(b"\n".as_slice());
    hasher.update(bytes);
}

/// Takes the files of some items into a checksum that took nothing.
fn take_items(hasher: &mut Md5, items: &[TreeItem])
    requires { Holds hasher.old [] }
    ensures { Holds hasher.new (flat_map summed_file items.now) }
{
    for item in items {
        take_file(hasher, item.path.bytes(), item.bytes.bytes());
    }
}

/// Returns the checksum of a tree, whose paths rise. No content is copied.
/// FORMATS: Trees
pub fn sum(items: &[TreeItem]) -> [u8; 16]
    requires { IsTrue (rises (paths items.now)) }
    ensures { result ≡ sum items.now }
{
    let mut hasher = Md5::new();
    take_items(&mut hasher, items);
    hasher.finalize()
}
