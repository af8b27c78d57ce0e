//! Texts of trees, each with the number of its first item that is none, or 0 and how many items it has. The values are those of
//! an independent model.
use fsl_checkin::{TreeFault, TreeItem, read_tree, tree_text};
use fsl_text::List;
use std::alloc::Global;
use std::test::Fail;

/// A tree whose path is written with an escape that it doesn't need.
const ESCAPED: &[u8] = b"add \x5ca - 0\x0a\x0aadd b - 1\x0a\x0a\x0a";

const CASES: [(&[u8], u64, usize); 32] = [
    (b"", 0, 0),
    (b"add a.txt - 3\x0aabc\x0a", 0, 1),
    (b"add a.txt x 3\x0aabc\x0aadd b l 0\x0a\x0a", 0, 2),
    (b"add a.txt - 3\x0aabc", 1, 0),
    (b"add a.txt - 4\x0aabc\x0a", 1, 0),
    (b"add a.txt - 03\x0aabc\x0a", 1, 0),
    (b"add a.txt w 3\x0aabc\x0a", 1, 0),
    (b"add b - 0\x0a\x0aadd a - 0\x0a\x0a", 2, 0),
    (b"add a - 0\x0a\x0aadd a - 0\x0a\x0a", 2, 0),
    (b"add  - 0\x0a\x0a", 1, 0),
    (b"add a - 0\x0a\x0afrob", 2, 0),
    (b"add ../a - 0\x0a\x0a", 1, 0),
    (b"add a\x5csb - 2\x0a\x0a\x0a\x0a", 0, 1),
    (b"add a b - 0\x0a\x0a", 1, 0),
    (b"Add a - 0\x0a\x0a", 1, 0),
    (b"add \x5ca - 0\x0a\x0aadd b - 1\x0a\x0a\x0a", 0, 2),
    (b"add a\x0b - 0\x0a\x0a", 1, 0),
    (b"add a - 18446744073709551616\x0a\x0a", 1, 0),
    (b"add a - \x0a\x0a", 1, 0),
    (b"add a -  0\x0a\x0a", 1, 0),
    (b"add a - 0 \x0a\x0a", 1, 0),
    (b"add a - 0\x0a", 1, 0),
    (b"add a/b - 1\x0ax\x0aadd a.b - 1\x0ay\x0a", 2, 0),
    (b"add a.b - 1\x0ax\x0aadd a/b - 1\x0ay\x0a", 0, 2),
    (b"add a - 1\x0axy\x0a", 1, 0),
    (b"add . - 0\x0a\x0a", 1, 0),
    (b"add a/./b - 0\x0a\x0a", 1, 0),
    (b"add a//b - 0\x0a\x0a", 1, 0),
    (b"add /a - 0\x0a\x0a", 1, 0),
    (b"add a/ - 0\x0a\x0a", 1, 0),
    (b"add a - 0\x0a\x0aadd b/.. - 0\x0a\x0a", 2, 0),
    (b"add .a/b. - 0\x0a\x0a", 0, 1),
];

/// Whether a tree is written as this text.
pub(crate) fn is_written(alloc: Global, items: &List<TreeItem>, wanted: &[u8]) -> bool {
    match tree_text(alloc, items) {
        Ok(written) => written.bytes() == wanted,
        Err(_) => false,
    }
}

/// Whether a text is a tree of so many items, which is written as itself where its paths are written with the escapes alone that
/// they need; or fails at this item.
fn reads(alloc: Global, text: &[u8], bad: u64, count: usize) -> bool {
    match read_tree(alloc, text) {
        Ok(items) => {
            let many = items.items().len() == count;
            let again = is_written(alloc, &items, text) | (text == ESCAPED);
            drop(items);
            many & again & (bad == 0)
        }
        Err(fault) => fault == TreeFault::Item { number: bad },
    }
}

#[test]
fn trees_read_as_the_model_says(rt: HostRuntime) -> Result<(), Fail> {
    for (text, bad, count) in CASES {
        assert!(rt; reads(rt.alloc(), text, bad, count));
    }
    Ok(())
}
