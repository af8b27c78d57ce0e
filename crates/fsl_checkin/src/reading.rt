//! Reads a tree from its text.
ghost use Rattle.std.specs.Prelude.{◌≡◌, ◌++◌, ◌∷◌, [], IfOk, IfErr};
ghost use Rattle.fsl_order.specs.Names.{is_before};
ghost use Rattle.fsl_checkin.specs.Reading.{IsAdded, goes_on};
ghost use Rattle.fsl_checkin.specs.Trees.{IsTreeFault, IsTreeText};

use crate::front::front_of;
use crate::{TreeFault, TreeItem};
use fsl_text::{List, Memory};
use std::alloc::Global;

/// Whether an item stands behind the last of some by path, if there is one.
fn goes_on(items: &[TreeItem], next: &TreeItem) -> bool
    ensures { result ≡ goes_on items.now next.now }
{
    match items.split_last() {
        Some((last, _)) => last.path < next.path,
        None => true,
    }
}

/// Puts the item at the front of a text behind some, and answers what stands behind it; or none, where no item stands
/// there that goes on with these.
fn add_front<'a>(
    alloc: Global,
    items: &mut List<TreeItem>,
    text: &'a [u8],
) -> Result<Option<&'a [u8]>, Memory>
    ensures { IfOk result (IsAdded items.old items.new text.now) }
{
    let _ = text.len();
    let Some(front) = front_of(alloc, text)? else {
        return Ok(None);
    };
    if !goes_on(items.items(), &front.item) {
        return Ok(None);
    }
    items.append(front.item)?;
    Ok(Some(front.rest))
}

/// Reads a tree, which is items, one after another. An item is `add`, a path, a permission and a size, with one space between,
/// and a newline. As many bytes as the size says follow, and a newline. The path is written with escapes, names a file, and rises
/// from item to item by its bytes. The permission is `-`, `x` or `l`, and the size is decimal without leading zeros. Each content
/// is copied once.
///
/// Errors: `Item` with the number of the first item, counted from 1, that isn't one; or `Memory`.
/// FORMATS: Trees
pub fn read_tree(alloc: Global, bytes: &[u8]) -> Result<List<TreeItem>, TreeFault>
    ensures tree { IfOk result (IsTreeText bytes.now) }
    ensures fault { IfErr result (IsTreeFault bytes.now) }
{
    let mut items = List::new(alloc);
    let mut rest = bytes;
    while !rest.is_empty() {
        let Some(behind) = add_front(alloc, &mut items, rest)? else {
            return Err(TreeFault::Item {
                number: items.items().len() as u64 + 1,
            });
        };
        rest = behind;
    }
    Ok(items)
}
