//! Writes a tree as its text.
ghost use Rattle.std.specs.Prelude.{◌≡◌, ◌++◌, IfOk, OnOk, flat_map};
ghost use Rattle.fsl_text.specs.Escapes.{escape};
ghost use Rattle.fsl_checkin.specs.Trees.{item_text, perm_text, tree_text};

use crate::{Perm, TreeItem};
use fsl_text::{List, Memory, Text, escape_into};
use itoa::Buffer;
use std::alloc::Global;

/// The letter of a permission.
fn perm_letter(perm: Perm) -> &'static [u8]
    ensures { result.now ≡ perm_text perm }
{
    match perm {
        Perm::Plain => b"-",
        Perm::Exec => b"x",
        Perm::Symlink => b"l",
    }
}

/// Puts an item at the end of a text.
fn append_item(into: &mut Text, item: &TreeItem) -> Result<(), Memory>
    ensures { OnOk result (into.new ≡ into.old ++ item_text (escape item.now.path) item.now) }
{
    into.append(b"add ")?;
    escape_into(into, item.path.bytes())?;
    into.append(b" ")?;
    into.append(perm_letter(item.perm))?;
    into.append(b" ")?;
    into.append(Buffer::new().format(item.bytes.bytes().len()).as_bytes())?;
    into.append(b"\n")?;
    into.append(item.bytes.bytes())?;
    into.append(b"\n")
}

/// Puts items at the end of a text.
fn append_items(into: &mut Text, items: &[TreeItem]) -> Result<(), Memory>
    ensures { OnOk result (into.new ≡ into.old ++ flat_map (λ item. item_text (escape item.path) item) items.now) }
{
    for item in items {
        append_item(into, item)?;
    }
    Ok(())
}

/// Writes the text of a tree. `read_tree` reads it again where the paths are good and rise. Each item is as `read_tree` says, and
/// its path has only the escapes that it needs. `Memory` is the only error.
/// FORMATS: Trees
pub fn tree_text(alloc: Global, items: &List<TreeItem>) -> Result<Text, Memory>
    ensures { IfOk result (λ text. text ≡ tree_text items.now) }
{
    let mut text = Text::empty(alloc);
    append_items(&mut text, items.items())?;
    Ok(text)
}
