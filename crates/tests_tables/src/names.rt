//! Names of one letter each.
ghost use Rattle.std.specs.Prelude.{◌∷◌, [], IsTrue};
ghost use Rattle.fsl_order.specs.Rows.{AreDistinct};

use fsl_name::Name;
use fsl_text::{List, Memory};
use std::alloc::Global;

pub fn letter(byte: u8) -> Name {
    Name::of(&[byte])
}

pub fn names_of(alloc: Global, letters: &[u8]) -> Result<List<Name>, Memory> {
    let mut names = Vec::new(alloc);
    for byte in letters {
        names.push(letter(*byte))?;
    }
    Ok(List::from_vec(names))
}

/// Whether two names differ.
pub fn are_distinct(first: Name, second: Name) -> bool
    ensures { IsTrue result → AreDistinct (first ∷ second ∷ []) }
{
    first != second
}
