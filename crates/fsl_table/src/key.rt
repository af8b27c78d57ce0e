//! A key's order tells it apart from all others.
ghost use Rattle.std.specs.Prelude.{◌≡◌};
ghost use Rattle.std.specs.declared.cmp.Ordering.TheVariants.{Equal};
ghost use Rattle.std.proofs.lemmas.Map.Lookups.{exact_bytes};
ghost use Rattle.fsl_table.specs.Exact.{exact_pair};

use fsl_name::Name;
use fsl_text::Text;

/// A key has an order that holds no two keys for equal.
pub trait Key: Ord {
    ghost exact: { (x y : Self) → Self.cmp x y ≡ Equal → x ≡ y };
}

impl Key for Name {
    ghost exact = { exact_bytes };
}

impl Key for Text {
    ghost exact = { exact_bytes };
}

/// A pair holds a name, and one that belongs to it. A walk through the names that belong to a name begins at the name with none.
#[derive(Clone, Copy, PartialEq, Eq, PartialOrd, Ord)]
pub struct Pair {
    pub first: Name,
    pub second: Option<Name>,
}

impl Key for Pair {
    ghost exact = { exact_pair };
}
