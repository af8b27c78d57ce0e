//! Sorts names, and looks one up among sorted names.
ghost use Rattle.std.specs.Prelude.{◌≡◌};
ghost use Rattle.std.specs.List.Sorted.{IsStrictlySortedBy};
ghost use Rattle.fsl_order.specs.Names.{bytes_cmp, has};
ghost use Rattle.fsl_order.specs.Rows.{ascending};

use super::Name;

/// Sorts names by their bytes, each once. Takes no memory, and time n log n for n names.
pub fn ordered(mut names: Vec<Name>) -> Vec<Name>
    ensures names { result.items ≡ ascending names.items }
    ensures rising { IsStrictlySortedBy bytes_cmp result.items }
{
    names.sort_unstable();
    names.dedup();
    names
}

/// Returns whether a name is among names that rise, each once. Takes no memory, and time log n for n names.
pub fn stands(names: &[Name], name: &Name) -> bool
    requires { IsStrictlySortedBy bytes_cmp names.now }
    ensures { result ≡ has names.now name.now }
{
    names.binary_search(name).is_ok()
}
