//! Holds the rows, and finds them by name.
ghost use Rattle.std.specs.Prelude.{◌≡◌, ◌∷◌, [], map, IfOk, OnOk, OnErr};
ghost use Rattle.std.specs.Prelude.{length, ◌<◌, ◌^◌};
ghost use Rattle.std.specs.Option.{option_copied};
ghost use Rattle.std.specs.Map.Iter.{ShowsInOrder, deref};
ghost use Rattle.std.specs.List.Sorted.{IsStrictlySortedBy};
ghost use Rattle.fsl_order.specs.Names.{bytes_cmp};
ghost use Rattle.fsl_order.specs.Rows.{by_name, named, AreDistinct};

use super::{Name, Named};
use fsl_text::{List, Memory};
use std::alloc::Global;
use std::collections::BTreeMap;
use std::collections::btree_map::Values;
use std::marker::Model;

/// Rows by rising name, one for each name. Contracts see their list. A look-up, or putting a row in, takes time logarithmic in
/// their number.
#[derive(Drop)]
pub struct Rows<F: Named> {
    tree: BTreeMap<Name, F>,
}

impl<F: Named> Model for Rows<F> {
    ghost use Rattle.std.specs.Prelude.{List};
    ghost use Rattle.std.specs.Map.{values_of};
    ghost use Rattle.fsl_name.specs.RowsKept.{IsKept};

    ghost Value = { List F };

    ghost view = { λ r. values_of r.tree.entries };

    ghost invariant = { λ r. IsKept F.name r.tree.entries };
}

impl<F: Named> Rows<F> {
    /// Returns no rows. Takes no memory.
    pub fn new(alloc: Global) -> Rows<F>
        ensures { result ≡ [] }
    {
        Rows {
            tree: BTreeMap::new(alloc),
        }
    }

    /// Takes rows, of which no two have one name, and sorts them by rising name. The rows are moved. Their order doesn't change
    /// the result, which is the law `fsl_order::by_name_in_any_order`. `Memory` is the only error.
    pub fn of(alloc: Global, rows: List<F>) -> Result<Rows<F>, Memory>
    where
        F: Drop,
        requires { AreDistinct (map F.name rows) }
        ensures { IfOk result (λ built. built ≡ by_name F.name rows) }
    {
        let mut left = rows.into_vec();
        let mut built = Rows::new(alloc);
        while let Some(row) = left.pop() {
            built.put(row)?;
        }
        Ok(built)
    }

    /// Copies rows, of which no two have one name, and sorts the copies by rising name. The rows' order doesn't change the
    /// result, which is the law `fsl_order::by_name_in_any_order`. `Memory` is the only error.
    pub fn build(alloc: Global, rows: &[F]) -> Result<Rows<F>, Memory>
    where
        F: Drop,
        requires { AreDistinct (map F.name rows.now) }
        ensures { IfOk result (λ built. built ≡ by_name F.name rows.now) }
    {
        let mut built = Rows::new(alloc);
        let mut left = rows.len();
        while left > 0 {
            left -= 1;
            built.put(rows[left].copied(alloc)?)?;
        }
        Ok(built)
    }

    /// Puts a row in. It replaces the row of its name, if there is one. `Memory` is the only error, and the rows then stay as
    /// they are.
    pub fn put(&mut self, row: F) -> Result<(), Memory>
    where
        F: Drop,
        ensures ok { OnOk result (self.new ≡ by_name F.name (row ∷ self.old)) }
        ensures err { OnErr result (self.new ≡ self.old) }
    {
        let name = row.name();
        match self.tree.insert(name, row) {
            Ok(_) => Ok(()),
            Err(_) => Err(Memory),
        }
    }

    /// Iterates over the rows by rising name. There are fewer than 2^63 of them.
    pub fn iter(&self) -> Values<'_, Name, F>
        ensures rest { result ≡ self.now }
        ensures runs { ShowsInOrder (deref {X = F}) }
        ensures fits { length self.now < 2 ^ 63 }
        ensures rising { IsStrictlySortedBy bytes_cmp (map F.name self.now) }
    {
        self.tree.values()
    }

    /// Returns the row of a name, or `None` if no row has it.
    pub fn get(&self, name: Name) -> Option<&F>
        ensures { option_copied result ≡ named F.name self.now name }
    {
        self.tree.get(&name)
    }
}
