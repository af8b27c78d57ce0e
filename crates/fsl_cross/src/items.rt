//! Holds the artifacts of a set, by name.
ghost use Rattle.std.specs.Prelude.{◌≡◌, ◌∷◌, ◌++◌, [], cond, map, OnOk, OnErr, IfOk};
ghost use Rattle.std.specs.Option.{option_copied};
ghost use Rattle.std.specs.Map.Iter.{ShowsInOrder, deref};
ghost use Rattle.std.specs.List.Sorted.{IsStrictlySortedBy};
ghost use Rattle.fsl_order.specs.Names.{bytes_cmp};
ghost use Rattle.fsl_order.specs.Rows.{by_name, named, AreDistinct};
ghost use Rattle.fsl_cross.specs.Tables.{without};
ghost use Rattle.fsl_cross.specs.Marks.{private_at, entry_at};

use super::Item;
use super::held::Held;
use fsl_name::Name;
use fsl_text::{List, Memory};
use std::alloc::Global;
use std::collections::BTreeMap;
use std::collections::btree_map::Values;
use std::marker::Model;

/// Holds artifacts by rising name, one for each name. Contracts see their list.
#[derive(Drop)]
pub struct Items {
    tree: BTreeMap<Name, Held>,
}

impl Model for Items {
    ghost use Rattle.std.specs.Prelude.{List};
    ghost use Rattle.std.specs.Map.{values_of};
    ghost use Rattle.fsl_name.specs.RowsKept.{IsKept};
    ghost use Rattle.fsl_cross.specs.declared.Item.{Item};

    ghost Value = { List Item };

    ghost view = { λ s. values_of s.tree.entries };

    ghost invariant = { λ s. IsKept (λ item. item.name) s.tree.entries };
}

/// Keeps each of some items. `Memory` is the only error.
fn kept(alloc: Global, items: List<Item>) -> Result<Vec<Held>, Memory>
    ensures { IfOk result (λ held. held.items ≡ items) }
{
    let mut held = Vec::new(alloc);
    for item in items.into_vec() {
        held.push(Held::of(alloc, item)?)?;
    }
    Ok(held)
}

/// Puts an item at the end of others, unless it is left out. `Memory` is the only error.
fn append_unless(left_out: bool, others: &mut Vec<Held>, item: &Held) -> Result<(), Memory>
    ensures { OnOk result (others.new.items ≡ others.old.items ++ cond left_out [] (item.now ∷ [])) }
{
    if left_out {
        return Ok(());
    }
    others.push(item.again()?)?;
    Ok(())
}

/// Lets a value go.
fn discard<T: Drop>(_value: T) {}

impl Items {
    /// No artifacts. Takes no memory.
    pub(crate) fn new(alloc: Global) -> Items
        ensures { result ≡ [] }
    {
        Items {
            tree: BTreeMap::new(alloc),
        }
    }

    /// Puts an artifact in; it takes the place of the one of its name, where there is one. `Memory` is the only error, and the set then
    /// has what it had.
    pub(crate) fn put(&mut self, item: Held) -> Result<(), Memory>
        ensures items { OnOk result (self.new ≡ by_name (λ i. i.name) (item ∷ self.old)) }
        ensures rising { OnOk result (IsStrictlySortedBy bytes_cmp (map (λ i. i.name) self.new)) }
        ensures err { OnErr result (self.new ≡ self.old) }
    {
        let old = self.tree.insert(item.name(), item)?;
        discard(old);
        Ok(())
    }

    /// Makes a set of some artifacts, no two of the same name. They are moved. `Memory` is the only error.
    pub fn of(alloc: Global, items: List<Item>) -> Result<Items, Memory>
        requires { AreDistinct (map (λ i. i.name) items) }
        ensures items { IfOk result (λ set. set ≡ by_name (λ i. i.name) items) }
        ensures rising { IfOk result (λ set. IsStrictlySortedBy bytes_cmp (map (λ i. i.name) set)) }
    {
        Items::placed(alloc, kept(alloc, items)?)
    }

    /// Artifacts that are kept, of which no two have one name. `Memory` is the only error.
    fn placed(alloc: Global, items: Vec<Held>) -> Result<Items, Memory>
        requires { AreDistinct (map (λ i. i.name) items.items) }
        ensures items { IfOk result (λ set. set ≡ by_name (λ i. i.name) items.items) }
        ensures rising { IfOk result (λ set. IsStrictlySortedBy bytes_cmp (map (λ i. i.name) set)) }
    {
        let mut left = items;
        let mut set = Items::new(alloc);
        while let Some(item) = left.pop() {
            set.put(item)?;
        }
        Ok(set)
    }

    /// The set without the artifact of a name. The artifacts themselves aren't copied. `Memory` is the only error.
    pub(crate) fn without(&self, alloc: Global, name: Name) -> Result<Items, Memory>
        ensures items { IfOk result (λ set. set ≡ without name self.now) }
        ensures rising { IfOk result (λ set. IsStrictlySortedBy bytes_cmp (map (λ i. i.name) set)) }
    {
        let mut others = Vec::new(alloc);
        for item in self.iter() {
            append_unless(item.name() == name, &mut others, item)?;
        }
        Items::placed(alloc, others)
    }

    /// The artifacts by rising name.
    pub(crate) fn iter(&self) -> Values<'_, Name, Held>
        ensures rest { result ≡ self.now }
        ensures runs { ShowsInOrder (deref {X = Held}) }
        ensures rising { IsStrictlySortedBy bytes_cmp (map (λ i. i.name) self.now) }
    {
        self.tree.values()
    }

    /// The artifact of a name. None where the set doesn't have it.
    pub(crate) fn get(&self, name: Name) -> Option<&Held>
        ensures { option_copied result ≡ named (λ i. i.name) self.now name }
    {
        self.tree.get(&name)
    }

    /// Takes the artifact of a name out, where there is one. Takes no memory.
    pub(crate) fn take(&mut self, name: Name)
        ensures { self.new ≡ without name self.old }
    {
        let old = self.tree.remove(&name);
        discard(old);
    }

    /// Makes the artifact of a name private, or public, where there is one. Takes no memory.
    pub(crate) fn set_private(&mut self, name: Name, private: bool)
        ensures { self.new ≡ map (private_at name private) self.old }
    {
        mark(&mut self.tree, name, private);
    }
}

/// Makes the artifact of a name private, or public, where there is one.
fn mark(tree: &mut BTreeMap<Name, Held>, name: Name, private: bool)
    ensures { tree.new.entries ≡ map (entry_at name private) tree.old.entries }
{
    if let Some(item) = tree.get_mut(&name) {
        item.set_private(private);
    }
}
