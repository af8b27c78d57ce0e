//! A table is an ordered map. Contracts see its entries in the order of their keys.
ghost use Rattle.std.specs.Prelude.{◌≡◌, ◌+◌, ◌-◌, ◌<◌, ◌≤◌, [], length, IsSome, IfOk, IfErr, OnOk, OnErr, IfSome, IfNone, None};
ghost use Rattle.std.specs.Option.{option_map, option_copied};
ghost use Rattle.std.specs.List.Sorted.{IsStrictlySortedBy};
ghost use Rattle.std.specs.Map.{keys_of};
ghost use Rattle.fsl_table.specs.Contents.{value_at, with_entry, without_key, entries_after, first_of};

use crate::waiting::{lower_of, place_of, put_entry, settle_last, take_at};
use fsl_text::Steps;
use std::alloc::Global;
use std::collections::BTreeMap;
use std::marker::Model;
use std::ops::Bound;
use std::sync::ledger::Ledger;

/// A table is an ordered map. An entry for which the tree finds no memory waits beside it, where there is always room.
#[derive(Drop)]
pub struct Table<K: Ord, V> {
    tree: BTreeMap<K, V>,
    waiting: Vec<(K, V)>,
}

impl<K: Ord, V> Model for Table<K, V> {
    ghost use Rattle.std.specs.Prelude.{◌+◌, ◌-◌, length, vec_capacity};
    ghost use Rattle.fsl_table.specs.Contents.{Contents};
    ghost use Rattle.fsl_table.specs.Weave.{weave};
    ghost use Rattle.fsl_table.specs.Kept.{IsKept};

    ghost Value = { Contents K V };

    ghost view = { λ t. record { entries = weave K.cmp t.waiting.items t.tree.entries; spare = vec_capacity t.waiting - (length t.tree.entries + length t.waiting.items) } };

    ghost invariant = { λ t. IsKept K.cmp (vec_capacity t.waiting) t.waiting.items t.tree.entries };
}

/// The entry of the tree with the least key above this one.
fn first_above<'a, K: Ord, V>(tree: &'a BTreeMap<K, V>, key: &K) -> Option<(&'a K, &'a V)>
    ensures { option_map (λ p. (p.0.now, p.1.now)) result ≡ first_of (entries_after K.cmp key.now tree.now.entries) }
{
    tree.range((Bound::Excluded(key), Bound::Unbounded)).next()
}

impl<K: Ord, V> Table<K, V> {
    /// Makes a table without a pair. It takes no memory until one is put.
    pub fn new(alloc: Global) -> Table<K, V>
        ensures { result.entries ≡ [] }
    {
        Table {
            tree: BTreeMap::new(alloc),
            waiting: Vec::new(alloc),
        }
    }

    /// Counts the pairs.
    pub fn len(&self) -> u64
        ensures len { result ≡ length self.now.entries }
        ensures ordered { IsStrictlySortedBy K.cmp (keys_of self.now.entries) }
    {
        (self.tree.len() + self.waiting.len()) as u64
    }

    /// Gives the value at a key, or `None` where the key isn't there. One step.
    pub fn get<L: Ledger>(&self, key: &K, steps: &mut Steps<L>) -> Option<&V>
        ensures value { option_copied result ≡ value_at K.cmp key.now self.now.entries }
        ensures cost { steps.new ≡ steps.old + 1 }
    {
        steps.tick();
        match place_of(&self.waiting, key) {
            Some(at) => Some(&self.waiting[at].1),
            None => self.tree.get(key),
        }
    }

    /// Puts a value at a key, and gives the one that was there. One step. The only error is that memory is out: the pair then
    /// comes back, and the table stays as it was. That never happens at a key that is there, nor where anything is spare.
    pub fn put<L: Ledger>(
        &mut self,
        key: K,
        value: V,
        steps: &mut Steps<L>,
    ) -> Result<Option<V>, (K, V)>
    where
        K: Drop,
        V: Drop,
        ensures before { IfOk result (λ before. before ≡ value_at K.cmp key self.old.entries) }
        ensures ok { OnOk result (self.new.entries ≡ with_entry K.cmp key value self.old.entries) }
        ensures spare_of_new { IfOk result (λ before. IfNone before (self.old.spare ≤ self.new.spare + 1)) }
        ensures spare_of_old { IfOk result (λ before. IfSome before (λ _. self.new.spare ≡ self.old.spare)) }
        ensures back { IfErr result (λ pair. pair ≡ (key, value)) }
        ensures unchanged { OnErr result (self.new ≡ self.old) }
        ensures none_spare { OnErr result (self.old.spare ≡ 0) }
        ensures absent { OnErr result (value_at K.cmp key self.old.entries ≡ None) }
        ensures was_ordered { IsStrictlySortedBy K.cmp (keys_of self.old.entries) }
        ensures cost { steps.new ≡ steps.old + 1 }
    {
        steps.tick();
        settle_last(&mut self.tree, &mut self.waiting);
        put_entry(&mut self.tree, &mut self.waiting, key, value)
    }

    /// Takes a key out, and gives its value, or `None` where the key isn't there. One step; takes no memory, and leaves one
    /// more pair spare.
    pub fn remove<L: Ledger>(&mut self, key: &K, steps: &mut Steps<L>) -> Option<V>
    where
        K: Drop,
        ensures value { result ≡ value_at K.cmp key.now self.old.entries }
        ensures entries { self.new.entries ≡ without_key K.cmp key.now self.old.entries }
        ensures spare { IfSome result (λ _. self.new.spare ≡ self.old.spare + 1) }
        ensures unchanged { IfNone result (self.new ≡ self.old) }
        ensures was_ordered { IsStrictlySortedBy K.cmp (keys_of self.old.entries) }
        ensures cost { steps.new ≡ steps.old + 1 }
    {
        steps.tick();
        match place_of(&self.waiting, key) {
            Some(at) => Some(take_at(&mut self.waiting, at)),
            None => self.tree.remove(key),
        }
    }

    /// Gives the pair with the least key, or `None` of an empty table. One step.
    pub fn first<L: Ledger>(&self, steps: &mut Steps<L>) -> Option<(&K, &V)>
        ensures entry { option_map (λ p. (p.0.now, p.1.now)) result ≡ first_of self.now.entries }
        ensures cost { steps.new ≡ steps.old + 1 }
    {
        steps.tick();
        let mut best = self.tree.first_key_value();
        let mut at = self.waiting.len();
        while at > 0 {
            at -= 1;
            best = lower_of(&self.waiting[at], best);
        }
        best
    }

    /// Gives the pair with the least key above this one, whether or not this one is there. One step.
    pub fn next_after<L: Ledger>(&self, key: &K, steps: &mut Steps<L>) -> Option<(&K, &V)>
        ensures entry { option_map (λ p. (p.0.now, p.1.now)) result ≡ first_of (entries_after K.cmp key.now self.now.entries) }
        ensures cost { steps.new ≡ steps.old + 1 }
    {
        steps.tick();
        let mut best = first_above(&self.tree, key);
        let mut at = self.waiting.len();
        while at > 0 {
            at -= 1;
            let entry = &self.waiting[at];
            if key.cmp(&entry.0).is_lt() {
                best = lower_of(entry, best);
            }
        }
        best
    }
}
