//! A tracked map knows its way back to where a change began.
ghost use Rattle.std.specs.Prelude.{◌≡◌, ◌+◌, ◌≤◌, ◌&&◌, ◌||◌, not, length, [], None, OnOk, OnErr, IfOk, is_some};
ghost use Rattle.std.specs.List.Sorted.{IsStrictlySortedBy};
ghost use Rattle.std.specs.Map.{keys_of};
ghost use Rattle.std.specs.Option.{option_and_then, option_copied};
ghost use Rattle.fsl_table.specs.Contents.{entries_after, first_of, value_at, with_entry, without_key};
ghost use Rattle.fsl_table.specs.Exact.{pair_cmp};
ghost use Rattle.fsl_table.specs.Pairs.{is_link, is_link_of, is_linked, second_of, seconds as seconds_of};
ghost use Rattle.fsl_table.specs.Undo.{IsAsGood};
ghost use Rattle.fsl_table.specs.declared.key.Pair as pair;

use crate::key::{Key, Pair};
use crate::log::Log;
use crate::table::Table;
use crate::{log, pairs};
use fsl_name::Name;
use fsl_text::{List, Memory, Steps};
use std::alloc::Global;
use std::marker::Model;
use std::mem;
use std::snapshot::Snapshot;
use std::sync::ledger::Ledger;

/// A way leads a map back from its contents after a change to its contents before. Contracts see both, and the number of steps.
#[derive(Drop)]
pub struct Way<K: Key, V> {
    log: Log<K, V>,
    held: Snapshot<Table<K, V>>,
    was: Snapshot<Table<K, V>>,
}

impl<K: Key, V> Model for Way<K, V> {
    ghost use Rattle.std.specs.Prelude.{length};
    ghost use Rattle.fsl_table.specs.Tracked.{Course};
    ghost use Rattle.fsl_table.specs.Undo.{Undoes};

    ghost Value = { Course K V };

    ghost view = { λ w. record { held = w.held.value; was = w.was.value; back = length w.log } };

    ghost invariant = { λ w. Undoes K.cmp w.log w.held.value w.was.value };
}

/// A tracked map keeps the way back to where its change began. Contracts see what it holds, what it held then, and how many
/// steps lead back.
#[derive(Drop)]
pub struct Tracked<K: Key, V> {
    map: Table<K, V>,
    log: Log<K, V>,
    was: Snapshot<Table<K, V>>,
}

impl<K: Key, V> Model for Tracked<K, V> {
    ghost use Rattle.std.specs.Prelude.{length};
    ghost use Rattle.fsl_table.specs.Tracked.{Course};
    ghost use Rattle.fsl_table.specs.Undo.{Undoes};

    ghost Value = { Course K V };

    ghost view = { λ t. record { held = t.map; was = t.was.value; back = length t.log } };

    ghost invariant = { λ t. Undoes K.cmp t.log t.map t.was.value };
}

impl<K: Key + Drop, V: Drop> Tracked<K, V> {
    /// Makes a map without a pair. It takes no memory.
    pub fn new(alloc: Global) -> Tracked<K, V>
        ensures empty { result.held.entries ≡ [] }
        ensures begun { (result.was ≡ result.held) × (result.back ≡ 0) }
    {
        let map = Table::new(alloc);
        let was = Snapshot::of(&map);
        Tracked {
            map,
            log: Log::new(alloc),
            was,
        }
    }

    /// Tracks a map that was filled without a way back. It takes no memory.
    pub fn of(alloc: Global, map: Table<K, V>) -> Tracked<K, V>
        ensures held { result.held ≡ map }
        ensures begun { (result.was ≡ result.held) × (result.back ≡ 0) }
    {
        let was = Snapshot::of(&map);
        Tracked {
            map,
            log: Log::new(alloc),
            was,
        }
    }

    /// Gives the map.
    pub fn map(&self) -> &Table<K, V>
        ensures { result.now ≡ self.now.held }
    {
        &self.map
    }

    /// Gives the value at a key, or `None` where the key isn't there.
    pub fn get<L: Ledger>(&self, key: &K, steps: &mut Steps<L>) -> Option<&V>
        ensures value { option_copied result ≡ value_at K.cmp key.now self.now.held.entries }
        ensures cost { steps.new ≡ steps.old + 1 }
    {
        self.map.get(key, steps)
    }

    /// Begins a change: from now on the way back ends here.
    pub fn begin(&mut self)
        ensures held { self.new.held ≡ self.old.held }
        ensures was { self.new.was ≡ self.old.held }
        ensures back { self.new.back ≡ 0 }
    {
        self.log.clear();
        self.was = Snapshot::of(&self.map);
    }

    /// Puts a value, and tells whether the key was there. `Memory` is the only error, and nothing changes then.
    pub fn insert<L: Ledger>(
        &mut self,
        key: K,
        again: K,
        value: V,
        steps: &mut Steps<L>,
    ) -> Result<bool, Memory>
        requires { again ≡ key }
        ensures there { IfOk result (λ there. there ≡ is_some (value_at K.cmp key self.old.held.entries)) }
        ensures ok { OnOk result (self.new.held.entries ≡ with_entry K.cmp key value self.old.held.entries) }
        ensures err { OnErr result (self.new ≡ self.old) }
        ensures was { self.new.was ≡ self.old.was }
        ensures back { self.new.back ≤ self.old.back + 1 }
        ensures cost { steps.new ≤ steps.old + 1 }
    {
        log::insert(&mut self.map, &mut self.log, key, again, value, steps)
    }

    /// Puts a value at a key. `Memory` is the only error, and nothing changes then.
    pub fn put<L: Ledger>(
        &mut self,
        key: K,
        again: K,
        value: V,
        steps: &mut Steps<L>,
    ) -> Result<(), Memory>
        requires { again ≡ key }
        ensures ok { OnOk result (self.new.held.entries ≡ with_entry K.cmp key value self.old.held.entries) }
        ensures err { OnErr result (self.new ≡ self.old) }
        ensures was { self.new.was ≡ self.old.was }
        ensures back { self.new.back ≤ self.old.back + 1 }
        ensures cost { steps.new ≤ steps.old + 1 }
    {
        log::put(&mut self.map, &mut self.log, key, again, value, steps)
    }

    /// Takes a key out, and tells whether it was there. `Memory` is the only error, and nothing changes then.
    pub fn take<L: Ledger>(&mut self, key: K, steps: &mut Steps<L>) -> Result<bool, Memory>
        ensures there { IfOk result (λ there. there ≡ is_some (value_at K.cmp key self.old.held.entries)) }
        ensures ok { OnOk result (self.new.held.entries ≡ without_key K.cmp key self.old.held.entries) }
        ensures err { OnErr result (self.new ≡ self.old) }
        ensures was { self.new.was ≡ self.old.was }
        ensures back { self.new.back ≤ self.old.back + 1 }
        ensures cost { steps.new ≤ steps.old + 1 }
    {
        log::take(&mut self.map, &mut self.log, key, steps)
    }

    /// Removes a key. `Memory` is the only error, and nothing changes then.
    pub fn remove<L: Ledger>(&mut self, key: K, steps: &mut Steps<L>) -> Result<(), Memory>
        ensures ok { OnOk result (self.new.held.entries ≡ without_key K.cmp key self.old.held.entries) }
        ensures err { OnErr result (self.new ≡ self.old) }
        ensures was { self.new.was ≡ self.old.was }
        ensures back { self.new.back ≤ self.old.back + 1 }
        ensures cost { steps.new ≤ steps.old + 1 }
    {
        log::remove(&mut self.map, &mut self.log, key, steps)
    }

    /// Goes back to where the change began. It takes no memory.
    pub fn turn_back<L: Ledger>(&mut self, steps: &mut Steps<L>)
        ensures good { IsAsGood self.old.was self.new.held }
        ensures was { self.new.was ≡ self.old.was }
        ensures back { self.new.back ≡ 0 }
        ensures cost { steps.new ≡ steps.old + self.old.back }
    {
        log::unwind(&mut self.map, &mut self.log, steps);
    }

    /// Hands out the way back, and begins the next change. It takes no memory.
    pub fn way(&mut self, alloc: Global) -> Way<K, V>
        ensures end { result.held ≡ self.old.held }
        ensures start { result.was ≡ self.old.was }
        ensures back { result.back ≡ self.old.back }
        ensures held { self.new.held ≡ self.old.held }
        ensures begun { (self.new.was ≡ self.old.held) × (self.new.back ≡ 0) }
    {
        let log = mem::replace(&mut self.log, Log::new(alloc));
        let was = mem::replace(&mut self.was, Snapshot::of(&self.map));
        let held = Snapshot::of(&self.map);
        Way { log, held, was }
    }

    /// Goes a way back, from a map that is as good as the end of the way. It takes no memory.
    pub fn undo<L: Ledger>(&mut self, way: Way<K, V>, steps: &mut Steps<L>)
        requires { IsAsGood way.held self.old.held }
        ensures good { IsAsGood way.was self.new.held }
        ensures begun { (self.new.was ≡ way.was) × (self.new.back ≡ 0) }
        ensures cost { steps.new ≡ steps.old + way.back }
    {
        let Way { log, was, .. } = way;
        self.log = log;
        self.was = was;
        self.turn_back(steps);
    }
}

impl Tracked<Pair, ()> {
    /// Gives the least name that belongs to a name, or the least of them above another. `None` says that there is none.
    pub fn second_after<L: Ledger>(
        &self,
        first: Name,
        after: Option<Name>,
        steps: &mut Steps<L>,
    ) -> Option<Name>
        ensures next { result ≡ option_and_then (second_of first) (first_of (entries_after pair_cmp (record { first = first; second = after }) self.now.held.entries)) }
        ensures cost { steps.new ≡ steps.old + 1 }
    {
        pairs::second_after(&self.map, first, after, steps)
    }

    /// Lists the names that belong to a name, ascending. `Memory` is the only error.
    pub fn seconds<L: Ledger>(
        &self,
        alloc: Global,
        first: Name,
        steps: &mut Steps<L>,
    ) -> Result<List<Name>, Memory>
        requires { IsStrictlySortedBy pair_cmp (keys_of self.now.held.entries) }
        ensures seconds { IfOk result (λ list. list ≡ seconds_of first self.now.held.entries) }
        ensures cost { steps.new ≤ steps.old + (1 + length (seconds_of first self.now.held.entries)) }
    {
        pairs::seconds(alloc, &self.map, first, steps)
    }

    /// Puts the pair of a name and of the one to which it belongs, where it belongs to one. `Memory` is the only error, and
    /// nothing changes then.
    pub fn link<L: Ledger>(
        &mut self,
        second: Name,
        first: Option<Name>,
        steps: &mut Steps<L>,
    ) -> Result<(), Memory>
        requires { IsStrictlySortedBy pair_cmp (keys_of self.old.held.entries) }
        ensures ordered { OnOk result (IsStrictlySortedBy pair_cmp (keys_of self.new.held.entries)) }
        ensures pairs { OnOk result ((k : pair.Pair) → is_linked self.new.held.entries k ≡ (is_link second first k || is_linked self.old.held.entries k)) }
        ensures err { OnErr result (self.new ≡ self.old) }
        ensures was { self.new.was ≡ self.old.was }
        ensures back { self.new.back ≤ self.old.back + 1 }
        ensures most { steps.new ≤ steps.old + 1 }
    {
        pairs::link(&mut self.map, &mut self.log, second, first, steps)
    }

    /// Takes out the pair of a name and of the one to which it belongs, where it belongs to one. `Memory` is the only error,
    /// and nothing changes then.
    pub fn unlink<L: Ledger>(
        &mut self,
        second: Name,
        first: Option<Name>,
        steps: &mut Steps<L>,
    ) -> Result<(), Memory>
        requires { IsStrictlySortedBy pair_cmp (keys_of self.old.held.entries) }
        ensures ordered { OnOk result (IsStrictlySortedBy pair_cmp (keys_of self.new.held.entries)) }
        ensures pairs { OnOk result ((k : pair.Pair) → is_linked self.new.held.entries k ≡ (not (is_link second first k) && is_linked self.old.held.entries k)) }
        ensures err { OnErr result (self.new ≡ self.old) }
        ensures was { self.new.was ≡ self.old.was }
        ensures none { first ≡ None → steps.new ≡ steps.old }
        ensures none_back { first ≡ None → self.new.back ≡ self.old.back }
        ensures back { self.new.back ≤ self.old.back + 1 }
        ensures most { steps.new ≤ steps.old + 1 }
    {
        pairs::unlink(&mut self.map, &mut self.log, second, first, steps)
    }

    /// Puts the pairs of a name and of each of those to which it belongs. `Memory` is the only error, and some may be put then.
    pub fn link_each<L: Ledger>(
        &mut self,
        second: Name,
        heads: &[Name],
        steps: &mut Steps<L>,
    ) -> Result<(), Memory>
        ensures pairs { OnOk result ((k : pair.Pair) → is_linked self.new.held.entries k ≡ (is_linked self.old.held.entries k || is_link_of second heads.now k)) }
        ensures ordered { OnOk result (IsStrictlySortedBy pair_cmp (keys_of self.old.held.entries) → IsStrictlySortedBy pair_cmp (keys_of self.new.held.entries)) }
        ensures was { self.new.was ≡ self.old.was }
        ensures back { self.new.back ≤ self.old.back + length heads.now }
        ensures most { steps.new ≤ steps.old + length heads.now }
    {
        pairs::link_each(&mut self.map, &mut self.log, second, heads, steps)
    }

    /// Takes out the pairs of a name and of each of those to which it belongs. `Memory` is the only error, and some may be
    /// out then.
    pub fn unlink_each<L: Ledger>(
        &mut self,
        second: Name,
        heads: &[Name],
        steps: &mut Steps<L>,
    ) -> Result<(), Memory>
        requires { IsStrictlySortedBy pair_cmp (keys_of self.old.held.entries) }
        ensures pairs { OnOk result ((k : pair.Pair) → is_linked self.new.held.entries k ≡ (not (is_link_of second heads.now k) && is_linked self.old.held.entries k)) }
        ensures ordered { OnOk result (IsStrictlySortedBy pair_cmp (keys_of self.new.held.entries)) }
        ensures was { self.new.was ≡ self.old.was }
        ensures back { self.new.back ≤ self.old.back + length heads.now }
        ensures most { steps.new ≤ steps.old + length heads.now }
    {
        pairs::unlink_each(&mut self.map, &mut self.log, second, heads, steps)
    }
}
