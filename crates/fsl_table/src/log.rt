//! A log has the steps that take a table back, the last one first.
ghost use Rattle.std.specs.Prelude.{◌≡◌, ◌+◌, ◌≤◌, length, [], ◌∷◌, ◌++◌, is_some, IfOk, OnOk, OnErr, MatchOption};
ghost use Rattle.fsl_table.specs.Contents.{Contents, value_at, with_entry, without_key};
ghost use Rattle.fsl_table.specs.Undo.{stepped, undone, IsAllowed, IsAsGood, CanUndo, Undoes};
ghost use Rattle.fsl_table.specs.declared.step.Step.TheVariants as step_type;

use crate::key::Key;
use crate::step::Step;
use crate::table::Table;
use fsl_text::{Memory, Steps};
use std::alloc::Global;
use std::marker::Model;
use std::sync::ledger::Ledger;

/// A log keeps the steps that take a table back.
#[derive(Drop)]
pub struct Log<K, V> {
    steps: Vec<Step<K, V>>,
}

impl<K, V> Model for Log<K, V> {
    ghost use Rattle.std.specs.Prelude.{List};
    ghost use Rattle.fsl_table.specs.declared.step.Step as step;

    ghost Value = { List (step.Step K V) };

    ghost view = { λ l. l.steps.items };
}

impl<K, V> Log<K, V> {
    /// Makes a log of no step. It takes no memory until one is logged.
    pub fn new(alloc: Global) -> Log<K, V>
        ensures { result ≡ [] }
    {
        Log {
            steps: Vec::new(alloc),
        }
    }

    fn pop(&mut self) -> Option<Step<K, V>>
        ensures { MatchOption result ((self.old ≡ []) × (self.new ≡ [])) (λ step. self.old ≡ self.new ++ step ∷ []) }
    {
        self.steps.pop()
    }

    /// Forgets all steps.
    pub(crate) fn clear(&mut self)
    where
        K: Drop,
        V: Drop,
        ensures { self.new ≡ [] }
    {
        self.steps.clear();
    }
}

/// Does one step. It finds its memory.
fn step_back<K: Key + Drop, V: Drop, L: Ledger>(
    table: &mut Table<K, V>,
    step: Step<K, V>,
    steps: &mut Steps<L>,
)
    requires { IsAllowed K.cmp step table.old }
    ensures good { IsAsGood (stepped K.cmp step table.old) table.new }
    ensures cost { steps.new ≡ steps.old + 1 }
{
    match step {
        Step::Put(key, value) => {
            drop(table.put(key, value, steps));
        }
        Step::Remove(key) => {
            drop(table.remove(&key, steps));
            drop(key);
        }
    }
}

/// Takes the table back by all steps of a log, and empties the log. It takes no memory.
pub(crate) fn unwind<K: Key + Drop, V: Drop, L: Ledger>(
    table: &mut Table<K, V>,
    log: &mut Log<K, V>,
    steps: &mut Steps<L>,
)
    requires { CanUndo K.cmp log.old table.old }
    ensures good { IsAsGood (undone K.cmp log.old table.old) table.new }
    ensures empty { log.new ≡ [] }
    ensures cost { steps.new ≡ steps.old + length log.old }
{
    while let Some(step) = log.pop() {
        step_back(table, step, steps);
    }
}

/// Takes the table back by all steps of a log. It takes no memory.
pub fn undo<K: Key + Drop, V: Drop, L: Ledger>(
    table: &mut Table<K, V>,
    log: Log<K, V>,
    steps: &mut Steps<L>,
)
    requires { CanUndo K.cmp log table.old }
    ensures good { IsAsGood (undone K.cmp log table.old) table.new }
    ensures cost { steps.new ≡ steps.old + length log }
{
    let mut left = log;
    unwind(table, &mut left, steps);
}

/// Makes the step that takes a put back, from the value that was at its key.
fn step_before<K, V: Drop>(key: K, before: Option<V>) -> Step<K, V>
    ensures { MatchOption before (result ≡ step_type.Remove key) (λ value. result ≡ step_type.Put key value) }
{
    match before {
        None => Step::Remove(key),
        Some(value) => Step::Put(key, value),
    }
}

/// Puts a value, logs what takes it back, and tells whether the key was there. `Memory` is the only error, and nothing
/// changes then.
pub fn insert<K: Key + Drop, V: Drop, L: Ledger>(
    table: &mut Table<K, V>,
    log: &mut Log<K, V>,
    key: K,
    again: K,
    value: V,
    steps: &mut Steps<L>,
) -> Result<bool, Memory>
    requires { again ≡ key }
    ensures there { IfOk result (λ there. there ≡ is_some (value_at K.cmp key table.old.entries)) }
    ensures logged { length log.new ≤ length log.old + 1 }
    ensures ok { OnOk result (table.new.entries ≡ with_entry K.cmp key value table.old.entries) }
    ensures err { OnErr result (table.new ≡ table.old) }
    ensures kept { OnErr result (log.new ≡ log.old) }
    ensures undoes { (before : Contents K V) → Undoes K.cmp log.old table.old before → Undoes K.cmp log.new table.new before }
    ensures cost { steps.new ≤ steps.old + 1 }
{
    if log.steps.reserve(1).is_err() {
        return Err(Memory);
    }
    match table.put(key, value, steps) {
        Ok(before) => {
            let there = before.is_some();
            log.steps.push_reserved(step_before(again, before));
            Ok(there)
        }
        Err(_) => Err(Memory),
    }
}

/// Puts a value, and logs what takes it back. `Memory` is the only error, and nothing changes then.
pub fn put<K: Key + Drop, V: Drop, L: Ledger>(
    table: &mut Table<K, V>,
    log: &mut Log<K, V>,
    key: K,
    again: K,
    value: V,
    steps: &mut Steps<L>,
) -> Result<(), Memory>
    requires { again ≡ key }
    ensures logged { length log.new ≤ length log.old + 1 }
    ensures ok { OnOk result (table.new.entries ≡ with_entry K.cmp key value table.old.entries) }
    ensures err { OnErr result (table.new ≡ table.old) }
    ensures kept { OnErr result (log.new ≡ log.old) }
    ensures undoes { (before : Contents K V) → Undoes K.cmp log.old table.old before → Undoes K.cmp log.new table.new before }
    ensures cost { steps.new ≤ steps.old + 1 }
{
    insert(table, log, key, again, value, steps)?;
    Ok(())
}

/// Takes a key out, logs what takes that back, and tells whether the key was there. `Memory` is the only error, and nothing
/// changes then.
pub fn take<K: Key + Drop, V: Drop, L: Ledger>(
    table: &mut Table<K, V>,
    log: &mut Log<K, V>,
    key: K,
    steps: &mut Steps<L>,
) -> Result<bool, Memory>
    ensures there { IfOk result (λ there. there ≡ is_some (value_at K.cmp key table.old.entries)) }
    ensures logged { length log.new ≤ length log.old + 1 }
    ensures ok { OnOk result (table.new.entries ≡ without_key K.cmp key table.old.entries) }
    ensures err { OnErr result (table.new ≡ table.old) }
    ensures kept { OnErr result (log.new ≡ log.old) }
    ensures undoes { (before : Contents K V) → Undoes K.cmp log.old table.old before → Undoes K.cmp log.new table.new before }
    ensures cost { steps.new ≤ steps.old + 1 }
{
    if log.steps.reserve(1).is_err() {
        return Err(Memory);
    }
    match table.remove(&key, steps) {
        Some(before) => {
            log.steps.push_reserved(Step::Put(key, before));
            Ok(true)
        }
        None => Ok(false),
    }
}

/// Removes a key, and logs what takes it back. `Memory` is the only error, and nothing changes then.
pub fn remove<K: Key + Drop, V: Drop, L: Ledger>(
    table: &mut Table<K, V>,
    log: &mut Log<K, V>,
    key: K,
    steps: &mut Steps<L>,
) -> Result<(), Memory>
    ensures logged { length log.new ≤ length log.old + 1 }
    ensures ok { OnOk result (table.new.entries ≡ without_key K.cmp key table.old.entries) }
    ensures err { OnErr result (table.new ≡ table.old) }
    ensures kept { OnErr result (log.new ≡ log.old) }
    ensures undoes { (before : Contents K V) → Undoes K.cmp log.old table.old before → Undoes K.cmp log.new table.new before }
    ensures cost { steps.new ≤ steps.old + 1 }
{
    take(table, log, key, steps)?;
    Ok(())
}
