//! Entries wait beside the tree, in no order.
ghost use Rattle.std.specs.Prelude.{◌≡◌, ◌+◌, ◌<◌, ◌≤◌, ◌⊎◌, ◌∷◌, false, length, slice_index_or, slice_set, vec_capacity, vec_len, IsSome, IsTrue, None, Ok};
ghost use Rattle.std.specs.List.{remove};
ghost use Rattle.std.specs.Option.{option_map};
ghost use Rattle.std.specs.BTreeMap.{btree_map_len, get, is_at};
ghost use Rattle.fsl_table.specs.Kept.{IsKept};
ghost use Rattle.fsl_table.specs.Put.{IsPut, seen};
ghost use Rattle.fsl_table.specs.Weave.{lower, place, weave};

use std::collections::BTreeMap;
use std::mem;

/// The place of a key.
pub(crate) fn place_of<K: Ord, V>(waiting: &[(K, V)], key: &K) -> Option<usize>
    ensures { result ≡ place (is_at (K.cmp key.now)) waiting.now }
{
    for at in 0..waiting.len() {
        if key.cmp(&waiting[at].0).is_eq() {
            return Some(at);
        }
    }
    None
}

/// Puts a value in the place of another.
fn replace_at<K, V>(waiting: &mut Vec<(K, V)>, at: usize, value: V) -> V
    requires { at < vec_len waiting.old }
    ensures items { (d : K × V) → waiting.new.items ≡ slice_set waiting.old.items at ((slice_index_or waiting.old.items at d).0, value) }
    ensures before { (d : K × V) → result ≡ (slice_index_or waiting.old.items at d).1 }
    ensures room { vec_capacity waiting.new ≡ vec_capacity waiting.old }
{
    let slot = &mut waiting[at];
    mem::replace(&mut slot.1, value)
}

/// Takes the entry at a place out, and gives its value.
pub(crate) fn take_at<K: Drop, V>(waiting: &mut Vec<(K, V)>, at: usize) -> V
    requires { at < vec_len waiting.old }
    ensures items { waiting.new.items ≡ remove waiting.old.items at }
    ensures value { (d : K × V) → result ≡ (slice_index_or waiting.old.items at d).1 }
    ensures len { length waiting.new.items + 1 ≡ length waiting.old.items }
    ensures room { vec_capacity waiting.new ≡ vec_capacity waiting.old }
{
    let (key, value) = waiting.remove(at);
    drop(key);
    value
}

/// The lower of an entry and what may be there.
pub(crate) fn lower_of<'a, K: Ord, V>(
    entry: &'a (K, V),
    other: Option<(&'a K, &'a V)>,
) -> Option<(&'a K, &'a V)>
    ensures { option_map (λ p. (p.0.now, p.1.now)) result ≡ lower K.cmp entry.now (option_map (λ p. (p.0.now, p.1.now)) other.entry) }
{
    match other {
        None => Some((&entry.0, &entry.1)),
        Some((key, value)) => {
            if entry.0.cmp(key).is_lt() {
                Some((&entry.0, &entry.1))
            } else {
                Some((key, value))
            }
        }
    }
}

/// Makes room for one more entry, unless the tree has the key.
fn has_room<K: Ord, V>(tree: &BTreeMap<K, V>, waiting: &mut Vec<(K, V)>, key: &K) -> bool
    requires { btree_map_len tree.now + vec_len waiting.old ≤ vec_capacity waiting.old }
    ensures items { waiting.new.items ≡ waiting.old.items }
    ensures len { vec_len waiting.new ≡ vec_len waiting.old }
    ensures grows { vec_capacity waiting.old ≤ vec_capacity waiting.new }
    ensures room { IsTrue result → get K.cmp tree.now key.now ≡ None → btree_map_len tree.now + vec_len waiting.new < vec_capacity waiting.new }
    ensures same_room { IsSome (get K.cmp tree.now key.now) → vec_capacity waiting.new ≡ vec_capacity waiting.old }
    ensures full { result ≡ false → vec_capacity waiting.old ≡ btree_map_len tree.now + vec_len waiting.old }
    ensures unchanged { result ≡ false → vec_capacity waiting.new ≡ vec_capacity waiting.old }
    ensures absent { result ≡ false → get K.cmp tree.now key.now ≡ None }
{
    if tree.len() < waiting.capacity() - waiting.len() {
        return true;
    }
    if tree.contains_key(key) {
        return true;
    }
    waiting.reserve(tree.len() + 1).is_ok()
}

/// Puts an entry before those that wait. There is room for it, so it never comes back.
fn wait<K, V>(waiting: &mut Vec<(K, V)>, entry: (K, V)) -> Result<Option<V>, (K, V)>
    requires { vec_len waiting.old < vec_capacity waiting.old }
    ensures items { waiting.new.items ≡ entry ∷ waiting.old.items }
    ensures grows { vec_capacity waiting.old ≤ vec_capacity waiting.new }
    ensures done { result ≡ Ok None }
{
    match waiting.insert(0, entry) {
        Ok(()) => Ok(None),
        Err(refused) => Err(refused.value),
    }
}

/// Puts an entry whose key doesn't wait into the tree, or beside it where memory is out.
fn put_beside<K: Ord + Drop, V>(
    tree: &mut BTreeMap<K, V>,
    waiting: &mut Vec<(K, V)>,
    key: K,
    value: V,
) -> Result<Option<V>, (K, V)>
    requires kept { IsKept K.cmp (vec_capacity waiting.old) waiting.old.items tree.old.entries }
    requires absent { place (is_at (K.cmp key)) waiting.old.items ≡ None }
    ensures kept { IsKept K.cmp (vec_capacity waiting.new) waiting.new.items tree.new.entries }
    ensures put { IsPut K.cmp key value (seen K.cmp (vec_capacity waiting.old) waiting.old.items tree.old.entries) (seen K.cmp (vec_capacity waiting.new) waiting.new.items tree.new.entries) result }
{
    if !has_room(tree, waiting, &key) {
        return Err((key, value));
    }
    match tree.insert(key, value) {
        Ok(before) => Ok(before),
        Err(refused) => wait(waiting, refused.value),
    }
}

/// Puts an entry where its key waits, or else into the tree. It comes back where memory is out.
pub(crate) fn put_entry<K: Ord + Drop, V>(
    tree: &mut BTreeMap<K, V>,
    waiting: &mut Vec<(K, V)>,
    key: K,
    value: V,
) -> Result<Option<V>, (K, V)>
    requires { IsKept K.cmp (vec_capacity waiting.old) waiting.old.items tree.old.entries }
    ensures kept { IsKept K.cmp (vec_capacity waiting.new) waiting.new.items tree.new.entries }
    ensures put { IsPut K.cmp key value (seen K.cmp (vec_capacity waiting.old) waiting.old.items tree.old.entries) (seen K.cmp (vec_capacity waiting.new) waiting.new.items tree.new.entries) result }
{
    match place_of(waiting, &key) {
        Some(at) => {
            let before = replace_at(waiting, at, value);
            drop(key);
            Ok(Some(before))
        }
        None => put_beside(tree, waiting, key, value),
    }
}

/// Moves the last entry that waits into the tree, where there is memory for it now. So what waits after memory was refused
/// goes back, one entry by one, and look-ups among it become short again.
pub(crate) fn settle_last<K: Ord + Drop, V: Drop>(
    tree: &mut BTreeMap<K, V>,
    waiting: &mut Vec<(K, V)>,
)
    requires { IsKept K.cmp (vec_capacity waiting.old) waiting.old.items tree.old.entries }
    ensures kept { IsKept K.cmp (vec_capacity waiting.new) waiting.new.items tree.new.entries }
    ensures entries { weave K.cmp waiting.new.items tree.new.entries ≡ weave K.cmp waiting.old.items tree.old.entries }
    ensures len { length tree.new.entries + length waiting.new.items ≡ length tree.old.entries + length waiting.old.items }
    ensures room { vec_capacity waiting.new ≡ vec_capacity waiting.old }
{
    match waiting.pop() {
        Some((key, value)) => match tree.insert(key, value) {
            Ok(before) => drop(before),
            Err(refused) => waiting.push_reserved(refused.value),
        },
        None => {}
    }
}
