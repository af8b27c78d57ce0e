//! A step undoes one change of a table.

/// A step undoes one change of a table.
#[derive(Drop)]
pub enum Step<K, V> {
    /// The key had this value.
    Put(K, V),
    /// The key wasn't there.
    Remove(K),
}
