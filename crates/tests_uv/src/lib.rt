//! Tests of unversioned files, by the public calls alone. They stand apart, so that no crate is proved once more for its tests.
#![tactic(auto)]

#[cfg(test)]
mod crashes;
#[cfg(test)]
mod faults;
#[cfg(test)]
mod holds;
#[cfg(test)]
mod limits;
#[cfg(test)]
mod stores;
#[cfg(test)]
mod syncs;
