//! Tests of the repository file: records, the journal and what is held, by their public calls alone. They stand apart, so that no crate is proved once more for its tests.
#![tactic(auto)]

#[cfg(test)]
mod beside;
#[cfg(test)]
mod blobs;
#[cfg(test)]
mod cases;
#[cfg(test)]
mod journal;
#[cfg(test)]
mod record;
#[cfg(test)]
mod versions;
