//! Tests of a repository as one machine, by its public calls alone. They stand apart, so that the crate isn't proved once more for its tests.
//! Where a large value is held, a function has one exit: so conditions are joined by `&`, and a value is let go by a call, before the answer.
#![tactic(auto)]

#[cfg(test)]
mod crashes;
#[cfg(test)]
mod events;
#[cfg(test)]
mod files;
#[cfg(test)]
mod histories;
#[cfg(test)]
mod many;
#[cfg(test)]
mod orders;
#[cfg(test)]
mod peer;
#[cfg(test)]
mod printing;
#[cfg(test)]
mod pulls;
#[cfg(test)]
mod questions;
#[cfg(test)]
mod receipts;
#[cfg(test)]
mod repo;
#[cfg(test)]
mod stopping;
