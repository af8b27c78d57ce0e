//! Tests of a server of two crews of whose objects one fails at a call. They stand apart, so that no crate is proved once more for them.
#![tactic(auto)]

#[cfg(test)]
mod crews;
#[cfg(test)]
mod objects;
#[cfg(test)]
mod seen;
#[cfg(test)]
mod staffing;
#[cfg(test)]
mod table;
