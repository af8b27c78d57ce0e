//! Tests of the tables, by their public calls alone: facts in a circle, which no artifacts make. What the tables tell of artifacts is shown by transcripts.
#![tactic(auto)]

#[cfg(test)]
mod changes;
#[cfg(test)]
mod circles;
#[cfg(test)]
mod clusters;
#[cfg(test)]
mod files;
#[cfg(test)]
mod names;
#[cfg(test)]
mod notes;
#[cfg(test)]
mod orders;
#[cfg(test)]
mod posts;
#[cfg(test)]
mod tags;
#[cfg(test)]
mod tickets;
#[cfg(test)]
mod wanting;
