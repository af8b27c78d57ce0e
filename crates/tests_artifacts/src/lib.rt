//! Tests of artifacts, by their public calls alone: what no command shows is how a value is written. What texts are is shown by transcripts.
#![tactic(auto)]

#[cfg(test)]
mod artifact;
#[cfg(test)]
mod card;
#[cfg(test)]
mod generated;
#[cfg(test)]
mod writing;
