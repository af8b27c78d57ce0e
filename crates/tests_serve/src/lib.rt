//! Tests of whole runs of the program and of a server whose crews work in threads, by their public calls alone: what no transcript
//! shows. They stand apart, so that no crate is proved once more for them.
#![tactic(auto)]

#[cfg(test)]
mod clocks;
#[cfg(test)]
mod damaged;
#[cfg(test)]
mod doors;
#[cfg(test)]
mod endless;
#[cfg(test)]
mod gates;
#[cfg(test)]
mod receipts;
#[cfg(test)]
mod replies;
#[cfg(test)]
mod runs;
#[cfg(test)]
mod served;
#[cfg(test)]
mod staffing;
