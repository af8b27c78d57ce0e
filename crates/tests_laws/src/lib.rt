//! Chains of openings, commits and runs over disks in memory: a work that puts a few texts, and what ends a step at any call.
#![tactic(auto)]

#[cfg(test)]
mod crashes;
#[cfg(test)]
mod lives;
#[cfg(test)]
mod openings;
#[cfg(test)]
mod reboots;
#[cfg(test)]
mod runs;
#[cfg(test)]
mod works;
