//! Tests of what is handed in: sources, sinks, disks, doors, dials and clocks, and of those that are
//! watched, by their public calls alone. They are a crate of their own, so that no crate is proved once more for its tests.
#![tactic(auto)]

#[cfg(test)]
mod clocks;
#[cfg(test)]
mod disk;
#[cfg(test)]
mod doors;
#[cfg(test)]
mod outside;
#[cfg(test)]
mod sockets;
#[cfg(test)]
mod staged;
#[cfg(test)]
mod watch;
