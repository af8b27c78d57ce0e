//! The lines that a program puts out while it runs: by doors, dials, sources and disks that are watched, over those in memory and a clock
//! that the test sets.
mod disks;
mod hand;
mod links;
mod sources;
