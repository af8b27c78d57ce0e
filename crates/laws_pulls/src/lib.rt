//! States laws on pulls from another repository. The functions have no code. Each contract is one law. It follows from the
//! definitions and from laws of the crates below. No crate uses this one.
#![tactic(auto)]

mod laws;

pub use laws::pulled_show_the_same;
