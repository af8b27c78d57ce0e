//! Lets several threads share a machine in turns.
//!
//! A [`Machine`] makes one step for each event, by a relation that it names. [`Turns`] lets several users step one machine, each
//! through a pass of its own. [`Locked`] puts the machine under a lock. [`Solo`] has one user, whose pass records its calls.
#![tactic(auto)]

mod locked;
mod machine;
mod solo;
mod turns;

pub use locked::{Locked, LockedPass, Origin};
pub use machine::{Machine, step_uncounted};
pub use solo::{Solo, SoloPass};
pub use turns::Turns;
