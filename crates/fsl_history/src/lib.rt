//! Makes turns on one machine, and their history.
//!
//! [`Ticketed`] keeps a machine in a slot behind two words: the number of turns made, and the number of tickets drawn. A pass
//! draws a ticket, waits until that many turns were made, and makes the next, on the machine in its slot. It draws behind a lock,
//! and sleeps there alone. All turns are entries of one history. Contracts speak of it, and no value of it is made.
#![tactic(auto)]

mod chronicle;
mod housed;
mod lane;
mod rule;
mod steps;
mod ticketed;
mod view;

pub use chronicle::Chronicle;
pub use housed::Housed;
pub use ticketed::{TicketPass, Ticketed};
pub use view::{Stage, Tale, View};
