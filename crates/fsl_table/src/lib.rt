//! A table is an ordered map that goes back to what it held without taking memory. A log has the steps back.
//!
//! Contracts see a [`Table`] as its entries in the order of their keys, and as a number that it has to spare: so many new keys
//! can be put without memory. Each call with a counter of steps adds one to it: such a call is a touch of the table.
//! [`log::put`] and [`log::remove`] change a table and log the step that undoes that; [`log::undo`] takes a table back, the last
//! step first, and needs no memory. [`Tracked`] is a table with its log: it knows the way back to where a change began.
#![tactic(auto)]

pub mod key;
pub mod keys;
pub mod log;
pub mod names;
pub mod pairs;
pub mod step;
pub mod table;
pub mod tracked;
mod waiting;
pub mod within;

pub use key::{Key, Pair};
pub use log::Log;
pub use table::Table;
pub use tracked::{Tracked, Way};
pub use within::Within;
