//! Generates any number of artifacts, for trials of everything above: check-ins in branches, tags on them, changes of tickets and
//! threads of a forum. Nothing in them is random, so their texts and names are the same wherever they are made.
//!
//! Each artifact has a number from 0 on, and a table fixes it by its number. Its kind goes by the remainder by 4, and each 40
//! have a branch, a ticket and a thread of their own. An artifact names only those with smaller numbers. They are given in an
//! order in which marks and posts come before the artifacts that they name, or in the same order from its end.
#![tactic(auto)]

mod arrival;
mod by_number;
mod checkin;
mod control;
mod laws;
mod post;
mod text;
mod ticket;

pub use arrival::artifacts;
pub use laws::{
    arrives_each_once, follows_table, has_as_many, is_told_by_table, names_earlier_ones, reverses,
};
