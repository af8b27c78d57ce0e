//! Turns by ticket.
mod four_users;
mod toy;
mod two_users;
