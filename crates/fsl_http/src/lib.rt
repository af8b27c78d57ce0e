//! Reads one request and writes one reply, on each side of a connection. The grammar of `httparse` defines a head. The bytes of a
//! connection have one answer at most, and one meaning as a reply at most. Heads and bodies have limits. No more is read of a
//! connection than its answer needs, but for the rest of one read.
#![tactic(auto)]

mod answer;
mod body;
mod client;
mod fields;
mod head;
mod limits;
mod pieces;
mod reply_head;
mod request;
mod request_head;
mod sending;
mod trim;

pub use answer::reply;
pub use client::{ExchangeFault, exchange, one_reply};
pub use request::{Asked, HttpFault, ask, one_answer};
