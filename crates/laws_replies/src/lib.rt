//! States laws on several crates together: on new clusters as artifacts, and on replies as messages. The functions have no code.
//! Each contract is one law. It follows from the definitions and from laws of the crates below. No crate uses this one.
#![tactic(auto)]

mod clusters;
mod replies;

pub use clusters::made_clusters_read;
pub use replies::{replies_fit, replies_read, session_replies_fit};
