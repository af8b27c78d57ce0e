//! Makes runs of the program over one disk, one after the other. The power or the end of its process may cut each of them off at
//! any moment. Before each of them, and behind all, the file stands for what it stood for first, followed by some first commits
//! of each run before, whole and in order.
#![tactic(auto)]

mod ending;
mod laws;
mod reboot;
mod running;
mod session;

pub use laws::runs_survive;
pub use reboot::Reboot;
pub use running::{Lives, run_all};
pub use session::{End, Past, Session};
