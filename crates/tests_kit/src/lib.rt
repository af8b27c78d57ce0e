//! What the crates of tests share: repositories over memory and what arrives in them, and tables that show what came into them. It names no
//! crate above `fsl_repo`, so that no test waits for the proofs of the program.
#![tactic(auto)]

mod plays;
mod repos;
mod words;

pub use plays::{Play, shown};
pub use repos::{arrive, arrives, disk_of, loaded, opened, spare_of};
pub use words::{add, add_names, moment, owned, put, put_names};
