//! Follows a repository's file through any number of openings and commits, one after the other. A crash may stop each of them at
//! any moment. The records that were there stay, and so do those that somebody heard to be committed. Each opening and each life
//! tells how it ended.
#![tactic(auto)]

mod laws;
mod living;
mod outage;
mod reopening;
mod surviving;

pub use laws::{first_stays, heard_stays};
pub use living::{Ending, Life, Put, Work, live};
pub use outage::Outage;
pub use reopening::{Opening, Reopened, reopen};
pub use surviving::{Lived, Story, live_on};
