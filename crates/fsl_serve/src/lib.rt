//! Serves sessions over one repository. A session reads one request, makes its events one by one, each under the lock for that
//! time alone, and writes its reply. Each artifact that it brings has a receipt: who sent it, and the moment. The session asks
//! its clock once for that moment.
//!
//! [`session`] serves one connection, [`worker`] those of one door, and [`serve_crews`] runs a worker for each crew in a thread of its
//! own. All are generic over the way in which the repository is shared.
#![tactic(auto)]

mod alone;
mod arrivals;
mod bodies;
mod calls;
mod crews;
mod events;
mod laws;
mod receipts;
mod said;
mod sending;
mod serving;
mod shared;
mod staff;
mod turning;
mod work;

pub use alone::session_alone;
pub use crews::{Served, serve_crews};
pub use laws::{answered_stays, nothing_is_damaged, nothing_is_lost};
pub use said::SessionEnd;
pub use serving::session;
pub use turning::{Calls, Waiting};
pub use work::{Crew, Work, worker};
