//! The seven kinds of structural artifacts beside manifests: clusters, control artifacts, wiki pages, ticket changes,
//! attachments, technotes and forum posts. Each is read from the cards of one, and from no others, and is written as one text.
#![tactic(auto)]

mod attachment;
mod cluster;
mod control;
mod forum;
mod known;
mod laws;
mod technote;
mod ticket;
mod wiki;

pub use attachment::Attachment;
pub use cluster::Cluster;
pub use control::Control;
pub use forum::Forum;
pub use laws::{well_formed_have_a_text, written_texts_read_back};
pub use technote::Technote;
pub use ticket::{Ticket, TicketChange};
pub use wiki::Wiki;
