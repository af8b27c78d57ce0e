//! Reads artifacts, and finds the artifacts that they name.
//!
//! The bytes of an artifact are a structural text of one of eight kinds, or else plain content. `parse` finds the kind and the
//! value of the text. A text has one value of one kind at most. `refs` gives the names in the cards of an artifact, ascending,
//! each once.
#![tactic(auto)]

mod kind;
mod laws;
mod names;
mod references;

use fsl_forms as forms;
use fsl_manifest as manifests;
pub use kind::parse;
pub use laws::{text_is_of_one_kind, text_is_one_artifact, text_is_some_artifact};
pub use references::{members, refs};

/// An artifact: of one of eight kinds, or plain content.
#[derive(Drop)]
pub enum Artifact {
    /// The content is plain: it is of none of the kinds.
    Plain,
    /// A check-in.
    Manifest(manifests::Manifest),
    /// A list of known artifacts.
    Cluster(forms::Cluster),
    /// Tags on other artifacts.
    Control(forms::Control),
    /// A version of a wiki page.
    Wiki(forms::Wiki),
    /// A change of a ticket.
    Ticket(forms::Ticket),
    /// A file that is attached to a page, a ticket or a technote.
    Attachment(forms::Attachment),
    /// A note at a moment.
    Technote(forms::Technote),
    /// A post in a forum.
    Forum(forms::Forum),
}
