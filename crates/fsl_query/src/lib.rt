//! Answers questions about a repository by reports. Each report has a module, which prints the answers of the tables, one
//! line each. `summary` counts the artifacts of each sort in a set.
#![tactic(auto)]

ghost use Rattle.std.specs.Prelude.{◌≡◌};
ghost use Rattle.fsl_query.specs.declared.QueryFault.TheVariants as query_fault;

mod answering;
mod attachments;
mod beginning;
mod branches;
mod files;
mod finding;
mod info;
mod leaves;
mod lines;
mod listing;
mod loaded;
mod newest;
mod noting;
mod pages;
mod phantoms;
mod receipt;
mod refusals;
mod summing;
mod tags;
mod thread;
mod threads;
mod ticket;
mod tickets;
mod timeline;
mod tip;
mod wiki;

pub use answering::report;
pub use finding::content;
use fsl_name::Name;
use fsl_text::{Memory, Text};
pub use loaded::{open_for, report_from};
pub use noting::note_of;
pub use refusals::refusal_text;
pub use summing::summary;

/// A note of the summary on one artifact.
#[derive(Clone, Copy, Debug, Drop)]
pub enum Note {
    /// It is a check-in.
    Checkin,
    /// It changes the ticket of this id.
    Ticket { id: Name },
    /// It is a post of the forum.
    Post,
    /// It is none of these.
    Other,
}

/// The reasons why a question gets no report.
#[derive(Debug, Drop)]
pub enum Refused {
    /// No held artifact begins with the prefix.
    NoArtifact { prefix: Text },
    /// Several held artifacts begin with the prefix.
    SeveralArtifacts { prefix: Text },
    /// The artifact is no check-in.
    NotCheckin { name: Name },
    /// The baseline of the check-in isn't held, or is a delta itself.
    NoBaseline { name: Name },
    /// No check-in has the symbolic name.
    NoCheckin { symbol: Text },
    /// No page has the title.
    NoPage { title: Text },
    /// No id of a ticket begins with the prefix.
    NoTicket { prefix: Text },
    /// No name of a thread begins with the prefix.
    NoThread { prefix: Text },
    /// Several ids of tickets, or several names of threads, begin with the prefix.
    Several { prefix: Text },
    /// The field isn't configured.
    NoField { field: Text },
}

/// The reasons why a question isn't answered.
#[derive(Debug, Drop)]
pub enum QueryFault {
    /// There is nothing to report, for this reason.
    Refused(Refused),
    /// A call of the disk failed.
    Disk,
    /// The bytes that were read for the artifact of a name have another name.
    Damaged { name: Name, found: Name },
    /// The program is out of memory.
    Memory,
}

impl From<Memory> for QueryFault {
    ghost from_gives = { λ _ fault. fault ≡ query_fault.Memory };

    fn from(_: Memory) -> Self {
        QueryFault::Memory
    }
}
