//! Makes the notes of the summary on artifacts.
ghost use Rattle.std.specs.Prelude.{◌≡◌, IfOk, filter_map};
ghost use Rattle.fsl_query.specs.Summary.{note_of, checkin_in, id_in, post_in};

use crate::Note;
use fsl_artifact::Artifact;
use fsl_name::Name;
use fsl_text::Memory;
use std::alloc::Global;
use std::collections::BTreeMap;

/// Makes the note of the summary on an artifact.
pub fn note_of(artifact: &Artifact) -> Note
    ensures { result ≡ note_of artifact.now }
{
    match artifact {
        Artifact::Manifest(_) => Note::Checkin,
        Artifact::Ticket(ticket) => Note::Ticket { id: ticket.id },
        Artifact::Forum(_) => Note::Post,
        _ => Note::Other,
    }
}

/// The names of the check-ins, ascending.
pub(crate) fn checkins(alloc: Global, notes: &BTreeMap<Name, Note>) -> Result<Vec<Name>, Memory>
    ensures { IfOk result (λ names. names.items ≡ filter_map checkin_in notes.now.entries) }
{
    let mut names = Vec::new(alloc);
    for (name, note) in notes {
        if let Note::Checkin = note {
            names.push(*name)?;
        }
    }
    Ok(names)
}

/// The ids that ticket changes name, by the names of these.
pub(crate) fn ids(alloc: Global, notes: &BTreeMap<Name, Note>) -> Result<Vec<Name>, Memory>
    ensures { IfOk result (λ ids. ids.items ≡ filter_map id_in notes.now.entries) }
{
    let mut ids = Vec::new(alloc);
    for (_, note) in notes {
        if let Note::Ticket { id } = note {
            ids.push(*id)?;
        }
    }
    Ok(ids)
}

/// The names of the posts, ascending.
pub(crate) fn posts(alloc: Global, notes: &BTreeMap<Name, Note>) -> Result<Vec<Name>, Memory>
    ensures { IfOk result (λ names. names.items ≡ filter_map post_in notes.now.entries) }
{
    let mut names = Vec::new(alloc);
    for (name, note) in notes {
        if let Note::Post = note {
            names.push(*name)?;
        }
    }
    Ok(names)
}
