//! Finds the kind of some bytes.
ghost use Rattle.std.specs.Prelude.{◌≡◌, ◌+◌, IfOk};
ghost use Rattle.fsl_card.specs.Cards.{IsReading};
ghost use Rattle.fsl_artifact.specs.Kind.{AreOfKind, IsKind};

use super::Artifact;
use fsl_card::{Cards, cards};
use fsl_forms::{Attachment, Cluster, Control, Forum, Technote, Ticket, Wiki};
use fsl_manifest::Manifest;
use fsl_text::{Memory, Steps};
use std::alloc::Global;
use std::sync::ledger::Ledger;

/// Reads the artifact of some cards, or returns `None` if they are of no kind. Each kind refuses cards with other letters than
/// its own before it reads any of them, so that one kind at most does so.
fn of_kind(alloc: Global, cards: &Cards) -> Result<Option<Artifact>, Memory>
    ensures { IfOk result (IsReading AreOfKind cards.now) }
{
    if let Some(manifest) = Manifest::read(alloc, cards)? {
        return Ok(Some(Artifact::Manifest(manifest)));
    }
    if let Some(cluster) = Cluster::read(alloc, cards)? {
        return Ok(Some(Artifact::Cluster(cluster)));
    }
    if let Some(control) = Control::read(alloc, cards)? {
        return Ok(Some(Artifact::Control(control)));
    }
    if let Some(page) = Wiki::read(alloc, cards)? {
        return Ok(Some(Artifact::Wiki(page)));
    }
    if let Some(ticket) = Ticket::read(alloc, cards)? {
        return Ok(Some(Artifact::Ticket(ticket)));
    }
    if let Some(attachment) = Attachment::read(alloc, cards)? {
        return Ok(Some(Artifact::Attachment(attachment)));
    }
    if let Some(note) = Technote::read(alloc, cards)? {
        return Ok(Some(Artifact::Technote(note)));
    }
    if let Some(post) = Forum::read(alloc, cards)? {
        return Ok(Some(Artifact::Forum(post)));
    }
    Ok(None)
}

/// Reads the artifact of some bytes.
fn artifact_of(alloc: Global, bytes: &[u8]) -> Result<Artifact, Memory>
    ensures { IfOk result (IsKind bytes.now) }
{
    let Some(cards) = cards(alloc, bytes)? else {
        return Ok(Artifact::Plain);
    };
    match of_kind(alloc, &cards)? {
        Some(artifact) => Ok(artifact),
        None => Ok(Artifact::Plain),
    }
}

/// Reads the artifact of some bytes, in time linear in them.
///
/// The bytes are of a kind exactly if they are a structural text whose cards have the letters of the kind, each as often as the
/// kind says, and each card has the form of its letter. All other bytes are `Plain`. Each call adds one to the count of steps.
/// `Memory` is the only error.
/// FORMATS: Kinds
pub fn parse<L: Ledger>(
    alloc: Global,
    bytes: &[u8],
    steps: &mut Steps<L>,
) -> Result<Artifact, Memory>
    ensures kind { IfOk result (IsKind bytes.now) }
    ensures tick { steps.new ≡ steps.old + 1 }
{
    steps.tick();
    artifact_of(alloc, bytes)
}
