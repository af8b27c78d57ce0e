//! Reads the files of a reply, and finds where a clone goes on. Names and sizes decide which files are due. Only those that the
//! budget takes are read.
ghost use Rattle.std.specs.Prelude.{◌≡◌, IfOk, IfErr, OnOk, map, filter_map, take, drop, length};
ghost use Rattle.std.specs.List.{AllByRecursion, AllZip};
ghost use Rattle.std.specs.Option.{option_map};
ghost use Rattle.std.specs.FinMap as map_of;
ghost use Rattle.fsl_blobs.specs.Fold.{contents};
ghost use Rattle.fsl_answer.specs.Contents.{first_of, place_or_zero, sent_file, sequel};
ghost use Rattle.fsl_answer.specs.Replies.{taken};
ghost use Rattle.fsl_repo.specs.Replies.{placed_in};
ghost use Rattle.fsl_repo.specs.Sending.{IsSized, as_held, as_due, due_of, sent_of, sent_asked, sent_files, public_on};

use crate::asking::asked_names;
use crate::placed::{PlacedHolding, public_from};
use fsl_answer::taken;
use fsl_blobs::Blobs;
use fsl_name::Name;
use fsl_text::Memory;
use fsl_wire::WireCard;
use std::alloc::Global;

/// A file that is due, without its bytes. Its size is in bytes.
#[derive(Clone, Copy)]
pub(crate) struct Due {
    pub(crate) name: Name,
    pub(crate) private: bool,
    pub(crate) size: u64,
}

/// The sizes of some files, in bytes.
fn sizes_of(alloc: Global, due: &[Due]) -> Result<Vec<u64>, Memory>
    ensures { IfOk result (λ sizes. sizes.items ≡ map (λ d. d.size) due.now) }
{
    let mut sizes = Vec::new(alloc);
    for file in due {
        sizes.push(file.size)?;
    }
    Ok(sizes)
}

/// How many of some files the budget takes.
fn count_taken(alloc: Global, due: &[Due]) -> Result<usize, Memory>
    ensures { IfOk result (λ count. count ≡ taken (map (λ d. d.size) due.now)) }
{
    let sizes = sizes_of(alloc, due)?;
    Ok(taken(&sizes) as usize)
}

/// The artifact of a name that may be sent: a public one, or a private one where these are sent.
fn sendable(blobs: &Blobs, name: Name, private: bool) -> Option<Due>
    ensures { option_map as_due result ≡ option_map due_of (sent_of private name (map_of.get (contents blobs.now.records).held name)) }
{
    match blobs.holding(name) {
        Some(holding) => {
            if private || !holding.private {
                Some(Due {
                    name,
                    private: holding.private,
                    size: holding.size,
                })
            } else {
                None
            }
        }
        None => None,
    }
}

/// Those of some names that may be sent, in order.
fn asked_over(
    alloc: Global,
    blobs: &Blobs,
    names: &[Name],
    private: bool,
) -> Result<Vec<Due>, Memory>
    ensures { IfOk result (λ list. map as_due list.items ≡ map due_of (filter_map (λ name. sent_of private name (map_of.get (contents blobs.now.records).held name)) names.now)) }
{
    let mut list = Vec::new(alloc);
    for name in names {
        if let Some(file) = sendable(blobs, *name, private) {
            list.push(file)?;
        }
    }
    Ok(list)
}

/// The files that gimme cards ask for, as many as the budget takes.
pub(crate) fn asked_due(
    alloc: Global,
    blobs: &Blobs,
    message: &[WireCard],
    private: bool,
) -> Result<Vec<Due>, Memory>
    ensures { IfOk result (λ due. map as_due due.items ≡ map due_of (sent_files (sent_asked blobs.now.records private message.now))) }
{
    let names = asked_names(alloc, message)?;
    let mut due = asked_over(alloc, blobs, &names, private)?;
    let count = count_taken(alloc, &due)?;
    due.truncate(count);
    Ok(due)
}

/// The artifacts of some places as files.
fn without_places(alloc: Global, held: &[PlacedHolding<'_>]) -> Result<Vec<Due>, Memory>
    requires { AllByRecursion IsSized held.now }
    ensures { IfOk result (λ list. map as_due list.items ≡ map due_of (map sent_file (map as_held held.now))) }
{
    let mut list = Vec::new(alloc);
    for artifact in held {
        list.push(Due {
            name: artifact.holding.name,
            private: artifact.holding.private,
            size: artifact.holding.size,
        })?;
    }
    Ok(list)
}

/// The place at which artifacts go on behind the first of them, or 0.
fn place_behind(held: &[PlacedHolding<'_>], count: usize) -> u64
    ensures { result ≡ place_or_zero (first_of (drop count (map as_held held.now))) }
{
    match held.get(count) {
        Some(artifact) => artifact.place,
        None => 0,
    }
}

/// The public files from a place on that the budget takes, and the place of the first that it doesn't, or 0.
pub(crate) fn due_from(alloc: Global, blobs: &Blobs, place: u64) -> Result<(Vec<Due>, u64), Memory>
    ensures due { IfOk result (λ f. map as_due f.0.items ≡ map due_of (sent_files (map sent_file (public_on place (placed_in blobs.now.records))))) }
    ensures next { IfOk result (λ f. f.1 ≡ sequel (public_on place (placed_in blobs.now.records))) }
{
    match public_from(alloc, blobs, place) {
        Ok(list) => due_and_next(alloc, &list),
        Err(_) => Err(Memory),
    }
}

/// The files that the budget takes of some, and the place of the first that it doesn't, or 0.
fn due_and_next(alloc: Global, held: &[PlacedHolding<'_>]) -> Result<(Vec<Due>, u64), Memory>
    requires { AllByRecursion IsSized held.now }
    ensures due { IfOk result (λ f. map as_due f.0.items ≡ map due_of (sent_files (map sent_file (map as_held held.now)))) }
    ensures next { IfOk result (λ f. f.1 ≡ sequel (map as_held held.now)) }
{
    let mut due = without_places(alloc, held)?;
    let count = count_taken(alloc, &due)?;
    due.truncate(count);
    Ok((due, place_behind(held, count)))
}
