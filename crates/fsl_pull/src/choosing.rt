//! Chooses the files that a push sends.
ghost use Rattle.std.specs.Prelude.{◌≡◌, ◌++◌, true, false, not, length, map, filter, filter_map, IfOk};
ghost use Rattle.fsl_order.specs.Rows.{ascending};
ghost use Rattle.fsl_answer.specs.Contents.{each_once};
ghost use Rattle.fsl_blobs.specs.Held.{state_of};
ghost use Rattle.fsl_blobs.specs.Kept.{stands};
ghost use Rattle.fsl_repo.specs.Machine.{now};
ghost use Rattle.fsl_pull.specs.Replies.{asked_name, asked_in};
ghost use Rattle.fsl_pull.specs.Pushes.{is_public, public_file};
ghost use Rattle.fsl_pull.specs.Sent.{IsWith, public_size};
ghost use Rattle.fsl_pull.specs.PushTurns.{due_names};

use crate::sent::SentSoFar;
use fsl_answer::taken;
use fsl_blobs::BlobState;
use fsl_disk::Disk;
use fsl_name::{Name, ordered};
use fsl_repo::Repo;
use fsl_text::Memory;
use fsl_wire::WireCard;
use std::alloc::Global;
use std::collections::BTreeSet;

/// The name that a card asks for.
fn asked_name(card: &WireCard) -> Option<Name>
    ensures { result ≡ asked_name card.now }
{
    match card {
        WireCard::Gimme { name } => Some(*name),
        _ => None,
    }
}

/// The names that cards ask for, in their order.
pub(crate) fn asked(alloc: Global, cards: &[WireCard]) -> Result<Vec<Name>, Memory>
    ensures { IfOk result (λ names. names.items ≡ asked_in cards.now) }
{
    let mut names = Vec::new(alloc);
    for card in cards {
        if let Some(name) = asked_name(card) {
            names.push(name)?;
        }
    }
    Ok(names)
}

/// Whether a name is that of a public artifact.
fn is_public<D: Disk>(repo: &Repo<D>, name: Name) -> bool
    ensures { result ≡ is_public (now repo.now.seen.state) name }
{
    matches!(repo.state(name), BlobState::Public { .. })
}

/// Those of some names that are held as public, in their order.
fn public_names<D: Disk>(alloc: Global, repo: &Repo<D>, names: &[Name]) -> Result<Vec<Name>, Memory>
    ensures { IfOk result (λ found. found.items ≡ filter (is_public (now repo.now.seen.state)) names.now) }
{
    let mut found = Vec::new(alloc);
    for name in names {
        if is_public(repo, *name) {
            found.push(*name)?;
        }
    }
    Ok(found)
}

/// Those of some names that are held as public, ascending.
pub(crate) fn public_ordered<D: Disk>(
    alloc: Global,
    repo: &Repo<D>,
    names: &[Name],
) -> Result<Vec<Name>, Memory>
    ensures { IfOk result (λ found. found.items ≡ ascending (filter (is_public (now repo.now.seen.state)) names.now)) }
{
    let found = public_names(alloc, repo, names)?;
    Ok(ordered(found))
}

/// The size of a public artifact.
fn public_size<D: Disk>(repo: &Repo<D>, name: Name) -> Option<u64>
    ensures { result ≡ public_size (state_of (now repo.now.seen.state) name) }
{
    match repo.state(name) {
        BlobState::Public { size } => Some(size),
        _ => None,
    }
}

/// The sizes of those of some names that are held as public, in their order.
fn sizes_of<D: Disk>(alloc: Global, repo: &Repo<D>, names: &[Name]) -> Result<Vec<u64>, Memory>
    ensures { IfOk result (λ sizes. sizes.items ≡ filter_map (λ name. public_size (state_of (now repo.now.seen.state) name)) names.now) }
{
    let mut sizes = Vec::new(alloc);
    for name in names {
        if let Some(size) = public_size(repo, *name) {
            sizes.push(size)?;
        }
    }
    Ok(sizes)
}

/// Whether a name was neither sent nor seen. It is seen from now on.
fn is_first(sent: &SentSoFar, seen: &mut BTreeSet<Name>, name: Name) -> Result<bool, Memory>
    ensures first { IfOk result (λ first. first ≡ not (stands (seen.old.keys ++ sent.now.order) name)) }
    ensures with { IfOk result (λ first. first ≡ true → IsWith (seen.new.keys ++ sent.now.order) name (seen.old.keys ++ sent.now.order)) }
    ensures same { IfOk result (λ first. first ≡ false → seen.new ≡ seen.old) }
{
    if sent.has(name) {
        return Ok(false);
    }
    let first = seen.insert(name)?;
    Ok(first)
}

/// Those of some names that weren't sent, in their order, each once.
fn unsent(alloc: Global, sent: &SentSoFar, names: &[Name]) -> Result<Vec<Name>, Memory>
    ensures { IfOk result (λ list. list.items ≡ each_once sent.now.order names.now) }
{
    let mut seen = BTreeSet::new(alloc);
    let mut list = Vec::new(alloc);
    for name in names {
        if is_first(sent, &mut seen, *name)? {
            list.push(*name)?;
        }
    }
    Ok(list)
}

/// The names of the files that a round of a push sends: of the names that were asked for those that are held as public
/// and weren't sent, in their order, each once, as many as the budget takes.
pub(crate) fn due<D: Disk>(
    alloc: Global,
    repo: &Repo<D>,
    sent: &SentSoFar,
    gimmes: &[Name],
) -> Result<Vec<Name>, Memory>
    ensures { IfOk result (λ names. names.items ≡ due_names repo.now.seen sent.now gimmes.now) }
{
    let fresh = unsent(alloc, sent, gimmes)?;
    let mut names = public_names(alloc, repo, &fresh)?;
    let sizes = sizes_of(alloc, repo, &names)?;
    names.truncate(taken(&sizes) as usize);
    Ok(names)
}
