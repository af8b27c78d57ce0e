//! Finds the names that a pull asks for next, and tells whether it is at its end.
ghost use Rattle.std.specs.Prelude.{◌≡◌, IfOk, filter, find, not};
ghost use Rattle.std.specs.List.{list_all};
ghost use Rattle.std.specs.List.Sorted.{IsStrictlySortedBy};
ghost use Rattle.fsl_order.specs.Names.{bytes_cmp, has};
ghost use Rattle.fsl_blobs.specs.Fold.{is_new};
ghost use Rattle.fsl_repo.specs.Machine.{now, wants};
ghost use Rattle.fsl_pull.specs.Replies.{announced_name, announced_in};
ghost use Rattle.fsl_pull.specs.Pulls.{next_names, missing};
ghost use Rattle.fsl_pull.specs.Steps.{step_of, Rises};

use fsl_blobs::BlobState;
use fsl_disk::Disk;
use fsl_name::{Name, ordered, stands};
use fsl_repo::Repo;
use fsl_text::{List, Memory};
use fsl_wire::WireCard;
use std::alloc::Global;

/// What follows a round of a pull.
#[derive(Drop)]
pub(crate) enum Step {
    /// A round follows that asks for these names.
    On(List<Name>),
    /// The pull is at its end. The name, where there is one, is missing: the peer announced it and doesn't send it.
    End(Option<Name>),
}

/// The name that a card announces without the flag of private ones.
fn announced_name(card: &WireCard) -> Option<Name>
    ensures { result ≡ announced_name card.now }
{
    match card {
        WireCard::Igot {
            name,
            private: false,
        } => Some(*name),
        _ => None,
    }
}

/// The names that cards announce without the flag of private ones, in their order.
pub(crate) fn announced(alloc: Global, cards: &[WireCard]) -> Result<Vec<Name>, Memory>
    ensures { IfOk result (λ names. names.items ≡ announced_in cards.now) }
{
    let mut names = Vec::new(alloc);
    for card in cards {
        if let Some(name) = announced_name(card) {
            names.push(name)?;
        }
    }
    Ok(names)
}

/// Whether a name is neither held nor shunned.
fn is_new<D: Disk>(repo: &Repo<D>, name: Name) -> bool
    ensures { result ≡ is_new (now repo.now.seen.state) name }
{
    matches!(repo.state(name), BlobState::Absent)
}

/// Those of some names that are neither held nor shunned, in their order.
fn new_names<D: Disk>(alloc: Global, repo: &Repo<D>, names: &[Name]) -> Result<Vec<Name>, Memory>
    ensures { IfOk result (λ found. found.items ≡ filter (is_new (now repo.now.seen.state)) names.now) }
{
    let mut found = Vec::new(alloc);
    for name in names {
        if is_new(repo, *name) {
            found.push(*name)?;
        }
    }
    Ok(found)
}

/// The wanted names, ascending.
pub(crate) fn wanted<D: Disk>(repo: &Repo<D>) -> Result<List<Name>, Memory>
    ensures names { IfOk result (λ names. names ≡ wants (now repo.now.seen.state) repo.now.seen.items) }
    ensures rising { IfOk result (IsStrictlySortedBy bytes_cmp) }
{
    match repo.wants() {
        Ok(names) => Ok(names),
        Err(memory) => Err(memory),
    }
}

/// The names that are next: the wanted ones and those that were told, without those that are held or shunned.
fn next_names<D: Disk>(alloc: Global, repo: &Repo<D>, told: &[Name]) -> Result<Vec<Name>, Memory>
    ensures names { IfOk result (λ next. next.items ≡ next_names (now repo.now.seen.state) (wants (now repo.now.seen.state) repo.now.seen.items) told.now) }
    ensures rising { IfOk result (λ next. IsStrictlySortedBy bytes_cmp next.items) }
{
    let mut names = repo.wants()?.into_vec();
    names.extend_from_slice(told)?;
    let names = ordered(names);
    let next = new_names(alloc, repo, &names)?;
    Ok(next)
}

/// Whether each of some names was asked for.
fn all_asked(asked: &[Name], next: &[Name]) -> bool
    requires { IsStrictlySortedBy bytes_cmp asked.now }
    ensures { result ≡ list_all (has asked.now) next.now }
{
    for name in next {
        if !stands(asked, name) {
            return false;
        }
    }
    true
}

/// The first of some names that stands among rising ones.
fn first_among(names: &[Name], next: &[Name]) -> Option<Name>
    requires { IsStrictlySortedBy bytes_cmp names.now }
    ensures { result ≡ find (has names.now) next.now }
{
    for name in next {
        if stands(names, name) {
            return Some(*name);
        }
    }
    None
}

/// The first of some names that was told.
fn first_told(alloc: Global, next: &[Name], told: &[Name]) -> Result<Option<Name>, Memory>
    ensures { IfOk result (λ gone. gone ≡ missing next.now told.now) }
{
    let mut names = Vec::new(alloc);
    names.extend_from_slice(told)?;
    let names = ordered(names);
    Ok(first_among(&names, next))
}

/// What follows a round of a pull that asked for these rising names, in which these names were told, and in which an
/// artifact was stored or published or none was. The next names are the wanted ones and those that were told, without
/// those that are held or shunned. The end is where nothing moved and each of them was asked for.
pub(crate) fn what_follows<D: Disk>(
    alloc: Global,
    repo: &Repo<D>,
    asked: &[Name],
    told: &[Name],
    moved: bool,
) -> Result<Step, Memory>
    requires { IsStrictlySortedBy bytes_cmp asked.now }
    ensures step { IfOk result (λ step. step ≡ step_of asked.now moved told.now repo.now.seen) }
    ensures rising { IfOk result Rises }
{
    let next = next_names(alloc, repo, told)?;
    if moved || !all_asked(asked, &next) {
        return Ok(Step::On(List::from_vec(next)));
    }
    Ok(Step::End(first_told(alloc, &next, told)?))
}
