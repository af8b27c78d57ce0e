//! Finds what a message asks for.
ghost use Rattle.std.specs.Prelude.{◌≡◌, [], IfOk, filter_map};
ghost use Rattle.std.specs.List.{list_any};
ghost use Rattle.fsl_answer.specs.Contents.{is_pull, is_send_private, sends_private, gimme_of, clone_of, first_clone, each_once};
ghost use Rattle.fsl_answer.specs.Refusals.{is_push};

use fsl_name::Name;
use fsl_text::Memory;
use fsl_wire::{Caps, WireCard};
use std::alloc::Global;
use std::collections::BTreeSet;

fn is_push(card: &WireCard) -> bool
    ensures { result ≡ is_push card.now }
{
    matches!(card, WireCard::Push { .. })
}

fn is_pull(card: &WireCard) -> bool
    ensures { result ≡ is_pull card.now }
{
    matches!(card, WireCard::Pull { .. })
}

fn is_send_private(card: &WireCard) -> bool
    ensures { result ≡ is_send_private card.now }
{
    matches!(card, WireCard::SendPrivate)
}

/// Whether a push card stands in the message.
pub(crate) fn has_push(message: &[WireCard]) -> bool
    ensures { result ≡ list_any is_push message.now }
{
    message.iter().any(|card| is_push(card))
}

/// Whether a pull card does.
pub(crate) fn has_pull(message: &[WireCard]) -> bool
    ensures { result ≡ list_any is_pull message.now }
{
    message.iter().any(|card| is_pull(card))
}

/// Whether private artifacts are asked for.
fn has_send_private(message: &[WireCard]) -> bool
    ensures { result ≡ list_any is_send_private message.now }
{
    message.iter().any(|card| is_send_private(card))
}

/// Whether private artifacts are sent: to one who may see them and asks for them.
pub(crate) fn sends_private(message: &[WireCard], caps: &Caps) -> bool
    ensures { result ≡ sends_private message.now caps.now }
{
    caps.private && has_send_private(message)
}

/// The version and the sequence of a clone card; without arguments these are 0 and 0.
fn clone_of(card: &WireCard) -> Option<(u64, u64)>
    ensures { result ≡ clone_of card.now }
{
    match card {
        WireCard::Clone { from } => match from {
            Some(numbers) => Some(*numbers),
            None => Some((0, 0)),
        },
        _ => None,
    }
}

/// Those of the first clone card.
pub(crate) fn first_clone(message: &[WireCard]) -> Option<(u64, u64)>
    ensures { result ≡ first_clone message.now }
{
    for card in message {
        if let Some(numbers) = clone_of(card) {
            return Some(numbers);
        }
    }
    None
}

/// The name that a gimme card asks for.
fn gimme_of(card: &WireCard) -> Option<Name>
    ensures { result ≡ gimme_of card.now }
{
    match card {
        WireCard::Gimme { name } => Some(*name),
        _ => None,
    }
}

/// The names of the gimme cards, in order.
fn gimmes(alloc: Global, message: &[WireCard]) -> Result<Vec<Name>, Memory>
    ensures { IfOk result (λ names. names.items ≡ filter_map gimme_of message.now) }
{
    let mut names = Vec::new(alloc);
    for card in message {
        if let Some(name) = gimme_of(card) {
            names.push(name)?;
        }
    }
    Ok(names)
}

/// The first of each name, in order.
fn once(alloc: Global, names: &[Name]) -> Result<Vec<Name>, Memory>
    ensures { IfOk result (λ list. list.items ≡ each_once [] names.now) }
{
    let mut seen = BTreeSet::new(alloc);
    let mut list = Vec::new(alloc);
    for name in names {
        if seen.insert(*name)? {
            list.push(*name)?;
        }
    }
    Ok(list)
}

/// The names that gimme cards ask for, in order, each once.
pub(crate) fn asked_names(alloc: Global, message: &[WireCard]) -> Result<Vec<Name>, Memory>
    ensures { IfOk result (λ names. names.items ≡ each_once [] (filter_map gimme_of message.now)) }
{
    let names = gimmes(alloc, message)?;
    once(alloc, &names)
}
