//! Reads the values of the cards of one letter.
ghost use Rattle.std.specs.Prelude.{◌≡◌, ◌++◌, IfOk, IsTrue, flat_map, is_some, map};
ghost use Rattle.std.specs.List.{list_all};
ghost use Rattle.fsl_grammar.specs.Forms.{HasOne, HasAtMostOne, HasEach, HasParents, HasBody, arguments, refs_differ};
ghost use Rattle.fsl_grammar.specs.Reading.{IsRead};
ghost use Rattle.fsl_name.specs.Ref.{ref_bytes, ref_in};

use super::forms::{Form, read_ref};
use crate::Unread;
use fsl_card::Card;
use fsl_name::Ref;
use fsl_text::{List, Memory, Text};
use std::alloc::Global;

/// Reads the values of all cards of a letter, in order. Fails with `Form` if one of them hasn't the form, or with `Memory`.
pub fn each<F: Form>(alloc: Global, cards: &[Card], letter: u8) -> Result<List<F::Value>, Unread>
    ensures { IsRead (λ cards xs. HasEach cards letter F.form xs) cards.now result }
{
    let mut values = List::new(alloc);
    for card in cards {
        if card.letter == letter {
            let value = F::read(alloc, card.args.items())?;
            if values.push(value).is_err() {
                return Err(Unread::Memory);
            }
        }
    }
    Ok(values)
}

/// Reads the value of the card of a letter, if there is one. Fails with `Form` if there are several or it hasn't the form, or
/// with `Memory`.
pub fn at_most_one<F: Form>(
    alloc: Global,
    cards: &[Card],
    letter: u8,
) -> Result<Option<F::Value>, Unread>
    ensures { IsRead (λ cards o. HasAtMostOne cards letter F.form o) cards.now result }
{
    let mut found = None;
    for card in cards {
        if card.letter == letter {
            if found.is_some() {
                return Err(Unread::Form);
            }
            found = Some(F::read(alloc, card.args.items())?);
        }
    }
    Ok(found)
}

/// Reads the value of the one card of a letter. Fails with `Form` if there isn't exactly one or it hasn't the form, or with
/// `Memory`.
pub fn one<F: Form>(alloc: Global, cards: &[Card], letter: u8) -> Result<F::Value, Unread>
    ensures { IsRead (λ cards x. HasOne cards letter F.form x) cards.now result }
{
    at_most_one::<F>(alloc, cards, letter)?.ok_or(Unread::Form)
}

/// Reads the references of the P card, or none if there is no such card. Fails with `Form` if one of the arguments is no
/// reference or two of them are the same, or with `Memory`.
pub fn parents(alloc: Global, cards: &[Card]) -> Result<List<Ref>, Unread>
    ensures { IsRead HasParents cards.now result }
{
    let refs = parent_refs(alloc, cards)?;
    if all_differ(alloc, refs.items())? {
        Ok(refs)
    } else {
        Err(Unread::Form)
    }
}

/// Reads the references of the P cards. Fails with `Form` if one of the arguments is none.
fn parent_refs(alloc: Global, cards: &[Card]) -> Result<List<Ref>, Unread>
    ensures { IsRead (λ cards refs. map ref_in (flat_map (λ args. args) (arguments cards 80)) ≡ map Some refs) cards.now result }
{
    let mut refs = List::new(alloc);
    for card in cards {
        if card.letter == b'P' && !push_refs(&mut refs, card.args.items())? {
            return Err(Unread::Form);
        }
    }
    Ok(refs)
}

/// Reads arguments as references behind others, and returns whether all of them are references.
fn push_refs(refs: &mut List<Ref>, args: &[Text]) -> Result<bool, Memory>
    ensures all { IfOk result (λ all. all ≡ list_all (λ arg. is_some (ref_in arg)) args.now) }
    ensures refs { IfOk result (λ all. IsTrue all → map Some refs.old ++ map ref_in args.now ≡ map Some refs.new) }
{
    for arg in args {
        match read_ref(arg.bytes()) {
            Some(found) => {
                if refs.push(found).is_err() {
                    return Err(Memory);
                }
            }
            None => return Ok(false),
        }
    }
    Ok(true)
}

/// Returns whether all references differ.
fn all_differ(alloc: Global, refs: &[Ref]) -> Result<bool, Memory>
    ensures { IfOk result (λ differ. differ ≡ refs_differ refs.now) }
{
    let mut sorted = bytes_of(alloc, refs)?;
    sorted.sort_unstable();
    sorted.dedup();
    Ok(sorted.len() == refs.len())
}

/// Returns the bytes of references, in their order.
fn bytes_of(alloc: Global, refs: &[Ref]) -> Result<Vec<&[u8]>, Memory>
    ensures { IfOk result (λ all. map (λ bytes. bytes.now) all.items ≡ map ref_bytes refs.now) }
{
    let mut all = Vec::new(alloc);
    for found in refs {
        all.push(found.bytes())?;
    }
    Ok(all)
}

/// Reads the body of the one card that has one. Fails with `Form` if there isn't exactly one, or with `Memory`.
pub fn body(alloc: Global, cards: &[Card]) -> Result<Text, Unread>
    ensures { IsRead HasBody cards.now result }
{
    let mut found = None;
    for card in cards {
        if let Some(body) = &card.body {
            if found.is_some() {
                return Err(Unread::Form);
            }
            found = Some(body);
        }
    }
    match found {
        Some(body) => Ok(Text::of(alloc, body.bytes())?),
        None => Err(Unread::Form),
    }
}
