//! Reads messages about unversioned files as their cards, answers them, and gives files.
ghost use Rattle.std.specs.Prelude.{◌≡◌, ◌++◌, IfOk, IfErr, OnOk};
ghost use Rattle.fsl_uv.specs.Cards.{IsMessage};
ghost use Rattle.fsl_uv.specs.Syncing.{answered, answer_at, given, given_for};
ghost use Rattle.std.specs.Prelude.{◌∷◌, []};
ghost use Rattle.fsl_uv.specs.declared.Card as card_type;
ghost use Rattle.fsl_uv.specs.declared.fronts.Front.TheVariants as front_is;
ghost use Rattle.fsl_uv.specs.Reading.{
  offer_seen,
  fault_seen,
  IsFront,
  IsFrontFault,
  has_offer,
  NotesOffer,
  offers_seen,
  first_offers,
  answer_for,
};
ghost use Rattle.std.specs.Prelude.{flat_map};
ghost use Rattle.std.specs.Map.{keys_of};
ghost use Rattle.std.specs.BTreeMap.{insert_entry};
ghost use Rattle.fsl_order.specs.Names.{bytes_cmp};
ghost use Rattle.fsl_order.specs.Maps.{value_at};
ghost use Rattle.std.specs.Option.{option_copied};
ghost use Rattle.fsl_uv.specs.Cards.{message_text};
ghost use Rattle.fsl_uv.specs.Stores.{IsMessageFault};

use crate::cards::{add_file, add_gimme};
use crate::fronts::{Front, front_of};
use crate::held::Held;
use crate::version::Version;
use crate::{Card, UvMessageFault};
use fsl_date::Moment;
use fsl_name::Name;
use fsl_text::{List, Memory, Text};
use std::alloc::Global;
use std::cmp::Ordering;
use std::collections::BTreeMap;

/// The moment and the hash in an offer.
#[derive(Clone, Copy)]
pub(crate) struct Offer {
    moment: Moment,
    hash: Option<Name>,
}

/// Adds a card.
fn add_card(cards: &mut Vec<Card>, card: Card) -> Result<(), Memory>
    ensures { OnOk result (cards.new.items ≡ cards.old.items ++ card ∷ []) }
{
    cards.push(card)?;
    Ok(())
}

/// Returns why bytes begin with no card, if their line has this number. Returns `None` if they begin with one.
fn fault_at(front: &Front, line: u64) -> Option<UvMessageFault>
    ensures { result ≡ fault_seen line front.now }
{
    match front {
        Front::Card { .. } => None,
        Front::Misnamed { kept, found } => Some(UvMessageFault::NameWrong {
            kept: *kept,
            found: *found,
        }),
        Front::Bad => Some(UvMessageFault::Line { line }),
    }
}

/// Reads the card at the front of bytes, adds it, and returns the length of its text. The line has this number.
fn read_next(
    alloc: Global,
    rest: &[u8],
    cards: &mut Vec<Card>,
    line: u64,
) -> Result<usize, UvMessageFault>
    ensures ok { IfOk result (λ size. (c : card_type.Card) × (cards.new.items ≡ cards.old.items ++ c ∷ []) × IsFront rest.now (front_is.Card c size)) }
    ensures fault { IfErr result (IsFrontFault rest.now line) }
{
    let Ok(front) = front_of(alloc, rest) else {
        return Err(UvMessageFault::Memory);
    };
    if let Some(fault) = fault_at(&front, line) {
        return Err(fault);
    }
    let Front::Card { card, size } = front else {
        unreachable!()
    };
    match add_card(cards, card) {
        Ok(()) => Ok(size),
        Err(_) => Err(UvMessageFault::Memory),
    }
}

/// Reads the cards of a message.
pub(crate) fn read_cards(alloc: Global, message: &[u8]) -> Result<List<Card>, UvMessageFault>
    ensures message { IfOk result (IsMessage message.now) }
    ensures fault { IfErr result (IsMessageFault message.now) }
{
    let mut cards = Vec::new(alloc);
    let mut at = 0usize;
    let mut line = 1u64;
    while at < message.len() {
        match read_next(alloc, &message[at..], &mut cards, line) {
            Ok(size) => at += size,
            Err(fault) => return Err(fault),
        }
        line += 1;
    }
    Ok(List::from_vec(cards))
}

/// Returns whether a path is noted with an offer.
fn is_offered(offers: &BTreeMap<Text, Option<Offer>>, path: &Text) -> bool
    ensures { result ≡ has_offer (value_at offers.now.entries path.now) }
{
    match offers.get(path) {
        Some(Some(_)) => true,
        Some(None) => false,
        None => false,
    }
}

/// Notes a path with an offer, or without one.
pub(crate) fn note(
    alloc: Global,
    offers: &mut BTreeMap<Text, Option<Offer>>,
    path: &Text,
    offer: Option<Offer>,
) -> Result<(), Memory>
    ensures { OnOk result (offers.new.entries ≡ insert_entry bytes_cmp offers.old.entries path.now offer) }
{
    let key = Text::of(alloc, path.bytes())?;
    match offers.insert(key, offer) {
        Ok(_) => Ok(()),
        Err(_) => Err(Memory),
    }
}

/// Notes the offer of a card, if it is the first one of its path.
fn note_offer(
    alloc: Global,
    offers: &mut BTreeMap<Text, Option<Offer>>,
    card: &Card,
) -> Result<(), Memory>
    ensures { OnOk result (NotesOffer offers.old.entries card.now offers.new.entries) }
{
    let Card::Igot {
        path,
        moment,
        hash,
        ..
    } = card
    else {
        return Ok(());
    };
    if is_offered(offers, path) {
        return Ok(());
    }
    let offer = Offer {
        moment: *moment,
        hash: *hash,
    };
    note(alloc, offers, path, Some(offer))
}

/// Returns each path that is here or offered, with its first offer.
fn offers_of(
    alloc: Global,
    held: &Held,
    cards: &[Card],
) -> Result<BTreeMap<Text, Option<Offer>>, Memory>
    ensures { IfOk result (λ offers. offers_seen offers.entries ≡ first_offers (keys_of held.now) cards.now) }
{
    let mut offers = held.paths(alloc)?;
    for card in cards {
        note_offer(alloc, &mut offers, card)?;
    }
    Ok(offers)
}

/// Adds the answer to an offer of a path, by its version here.
fn add_answer(
    alloc: Global,
    into: &mut Text,
    path: &Text,
    here: Option<&Version>,
    offer: &Option<Offer>,
) -> Result<(), Memory>
    ensures { OnOk result (into.new ≡ into.old ++ message_text (answer_at path.now (option_copied here.entry) (offer_seen offer.now))) }
{
    match (here, offer) {
        (None, None) => Ok(()),
        (None, Some(_)) => add_gimme(alloc, into, path),
        (Some(version), None) => add_file(alloc, into, path, version),
        (Some(version), Some(offer)) => match version.order_to(offer.moment, &offer.hash) {
            Ordering::Less => add_gimme(alloc, into, path),
            Ordering::Equal => Ok(()),
            Ordering::Greater => add_file(alloc, into, path, version),
        },
    }
}

/// Writes the answers to the offers of paths, in their order.
fn answers_to(
    alloc: Global,
    held: &Held,
    offers: &BTreeMap<Text, Option<Offer>>,
) -> Result<Text, Memory>
    ensures { IfOk result (λ text. text ≡ message_text (flat_map (answer_for held.now) offers.now.entries)) }
{
    let mut text = Text::empty(alloc);
    for (path, offer) in offers {
        add_answer(alloc, &mut text, path, held.get(path), offer)?;
    }
    Ok(text)
}

/// Writes the answer to the offers of a message, by path.
pub(crate) fn answer_to(alloc: Global, held: &Held, cards: &[Card]) -> Result<Text, Memory>
    ensures { IfOk result (λ text. text ≡ message_text (answered held.now cards.now)) }
{
    let offers = offers_of(alloc, held, cards)?;
    let text = answers_to(alloc, held, &offers);
    drop(offers);
    text
}

/// Adds the file that a card asks for, if it is here.
fn add_given(alloc: Global, into: &mut Text, held: &Held, card: &Card) -> Result<(), Memory>
    ensures { OnOk result (into.new ≡ into.old ++ message_text (given_for held.now card.now)) }
{
    let Card::Gimme { path } = card else {
        return Ok(());
    };
    match held.get(path) {
        Some(version) => add_file(alloc, into, path, version),
        None => Ok(()),
    }
}

/// Writes the files that the cards of a message ask for and that are here, in order.
pub(crate) fn given_to(alloc: Global, held: &Held, cards: &[Card]) -> Result<Text, Memory>
    ensures { IfOk result (λ text. text ≡ message_text (given held.now cards.now)) }
{
    let mut text = Text::empty(alloc);
    for card in cards {
        add_given(alloc, &mut text, held, card)?;
    }
    Ok(text)
}
