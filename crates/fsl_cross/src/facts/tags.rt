//! Makes the facts of tags from the T cards of check-ins, control artifacts and technotes.
ghost use Rattle.std.specs.Prelude.{◌≡◌, ◌++◌, ◌∷◌, [], IfOk, OnOk, filter_map, map, option_map, option_to_list, unwrap_or};
ghost use Rattle.std.specs.List.{enumerate_from};
ghost use Rattle.std.specs.List.Sorted.{IsStrictlySortedBy};
ghost use Rattle.fsl_order.specs.Names.{bytes_cmp};
ghost use Rattle.fsl_cross.specs.Checkins.{links_facts, tags_facts};
ghost use Rattle.fsl_cross.specs.Facts.{assertion, assertion_on, tag_cards, tag_prefix_of, target_of};
ghost use Rattle.fsl_cross.specs.Inside.{tags_fact_over};

use super::append;
use crate::checkin::manifest;
use crate::held::Held;
use crate::items::Items;
use fsl_artifact::Artifact;
use fsl_date::Moment;
use fsl_grammar as grammar;
use fsl_grammar::TagCard;
use fsl_links::Links;
use fsl_name::{Name, Ref};
use fsl_tags::{Assertion, Fact, Prefix, Tags};
use fsl_text::{List, Memory, Text};
use std::alloc::Global;

/// The date and the T cards of an artifact that may have some.
fn cards(artifact: &Artifact) -> Option<(Moment, &[TagCard])>
    ensures { option_map (λ c. (c.0, c.1.now)) result ≡ tag_cards artifact.now }
{
    match artifact {
        Artifact::Manifest(manifest) => Some((manifest.date, manifest.tags.items())),
        Artifact::Control(control) => Some((control.date, control.tags.items())),
        Artifact::Technote(note) => Some((note.date, note.tags.items())),
        _ => None,
    }
}

/// How a T card sets its tag, as the table has it.
fn prefix_of(prefix: grammar::Prefix) -> Prefix
    ensures { result ≡ tag_prefix_of prefix }
{
    match prefix {
        grammar::Prefix::Once => Prefix::Once,
        grammar::Prefix::Cancel => Prefix::Cancel,
        grammar::Prefix::Propagate => Prefix::Propagate,
    }
}

/// A value, empty where there is none.
fn value_of(alloc: Global, value: &Option<Text>) -> Result<Text, Memory>
    ensures { IfOk result (λ text. text ≡ unwrap_or value.now []) }
{
    match value {
        Some(text) => Text::of(alloc, text.bytes()),
        None => Ok(Text::empty(alloc)),
    }
}

/// What a T card of an artifact is on: without a target the artifact itself. A foreign target is nothing that is held.
fn target_of(source: Name, target: &Option<Ref>) -> Option<Name>
    ensures { result ≡ target_of source target.now }
{
    match target {
        Some(found) => found.own(),
        None => Some(source),
    }
}

/// What the T card at a place of an artifact says of a target.
fn assertion_of(
    alloc: Global,
    date: Moment,
    source: Name,
    place: u64,
    card: &TagCard,
    target: Name,
) -> Result<Assertion, Memory>
    ensures { IfOk result (λ a. a ≡ assertion_on date source (place, card.now) target) }
{
    Ok(Assertion {
        date,
        source,
        place,
        prefix: prefix_of(card.prefix),
        tag: Text::of(alloc, card.tag.bytes())?,
        value: value_of(alloc, &card.value)?,
        target,
    })
}

fn push(list: &mut List<Assertion>, assertion: Assertion) -> Result<(), Memory>
    ensures { OnOk result (list.new ≡ list.old ++ assertion ∷ []) }
{
    match list.push(assertion) {
        Ok(()) => Ok(()),
        Err(_) => Err(Memory),
    }
}

/// Puts what the T card at a place of an artifact says at the end, where its target isn't foreign.
fn push_said(
    alloc: Global,
    list: &mut List<Assertion>,
    date: Moment,
    source: Name,
    place: u64,
    card: &TagCard,
) -> Result<(), Memory>
    ensures { OnOk result (list.new ≡ list.old ++ option_to_list (assertion date source (place, card.now))) }
{
    match target_of(source, &card.target) {
        Some(target) => push(
            list,
            assertion_of(alloc, date, source, place, card, target)?,
        ),
        None => Ok(()),
    }
}

/// What the T cards of an artifact say, in their order. Cards with a foreign target say nothing, but are counted.
fn assertions_of(
    alloc: Global,
    date: Moment,
    source: Name,
    cards: &[TagCard],
) -> Result<List<Assertion>, Memory>
    ensures { IfOk result (λ list. list ≡ filter_map (assertion date source) (enumerate_from 0 cards.now)) }
{
    let mut list = List::new(alloc);
    for (place, card) in cards.iter().enumerate() {
        push_said(alloc, &mut list, date, source, place as u64, card)?;
    }
    Ok(list)
}

/// The fact that an artifact gives, where it may have T cards.
pub(crate) fn fact_of(alloc: Global, links: &Links, item: &Held) -> Result<Option<Fact>, Memory>
    ensures { IfOk result (λ fact. fact ≡ tags_fact_over links.now.facts item.now) }
{
    let Some((date, cards)) = cards(item.artifact()) else {
        return Ok(None);
    };
    Ok(Some(Fact {
        name: item.name(),
        checkin: manifest(item.artifact()).is_some(),
        parent: links.primary(item.name()),
        tags: assertions_of(alloc, date, item.name(), cards)?,
    }))
}

/// The facts that artifacts give over the table of their parentage. `Memory` is the only error.
fn of_items(alloc: Global, links: &Links, items: &Items) -> Result<Vec<Fact>, Memory>
    ensures { IfOk result (λ facts. facts.items ≡ filter_map (tags_fact_over links.now.facts) items.now) }
{
    let mut facts = Vec::new(alloc);
    for item in items.iter() {
        append(&mut facts, fact_of(alloc, links, item)?)?;
    }
    Ok(facts)
}

/// The table of tags, by the table of parentage. `Memory` is the only error.
pub(crate) fn table(alloc: Global, links: &Links, items: &Items) -> Result<Tags, Memory>
    requires rising { IsStrictlySortedBy bytes_cmp (map (λ i. i.name) items.now) }
    requires links { links.now.facts ≡ links_facts items.now }
    ensures { IfOk result (λ t. t.facts ≡ tags_facts items.now) }
{
    Tags::build(alloc, &of_items(alloc, links, items)?)
}
