//! Finds the values that the J cards of a ticket give its fields.
ghost use Rattle.std.specs.Prelude.{◌≡◌, ◌&&◌, not, [], ℕ, List, None, IfOk, OnOk, cond, map};
ghost use Rattle.std.specs.BTreeMap.{is_at};
ghost use Rattle.fsl_order.specs.Names.{bytes_cmp};
ghost use Rattle.fsl_ticket.specs.Tickets.{after};
ghost use Rattle.fsl_ticket.specs.Seen.{look, taken, value_in};
ghost use Rattle.fsl_ticket.specs.Kept.{is_set, replaces};
ghost use Rattle.fsl_ticket.specs.Walked.{made};

use super::FieldChange;
use fsl_text::{List, Memory, Text};
use std::alloc::Global;
use std::collections::BTreeMap;

/// Puts other bytes in the place of a value.
fn replace(alloc: Global, value: &mut Text, bytes: &[u8]) -> Result<(), Memory>
    ensures { OnOk result (value.new ≡ bytes.now) }
{
    *value = Text::of(alloc, bytes)?;
    Ok(())
}

/// What a card makes of the value of its field.
fn take(alloc: Global, value: &mut Text, card: &FieldChange) -> Result<(), Memory>
    ensures { OnOk result (value.new ≡ after value.old card.now) }
{
    if card.append {
        value.append(card.value.bytes())
    } else {
        replace(alloc, value, card.value.bytes())
    }
}

/// Takes the value of a field out, with the field; it is empty where there is none.
fn take_out(
    alloc: Global,
    values: &mut BTreeMap<Text, Text>,
    field: &Text,
) -> Result<(Text, Text), Memory>
    ensures field { IfOk result (λ p. p.0 ≡ field.now) }
    ensures value { IfOk result (λ p. p.1 ≡ value_in values.old.entries field.now) }
    ensures others { OnOk result ((q : List ℕ) → look q values.new.entries ≡ cond (is_at (bytes_cmp field.now) q) None (look q values.old.entries)) }
{
    match values.remove_entry(field) {
        Some(entry) => Ok(entry),
        None => Ok((Text::of(alloc, field.bytes())?, Text::empty(alloc))),
    }
}

/// Takes a card into the values.
fn take_card(
    alloc: Global,
    values: &mut BTreeMap<Text, Text>,
    card: &FieldChange,
) -> Result<(), Memory>
    ensures { OnOk result ((q : List ℕ) → value_in values.new.entries q ≡ taken card.now q (value_in values.old.entries q)) }
{
    let (field, mut value) = take_out(alloc, values, &card.field)?;
    take(alloc, &mut value, card)?;
    match values.insert(field, value) {
        Ok(_) => Ok(()),
        Err(_) => Err(Memory),
    }
}

/// Takes cards into the values, in their order. `Memory` is the only error. Some cards may be in then.
pub fn take_all(
    alloc: Global,
    values: &mut BTreeMap<Text, Text>,
    cards: &[FieldChange],
) -> Result<(), Memory>
    ensures { OnOk result ((q : List ℕ) → value_in values.new.entries q ≡ made cards.now q (value_in values.old.entries q)) }
{
    for card in cards {
        take_card(alloc, values, card)?;
    }
    Ok(())
}

/// Returns the values that the cards of one change give the fields by themselves. `Memory` is the only error.
pub fn made(alloc: Global, cards: &[FieldChange]) -> Result<BTreeMap<Text, Text>, Memory>
    ensures { IfOk result (λ values. (q : List ℕ) → value_in values.entries q ≡ made cards.now q []) }
{
    let mut values = BTreeMap::new(alloc);
    match take_all(alloc, &mut values, cards) {
        Ok(()) => Ok(values),
        Err(Memory) => Err(Memory),
    }
}

/// Whether a card replaces the field.
fn is_replaced(card: &FieldChange, field: &Text) -> bool
    ensures { result ≡ replaces card.now field.now }
{
    card.field.bytes() == field.bytes() && !card.append
}

/// Tells whether one of the cards replaces the field.
pub fn is_set(cards: &[FieldChange], field: &Text) -> bool
    ensures { result ≡ is_set cards.now field.now }
{
    cards.iter().any(|card| is_replaced(card, field))
}

/// Returns the value of a field. It is empty where there is none.
pub fn value_of<'a>(values: &'a BTreeMap<Text, Text>, field: &Text) -> &'a [u8]
    ensures { result.now ≡ value_in values.now.entries field.now }
{
    match values.get(field) {
        Some(value) => value.bytes(),
        None => &[],
    }
}

/// Copies the value of a field. It is empty where there is none. `Memory` is the only error.
pub fn copied(alloc: Global, values: &BTreeMap<Text, Text>, field: &Text) -> Result<Text, Memory>
    ensures { IfOk result (λ value. value ≡ value_in values.now.entries field.now) }
{
    match values.get(field) {
        Some(value) => Text::of(alloc, value.bytes()),
        None => Ok(Text::empty(alloc)),
    }
}

/// Copies the values of some fields, in their order. `Memory` is the only error.
pub fn of_fields(
    alloc: Global,
    values: &BTreeMap<Text, Text>,
    fields: &[Text],
) -> Result<List<Text>, Memory>
    ensures { IfOk result (λ list. list ≡ map (value_in values.now.entries) fields.now) }
{
    let mut list = List::new(alloc);
    for field in fields {
        if list.push(copied(alloc, values, field)?).is_err() {
            return Err(Memory);
        }
    }
    Ok(list)
}
