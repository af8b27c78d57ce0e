//! Keeps the keys of the fields that changes replace, and finds the newest change that replaces a field.
ghost use Rattle.std.specs.Prelude.{◌≡◌, ◌||◌, IfOk, OnOk};
ghost use Rattle.std.specs.Option.{option_map};
ghost use Rattle.std.specs.List.Sorted.{IsStrictlySortedBy};
ghost use Rattle.std.specs.Map.{keys_of};
ghost use Rattle.fsl_order.specs.Names.{bytes_cmp};
ghost use Rattle.fsl_table.specs.Contents.{first_of, without_key};
ghost use Rattle.fsl_table.specs.Within.{within};
ghost use Rattle.fsl_ticket.specs.FieldOrder.{field_cmp};
ghost use Rattle.fsl_ticket.specs.Kept.{AreSets, AreWithout, Setting, is_card_set, is_kept_set, is_set_of, setting_cmp};
ghost use Rattle.fsl_ticket.specs.Walked.{is_newer};

use crate::FieldChange;
use crate::entry::Entry;
use crate::field::TicketField;
use crate::place::Place;
use fsl_name::Name;
use fsl_table::within::next_within;
use fsl_table::{Tracked, Within};
use fsl_text::{Memory, Steps, Text};
use std::alloc::Global;
use std::sync::ledger::Ledger;

/// The key of a change, where one is given, that replaces a field. The name of the field is copied.
fn setting(
    alloc: Global,
    id: Name,
    field: &Text,
    place: Option<Place>,
) -> Result<Within<TicketField, Place>, Memory>
    ensures { IfOk result (λ key. key ≡ record { first = record { id = id; field = field.now }; second = place }) }
{
    let field = Text::of(alloc, field.bytes())?;
    Ok(Within {
        first: TicketField { id, field },
        second: place,
    })
}

/// Puts the key of a change and of the field of one of its cards, where the card replaces it.
fn put_set<L: Ledger>(
    alloc: Global,
    sets: &mut Tracked<Within<TicketField, Place>, ()>,
    id: Name,
    place: Place,
    card: &FieldChange,
    steps: &mut Steps<L>,
) -> Result<(), Memory>
    requires { IsStrictlySortedBy setting_cmp (keys_of sets.old.held.entries) }
    ensures ordered { OnOk result (IsStrictlySortedBy setting_cmp (keys_of sets.new.held.entries)) }
    ensures sets { OnOk result ((k : Setting) → is_kept_set sets.new.held.entries k ≡ (is_card_set id place card.now k || is_kept_set sets.old.held.entries k)) }
    ensures was { sets.new.was ≡ sets.old.was }
{
    if card.append {
        return Ok(());
    }
    match setting(alloc, id, &card.field, Some(place)) {
        Ok(key) => match setting(alloc, id, &card.field, Some(place)) {
            Ok(again) => sets.put(key, again, (), steps),
            Err(Memory) => {
                drop(key);
                Err(Memory)
            }
        },
        Err(Memory) => Err(Memory),
    }
}

/// Puts the keys of a change, one for each field that its cards replace. After `Memory` some may be put.
pub(crate) fn put_sets<L: Ledger>(
    alloc: Global,
    sets: &mut Tracked<Within<TicketField, Place>, ()>,
    id: Name,
    place: Place,
    cards: &[FieldChange],
    steps: &mut Steps<L>,
) -> Result<(), Memory>
    requires { IsStrictlySortedBy setting_cmp (keys_of sets.old.held.entries) }
    ensures ordered { OnOk result (IsStrictlySortedBy setting_cmp (keys_of sets.new.held.entries)) }
    ensures sets { OnOk result ((k : Setting) → is_kept_set sets.new.held.entries k ≡ (is_kept_set sets.old.held.entries k || is_set_of id place cards.now k)) }
    ensures was { sets.new.was ≡ sets.old.was }
{
    for card in cards {
        put_set(alloc, sets, id, place, card, steps)?;
    }
    Ok(())
}

/// Takes the key of a change and of the field of one of its cards out, where the card replaces it.
fn take_set<L: Ledger>(
    alloc: Global,
    sets: &mut Tracked<Within<TicketField, Place>, ()>,
    id: Name,
    place: Place,
    card: &FieldChange,
    steps: &mut Steps<L>,
) -> Result<(), Memory>
    requires { IsStrictlySortedBy setting_cmp (keys_of sets.old.held.entries) }
    ensures ordered { OnOk result (IsStrictlySortedBy setting_cmp (keys_of sets.new.held.entries)) }
    ensures sets { OnOk result (AreWithout (is_card_set id place card.now) sets.old.held.entries sets.new.held.entries) }
    ensures was { sets.new.was ≡ sets.old.was }
{
    if card.append {
        return Ok(());
    }
    match setting(alloc, id, &card.field, Some(place)) {
        Ok(key) => sets.remove(key, steps),
        Err(Memory) => Err(Memory),
    }
}

/// Takes the keys of a change out. After `Memory` some may be out.
fn take_sets<L: Ledger>(
    alloc: Global,
    sets: &mut Tracked<Within<TicketField, Place>, ()>,
    id: Name,
    place: Place,
    cards: &[FieldChange],
    steps: &mut Steps<L>,
) -> Result<(), Memory>
    requires { IsStrictlySortedBy setting_cmp (keys_of sets.old.held.entries) }
    ensures ordered { OnOk result (IsStrictlySortedBy setting_cmp (keys_of sets.new.held.entries)) }
    ensures sets { OnOk result (AreWithout (is_set_of id place cards.now) sets.old.held.entries sets.new.held.entries) }
    ensures was { sets.new.was ≡ sets.old.was }
{
    for card in cards {
        take_set(alloc, sets, id, place, card, steps)?;
    }
    Ok(())
}

/// Takes the keys of the change of a name out, where the change is there. After `Memory` some may be out.
pub(crate) fn unset<L: Ledger>(
    alloc: Global,
    facts: &Tracked<Name, Entry>,
    sets: &mut Tracked<Within<TicketField, Place>, ()>,
    name: Name,
    steps: &mut Steps<L>,
) -> Result<(), Memory>
    requires ordered { IsStrictlySortedBy bytes_cmp (keys_of facts.now.held.entries) }
    requires sets { AreSets facts.now.held.entries sets.old.held.entries }
    ensures sets { OnOk result (AreSets (without_key bytes_cmp name facts.now.held.entries) sets.new.held.entries) }
    ensures was { sets.new.was ≡ sets.old.was }
{
    match facts.get(&name, steps) {
        None => Ok(()),
        Some(entry) => {
            let place = Place::new(entry.date, name);
            take_sets(alloc, sets, entry.id, place, entry.changes.items(), steps)
        }
    }
}

/// Whether what may be there is newer than a place.
fn is_newer(newest: Option<Place>, place: Place) -> bool
    ensures { result ≡ is_newer place (option_map (λ b. (b, tt)) newest) }
{
    match newest {
        None => false,
        Some(newest) => newest.cmp(&place).is_lt(),
    }
}

/// Whether a newer change of a ticket replaces a field: one look at the newest that does.
pub(crate) fn is_masked<L: Ledger>(
    alloc: Global,
    sets: &Tracked<Within<TicketField, Place>, ()>,
    id: Name,
    field: &Text,
    place: Place,
    steps: &mut Steps<L>,
) -> Result<bool, Memory>
    requires { IsStrictlySortedBy setting_cmp (keys_of sets.now.held.entries) }
    ensures { IfOk result (λ masked. masked ≡ is_newer place (first_of (within field_cmp (record { id = id; field = field.now }) sets.now.held.entries))) }
{
    match setting(alloc, id, field, None) {
        Ok(key) => {
            let newest = next_within(sets.map(), &key, steps);
            drop(key);
            Ok(is_newer(newest, place))
        }
        Err(Memory) => Err(Memory),
    }
}
