//! Changes of tickets.
ghost use Rattle.std.specs.Prelude.{◌≡◌, ◌++◌, map, IfOk, IsTrue, OnOk};
ghost use Rattle.std.specs.List.{list_all};
ghost use Rattle.fsl_card.specs.Cards.{IsReading, IsTextOf, card_text, text_of};
ghost use Rattle.fsl_date.specs.Moment.{IsMoment};
ghost use Rattle.fsl_forms.specs.Kinds.{IsTicket, change_form, change_in};
ghost use Rattle.fsl_forms.specs.Parts.{field_in};
ghost use Rattle.fsl_forms.specs.WellFormed.{is_change_written, is_ticket_well_formed};
ghost use Rattle.fsl_forms.specs.Writing.{IsTicketText, change_card, ticket_cards};
ghost use Rattle.fsl_grammar.specs.Reading.{IsGiven, IsRead};
ghost use Rattle.fsl_text.specs.Escapes.{unescape};

use fsl_card::{Card, Cards, finish};
use fsl_date::Moment;
use fsl_grammar::{
    DateForm, Form, HashForm, Unread, UserForm, begin_card, each, end_card, has_ticket_letters,
    one, write_card, write_name_card, write_optional_text, write_signed_text, write_text,
    write_text_card,
};
use fsl_name::Name;
use fsl_text::{List, Memory, Text, unescape};
use std::alloc::Global;

/// A field of a ticket that is replaced, or appended to. A field that is replaced doesn't begin with `+`. A value that is there
/// may be empty.
#[derive(Drop)]
pub struct TicketChange {
    pub append: bool,
    pub field: Text,
    pub value: Option<Text>,
}

/// A change of a ticket: its fields in the order of the J cards.
#[derive(Drop)]
pub struct Ticket {
    pub date: Moment,
    pub changes: List<TicketChange>,
    pub id: Name,
    pub user: Text,
}

impl Ticket {
    /// Reads a ticket change from its cards. Returns `None` if their letters aren't those of one, or an argument hasn't its form.
    /// `Memory` is the only error.
    /// FORMATS: Kinds
    pub fn read(alloc: Global, cards: &Cards) -> Result<Option<Ticket>, Memory>
        ensures { IfOk result (IsReading IsTicket cards.now) }
    {
        match read_cards(alloc, cards.items()) {
            Ok(ticket) => Ok(Some(ticket)),
            Err(Unread::Form) => Ok(None),
            Err(Unread::Memory) => Err(Memory),
        }
    }

    /// Returns whether the ticket change can be written. There are changes, and each names a field with a byte. A field that is
    /// replaced doesn't begin with `+`. The user has a byte. It takes no memory.
    pub fn well_formed(&self) -> bool
        ensures { result ≡ is_ticket_well_formed self.now }
    {
        !self.changes.items().is_empty()
            && all_changes_written(self.changes.items())
            && !self.user.bytes().is_empty()
    }

    /// Writes the text of the ticket change, its Z card included. It reads back as the value. `Memory` is the only error.
    /// FORMATS: Kinds
    pub fn write(&self, alloc: Global) -> Result<Text, Memory>
        requires { IsTrue (is_ticket_well_formed self.now) }
        ensures written { IfOk result (λ text. IsTicketText text self.now) }
        ensures read { IfOk result (λ text. IsTextOf IsTicket text self.now) }
    {
        let _ = self.id.bytes();
        let mut lines = Text::empty(alloc);
        self.write_cards(&mut lines)?;
        finish(&mut lines)?;
        Ok(lines)
    }

    /// Writes all cards but the Z card at the end of a text.
    fn write_cards(&self, into: &mut Text) -> Result<(), Memory>
        ensures { OnOk result (IsMoment self.now.date × (into.new ≡ into.old ++ text_of (ticket_cards self.now))) }
    {
        write_card(into, b'D', &self.date.text())?;
        write_changes(into, self.changes.items())?;
        write_name_card(into, b'K', &self.id)?;
        write_text_card(into, b'U', self.user.bytes())
    }
}

fn read_cards(alloc: Global, cards: &[Card]) -> Result<Ticket, Unread>
    ensures { IsRead IsTicket cards.now result }
{
    if !has_ticket_letters(cards) {
        return Err(Unread::Form);
    }
    let date = one::<DateForm>(alloc, cards, b'D')?;
    let changes = each::<ChangeForm>(alloc, cards, b'J')?;
    let id = one::<HashForm>(alloc, cards, b'K')?;
    let user = one::<UserForm>(alloc, cards, b'U')?;
    Ok(Ticket {
        date,
        changes,
        id,
        user,
    })
}

/// A field, with `+` before it if the change appends, and behind it the value, which may be missing.
struct ChangeForm;

impl Form for ChangeForm {
    type Value = TicketChange;

    ghost form = { change_form };

    fn read(alloc: Global, args: &[Text]) -> Result<TicketChange, Unread> {
        match args {
            [name] => read_change(alloc, name.bytes(), None),
            [name, value] => {
                let value = unescape(alloc, value.bytes())?;
                read_change(alloc, name.bytes(), Some(value))
            }
            _ => Err(Unread::Form),
        }
    }
}

fn read_change(alloc: Global, name: &[u8], value: Option<Text>) -> Result<TicketChange, Unread>
    ensures { IsGiven (change_in (unescape name.now) value) result }
{
    match read_field(alloc, name) {
        Ok((append, field)) => Ok(TicketChange {
            append,
            field,
            value,
        }),
        Err(why) => {
            drop(value);
            Err(why)
        }
    }
}

/// Reads a field, and whether a `+` before it appends. Fails with `Form` if no byte comes behind the `+`, or none at all.
fn read_field(alloc: Global, name: &[u8]) -> Result<(bool, Text), Unread>
    ensures { IsGiven (field_in (unescape name.now)) result }
{
    let name = unescape(alloc, name)?;
    let Some((first, rest)) = name.bytes().split_first() else {
        return Err(Unread::Form);
    };
    if *first != b'+' {
        return Ok((false, name));
    }
    if rest.is_empty() {
        return Err(Unread::Form);
    }
    Ok((true, Text::of(alloc, rest)?))
}

fn all_changes_written(changes: &[TicketChange]) -> bool
    ensures { result ≡ list_all is_change_written changes.now }
{
    changes.iter().all(|change| is_change_written(change))
}

fn is_change_written(change: &TicketChange) -> bool
    ensures { result ≡ is_change_written change.now }
{
    match change.field.bytes().first() {
        Some(first) => change.append || *first != b'+',
        None => false,
    }
}

fn write_changes(into: &mut Text, changes: &[TicketChange]) -> Result<(), Memory>
    ensures { OnOk result (into.new ≡ into.old ++ text_of (map change_card changes.now)) }
{
    for change in changes {
        write_change(into, change)?;
    }
    Ok(())
}

fn write_change(into: &mut Text, change: &TicketChange) -> Result<(), Memory>
    ensures { OnOk result (into.new ≡ into.old ++ card_text (change_card change.now)) }
{
    begin_card(into, b'J')?;
    if change.append {
        write_signed_text(into, b'+', change.field.bytes())?;
    } else {
        write_text(into, change.field.bytes())?;
    }
    write_optional_text(into, &change.value)?;
    end_card(into)
}
