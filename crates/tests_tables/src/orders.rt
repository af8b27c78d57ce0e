//! Changes of tickets in orders of which each has its own, and what they change: each comes, is taken back, and comes again.
ghost use Rattle.std.specs.Prelude.{◌≡◌, ◌∷◌, [], ℕ, List, map, IfOk, OnOk};
ghost use Rattle.fsl_order.specs.Names.{has};
ghost use Rattle.fsl_order.specs.Rows.{by_name};

use crate::names::letter;
use crate::wanting::want;
use fsl_name::Name;
use fsl_text::{List, Memory, Steps, Text};
use fsl_ticket::{Fact, FieldChange, Tickets, Undo};
use std::alloc::Global;
use std::sync::ledger::Ledger;
use tests_kit::{Play, add, moment, put, put_names, shown};

/// A card of three bytes: the field, `=` where it replaces that or `+` where it puts something at its end, and the value.
fn card_from(alloc: Global, field: u8, sign: u8, value: u8) -> Result<FieldChange, Memory> {
    let field = Text::of(alloc, &[field])?;
    Ok(FieldChange {
        append: sign == b'+',
        field,
        value: Text::of(alloc, &[value])?,
    })
}

/// The cards of a text, one behind another.
fn cards_from(alloc: Global, text: &[u8]) -> Result<List<FieldChange>, Memory> {
    let mut cards = List::new(alloc);
    let mut rest = text;
    while let [field, sign, value, left @ ..] = rest {
        let card = card_from(alloc, *field, *sign, *value)?;
        cards.append(card)?;
        rest = left;
    }
    Ok(cards)
}

/// A change of a text: a letter of its name, a digit of its date, a letter of the id of its ticket, and its cards.
fn change_from(alloc: Global, text: &[u8]) -> Result<Fact, Memory> {
    let [name, date, id, cards @ ..] = text else {
        return Err(Memory);
    };
    let date = moment(*date as i64)?;
    Ok(Fact {
        name: letter(*name),
        date,
        id: letter(*id),
        changes: cards_from(alloc, cards)?,
    })
}

/// Adds the fields of a ticket, each behind a space, or a dash where it isn't there.
fn add_fields(alloc: Global, tickets: &Tickets, id: u8, into: &mut Text) -> Result<(), Memory> {
    let Some(values) = tickets.fields(alloc, letter(id))? else {
        return add(into, b"-");
    };
    for value in values.items() {
        add(into, value.bytes())?;
    }
    Ok(())
}

/// Adds the fields of two tickets, as far as there is memory.
fn show(alloc: Global, tickets: &Tickets, into: &mut Text) {
    put(into, b"|");
    let _ = add_fields(alloc, tickets, b'x', into);
    let _ = add_fields(alloc, tickets, b'y', into);
}

/// Takes a change in, in the place of that of its name where it is there.
fn take_in<L: Ledger>(
    alloc: Global,
    tickets: &mut Tickets,
    there: bool,
    fact: Fact,
    steps: &mut Steps<L>,
) -> Result<Undo, Memory>
    requires { has (map (λ f. f.name) tickets.old.facts) fact.name ≡ there }
    ensures facts { OnOk result (tickets.new.facts ≡ by_name (λ f. f.name) (fact ∷ tickets.old.facts)) }
    ensures before { IfOk result (λ undo. undo.before ≡ tickets.old) }
    ensures after { IfOk result (λ undo. undo.after ≡ tickets.new) }
{
    if there {
        tickets.change(alloc, fact, steps)
    } else {
        tickets.add(alloc, fact, steps)
    }
}

/// Takes the last change back: which tickets it changed, and what stands before and after.
fn take_back(alloc: Global, tickets: &mut Tickets, undo: Undo, into: &mut Text)
    requires { undo.after ≡ tickets.old }
    ensures { tickets.new.facts ≡ undo.before.facts }
{
    put(into, b"/");
    put_names(into, undo.changed().items());
    show(alloc, tickets, into);
    tickets.undo(undo);
    show(alloc, tickets, into);
}

/// Takes a change in and back.
fn try_one<L: Ledger>(
    alloc: Global,
    tickets: &mut Tickets,
    there: bool,
    fact: Fact,
    into: &mut Text,
    steps: &mut Steps<L>,
) -> Result<(), Memory>
    requires { has (map (λ f. f.name) tickets.old.facts) fact.name ≡ there }
    ensures { OnOk result (tickets.new.facts ≡ tickets.old.facts) }
{
    match take_in(alloc, tickets, there, fact, steps) {
        Ok(undo) => {
            take_back(alloc, tickets, undo, into);
            Ok(())
        }
        Err(Memory) => Err(Memory),
    }
}

/// Takes a change in, and lets go what would take it back.
fn keep_one<L: Ledger>(
    alloc: Global,
    tickets: &mut Tickets,
    there: bool,
    fact: Fact,
    steps: &mut Steps<L>,
) -> Result<(), Memory>
    requires { has (map (λ f. f.name) tickets.old.facts) fact.name ≡ there }
    ensures { OnOk result (tickets.new.facts ≡ by_name (λ f. f.name) (fact ∷ tickets.old.facts)) }
{
    match take_in(alloc, tickets, there, fact, steps) {
        Ok(undo) => {
            drop(undo);
            Ok(())
        }
        Err(Memory) => Err(Memory),
    }
}

/// Whether a name is among others.
fn is_among(names: &[Name], name: Name) -> bool
    ensures { result ≡ has names.now name }
{
    names.contains(&name)
}

/// Takes a change in and back, and in again. `names` are those of the changes that are there.
fn play_one<L: Ledger>(
    alloc: Global,
    tickets: &mut Tickets,
    names: &mut List<Name>,
    fact: Fact,
    into: &mut Text,
    steps: &mut Steps<L>,
) -> Result<(), Memory>
    requires { (q : List ℕ) → has (map (λ f. f.name) tickets.old.facts) q ≡ has names.old q }
    ensures { OnOk result ((q : List ℕ) → has (map (λ f. f.name) tickets.new.facts) q ≡ has names.new q) }
{
    let name = fact.name;
    let there = is_among(names.items(), name);
    match fact.copied(alloc) {
        Ok(copy) => match try_one(alloc, tickets, there, copy, into, steps) {
            Ok(()) => match keep_one(alloc, tickets, there, fact, steps) {
                Ok(()) => names.append(name),
                Err(Memory) => Err(Memory),
            },
            Err(Memory) => Err(Memory),
        },
        Err(Memory) => Err(Memory),
    }
}

/// The same of the change of a text.
fn play_text<L: Ledger>(
    alloc: Global,
    tickets: &mut Tickets,
    names: &mut List<Name>,
    text: &[u8],
    into: &mut Text,
    steps: &mut Steps<L>,
) -> Result<(), Memory>
    requires { (q : List ℕ) → has (map (λ f. f.name) tickets.old.facts) q ≡ has names.old q }
    ensures { OnOk result ((q : List ℕ) → has (map (λ f. f.name) tickets.new.facts) q ≡ has names.new q) }
{
    match change_from(alloc, text) {
        Ok(fact) => play_one(alloc, tickets, names, fact, into, steps),
        Err(Memory) => Err(Memory),
    }
}

/// A table of tickets with the fields `f` and `g`.
fn table(alloc: Global) -> Result<Tickets, Memory>
    ensures { IfOk result (λ tickets. tickets.facts ≡ []) }
{
    let mut fields = List::new(alloc);
    fields.append(Text::of(alloc, b"f")?)?;
    fields.append(Text::of(alloc, b"g")?)?;
    Tickets::build(alloc, &fields, &[])
}

/// What changes of tickets make that come in an order.
fn play_order<L: Ledger>(
    alloc: Global,
    texts: &[&[u8]],
    into: &mut Text,
    steps: &mut Steps<L>,
) -> Result<(), Memory> {
    let mut tickets = table(alloc)?;
    let mut names = List::new(alloc);
    for text in texts {
        play_text(alloc, &mut tickets, &mut names, text, into, steps)?;
    }
    Ok(())
}

/// Changes that put something at the end of a field, the latest first, and two that replace it.
struct OfAppends;

impl Play for OfAppends {
    fn play<L: Ledger>(
        &self,
        alloc: Global,
        into: &mut Text,
        steps: &mut Steps<L>,
    ) -> Result<(), Memory> {
        let texts: [&[u8]; 7] = [
            b"e5xf+5", b"c3xf+3", b"a1xf+1", b"b2xf=2", b"z0xf=0", b"d4xf=4", b"y1xf+7",
        ];
        play_order(alloc, &texts, into, steps)
    }
}

#[test]
fn changes_that_append_come_the_latest_first(rt: HostRuntime) -> Result<(), Memory> {
    want(
        &rt,
        shown(rt.alloc(), &OfAppends)?,
        b" / 11f6 | 5  - | - - / 11f6 | 35  - | 5  - / 11f6 | 135  - | 35  - / 11f6 | 235  - | 135  - / | 235  - | 235  - / 11f6 | 45  - | 235  - / | 45  - | 45  -",
    );
    Ok(())
}

/// Changes of other fields and of other tickets, and of a field that no table has.
struct OfFields;

impl Play for OfFields {
    fn play<L: Ledger>(
        &self,
        alloc: Global,
        into: &mut Text,
        steps: &mut Steps<L>,
    ) -> Result<(), Memory> {
        let texts: [&[u8]; 7] = [
            b"c3xg=3",
            b"b2xf=2",
            b"a1xg+1f+1",
            b"d4xf=2",
            b"e5yf=9",
            b"h0yf+1",
            b"i1xh=1",
        ];
        play_order(alloc, &texts, into, steps)
    }
}

#[test]
fn changes_of_other_fields_do_not_hide_one(rt: HostRuntime) -> Result<(), Memory> {
    want(
        &rt,
        shown(rt.alloc(), &OfFields)?,
        b" / 11f6 |  3 - | - - / 11f6 | 2 3 - |  3 - / | 2 3 - | 2 3 - / | 2 3 - | 2 3 - / 95cb | 2 3 9  | 2 3 - / | 2 3 9  | 2 3 9  / | 2 3 9  | 2 3 9 ",
    );
    Ok(())
}

/// Changes with several cards on one field.
struct OfCards;

impl Play for OfCards {
    fn play<L: Ledger>(
        &self,
        alloc: Global,
        into: &mut Text,
        steps: &mut Steps<L>,
    ) -> Result<(), Memory> {
        let texts: [&[u8]; 5] = [
            b"c3xf=1f+2f=3f+4",
            b"b2xf+9",
            b"d4xf+5f+6",
            b"e5xf+7f=8",
            b"a1xf=8g=8",
        ];
        play_order(alloc, &texts, into, steps)
    }
}

#[test]
fn a_change_replaces_a_field_among_other_cards(rt: HostRuntime) -> Result<(), Memory> {
    want(
        &rt,
        shown(rt.alloc(), &OfCards)?,
        b" / 11f6 | 34  - | - - / | 34  - | 34  - / 11f6 | 3456  - | 34  - / 11f6 | 8  - | 3456  - / 11f6 | 8 8 - | 8  -",
    );
    Ok(())
}

/// Changes that stop replacing a field, and that move to another ticket or to another date.
struct OfMoves;

impl Play for OfMoves {
    fn play<L: Ledger>(
        &self,
        alloc: Global,
        into: &mut Text,
        steps: &mut Steps<L>,
    ) -> Result<(), Memory> {
        let texts: [&[u8]; 11] = [
            b"c3xf=3",
            b"a1xf=1",
            b"c3xf+3",
            b"b2xf=2",
            b"c3yf=3",
            b"d4yf+4",
            b"c5yf=3",
            b"b9yg=2",
            b"c5yg+3",
            b"e3yf=7",
            b"a1xf=1g=1",
        ];
        play_order(alloc, &texts, into, steps)
    }
}

#[test]
fn a_change_ceases_to_replace_a_field(rt: HostRuntime) -> Result<(), Memory> {
    want(
        &rt,
        shown(rt.alloc(), &OfMoves)?,
        b" / 11f6 | 3  - | - - / | 3  - | 3  - / 11f6 | 13  - | 3  - / 11f6 | 23  - | 13  - / 11f6 95cb | 2  3  | 23  - / 95cb | 2  34  | 2  3  / 95cb | 2  3  | 2  34  / 11f6 95cb | 1  3 2 | 2  3  / 95cb | 1  4 2 | 1  3 2 / 95cb | 1  74 2 | 1  4 2 / 11f6 | 1 1 74 2 | 1  74 2",
    );
    Ok(())
}
