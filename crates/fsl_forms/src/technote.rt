//! Notes at moments.
ghost use Rattle.std.specs.Prelude.{◌≡◌, ◌++◌, IfOk, IsTrue, OnOk};
ghost use Rattle.std.specs.List.{list_all};
ghost use Rattle.fsl_card.specs.Cards.{IsReading, IsTextOf, card_text, text_of};
ghost use Rattle.fsl_date.specs.Moment.{IsMoment};
ghost use Rattle.fsl_forms.specs.Kinds.{IsTechnote, event_form, event_in, is_own_tag};
ghost use Rattle.fsl_forms.specs.Parts.{HasOwnTags};
ghost use Rattle.fsl_forms.specs.WellFormed.{is_technote_well_formed};
ghost use Rattle.fsl_forms.specs.Writing.{IsTechnoteText, event_card, technote_cards};
ghost use Rattle.fsl_grammar.specs.Reading.{IsRead};

use super::control::all_tags_written;
use super::known::know_length;
use fsl_card::{Card, Cards, finish};
use fsl_date::Moment;
use fsl_grammar::{
    DateForm, Form, Prefix, TagCard, TagForm, TextForm, Unread, UserForm, at_most_one, begin_card,
    body, each, end_card, has_technote_letters, is_filled, know_refs, know_tags, one, parents,
    read_hash, refs_differ, write_argument, write_body, write_card, write_name,
    write_optional_text_card, write_parents, write_tags,
};
use fsl_name::{Name, Ref};
use fsl_text::{List, Memory, Text};
use std::alloc::Global;

/// A note at a moment, its `time`. The date is that of the artifact. Only its text may be empty.
#[derive(Drop)]
pub struct Technote {
    pub comment: Option<Text>,
    pub date: Moment,
    pub time: Moment,
    pub id: Name,
    pub mime: Option<Text>,
    pub parents: List<Ref>,
    pub tags: List<TagCard>,
    pub user: Option<Text>,
    pub text: Text,
}

/// An E card: the time of a technote, and its id.
#[derive(Drop)]
struct Event {
    time: Moment,
    id: Name,
}

impl Technote {
    /// Reads a technote from its cards. Returns `None` if their letters aren't those of one, an argument hasn't its form, two
    /// parents are the same, or a tag has another prefix than `+` or another target than `*`. `Memory` is the only error.
    /// FORMATS: Kinds
    pub fn read(alloc: Global, cards: &Cards) -> Result<Option<Technote>, Memory>
        ensures { IfOk result (IsReading IsTechnote cards.now) }
    {
        match read_cards(alloc, cards.items()) {
            Ok(technote) => Ok(Some(technote)),
            Err(Unread::Form) => Ok(None),
            Err(Unread::Memory) => Err(Memory),
        }
    }

    /// Returns whether the technote can be written. The comment, the type and the user have a byte if they are there. The parents
    /// differ. Each tag is `+` on the note itself and has a name, and a value that is there has a byte. It takes no memory, and
    /// compares each parent with each one behind it.
    pub fn well_formed(&self) -> bool
        ensures { result ≡ is_technote_well_formed self.now }
    {
        is_filled(&self.comment)
            && is_filled(&self.mime)
            && refs_differ(self.parents.items())
            && all_tags_written(self.tags.items())
            && all_own(self.tags.items())
            && is_filled(&self.user)
    }

    /// Writes the text of the technote, its Z card included. It reads back as the value. `Memory` is the only error.
    /// FORMATS: Kinds
    pub fn write(&self, alloc: Global) -> Result<Text, Memory>
        requires { IsTrue (is_technote_well_formed self.now) }
        ensures written { IfOk result (λ text. IsTechnoteText text self.now) }
        ensures read { IfOk result (λ text. IsTextOf IsTechnote text self.now) }
    {
        let _ = self.id.bytes();
        know_refs(self.parents.items());
        know_tags(self.tags.items());
        know_length(&self.text);
        let mut lines = Text::empty(alloc);
        self.write_cards(alloc, &mut lines)?;
        finish(&mut lines)?;
        Ok(lines)
    }

    /// Writes all cards but the Z card at the end of a text.
    fn write_cards(&self, alloc: Global, into: &mut Text) -> Result<(), Memory>
        ensures { OnOk result (IsMoment self.now.date × IsMoment self.now.time × (into.new ≡ into.old ++ text_of (technote_cards self.now))) }
    {
        write_optional_text_card(into, b'C', &self.comment)?;
        write_card(into, b'D', &self.date.text())?;
        write_event(into, &self.time.text(), &self.id)?;
        write_optional_text_card(into, b'N', &self.mime)?;
        write_parents(into, self.parents.items())?;
        write_tags(into, self.tags.items())?;
        write_optional_text_card(into, b'U', &self.user)?;
        write_body(alloc, into, self.text.bytes())
    }
}

fn read_cards(alloc: Global, cards: &[Card]) -> Result<Technote, Unread>
    ensures { IsRead IsTechnote cards.now result }
{
    if !has_technote_letters(cards) {
        return Err(Unread::Form);
    }
    let date = one::<DateForm>(alloc, cards, b'D')?;
    let Event { time, id } = one::<EventForm>(alloc, cards, b'E')?;
    let comment = at_most_one::<TextForm>(alloc, cards, b'C')?;
    let mime = at_most_one::<TextForm>(alloc, cards, b'N')?;
    let user = at_most_one::<UserForm>(alloc, cards, b'U')?;
    let parents = parents(alloc, cards)?;
    let tags = read_tags(alloc, cards)?;
    let text = body(alloc, cards)?;
    Ok(Technote {
        comment,
        date,
        time,
        id,
        mime,
        parents,
        tags,
        user,
        text,
    })
}

/// Reads the tags of the T cards. Fails with `Form` if one hasn't its form or isn't `+` on the note itself.
fn read_tags(alloc: Global, cards: &[Card]) -> Result<List<TagCard>, Unread>
    ensures { IsRead HasOwnTags cards.now result }
{
    let tags = each::<TagForm>(alloc, cards, b'T')?;
    if all_own(tags.items()) {
        Ok(tags)
    } else {
        Err(Unread::Form)
    }
}

fn all_own(tags: &[TagCard]) -> bool
    ensures { result ≡ list_all is_own_tag tags.now }
{
    tags.iter().all(|tag| is_own_tag(tag))
}

/// Returns whether a tag is `+` on the artifact itself.
fn is_own_tag(tag: &TagCard) -> bool
    ensures { result ≡ is_own_tag tag.now }
{
    matches!(tag.prefix, Prefix::Once) && tag.target.is_none()
}

/// A date and a hash.
struct EventForm;

impl Form for EventForm {
    type Value = Event;

    ghost form = { event_form };

    fn read(_alloc: Global, args: &[Text]) -> Result<Event, Unread> {
        match args {
            [date, hash] => read_event(date.bytes(), hash.bytes()).ok_or(Unread::Form),
            _ => Err(Unread::Form),
        }
    }
}

fn read_event(date: &[u8], hash: &[u8]) -> Option<Event>
    ensures { result ≡ event_in date.now hash.now }
{
    let time = Moment::read(date)?;
    let id = read_hash(hash)?;
    Some(Event { time, id })
}

/// Writes the E card.
fn write_event(into: &mut Text, time: &[u8], id: &Name) -> Result<(), Memory>
    ensures { OnOk result (into.new ≡ into.old ++ card_text (event_card time.now id.now)) }
{
    begin_card(into, b'E')?;
    write_argument(into, time)?;
    write_name(into, id)?;
    end_card(into)
}
