//! Control artifacts assert tags of other artifacts.
ghost use Rattle.std.specs.Prelude.{◌≡◌, ◌++◌, IfOk, IsTrue, OnOk};
ghost use Rattle.std.specs.List.{list_all};
ghost use Rattle.fsl_card.specs.Cards.{IsReading, IsTextOf, text_of};
ghost use Rattle.fsl_date.specs.Moment.{IsMoment};
ghost use Rattle.fsl_forms.specs.Kinds.{IsControl, names_target};
ghost use Rattle.fsl_forms.specs.Parts.{HasTargetedTags};
ghost use Rattle.fsl_forms.specs.WellFormed.{is_control_well_formed};
ghost use Rattle.fsl_forms.specs.Writing.{IsControlText, control_cards};
ghost use Rattle.fsl_grammar.specs.Forms.{is_tag_written};
ghost use Rattle.fsl_grammar.specs.Reading.{IsRead};

use fsl_card::{Card, Cards, finish};
use fsl_date::Moment;
use fsl_grammar::{
    DateForm, TagCard, TagForm, Unread, UserForm, each, has_control_letters, is_tag_written,
    know_tags, one, write_card, write_tags, write_text_card,
};
use fsl_text::{List, Memory, Text};
use std::alloc::Global;

/// Tags on other artifacts. Each tag names its target.
#[derive(Drop)]
pub struct Control {
    pub date: Moment,
    pub tags: List<TagCard>,
    pub user: Text,
}

impl Control {
    /// Reads a control artifact from its cards. Returns `None` if their letters aren't those of one, an argument hasn't its form,
    /// or the target of a tag is `*`. `Memory` is the only error.
    /// FORMATS: Kinds
    pub fn read(alloc: Global, cards: &Cards) -> Result<Option<Control>, Memory>
        ensures { IfOk result (IsReading IsControl cards.now) }
    {
        match read_cards(alloc, cards.items()) {
            Ok(control) => Ok(Some(control)),
            Err(Unread::Form) => Ok(None),
            Err(Unread::Memory) => Err(Memory),
        }
    }

    /// Returns whether the control artifact can be written. There are tags, and each has a name and a target. A value that is
    /// there has a byte, and so has the user. It takes no memory.
    pub fn well_formed(&self) -> bool
        ensures { result ≡ is_control_well_formed self.now }
    {
        let tags = self.tags.items();
        !tags.is_empty()
            && all_tags_written(tags)
            && all_targeted(tags)
            && !self.user.bytes().is_empty()
    }

    /// Writes the text of the control artifact, its Z card included. It reads back as the value. `Memory` is the only error.
    /// FORMATS: Kinds
    pub fn write(&self, alloc: Global) -> Result<Text, Memory>
        requires { IsTrue (is_control_well_formed self.now) }
        ensures written { IfOk result (λ text. IsControlText text self.now) }
        ensures read { IfOk result (λ text. IsTextOf IsControl text self.now) }
    {
        know_tags(self.tags.items());
        let mut lines = Text::empty(alloc);
        self.write_cards(&mut lines)?;
        finish(&mut lines)?;
        Ok(lines)
    }

    /// Writes all cards but the Z card at the end of a text.
    fn write_cards(&self, into: &mut Text) -> Result<(), Memory>
        ensures { OnOk result (IsMoment self.now.date × (into.new ≡ into.old ++ text_of (control_cards self.now))) }
    {
        write_card(into, b'D', &self.date.text())?;
        write_tags(into, self.tags.items())?;
        write_text_card(into, b'U', self.user.bytes())
    }
}

fn read_cards(alloc: Global, cards: &[Card]) -> Result<Control, Unread>
    ensures { IsRead IsControl cards.now result }
{
    if !has_control_letters(cards) {
        return Err(Unread::Form);
    }
    let date = one::<DateForm>(alloc, cards, b'D')?;
    let tags = read_tags(alloc, cards)?;
    let user = one::<UserForm>(alloc, cards, b'U')?;
    Ok(Control { date, tags, user })
}

/// Reads the tags of the T cards. Fails with `Form` if one hasn't its form or doesn't name its target.
fn read_tags(alloc: Global, cards: &[Card]) -> Result<List<TagCard>, Unread>
    ensures { IsRead HasTargetedTags cards.now result }
{
    let tags = each::<TagForm>(alloc, cards, b'T')?;
    if all_targeted(tags.items()) {
        Ok(tags)
    } else {
        Err(Unread::Form)
    }
}

fn all_targeted(tags: &[TagCard]) -> bool
    ensures { result ≡ list_all names_target tags.now }
{
    tags.iter().all(|tag| tag.target.is_some())
}

/// Returns whether each tag can be written.
pub(crate) fn all_tags_written(tags: &[TagCard]) -> bool
    ensures { result ≡ list_all is_tag_written tags.now }
{
    tags.iter().all(|tag| is_tag_written(tag))
}
