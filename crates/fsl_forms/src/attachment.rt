//! Files that are attached to pages, tickets and technotes.
ghost use Rattle.std.specs.Prelude.{◌≡◌, ◌++◌, IfOk, IsTrue, OnOk, Some};
ghost use Rattle.fsl_card.specs.Cards.{IsReading, IsTextOf, card_text, text_of};
ghost use Rattle.fsl_date.specs.Moment.{IsMoment};
ghost use Rattle.fsl_forms.specs.Kinds.{IsAttachment, attached_form};
ghost use Rattle.fsl_forms.specs.Parts.{attached_of};
ghost use Rattle.fsl_forms.specs.WellFormed.{is_attachment_well_formed};
ghost use Rattle.fsl_forms.specs.Writing.{IsAttachmentText, attached_card, attachment_cards};
ghost use Rattle.fsl_grammar.specs.Reading.{IsGiven, IsRead};

use fsl_card::{Card, Cards, finish};
use fsl_date::Moment;
use fsl_grammar::{
    DateForm, Form, TextForm, Unread, UserForm, at_most_one, begin_card, end_card,
    has_attachment_letters, is_filled, know_ref, one, read_ref, write_card, write_optional_ref,
    write_optional_text_card, write_text,
};
use fsl_name::Ref;
use fsl_text::{Memory, Text, unescape};
use std::alloc::Global;

/// A file that is attached to a page, a ticket or a technote. Without a source it is deleted.
#[derive(Drop)]
pub struct Attachment {
    pub file: Text,
    pub target: Text,
    pub source: Option<Ref>,
    pub comment: Option<Text>,
    pub date: Moment,
    pub mime: Option<Text>,
    pub user: Option<Text>,
}

/// An A card: the file, its target, and its content.
#[derive(Drop)]
struct Attached {
    file: Text,
    target: Text,
    source: Option<Ref>,
}

impl Attachment {
    /// Reads an attachment from its cards. Returns `None` if their letters aren't those of one, or an argument hasn't its form.
    /// `Memory` is the only error.
    /// FORMATS: Kinds
    pub fn read(alloc: Global, cards: &Cards) -> Result<Option<Attachment>, Memory>
        ensures { IfOk result (IsReading IsAttachment cards.now) }
    {
        match read_cards(alloc, cards.items()) {
            Ok(attachment) => Ok(Some(attachment)),
            Err(Unread::Form) => Ok(None),
            Err(Unread::Memory) => Err(Memory),
        }
    }

    /// Returns whether the attachment can be written. The file, the target, and the comment, the type and the user if they are
    /// there have a byte. It takes no memory.
    pub fn well_formed(&self) -> bool
        ensures { result ≡ is_attachment_well_formed self.now }
    {
        !self.file.bytes().is_empty()
            && !self.target.bytes().is_empty()
            && is_filled(&self.comment)
            && is_filled(&self.mime)
            && is_filled(&self.user)
    }

    /// Writes the text of the attachment, its Z card included. It reads back as the value. `Memory` is the only error.
    /// FORMATS: Kinds
    pub fn write(&self, alloc: Global) -> Result<Text, Memory>
        requires { IsTrue (is_attachment_well_formed self.now) }
        ensures written { IfOk result (λ text. IsAttachmentText text self.now) }
        ensures read { IfOk result (λ text. IsTextOf IsAttachment text self.now) }
    {
        know_ref(&self.source);
        let mut lines = Text::empty(alloc);
        self.write_cards(&mut lines)?;
        finish(&mut lines)?;
        Ok(lines)
    }

    /// Writes all cards but the Z card at the end of a text.
    fn write_cards(&self, into: &mut Text) -> Result<(), Memory>
        ensures { OnOk result (IsMoment self.now.date × (into.new ≡ into.old ++ text_of (attachment_cards self.now))) }
    {
        self.write_attached(into)?;
        write_optional_text_card(into, b'C', &self.comment)?;
        write_card(into, b'D', &self.date.text())?;
        write_optional_text_card(into, b'N', &self.mime)?;
        write_optional_text_card(into, b'U', &self.user)
    }

    /// Writes the A card.
    fn write_attached(&self, into: &mut Text) -> Result<(), Memory>
        ensures { OnOk result (into.new ≡ into.old ++ card_text (attached_card self.now)) }
    {
        begin_card(into, b'A')?;
        write_text(into, self.file.bytes())?;
        write_text(into, self.target.bytes())?;
        write_optional_ref(into, &self.source)?;
        end_card(into)
    }
}

fn read_cards(alloc: Global, cards: &[Card]) -> Result<Attachment, Unread>
    ensures { IsRead IsAttachment cards.now result }
{
    if !has_attachment_letters(cards) {
        return Err(Unread::Form);
    }
    let date = one::<DateForm>(alloc, cards, b'D')?;
    let comment = at_most_one::<TextForm>(alloc, cards, b'C')?;
    let mime = at_most_one::<TextForm>(alloc, cards, b'N')?;
    let user = at_most_one::<UserForm>(alloc, cards, b'U')?;
    let attached = one::<AttachedForm>(alloc, cards, b'A')?;
    Ok(Attachment {
        file: attached.file,
        target: attached.target,
        source: attached.source,
        comment,
        date,
        mime,
        user,
    })
}

/// A file, a target and behind them a hash, which may be missing.
struct AttachedForm;

impl Form for AttachedForm {
    type Value = Attached;

    ghost form = { attached_form };

    fn read(alloc: Global, args: &[Text]) -> Result<Attached, Unread> {
        match args {
            [file, target] => read_attached(alloc, file.bytes(), target.bytes(), None),
            [file, target, source] => match read_ref(source.bytes()) {
                Some(source) => read_attached(alloc, file.bytes(), target.bytes(), Some(source)),
                None => Err(Unread::Form),
            },
            _ => Err(Unread::Form),
        }
    }
}

/// Reads an A card whose last argument, if it is there, was read already.
fn read_attached(
    alloc: Global,
    file: &[u8],
    target: &[u8],
    source: Option<Ref>,
) -> Result<Attached, Unread>
    ensures { IsGiven (Some (attached_of file.now target.now source)) result }
{
    Ok(Attached {
        file: unescape(alloc, file)?,
        target: unescape(alloc, target)?,
        source,
    })
}
