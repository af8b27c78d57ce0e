//! Posts in forums.
ghost use Rattle.std.specs.Prelude.{◌≡◌, ◌++◌, IfOk, IsTrue, OnOk, is_some};
ghost use Rattle.fsl_card.specs.Cards.{IsReading, IsTextOf, text_of};
ghost use Rattle.fsl_date.specs.Moment.{IsMoment};
ghost use Rattle.fsl_forms.specs.Kinds.{IsForum};
ghost use Rattle.fsl_forms.specs.Parts.{HasPlace, is_place};
ghost use Rattle.fsl_forms.specs.WellFormed.{is_forum_well_formed};
ghost use Rattle.fsl_forms.specs.Writing.{IsForumText, forum_cards};
ghost use Rattle.fsl_grammar.specs.Reading.{IsRead};

use super::known::know_length;
use fsl_card::{Card, Cards, finish};
use fsl_date::Moment;
use fsl_grammar::{
    DateForm, HashForm, TextForm, Unread, UserForm, at_most_one, body, has_forum_letters,
    is_filled, know_name, one, write_body, write_card, write_optional_name_card,
    write_optional_text_card, write_text_card,
};
use fsl_name::Name;
use fsl_text::{Memory, Text};
use std::alloc::Global;

/// A post in a forum. It has a title and begins a thread, or it has a root and answers another post. Only its text may be empty.
#[derive(Drop)]
pub struct Forum {
    pub date: Moment,
    pub root: Option<Name>,
    pub title: Option<Text>,
    pub reply: Option<Name>,
    pub mime: Option<Text>,
    pub prior: Option<Name>,
    pub user: Text,
    pub text: Text,
}

/// The place of a post: the root of its thread, its title, and the post that it answers.
#[derive(Drop)]
struct Place {
    root: Option<Name>,
    title: Option<Text>,
    reply: Option<Name>,
}

impl Forum {
    /// Reads a forum post from its cards. Returns `None` if their letters aren't those of one, or an argument hasn't its form. A
    /// post either has a title and answers no post, or has a root, answers a post and has no title, and in any other case `None`
    /// comes as well. `Memory` is the only error.
    /// FORMATS: Kinds
    pub fn read(alloc: Global, cards: &Cards) -> Result<Option<Forum>, Memory>
        ensures { IfOk result (IsReading IsForum cards.now) }
    {
        match read_cards(alloc, cards.items()) {
            Ok(forum) => Ok(Some(forum)),
            Err(Unread::Form) => Ok(None),
            Err(Unread::Memory) => Err(Memory),
        }
    }

    /// Returns whether the post can be written. The user, and the title and the type if they are there have a byte. The post
    /// either has a title and answers nothing, or has a root, answers a post and has no title. It takes no memory.
    pub fn well_formed(&self) -> bool
        ensures { result ≡ is_forum_well_formed self.now }
    {
        is_filled(&self.title)
            && is_filled(&self.mime)
            && !self.user.bytes().is_empty()
            && is_place(
                self.root.is_some(),
                self.title.is_some(),
                self.reply.is_some(),
            )
    }

    /// Writes the text of the post, its Z card included. It reads back as the value. `Memory` is the only error.
    /// FORMATS: Kinds
    pub fn write(&self, alloc: Global) -> Result<Text, Memory>
        requires { IsTrue (is_forum_well_formed self.now) }
        ensures written { IfOk result (λ text. IsForumText text self.now) }
        ensures read { IfOk result (λ text. IsTextOf IsForum text self.now) }
    {
        know_name(&self.root);
        know_name(&self.reply);
        know_name(&self.prior);
        know_length(&self.text);
        let mut lines = Text::empty(alloc);
        self.write_cards(alloc, &mut lines)?;
        finish(&mut lines)?;
        Ok(lines)
    }

    /// Writes all cards but the Z card at the end of a text.
    fn write_cards(&self, alloc: Global, into: &mut Text) -> Result<(), Memory>
        ensures { OnOk result (IsMoment self.now.date × (into.new ≡ into.old ++ text_of (forum_cards self.now))) }
    {
        write_card(into, b'D', &self.date.text())?;
        write_optional_name_card(into, b'G', &self.root)?;
        write_optional_text_card(into, b'H', &self.title)?;
        write_optional_name_card(into, b'I', &self.reply)?;
        write_optional_text_card(into, b'N', &self.mime)?;
        write_optional_name_card(into, b'P', &self.prior)?;
        write_text_card(into, b'U', self.user.bytes())?;
        write_body(alloc, into, self.text.bytes())
    }
}

fn read_cards(alloc: Global, cards: &[Card]) -> Result<Forum, Unread>
    ensures { IsRead IsForum cards.now result }
{
    if !has_forum_letters(cards) {
        return Err(Unread::Form);
    }
    let date = one::<DateForm>(alloc, cards, b'D')?;
    let prior = at_most_one::<HashForm>(alloc, cards, b'P')?;
    let user = one::<UserForm>(alloc, cards, b'U')?;
    let mime = at_most_one::<TextForm>(alloc, cards, b'N')?;
    let place = read_place(alloc, cards)?;
    let text = body(alloc, cards)?;
    Ok(Forum {
        date,
        root: place.root,
        title: place.title,
        reply: place.reply,
        mime,
        prior,
        user,
        text,
    })
}

/// Reads the place of a post from its G, H and I cards. Fails with `Form` if one of them hasn't its form, or they don't go
/// together.
fn read_place(alloc: Global, cards: &[Card]) -> Result<Place, Unread>
    ensures { IsRead HasPlace cards.now result }
{
    let root = at_most_one::<HashForm>(alloc, cards, b'G')?;
    let title = at_most_one::<TextForm>(alloc, cards, b'H')?;
    let reply = at_most_one::<HashForm>(alloc, cards, b'I')?;
    if is_place(root.is_some(), title.is_some(), reply.is_some()) {
        Ok(Place { root, title, reply })
    } else {
        Err(Unread::Form)
    }
}

/// Returns whether a post has a title and answers nothing, or has a root and answers a post, and no title.
fn is_place(has_root: bool, has_title: bool, has_reply: bool) -> bool
    ensures { result ≡ is_place has_root has_title has_reply }
{
    if has_title {
        !has_reply
    } else {
        has_root && has_reply
    }
}
