//! Versions of wiki pages.
ghost use Rattle.std.specs.Prelude.{◌≡◌, ◌++◌, IfOk, IsTrue, OnOk};
ghost use Rattle.fsl_card.specs.Cards.{IsReading, IsTextOf, text_of};
ghost use Rattle.fsl_date.specs.Moment.{IsMoment};
ghost use Rattle.fsl_forms.specs.Kinds.{IsWiki};
ghost use Rattle.fsl_forms.specs.WellFormed.{is_wiki_well_formed};
ghost use Rattle.fsl_forms.specs.Writing.{IsWikiText, wiki_cards};
ghost use Rattle.fsl_grammar.specs.Reading.{IsRead};

use super::known::know_length;
use fsl_card::{Card, Cards, finish};
use fsl_date::Moment;
use fsl_grammar::{
    DateForm, TextForm, Unread, UserForm, at_most_one, body, has_wiki_letters, is_filled,
    know_refs, one, parents, refs_differ, write_body, write_card, write_optional_text_card,
    write_parents, write_text_card,
};
use fsl_name::Ref;
use fsl_text::{List, Memory, Text};
use std::alloc::Global;

/// A version of a wiki page. Only its text may be empty.
#[derive(Drop)]
pub struct Wiki {
    pub comment: Option<Text>,
    pub date: Moment,
    pub title: Text,
    pub mime: Option<Text>,
    pub parents: List<Ref>,
    pub user: Text,
    pub text: Text,
}

impl Wiki {
    /// Reads a wiki page from its cards. Returns `None` if their letters aren't those of a page, an argument hasn't its form, or
    /// two parents are the same. `Memory` is the only error.
    /// FORMATS: Kinds
    pub fn read(alloc: Global, cards: &Cards) -> Result<Option<Wiki>, Memory>
        ensures { IfOk result (IsReading IsWiki cards.now) }
    {
        match read_cards(alloc, cards.items()) {
            Ok(wiki) => Ok(Some(wiki)),
            Err(Unread::Form) => Ok(None),
            Err(Unread::Memory) => Err(Memory),
        }
    }

    /// Returns whether the page can be written. The title, the user, and the comment and the type if they are there have a byte.
    /// The parents differ. It takes no memory, and compares each parent with each one behind it.
    pub fn well_formed(&self) -> bool
        ensures { result ≡ is_wiki_well_formed self.now }
    {
        is_filled(&self.comment)
            && !self.title.bytes().is_empty()
            && is_filled(&self.mime)
            && refs_differ(self.parents.items())
            && !self.user.bytes().is_empty()
    }

    /// Writes the text of the page, its Z card included. It reads back as the page. `Memory` is the only error.
    /// FORMATS: Kinds
    pub fn write(&self, alloc: Global) -> Result<Text, Memory>
        requires { IsTrue (is_wiki_well_formed self.now) }
        ensures written { IfOk result (λ text. IsWikiText text self.now) }
        ensures read { IfOk result (λ text. IsTextOf IsWiki text self.now) }
    {
        know_refs(self.parents.items());
        know_length(&self.text);
        let mut lines = Text::empty(alloc);
        self.write_cards(alloc, &mut lines)?;
        finish(&mut lines)?;
        Ok(lines)
    }

    /// Writes all cards but the Z card at the end of a text.
    fn write_cards(&self, alloc: Global, into: &mut Text) -> Result<(), Memory>
        ensures { OnOk result (IsMoment self.now.date × (into.new ≡ into.old ++ text_of (wiki_cards self.now))) }
    {
        write_optional_text_card(into, b'C', &self.comment)?;
        write_card(into, b'D', &self.date.text())?;
        write_text_card(into, b'L', self.title.bytes())?;
        write_optional_text_card(into, b'N', &self.mime)?;
        write_parents(into, self.parents.items())?;
        write_text_card(into, b'U', self.user.bytes())?;
        write_body(alloc, into, self.text.bytes())
    }
}

fn read_cards(alloc: Global, cards: &[Card]) -> Result<Wiki, Unread>
    ensures { IsRead IsWiki cards.now result }
{
    if !has_wiki_letters(cards) {
        return Err(Unread::Form);
    }
    let date = one::<DateForm>(alloc, cards, b'D')?;
    let title = one::<TextForm>(alloc, cards, b'L')?;
    let user = one::<UserForm>(alloc, cards, b'U')?;
    let comment = at_most_one::<TextForm>(alloc, cards, b'C')?;
    let mime = at_most_one::<TextForm>(alloc, cards, b'N')?;
    let parents = parents(alloc, cards)?;
    let text = body(alloc, cards)?;
    Ok(Wiki {
        comment,
        date,
        title,
        mime,
        parents,
        user,
        text,
    })
}
