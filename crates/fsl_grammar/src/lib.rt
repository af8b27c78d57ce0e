//! The grammar that the kinds of structural artifacts share. It has the letters of their cards, the forms of the arguments, and
//! tags, and it writes values as cards.
#![tactic(auto)]

ghost use Rattle.std.specs.Prelude.{◌≡◌};
ghost use Rattle.fsl_grammar.specs.declared.Unread.TheVariants as unread;

mod digits;
mod forms;
mod known;
mod letters;
mod reading;
mod writing;
mod written;

pub use forms::{
    ChecksumForm, DateForm, Form, HashForm, RefForm, TagForm, TextForm, UserForm, read_hash,
    read_optional_ref, read_ref,
};
use fsl_name::Ref;
use fsl_text::{Memory, Text};
pub use known::{know_name, know_ref, know_refs, know_tags};
pub use letters::{
    has_attachment_letters, has_cluster_letters, has_control_letters, has_forum_letters,
    has_manifest_letters, has_technote_letters, has_ticket_letters, has_wiki_letters,
};
pub use reading::{at_most_one, body, each, one, parents};
pub use writing::{
    begin_card, end_card, write_argument, write_body, write_card, write_name, write_name_card,
    write_optional_name_card, write_optional_ref, write_optional_text, write_optional_text_card,
    write_parents, write_ref, write_ref_card, write_signed_text, write_tag, write_tags, write_text,
    write_text_card,
};
pub use written::{is_filled, is_tag_written, refs_differ};

/// Says how an assertion of a tag acts.
#[derive(Clone, Copy, Debug, PartialEq, Eq)]
pub enum Prefix {
    /// `+`
    Once,
    /// `-`
    Cancel,
    /// `*`
    Propagate,
}

/// A T card. Without a target it tags the artifact itself.
#[derive(Drop)]
pub struct TagCard {
    pub prefix: Prefix,
    pub tag: Text,
    pub target: Option<Ref>,
    pub value: Option<Text>,
}

/// Says why cards, or the arguments of one, give no value.
#[derive(Clone, Copy, Debug, PartialEq, Eq)]
pub enum Unread {
    /// The form is another one.
    Form,
    /// The program is out of memory.
    Memory,
}

impl From<Memory> for Unread {
    ghost from_gives = { λ _ why. why ≡ unread.Memory };

    fn from(_: Memory) -> Self {
        Unread::Memory
    }
}
