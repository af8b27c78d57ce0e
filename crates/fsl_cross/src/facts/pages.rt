//! Makes the facts of pages: wiki pages, technotes and attachments.
ghost use Rattle.std.specs.Prelude.{◌≡◌, [], IfOk, is_some, map};
ghost use Rattle.std.specs.List.Sorted.{IsStrictlySortedBy};
ghost use Rattle.fsl_order.specs.Names.{bytes_cmp};
ghost use Rattle.fsl_cross.specs.Facts.{pages_fact};
ghost use Rattle.fsl_cross.specs.Tables.{pages_facts};

use super::append;
use crate::held::Held;
use crate::items::Items;
use fsl_artifact::Artifact;
use fsl_forms as forms;
use fsl_name::Name;
use fsl_text::{Memory, Text};
use fsl_wiki::{Attached, Fact, Note, Page, Pages};
use std::alloc::Global;

/// A version of a page, as the table has it.
fn page_of(alloc: Global, name: Name, page: &forms::Wiki) -> Result<Page, Memory>
    ensures { IfOk result (λ p. p ≡ record { name = name; date = page.now.date; title = page.now.title; user = page.now.user }) }
{
    Ok(Page {
        name,
        date: page.date,
        title: Text::of(alloc, page.title.bytes())?,
        user: Text::of(alloc, page.user.bytes())?,
    })
}

/// An attachment, as the table has it.
fn attached_of(alloc: Global, name: Name, file: &forms::Attachment) -> Result<Attached, Memory>
    ensures { IfOk result (λ a. a ≡ record { name = name; date = file.now.date; target = file.now.target; file = file.now.file; sourced = is_some file.now.source }) }
{
    Ok(Attached {
        name,
        date: file.date,
        target: Text::of(alloc, file.target.bytes())?,
        file: Text::of(alloc, file.file.bytes())?,
        sourced: file.source.is_some(),
    })
}

/// The fact that an artifact gives, where it is a wiki page, a technote or an attachment.
pub(crate) fn fact_of(alloc: Global, item: &Held) -> Result<Option<Fact>, Memory>
    ensures { IfOk result (λ fact. fact ≡ pages_fact item.now) }
{
    let name = item.name();
    match item.artifact() {
        Artifact::Wiki(page) => Ok(Some(Fact::Page(page_of(alloc, name, page)?))),
        Artifact::Attachment(file) => Ok(Some(Fact::Attached(attached_of(alloc, name, file)?))),
        Artifact::Technote(note) => Ok(Some(Fact::Note(Note {
            name,
            date: note.date,
            time: note.time,
            id: note.id,
        }))),
        _ => Ok(None),
    }
}

/// The facts that artifacts give. `Memory` is the only error.
pub(crate) fn of_items(alloc: Global, items: &Items) -> Result<Vec<Fact>, Memory>
    ensures { IfOk result (λ facts. facts.items ≡ pages_facts items.now) }
{
    let mut facts = Vec::new(alloc);
    for item in items.iter() {
        append(&mut facts, fact_of(alloc, item)?)?;
    }
    Ok(facts)
}

/// The table of pages, technotes and attachments. `Memory` is the only error.
pub(crate) fn table(alloc: Global, items: &Items) -> Result<Pages, Memory>
    requires { IsStrictlySortedBy bytes_cmp (map (λ i. i.name) items.now) }
    ensures { IfOk result (λ t. t.facts ≡ pages_facts items.now) }
{
    Pages::build(alloc, &of_items(alloc, items)?)
}
