//! Prints the report on a page.
ghost use Rattle.std.specs.Prelude.{◌≡◌, ◌++◌, flat_map, OnOk};
ghost use Rattle.fsl_query.specs.Answers.{IsAnswer};
ghost use Rattle.fsl_query.specs.Lines.{page_line};
ghost use Rattle.fsl_query.specs.Reports.{wiki_report};

use crate::attachments::append_attachments;
use crate::lines::append_page;
use crate::{QueryFault, Refused};
use fsl_text::{Memory, Text};
use fsl_wiki::{Page, Pages};
use std::alloc::Global;

/// Puts a line for each version of a page at the end of a text.
fn append_pages(into: &mut Text, pages: &[Page]) -> Result<(), Memory>
    ensures { OnOk result (into.new ≡ into.old ++ flat_map page_line pages.now) }
{
    for page in pages {
        append_page(into, page)?;
    }
    Ok(())
}

/// A line for each version of the page of a title, by date and name. Then a line for each attachment that isn't deleted, by file.
pub(crate) fn report(alloc: Global, table: &Pages, title: &[u8]) -> Result<Text, QueryFault>
    ensures { IsAnswer (wiki_report table.now.facts title.now) result }
{
    let pages = table.history(alloc, title)?;
    if pages.items().is_empty() {
        return Err(QueryFault::Refused(Refused::NoPage {
            title: Text::of(alloc, title)?,
        }));
    }
    let mut text = Text::empty(alloc);
    append_pages(&mut text, pages.items())?;
    append_attachments(alloc, &mut text, table, title)?;
    Ok(text)
}
