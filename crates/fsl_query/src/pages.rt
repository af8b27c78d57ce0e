//! Prints the report on pages.
ghost use Rattle.std.specs.Prelude.{◌≡◌, ◌++◌, [], flat_map, IfOk, OnOk};
ghost use Rattle.std.specs.Option.{option_map_or};
ghost use Rattle.fsl_query.specs.Lines.{title_line};
ghost use Rattle.fsl_query.specs.Listings.{current_page, pages_report};

use crate::lines::append_title;
use crate::newest::{Newest, of_pages, rises};
use fsl_text::{Memory, Text};
use fsl_wiki::{Fact, Pages};
use std::alloc::Global;

/// Puts the line of a title at the end of a text, where a page has it.
fn append_current(alloc: Global, into: &mut Text, table: &Pages, title: &[u8]) -> Result<(), Memory>
    ensures { OnOk result (into.new ≡ into.old ++ option_map_or title_line (current_page table.now.facts title.now) []) }
{
    let pages = table.history(alloc, title)?;
    match pages.items().last() {
        Some(page) => append_title(into, page),
        None => Ok(()),
    }
}

/// Puts a line for each title that a page has at the end of a text.
fn append_titles(
    alloc: Global,
    into: &mut Text,
    table: &Pages,
    titles: &Newest,
) -> Result<(), Memory>
    ensures { OnOk result (into.new ≡ into.old ++ flat_map (λ e. option_map_or title_line (current_page table.now.facts e.0) []) titles.now.entries) }
{
    for (title, _) in titles {
        append_current(alloc, into, table, title.bytes())?;
    }
    Ok(())
}

/// A line for each title of a page, by its bytes: the date, the name and the user of the current version, and the title. The
/// facts are those of the table. It takes time by n log n of them. `Memory` is the only error.
pub(crate) fn report(alloc: Global, table: &Pages, facts: &[Fact]) -> Result<Text, Memory>
    requires { facts.now ≡ table.now.facts }
    ensures { IfOk result (λ text. text ≡ pages_report table.now.facts) }
{
    let titles = of_pages(alloc, facts)?;
    rises(&titles);
    let mut text = Text::empty(alloc);
    append_titles(alloc, &mut text, table, &titles)?;
    Ok(text)
}
