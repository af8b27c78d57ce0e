//! Prints the report on a thread.
ghost use Rattle.std.specs.Prelude.{◌≡◌, ◌++◌, flat_map, OnOk};
ghost use Rattle.fsl_query.specs.Answers.{IsAnswer};
ghost use Rattle.fsl_query.specs.Lines.{post_line};
ghost use Rattle.fsl_query.specs.Reports.{thread_report};

use crate::lines::append_post;
use crate::{QueryFault, Refused};
use fsl_forum::{Post, Threads};
use fsl_name::Name;
use fsl_text::{Memory, Text};
use std::alloc::Global;

/// Puts a line for each post at the end of a text.
fn append_posts(into: &mut Text, posts: &[Post]) -> Result<(), Memory>
    ensures { OnOk result (into.new ≡ into.old ++ flat_map post_line posts.now) }
{
    for post in posts {
        append_post(into, post)?;
    }
    Ok(())
}

/// A line for each valid post of a thread, by date and name.
pub(crate) fn report(alloc: Global, table: &Threads, name: Name) -> Result<Text, QueryFault>
    ensures { IsAnswer (thread_report table.now.facts name) result }
{
    let posts = table.thread(alloc, name)?;
    if posts.items().is_empty() {
        return Err(QueryFault::Refused(Refused::NoThread {
            prefix: Text::of(alloc, &name.text())?,
        }));
    }
    let mut text = Text::empty(alloc);
    append_posts(&mut text, posts.items())?;
    Ok(text)
}
