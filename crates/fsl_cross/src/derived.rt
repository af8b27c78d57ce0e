//! Builds the nine tables, and the pairs by which attachments are found, from artifacts.
ghost use Rattle.std.specs.Prelude.{◌≡◌, All, IfOk, map};
ghost use Rattle.std.specs.List.Sorted.{IsStrictlySortedBy};
ghost use Rattle.fsl_order.specs.Names.{bytes_cmp};
ghost use Rattle.fsl_cross.specs.Checkins.{tags_facts};
ghost use Rattle.fsl_cross.specs.Tables.{IsItem, pages_facts, forum_facts, timeline_rows};
ghost use Rattle.fsl_cross.specs.Built.{IsHistoryOf, AreContentsOf, IsAttachedOf, AreTablesOf};

use super::attached::Attached;
use super::contents::Contents;
use super::history::History;
use super::items::Items;
use super::timeline;
use fsl_text::{List, Memory, Text};
use fsl_timeline::Timeline;
use std::alloc::Global;

/// What is told of a set of artifacts.
#[derive(Drop)]
pub(crate) struct Derived {
    pub(crate) history: History,
    pub(crate) contents: Contents,
    pub(crate) timeline: Timeline,
    pub(crate) attached: Attached,
}

/// The timeline, and what attachments are found by. `Memory` is the only error.
fn told(
    alloc: Global,
    history: &History,
    contents: &Contents,
    items: &Items,
) -> Result<(Timeline, Attached), Memory>
    requires rising { IsStrictlySortedBy bytes_cmp (map (λ i. i.name) items.now) }
    requires tags { history.now.tags.facts ≡ tags_facts items.now }
    requires pages { contents.now.pages.facts ≡ pages_facts items.now }
    requires threads { contents.now.threads.facts ≡ forum_facts items.now }
    ensures timeline { IfOk result (λ both. both.0.facts ≡ timeline_rows items.now) }
    ensures attached { IfOk result (λ both. IsAttachedOf items.now both.1) }
{
    let timeline = timeline::table(
        alloc,
        &history.tags,
        &contents.pages,
        &contents.threads,
        items,
    )?;
    let attached = Attached::build(alloc, items)?;
    Ok((timeline, attached))
}

impl Derived {
    /// The tables of some artifacts, and of the configured fields of tickets. `Memory` is the only error.
    pub(crate) fn build(
        alloc: Global,
        fields: &List<Text>,
        items: &Items,
    ) -> Result<Derived, Memory>
        requires rising { IsStrictlySortedBy bytes_cmp (map (λ i. i.name) items.now) }
        requires kinds { All IsItem items.now }
        ensures { IfOk result (λ d. AreTablesOf fields.now items.now d) }
    {
        let history = History::build(alloc, items)?;
        Derived::after(alloc, fields, items, history)
    }

    /// The tables, with those of check-ins given. Out of memory, these go by a call, since each way out that lets so many parts go
    /// by itself is dear to prove.
    fn after(
        alloc: Global,
        fields: &List<Text>,
        items: &Items,
        history: History,
    ) -> Result<Derived, Memory>
        requires rising { IsStrictlySortedBy bytes_cmp (map (λ i. i.name) items.now) }
        requires kinds { All IsItem items.now }
        requires history { IsHistoryOf items.now history }
        ensures { IfOk result (λ d. AreTablesOf fields.now items.now d) }
    {
        match Contents::build(alloc, fields, items) {
            Ok(contents) => Derived::joined(alloc, fields, items, history, contents),
            Err(Memory) => {
                drop(history);
                Err(Memory)
            }
        }
    }

    /// The tables, with those of check-ins and those from cards alone given.
    fn joined(
        alloc: Global,
        fields: &List<Text>,
        items: &Items,
        history: History,
        contents: Contents,
    ) -> Result<Derived, Memory>
        requires rising { IsStrictlySortedBy bytes_cmp (map (λ i. i.name) items.now) }
        requires kinds { All IsItem items.now }
        requires history { IsHistoryOf items.now history }
        requires contents { AreContentsOf fields.now items.now contents }
        ensures { IfOk result (λ d. AreTablesOf fields.now items.now d) }
    {
        match told(alloc, &history, &contents, items) {
            Ok((timeline, attached)) => Ok(Derived {
                history,
                contents,
                timeline,
                attached,
            }),
            Err(Memory) => {
                drop(contents);
                drop(history);
                Err(Memory)
            }
        }
    }
}
