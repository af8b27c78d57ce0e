//! Builds the tables of files, pages, tickets, posts and clusters.
ghost use Rattle.std.specs.Prelude.{◌≡◌, [], All, IfOk, map};
ghost use Rattle.std.specs.List.Sorted.{IsStrictlySortedBy};
ghost use Rattle.fsl_order.specs.Names.{bytes_cmp};
ghost use Rattle.fsl_cross.specs.Tables.{IsItem, files_facts, pages_facts, ticket_facts, forum_facts, cluster_facts};

use super::beside::beside;
use super::facts;
use super::items::Items;
use fsl_cluster::Clusters;
use fsl_files::Files;
use fsl_forum::Threads;
use fsl_text::{List, Memory, Text};
use fsl_ticket::Tickets;
use fsl_wiki::Pages;
use std::alloc::Global;

/// What is told of artifacts from their cards alone.
#[derive(Drop)]
pub(crate) struct Contents {
    pub(crate) files: Files,
    pub(crate) pages: Pages,
    pub(crate) tickets: Tickets,
    pub(crate) threads: Threads,
    pub(crate) clusters: Clusters,
}

impl Contents {
    /// The tables of some artifacts, and of the configured fields of tickets. `Memory` is the only error.
    pub(crate) fn build(
        alloc: Global,
        fields: &List<Text>,
        items: &Items,
    ) -> Result<Contents, Memory>
        requires rising { IsStrictlySortedBy bytes_cmp (map (λ i. i.name) items.now) }
        requires kinds { All IsItem items.now }
        ensures files { IfOk result (λ t. t.files.facts ≡ files_facts items.now) }
        ensures pages { IfOk result (λ t. t.pages.facts ≡ pages_facts items.now) }
        ensures tickets { IfOk result (λ t. (t.tickets.fields ≡ fields.now) × (t.tickets.facts ≡ ticket_facts items.now)) }
        ensures threads { IfOk result (λ t. t.threads.facts ≡ forum_facts items.now) }
        ensures clusters { IfOk result (λ t. t.clusters.facts ≡ cluster_facts items.now) }
    {
        let files = facts::files::table(alloc, items)?;
        let pages = facts::pages::table(alloc, items);
        let two = beside(files, pages)?;
        let tickets = facts::tickets::table(alloc, fields, items);
        let three = beside(two, tickets)?;
        let threads = facts::forum::table(alloc, items);
        let four = beside(three, threads)?;
        let clusters = facts::clusters::table(alloc, items);
        let ((((files, pages), tickets), threads), clusters) = beside(four, clusters)?;
        Ok(Contents {
            files,
            pages,
            tickets,
            threads,
            clusters,
        })
    }
}
