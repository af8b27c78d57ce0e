//! Keeps the changes of all tables, in their order for each table, so that they can be taken back.
ghost use Rattle.fsl_cross.specs.Fresh.{AreNone};

use fsl_cluster as cluster;
use fsl_files as files;
use fsl_forum as forum;
use fsl_leaves as leaves;
use fsl_links as links;
use fsl_table::{Log, Pair};
use fsl_tags as tags;
use fsl_text::List;
use fsl_ticket as ticket;
use fsl_timeline as timeline;
use fsl_wiki as wiki;
use std::alloc::Global;

/// Changes of the tables of parentage, tags and leaves.
#[derive(Drop)]
pub(crate) struct HistoryUndos {
    pub(crate) links: List<links::Undo>,
    pub(crate) tags: List<tags::Undo>,
    pub(crate) leaves: List<leaves::Undo>,
}

/// Changes of the tables of files, pages, tickets, posts and clusters.
#[derive(Drop)]
pub(crate) struct ContentsUndos {
    pub(crate) files: List<files::Undo>,
    pub(crate) pages: List<wiki::Undo>,
    pub(crate) tickets: List<ticket::Undo>,
    pub(crate) threads: List<forum::Undo>,
    pub(crate) clusters: List<cluster::Undo>,
}

/// Changes of what attachments are found by.
#[derive(Drop)]
pub(crate) struct AttachedUndos {
    pub(crate) targets: Log<Pair, ()>,
    pub(crate) changes: Log<Pair, ()>,
}

/// Changes of all tables.
#[derive(Drop)]
pub(crate) struct Undos {
    pub(crate) history: HistoryUndos,
    pub(crate) contents: ContentsUndos,
    pub(crate) attached: AttachedUndos,
    pub(crate) timeline: List<timeline::Undo>,
}

impl Undos {
    /// No changes. Takes no memory.
    pub(crate) fn new(alloc: Global) -> Undos
        ensures { AreNone result }
    {
        let history = HistoryUndos {
            links: List::new(alloc),
            tags: List::new(alloc),
            leaves: List::new(alloc),
        };
        let contents = ContentsUndos {
            files: List::new(alloc),
            pages: List::new(alloc),
            tickets: List::new(alloc),
            threads: List::new(alloc),
            clusters: List::new(alloc),
        };
        let attached = AttachedUndos {
            targets: Log::new(alloc),
            changes: Log::new(alloc),
        };
        Undos {
            history,
            contents,
            attached,
            timeline: List::new(alloc),
        }
    }
}

/// What a change of all tables was.
#[derive(Clone, Copy)]
pub(crate) enum What {
    /// An artifact came.
    Added,
    /// An artifact that was private is public.
    Published,
}
