//! Takes a change of all tables back.
ghost use Rattle.std.specs.Prelude.{◌≡◌, ◌<◌};
ghost use Rattle.fsl_cross.specs.Back.{CanHistoryGoBack, HistoryWentBack, CanContentsGoBack, ContentsWentBack, CanAttachedGoBack, AttachedWentBack, CanGoBackAll, AllWentBack, unmade};

use crate::attached::Attached;
use crate::contents::Contents;
use crate::derived::Derived;
use crate::history::History;
use crate::items::Items;
use crate::reversible::take_all_back;
use crate::tables::Tables;
use crate::undos::{AttachedUndos, ContentsUndos, HistoryUndos, Undos, What};
use fsl_name::Name;
use fsl_table::log;
use fsl_text::Steps;
use std::marker::{Brand, Model};
use std::snapshot::Snapshot;
use std::sync::ledger::{Blank, Ledger};

/// Takes a change of all tables back. Contracts see it as the tables before and after.
#[derive(Drop)]
pub struct Back {
    pub(crate) what: What,
    pub(crate) name: Name,
    pub(crate) undos: Undos,
    pub(crate) before: Snapshot<Tables>,
    pub(crate) after: Snapshot<Tables>,
}

impl Model for Back {
    ghost use Rattle.fsl_cross.specs.Tables.{Change};
    ghost use Rattle.fsl_cross.specs.Back.{IsBack};

    ghost Value = { Change };

    ghost view = { λ b. record { before = b.before.value; after = b.after.value } };

    ghost invariant = { λ b. IsBack b.what b.name b.undos b.before.value b.after.value };
}

impl Back {
    /// Keeps the change for good, and lets this value go.
    pub fn settle(self) {
        drop(self);
    }
}

/// Takes changes of the tables of parentage, tags and leaves back. Takes no memory.
fn take_history_back(history: &mut History, undos: HistoryUndos)
    requires { CanHistoryGoBack undos history.old }
    ensures { HistoryWentBack undos history.old history.new }
{
    let HistoryUndos {
        links,
        tags,
        leaves,
    } = undos;
    take_all_back(&mut history.links, links);
    take_all_back(&mut history.tags, tags);
    take_all_back(&mut history.leaves, leaves);
}

/// Takes changes of the tables of files, pages, tickets, posts and clusters back. Takes no memory.
fn take_contents_back(contents: &mut Contents, undos: ContentsUndos)
    requires { CanContentsGoBack undos contents.old }
    ensures { ContentsWentBack undos contents.old contents.new }
{
    let ContentsUndos {
        files,
        pages,
        tickets,
        threads,
        clusters,
    } = undos;
    take_all_back(&mut contents.files, files);
    take_all_back(&mut contents.pages, pages);
    take_all_back(&mut contents.tickets, tickets);
    take_all_back(&mut contents.threads, threads);
    take_all_back(&mut contents.clusters, clusters);
}

fn attached_back<L: Ledger>(attached: &mut Attached, undos: AttachedUndos, blank: Blank)
    requires name { blank.name ≡ L.name }
    requires parts { blank.parts ≡ L.parts }
    requires counts { 0 < L.parts }
    requires can { CanAttachedGoBack undos attached.old }
    ensures { AttachedWentBack undos attached.old attached.new }
{
    let mut steps: Steps<L> = Steps::new(blank);
    let AttachedUndos { targets, changes } = undos;
    log::undo(&mut attached.targets, targets, &mut steps);
    log::undo(&mut attached.changes, changes, &mut steps);
}

/// Takes changes of the pairs by which attachments are found back. Takes no memory.
fn take_attached_back(attached: &mut Attached, undos: AttachedUndos)
    requires { CanAttachedGoBack undos attached.old }
    ensures { AttachedWentBack undos attached.old attached.new }
{
    attached_back::<Brand>(attached, undos, Blank::new(1));
}

/// Takes changes of all tables back. Takes no memory.
pub(crate) fn take_back(derived: &mut Derived, undos: Undos)
    requires { CanGoBackAll undos derived.old }
    ensures { AllWentBack undos derived.old derived.new }
{
    let Undos {
        history,
        contents,
        attached,
        timeline,
    } = undos;
    take_history_back(&mut derived.history, history);
    take_contents_back(&mut derived.contents, contents);
    take_attached_back(&mut derived.attached, attached);
    take_all_back(&mut derived.timeline, timeline);
}

/// Takes the change of the artifacts back. Takes no memory.
pub(crate) fn unmake(items: &mut Items, what: What, name: Name)
    ensures { items.new ≡ unmade what name items.old }
{
    match what {
        What::Added => items.take(name),
        What::Published => items.set_private(name, true),
    }
}
