//! Keeps the changes of one table, so that they can be taken back.
ghost use Rattle.std.specs.Prelude.{◌≡◌, ◌++◌, ◌∷◌, [], OnOk, OnErr, MatchOption};
ghost use Rattle.fsl_order.specs.TableState.{TableState, Change, IsAsBefore};
ghost use Rattle.fsl_cross.specs.Trails.{LeadsBy};
ghost use Rattle.fsl_table.proofs.Trails.{as_before-trans};
ghost use Rattle.fsl_links.specs.declared.Fact as links;
ghost use Rattle.fsl_tags.specs.declared.Fact as tags;
ghost use Rattle.fsl_leaves.specs.declared.Fact as leaves;
ghost use Rattle.fsl_timeline.specs.declared.Row as timeline;
ghost use Rattle.fsl_forum.specs.declared.Fact as forum;
ghost use Rattle.fsl_ticket.specs.Seen as ticket;
ghost use Rattle.fsl_files.specs.declared.Fact as files;
ghost use Rattle.fsl_wiki.specs.declared.Fact as wiki;
ghost use Rattle.fsl_cluster.specs.declared.Fact as cluster;
ghost use Rattle.fsl_cross.specs.Chained.{tickets-chain};

use fsl_cluster::Clusters;
use fsl_files::Files;
use fsl_forum::Threads;
use fsl_leaves::Leaves;
use fsl_links::Links;
use fsl_tags::Tags;
use fsl_text::{List, Memory};
use fsl_ticket::Tickets;
use fsl_timeline::Timeline;
use fsl_wiki::Pages;

/// A table whose changes can be taken back, the last one first.
pub(crate) trait Reversible {
    /// What takes a change back.
    type Undo: Drop;

    /// What is seen of the table.
    ghost State: { Type 0 };

    /// Whether a second state is as good as a first.
    ghost is_good: { State → State → Type 0 };

    /// What is seen of this table.
    ghost seen: { Self → State };

    /// What the table was before a change.
    ghost before: { Self.Undo → State };

    /// What it was after it.
    ghost after: { Self.Undo → State };

    /// Takes the last change back. Takes no memory.
    fn take_back(&mut self, undo: Self::Undo)
        requires { is_good (after undo) (seen self.old) }
        ensures { is_good (before undo) (seen self.new) };

    ghost good_chain: { (a b c : State) → is_good a b → is_good b c → is_good a c };
}

/// Keeps what takes the last change back. For want of memory the change is taken back.
pub(crate) fn keep<T: Reversible>(
    table: &mut T,
    undos: &mut List<T::Undo>,
    undo: T::Undo,
) -> Result<(), Memory>
    requires { T.is_good (T.after undo) (T.seen table.old) }
    ensures table { OnOk result (table.new ≡ table.old) }
    ensures undos { OnOk result (undos.new ≡ undos.old ++ undo ∷ []) }
    ensures same { OnErr result (undos.new ≡ undos.old) }
    ensures back { OnErr result (T.is_good (T.before undo) (T.seen table.new)) }
{
    match undos.push(undo) {
        Ok(()) => Ok(()),
        Err(undo) => {
            table.take_back(undo);
            Err(Memory)
        }
    }
}

/// Takes the last one out.
fn pop<U>(undos: &mut Vec<U>) -> Option<U>
    ensures { MatchOption result ((undos.old.items ≡ []) × (undos.new.items ≡ [])) (λ u. undos.old.items ≡ undos.new.items ++ u ∷ []) }
{
    undos.pop()
}

/// Takes all changes back, the last one first. Takes no memory.
pub(crate) fn take_all_back<T: Reversible>(table: &mut T, undos: List<T::Undo>)
    requires { (first : T.State) × LeadsBy T.is_good T.before T.after first undos (T.seen table.old) }
    ensures { (first : T.State) → LeadsBy T.is_good T.before T.after first undos (T.seen table.old) → T.is_good first (T.seen table.new) }
{
    let mut left = undos.into_vec();
    while let Some(undo) = pop(&mut left) {
        table.take_back(undo);
    }
}

impl Reversible for Links {
    type Undo = fsl_links::Undo;

    ghost State = { TableState links.Fact };

    ghost is_good = { IsAsBefore };

    ghost seen = { λ t. t };

    ghost before = { λ u. u.before };

    ghost after = { λ u. u.after };

    fn take_back(&mut self, undo: fsl_links::Undo) {
        self.undo(undo);
    }

    ghost good_chain = { as_before-trans };
}

impl Reversible for Tags {
    type Undo = fsl_tags::Undo;

    ghost State = { TableState tags.Fact };

    ghost is_good = { IsAsBefore };

    ghost seen = { λ t. t };

    ghost before = { λ u. u.before };

    ghost after = { λ u. u.after };

    fn take_back(&mut self, undo: fsl_tags::Undo) {
        self.undo(undo);
    }

    ghost good_chain = { as_before-trans };
}

impl Reversible for Leaves {
    type Undo = fsl_leaves::Undo;

    ghost State = { TableState leaves.Fact };

    ghost is_good = { IsAsBefore };

    ghost seen = { λ t. t };

    ghost before = { λ u. u.before };

    ghost after = { λ u. u.after };

    fn take_back(&mut self, undo: fsl_leaves::Undo) {
        self.undo(undo);
    }

    ghost good_chain = { as_before-trans };
}

impl Reversible for Timeline {
    type Undo = fsl_timeline::Undo;

    ghost State = { TableState timeline.Row };

    ghost is_good = { IsAsBefore };

    ghost seen = { λ t. t };

    ghost before = { λ u. u.before };

    ghost after = { λ u. u.after };

    fn take_back(&mut self, undo: fsl_timeline::Undo) {
        self.undo(undo);
    }

    ghost good_chain = { as_before-trans };
}

impl Reversible for Threads {
    type Undo = fsl_forum::Undo;

    ghost State = { TableState forum.Fact };

    ghost is_good = { IsAsBefore };

    ghost seen = { λ t. t };

    ghost before = { λ u. u.before };

    ghost after = { λ u. u.after };

    fn take_back(&mut self, undo: fsl_forum::Undo) {
        self.undo(undo);
    }

    ghost good_chain = { as_before-trans };
}

impl Reversible for Tickets {
    type Undo = fsl_ticket::Undo;

    ghost State = { ticket.Seen };

    ghost is_good = { ticket.IsAsBefore };

    ghost seen = { λ t. t };

    ghost before = { λ u. u.before };

    ghost after = { λ u. u.after };

    fn take_back(&mut self, undo: fsl_ticket::Undo) {
        self.undo(undo);
    }

    ghost good_chain = { tickets-chain };
}

impl Reversible for Files {
    type Undo = fsl_files::Undo;

    ghost State = { TableState files.Fact };

    ghost is_good = { IsAsBefore };

    ghost seen = { λ t. t };

    ghost before = { λ u. u.before };

    ghost after = { λ u. u.after };

    fn take_back(&mut self, undo: fsl_files::Undo) {
        self.undo(undo);
    }

    ghost good_chain = { as_before-trans };
}

impl Reversible for Pages {
    type Undo = fsl_wiki::Undo;

    ghost State = { TableState wiki.Fact };

    ghost is_good = { IsAsBefore };

    ghost seen = { λ t. t };

    ghost before = { λ u. u.before };

    ghost after = { λ u. u.after };

    fn take_back(&mut self, undo: fsl_wiki::Undo) {
        self.undo(undo);
    }

    ghost good_chain = { as_before-trans };
}

impl Reversible for Clusters {
    type Undo = fsl_cluster::Undo;

    ghost State = { TableState cluster.Fact };

    ghost is_good = { IsAsBefore };

    ghost seen = { λ t. t };

    ghost before = { λ u. u.before };

    ghost after = { λ u. u.after };

    fn take_back(&mut self, undo: fsl_cluster::Undo) {
        self.undo(undo);
    }

    ghost good_chain = { as_before-trans };
}
