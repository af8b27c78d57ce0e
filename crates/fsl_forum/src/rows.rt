//! Reads and notes the rows of names, and changes the threads of posts by rows that differ.
ghost use Rattle.std.specs.Prelude.{◌≡◌, ◌++◌, OnOk, IfOk, map};
ghost use Rattle.std.specs.List.Sorted.{IsStrictlySortedBy};
ghost use Rattle.std.specs.Map.{keys_of};
ghost use Rattle.fsl_order.specs.Names.{bytes_cmp};
ghost use Rattle.fsl_table.specs.Contents.{value_at};
ghost use Rattle.fsl_table.specs.Exact.{pair_cmp};
ghost use Rattle.fsl_forum.specs.Held.{AreMoved};
ghost use Rattle.fsl_forum.specs.Rows.{AreAllMoved, IsMoved, differing, if_other, noted_in, place_of as thread_of_row, row_in, same_kind as kinds_alike, same_row};

use super::PostKind;
use super::node::{Node, Row};
use fsl_name::Name;
use fsl_table::{Pair, Tracked};
use fsl_text::{List, Memory, Steps};
use std::alloc::Global;
use std::sync::ledger::Ledger;

/// A name with the row that it had.
#[derive(Drop)]
pub(crate) struct Noted {
    pub name: Name,
    pub row: Option<Row>,
}

/// The end of the chain of a name, where it is whole.
pub(crate) fn end_of<L: Ledger>(
    ends: &Tracked<Name, Name>,
    name: Name,
    steps: &mut Steps<L>,
) -> Option<Name>
    ensures { result ≡ value_at bytes_cmp name ends.now.held.entries }
{
    match ends.get(&name, steps) {
        Some(end) => Some(*end),
        None => None,
    }
}

/// The row of a name.
pub(crate) fn row_of<L: Ledger>(
    posts: &Tracked<Name, Node>,
    ends: &Tracked<Name, Name>,
    name: Name,
    steps: &mut Steps<L>,
) -> Option<Row>
    ensures { result ≡ row_in posts.now.held.entries ends.now.held.entries name }
{
    match posts.get(&name, steps) {
        Some(node) => node.row(name, end_of(ends, name, steps)),
        None => None,
    }
}

/// The rows of some names, beside these.
pub(crate) fn note_rows<L: Ledger>(
    alloc: Global,
    posts: &Tracked<Name, Node>,
    ends: &Tracked<Name, Name>,
    names: &[Name],
    steps: &mut Steps<L>,
) -> Result<Vec<Noted>, Memory>
    ensures { IfOk result (λ noted. noted.items ≡ map (noted_in (row_in posts.now.held.entries ends.now.held.entries)) names.now) }
{
    let mut noted = Vec::new(alloc);
    for name in names {
        let row = row_of(posts, ends, *name, steps);
        noted.push(Noted { name: *name, row })?;
    }
    Ok(noted)
}

/// Whether two posts are of one kind.
fn same_kind(a: PostKind, b: PostKind) -> bool
    ensures { result ≡ kinds_alike a b }
{
    match (a, b) {
        (PostKind::Start, PostKind::Start) => true,
        (PostKind::Edit, PostKind::Edit) => true,
        (PostKind::Reply, PostKind::Reply) => true,
        _ => false,
    }
}

/// Whether two rows are one.
fn is_same(a: &Option<Row>, b: &Option<Row>) -> bool
    ensures { result ≡ same_row a.now b.now }
{
    match (a, b) {
        (None, None) => true,
        (Some(a), Some(b)) => a.0 == b.0 && same_kind(a.1, b.1),
        _ => false,
    }
}

/// The thread of a row.
fn thread_of(row: &Option<Row>) -> Option<Name>
    ensures { result ≡ thread_of_row row.now }
{
    match row {
        Some(row) => Some(row.0),
        None => None,
    }
}

/// Puts the pair of a name and of the one to which it belongs in the place of the old one.
pub(crate) fn relink<L: Ledger>(
    pairs: &mut Tracked<Pair, ()>,
    name: Name,
    old: Option<Name>,
    new: Option<Name>,
    steps: &mut Steps<L>,
) -> Result<(), Memory>
    requires { IsStrictlySortedBy pair_cmp (keys_of pairs.old.held.entries) }
    ensures pairs { OnOk result (AreMoved name old new pairs.old.held.entries pairs.new.held.entries) }
    ensures ordered { OnOk result (IsStrictlySortedBy pair_cmp (keys_of pairs.new.held.entries)) }
    ensures was { pairs.new.was ≡ pairs.old.was }
{
    pairs.unlink(name, old, steps)?;
    pairs.link(name, new, steps)
}

/// Where the row of a name isn't what was noted, puts the post from its old thread into its new one, and the name behind those that
/// have changed.
fn move_one<L: Ledger>(
    posts: &Tracked<Name, Node>,
    ends: &Tracked<Name, Name>,
    placed: &mut Tracked<Pair, ()>,
    changed: &mut List<Name>,
    noted: &Noted,
    steps: &mut Steps<L>,
) -> Result<(), Memory>
    requires { IsStrictlySortedBy pair_cmp (keys_of placed.old.held.entries) }
    ensures placed { OnOk result (IsMoved (row_in posts.now.held.entries ends.now.held.entries) noted.now placed.old.held.entries placed.new.held.entries) }
    ensures ordered { OnOk result (IsStrictlySortedBy pair_cmp (keys_of placed.new.held.entries)) }
    ensures changed { OnOk result (changed.new ≡ changed.old ++ if_other (row_in posts.now.held.entries ends.now.held.entries) noted.now) }
    ensures was { placed.new.was ≡ placed.old.was }
{
    let row = row_of(posts, ends, noted.name, steps);
    if is_same(&noted.row, &row) {
        return Ok(());
    }
    let old = thread_of(&noted.row);
    relink(placed, noted.name, old, thread_of(&row), steps)?;
    changed.append(noted.name)
}

/// The same for each name; tells those that have changed.
pub(crate) fn move_each<L: Ledger>(
    alloc: Global,
    posts: &Tracked<Name, Node>,
    ends: &Tracked<Name, Name>,
    placed: &mut Tracked<Pair, ()>,
    noted: &[Noted],
    steps: &mut Steps<L>,
) -> Result<List<Name>, Memory>
    requires placed { IsStrictlySortedBy pair_cmp (keys_of placed.old.held.entries) }
    requires rise { IsStrictlySortedBy bytes_cmp (map (λ n. n.name) noted.now) }
    ensures placed { OnOk result (AreAllMoved (row_in posts.now.held.entries ends.now.held.entries) noted.now placed.old.held.entries placed.new.held.entries) }
    ensures changed { IfOk result (λ changed. changed ≡ differing (row_in posts.now.held.entries ends.now.held.entries) noted.now) }
    ensures was { placed.new.was ≡ placed.old.was }
{
    let mut changed = List::new(alloc);
    for one in noted {
        move_one(posts, ends, placed, &mut changed, one, steps)?;
    }
    Ok(changed)
}
