//! Rows hold assertions by rising tag, as trees whose branches rows share. A row that is made of another one has some branches of its
//! own, by log n for each assertion in which they differ, and all others in common with it.
ghost use Rattle.std.specs.Prelude.{◌≡◌, ◌+◌, ◌++◌, ◌∷◌, [], ◌==◌, ℕ, length, drop, filter, map, IfOk, OnOk};
ghost use Rattle.std.specs.List.{list_all};
ghost use Rattle.std.specs.List.Sorted.{IsStrictlySortedBy};
ghost use Rattle.std.specs.Option.{option_copied};
ghost use Rattle.fsl_order.specs.Names.{bytes_cmp};
ghost use Rattle.fsl_order.specs.Rows.{named};
ghost use Rattle.fsl_table.specs.Contents.{first_of};
ghost use Rattle.fsl_tags.specs.Sums.{mark, marks_of};
ghost use Rattle.fsl_tags.specs.Passing.{passes};
ghost use Rattle.fsl_tags.specs.Put.{put_in};

use super::Assertion;
use super::merge::push;
use super::order::propagates;
use super::shared::Shared;
use fsl_text::{List, Memory};
use std::alloc::Global;
use std::cmp::Ordering;
use std::marker::Model;
use std::sync::Arc;

/// A row holds assertions by rising tag. Contracts see it as their list.
#[cycle(row)]
#[derive(Drop)]
pub struct Row {
    tree: Option<Arc<Tree>>,
}

#[cycle(row)]
#[derive(Drop)]
struct Tree {
    left: Row,
    item: Shared,
    right: Row,
    /// How many there are.
    len: u64,
    /// Whether all of them propagate.
    passing: bool,
    /// The numbers at the fronts of the names of their sources, together: rows with other such sums are other rows.
    marks: u64,
}

impl Model for Tree {
    ghost use Rattle.std.specs.Prelude.{◌≡◌, List, ◌++◌, ◌∷◌, length, ◌*◌};
    ghost use Rattle.std.specs.List.{list_all};
    ghost use Rattle.fsl_tags.specs.declared.Assertion.{Assertion};

    ghost Value = { List Assertion };

    ghost use Rattle.fsl_tags.specs.Passing.{passes};
    ghost use Rattle.fsl_tags.specs.Sums.{marks_of};

    ghost view = { λ t. t.left ++ t.item ∷ t.right };

    ghost invariant = { λ t. (t.len ≡ length (t.left ++ t.item ∷ t.right)) × ((t.passing ≡ list_all passes (t.left ++ t.item ∷ t.right)) × (t.marks ≡ marks_of (t.left ++ t.item ∷ t.right))) };

    ghost size = { λ xs. 2 * length xs };

    ghost use Rattle.std.proofs.Common.{arith, length-append};

    ghost size_decreases = { λ a h. Prim.grind (arith, length-append) };
}

impl Model for Row {
    ghost use Rattle.std.specs.Prelude.{List, ◌+◌, ◌*◌, length, []};
    ghost use Rattle.std.specs.Option.{option_map_or};
    ghost use Rattle.fsl_tags.specs.declared.Assertion.{Assertion};

    ghost Value = { List Assertion };

    ghost view = { λ a. option_map_or (λ t. t.value) a.tree [] };

    ghost size = { λ xs. 2 * length xs + 1 };

    ghost use Rattle.std.proofs.Common.{arith, length-append};

    ghost size_decreases = { λ a h. Prim.grind (arith, length-append) };
}

impl Row {
    /// Makes a row without assertions. It takes no memory.
    pub fn new() -> Row
        ensures { result ≡ [] }
    {
        Row { tree: None }
    }

    /// Counts the assertions.
    pub fn len(&self) -> u64
        ensures { result ≡ length self.now }
    {
        match &self.tree {
            None => 0,
            Some(tree) => tree.len,
        }
    }

    /// Whether all of them propagate.
    pub fn is_passing(&self) -> bool
        ensures { result ≡ list_all passes self.now }
    {
        match &self.tree {
            None => true,
            Some(tree) => tree.passing,
        }
    }

    /// Gives the sum of their marks.
    pub fn marks(&self) -> u64
        ensures { result ≡ marks_of self.now }
    {
        match &self.tree {
            None => 0,
            Some(tree) => tree.marks,
        }
    }

    /// Gives the same row once more. `Memory` is the only error.
    pub fn again(&self) -> Result<Row, Memory>
        ensures { IfOk result (λ row. row ≡ self.now) }
    {
        match &self.tree {
            None => Ok(Row::new()),
            Some(tree) => match Arc::try_clone(tree) {
                Ok(tree) => Ok(Row { tree: Some(tree) }),
                Err(_) => Err(Memory),
            },
        }
    }
}

/// Three numbers together. `Memory` where that is more than a number holds: memory has no room for so many assertions.
fn total(left: u64, item: u64, right: u64) -> Result<u64, Memory>
    ensures { IfOk result (λ total. total ≡ left + (item + right)) }
{
    let Some(more) = item.checked_add(right) else {
        return Err(Memory);
    };
    match left.checked_add(more) {
        Some(total) => Ok(total),
        None => Err(Memory),
    }
}

/// The number at the front of the name of an assertion's source.
fn mark(assertion: &Assertion) -> u64
    ensures { result ≡ mark assertion.now }
{
    match assertion.source.bytes().as_slice() {
        [a, b, c, d, ..] => {
            ((u64::from(*a) * 256 + u64::from(*b)) * 256 + u64::from(*c)) * 256 + u64::from(*d)
        }
        _ => 0,
    }
}

/// A tree as a row.
fn planted(alloc: Global, tree: Tree) -> Result<Row, Memory>
    ensures { IfOk result (λ row. row ≡ tree) }
{
    match Arc::new(alloc, tree) {
        Ok(tree) => Ok(Row { tree: Some(tree) }),
        Err(_) => Err(Memory),
    }
}

/// An assertion between two rows, which are moved.
fn forked(alloc: Global, left: Row, item: Shared, right: Row) -> Result<Row, Memory>
    ensures { IfOk result (λ row. row ≡ left ++ item ∷ right) }
{
    let passing = left.is_passing() && propagates(item.get().prefix) && right.is_passing();
    let len = total(left.len(), 1, right.len());
    let marks = total(left.marks(), mark(item.get()), right.marks());
    match (len, marks) {
        (Ok(len), Ok(marks)) => planted(
            alloc,
            Tree {
                left,
                item,
                right,
                len,
                passing,
                marks,
            },
        ),
        _ => {
            drop(left);
            drop(item);
            drop(right);
            Err(Memory)
        }
    }
}

/// An assertion between two rows.
fn fork(alloc: Global, left: &Row, item: &Shared, right: &Row) -> Result<Row, Memory>
    ensures { IfOk result (λ row. row ≡ left.now ++ item.now ∷ right.now) }
{
    match (left.again(), item.again(), right.again()) {
        (Ok(left), Ok(item), Ok(right)) => forked(alloc, left, item, right),
        _ => Err(Memory),
    }
}

/// Two assertions between three rows, of which the middle one is parted where it has an assertion.
fn parted(
    alloc: Global,
    left: &Row,
    item: &Shared,
    middle: &Row,
    next: &Shared,
    right: &Row,
) -> Result<Row, Memory>
    ensures { IfOk result (λ row. row ≡ left.now ++ item.now ∷ middle.now ++ next.now ∷ right.now) }
{
    let Some(tree) = &middle.tree else {
        let far = fork(alloc, middle, next, right)?;
        return fork(alloc, left, item, &far);
    };
    let Tree {
        left: before,
        item: top,
        right: behind,
        ..
    } = &**tree;
    let near = fork(alloc, left, item, before)?;
    let far = fork(alloc, behind, next, right)?;
    fork(alloc, &near, top, &far)
}

/// The same, where the right row may be much longer: its left branch moves over, or where that is the longer one the two halves of that
/// branch part.
fn turned_left(alloc: Global, left: &Row, item: &Shared, right: &Row) -> Result<Row, Memory>
    ensures { IfOk result (λ row. row ≡ left.now ++ item.now ∷ right.now) }
{
    let Some(tree) = &right.tree else {
        return fork(alloc, left, item, right);
    };
    let Tree {
        left: middle,
        item: next,
        right: far,
        ..
    } = &**tree;
    if far.len() < middle.len() {
        return parted(alloc, left, item, middle, next, far);
    }
    let near = fork(alloc, left, item, middle)?;
    fork(alloc, &near, next, far)
}

/// The same, where the left row may be much longer.
fn turned_right(alloc: Global, left: &Row, item: &Shared, right: &Row) -> Result<Row, Memory>
    ensures { IfOk result (λ row. row ≡ left.now ++ item.now ∷ right.now) }
{
    let Some(tree) = &left.tree else {
        return fork(alloc, left, item, right);
    };
    let Tree {
        left: near,
        item: next,
        right: middle,
        ..
    } = &**tree;
    if near.len() < middle.len() {
        return parted(alloc, near, next, middle, item, right);
    }
    let far = fork(alloc, middle, item, right)?;
    fork(alloc, near, next, &far)
}

/// An assertion between two rows, turned where one is more than three times as long as the other, so that the way to each assertion is
/// short.
fn balanced(alloc: Global, left: &Row, item: &Shared, right: &Row) -> Result<Row, Memory>
    ensures { IfOk result (λ row. row ≡ left.now ++ item.now ∷ right.now) }
{
    if left.len() < right.len() / 3 {
        turned_left(alloc, left, item, right)
    } else if right.len() < left.len() / 3 {
        turned_right(alloc, left, item, right)
    } else {
        fork(alloc, left, item, right)
    }
}

/// How the tag of an assertion stands to a tag.
fn order(assertion: &Shared, tag: &[u8]) -> Ordering
    ensures { result ≡ bytes_cmp assertion.now.tag tag.now }
{
    assertion.get().tag.bytes().cmp(&tag)
}

/// The assertion of a tag.
pub(crate) fn find<'a>(row: &'a Row, tag: &[u8]) -> Option<&'a Assertion>
    requires { IsStrictlySortedBy bytes_cmp (map (λ a. a.tag) row.now) }
    ensures { option_copied result ≡ named (λ a. a.tag) row.now tag.now }
{
    match &row.tree {
        None => None,
        Some(tree) => {
            let Tree {
                left,
                item,
                right,
                ..
            } = &**tree;
            match order(item, tag) {
                Ordering::Less => find(right, tag),
                Ordering::Equal => Some(item.get()),
                Ordering::Greater => find(left, tag),
            }
        }
    }
}

/// The assertion at a place.
pub(crate) fn at(row: &Row, place: u64) -> Option<&Assertion>
    ensures { option_copied result ≡ first_of (drop place row.now) }
{
    match &row.tree {
        None => None,
        Some(tree) => {
            let Tree {
                left,
                item,
                right,
                ..
            } = &**tree;
            let before = left.len();
            if place < before {
                at(left, place)
            } else if place == before {
                Some(item.get())
            } else {
                at(right, place - before - 1)
            }
        }
    }
}

/// A row with an assertion in its place, or in the place of one of its tag. `Memory` is the only error.
pub(crate) fn put(alloc: Global, row: &Row, assertion: &Shared) -> Result<Row, Memory>
    requires { IsStrictlySortedBy bytes_cmp (map (λ a. a.tag) row.now) }
    ensures { IfOk result (λ new. new ≡ put_in row.now assertion.now) }
{
    match &row.tree {
        None => fork(alloc, row, assertion, row),
        Some(tree) => {
            let Tree {
                left,
                item,
                right,
                ..
            } = &**tree;
            match order(item, assertion.get().tag.bytes()) {
                Ordering::Less => {
                    let far = put(alloc, right, assertion)?;
                    balanced(alloc, left, item, &far)
                }
                Ordering::Equal => fork(alloc, left, assertion, right),
                Ordering::Greater => {
                    let near = put(alloc, left, assertion)?;
                    balanced(alloc, &near, item, right)
                }
            }
        }
    }
}

/// The row of some assertions. `Memory` is the only error.
pub(crate) fn built(alloc: Global, items: &[Shared]) -> Result<Row, Memory>
    ensures { IfOk result (λ row. row ≡ items.now) }
{
    if items.is_empty() {
        return Ok(Row::new());
    }
    let middle = items.len() / 2;
    let left = built(alloc, &items[..middle])?;
    let right = built(alloc, &items[middle + 1..])?;
    fork(alloc, &left, &items[middle], &right)
}

/// Puts the assertions of a row at the end of a list.
fn append_row(row: &Row, list: &mut List<Shared>) -> Result<(), Memory>
    ensures { OnOk result (list.new ≡ list.old ++ row.now) }
{
    match &row.tree {
        None => Ok(()),
        Some(tree) => {
            let Tree {
                left,
                item,
                right,
                ..
            } = &**tree;
            append_row(left, list)?;
            push(list, item)?;
            append_row(right, list)
        }
    }
}

/// The assertions of a row. `Memory` is the only error.
pub(crate) fn listed(alloc: Global, row: &Row) -> Result<List<Shared>, Memory>
    ensures { IfOk result (λ list. list ≡ row.now) }
{
    let mut list = List::new(alloc);
    match append_row(row, &mut list) {
        Ok(()) => Ok(list),
        Err(Memory) => Err(Memory),
    }
}

/// One row behind another: the shorter one goes down to the edge of the longer one, until neither is left.
fn chained(alloc: Global, before: &Row, behind: &Row) -> Result<Row, Memory>
    ensures { IfOk result (λ row. row ≡ before.now ++ behind.now) }
{
    match (&before.tree, &behind.tree) {
        (Some(near), Some(far)) => {
            if before.len() < behind.len() {
                let Tree {
                    left,
                    item,
                    right,
                    ..
                } = &**far;
                let joined = chained(alloc, before, left)?;
                balanced(alloc, &joined, item, right)
            } else {
                let Tree {
                    left,
                    item,
                    right,
                    ..
                } = &**near;
                let joined = chained(alloc, right, behind)?;
                balanced(alloc, left, item, &joined)
            }
        }
        (None, _) => behind.again(),
        (_, None) => before.again(),
    }
}

/// Those assertions of a row that propagate; all of them are the row itself. `Memory` is the only error.
pub(crate) fn passed(alloc: Global, row: &Row) -> Result<Row, Memory>
    ensures { IfOk result (λ new. new ≡ filter passes row.now) }
{
    if row.is_passing() {
        return row.again();
    }
    match &row.tree {
        None => Ok(Row::new()),
        Some(tree) => {
            let Tree {
                left,
                item,
                right,
                ..
            } = &**tree;
            let near = passed(alloc, left)?;
            let far = passed(alloc, right)?;
            if propagates(item.get().prefix) {
                balanced(alloc, &near, item, &far)
            } else {
                chained(alloc, &near, &far)
            }
        }
    }
}
