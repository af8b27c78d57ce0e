//! Keeps a key for each child of a check-in in a branch: puts it, takes it out, and looks for it.
ghost use Rattle.std.specs.Prelude.{◌≡◌, ◌+◌, ◌≤◌, ◌&&◌, ◌||◌, ◌∷◌, [], not, is_some, length, None, OnOk, IfOk};
ghost use Rattle.std.specs.List.Sorted.{IsStrictlySortedBy};
ghost use Rattle.std.specs.Map.{keys_of};
ghost use Rattle.fsl_order.specs.Names.{has};
ghost use Rattle.fsl_table.specs.Contents.{first_of};
ghost use Rattle.fsl_table.specs.Within.{within};
ghost use Rattle.fsl_leaves.specs.Keys.{Kin, twig_cmp, kin_cmp, exact_twig, has_kin, is_kin, walked};

use crate::branch::Branch;
use fsl_name::Name;
use fsl_table::within::next_within;
use fsl_table::{Key, Tracked, Within};
use fsl_text::{Memory, Steps};
use std::sync::ledger::Ledger;

/// A name and a branch. The children of that name in that branch belong to it.
#[derive(Drop, PartialEq, Eq, PartialOrd, Ord)]
pub struct Twig {
    pub parent: Name,
    pub branch: Branch,
}

impl Key for Twig {
    ghost exact = { exact_twig };
}

/// The key of a child of a name, in a branch. `Memory` is the only error.
fn kin(parent: Name, branch: &Branch, child: Option<Name>) -> Result<Within<Twig, Name>, Memory>
    ensures { IfOk result (λ key. key ≡ record { first = record { parent = parent; branch = branch.now }; second = child }) }
{
    let branch = branch.again()?;
    Ok(Within {
        first: Twig { parent, branch },
        second: child,
    })
}

/// Whether anything belongs to what a key begins with.
fn any_within<L: Ledger>(
    children: &Tracked<Within<Twig, Name>, ()>,
    key: &Within<Twig, Name>,
    steps: &mut Steps<L>,
) -> bool
    requires ordered { IsStrictlySortedBy kin_cmp (keys_of children.now.held.entries) }
    requires none { key.now.second ≡ None }
    ensures is { result ≡ is_some (first_of (within twig_cmp key.now.first children.now.held.entries)) }
    ensures cost { steps.new ≡ steps.old + 1 }
{
    match next_within(children.map(), key, steps) {
        Some(_) => true,
        None => false,
    }
}

/// Whether a name has a child in a branch. It is one look, however many children the name has. `Memory` is the only error.
pub(crate) fn is_continued<L: Ledger>(
    children: &Tracked<Within<Twig, Name>, ()>,
    name: Name,
    branch: &Branch,
    steps: &mut Steps<L>,
) -> Result<bool, Memory>
    requires { IsStrictlySortedBy kin_cmp (keys_of children.now.held.entries) }
    ensures is { IfOk result (λ continued. continued ≡ walked children.now.held.entries name branch.now) }
    ensures cost { steps.new ≤ steps.old + 1 }
{
    let key = kin(name, branch, None)?;
    Ok(any_within(children, &key, steps))
}

/// Puts the key of a child of a name, in a branch. All stays as it was where memory runs out.
fn link<L: Ledger>(
    children: &mut Tracked<Within<Twig, Name>, ()>,
    child: Name,
    parent: Name,
    branch: &Branch,
    steps: &mut Steps<L>,
) -> Result<(), Memory>
    requires { IsStrictlySortedBy kin_cmp (keys_of children.old.held.entries) }
    ensures pairs { OnOk result ((k : Kin) → has_kin children.new.held k ≡ (is_kin child (parent ∷ []) branch.now k || has_kin children.old.held k)) }
    ensures ordered { OnOk result (IsStrictlySortedBy kin_cmp (keys_of children.new.held.entries)) }
    ensures was { children.new.was ≡ children.old.was }
    ensures most { steps.new ≤ steps.old + 1 }
    ensures back { children.new.back ≤ children.old.back + 1 }
{
    let key = kin(parent, branch, Some(child))?;
    let again = kin(parent, branch, Some(child))?;
    children.put(key, again, (), steps)
}

/// Takes the key of a child of a name, in a branch, out. All stays as it was where memory runs out.
fn unlink<L: Ledger>(
    children: &mut Tracked<Within<Twig, Name>, ()>,
    child: Name,
    parent: Name,
    branch: &Branch,
    steps: &mut Steps<L>,
) -> Result<(), Memory>
    requires { IsStrictlySortedBy kin_cmp (keys_of children.old.held.entries) }
    ensures pairs { OnOk result ((k : Kin) → has_kin children.new.held k ≡ (not (is_kin child (parent ∷ []) branch.now k) && has_kin children.old.held k)) }
    ensures ordered { OnOk result (IsStrictlySortedBy kin_cmp (keys_of children.new.held.entries)) }
    ensures was { children.new.was ≡ children.old.was }
    ensures most { steps.new ≤ steps.old + 1 }
    ensures back { children.new.back ≤ children.old.back + 1 }
{
    let key = kin(parent, branch, Some(child))?;
    children.remove(key, steps)
}

/// Puts the keys of a child of some names, in a branch. After `Memory` some may be put.
pub(crate) fn link_each<L: Ledger>(
    children: &mut Tracked<Within<Twig, Name>, ()>,
    child: Name,
    parents: &[Name],
    branch: &Branch,
    steps: &mut Steps<L>,
) -> Result<(), Memory>
    requires { IsStrictlySortedBy kin_cmp (keys_of children.old.held.entries) }
    ensures pairs { OnOk result ((k : Kin) → has_kin children.new.held k ≡ (has_kin children.old.held k || is_kin child parents.now branch.now k)) }
    ensures ordered { OnOk result (IsStrictlySortedBy kin_cmp (keys_of children.new.held.entries)) }
    ensures was { children.new.was ≡ children.old.was }
    ensures most { steps.new ≤ steps.old + length parents.now }
    ensures back { children.new.back ≤ children.old.back + length parents.now }
{
    for parent in parents {
        link(children, child, *parent, branch, steps)?;
    }
    Ok(())
}

/// Takes the keys of a child of some names, in a branch, out. After `Memory` some may be out.
pub(crate) fn unlink_each<L: Ledger>(
    children: &mut Tracked<Within<Twig, Name>, ()>,
    child: Name,
    parents: &[Name],
    branch: &Branch,
    steps: &mut Steps<L>,
) -> Result<(), Memory>
    requires { IsStrictlySortedBy kin_cmp (keys_of children.old.held.entries) }
    ensures pairs { OnOk result ((k : Kin) → has_kin children.new.held k ≡ (not (is_kin child parents.now branch.now k) && has_kin children.old.held k)) }
    ensures ordered { OnOk result (IsStrictlySortedBy kin_cmp (keys_of children.new.held.entries)) }
    ensures was { children.new.was ≡ children.old.was }
    ensures most { steps.new ≤ steps.old + length parents.now }
    ensures back { children.new.back ≤ children.old.back + length parents.now }
{
    for parent in parents {
        unlink(children, child, *parent, branch, steps)?;
    }
    Ok(())
}
