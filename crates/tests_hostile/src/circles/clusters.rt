//! Two clusters of which each is the other's member.
ghost use Rattle.std.specs.Prelude.{◌≡◌, ◌∷◌, [], false, map, IfOk, OnOk};
ghost use Rattle.std.specs.Str.{bytes_eq};
ghost use Rattle.fsl_order.specs.Names.{has};
ghost use Rattle.fsl_order.specs.Rows.{by_name};

use super::are_same;
use crate::wanting::want;
use fsl_cluster::{Clusters, Fact};
use fsl_name::Name;
use fsl_text::{List, Memory, Steps, Text};
use std::alloc::Global;
use std::sync::ledger::Ledger;
use tests_kit::{Play, put, put_names, shown};

fn first() -> Name {
    Name::of(b"k1")
}

fn second() -> Name {
    Name::of(b"k2")
}

fn list_of(alloc: Global, name: Name) -> Result<List<Name>, Memory> {
    let mut names = List::new(alloc);
    names.append(name)?;
    Ok(names)
}

/// A public cluster of one member.
fn cluster(alloc: Global, name: Name, member: Name) -> Result<Fact, Memory>
    ensures { IfOk result (λ fact. fact.name ≡ name) }
{
    let members = list_of(alloc, member)?;
    let refs = list_of(alloc, member)?;
    Ok(Fact {
        name,
        private: false,
        members,
        refs,
    })
}

/// Takes a cluster in.
fn take<L: Ledger>(
    alloc: Global,
    clusters: &mut Clusters,
    fact: Fact,
    steps: &mut Steps<L>,
) -> Result<(), Memory>
    requires absent { has (map (λ f. f.name) clusters.old.facts) fact.name ≡ false }
    ensures { OnOk result (clusters.new.facts ≡ by_name (λ f. f.name) (fact ∷ clusters.old.facts)) }
{
    match clusters.add(alloc, fact, steps) {
        Ok(undo) => {
            drop(undo);
            Ok(())
        }
        Err(Memory) => Err(Memory),
    }
}

/// Adds the names that a table lists.
fn show_names(names: Result<List<Name>, Memory>, into: &mut Text) {
    match &names {
        Ok(names) => {
            put_names(into, names.items());
        }
        Err(_) => put(into, b"no memory"),
    }
    drop(names);
}

/// Adds the names that are unclustered, and then those that are missing.
fn show(alloc: Global, clusters: &Clusters, into: &mut Text) {
    put(into, b"unclustered");
    show_names(clusters.unclustered(alloc), into);
    put(into, b"missing");
    show_names(clusters.missing(alloc), into);
}

/// Takes both clusters in, and shows what stands behind each.
fn take_both<L: Ledger>(
    alloc: Global,
    clusters: &mut Clusters,
    early: Fact,
    late: Fact,
    into: &mut Text,
    steps: &mut Steps<L>,
) -> Result<(), Memory>
    requires none { clusters.old.facts ≡ [] }
    requires differ { bytes_eq late.name early.name ≡ false }
{
    take(alloc, clusters, early, steps)?;
    show(alloc, clusters, into);
    take(alloc, clusters, late, steps)?;
    show(alloc, clusters, into);
    Ok(())
}

/// The clusters, the one that comes later first.
struct Turns {
    late: Fact,
    early: Fact,
}

fn in_turn(alloc: Global, is_reversed: bool) -> Result<Turns, Memory> {
    let one = cluster(alloc, first(), second())?;
    let other = cluster(alloc, second(), first())?;
    Ok(if is_reversed {
        Turns {
            late: one,
            early: other,
        }
    } else {
        Turns {
            late: other,
            early: one,
        }
    })
}

/// Clusters come into a circle.
struct OfClusters {
    is_reversed: bool,
}

impl Play for OfClusters {
    fn play<L: Ledger>(
        &self,
        alloc: Global,
        into: &mut Text,
        steps: &mut Steps<L>,
    ) -> Result<(), Memory> {
        let Turns { late, early } = in_turn(alloc, self.is_reversed)?;
        if are_same(late.name, early.name) {
            return Err(Memory);
        }
        let mut clusters = Clusters::new(alloc);
        take_both(alloc, &mut clusters, early, late, into, steps)
    }
}

/// Shows what a table of two clusters shows that is made at once.
fn show_built(alloc: Global, late: Fact, early: Fact, into: &mut Text) -> Result<(), Memory>
    requires { bytes_eq late.name early.name ≡ false }
{
    let clusters = Clusters::build(alloc, &[late, early])?;
    show(alloc, &clusters, into);
    Ok(())
}

/// A table of a circle of clusters that is made at once.
struct OfBuiltClusters {
    is_reversed: bool,
}

impl Play for OfBuiltClusters {
    fn play<L: Ledger>(
        &self,
        alloc: Global,
        into: &mut Text,
        _steps: &mut Steps<L>,
    ) -> Result<(), Memory> {
        let Turns { late, early } = in_turn(alloc, self.is_reversed)?;
        if are_same(late.name, early.name) {
            return Err(Memory);
        }
        show_built(alloc, late, early, into)
    }
}

#[test]
fn a_table_of_a_circle_of_clusters_is_the_same(rt: HostRuntime) -> Result<(), Memory> {
    let wanted = b" unclustered missing";
    want(
        &rt,
        shown(rt.alloc(), &OfBuiltClusters { is_reversed: false })?,
        wanted,
    );
    want(
        &rt,
        shown(rt.alloc(), &OfBuiltClusters { is_reversed: true })?,
        wanted,
    );
    Ok(())
}

#[test]
fn clusters_come_into_a_circle(rt: HostRuntime) -> Result<(), Memory> {
    want(
        &rt,
        shown(rt.alloc(), &OfClusters { is_reversed: false })?,
        b" unclustered a2ab missing bfeb unclustered missing",
    );
    want(
        &rt,
        shown(rt.alloc(), &OfClusters { is_reversed: true })?,
        b" unclustered bfeb missing a2ab unclustered missing",
    );
    Ok(())
}
