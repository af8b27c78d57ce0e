//! Artifacts that become public or get other members, and are taken back.
ghost use Rattle.std.specs.Prelude.{◌≡◌, [], true, map, IfOk, OnOk};
ghost use Rattle.fsl_order.specs.Names.{has};
ghost use Rattle.fsl_order.specs.TableState.{IsAsBefore};

use crate::names::{letter, names_of};
use crate::wanting::want;
use fsl_cluster::{Clusters, Fact, Undo};
use fsl_name::Name;
use fsl_text::{Memory, Steps, Text};
use std::alloc::Global;
use std::sync::ledger::Ledger;
use tests_kit::{Play, put, put_names, shown};

/// An artifact with some letters as its members and as the names that it refers to.
fn artifact(alloc: Global, name: Name, private: bool, letters: &[u8]) -> Result<Fact, Memory>
    ensures { IfOk result (λ fact. fact.name ≡ name) }
{
    let members = names_of(alloc, letters)?;
    let refs = names_of(alloc, letters)?;
    Ok(Fact {
        name,
        private,
        members,
        refs,
    })
}

/// Whether a name is unclustered.
fn is_unclustered(alloc: Global, clusters: &Clusters, name: Name) -> bool {
    match clusters.unclustered(alloc) {
        Ok(names) => names.items().contains(&name),
        Err(Memory) => false,
    }
}

/// Adds what a name is: unclustered, missing or neither.
fn put_kind(alloc: Global, clusters: &Clusters, name: u8, into: &mut Text) {
    let missing = clusters.is_missing(letter(name));
    let unclustered = is_unclustered(alloc, clusters, letter(name));
    put(
        into,
        if missing {
            b"m"
        } else if unclustered {
            b"u"
        } else {
            b"-"
        },
    );
}

/// Adds what three names are.
fn show(alloc: Global, clusters: &Clusters, into: &mut Text) {
    put(into, b"are");
    put_kind(alloc, clusters, b'a', into);
    put_kind(alloc, clusters, b'b', into);
    put_kind(alloc, clusters, b'k', into);
}

/// A private artifact comes.
fn come<L: Ledger>(
    alloc: Global,
    clusters: &mut Clusters,
    name: Name,
    steps: &mut Steps<L>,
) -> Result<(), Memory>
    requires { clusters.old.facts ≡ [] }
    ensures { OnOk result (has (map (λ f. f.name) clusters.new.facts) name ≡ true) }
{
    let fact = artifact(alloc, name, true, b"")?;
    match clusters.add(alloc, fact, steps) {
        Ok(undo) => {
            drop(undo);
            Ok(())
        }
        Err(Memory) => Err(Memory),
    }
}

/// An artifact becomes a public one with members.
fn gather<L: Ledger>(
    alloc: Global,
    clusters: &mut Clusters,
    name: Name,
    letters: &[u8],
    steps: &mut Steps<L>,
) -> Result<(), Memory>
    requires { has (map (λ f. f.name) clusters.old.facts) name ≡ true }
    ensures { OnOk result (has (map (λ f. f.name) clusters.new.facts) name ≡ true) }
{
    let fact = artifact(alloc, name, false, letters)?;
    match clusters.change(alloc, fact, steps) {
        Ok(undo) => {
            drop(undo);
            Ok(())
        }
        Err(Memory) => Err(Memory),
    }
}

/// Takes the last change back: what it tells, and what stands before and after.
fn take_back(alloc: Global, clusters: &mut Clusters, undo: Undo, into: &mut Text)
    requires { undo.after ≡ clusters.old }
    ensures { IsAsBefore undo.before clusters.new }
{
    put_names(into, undo.changed().items());
    show(alloc, clusters, into);
    clusters.undo(undo);
    show(alloc, clusters, into);
}

/// An artifact becomes a public one with members, and that is taken back.
fn gather_back<L: Ledger>(
    alloc: Global,
    clusters: &mut Clusters,
    name: Name,
    letters: &[u8],
    into: &mut Text,
    steps: &mut Steps<L>,
) -> Result<(), Memory>
    requires { has (map (λ f. f.name) clusters.old.facts) name ≡ true }
    ensures { OnOk result (has (map (λ f. f.name) clusters.new.facts) name ≡ true) }
{
    let gathered = artifact(alloc, name, false, letters)?;
    match clusters.change(alloc, gathered, steps) {
        Ok(undo) => {
            take_back(alloc, clusters, undo, into);
            Ok(())
        }
        Err(Memory) => Err(Memory),
    }
}

/// A private artifact becomes public and is taken back; then a cluster of two comes to be one of itself and is taken back.
fn be_changed<L: Ledger>(
    alloc: Global,
    clusters: &mut Clusters,
    into: &mut Text,
    steps: &mut Steps<L>,
) -> Result<(), Memory>
    requires { clusters.old.facts ≡ [] }
{
    let name = letter(b'k');
    come(alloc, clusters, name, steps)?;
    show(alloc, clusters, into);
    gather_back(alloc, clusters, name, b"", into, steps)?;
    put(into, b"then");
    gather(alloc, clusters, name, b"ab", steps)?;
    show(alloc, clusters, into);
    gather_back(alloc, clusters, name, b"k", into, steps)
}

/// An artifact becomes public, and a cluster gets other members.
struct OfClusters;

impl Play for OfClusters {
    fn play<L: Ledger>(
        &self,
        alloc: Global,
        into: &mut Text,
        steps: &mut Steps<L>,
    ) -> Result<(), Memory> {
        let mut clusters = Clusters::new(alloc);
        be_changed(alloc, &mut clusters, into, steps)
    }
}

#[test]
fn artifacts_become_public_and_clusters_get_other_members(rt: HostRuntime) -> Result<(), Memory> {
    want(
        &rt,
        shown(rt.alloc(), &OfClusters)?,
        b" are - - - 13fb are - - u are - - - then are m m u 13fb 86f7 e9d7 are - - - are m m u",
    );
    Ok(())
}
