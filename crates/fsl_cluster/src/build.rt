//! Builds the maps of many facts at once.
ghost use Rattle.std.specs.Prelude.{ℕ, List, ◌≡◌, ◌||◌, [], map, IfOk, OnOk, None, IsPermutation};
ghost use Rattle.std.specs.List.Sorted.{IsStrictlySortedBy};
ghost use Rattle.std.specs.Map.{keys_of};
ghost use Rattle.fsl_order.specs.Names.{bytes_cmp, has};
ghost use Rattle.fsl_order.specs.Rows.{by_name, AreDistinct};
ghost use Rattle.fsl_table.specs.Contents.{value_at, with_entry};
ghost use Rattle.fsl_table.specs.Exact.{pair_cmp};
ghost use Rattle.fsl_cluster.specs.Clusters as table;
ghost use Rattle.fsl_cluster.specs.Kept.{AreLaid, AreMore, IsKept, entry_of, facts_of, is_in};

use crate::Fact;
use crate::entry::{Entry, entry_from};
use crate::gather::{missing, unclustered};
use crate::tables::Tables;
use fsl_name::Name;
use fsl_table::pairs::link_each;
use fsl_table::{Log, Pair, Table};
use fsl_text::{List, Memory, Steps};
use std::alloc::Global;
use std::sync::ledger::Ledger;

/// A list of some names.
fn copy(alloc: Global, names: &[Name]) -> Result<List<Name>, Memory>
    ensures { IfOk result (λ list. list ≡ names.now) }
{
    Ok(List::from_vec(names.to_vec(alloc)?))
}

/// A fact with the same content.
fn copied(alloc: Global, fact: &Fact) -> Result<Fact, Memory>
    ensures { IfOk result (λ copy. copy ≡ fact.now) }
{
    Ok(Fact {
        name: fact.name,
        private: fact.private,
        members: copy(alloc, fact.members.items())?,
        refs: copy(alloc, fact.refs.items())?,
    })
}

/// Copies of some facts.
pub(crate) fn copies(alloc: Global, facts: &[Fact]) -> Result<List<Fact>, Memory>
    ensures { IfOk result (λ list. list ≡ facts.now) }
{
    let mut list = Vec::with_capacity(alloc, facts.len())?;
    for fact in facts {
        list.push(copied(alloc, fact)?)?;
    }
    Ok(List::from_vec(list))
}

/// Some facts against the order of their names: from the end of these they are put into a map the fastest.
fn in_order(facts: List<Fact>) -> Vec<Fact>
    ensures { IsPermutation facts result.items }
{
    let mut ordered = facts.into_vec();
    ordered.sort_unstable_by(|one, other| other.name.cmp(&one.name));
    ordered
}

/// Puts the pairs of a name and of each of some others in. What would take them out again isn't wanted.
fn lay_pairs<L: Ledger>(
    alloc: Global,
    pairs: &mut Table<Pair, ()>,
    name: Name,
    others: &[Name],
    steps: &mut Steps<L>,
) -> Result<(), Memory>
    ensures pairs { OnOk result (AreMore pairs.old.entries pairs.new.entries name others.now) }
    ensures ordered { OnOk result (IsStrictlySortedBy pair_cmp (keys_of pairs.old.entries) → IsStrictlySortedBy pair_cmp (keys_of pairs.new.entries)) }
{
    let mut log = Log::new(alloc);
    let laid = link_each(pairs, &mut log, name, others, steps);
    drop(log);
    laid
}

/// Puts a fact in, without its pairs.
fn lay_entry<L: Ledger>(
    facts: &mut Table<Name, Entry>,
    fact: Fact,
    steps: &mut Steps<L>,
) -> Result<(), Memory>
    ensures entries { OnOk result (facts.new.entries ≡ with_entry bytes_cmp fact.name (entry_of fact) facts.old.entries) }
{
    let name = fact.name;
    if facts.put(name, entry_from(fact), steps).is_err() {
        return Err(Memory);
    }
    Ok(())
}

/// Puts a new fact and its pairs in.
fn lay<L: Ledger>(
    alloc: Global,
    tables: &mut Tables,
    fact: Fact,
    steps: &mut Steps<L>,
) -> Result<(), Memory>
    requires laid { AreLaid tables.old }
    requires absent { value_at bytes_cmp fact.name tables.old.facts.entries ≡ None }
    ensures entries { OnOk result (tables.new.facts.entries ≡ with_entry bytes_cmp fact.name (entry_of fact) tables.old.facts.entries) }
    ensures laid { OnOk result (AreLaid tables.new) }
    ensures unclustered { tables.new.unclustered ≡ tables.old.unclustered }
    ensures missing { tables.new.missing ≡ tables.old.missing }
{
    let name = fact.name;
    lay_pairs(
        alloc,
        &mut tables.members,
        name,
        fact.members.items(),
        steps,
    )?;
    lay_pairs(alloc, &mut tables.refs, name, fact.refs.items(), steps)?;
    lay_entry(&mut tables.facts, fact, steps)
}

/// Puts some facts and their pairs in, beside the sets.
fn lay_all<L: Ledger>(
    alloc: Global,
    tables: &mut Tables,
    facts: Vec<Fact>,
    steps: &mut Steps<L>,
) -> Result<(), Memory>
    requires distinct { AreDistinct (map (λ f. f.name) facts.items) }
    requires none { tables.old.facts.entries ≡ [] }
    requires laid { AreLaid tables.old }
    ensures facts { OnOk result (facts_of tables.new.facts.entries ≡ by_name (λ f. f.name) facts.items) }
    ensures laid { OnOk result (AreLaid tables.new) }
    ensures unclustered { tables.new.unclustered ≡ tables.old.unclustered }
    ensures missing { tables.new.missing ≡ tables.old.missing }
{
    let mut left = facts;
    while let Some(fact) = left.pop() {
        lay(alloc, tables, fact, steps)?;
    }
    Ok(())
}

/// The same, put in in the order of their names.
fn lay_in_order<L: Ledger>(
    alloc: Global,
    tables: &mut Tables,
    facts: List<Fact>,
    steps: &mut Steps<L>,
) -> Result<(), Memory>
    requires distinct { AreDistinct (map (λ f. f.name) facts) }
    requires none { tables.old.facts.entries ≡ [] }
    requires laid { AreLaid tables.old }
    ensures facts { OnOk result (facts_of tables.new.facts.entries ≡ by_name (λ f. f.name) facts) }
    ensures laid { OnOk result (AreLaid tables.new) }
    ensures unclustered { tables.new.unclustered ≡ tables.old.unclustered }
    ensures missing { tables.new.missing ≡ tables.old.missing }
{
    lay_all(alloc, tables, in_order(facts), steps)
}

/// Puts a name in.
fn enter<L: Ledger>(
    set: &mut Table<Name, ()>,
    name: Name,
    steps: &mut Steps<L>,
) -> Result<(), Memory>
    requires { IsStrictlySortedBy bytes_cmp (keys_of set.old.entries) }
    ensures entries { OnOk result (set.new.entries ≡ with_entry bytes_cmp name tt set.old.entries) }
{
    match set.put(name, (), steps) {
        Ok(_) => Ok(()),
        Err(_) => Err(Memory),
    }
}

/// Puts some names in.
fn enter_all<L: Ledger>(
    set: &mut Table<Name, ()>,
    names: &[Name],
    steps: &mut Steps<L>,
) -> Result<(), Memory>
    requires { IsStrictlySortedBy bytes_cmp (keys_of set.old.entries) }
    ensures names { OnOk result ((q : List ℕ) → is_in set.new.entries q ≡ (has names.now q || is_in set.old.entries q)) }
    ensures ordered { OnOk result (IsStrictlySortedBy bytes_cmp (keys_of set.new.entries)) }
{
    for name in names {
        enter(set, *name, steps)?;
    }
    Ok(())
}

/// Puts the names that some facts leave unclustered in.
fn enter_unclustered<L: Ledger>(
    alloc: Global,
    set: &mut Table<Name, ()>,
    facts: &[Fact],
    steps: &mut Steps<L>,
) -> Result<(), Memory>
    requires { set.old.entries ≡ [] }
    ensures names { OnOk result ((q : List ℕ) → is_in set.new.entries q ≡ has (table.unclustered facts.now) q) }
    ensures ordered { OnOk result (IsStrictlySortedBy bytes_cmp (keys_of set.new.entries)) }
{
    let names = unclustered(alloc, facts)?;
    enter_all(set, names.items(), steps)
}

/// Puts the names that some facts leave missing in.
fn enter_missing<L: Ledger>(
    alloc: Global,
    set: &mut Table<Name, ()>,
    facts: &[Fact],
    steps: &mut Steps<L>,
) -> Result<(), Memory>
    requires { set.old.entries ≡ [] }
    ensures names { OnOk result ((q : List ℕ) → is_in set.new.entries q ≡ has (table.missing facts.now) q) }
    ensures ordered { OnOk result (IsStrictlySortedBy bytes_cmp (keys_of set.new.entries)) }
{
    let names = missing(alloc, facts)?;
    enter_all(set, names.items(), steps)
}

/// Fills empty maps with some facts. The maps stay with the caller, whether or not there is memory for all.
fn fill<L: Ledger>(
    alloc: Global,
    tables: &mut Tables,
    facts: List<Fact>,
    steps: &mut Steps<L>,
) -> Result<(), Memory>
    requires distinct { AreDistinct (map (λ f. f.name) facts) }
    requires facts { tables.old.facts.entries ≡ [] }
    requires members { tables.old.members.entries ≡ [] }
    requires refs { tables.old.refs.entries ≡ [] }
    requires unclustered { tables.old.unclustered.entries ≡ [] }
    requires missing { tables.old.missing.entries ≡ [] }
    ensures facts { OnOk result (facts_of tables.new.facts.entries ≡ by_name (λ f. f.name) facts) }
    ensures kept { OnOk result (IsKept tables.new) }
{
    enter_unclustered(alloc, &mut tables.unclustered, facts.items(), steps)?;
    enter_missing(alloc, &mut tables.missing, facts.items(), steps)?;
    lay_in_order(alloc, tables, facts, steps)
}

/// The maps of some facts, of which no two have one name. They are moved.
pub(crate) fn tables_of<L: Ledger>(
    alloc: Global,
    facts: List<Fact>,
    steps: &mut Steps<L>,
) -> Result<Tables, Memory>
    requires { AreDistinct (map (λ f. f.name) facts) }
    ensures facts { IfOk result (λ t. facts_of t.facts.entries ≡ by_name (λ f. f.name) facts) }
    ensures kept { IfOk result IsKept }
{
    let mut tables = Tables::new(alloc);
    match fill(alloc, &mut tables, facts, steps) {
        Ok(()) => Ok(tables),
        Err(_) => Err(Memory),
    }
}
