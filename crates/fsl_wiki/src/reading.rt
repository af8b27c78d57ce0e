//! Reads the facts at the keys of a page or of a target, one after another.
ghost use Rattle.std.specs.Prelude.{◌≡◌, ◌++◌, ℕ, List, Some, IfOk, OnOk, cond, reverse};
ghost use Rattle.std.specs.BTreeMap.{is_at};
ghost use Rattle.std.specs.List.{filter_map};
ghost use Rattle.std.specs.Option.{option_to_list};
ghost use Rattle.std.specs.List.Sorted.{IsStrictlySortedBy};
ghost use Rattle.std.specs.Map.{keys_of, values_of};
ghost use Rattle.fsl_order.specs.Names.{bytes_cmp};
ghost use Rattle.fsl_order.specs.Maps as maps;
ghost use Rattle.fsl_table.specs.Within.{within, within_cmp};
ghost use Rattle.fsl_wiki.specs.Late.{late_cmp};
ghost use Rattle.fsl_wiki.specs.Kept.{AddsFirst, page_at, file_at, first_of_file};

use crate::entry::Entry;
use crate::late::Late;
use crate::{Attached, Page};
use fsl_name::Name;
use fsl_table::within::next_within;
use fsl_table::{Key, Table, Tracked, Within};
use fsl_text::{List, Memory, Steps, Text};
use std::alloc::Global;
use std::collections::BTreeMap;
use std::sync::ledger::Ledger;

/// The current attachments of one target, by file.
pub(crate) type Files = BTreeMap<Text, Attached>;

/// The places of what belongs to the first part of a key, the latest first.
pub(crate) fn places<A: Key, L: Ledger>(
    alloc: Global,
    table: &Table<Within<A, Late>, ()>,
    first: A,
    steps: &mut Steps<L>,
) -> Result<Vec<Late>, Memory>
where
    A: Drop,
    requires { IsStrictlySortedBy (within_cmp A.cmp late_cmp) (keys_of table.now.entries) }
    ensures { IfOk result (λ places. places.items ≡ keys_of (within A.cmp first table.now.entries)) }
{
    let mut places = Vec::new(alloc);
    let mut key = Within {
        first,
        second: None,
    };
    let mut next = next_within(table, &key, steps);
    while let Some(late) = next {
        places.push(late)?;
        key.second = Some(late);
        next = next_within(table, &key, steps);
    }
    Ok(places)
}

/// The version of a page of a name.
fn page_of<L: Ledger>(
    alloc: Global,
    facts: &Tracked<Name, Entry>,
    name: Name,
    steps: &mut Steps<L>,
) -> Result<Option<Page>, Memory>
    ensures { IfOk result (λ page. page ≡ page_at facts.now.held.entries name) }
{
    match facts.get(&name, steps) {
        None => Ok(None),
        Some(entry) => entry.page(alloc, name),
    }
}

/// Puts a page at the end, where there is one.
fn append_some(pages: &mut List<Page>, page: Option<Page>) -> Result<(), Memory>
    ensures { OnOk result (pages.new ≡ pages.old ++ option_to_list page) }
{
    match page {
        None => Ok(()),
        Some(page) => pages.append(page),
    }
}

/// The pages at some places, the last one first.
pub(crate) fn pages_from<L: Ledger>(
    alloc: Global,
    facts: &Tracked<Name, Entry>,
    places: Vec<Late>,
    steps: &mut Steps<L>,
) -> Result<List<Page>, Memory>
    ensures { IfOk result (λ pages. pages ≡ filter_map (λ p. page_at facts.now.held.entries p.1) (reverse places.items)) }
{
    let mut pages = List::new(alloc);
    let mut left = places;
    while let Some(place) = left.pop() {
        let page = page_of(alloc, facts, place.name(), steps)?;
        append_some(&mut pages, page)?;
    }
    Ok(pages)
}

/// The attachment of a name.
fn file_of<L: Ledger>(
    alloc: Global,
    facts: &Tracked<Name, Entry>,
    name: Name,
    steps: &mut Steps<L>,
) -> Result<Option<Attached>, Memory>
    ensures { IfOk result (λ attached. attached ≡ file_at facts.now.held.entries name) }
{
    match facts.get(&name, steps) {
        None => Ok(None),
        Some(entry) => entry.attached(alloc, name),
    }
}

/// Puts an attachment in at a file.
fn insert(files: &mut Files, file: Text, attached: Attached) -> Result<(), Memory>
    ensures { OnOk result ((q : List ℕ) → maps.value_at files.new.entries q ≡ cond (is_at (bytes_cmp file) q) (Some attached) (maps.value_at files.old.entries q)) }
{
    if files.insert(file, attached).is_err() {
        return Err(Memory);
    }
    Ok(())
}

/// Puts an attachment in, where its file has none.
fn put_file(alloc: Global, files: &mut Files, attached: Attached) -> Result<(), Memory>
    ensures { OnOk result (AddsFirst (Some attached) files.old.entries files.new.entries) }
{
    if files.contains_key(&attached.file) {
        return Ok(());
    }
    let file = Text::of(alloc, attached.file.bytes())?;
    insert(files, file, attached)
}

/// Puts an attachment in, where there is one and its file has none.
fn put_first(alloc: Global, files: &mut Files, attached: Option<Attached>) -> Result<(), Memory>
    ensures { OnOk result (AddsFirst attached files.old.entries files.new.entries) }
{
    match attached {
        None => Ok(()),
        Some(attached) => put_file(alloc, files, attached),
    }
}

/// Of the attachments at some places the first of each file.
pub(crate) fn first_files<L: Ledger>(
    alloc: Global,
    facts: &Tracked<Name, Entry>,
    places: &[Late],
    steps: &mut Steps<L>,
) -> Result<Files, Memory>
    ensures { IfOk result (λ files. (file : List ℕ) → maps.value_at files.entries file ≡ first_of_file facts.now.held.entries file places.now) }
{
    let mut files = BTreeMap::new(alloc);
    for place in places {
        let attached = file_of(alloc, facts, place.name(), steps)?;
        put_first(alloc, &mut files, attached)?;
    }
    Ok(files)
}

/// The values of a map, in the order of their files. They are moved.
pub(crate) fn listed(alloc: Global, files: Files) -> Result<List<Attached>, Memory>
    ensures list { IfOk result (λ list. list ≡ values_of files.entries) }
    ensures rising { IsStrictlySortedBy bytes_cmp (keys_of files.entries) }
{
    let mut list = List::new(alloc);
    let mut left = files;
    while let Some((_, attached)) = left.pop_first() {
        list.append(attached)?;
    }
    Ok(list)
}
