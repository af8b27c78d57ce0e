//! Keeps dates and names under keys, of each key the newest.
ghost use Rattle.std.specs.Prelude.{◌≡◌, ℕ, List as Texts, Some, true, cond, map, IfOk, OnOk};
ghost use Rattle.std.specs.BTreeMap.{is_at};
ghost use Rattle.std.specs.List.Sorted.{IsStrictlySortedBy};
ghost use Rattle.std.specs.Map.{keys_of};
ghost use Rattle.std.specs.Option.{option_map_or};
ghost use Rattle.std.specs.Ordering.{is_lt};
ghost use Rattle.fsl_order.specs.Maps.{value_at};
ghost use Rattle.fsl_order.specs.Names.{bytes_cmp, dated_cmp};
ghost use Rattle.fsl_cross.specs.Inside.{branch_over};
ghost use Rattle.fsl_timeline.specs.Timeline.{timeline};
ghost use Rattle.fsl_query.specs.Gathering.{Takes};
ghost use Rattle.fsl_query.specs.Listings.{checkins, dated_change, newest, versions};

use fsl_cross::branch;
use fsl_date::Moment;
use fsl_name::Name;
use fsl_tags::Tags;
use fsl_text::{List, Memory, Text};
use fsl_timeline::{Row, RowKind, Timeline};
use std::alloc::Global;
use std::collections::BTreeMap;

/// The newest under each key, as its date and its name.
pub(crate) type Newest = BTreeMap<Text, (Moment, Name)>;

/// The keys rise. This call does nothing: by it a caller learns so.
pub(crate) fn rises(newest: &Newest)
    ensures { IsStrictlySortedBy bytes_cmp (keys_of newest.now.entries) }
{
    let _ = newest.iter();
}

/// All rows of the timeline, the latest first. `Memory` is the only error.
pub(crate) fn all_rows(alloc: Global, table: &Timeline) -> Result<List<Row>, Memory>
    ensures { IfOk result (λ rows. rows ≡ timeline table.now.facts) }
{
    let rows = table.latest(alloc, u64::MAX)?;
    let _ = rows.items().len();
    Ok(rows)
}

/// Tells whether a date and a name come before others.
fn is_older(one: &(Moment, Name), other: &(Moment, Name)) -> bool
    ensures { result ≡ is_lt (dated_cmp one.now other.now) }
{
    one.0.cmp(&other.0).then(one.1.cmp(&other.1)).is_lt()
}

/// Whether a date and a name are newer than what is kept of their key, or nothing is.
fn is_newer(newest: &Newest, key: &Text, one: &(Moment, Name)) -> bool
    ensures { result ≡ option_map_or (λ k. is_lt (dated_cmp k one.now)) (value_at newest.now.entries key.now) true }
{
    match newest.get(key) {
        Some(kept) => is_older(kept, one),
        None => true,
    }
}

/// Writes what is kept of a key.
fn write(newest: &mut Newest, key: Text, one: (Moment, Name)) -> Result<(), Memory>
    ensures { OnOk result ((q : Texts ℕ) → value_at newest.new.entries q ≡ cond (is_at (bytes_cmp key) q) (Some one) (value_at newest.old.entries q)) }
{
    if newest.insert(key, one).is_err() {
        return Err(Memory);
    }
    Ok(())
}

/// Puts a date and a name under a key, unless something newer is kept there.
fn put(alloc: Global, newest: &mut Newest, key: &[u8], one: (Moment, Name)) -> Result<(), Memory>
    ensures { OnOk result (Takes newest.old.entries newest.new.entries (key.now, one)) }
{
    let key = Text::of(alloc, key)?;
    if is_newer(newest, &key, &one) {
        write(newest, key, one)
    } else {
        Ok(())
    }
}

/// The newest check-in of each branch, by the rows of the timeline and the tags. It takes time by n log n of the rows. `Memory` is
/// the only error.
pub(crate) fn of_branches(alloc: Global, tags: &Tags, rows: &[Row]) -> Result<Newest, Memory>
    ensures { IfOk result (λ found. (q : Texts ℕ) → value_at found.entries q ≡ newest (checkins (branch_over tags.now.facts) rows.now) q) }
{
    let mut found = BTreeMap::new(alloc);
    for row in rows {
        if let RowKind::Checkin = row.kind {
            put(
                alloc,
                &mut found,
                branch(tags, row.name),
                (row.time, row.name),
            )?;
        }
    }
    Ok(found)
}

/// The newest version of each page, by its title. It takes time by n log n of the facts. `Memory` is the only error.
pub(crate) fn of_pages(alloc: Global, facts: &[fsl_wiki::Fact]) -> Result<Newest, Memory>
    ensures { IfOk result (λ found. (q : Texts ℕ) → value_at found.entries q ≡ newest (versions facts.now) q) }
{
    let mut found = BTreeMap::new(alloc);
    for fact in facts {
        if let fsl_wiki::Fact::Page(page) = fact {
            put(
                alloc,
                &mut found,
                page.title.bytes(),
                (page.date, page.name),
            )?;
        }
    }
    Ok(found)
}

/// The latest date of the changes of each ticket, with its id, by the digits of that. It takes time by n log n of the changes.
/// `Memory` is the only error.
pub(crate) fn of_tickets(alloc: Global, changes: &[fsl_ticket::Fact]) -> Result<Newest, Memory>
    ensures { IfOk result (λ found. (q : Texts ℕ) → value_at found.entries q ≡ newest (map dated_change changes.now) q) }
{
    let mut found = BTreeMap::new(alloc);
    for change in changes {
        put(
            alloc,
            &mut found,
            &change.id.text(),
            (change.date, change.id),
        )?;
    }
    Ok(found)
}
