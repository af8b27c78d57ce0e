//! Prints the summary of a set of artifacts.
ghost use Rattle.std.specs.Prelude.{◌≡◌, ◌++◌, ◌∷◌, [], IfOk, OnOk, length, map};
ghost use Rattle.std.specs.List.{cons_option};
ghost use Rattle.fsl_timeline.specs.Timeline.{timeline};
ghost use Rattle.fsl_cross.specs.Tables as cross;
ghost use Rattle.fsl_query.specs.Summary.{entry_of, tags_on, threads_of, different, checkin_lines, event_lines, cluster_lines, summary};

use crate::Note;
use crate::lines::append_count;
use crate::noting::{checkins, ids, posts};
use fsl_cross::Tables;
use fsl_name::{Name, ordered};
use fsl_text::{Memory, Text};
use std::alloc::Global;
use std::collections::BTreeMap;

/// How many pairs there are of one of these names and a tag in force on it.
fn tags_on(alloc: Global, tables: &Tables, names: &[Name]) -> Result<u128, Memory>
    ensures { IfOk result (λ n. n ≡ tags_on (cross.tables tables.now.fields tables.now.items) names.now) }
{
    let mut sum = 0;
    for name in names {
        let tags = tables.tags().in_force(alloc, *name)?;
        sum += tags.items().len() as u128;
    }
    Ok(sum)
}

/// Puts the thread of a post at the end of others, where it has one.
pub(crate) fn append_thread(others: &mut Vec<Name>, thread: Option<Name>) -> Result<(), Memory>
    ensures { OnOk result (others.new.items ≡ others.old.items ++ cons_option thread []) }
{
    if let Some(name) = thread {
        others.push(name)?;
    }
    Ok(())
}

/// The threads of the valid ones of these posts.
fn threads_of(alloc: Global, tables: &Tables, posts: &[Name]) -> Result<Vec<Name>, Memory>
    ensures { IfOk result (λ names. names.items ≡ threads_of (cross.tables tables.now.fields tables.now.items) posts.now) }
{
    let mut names = Vec::new(alloc);
    for name in posts {
        append_thread(&mut names, tables.forum().place(*name))?;
    }
    Ok(names)
}

/// How many different names there are.
fn different(names: Vec<Name>) -> usize
    ensures { result ≡ different names.items }
{
    ordered(names).len()
}

/// How many rows the timeline has.
fn rows(alloc: Global, tables: &Tables) -> Result<usize, Memory>
    ensures { IfOk result (λ n. n ≡ length (timeline (cross.tables tables.now.fields tables.now.items).timeline)) }
{
    let rows = tables.timeline().latest(alloc, u64::MAX)?;
    Ok(rows.items().len())
}

/// Puts the lines of the check-ins, of the leaves and of the tags on check-ins at the end of a text.
fn append_checkins(
    alloc: Global,
    into: &mut Text,
    tables: &Tables,
    notes: &BTreeMap<Name, Note>,
) -> Result<(), Memory>
    ensures { OnOk result (into.new ≡ into.old ++ checkin_lines (cross.tables tables.now.fields tables.now.items) notes.now.entries) }
{
    let names = checkins(alloc, notes)?;
    append_count(alloc, into, b"checkins", names.len() as u128)?;
    let leaves = tables.leaves().leaves(alloc)?;
    append_count(alloc, into, b"leaves", leaves.items().len() as u128)?;
    let tags = tags_on(alloc, tables, &names)?;
    append_count(alloc, into, b"tags", tags)
}

/// Puts the lines of the timeline, of the tickets and of the threads at the end of a text.
fn append_events(
    alloc: Global,
    into: &mut Text,
    tables: &Tables,
    notes: &BTreeMap<Name, Note>,
) -> Result<(), Memory>
    ensures { OnOk result (into.new ≡ into.old ++ event_lines (cross.tables tables.now.fields tables.now.items) notes.now.entries) }
{
    let rows = rows(alloc, tables)?;
    append_count(alloc, into, b"timeline", rows as u128)?;
    let tickets = different(ids(alloc, notes)?);
    append_count(alloc, into, b"tickets", tickets as u128)?;
    let posts = posts(alloc, notes)?;
    let threads = different(threads_of(alloc, tables, &posts)?);
    append_count(alloc, into, b"threads", threads as u128)
}

/// Puts the lines of the unclustered and of the wanted names at the end of a text.
fn append_clusters(alloc: Global, into: &mut Text, tables: &Tables) -> Result<(), Memory>
    ensures { OnOk result (into.new ≡ into.old ++ cluster_lines (cross.tables tables.now.fields tables.now.items)) }
{
    let unclustered = tables.cluster().unclustered_count();
    append_count(alloc, into, b"unclustered", unclustered as u128)?;
    let wanted = tables.cluster().missing_count();
    append_count(alloc, into, b"wanted", wanted as u128)?;
    Ok(())
}

/// Counts the artifacts of some tables by their sorts, in nine lines of a word and a number. `notes` has the name of each
/// of these artifacts, with its note. It takes time linear in what the tables hold, but for the sorting of ids and of
/// threads. `Memory` is the only error.
///
/// FORMATS: Summary
pub fn summary(alloc: Global, tables: &Tables, notes: &BTreeMap<Name, Note>) -> Result<Text, Memory>
    requires { notes.now.entries ≡ map entry_of tables.now.items }
    ensures { IfOk result (λ text. text ≡ summary (cross.tables tables.now.fields tables.now.items) tables.now.items) }
{
    let mut text = Text::empty(alloc);
    append_count(alloc, &mut text, b"artifacts", notes.len() as u128)?;
    append_checkins(alloc, &mut text, tables, notes)?;
    append_events(alloc, &mut text, tables, notes)?;
    append_clusters(alloc, &mut text, tables)?;
    Ok(text)
}
