//! Prints the report on threads, and lists their names.
ghost use Rattle.std.specs.Prelude.{◌≡◌, ◌++◌, [], ℕ, List as Texts, Some, cond, flat_map, filter_map, find, length, option_map, unwrap_or, IfOk, OnOk};
ghost use Rattle.std.specs.BTreeMap.{is_at};
ghost use Rattle.std.specs.List.{cons_option};
ghost use Rattle.std.specs.List.Sorted.{IsStrictlySortedBy};
ghost use Rattle.std.specs.Option.{option_eq};
ghost use Rattle.std.specs.Str.{bytes_eq};
ghost use Rattle.fsl_order.specs.Maps.{value_at};
ghost use Rattle.fsl_order.specs.Names.{bytes_cmp};
ghost use Rattle.fsl_forum.specs.Threads.{place, thread};
ghost use Rattle.fsl_timeline.specs.Timeline.{timeline};
ghost use Rattle.fsl_query.specs.Gathering.{AreTitles, IsTitle, NotesTitle, with_thread};
ghost use Rattle.fsl_query.specs.Lines.{thread_line};
ghost use Rattle.fsl_query.specs.Listings.{last, names_thread, thread_names, threads_as_rows, threads_report};

use crate::lines::append_thread;
use crate::newest::all_rows;
use crate::summing;
use fsl_date::Moment;
use fsl_forum::{Fact, Threads};
use fsl_name::{Name, ordered};
use fsl_text::{List, Memory, Text};
use fsl_timeline::{Row, RowKind, Timeline};
use std::alloc::Global;
use std::collections::BTreeMap;

/// The titles of posts that a thread is named by.
type Titles = BTreeMap<Name, Text>;

/// The threads of the valid ones of some posts.
fn places(alloc: Global, table: &Threads, posts: &[Fact]) -> Result<Vec<Name>, Memory>
    ensures { IfOk result (λ names. names.items ≡ filter_map (λ f. place table.now.facts f.name) posts.now) }
{
    let mut names = Vec::new(alloc);
    for post in posts {
        summing::append_thread(&mut names, table.place(post.name))?;
    }
    Ok(names)
}

/// Whether a thread is named by the post of a name, which is a valid post of it.
fn names_itself(table: &Threads, name: Name) -> bool
    ensures { result ≡ option_eq bytes_eq (place table.now.facts name) (Some name) }
{
    match table.place(name) {
        Some(root) => root == name,
        None => false,
    }
}

/// Writes the title of a name.
fn write_title(titles: &mut Titles, name: Name, title: Text) -> Result<(), Memory>
    ensures { OnOk result ((q : Texts ℕ) → value_at titles.new.entries q ≡ cond (is_at (bytes_cmp name) q) (Some title) (value_at titles.old.entries q)) }
{
    if titles.insert(name, title).is_err() {
        return Err(Memory);
    }
    Ok(())
}

/// Puts the title of a post in, where its name has none.
fn put_title(alloc: Global, titles: &mut Titles, row: &Row) -> Result<(), Memory>
    ensures { OnOk result (NotesTitle titles.old.entries titles.new.entries row.now.name row.now.text) }
{
    if titles.contains_key(&row.name) {
        return Ok(());
    }
    write_title(titles, row.name, Text::of(alloc, row.text.bytes())?)
}

/// The titles of those posts among some rows that a thread is named by.
fn titles(alloc: Global, table: &Threads, rows: &[Row]) -> Result<Titles, Memory>
    ensures { IfOk result (λ titles. (q : Texts ℕ) → value_at titles.entries q ≡ option_map (λ r. r.text) (find (names_thread table.now.facts q) rows.now)) }
{
    let mut titles = BTreeMap::new(alloc);
    for row in rows {
        if names_itself(table, row.name) {
            put_title(alloc, &mut titles, row)?;
        }
    }
    Ok(titles)
}

/// The title of a thread, empty where it has none.
fn title(alloc: Global, titles: &Titles, name: Name) -> Result<Text, Memory>
    ensures { IfOk result (λ title. title ≡ unwrap_or (value_at titles.now.entries name) []) }
{
    match titles.get(&name) {
        Some(title) => Text::of(alloc, title.bytes()),
        None => Ok(Text::empty(alloc)),
    }
}

/// The date of the last post of a thread by date; none where it has no valid post.
fn last_date(alloc: Global, table: &Threads, name: Name) -> Result<Option<Moment>, Memory>
    ensures { IfOk result (λ date. date ≡ option_map (λ post. post.date) (last (thread table.now.facts name))) }
{
    let posts = table.thread(alloc, name)?;
    match posts.items().last() {
        Some(post) => Ok(Some(post.date)),
        None => Ok(None),
    }
}

/// How many valid posts a thread has.
fn count(alloc: Global, table: &Threads, name: Name) -> Result<usize, Memory>
    ensures { IfOk result (λ n. n ≡ length (thread table.now.facts name)) }
{
    let posts = table.thread(alloc, name)?;
    Ok(posts.items().len())
}

/// Puts a thread as a row at the end of others, where it has a valid post.
fn append_row(
    alloc: Global,
    list: &mut List<Row>,
    table: &Threads,
    titles: &Titles,
    name: Name,
) -> Result<(), Memory>
    ensures { (rows : Texts Row) → IsTitle titles.now.entries table.now.facts rows name → OnOk result (list.new ≡ with_thread list.old table.now.facts rows name) }
{
    let Some(time) = last_date(alloc, table, name)? else {
        return Ok(());
    };
    let text = title(alloc, titles, name)?;
    list.append(Row {
        time,
        name,
        kind: RowKind::Forum,
        user: Text::empty(alloc),
        text,
    })
}

/// The threads of some names as rows.
fn thread_rows(
    alloc: Global,
    table: &Threads,
    titles: &Titles,
    names: &[Name],
) -> Result<List<Row>, Memory>
    ensures { (rows : Texts Row) → AreTitles titles.now.entries table.now.facts rows → IfOk result (λ list. list ≡ threads_as_rows table.now.facts rows names.now) }
{
    let mut list = List::new(alloc);
    for name in names {
        append_row(alloc, &mut list, table, titles, *name)?;
    }
    Ok(list)
}

/// Puts a line for each thread at the end of a text.
fn append_threads(
    alloc: Global,
    into: &mut Text,
    table: &Threads,
    threads: &[Row],
) -> Result<(), Memory>
    ensures { OnOk result (into.new ≡ into.old ++ flat_map (λ r. thread_line r (length (thread table.now.facts r.name))) threads.now) }
{
    for thread in threads {
        let posts = count(alloc, table, thread.name)?;
        append_thread(alloc, into, thread, posts as u128)?;
    }
    Ok(())
}

/// The names of the threads that have a valid post, ascending. The posts are those of the table. `Memory` is the only error.
pub(crate) fn names(alloc: Global, table: &Threads, posts: &[Fact]) -> Result<Vec<Name>, Memory>
    requires { posts.now ≡ table.now.facts }
    ensures names { IfOk result (λ names. names.items ≡ thread_names table.now.facts) }
    ensures rising { IfOk result (λ names. IsStrictlySortedBy bytes_cmp names.items) }
{
    let names = places(alloc, table, posts)?;
    Ok(ordered(names))
}

/// The threads as rows of a timeline of their own.
fn listed(alloc: Global, table: &Threads, posts: &[Fact], rows: &[Row]) -> Result<Timeline, Memory>
    requires { posts.now ≡ table.now.facts }
    ensures { IfOk result (λ t. timeline t.facts ≡ timeline (threads_as_rows table.now.facts rows.now (thread_names table.now.facts))) }
{
    let titles = titles(alloc, table, rows)?;
    let names = names(alloc, table, posts)?;
    let list = thread_rows(alloc, table, &titles, &names)?;
    Timeline::from_rows(alloc, list)
}

/// A line for each thread that has a valid post, that with the latest post first, of one date by name: the date of that post,
/// the name of the thread, how many valid posts it has, and the title of the post that it is named by, which its row of the
/// timeline has. The posts are those of the table. It takes time by n log n of the timeline. `Memory` is the only error.
pub(crate) fn report(
    alloc: Global,
    table: &Threads,
    posts: &[Fact],
    rows: &Timeline,
) -> Result<Text, Memory>
    requires { posts.now ≡ table.now.facts }
    ensures { IfOk result (λ text. text ≡ threads_report table.now.facts (timeline rows.now.facts)) }
{
    let rows = all_rows(alloc, rows)?;
    let listed = listed(alloc, table, posts, rows.items())?;
    let threads = all_rows(alloc, &listed)?;
    let mut text = Text::empty(alloc);
    append_threads(alloc, &mut text, table, threads.items())?;
    Ok(text)
}
