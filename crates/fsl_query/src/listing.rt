//! Lists pages, tickets and threads. Their tables list no keys, so each list takes the facts of the set beside the table,
//! which holds the same facts.
ghost use Rattle.std.specs.Prelude.{◌≡◌, Ok, IfOk, map};
ghost use Rattle.std.specs.List.Sorted.{IsStrictlySortedBy};
ghost use Rattle.fsl_order.specs.Names.{bytes_cmp};
ghost use Rattle.fsl_cross.specs.Tables.{forum_facts, pages_facts, ticket_facts};
ghost use Rattle.fsl_blobs.specs.Held.{found};
ghost use Rattle.fsl_timeline.specs.Timeline.{timeline};
ghost use Rattle.fsl_query.specs.declared.Refused.TheVariants.{NoThread, NoTicket};
ghost use Rattle.fsl_query.specs.Answers.{IsAnswer};
ghost use Rattle.fsl_query.specs.Listings.{beginning, pages_report, thread_names, threads_report, ticket_ids, tickets_lines, tickets_report};
ghost use Rattle.fsl_query.specs.Reports.{by_beginning, of_beginning};

use crate::beginning::named;
use crate::tickets::unknown_field;
use crate::{QueryFault, Refused, pages, threads, tickets};
use fsl_cross::Items;
use fsl_forum::Threads;
use fsl_name::Name;
use fsl_text::{List, Memory, Text};
use fsl_ticket::Tickets;
use fsl_timeline::Timeline;
use fsl_wiki::Pages;
use std::alloc::Global;

/// The pages, by their titles.
pub(crate) fn pages_by(alloc: Global, items: &Items, table: &Pages) -> Result<Text, Memory>
    requires { pages_facts items.now ≡ table.now.facts }
    ensures { IfOk result (λ text. text ≡ pages_report table.now.facts) }
{
    let facts = items.pages(alloc)?;
    let text = pages::report(alloc, table, facts.items());
    drop(facts);
    text
}

/// The lines of the tickets, each with the values of some fields.
fn tickets_lines(alloc: Global, items: &Items, asked: &List<Text>) -> Result<Text, Memory>
    requires { IsStrictlySortedBy bytes_cmp (map (λ i. i.name) items.now) }
    ensures { IfOk result (λ text. text ≡ tickets_lines asked.now (ticket_facts items.now)) }
{
    let table = items.ticket(alloc, asked)?;
    let text = tickets_by(alloc, items, &table);
    drop(table);
    text
}

/// The lines of the tickets, each with the values of the fields of a table.
fn tickets_by(alloc: Global, items: &Items, table: &Tickets) -> Result<Text, Memory>
    requires { ticket_facts items.now ≡ table.now.facts }
    ensures { IfOk result (λ text. text ≡ tickets_lines table.now.fields table.now.facts) }
{
    let changes = items.ticket_changes(alloc)?;
    let text = tickets::lines(alloc, table, changes.items());
    drop(changes);
    text
}

/// The tickets, each with the values of some fields, or the first of these that isn't configured. A table with these fields is
/// made for it.
pub(crate) fn tickets_report(
    alloc: Global,
    items: &Items,
    configured: &[Text],
    asked: &List<Text>,
) -> Result<Text, QueryFault>
    requires { IsStrictlySortedBy bytes_cmp (map (λ i. i.name) items.now) }
    ensures { IsAnswer (tickets_report configured.now asked.now (ticket_facts items.now)) result }
{
    match unknown_field(configured, asked.items()) {
        Some(field) => Err(QueryFault::Refused(Refused::NoField {
            field: Text::of(alloc, field.bytes())?,
        })),
        None => Ok(tickets_lines(alloc, items, asked)?),
    }
}

/// The threads.
pub(crate) fn threads_by(
    alloc: Global,
    items: &Items,
    table: &Threads,
    rows: &Timeline,
) -> Result<Text, Memory>
    requires { forum_facts items.now ≡ table.now.facts }
    ensures { IfOk result (λ text. text ≡ threads_report table.now.facts (timeline rows.now.facts)) }
{
    let posts = items.posts(alloc)?;
    let text = threads::report(alloc, table, posts.items(), rows);
    drop(posts);
    text
}

/// The ids of tickets, ascending.
fn ids(alloc: Global, items: &Items) -> Result<Vec<Name>, Memory>
    ensures { IfOk result (λ ids. ids.items ≡ ticket_ids (ticket_facts items.now)) }
{
    let changes = items.ticket_changes(alloc)?;
    let ids = tickets::ids(alloc, changes.items());
    drop(changes);
    ids
}

/// The names of threads, ascending.
fn names(alloc: Global, items: &Items, table: &Threads) -> Result<Vec<Name>, Memory>
    requires { forum_facts items.now ≡ table.now.facts }
    ensures { IfOk result (λ names. names.items ≡ thread_names table.now.facts) }
{
    let posts = items.posts(alloc)?;
    let names = threads::names(alloc, table, posts.items());
    drop(posts);
    names
}

/// The id of the one ticket that begins with a prefix.
fn ticket_named(alloc: Global, items: &Items, prefix: &[u8]) -> Result<Name, QueryFault>
    ensures { IsAnswer (by_beginning prefix.now (NoTicket prefix.now) (λ id. Ok id) (found (beginning prefix.now (ticket_ids (ticket_facts items.now))))) result }
{
    let ids = ids(alloc, items)?;
    let none = Refused::NoTicket {
        prefix: Text::of(alloc, prefix)?,
    };
    named(alloc, &ids, prefix, none)
}

/// The id of the one ticket that a prefix finds; 40 digits are the id itself.
pub(crate) fn ticket_id(alloc: Global, items: &Items, prefix: &[u8]) -> Result<Name, QueryFault>
    ensures { IsAnswer (of_beginning (ticket_ids (ticket_facts items.now)) prefix.now (NoTicket prefix.now) (λ id. Ok id)) result }
{
    match Name::read(prefix) {
        Ok(id) => Ok(id),
        Err(_) => ticket_named(alloc, items, prefix),
    }
}

/// The name of the one thread that begins with a prefix.
fn thread_named(
    alloc: Global,
    items: &Items,
    table: &Threads,
    prefix: &[u8],
) -> Result<Name, QueryFault>
    requires { forum_facts items.now ≡ table.now.facts }
    ensures { IsAnswer (by_beginning prefix.now (NoThread prefix.now) (λ name. Ok name) (found (beginning prefix.now (thread_names table.now.facts)))) result }
{
    let names = names(alloc, items, table)?;
    let none = Refused::NoThread {
        prefix: Text::of(alloc, prefix)?,
    };
    named(alloc, &names, prefix, none)
}

/// The name of the one thread that a prefix finds; 40 digits are the name itself.
pub(crate) fn thread_name(
    alloc: Global,
    items: &Items,
    table: &Threads,
    prefix: &[u8],
) -> Result<Name, QueryFault>
    requires { forum_facts items.now ≡ table.now.facts }
    ensures { IsAnswer (of_beginning (thread_names table.now.facts) prefix.now (NoThread prefix.now) (λ name. Ok name)) result }
{
    match Name::read(prefix) {
        Ok(name) => Ok(name),
        Err(_) => thread_named(alloc, items, table, prefix),
    }
}
