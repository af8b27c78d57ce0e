//! Makes the rows that artifacts give to the timeline.
ghost use Rattle.std.specs.Prelude.{◌≡◌, [], IfOk, Some, map, filter_map, slice_get};
ghost use Rattle.std.specs.Option.{option_eq, option_map_or};
ghost use Rattle.std.specs.Str.{bytes_eq};
ghost use Rattle.std.specs.List.Sorted.{IsStrictlySortedBy};
ghost use Rattle.fsl_order.specs.Names.{bytes_cmp};
ghost use Rattle.fsl_wiki.specs.Pages as wiki;
ghost use Rattle.fsl_tags.specs.Gathered.{in_set};
ghost use Rattle.fsl_cross.specs.Checkins.{tags_facts};
ghost use Rattle.fsl_cross.specs.Tables.{sign, tag_text, pages_facts, forum_facts, timeline_rows};
ghost use Rattle.fsl_cross.specs.Inside.{checkin_row, page_row, ticket_row, note_row, attachment_row, post_row, control_row, item_row_over};

use crate::checkin::{date, text};
use crate::facts::{append, given};
use crate::held::Held;
use crate::items::Items;
use crate::targets::Targets;
use fsl_artifact::Artifact;
use fsl_date::Moment;
use fsl_forms::{Attachment, Control, Forum, Technote, Ticket, Wiki};
use fsl_forum::Threads;
use fsl_grammar::{Prefix, TagCard};
use fsl_manifest::Manifest;
use fsl_name::Name;
use fsl_tags::Tags;
use fsl_text::{List, Memory, Text};
use fsl_timeline::{Row, RowKind, Timeline};
use fsl_wiki::Pages;
use std::alloc::Global;

/// A row with copies of its texts.
fn row(
    alloc: Global,
    time: Moment,
    name: Name,
    kind: RowKind,
    user: &[u8],
    text: &[u8],
) -> Result<Row, Memory>
    ensures { IfOk result (λ r. r ≡ record { time = time; name = name; kind = kind; user = user.now; text = text.now }) }
{
    Ok(Row {
        time,
        name,
        kind,
        user: Text::of(alloc, user)?,
        text: Text::of(alloc, text)?,
    })
}

/// The row of a check-in: its date, user and comment are those of its tags where these are in force.
pub(crate) fn checkin(
    alloc: Global,
    tags: &Tags,
    name: Name,
    manifest: &Manifest,
) -> Result<Row, Memory>
    ensures { IfOk result (λ r. r ≡ checkin_row tags.now.facts name manifest.now) }
{
    let time = date(tags, name, manifest);
    let user = text(tags, name, b"user", manifest.user.bytes());
    let comment = text(tags, name, b"comment", manifest.comment.bytes());
    row(alloc, time, name, RowKind::Checkin, user, comment)
}

/// The row of a version of a wiki page.
pub(crate) fn page(alloc: Global, name: Name, version: &Wiki) -> Result<Row, Memory>
    ensures { IfOk result (λ r. r ≡ page_row name version.now) }
{
    row(
        alloc,
        version.date,
        name,
        RowKind::Wiki,
        version.user.bytes(),
        version.title.bytes(),
    )
}

/// The row of a ticket change.
pub(crate) fn ticket(alloc: Global, name: Name, change: &Ticket) -> Result<Row, Memory>
    ensures { IfOk result (λ r. r ≡ ticket_row name change.now) }
{
    row(
        alloc,
        change.date,
        name,
        RowKind::Ticket,
        change.user.bytes(),
        &change.id.text(),
    )
}

/// Whether a technote is the current one of its id.
pub(crate) fn is_current(pages: &Pages, id: Name, name: Name) -> bool
    ensures { result ≡ option_eq bytes_eq (wiki.note pages.now.facts id) (Some name) }
{
    match pages.note(id) {
        Some(current) => current == name,
        None => false,
    }
}

/// The row of a technote at the time that it is about, where it is the current one of its id.
pub(crate) fn technote(
    alloc: Global,
    pages: &Pages,
    name: Name,
    note: &Technote,
) -> Result<Option<Row>, Memory>
    ensures { IfOk result (λ r. r ≡ note_row pages.now.facts name note.now) }
{
    if !is_current(pages, note.id, name) {
        return Ok(None);
    }
    let user = given(&note.user);
    let comment = given(&note.comment);
    Ok(Some(row(alloc, note.time, name, RowKind::Note, user, comment)?))
}

/// The row of an attachment.
pub(crate) fn attachment(
    alloc: Global,
    kind: RowKind,
    name: Name,
    file: &Attachment,
) -> Result<Row, Memory>
    ensures { IfOk result (λ r. r ≡ attachment_row kind name file.now) }
{
    row(
        alloc,
        file.date,
        name,
        kind,
        given(&file.user),
        file.file.bytes(),
    )
}

/// The row of a post, where it is valid.
pub(crate) fn post(
    alloc: Global,
    threads: &Threads,
    name: Name,
    post: &Forum,
) -> Result<Option<Row>, Memory>
    ensures { IfOk result (λ r. r ≡ post_row threads.now.facts name post.now) }
{
    match threads.place(name) {
        Some(_) => {
            let title = given(&post.title);
            let user = post.user.bytes();
            Ok(Some(row(alloc, post.date, name, RowKind::Forum, user, title)?))
        }
        None => Ok(None),
    }
}

/// The byte of a prefix.
fn sign(prefix: Prefix) -> u8
    ensures { result ≡ sign prefix }
{
    match prefix {
        Prefix::Once => b'+',
        Prefix::Cancel => b'-',
        Prefix::Propagate => b'*',
    }
}

/// The prefix and the name of the tag of a T card.
fn tag_text(alloc: Global, card: &TagCard) -> Result<Text, Memory>
    ensures { IfOk result (λ text. text ≡ tag_text card.now) }
{
    let mut text = Text::of(alloc, &[sign(card.prefix)])?;
    text.append(card.tag.bytes())?;
    Ok(text)
}

/// The prefix and the name of the tag of the first T card, nothing where there is none.
fn first_tag(alloc: Global, cards: &[TagCard]) -> Result<Text, Memory>
    ensures { IfOk result (λ text. text ≡ option_map_or tag_text (slice_get cards.now 0) []) }
{
    match cards.first() {
        Some(card) => tag_text(alloc, card),
        None => Ok(Text::empty(alloc)),
    }
}

/// The row of a control artifact.
pub(crate) fn control(alloc: Global, name: Name, control: &Control) -> Result<Row, Memory>
    ensures { IfOk result (λ r. r ≡ control_row name control.now) }
{
    Ok(Row {
        time: control.date,
        name,
        kind: RowKind::Tag,
        user: Text::of(alloc, control.user.bytes())?,
        text: first_tag(alloc, control.tags.items())?,
    })
}

/// The row that an artifact gives, where it gives one.
fn row_of(
    alloc: Global,
    tags: &Tags,
    pages: &Pages,
    threads: &Threads,
    targets: &Targets,
    item: &Held,
) -> Result<Option<Row>, Memory>
    ensures { IfOk result (λ r. r ≡ item_row_over tags.now.facts pages.now.facts threads.now.facts (in_set targets.now.tickets) (in_set targets.now.notes) item.now) }
{
    let name = item.name();
    let found = match item.artifact() {
        Artifact::Manifest(manifest) => checkin(alloc, tags, name, manifest)?,
        Artifact::Wiki(version) => page(alloc, name, version)?,
        Artifact::Ticket(change) => ticket(alloc, name, change)?,
        Artifact::Attachment(file) => { attachment(alloc, targets.kind(&file.target), name, file)? }
        Artifact::Control(tagging) => control(alloc, name, tagging)?,
        Artifact::Technote(note) => return technote(alloc, pages, name, note),
        Artifact::Forum(forum) => return post(alloc, threads, name, forum),
        Artifact::Plain | Artifact::Cluster(_) => return Ok(None),
    };
    Ok(Some(found))
}

/// The rows that artifacts give.
fn of_items(
    alloc: Global,
    tags: &Tags,
    pages: &Pages,
    threads: &Threads,
    targets: &Targets,
    items: &Items,
) -> Result<Vec<Row>, Memory>
    ensures { IfOk result (λ rows. rows.items ≡ filter_map (item_row_over tags.now.facts pages.now.facts threads.now.facts (in_set targets.now.tickets) (in_set targets.now.notes)) items.now) }
{
    let mut rows = Vec::new(alloc);
    for item in items.iter() {
        append(
            &mut rows,
            row_of(alloc, tags, pages, threads, targets, item)?,
        )?;
    }
    Ok(rows)
}

/// The timeline of artifacts, by the tables of their tags, technotes and posts. `Memory` is the only error.
pub(crate) fn table(
    alloc: Global,
    tags: &Tags,
    pages: &Pages,
    threads: &Threads,
    items: &Items,
) -> Result<Timeline, Memory>
    requires rising { IsStrictlySortedBy bytes_cmp (map (λ i. i.name) items.now) }
    requires tags { tags.now.facts ≡ tags_facts items.now }
    requires pages { pages.now.facts ≡ pages_facts items.now }
    requires threads { threads.now.facts ≡ forum_facts items.now }
    ensures { IfOk result (λ t. t.facts ≡ timeline_rows items.now) }
{
    let targets = Targets::of(alloc, items)?;
    let rows = of_items(alloc, tags, pages, threads, &targets, items)?;
    Timeline::from_rows(alloc, List::from_vec(rows))
}
