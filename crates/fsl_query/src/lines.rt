//! Prints the lines of reports.
ghost use Rattle.std.specs.Prelude.{◌≡◌, ◌∷◌, ◌++◌, [], OnOk, decimal};
ghost use Rattle.std.specs.Option.{option_copied};
ghost use Rattle.fsl_date.specs.Moment.{moment_text};
ghost use Rattle.fsl_name.specs.Name.{name_text};
ghost use Rattle.fsl_name.specs.Ref.{ref_text};
ghost use Rattle.fsl_query.specs.Lines as line;
ghost use Rattle.fsl_query.specs.Lines.{shown, valued_line, leaf_line, tag_line, tip_line, receipt_line, timeline_line, file_line, change_line, page_line, attachment_line, post_line, wanted_line, branch_line, title_line, thread_line, count_line, code_line, configured_line};

use fsl_date::Moment;
use fsl_files::{Change, FileRow, How, Perm};
use fsl_forum::{Post, PostKind};
use fsl_name::{Name, Ref};
use fsl_record::Receipt;
use fsl_tags::Assertion;
use fsl_text::{Memory, Text, escape_into};
use fsl_timeline::{Row, RowKind};
use fsl_wiki::{Attached, Page};
use std::alloc::Global;

/// Puts a text at the end of another as a line shows it: escaped, and `-` where it is empty.
fn append_shown(into: &mut Text, text: &[u8]) -> Result<(), Memory>
    ensures { OnOk result (into.new ≡ into.old ++ shown text.now) }
{
    if text.is_empty() {
        into.append(b"-")
    } else {
        escape_into(into, text)
    }
}

/// Puts a word and a blank at the end of a text.
fn append_word(into: &mut Text, word: &[u8]) -> Result<(), Memory>
    ensures { OnOk result (into.new ≡ into.old ++ word.now ++ 32 ∷ []) }
{
    into.append(word)?;
    into.append(b" ")
}

/// Puts the text of a moment and a blank at the end of a text.
fn append_moment(into: &mut Text, moment: Moment) -> Result<(), Memory>
    ensures { OnOk result (into.new ≡ into.old ++ moment_text moment ++ 32 ∷ []) }
{
    append_word(into, &moment.text())
}

/// Puts a date and a name at the end of a text, with a blank behind each.
fn append_dated(into: &mut Text, date: Moment, name: Name) -> Result<(), Memory>
    ensures { OnOk result (into.new ≡ into.old ++ moment_text date ++ 32 ∷ (name_text name ++ 32 ∷ [])) }
{
    append_moment(into, date)?;
    append_word(into, &name.text())
}

/// Puts a date and a name at the end of a text, with a blank between them.
pub(crate) fn append_stamp(into: &mut Text, date: Moment, name: Name) -> Result<(), Memory>
    ensures { OnOk result (into.new ≡ into.old ++ moment_text date ++ 32 ∷ name_text name) }
{
    append_moment(into, date)?;
    into.append(&name.text())
}

/// Puts a text at the end of another as a line shows it, and a blank.
fn append_shown_word(into: &mut Text, text: &[u8]) -> Result<(), Memory>
    ensures { OnOk result (into.new ≡ into.old ++ shown text.now ++ 32 ∷ []) }
{
    append_shown(into, text)?;
    into.append(b" ")
}

/// Puts a blank at the end of a text, and then another text as a line shows it.
pub(crate) fn append_value(into: &mut Text, value: &[u8]) -> Result<(), Memory>
    ensures { OnOk result (into.new ≡ into.old ++ 32 ∷ shown value.now) }
{
    into.append(b" ")?;
    append_shown(into, value)
}

/// Puts the last word of a line at the end of a text: a text as a line shows it, and a newline.
fn append_last(into: &mut Text, text: &[u8]) -> Result<(), Memory>
    ensures { OnOk result (into.new ≡ into.old ++ shown text.now ++ 10 ∷ []) }
{
    append_shown(into, text)?;
    into.append(b"\n")
}

/// Puts a line of a key and a value at the end of a text; where the value is empty, of the key alone.
pub(crate) fn append_valued(into: &mut Text, key: &[u8], value: &[u8]) -> Result<(), Memory>
    ensures { OnOk result (into.new ≡ into.old ++ valued_line key.now value.now) }
{
    escape_into(into, key)?;
    if !value.is_empty() {
        into.append(b" ")?;
        escape_into(into, value)?;
    }
    into.append(b"\n")
}

/// Puts the line of a receipt at the end of a text: its moment and its login, or that there is none.
pub(crate) fn append_receipt(into: &mut Text, receipt: Option<&Receipt>) -> Result<(), Memory>
    ensures { OnOk result (into.new ≡ into.old ++ receipt_line (option_copied receipt.entry)) }
{
    match receipt {
        Some(receipt) => {
            append_moment(into, receipt.moment())?;
            append_last(into, receipt.login())
        }
        None => into.append(b"none\n"),
    }
}

/// Puts the line of a leaf at the end of a text: its name and its branch.
pub(crate) fn append_leaf(into: &mut Text, name: Name, branch: &[u8]) -> Result<(), Memory>
    ensures { OnOk result (into.new ≡ into.old ++ leaf_line branch.now name) }
{
    into.append(&name.text())?;
    into.append(b" ")?;
    append_shown(into, branch)?;
    into.append(b"\n")
}

/// Puts the line of a tag at the end of a text: the tag, and its value where that isn't empty.
pub(crate) fn append_tag(into: &mut Text, assertion: &Assertion) -> Result<(), Memory>
    ensures { OnOk result (into.new ≡ into.old ++ tag_line assertion.now) }
{
    append_valued(into, assertion.tag.bytes(), assertion.value.bytes())
}

/// Puts the line of a tip at the end of a text: its name.
pub(crate) fn append_tip(into: &mut Text, name: Name) -> Result<(), Memory>
    ensures { OnOk result (into.new ≡ into.old ++ tip_line name) }
{
    into.append(&name.text())?;
    into.append(b"\n")
}

/// The word for what a row of the timeline tells of.
fn kind_text(kind: RowKind) -> &'static [u8]
    ensures { result.now ≡ line.kind_text kind }
{
    match kind {
        RowKind::Checkin => b"ci",
        RowKind::Wiki => b"wiki",
        RowKind::Ticket => b"tkt",
        RowKind::Note => b"note",
        RowKind::Forum => b"forum",
        RowKind::Tag => b"tag",
    }
}

/// Puts the line of a row of the timeline at the end of a text: its time, its name, what it tells of, its user and its text.
pub(crate) fn append_row(into: &mut Text, row: &Row) -> Result<(), Memory>
    ensures { OnOk result (into.new ≡ into.old ++ timeline_line row.now) }
{
    append_dated(into, row.time, row.name)?;
    append_word(into, kind_text(row.kind))?;
    append_shown_word(into, row.user.bytes())?;
    append_last(into, row.text.bytes())
}

/// The word for a permission, where `w` counts as none.
fn perm_text(perm: Perm) -> &'static [u8]
    ensures { result.now ≡ line.perm_text perm }
{
    match perm {
        Perm::Plain | Perm::Writable => b"-",
        Perm::Exec => b"x",
        Perm::Symlink => b"l",
    }
}

/// Puts a reference and a space behind it at the end of a text.
fn append_ref(into: &mut Text, hash: &Ref) -> Result<(), Memory>
    ensures { OnOk result (into.new ≡ into.old ++ ref_text hash.now ++ 32 ∷ []) }
{
    let mut digits = [0u8; 64];
    let count = hash.write(&mut digits) as usize;
    append_word(into, &digits[..count])
}

/// Puts the line of a file at the end of a text: its hash, its permission and its path.
pub(crate) fn append_file(into: &mut Text, file: &FileRow) -> Result<(), Memory>
    ensures { OnOk result (into.new ≡ into.old ++ file_line file.now) }
{
    let Some(hash) = file.hash else {
        return Ok(());
    };
    append_ref(into, &hash)?;
    append_word(into, perm_text(file.perm))?;
    escape_into(into, file.path.bytes())?;
    into.append(b"\n")
}

/// The word for how a file differs from the parent's.
fn how_text(how: How) -> &'static [u8]
    ensures { result.now ≡ line.how_text how }
{
    match how {
        How::Added => b"added",
        How::Edited => b"edited",
        How::Deleted => b"deleted",
    }
}

/// Puts the line of a change at the end of a text: how the file differs, and its path.
pub(crate) fn append_change(into: &mut Text, change: &Change) -> Result<(), Memory>
    ensures { OnOk result (into.new ≡ into.old ++ change_line change.now) }
{
    append_word(into, how_text(change.how))?;
    escape_into(into, change.path.bytes())?;
    into.append(b"\n")
}

/// Puts the line of a version of a page at the end of a text: its date, its name and its user.
pub(crate) fn append_page(into: &mut Text, page: &Page) -> Result<(), Memory>
    ensures { OnOk result (into.new ≡ into.old ++ page_line page.now) }
{
    append_dated(into, page.date, page.name)?;
    append_last(into, page.user.bytes())
}

/// Puts the line of an attachment at the end of a text: its name and that of the file.
pub(crate) fn append_attachment(into: &mut Text, attached: &Attached) -> Result<(), Memory>
    ensures { OnOk result (into.new ≡ into.old ++ attachment_line attached.now) }
{
    into.append(b"attachment ")?;
    append_word(into, &attached.name.text())?;
    escape_into(into, attached.file.bytes())?;
    into.append(b"\n")
}

/// The word for what a post is.
fn post_kind_text(kind: PostKind) -> &'static [u8]
    ensures { result.now ≡ line.post_kind_text kind }
{
    match kind {
        PostKind::Start => b"start",
        PostKind::Edit => b"edit",
        PostKind::Reply => b"reply",
    }
}

/// Puts the line of a post at the end of a text: its date, its name, what it is and its user.
pub(crate) fn append_post(into: &mut Text, post: &Post) -> Result<(), Memory>
    ensures { OnOk result (into.new ≡ into.old ++ post_line post.now) }
{
    append_dated(into, post.date, post.name)?;
    append_word(into, post_kind_text(post.how))?;
    append_last(into, post.user.bytes())
}

/// Puts the line of a name that is wanted at the end of a text.
pub(crate) fn append_wanted(into: &mut Text, name: Name) -> Result<(), Memory>
    ensures { OnOk result (into.new ≡ into.old ++ wanted_line name) }
{
    into.append(b"wanted ")?;
    into.append(&name.text())?;
    into.append(b"\n")
}

/// Puts the line of a branch at the end of a text: the date and the name of its newest check-in, and the branch.
pub(crate) fn append_branch(
    into: &mut Text,
    newest: (Moment, Name),
    branch: &[u8],
) -> Result<(), Memory>
    ensures { OnOk result (into.new ≡ into.old ++ branch_line newest branch.now) }
{
    append_dated(into, newest.0, newest.1)?;
    append_last(into, branch)
}

/// Puts the line of a page at the end of a text: the date, the name and the user of a version of it, and its title.
pub(crate) fn append_title(into: &mut Text, page: &Page) -> Result<(), Memory>
    ensures { OnOk result (into.new ≡ into.old ++ title_line page.now) }
{
    append_dated(into, page.date, page.name)?;
    append_shown_word(into, page.user.bytes())?;
    append_last(into, page.title.bytes())
}

/// Puts a number and a blank at the end of a text.
fn append_number(alloc: Global, into: &mut Text, number: u128) -> Result<(), Memory>
    ensures { OnOk result (into.new ≡ into.old ++ decimal number ++ 32 ∷ []) }
{
    let digits = format!(in alloc; "{number}")?;
    append_word(into, digits.as_bytes())
}

/// Puts the line of a thread at the end of a text: the date of its last post, its name, how many posts it has, and its title.
pub(crate) fn append_thread(
    alloc: Global,
    into: &mut Text,
    thread: &Row,
    posts: u128,
) -> Result<(), Memory>
    ensures { OnOk result (into.new ≡ into.old ++ thread_line thread.now posts) }
{
    append_dated(into, thread.time, thread.name)?;
    append_number(alloc, into, posts)?;
    append_last(into, thread.text.bytes())
}

/// Puts the line of a word and a count at the end of a text.
pub(crate) fn append_count(
    alloc: Global,
    into: &mut Text,
    word: &[u8],
    count: u128,
) -> Result<(), Memory>
    ensures { OnOk result (into.new ≡ into.old ++ count_line word.now count) }
{
    into.append(word)?;
    into.append(b" ")?;
    let digits = format!(in alloc; "{count}")?;
    into.append(digits.as_bytes())?;
    into.append(b"\n")
}

/// Puts the line of a word and a code at the end of a text.
pub(crate) fn append_code(into: &mut Text, word: &[u8], code: Name) -> Result<(), Memory>
    ensures { OnOk result (into.new ≡ into.old ++ code_line word.now code) }
{
    append_word(into, word)?;
    into.append(&code.text())?;
    into.append(b"\n")
}

/// Puts the line of a configured field at the end of a text.
pub(crate) fn append_configured(into: &mut Text, field: &[u8]) -> Result<(), Memory>
    ensures { OnOk result (into.new ≡ into.old ++ configured_line field.now) }
{
    into.append(b"field ")?;
    escape_into(into, field)?;
    into.append(b"\n")
}
