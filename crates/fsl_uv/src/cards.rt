//! Writes the cards of a message.
ghost use Rattle.std.specs.Prelude.{◌≡◌, ◌++◌, ◌∷◌, [], decimal, codes, OnOk};
ghost use Rattle.std.specs.Prelude.{length};
ghost use Rattle.std.specs.Option.{option_map};
ghost use Rattle.fsl_text.specs.Escapes.{escape};
ghost use Rattle.fsl_name.specs.Name.{name_of};
ghost use Rattle.fsl_uv.specs.Entries.{content};
ghost use Rattle.fsl_uv.specs.Words.{stamped};
ghost use Rattle.fsl_uv.specs.Cards.{hashed, stamp_line, card_text};
ghost use Rattle.fsl_uv.specs.Reports.{line_of, listed_line};
ghost use Rattle.fsl_uv.specs.Syncing.{offer_of, file_of};
ghost use Rattle.fsl_uv.specs.declared.Card.TheVariants as card_is;

use crate::entries::{add_hash, add_stamp, add_word};
use crate::version::Version;
use fsl_date::Moment;
use fsl_name::Name;
use fsl_text::{Memory, Text, escape};
use itoa::Buffer;
use std::alloc::Global;

/// Writes a space, a moment, a hash, a size and a newline at the end of a text.
fn add_marks(into: &mut Text, moment: &Moment, hash: &Option<Name>, size: u64) -> Result<(), Memory>
    ensures { OnOk result (into.new ≡ into.old ++ 32 ∷ stamped moment.now hash.now (decimal size) ++ 10 ∷ []) }
{
    let mut buffer = Buffer::new();
    add_stamp(into, moment, hash, buffer.format(size).as_bytes())?;
    into.append(b"\n")
}

/// Writes an operator and an escaped path at the end of a text.
fn add_operator(alloc: Global, into: &mut Text, operator: &[u8], path: &Text) -> Result<(), Memory>
    ensures { OnOk result (into.new ≡ into.old ++ operator.now ++ 32 ∷ escape path.now) }
{
    let written = escape(alloc, path.bytes())?;
    into.append(operator)?;
    add_word(into, written.bytes())
}

/// Writes the line of a path and a version at the end of a text.
fn add_stamp_line(
    alloc: Global,
    into: &mut Text,
    operator: &[u8],
    path: &Text,
    version: &Version,
) -> Result<(), Memory>
    ensures { OnOk result (into.new ≡ into.old ++ stamp_line operator.now path.now version.now.moment (hashed (option_map name_of version.now.bytes)) (length (content version.now.bytes))) }
{
    add_operator(alloc, into, operator, path)?;
    add_marks(
        into,
        &version.moment(),
        version.hash(),
        version.bytes().len() as u64,
    )
}

/// Writes the `uvigot` card of a path at the end of a text.
pub(crate) fn add_igot(
    alloc: Global,
    into: &mut Text,
    path: &Text,
    version: &Version,
) -> Result<(), Memory>
    ensures { OnOk result (into.new ≡ into.old ++ card_text (offer_of (path.now, version.now))) }
{
    add_stamp_line(alloc, into, b"uvigot", path, version)
}

/// Writes the line `MOMENT HASH SIZE PATH` of a content at the end of a text.
fn add_listed(
    alloc: Global,
    into: &mut Text,
    path: &Text,
    version: &Version,
    size: usize,
) -> Result<(), Memory>
    ensures { OnOk result (into.new ≡ into.old ++ listed_line path.now version.now.moment (option_map name_of version.now.bytes) size) }
{
    let written = escape(alloc, path.bytes())?;
    let mut buffer = Buffer::new();
    into.append(&version.moment().text())?;
    add_hash(into, version.hash())?;
    add_word(into, buffer.format(size).as_bytes())?;
    add_word(into, written.bytes())?;
    into.append(b"\n")
}

/// Writes the line of a path at the end of a text, and none if it is deleted.
pub(crate) fn add_line(
    alloc: Global,
    into: &mut Text,
    path: &Text,
    version: &Version,
) -> Result<(), Memory>
    ensures { OnOk result (into.new ≡ into.old ++ line_of (path.now, version.now)) }
{
    match version.held() {
        Some(content) => add_listed(alloc, into, path, version, content.bytes().len()),
        None => Ok(()),
    }
}

/// Writes a `uvgimme` card at the end of a text.
pub(crate) fn add_gimme(alloc: Global, into: &mut Text, path: &Text) -> Result<(), Memory>
    ensures { OnOk result (into.new ≡ into.old ++ card_text (card_is.Gimme path.now)) }
{
    add_operator(alloc, into, b"uvgimme", path)?;
    into.append(b"\n")
}

/// Writes a `uvfile` card at the end of a text: its line, the content and a newline.
pub(crate) fn add_file(
    alloc: Global,
    into: &mut Text,
    path: &Text,
    version: &Version,
) -> Result<(), Memory>
    ensures { OnOk result (into.new ≡ into.old ++ card_text (file_of path.now version.now)) }
{
    add_stamp_line(alloc, into, b"uvfile", path, version)?;
    into.append(version.bytes())?;
    into.append(b"\n")
}
