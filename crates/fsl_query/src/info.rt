//! Prints the report on the repository itself.
ghost use Rattle.std.specs.Prelude.{◌≡◌, ◌++◌, flat_map, IfOk, OnOk};
ghost use Rattle.fsl_query.specs.Info.{config_lines, held_lines, missing_lines};
ghost use Rattle.fsl_query.specs.Lines.{configured_line};

use crate::lines::{append_code, append_configured, append_count};
use fsl_record::Config;
use fsl_text::{Memory, Text};
use std::alloc::Global;

/// What is held: how many artifacts, how many of these are private, and the sum of their sizes in bytes.
#[derive(Clone, Copy)]
pub(crate) struct Sizes {
    pub(crate) artifacts: u64,
    pub(crate) private: u64,
    pub(crate) bytes: u128,
}

/// Puts a line for each configured field at the end of a text.
fn append_fields(into: &mut Text, fields: &[Text]) -> Result<(), Memory>
    ensures { OnOk result (into.new ≡ into.old ++ flat_map configured_line fields.now) }
{
    for field in fields {
        append_configured(into, field.bytes())?;
    }
    Ok(())
}

/// Puts the codes and the configured fields at the end of a text.
fn append_config(into: &mut Text, config: &Config) -> Result<(), Memory>
    ensures { OnOk result (into.new ≡ into.old ++ config_lines config.now) }
{
    append_code(into, b"project", config.project)?;
    append_code(into, b"server", config.server)?;
    append_fields(into, config.fields.items())
}

/// Puts the lines of what is held at the end of a text.
fn append_held(alloc: Global, into: &mut Text, sizes: Sizes) -> Result<(), Memory>
    ensures { OnOk result (into.new ≡ into.old ++ held_lines sizes.artifacts sizes.private sizes.bytes) }
{
    append_count(alloc, into, b"artifacts", sizes.artifacts as u128)?;
    append_count(alloc, into, b"private", sizes.private as u128)?;
    append_count(alloc, into, b"bytes", sizes.bytes)
}

/// Puts the lines of what is shunned and wanted at the end of a text.
fn append_missing(
    alloc: Global,
    into: &mut Text,
    shunned: usize,
    wanted: usize,
) -> Result<(), Memory>
    ensures { OnOk result (into.new ≡ into.old ++ missing_lines shunned wanted) }
{
    append_count(alloc, into, b"shunned", shunned as u128)?;
    append_count(alloc, into, b"wanted", wanted as u128)
}

/// The codes of a repository, its configured fields, and how much it holds, shuns and wants: a line each. `Memory` is the only
/// error.
pub(crate) fn report(
    alloc: Global,
    config: &Config,
    sizes: Sizes,
    shunned: usize,
    wanted: usize,
) -> Result<Text, Memory>
    ensures { IfOk result (λ text. text ≡ config_lines config.now ++ held_lines sizes.artifacts sizes.private sizes.bytes ++ missing_lines shunned wanted) }
{
    let mut text = Text::empty(alloc);
    append_config(&mut text, config)?;
    append_held(alloc, &mut text, sizes)?;
    append_missing(alloc, &mut text, shunned, wanted)?;
    Ok(text)
}
