//! Prints the report on the files of a check-in.
ghost use Rattle.std.specs.Prelude.{◌≡◌, ◌++◌, [], flat_map, OnOk};
ghost use Rattle.std.specs.Option.{option_map_or};
ghost use Rattle.fsl_files.specs.Files.{changes};
ghost use Rattle.fsl_query.specs.Answers.{IsAnswer};
ghost use Rattle.fsl_query.specs.Lines.{file_line, change_line};
ghost use Rattle.fsl_query.specs.Reports.{files_report};

use crate::lines::{append_change, append_file};
use crate::{QueryFault, Refused};
use fsl_files::{Change, FileRow, Files, Listing};
use fsl_name::Name;
use fsl_text::{Memory, Text};
use std::alloc::Global;

/// Puts a line for each file at the end of a text.
fn append_files(into: &mut Text, files: &[FileRow]) -> Result<(), Memory>
    ensures { OnOk result (into.new ≡ into.old ++ flat_map file_line files.now) }
{
    for file in files {
        append_file(into, file)?;
    }
    Ok(())
}

/// Puts a line for each change at the end of a text.
fn append_changes(into: &mut Text, changes: &[Change]) -> Result<(), Memory>
    ensures { OnOk result (into.new ≡ into.old ++ flat_map change_line changes.now) }
{
    for change in changes {
        append_change(into, change)?;
    }
    Ok(())
}

/// Puts a line for each change of a check-in against its primary parent at the end of a text, where there are changes to tell.
fn append_changes_of(
    alloc: Global,
    into: &mut Text,
    table: &Files,
    name: Name,
) -> Result<(), Memory>
    ensures { OnOk result (into.new ≡ into.old ++ option_map_or (flat_map change_line) (changes table.now.facts name) []) }
{
    match table.changes(alloc, name)? {
        Some(changes) => append_changes(into, changes.items()),
        None => Ok(()),
    }
}

/// A line for each file of a check-in, by path: its hash, its permission and its path. Then a line for each path at which the files
/// differ from those of the primary parent, by path.
pub(crate) fn report(alloc: Global, table: &Files, name: Name) -> Result<Text, QueryFault>
    ensures { IsAnswer (files_report table.now.facts name) result }
{
    match table.files(alloc, name)? {
        Listing::NotCheckin => Err(QueryFault::Refused(Refused::NotCheckin { name })),
        Listing::NoBaseline => Err(QueryFault::Refused(Refused::NoBaseline { name })),
        Listing::Known(files) => {
            let mut text = Text::empty(alloc);
            append_files(&mut text, files.items())?;
            append_changes_of(alloc, &mut text, table, name)?;
            Ok(text)
        }
    }
}
