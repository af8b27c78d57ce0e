//! Looks check-ins up in a table, or in one with another check-in in place of that of its name.
ghost use Rattle.std.specs.Prelude.{◌≡◌};
ghost use Rattle.std.specs.Option.{option_copied};
ghost use Rattle.fsl_order.specs.Names.{bytes_cmp};
ghost use Rattle.fsl_table.specs.Contents.{value_at, with_entry};

use crate::entry::Entry;
use fsl_name::Name;
use fsl_table::Tracked;
use fsl_text::Steps;
use std::marker::Model;
use std::sync::ledger::Ledger;

/// The check-ins of a table, with one in the place of that of its name where there is one. Contracts see them beside their names.
#[derive(Drop)]
pub(crate) struct Lookup<'a> {
    table: &'a Tracked<Name, Entry>,
    line: Option<&'a (Name, Entry)>,
}

impl<'a> Model for Lookup<'a> {
    ghost use Rattle.std.specs.Option.{option_copied};
    ghost use Rattle.fsl_files.specs.Kept.{Lines, with_line};

    ghost Value = { Lines };

    ghost view = { λ l. with_line (option_copied l.line) l.table.now.held.entries };
}

impl<'a> Lookup<'a> {
    /// The check-ins of a table.
    pub(crate) fn of(table: &'a Tracked<Name, Entry>) -> Lookup<'a>
        ensures { result ≡ table.now.held.entries }
    {
        Lookup { table, line: None }
    }

    /// The check-ins of a table with one more, or with one in the place of that of its name.
    pub(crate) fn with(table: &'a Tracked<Name, Entry>, line: &'a (Name, Entry)) -> Lookup<'a>
        ensures { result ≡ with_entry bytes_cmp line.now.0 line.now.1 table.now.held.entries }
    {
        Lookup {
            table,
            line: Some(line),
        }
    }

    /// The check-in of a name.
    pub(crate) fn get<L: Ledger>(&self, name: Name, steps: &mut Steps<L>) -> Option<&'a Entry>
        ensures { option_copied result ≡ value_at bytes_cmp name self.now }
    {
        match self.line {
            None => self.table.get(&name, steps),
            Some(line) => {
                if name == line.0 {
                    Some(&line.1)
                } else {
                    self.table.get(&name, steps)
                }
            }
        }
    }
}
