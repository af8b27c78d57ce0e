//! Reads the files of a check-in over those of its baseline, without a copy.
ghost use Rattle.std.specs.Prelude.{◌≡◌, map, IsTrue};
ghost use Rattle.std.specs.List.Sorted.{IsStrictlySortedBy};
ghost use Rattle.std.specs.Map.Iter.{TakesFirst, deref};
ghost use Rattle.fsl_order.specs.Names.{bytes_cmp};
ghost use Rattle.fsl_order.specs.Rows.{rises};
ghost use Rattle.fsl_files.specs.Files.{overlay};

use super::FileRow;
use std::cmp::Ordering;
use std::marker::Model;

/// Two lists that rise by path, read as one. Of two rows with one path that of the second list comes, and the other doesn't.
/// Contracts see the list of what is left.
#[derive(Drop)]
struct Merged<'a> {
    base: &'a [FileRow],
    rows: &'a [FileRow],
}

impl<'a> Model for Merged<'a> {
    ghost use Rattle.std.specs.Prelude.{List, ◌++◌, map};
    ghost use Rattle.std.specs.List.Sorted.{IsStrictlySortedBy};
    ghost use Rattle.fsl_order.specs.Names.{bytes_cmp};
    ghost use Rattle.fsl_order.specs.Rows.{in_order};
    ghost use Rattle.fsl_files.specs.declared.FileRow.{FileRow};

    ghost Value = { List FileRow };

    ghost view = { λ m. in_order bytes_cmp (λ r. r.path) (m.rows.now ++ m.base.now) };

    ghost invariant = { λ m. IsStrictlySortedBy bytes_cmp (map (λ r. r.path) m.base.now) × IsStrictlySortedBy bytes_cmp (map (λ r. r.path) m.rows.now) };
}

impl<'a> Merged<'a> {
    /// Takes the first row that is left.
    fn take_first(&mut self) -> Option<&'a FileRow>
        ensures { TakesFirst deref self.old result self.new }
    {
        let Some((row, rows)) = self.rows.split_first() else {
            let (first, base) = self.base.split_first()?;
            self.base = base;
            return Some(first);
        };
        let Some((first, base)) = self.base.split_first() else {
            self.rows = rows;
            return Some(row);
        };
        match row.path.cmp(&first.path) {
            Ordering::Less => {
                self.rows = rows;
                Some(row)
            }
            Ordering::Equal => {
                self.base = base;
                self.rows = rows;
                Some(row)
            }
            Ordering::Greater => {
                self.base = base;
                Some(first)
            }
        }
    }
}

/// The files of a check-in over those of its baseline. They come one by one, by rising path. Contracts see the list of those that
/// are left.
#[derive(Drop)]
pub struct Overlay<'a> {
    rows: Merged<'a>,
}

impl<'a> Model for Overlay<'a> {
    ghost use Rattle.std.specs.Prelude.{List, filter, is_some};
    ghost use Rattle.fsl_files.specs.declared.FileRow.{FileRow};

    ghost Value = { List FileRow };

    ghost view = { λ o. filter (λ r. is_some r.hash) o.rows };
}

impl<'a> Overlay<'a> {
    /// Lays the rows of a check-in over the files of its baseline. A row without a hash takes its path out.
    pub fn new(base: &'a [FileRow], rows: &'a [FileRow]) -> Overlay<'a>
        requires base { IsTrue (rises (map (λ r. r.path) base.now)) }
        requires rows { IsTrue (rises (map (λ r. r.path) rows.now)) }
        ensures files { result ≡ overlay base.now rows.now }
        ensures rising { IsStrictlySortedBy bytes_cmp (map (λ r. r.path) result) }
    {
        Overlay {
            rows: Merged { base, rows },
        }
    }

    /// Takes the first file that is left.
    pub fn take_first(&mut self) -> Option<&'a FileRow>
        ensures { TakesFirst deref self.old result self.new }
    {
        while let Some(row) = self.rows.take_first() {
            if row.hash.is_some() {
                return Some(row);
            }
        }
        None
    }
}

impl<'a> Iterator for Overlay<'a> {
    ghost use Rattle.std.specs.Prelude.{length};
    ghost use Rattle.std.specs.Iterator.{at_most};
    ghost use Rattle.std.specs.Map.Iter.{TakesFirst, deref};

    type Item = &'a FileRow;

    ghost next_gives = { TakesFirst deref };

    ghost remaining = { λ s. at_most (length s) };

    fn next(&mut self) -> Option<&'a FileRow> {
        self.take_first()
    }
}
