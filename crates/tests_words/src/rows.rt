//! Names are those of one letter each. In rising order the letters are x k q z d f r p e m c a y n b.
ghost use Rattle.std.specs.Prelude.{◌≡◌};

use fsl_name::{Name, Named, Rows};
use fsl_text::Memory;
use std::alloc::Global;
use std::process::Abort;

/// A row with a number.
#[derive(Drop)]
struct Numbered {
    name: Name,
    number: u64,
}

impl Named for Numbered {
    ghost name = { λ row. row.name };

    fn name(&self) -> Name {
        self.name
    }

    fn copied(&self, _alloc: Global) -> Result<Numbered, Memory> {
        Ok(row_of(self.name, self.number))
    }
}

fn row_of(name: Name, number: u64) -> Numbered
    ensures { result ≡ record { name = name; number = number } }
{
    Numbered { name, number }
}

fn letter(byte: u8) -> Name {
    Name::of(&[byte])
}

/// The rows of letters and numbers, put in one after the other.
fn rows_of(alloc: Global, letters: &[(u8, u64)]) -> Result<Rows<Numbered>, Memory> {
    let mut rows = Rows::build(alloc, &[row_of(letter(b'q'), 1)])?;
    for (byte, number) in letters {
        rows.put(row_of(letter(*byte), *number))?;
    }
    Ok(rows)
}

/// The first bytes of the names, and the numbers, in the order of the rows.
fn shown(alloc: Global, rows: &Rows<Numbered>) -> Result<Vec<(u8, u64)>, Memory> {
    let mut shown = Vec::new(alloc);
    for row in rows.iter() {
        shown.push((row.name.bytes()[0], row.number))?;
    }
    Ok(shown)
}

/// The number of a letter.
fn number(rows: &Rows<Numbered>, byte: u8) -> Option<u64> {
    match rows.get(letter(byte)) {
        Some(row) => Some(row.number),
        None => None,
    }
}

fn check_rows<R: Abort + AllocGlobal>(rt: &R, rows: &Rows<Numbered>) -> Result<(), Memory> {
    let found = shown(rt.alloc(), rows)?;
    assert_eq!(rt;
        found.as_slice(),
        [(0x11, 3), (0x13, 4), (0x22, 1), (0x86, 5)].as_slice()
    );
    let numbers = [number(rows, b'a'), number(rows, b'q'), number(rows, b'b')];
    assert_eq!(rt; numbers, [Some(5), Some(1), None]);
    Ok(())
}

#[test]
fn rows_stand_by_name_and_the_last_of_a_name_is_kept(rt: HostRuntime) -> Result<(), Memory> {
    let rows = rows_of(rt.alloc(), &[(b'a', 2), (b'x', 3), (b'k', 4), (b'a', 5)])?;
    check_rows(&rt, &rows)
}

#[test]
fn no_rows_have_no_name(rt: HostRuntime) {
    let rows: Rows<Numbered> = Rows::new(rt.alloc());
    assert_eq!(rt; number(&rows, b'a'), None);
}
