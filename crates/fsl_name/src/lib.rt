//! Names of artifacts. A name is the SHA-1 of an artifact's bytes. It is written as 40 digits in lower case, and is read from
//! these and from nothing else. Names are ordered by their bytes. A reference is such a name, or a foreign one of 64 digits.
//!
//! `Named` is a row that has a name; all tables share it. `Rows` is a list of such rows. The rows are sorted by their names and found
//! by them. It is the list that the definition `by_name` makes of the rows that were put in. Their order doesn't change it, which is the
//! law `fsl_order::by_name_in_any_order`. Tests alone use `Rows`.
#![tactic(auto)]

ghost use Rattle.std.specs.Prelude.{◌≡◌, ℕ, length, List, not, position, IsTrue, IfOk, IfErr};
ghost use Rattle.std.specs.List.{list_all};
ghost use Rattle.std.specs.Cmp.{partial_order_from_own_ties};
ghost use Rattle.std.specs.Cmp.Lexicographic.{slice_cmp};
ghost use Rattle.std.specs.Cmp.Rules.{comparing};
ghost use Rattle.std.specs.Ordering.{nat_cmp, as_partial_cmp};
ghost use Rattle.std.proofs.Common.{rules};
ghost use Rattle.fsl_name.specs.Name.{
  name_of,
  name_text,
  name_read,
  bytes_of_digits,
  is_name_digit,
  IsName,
  IsNameText,
  IsNameFault,
};

mod named;
mod reference;
mod rows;
mod sorting;

pub use named::Named;
pub use reference::Ref;
pub use rows::Rows;
use sha1::Sha1;
pub use sorting::{ordered, stands};
use std::cmp::Ordering;
use std::marker::Model;

/// The name of an artifact: 20 bytes, ordered by them.
/// FORMATS: Names
#[derive(Clone, Copy, Debug, PartialEq, Eq, Hash)]
pub struct Name {
    bytes: [u8; 20],
}

impl Model for Name {
    ghost use Rattle.std.specs.Prelude.{List, ℕ};

    ghost Value = { List ℕ };

    ghost use Rattle.fsl_name.specs.Name.{IsName};

    ghost view = { λ n. n.bytes };

    ghost invariant = { λ n. IsName n.bytes };

    ghost inverse = { λ bytes. record { bytes = bytes } };
}

impl PartialOrd for Name {
    ghost partial_cmp = { as_partial_cmp (slice_cmp nat_cmp) };

    ghost laws = { partial_order_from_own_ties (Prim.search (comparing, rules)) (Prim.search (comparing, rules)) };

    fn partial_cmp(&self, other: &Name) -> Option<Ordering> {
        Some(self.cmp(other))
    }
}

impl Ord for Name {
    ghost cmp = { slice_cmp nat_cmp };

    ghost total = { Prim.search (comparing, rules) };

    ghost matches_partial_cmp = { Prim.search (comparing, rules) };

    ghost matches_eq = { Prim.search (comparing, rules) };

    /// Compares two names by their bytes. The bytes of a name are as random as a hash, so two names that differ mostly do so in
    /// one of their first bytes.
    fn cmp(&self, other: &Name) -> Ordering {
        let (these, those) = (&self.bytes, &other.bytes);
        if these[0] != those[0] {
            return these[0].cmp(&those[0]);
        }
        if these[1] != those[1] {
            return these[1].cmp(&those[1]);
        }
        if these[2] != those[2] {
            return these[2].cmp(&those[2]);
        }
        these.cmp(those)
    }
}

/// Says why a text is no name, or no reference.
#[derive(Clone, Copy, Debug, PartialEq, Eq)]
pub enum NameFault {
    /// The text has this many bytes, and not 40, nor, for a reference, 64.
    Length { found: u64 },
    /// The text has a right length, and the byte at this place, counted from 0, is the first that is no digit of `0` to `9` and
    /// `a` to `f`.
    Digit { at: u64 },
}

impl Name {
    /// Computes the name of some bytes, which is their SHA-1.
    pub fn of(bytes: &[u8]) -> Name
        ensures value { result ≡ name_of bytes.now }
        ensures named { IsName result }
    {
        Name {
            bytes: Sha1::digest(bytes),
        }
    }

    /// Makes the name with these bytes.
    pub fn from_bytes(bytes: [u8; 20]) -> Name
        ensures value { result ≡ bytes }
        ensures named { IsName result }
    {
        Name { bytes }
    }

    /// Returns the bytes of the name. This call proves to its caller that there are 20.
    pub fn bytes(&self) -> [u8; 20]
        ensures value { result ≡ self.now }
        ensures named { IsName self.now }
    {
        self.bytes
    }

    /// Reads a text as a name: 40 digits of `0` to `9` and `a` to `f`, two for each byte, the higher half of a byte first.
    ///
    /// Errors: `Length` if the text doesn't have 40 bytes, or else `Digit` at its first byte that is no such digit.
    pub fn read(text: &[u8]) -> Result<Name, NameFault>
        ensures value { result ≡ name_read text.now }
        ensures named { IfOk result IsName }
        ensures spelled { IfOk result (λ name. text.now ≡ name_text name) }
        ensures only { (name : List ℕ) → IsNameText text.now name → result ≡ Ok name }
        ensures fault { IfErr result (IsNameFault text.now) }
    {
        if text.len() != 40 {
            return Err(NameFault::Length {
                found: text.len() as u64,
            });
        }
        match first_other(text) {
            Some(at) => Err(NameFault::Digit { at: at as u64 }),
            None => Ok(Name {
                bytes: spelled(text),
            }),
        }
    }

    /// Returns the 40 digits of the name, in lower case.
    pub fn text(&self) -> [u8; 40]
        ensures { result ≡ name_text self.now }
    {
        let mut text = [0u8; 40];
        let _ = hex::encode_to_slice(&self.bytes, &mut text);
        text
    }
}

fn is_digit(byte: u8) -> bool
    ensures { result ≡ is_name_digit byte }
{
    matches!(byte, b'0'..=b'9' | b'a'..=b'f')
}

/// Finds the place of the first byte that is no digit.
fn first_other(text: &[u8]) -> Option<usize>
    ensures { result ≡ position (λ b. not (is_name_digit b)) text.now }
{
    text.iter().position(|byte| !is_digit(*byte))
}

/// Returns the bytes that 40 digits spell.
fn spelled(text: &[u8]) -> [u8; 20]
    requires length { length text.now ≡ 40 }
    requires digits { IsTrue (list_all is_name_digit text.now) }
    ensures value { result ≡ bytes_of_digits text.now }
    ensures named { IsNameText text.now result }
{
    let mut bytes = [0u8; 20];
    let _ = hex::decode_to_slice(text, &mut bytes);
    bytes
}
