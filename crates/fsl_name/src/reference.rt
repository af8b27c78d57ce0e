//! Reads and writes references, by which cards name artifacts.
ghost use Rattle.std.specs.Prelude.{◌≡◌, ◌≤◌, IfErr, IfOk, IsTrue, MatchResult, None, Ok, Some, drop, length, take};
ghost use Rattle.fsl_text.specs.Bytes.{AreBytes};
ghost use Rattle.std.specs.List.{list_all};
ghost use Rattle.fsl_name.specs.Name.{bytes_of_digits, is_name_digit};
ghost use Rattle.fsl_name.specs.Ref.{IsRef, IsRefFault, is_written_before, own_name, ref_bytes, ref_in, ref_text};
ghost use Rattle.fsl_name.specs.declared.reference.Ref.{Ref as SpecRef};

use super::{Name, NameFault, first_other};

/// A reference of a card, to an artifact or to something outside. Nothing is held, wanted or announced under a foreign name.
/// FORMATS: Names
#[derive(Clone, Copy, Debug, PartialEq, Eq)]
pub enum Ref {
    /// A name of 40 digits.
    Own(Name),
    /// The 32 bytes of a name of 64 digits.
    Foreign([u8; 32]),
}

impl Ref {
    /// Reads a text as a reference: 40 or 64 digits of `0` to `9` and `a` to `f`, two for each byte, the higher half of a byte
    /// first.
    ///
    /// Errors: `Length` if the text has neither 40 nor 64 bytes, or else `Digit` at its first byte that is no such digit.
    pub fn read(text: &[u8]) -> Result<Ref, NameFault>
        ensures value { MatchResult result (λ r. ref_in text.now ≡ Some r) (λ _. ref_in text.now ≡ None) }
        ensures spelled { IfOk result (λ r. IsRef r × (text.now ≡ ref_text r)) }
        ensures only { (r : SpecRef) → IsRef r → text.now ≡ ref_text r → result ≡ Ok r }
        ensures fault { IfErr result (IsRefFault text.now) }
    {
        match text.len() {
            40 => match Name::read(text) {
                Ok(name) => Ok(Ref::Own(name)),
                Err(fault) => Err(fault),
            },
            64 => match first_other(text) {
                Some(at) => Err(NameFault::Digit { at: at as u64 }),
                None => Ok(Ref::Foreign(spelled(text))),
            },
            found => Err(NameFault::Length {
                found: found as u64,
            }),
        }
    }

    /// Writes the digits in lower case to the front of `into`, and returns their number: 40 or 64. The bytes behind them stay.
    pub fn write(&self, into: &mut [u8; 64]) -> u64
        ensures count { result ≡ length (ref_text self.now) }
        ensures within { result ≤ 64 }
        ensures digits { take result into.new ≡ ref_text self.now }
        ensures rest { drop result into.new ≡ drop result into.old }
        ensures again { ref_in (take result into.new) ≡ Some self.now }
    {
        let bytes = self.bytes();
        let count = 2 * bytes.len();
        let _ = hex::encode_to_slice(bytes, &mut into[..count]);
        count as u64
    }

    /// Returns the bytes, 20 of an own name and 32 of a foreign one. This call proves to its caller how many there are.
    pub fn bytes(&self) -> &[u8]
        ensures value { result.now ≡ ref_bytes self.now }
        ensures kept { IsRef self.now }
    {
        match self {
            Ref::Own(name) => &name.bytes,
            Ref::Foreign(bytes) => {
                know_foreign(*bytes);
                bytes
            }
        }
    }

    /// Returns the name of the artifact, unless it is foreign.
    pub fn own(&self) -> Option<Name>
        ensures { result ≡ own_name self.now }
    {
        match self {
            Ref::Own(name) => Some(*name),
            Ref::Foreign(_) => None,
        }
    }

    /// Returns whether its digits come before those of another in the order of bytes. If one text begins the other, the shorter
    /// one comes first.
    pub fn is_written_before(&self, other: &Ref) -> bool
        ensures { result ≡ is_written_before self.now other.now }
    {
        self.bytes().cmp(other.bytes()).is_lt()
    }
}

/// Says that a foreign name has 32 bytes, for proofs alone.
fn know_foreign(bytes: [u8; 32])
    ensures { (length bytes ≡ 32) × AreBytes bytes }
{
    let _ = bytes;
}

/// Returns the bytes that 64 digits spell.
fn spelled(text: &[u8]) -> [u8; 32]
    requires length { length text.now ≡ 64 }
    requires digits { IsTrue (list_all is_name_digit text.now) }
    ensures { result ≡ bytes_of_digits text.now }
{
    let mut bytes = [0u8; 32];
    let _ = hex::decode_to_slice(text, &mut bytes);
    bytes
}
