//! Finds the one of some names whose digits begin with a prefix.
ghost use Rattle.std.specs.Prelude.{◌≡◌, length, take, Ok};
ghost use Rattle.std.specs.Str.{bytes_eq};
ghost use Rattle.fsl_blobs.specs.Held.{found};
ghost use Rattle.fsl_name.specs.Name.{name_text};
ghost use Rattle.fsl_query.specs.Answers.{IsAnswer};
ghost use Rattle.fsl_query.specs.Gathering.{and_one};
ghost use Rattle.fsl_query.specs.Listings.{beginning};
ghost use Rattle.fsl_query.specs.Reports.{by_beginning};

use crate::{QueryFault, Refused};
use fsl_blobs::Found;
use fsl_name::Name;
use fsl_text::Text;
use std::alloc::Global;

/// Whether the name's digits begin with the prefix.
fn begins(name: &Name, prefix: &[u8]) -> bool
    ensures { result ≡ bytes_eq (take (length prefix.now) (name_text name.now)) prefix.now }
{
    name.text().as_slice().starts_with(prefix)
}

/// What was found, and one name more.
fn and_one(found: Found, name: Name) -> Found
    ensures { result ≡ and_one found name }
{
    match found {
        Found::Nothing => Found::One(name),
        _ => Found::Several,
    }
}

/// Which of some names begins with the prefix.
fn matching(names: &[Name], prefix: &[u8]) -> Found
    ensures { result ≡ found (beginning prefix.now names.now) }
{
    let mut found = Found::Nothing;
    for name in names {
        if begins(name, prefix) {
            found = and_one(found, *name);
        }
    }
    found
}

/// Finds the one of some names that begins with the prefix. It refuses with `none` where there is none, and with
/// `Several` where there are more. `Memory` is the only other error.
pub(crate) fn named(
    alloc: Global,
    names: &[Name],
    prefix: &[u8],
    none: Refused,
) -> Result<Name, QueryFault>
    ensures { IsAnswer (by_beginning prefix.now none (λ name. Ok name) (found (beginning prefix.now names.now))) result }
{
    match matching(names, prefix) {
        Found::One(name) => Ok(name),
        Found::Nothing => Err(QueryFault::Refused(none)),
        Found::Several => {
            drop(none);
            Err(QueryFault::Refused(Refused::Several {
                prefix: Text::of(alloc, prefix)?,
            }))
        }
    }
}
