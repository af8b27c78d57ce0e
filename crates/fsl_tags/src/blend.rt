//! A row takes the newest assertion of each tag from a group.
ghost use Rattle.std.specs.Prelude.{◌∷◌, [], IfOk};
ghost use Rattle.fsl_tags.specs.Kept.{newest_of};
ghost use Rattle.fsl_tags.specs.Laid.{Rises};
ghost use Rattle.fsl_tags.specs.Laying.{HasNewer};

use super::order::is_newer;
use super::row::{Row, find, put};
use super::shared::Shared;
use fsl_text::Memory;
use std::alloc::Global;

/// A row with an assertion, where it is newer than that of its tag.
fn put_newer(alloc: Global, row: &Row, assertion: &Shared) -> Result<Row, Memory>
    requires { Rises row.now }
    ensures rises { IfOk result (λ new. Rises new) }
    ensures newest { IfOk result (λ new. HasNewer row.now (λ tag. newest_of tag (assertion.now ∷ [])) new) }
{
    if is_newer(assertion.get(), find(row, assertion.get().tag.bytes())) {
        put(alloc, row, assertion)
    } else {
        row.again()
    }
}

/// Puts each assertion of a group into a row, where it is newer than the one of its tag. `Memory` is the only error.
pub(crate) fn folded(alloc: Global, row: &Row, group: &[Shared]) -> Result<Row, Memory>
    requires { Rises row.now }
    ensures rises { IfOk result (λ list. Rises list) }
    ensures newest { IfOk result (λ list. HasNewer row.now (λ tag. newest_of tag group.now) list) }
{
    let mut new = row.again()?;
    for assertion in group {
        new = put_newer(alloc, &new, assertion)?;
    }
    Ok(new)
}
