//! Makes posts of a forum. Each ten in a row are a thread, in which each answers the one before.
ghost use Rattle.std.specs.Prelude.{◌≡◌, ◌%◌, ◌≤◌, ◌<◌, IfOk, IsTrue, length};
ghost use Rattle.fsl_forms.specs.WellFormed.{is_forum_well_formed};
ghost use Rattle.fsl_gen.specs.Table.{name_among, placed_at, post_at};

use crate::by_number::{date_of, numbered, user_of};
use fsl_forms::Forum;
use fsl_name::Name;
use fsl_text::{Memory, Text};
use std::alloc::Global;

/// Makes the post of a number from the names of all artifacts before it. `Memory` is the only error.
pub fn post(alloc: Global, number: u64, names: &[Name]) -> Result<Forum, Memory>
    requires few { number < 100_000 }
    requires fourth { number % 4 ≡ 3 }
    requires before { number ≤ length names.now }
    ensures value { IfOk result (λ post. post ≡ post_at (name_among names.now) number) }
    ensures written { IfOk result (λ post. IsTrue (is_forum_well_formed post)) }
{
    if number % 40 == 3 {
        let title = numbered(alloc, b"thread ", number / 40)?;
        return placed(alloc, number, None, Some(title), None);
    }
    let root = names[(number / 40 * 40 + 3) as usize];
    let reply = names[(number - 4) as usize];
    placed(alloc, number, Some(root), None, Some(reply))
}

/// Makes the post of a number at a place: the root of its thread, its title, and the post that it answers.
fn placed(
    alloc: Global,
    number: u64,
    root: Option<Name>,
    title: Option<Text>,
    reply: Option<Name>,
) -> Result<Forum, Memory>
    requires few { number < 100_000 }
    ensures { IfOk result (λ post. post ≡ placed_at root title reply number) }
{
    Ok(Forum {
        date: date_of(number),
        root,
        title,
        reply,
        mime: None,
        prior: None,
        user: user_of(alloc, number)?,
        text: numbered(alloc, b"post ", number)?,
    })
}
