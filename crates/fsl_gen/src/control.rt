//! Makes control artifacts, each of which marks the check-in before it.
ghost use Rattle.std.specs.Prelude.{◌≡◌, ◌%◌, ◌≤◌, ◌<◌, IfOk, IsTrue, length};
ghost use Rattle.fsl_forms.specs.WellFormed.{is_control_well_formed};
ghost use Rattle.fsl_gen.specs.Table.{control_at, mark, name_among};

use crate::by_number::{date_of, user_of};
use fsl_forms::Control;
use fsl_grammar::{Prefix, TagCard};
use fsl_name::{Name, Ref};
use fsl_text::{List, Memory, Text};
use std::alloc::Global;

/// Makes the control artifact of a number from the names of all artifacts before it. `Memory` is the only error.
pub fn control(alloc: Global, number: u64, names: &[Name]) -> Result<Control, Memory>
    requires few { number < 100_000 }
    requires some { 1 ≤ number }
    requires before { number ≤ length names.now }
    ensures value { IfOk result (λ control. control ≡ control_at (name_among names.now) number) }
    ensures written { IfOk result (λ control. IsTrue (is_control_well_formed control)) }
{
    let mut tags = List::new(alloc);
    tags.append(mark(alloc, names[(number - 1) as usize])?)?;
    Ok(Control {
        date: date_of(number),
        tags,
        user: user_of(alloc, number)?,
    })
}

/// Makes the tag that marks an artifact.
fn mark(alloc: Global, target: Name) -> Result<TagCard, Memory>
    ensures { IfOk result (λ tag. tag ≡ mark target) }
{
    Ok(TagCard {
        prefix: Prefix::Once,
        tag: Text::of(alloc, b"mark")?,
        target: Some(Ref::Own(target)),
        value: None,
    })
}
