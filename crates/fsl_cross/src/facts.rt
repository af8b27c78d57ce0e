//! Makes the facts that artifacts give to the tables, one module a table.
ghost use Rattle.std.specs.Prelude.{◌≡◌, ◌++◌, [], OnOk, option_to_list, unwrap_or};

pub(crate) mod clusters;
pub(crate) mod files;
pub(crate) mod forum;
pub(crate) mod leaves;
pub(crate) mod links;
pub(crate) mod pages;
pub(crate) mod tags;
pub(crate) mod tickets;

use fsl_text::{Memory, Text};

/// Puts a fact at the end, where there is one. `Memory` is the only error.
pub(crate) fn append<F: Drop>(facts: &mut Vec<F>, fact: Option<F>) -> Result<(), Memory>
    ensures { OnOk result (facts.new.items ≡ facts.old.items ++ option_to_list fact) }
{
    if let Some(fact) = fact {
        facts.push(fact)?;
    }
    Ok(())
}

/// The bytes of a text, none where it is missing.
pub(crate) fn given(text: &Option<Text>) -> &[u8]
    ensures { result.now ≡ unwrap_or text.now [] }
{
    match text {
        Some(text) => text.bytes(),
        None => &[],
    }
}
