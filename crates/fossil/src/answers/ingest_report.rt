//! Prints the report on a set of artifacts.
ghost use Rattle.std.specs.Prelude.{◌≡◌, ◌++◌, flat_map, OnOk, IfOk};
ghost use Rattle.fossil.specs.Printed.{name_line};
ghost use Rattle.fossil.specs.Taking as taking;

use fsl_cluster::{Fact, missing, unclustered};
use fsl_name::Name;
use fsl_text::{Memory, Text};
use std::alloc::Global;

/// Puts a line of a word and a name at the end of a text. `Memory` is the only error.
pub fn add_line(text: &mut Text, word: &[u8], name: &Name) -> Result<(), Memory>
    ensures { OnOk result (text.new ≡ text.old ++ name_line word.now name.now) }
{
    text.append(word)?;
    text.append(b" ")?;
    text.append(name.text().as_slice())?;
    text.append(b"\n")
}

fn add_lines(text: &mut Text, word: &[u8], names: &[Name]) -> Result<(), Memory>
    ensures { OnOk result (text.new ≡ text.old ++ flat_map (name_line word.now) names.now) }
{
    for name in names {
        add_line(text, word, name)?;
    }
    Ok(())
}

/// Prints the unclustered names of a set of artifacts, and then the wanted ones, both ascending, each on a line. The set
/// is given by its facts, in any order. `Memory` is the only error.
pub fn report_of(alloc: Global, facts: &[Fact]) -> Result<Text, Memory>
    ensures { IfOk result (λ text. text ≡ taking.report_of facts.now) }
{
    let unclustered = unclustered(alloc, facts)?;
    let missing = missing(alloc, facts)?;
    let mut text = Text::empty(alloc);
    add_lines(&mut text, b"unclustered", unclustered.items())?;
    add_lines(&mut text, b"wanted", missing.items())?;
    Ok(text)
}
