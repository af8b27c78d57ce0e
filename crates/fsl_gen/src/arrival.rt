//! Makes all artifacts in their order.
ghost use Rattle.std.specs.Prelude.{◌≡◌, ◌≤◌, IfOk};
ghost use Rattle.fsl_gen.specs.Arrival.{generated};

use crate::text::artifact;
use fsl_name::Name;
use fsl_text::{List, Memory, Text};
use std::alloc::Global;

/// Makes the texts of the artifacts with the numbers below `count`, which is 1 to 100,000. Those with an odd number come first,
/// from the greatest to the least, and then those with an even one, from the least to the greatest. With `reversed` the list runs
/// from its end. Takes time and memory linear in the count. `Memory` is the only error.
/// FORMATS: Generated artifacts
pub fn artifacts(alloc: Global, count: u64, reversed: bool) -> Result<List<Text>, Memory>
    requires some { 1 ≤ count }
    requires few { count ≤ 100_000 }
    ensures { IfOk result (λ texts. texts ≡ generated count reversed) }
{
    let mut names: Vec<Name> = Vec::new(alloc);
    let mut texts: Vec<Text> = Vec::new(alloc);
    let mut even: Vec<Text> = Vec::new(alloc);
    for number in 0..count {
        let text = artifact(alloc, number, &names)?;
        names.push(Name::of(text.bytes()))?;
        if number % 2 == 1 {
            texts.push(text)?;
        } else {
            even.push(text)?;
        }
    }
    texts.reverse();
    texts.append(&mut even)?;
    if reversed {
        texts.reverse();
    }
    Ok(List::from_vec(texts))
}
