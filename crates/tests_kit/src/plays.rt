//! Tables that facts come into, with a counter of steps, and what they show.
ghost use Rattle.std.specs.Prelude.{◌≡◌, ◌<◌};

use fsl_text::{Memory, Steps, Text};
use std::alloc::Global;
use std::marker::Brand;
use std::sync::ledger::{Blank, Ledger};

/// A table, what comes into it, and what it shows.
pub trait Play {
    /// Takes the facts in and adds what the table shows. `Memory` is the only error.
    fn play<L: Ledger>(
        &self,
        alloc: Global,
        into: &mut Text,
        steps: &mut Steps<L>,
    ) -> Result<(), Memory>;
}

fn play_counted<P: Play, L: Ledger>(
    play: &P,
    alloc: Global,
    into: &mut Text,
    blank: Blank,
) -> Result<(), Memory>
    requires name { blank.name ≡ L.name }
    requires parts { blank.parts ≡ L.parts }
    requires counts { 0 < L.parts }
{
    let mut steps: Steps<L> = Steps::new(blank);
    play.play(alloc, into, &mut steps)
}

/// What a table shows. `Memory` is the only error.
pub fn shown<P: Play>(alloc: Global, play: &P) -> Result<Text, Memory> {
    let mut into = Text::empty(alloc);
    play_counted::<P, Brand>(play, alloc, &mut into, Blank::new(1))?;
    Ok(into)
}
