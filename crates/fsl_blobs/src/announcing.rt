//! Announces names.
ghost use Rattle.std.specs.Prelude.{◌≡◌, ℕ, List, true, IfOk, OnErr};
ghost use Rattle.std.specs.FinSet as set;
ghost use Rattle.fsl_blobs.specs.Fold.{contents, is_new};
ghost use Rattle.fsl_blobs.specs.Seen.{known_of, announced_after};
ghost use Rattle.fsl_blobs.specs.declared.Known.TheVariants.{New as NewName};

use crate::{Blobs, Known};
use fsl_name::Name;
use fsl_text::Memory;

/// The most names that may be announced.
const MOST_ANNOUNCED: usize = 65_536;

impl Blobs {
    /// Announces a name, unless it is held, shunned, announced already or one too many. The first of these that holds is the
    /// answer, and then everything stays as it was.
    ///
    /// `Memory` is the only error. It comes in place of `New` alone, and then too everything stays as it was.
    pub fn announce(&mut self, name: Name) -> Result<Known, Memory>
        ensures known { IfOk result (λ known. known ≡ known_of self.old name) }
        ensures value { IfOk result (λ known. self.new ≡ announced_after self.old name known) }
        ensures err { OnErr result (self.new ≡ self.old) }
        ensures memory { OnErr result (known_of self.old name ≡ NewName) }
    {
        if self.held.contains_key(&name) {
            return Ok(Known::Held);
        }
        if self.shunned.contains(&name) {
            return Ok(Known::Shunned);
        }
        if self.announced.contains(&name) {
            return Ok(Known::Again);
        }
        if self.announced.len() >= MOST_ANNOUNCED {
            return Ok(Known::Full);
        }
        self.announced.insert(name)?;
        Ok(Known::New)
    }

    /// Says that announced names are neither held nor shunned. This call only proves it to its caller, and does nothing.
    pub fn announced_are_new(&self)
        ensures { (name : List ℕ) → set.contains self.now.announced name ≡ true → is_new (contents self.now.records) name ≡ true }
    {
        let _ = &self.announced;
    }
}
