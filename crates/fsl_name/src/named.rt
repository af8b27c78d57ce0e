ghost use Rattle.std.specs.Prelude.{◌≡◌, List, ℕ, IfOk};

use super::Name;
use fsl_text::Memory;
use std::alloc::Global;

/// A row with a name, which can be copied. Contracts see the name through the ghost item `name`.
pub trait Named {
    ghost name: { Self → List ℕ };

    /// Returns the name of the row.
    fn name(&self) -> Name
        ensures { result ≡ name self.now };

    /// Copies the row. The copy has the same content. `Memory` is the only error.
    fn copied(&self, alloc: Global) -> Result<Self, Memory>
        ensures { IfOk result (λ copy. copy ≡ self.now) };
}
