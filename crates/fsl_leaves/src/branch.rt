//! The name of a branch, kept once for a check-in and for each of its keys.
ghost use Rattle.std.specs.Prelude.{◌≡◌, ◌==◌, IfOk};
ghost use Rattle.std.proofs.Common.{rules};
ghost use Rattle.std.specs.Cmp.{partial_order_from_own_ties};
ghost use Rattle.std.specs.Cmp.Lexicographic.{slice_cmp, pointwise};
ghost use Rattle.std.specs.Cmp.Rules.{comparing};
ghost use Rattle.std.specs.Ordering.{nat_cmp, as_partial_cmp};

use fsl_text::{Memory, Text};
use std::alloc::Global;
use std::cmp::Ordering;
use std::marker::Model;
use std::sync::Arc;

/// The name of a branch. Contracts see it as its bytes.
#[derive(Drop)]
pub struct Branch {
    text: Arc<Text>,
}

impl Model for Branch {
    ghost use Rattle.std.specs.Prelude.{List, ℕ};

    ghost Value = { List ℕ };

    ghost view = { λ b. b.text.value };
}

impl Branch {
    /// Makes the name of a branch of a text, which is moved. `Memory` is the only error.
    pub fn new(alloc: Global, text: Text) -> Result<Branch, Memory>
        ensures { IfOk result (λ branch. branch ≡ text) }
    {
        match Arc::new(alloc, text) {
            Ok(text) => Ok(Branch { text }),
            Err(_) => Err(Memory),
        }
    }

    /// Returns a second value of the name of a branch. `Memory` is the only error.
    pub fn again(&self) -> Result<Branch, Memory>
        ensures { IfOk result (λ branch. branch ≡ self.now) }
    {
        match Arc::try_clone(&self.text) {
            Ok(text) => Ok(Branch { text }),
            Err(_) => Err(Memory),
        }
    }

    /// Returns the name.
    pub fn text(&self) -> &Text
        ensures { result.now ≡ self.now }
    {
        &self.text
    }
}

impl PartialEq for Branch {
    ghost eq = { pointwise ◌==◌ };

    ghost laws = { Prim.search (comparing, rules) };

    fn eq(&self, other: &Branch) -> bool {
        self.text().bytes() == other.text().bytes()
    }
}

impl Eq for Branch {
    ghost laws = { Prim.search (comparing, rules) };
}

impl PartialOrd for Branch {
    ghost partial_cmp = { as_partial_cmp (slice_cmp nat_cmp) };

    ghost laws = { partial_order_from_own_ties (Prim.search (comparing, rules)) (Prim.search (comparing, rules)) };

    fn partial_cmp(&self, other: &Branch) -> Option<Ordering> {
        Some(self.cmp(other))
    }
}

impl Ord for Branch {
    ghost cmp = { slice_cmp nat_cmp };

    ghost total = { Prim.search (comparing, rules) };

    ghost matches_partial_cmp = { Prim.search (comparing, rules) };

    ghost matches_eq = { Prim.search (comparing, rules) };

    fn cmp(&self, other: &Branch) -> Ordering {
        self.text().cmp(other.text())
    }
}
