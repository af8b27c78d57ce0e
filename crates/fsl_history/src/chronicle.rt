//! Names a history.
use std::marker::Brand;

/// Names one history: the table that keeps it, the state that it begins with, and how many passes it has.
pub trait Chronicle<M> {
    ghost use Rattle.std.specs.Prelude.{Option, ℕ};
    ghost use Rattle.atomic_table.specs.Seated.{TableId};

    ghost table: { TableId };

    ghost first: { Option M };

    ghost passes: { ℕ };
}

impl<M> Chronicle<M> for Brand {
    ghost use Rattle.std.specs.Prelude.{None};
    ghost use Rattle.fsl_history.specs.Entries.{no_table};

    ghost table = { no_table };

    ghost first = { None };

    ghost passes = { 0 };
}
