//! Orders the rows of the timeline.
ghost use Rattle.std.specs.Prelude.{◌≡◌, refl};
ghost use Rattle.std.specs.Cmp.{partial_order_from_total, partial_equiv_from_equiv, eq_by_cmp_equiv};
ghost use Rattle.std.specs.Ordering.{eq_by_cmp, as_partial_cmp};
ghost use Rattle.fsl_order.specs.Names.{latest_first};
ghost use Rattle.fsl_order.proofs.Orders.{latest_first-IsTotalOrder, latest_first-IsAntisymmetric};

use fsl_date::Moment;
use fsl_name::Name;
use fsl_table::Key;
use std::cmp::Ordering;
use std::marker::Model;

/// A time and a name, ordered by the latest time first, and at one time by rising name. Contracts see it as their pair.
#[derive(Drop)]
pub struct Place {
    time: Moment,
    name: Name,
}

impl Model for Place {
    ghost use Rattle.std.specs.Prelude.{List, ℕ};

    ghost Value = { ℕ × List ℕ };

    ghost view = { λ p. (p.time, p.name) };
}

impl Place {
    /// Makes the place of a time and a name.
    pub fn new(time: Moment, name: Name) -> Place
        ensures { result ≡ (time, name) }
    {
        Place { time, name }
    }

    /// Returns the name.
    pub fn name(&self) -> Name
        ensures { result ≡ self.now.1 }
    {
        self.name
    }
}

impl PartialEq for Place {
    ghost eq = { eq_by_cmp latest_first };

    ghost laws = { partial_equiv_from_equiv (eq_by_cmp_equiv latest_first-IsTotalOrder) };

    fn eq(&self, other: &Place) -> bool {
        self.cmp(other).is_eq()
    }
}

impl Eq for Place {
    ghost laws = { eq_by_cmp_equiv latest_first-IsTotalOrder };
}

impl PartialOrd for Place {
    ghost partial_cmp = { as_partial_cmp latest_first };

    ghost laws = { partial_order_from_total latest_first-IsTotalOrder };

    fn partial_cmp(&self, other: &Place) -> Option<Ordering> {
        Some(self.cmp(other))
    }
}

impl Ord for Place {
    ghost cmp = { latest_first };

    ghost total = { latest_first-IsTotalOrder };

    ghost matches_partial_cmp = { λ x y. refl };

    ghost matches_eq = { λ x y. refl };

    fn cmp(&self, other: &Place) -> Ordering {
        other.time.cmp(&self.time).then(self.name.cmp(&other.name))
    }
}

impl Key for Place {
    ghost exact = { latest_first-IsAntisymmetric };
}
