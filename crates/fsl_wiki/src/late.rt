//! Orders facts, the latest one first.
ghost use Rattle.std.specs.Prelude.{◌≡◌, refl};
ghost use Rattle.std.specs.Cmp.{partial_order_from_total, partial_equiv_from_equiv, eq_by_cmp_equiv};
ghost use Rattle.std.specs.Ordering.{eq_by_cmp, as_partial_cmp};
ghost use Rattle.fsl_wiki.specs.Late.{late_cmp, late_cmp-IsTotalOrder, late_cmp-exact};

use fsl_date::Moment;
use fsl_name::Name;
use fsl_table::Key;
use std::cmp::Ordering;
use std::marker::Model;

/// A date and a name, ordered by the latest date first, and at one date by the greatest name first. Contracts see it as their pair.
#[derive(Clone, Copy)]
pub struct Late {
    date: Moment,
    name: Name,
}

impl Model for Late {
    ghost use Rattle.std.specs.Prelude.{List, ℕ};

    ghost Value = { ℕ × List ℕ };

    ghost view = { λ p. (p.date, p.name) };

    ghost inverse = { λ p. record { date = p.0; name = p.1 } };
}

impl Late {
    /// Makes the place of a date and a name.
    pub fn new(date: Moment, name: Name) -> Late
        ensures { result ≡ (date, name) }
    {
        Late { date, name }
    }

    /// Returns the name.
    pub fn name(&self) -> Name
        ensures { result ≡ self.now.1 }
    {
        self.name
    }
}

impl PartialEq for Late {
    ghost eq = { eq_by_cmp late_cmp };

    ghost laws = { partial_equiv_from_equiv (eq_by_cmp_equiv late_cmp-IsTotalOrder) };

    fn eq(&self, other: &Late) -> bool {
        self.cmp(other).is_eq()
    }
}

impl Eq for Late {
    ghost laws = { eq_by_cmp_equiv late_cmp-IsTotalOrder };
}

impl PartialOrd for Late {
    ghost partial_cmp = { as_partial_cmp late_cmp };

    ghost laws = { partial_order_from_total late_cmp-IsTotalOrder };

    fn partial_cmp(&self, other: &Late) -> Option<Ordering> {
        Some(self.cmp(other))
    }
}

impl Ord for Late {
    ghost cmp = { late_cmp };

    ghost total = { late_cmp-IsTotalOrder };

    ghost matches_partial_cmp = { λ x y. refl };

    ghost matches_eq = { λ x y. refl };

    fn cmp(&self, other: &Late) -> Ordering {
        other.date.cmp(&self.date).then(other.name.cmp(&self.name))
    }
}

impl Key for Late {
    ghost exact = { late_cmp-exact };
}
