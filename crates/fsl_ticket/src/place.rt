//! Orders the changes of a ticket, the newest first.
ghost use Rattle.std.specs.Prelude.{◌≡◌, refl};
ghost use Rattle.std.specs.Cmp.{partial_order_from_total, partial_equiv_from_equiv, eq_by_cmp_equiv};
ghost use Rattle.std.specs.Ordering.{eq_by_cmp, as_partial_cmp};
ghost use Rattle.fsl_ticket.specs.Newest.{newest_cmp};
ghost use Rattle.fsl_ticket.specs.NewestOrder.{newest_cmp-IsTotalOrder, newest_cmp-IsAntisymmetric};

use fsl_date::Moment;
use fsl_name::Name;
use fsl_table::Key;
use std::cmp::Ordering;
use std::marker::Model;

/// A date and a name, ordered by date, and at one date by name, the newest first. Contracts see it as their pair.
#[derive(Clone, Copy)]
pub struct Place {
    date: Moment,
    name: Name,
}

impl Model for Place {
    ghost use Rattle.std.specs.Prelude.{List, ℕ};

    ghost Value = { ℕ × List ℕ };

    ghost view = { λ p. (p.date, p.name) };

    ghost inverse = { λ p. record { date = p.0; name = p.1 } };
}

impl Place {
    /// Makes the place of a date and a name.
    pub fn new(date: Moment, name: Name) -> Place
        ensures { result ≡ (date, name) }
    {
        Place { date, name }
    }

    /// Returns the name.
    pub fn name(&self) -> Name
        ensures { result ≡ self.now.1 }
    {
        self.name
    }
}

impl PartialEq for Place {
    ghost eq = { eq_by_cmp newest_cmp };

    ghost laws = { partial_equiv_from_equiv (eq_by_cmp_equiv newest_cmp-IsTotalOrder) };

    fn eq(&self, other: &Place) -> bool {
        self.cmp(other).is_eq()
    }
}

impl Eq for Place {
    ghost laws = { eq_by_cmp_equiv newest_cmp-IsTotalOrder };
}

impl PartialOrd for Place {
    ghost partial_cmp = { as_partial_cmp newest_cmp };

    ghost laws = { partial_order_from_total newest_cmp-IsTotalOrder };

    fn partial_cmp(&self, other: &Place) -> Option<Ordering> {
        Some(self.cmp(other))
    }
}

impl Ord for Place {
    ghost cmp = { newest_cmp };

    ghost total = { newest_cmp-IsTotalOrder };

    ghost matches_partial_cmp = { λ x y. refl };

    ghost matches_eq = { λ x y. refl };

    fn cmp(&self, other: &Place) -> Ordering {
        other.date.cmp(&self.date).then(other.name.cmp(&self.name))
    }
}

impl Key for Place {
    ghost exact = { newest_cmp-IsAntisymmetric };
}
