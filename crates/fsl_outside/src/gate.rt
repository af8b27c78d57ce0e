//! Points of a session at which something from outside may hold it up.
ghost use Rattle.std.specs.Prelude.{◌≡◌, ◌∷◌, ◌++◌, [], None, option_map};

/// A point of a session.
#[derive(Clone, Copy, Debug, PartialEq, Eq)]
pub enum Point {
    /// Its arrivals are in, and its reply isn't made yet.
    Arrived,
    /// Its reply was written.
    Answered,
}

/// Lets a session pass each of its points. It changes nothing of the repository.
pub trait Gate {
    ghost use Rattle.std.specs.Prelude.{ℕ, List, Option};
    ghost use Rattle.fsl_outside.specs.declared.gate.Point.{Point};

    /// The points that were passed, in their order, each with the number of its session, if the gate records them.
    ghost passed: { Self → Option (List (ℕ × Point)) };

    /// Passes a point of this session. It may take its time.
    fn pass(&mut self, session: u64, point: Point)
        ensures { passed self.new ≡ option_map (λ points. points ++ (session, point) ∷ []) (passed self.old) };
}

/// The gate of the program. It holds nothing up and records nothing.
#[derive(Clone, Copy, Debug, Drop)]
pub struct NoGate;

impl Gate for NoGate {
    ghost use Rattle.std.specs.Prelude.{None};

    ghost passed = { λ _. None };

    fn pass(&mut self, _session: u64, _point: Point) {}
}
