//! Clocks give moments: one is set, and one is the system's.
ghost use Rattle.std.specs.Prelude.{◌≡◌, ◌∷◌, [], None};
ghost use Rattle.std.specs.Duration.{as_nanos};
ghost use Rattle.fsl_date.specs.Moment.{IsMoment};
ghost use Rattle.fsl_outside.specs.Memory.{next};
ghost use Rattle.fsl_outside.specs.Clocks.{Asks, nearest};

use fsl_date::Moment;
use std::marker::Model;
use std::time;
use std::time::Duration;

/// The last millisecond of the year 9999, from 1970.
const LAST_MS: u128 = 253_402_300_799_999;

/// Gives the present moment.
pub trait Clock {
    ghost use Rattle.std.specs.Prelude.{ℕ, List, Option};

    /// The moments that the clock gave, in their order, as long as it records them.
    ghost told: { Self → Option (List ℕ) };

    /// Returns the present moment. As long as moments are recorded, this one becomes the last of them.
    fn now(&mut self) -> Moment
        ensures tells { Asks (told self.old) (told self.new) (result ∷ []) }
        ensures moment { IsMoment result };
}

/// A clock that gives the moment that it was set to. It counts its calls up to the last value of `u64`, and records its moments
/// until the count reaches that value.
#[derive(Debug, Drop)]
pub struct SetClock {
    moment: Moment,
    calls: u64,
}

impl Model for SetClock {
    ghost use Rattle.fsl_date.specs.Moment.{IsMoment};
    ghost use Rattle.fsl_outside.specs.Clocks.{Set};

    ghost Value = { Set };

    ghost view = { λ c. record { moment = c.moment; calls = c.calls } };

    ghost invariant = { λ c. IsMoment c.moment };
}

impl SetClock {
    /// Returns a clock that gives this moment at each call, and was never asked.
    pub fn new(moment: Moment) -> SetClock
        ensures { result ≡ record { moment = moment; calls = 0 } }
    {
        SetClock { moment, calls: 0 }
    }
}

impl Clock for SetClock {
    ghost use Rattle.fsl_outside.specs.Clocks.{set_told};

    ghost told = { λ c. set_told c };

    fn now(&mut self) -> Moment
        ensures tells { Asks (set_told self.old) (set_told self.new) (result ∷ []) }
        ensures moment { IsMoment result }
        ensures set { result ≡ self.old.moment }
        ensures counts { self.new ≡ record self.old { calls = next self.old.calls } }
    {
        self.calls = self.calls.saturating_add(1);
        self.moment
    }
}

/// The clock of the system. It records no moments. It gives the nearest moment of the years 0 to 9999.
#[derive(Drop)]
pub struct StdClock<R: time::Clock> {
    rt: R,
}

impl<R: time::Clock> StdClock<R> {
    /// Returns the clock of a runtime.
    pub fn new(rt: R) -> StdClock<R> {
        StdClock { rt }
    }
}

impl<R: time::Clock> Clock for StdClock<R> {
    ghost use Rattle.std.specs.Prelude.{None};

    ghost told = { λ _. None };

    /// Reads the system's clock. Std doesn't tell how long before 1970 a clock is. Such a clock counts as 1970, and so does one
    /// that can't be read.
    fn now(&mut self) -> Moment {
        moment_after(self.rt.since_1970().unwrap_or(Duration::ZERO))
    }
}

/// Returns the moment nearest to so long after 1970.
fn moment_after(time: Duration) -> Moment
    ensures near { result ≡ nearest (as_nanos time) }
    ensures moment { IsMoment result }
{
    let ms = time.as_millis().min(LAST_MS) as i64;
    Moment::new(ms).unwrap()
}
