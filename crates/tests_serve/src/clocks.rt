//! A clock that is set.
use fsl_date::Moment;
use fsl_outside::SetClock;

/// The milliseconds since 1970 at which it stands, on 2 January of that year.
pub(crate) const SET_MS: i64 = 86_400_001;

/// A clock that stands there.
pub(crate) fn set_clock() -> SetClock {
    SetClock::new(Moment::new(SET_MS).unwrap())
}
