//! Times of day.
ghost use Rattle.std.specs.Prelude.{◌≡◌, ◌<◌, IsTrue, IfSome, if◌then◌else◌, Some, None};
ghost use Rattle.fsl_date.specs.Moment.{has_date_shape, civil_in};
ghost use Rattle.fsl_date.specs.Parts.{is_time, time_ms};

use crate::digits::number;

/// The numbers of a time of day, which the clock may not have.
#[derive(Clone, Copy)]
pub(crate) struct Time {
    pub hour: u16,
    pub minute: u16,
    pub second: u16,
    pub milli: u16,
}

/// Reads the milliseconds in the text of a date, or 0 if it has none.
fn milli(text: &[u8]) -> u16
    requires { IsTrue (has_date_shape text.now) }
    ensures { result ≡ (civil_in text.now).milli }
{
    if text.len() == 23 {
        number(&text[20..23])
    } else {
        0
    }
}

impl Time {
    /// Reads the numbers of the time of day in the text of a date, which may have no milliseconds.
    pub(crate) fn read(text: &[u8]) -> Time
        requires { IsTrue (has_date_shape text.now) }
        ensures hour { result.hour ≡ (civil_in text.now).hour }
        ensures minute { result.minute ≡ (civil_in text.now).minute }
        ensures second { result.second ≡ (civil_in text.now).second }
        ensures milli { result.milli ≡ (civil_in text.now).milli }
    {
        Time {
            hour: number(&text[11..13]),
            minute: number(&text[14..16]),
            second: number(&text[17..19]),
            milli: milli(text),
        }
    }

    /// Returns the milliseconds since midnight, if the clock has this time.
    pub(crate) fn ms(self) -> Option<u64>
        ensures value { result ≡ (if is_time self.hour self.minute self.second self.milli then Some (time_ms self.hour self.minute self.second self.milli) else None) }
        ensures bound { IfSome result (λ ms. ms < 86_400_000) }
    {
        if self.hour > 23 || self.minute > 59 || self.second > 59 || self.milli > 999 {
            return None;
        }
        let minutes = u64::from(self.hour) * 60 + u64::from(self.minute);
        let seconds = minutes * 60 + u64::from(self.second);
        Some(seconds * 1000 + u64::from(self.milli))
    }

    /// Returns the time of day that comes so many milliseconds after midnight.
    pub(crate) fn of_ms(ms: u64) -> Time
        requires { ms < 86_400_000 }
        ensures civil { IsTrue (is_time result.hour result.minute result.second result.milli) }
        ensures value { time_ms result.hour result.minute result.second result.milli ≡ ms }
    {
        Time {
            hour: (ms / 3_600_000) as u16,
            minute: (ms / 60_000 % 60) as u16,
            second: (ms / 1000 % 60) as u16,
            milli: (ms % 1000) as u16,
        }
    }
}
