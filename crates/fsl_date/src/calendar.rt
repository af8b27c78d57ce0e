//! Counts the days of the calendar.
ghost use Rattle.std.specs.Prelude.{◌≡◌, ◌<◌, ◌≤◌, IsTrue, IfSome, if◌then◌else◌, Some, None};
ghost use Rattle.fsl_date.specs.Calendar.{day_number};
ghost use Rattle.fsl_date.specs.Moment.{has_date_shape, civil_in};
ghost use Rattle.fsl_date.specs.Parts.{is_day};

use crate::digits::number;
use jiff_core::civil::Date;

/// The days from 1 January of the year 0 to 1 January 1970.
const DAYS_BEFORE_1970: i64 = 719_528;

/// A year, a month and a day, which the calendar may not have.
#[derive(Clone, Copy)]
pub(crate) struct Day {
    pub year: u16,
    pub month: u16,
    pub day: u16,
}

impl Day {
    /// Reads the numbers of the day in the text of a date.
    pub(crate) fn read(text: &[u8]) -> Day
        requires { IsTrue (has_date_shape text.now) }
        ensures year { result.year ≡ (civil_in text.now).year }
        ensures month { result.month ≡ (civil_in text.now).month }
        ensures day { result.day ≡ (civil_in text.now).day }
        ensures year_digits { result.year ≤ 9999 }
        ensures month_digits { result.month ≤ 99 }
        ensures day_digits { result.day ≤ 99 }
    {
        Day {
            year: number(&text[0..4]),
            month: number(&text[5..7]),
            day: number(&text[8..10]),
        }
    }

    /// Returns the days from 1 January of the year 0 to this one, if the calendar has it.
    pub(crate) fn number(self) -> Option<u64>
        requires year { self.year ≤ 9999 }
        requires month { self.month ≤ 99 }
        requires day { self.day ≤ 99 }
        ensures value { result ≡ (if is_day self.year self.month self.day then Some (day_number self.year self.month self.day) else None) }
        ensures bound { IfSome result (λ n. n < 3_652_425) }
    {
        let date = Date::new(self.year as i16, self.month as i8, self.day as i8).ok()?;
        Some((i64::from(date.to_unix_epoch_day()) + DAYS_BEFORE_1970) as u64)
    }

    /// Returns the day that comes so many days after 1 January of the year 0.
    pub(crate) fn of_number(number: u64) -> Day
        requires { number < 3_652_425 }
        ensures civil { IsTrue (is_day result.year result.month result.day) }
        ensures value { day_number result.year result.month result.day ≡ number }
    {
        let date = Date::from_unix_epoch_day(number as i64 - DAYS_BEFORE_1970).unwrap();
        Day {
            year: date.year as u16,
            month: u16::from(date.month),
            day: u16::from(date.day),
        }
    }
}
