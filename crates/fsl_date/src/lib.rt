//! Moments in milliseconds, and the texts of their dates. A date is written as `YYYY-MM-DDTHH:MM:SS.SSS`, in the Gregorian
//! calendar of the years 0000 to 9999 and without a zone. It is read in this form and in the one without milliseconds, and in no
//! other.
#![tactic(auto)]

ghost use Rattle.std.specs.Prelude.{◌≡◌, ◌++◌, ◌+ℤ◌, ◌≤ℤ◌, ◌<ℤ◌, ◌↔◌, ◌⊎◌, ℕ, pos, neg_ℤ, IsSome, IsNone, IfSome, Some, codes, length};
ghost use Rattle.fsl_date.specs.Moment.{date_in, moment_text, IsMoment, IsDateText};

mod calendar;
mod clock;
mod digits;
mod laws;

use calendar::Day;
use clock::Time;
use digits::{four, has_date_shape, three, two};
pub use laws::dates_have_one_text;
use std::marker::Model;

/// The milliseconds from the beginning of the year 0 to that of 1970.
const MS_BEFORE_1970: i64 = 62_167_219_200_000;

/// The last millisecond of the year 9999, from 1970.
const LAST_MS: i64 = 253_402_300_799_999;

/// The milliseconds of a day.
const MS_OF_DAY: u64 = 86_400_000;

/// A moment of the years 0 to 9999. Contracts see it as the milliseconds since 0000-01-01T00:00:00.000 in UTC.
#[derive(Clone, Copy, Debug, PartialEq, Eq, PartialOrd, Ord)]
pub struct Moment {
    since_year_zero: u64,
}

impl Model for Moment {
    ghost use Rattle.std.specs.Prelude.{ℕ};

    ghost Value = { ℕ };

    ghost use Rattle.fsl_date.specs.Moment.{IsMoment};

    ghost view = { λ a. a.since_year_zero };

    ghost invariant = { λ a. IsMoment a.since_year_zero };

    ghost inverse = { λ v. record { since_year_zero = v } };
}

impl Moment {
    /// Makes the moment that is `ms` milliseconds after 1970-01-01T00:00:00.000, or before it if `ms` is negative. Returns `None`
    /// if that is outside the years 0 to 9999.
    pub fn new(ms: i64) -> Option<Moment>
        ensures some { IfSome result (λ m. (ms +ℤ pos 62_167_219_200_000) ≡ pos m) }
        ensures inside { IsSome result ↔ ((neg_ℤ (pos 62_167_219_200_000) ≤ℤ ms) × (ms ≤ℤ pos 253_402_300_799_999)) }
        ensures none { IsNone result ↔ ((ms <ℤ neg_ℤ (pos 62_167_219_200_000)) ⊎ (pos 253_402_300_799_999 <ℤ ms)) }
        ensures moment { IfSome result IsMoment }
    {
        if ms < -MS_BEFORE_1970 || ms > LAST_MS {
            return None;
        }
        Some(Moment {
            since_year_zero: (ms + MS_BEFORE_1970) as u64,
        })
    }

    /// Returns the milliseconds since 1970-01-01T00:00:00.000.
    pub fn ms(&self) -> i64
        ensures value { result +ℤ pos 62_167_219_200_000 ≡ pos self.now }
        ensures moment { IsMoment self.now }
    {
        self.since_year_zero as i64 - MS_BEFORE_1970
    }

    /// Reads a date in one of its two forms, `YYYY-MM-DDTHH:MM:SS` or `YYYY-MM-DDTHH:MM:SS.SSS`. Returns `None` if the text has
    /// another form, or the calendar doesn't have the day, or the clock the time.
    /// FORMATS: Texts
    pub fn read(text: &[u8]) -> Option<Moment>
        ensures value { result ≡ date_in text.now }
        ensures moment { IfSome result IsMoment }
        ensures written { IfSome result (IsDateText text.now) }
        ensures only { (ms : ℕ) → IsDateText text.now ms → result ≡ Some ms }
        ensures seconds { length text.now ≡ 19 → result ≡ date_in (text.now ++ codes ".000") }
    {
        if !has_date_shape(text) {
            return None;
        }
        let day = Day::read(text).number()?;
        let time = Time::read(text).ms()?;
        Some(Moment {
            since_year_zero: day * MS_OF_DAY + time,
        })
    }

    /// Prints the moment as `YYYY-MM-DDTHH:MM:SS.SSS`.
    /// FORMATS: Texts
    pub fn text(&self) -> [u8; 23]
        ensures value { result ≡ moment_text self.now }
        ensures again { date_in result ≡ Some self.now }
        ensures moment { IsMoment self.now }
    {
        let day = Day::of_number(self.since_year_zero / MS_OF_DAY);
        let time = Time::of_ms(self.since_year_zero % MS_OF_DAY);
        let year = four(day.year);
        let month = two(day.month);
        let date = two(day.day);
        let hour = two(time.hour);
        let minute = two(time.minute);
        let second = two(time.second);
        let milli = three(time.milli);
        [
            year[0], year[1], year[2], year[3], b'-', month[0], month[1], b'-', date[0], date[1],
            b'T', hour[0], hour[1], b':', minute[0], minute[1], b':', second[0], second[1], b'.',
            milli[0], milli[1], milli[2],
        ]
    }
}
