//! The clock of the system, over one of std that the test sets.
use fsl_outside::{Clock, StdClock};
use std::io::ErrorKind;
use std::test::Fail;
use std::time::Duration;
use std::{io, time};

/// The last millisecond of the year 9999, from 1970.
const LAST_MS: i64 = 253_402_300_799_999;

/// A clock of std that shows this, or fails.
#[derive(Clone, Copy, Drop)]
struct Shown(Option<Duration>);

impl Shown {
    fn show(&self) -> io::Result<Duration> {
        match self.0 {
            Some(time) => Ok(time),
            None => Err(io::Error::from(ErrorKind::Other)),
        }
    }
}

impl time::Clock for Shown {
    fn monotonic(&self) -> io::Result<Duration> {
        self.show()
    }

    fn since_1970(&self) -> io::Result<Duration> {
        self.show()
    }
}

/// The milliseconds since 1970 that the clock of the system answers over that one.
fn answered(shown: Option<Duration>) -> i64 {
    StdClock::new(Shown(shown)).now().ms()
}

/// A moment is that of the clock, without the part of its last millisecond.
#[test]
fn a_clock_answers_what_is_shown(rt: HostRuntime) -> Result<(), Fail> {
    let begun = answered(Some(Duration::from_nanos(1_999_999)));
    let later = answered(Some(Duration::from_millis(1_700_000_000_123)));
    assert_eq!(rt; [begun, later], [1, 1_700_000_000_123]);
    Ok(())
}

/// One that can't be read stands at 1970.
#[test]
fn a_clock_that_fails_stands_at_1970(rt: HostRuntime) -> Result<(), Fail> {
    assert_eq!(rt; answered(None), 0);
    Ok(())
}

/// The last moment is that of the year 9999, and stays behind it.
#[test]
fn a_clock_stands_at_the_last_moment(rt: HostRuntime) -> Result<(), Fail> {
    let last = answered(Some(Duration::from_millis(253_402_300_799_999)));
    let behind = answered(Some(Duration::from_millis(253_402_300_800_000)));
    let far = answered(Some(Duration::from_secs(u64::MAX)));
    assert_eq!(rt; [last, behind, far], [LAST_MS; 3]);
    Ok(())
}
