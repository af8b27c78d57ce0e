//! A clock of std that the test sets.
use std::cell::Cell;
use std::io;
use std::time::{Clock, Duration};

/// A clock that shows the milliseconds of a cell.
#[derive(Clone, Copy, Drop)]
pub struct Hand<'a>(pub &'a Cell<u64>);

impl<'a> Clock for Hand<'a> {
    fn monotonic(&self) -> io::Result<Duration> {
        Ok(Duration::from_millis(self.0.get()))
    }

    fn since_1970(&self) -> io::Result<Duration> {
        Ok(Duration::from_millis(self.0.get()))
    }
}
