//! What connections have to take.
use crate::compare::compare;
use crate::stop::Trouble;
use fsl_outside::{MemoryDial, MemoryDoor};
use fsl_text::Text;
use std::alloc::Global;

/// What keeps the bytes that its connections took.
pub trait Kept {
    /// The bytes that a connection took, counted from 0, or `None` where there was none.
    fn taken(&self, connection: u64) -> Option<&[u8]>;
}

impl Kept for MemoryDoor {
    fn taken(&self, connection: u64) -> Option<&[u8]> {
        self.sent(connection)
    }
}

impl Kept for MemoryDial {
    fn taken(&self, connection: u64) -> Option<&[u8]> {
        self.sent(connection)
    }
}

/// What a connection has to take: a text, or a front of it.
#[derive(Drop)]
struct Wanted {
    text: Text,
    is_front: bool,
}

impl Wanted {
    /// Compares what a connection took with it.
    fn compare(&self, alloc: Global, taken: &[u8]) -> Result<(), Trouble> {
        let wanted = self.text.bytes();
        if self.is_front && wanted.starts_with(taken) {
            return Ok(());
        }
        compare(alloc, wanted, taken)
    }
}

/// What each connection has to take, from the first one on.
#[derive(Drop)]
pub struct Takings {
    alloc: Global,
    wanted: Vec<Wanted>,
}

impl Takings {
    /// There must be no connection.
    pub fn new(alloc: Global) -> Takings {
        Takings {
            alloc,
            wanted: Vec::new(alloc),
        }
    }

    /// Begins the text of the next connection, which has to take all of it, or a front.
    pub fn begin(&mut self, is_front: bool) -> Result<(), Trouble> {
        self.wanted.push(Wanted {
            text: Text::empty(self.alloc),
            is_front,
        })?;
        Ok(())
    }

    /// Adds to the last text.
    pub fn want(&mut self, bytes: &[u8]) -> Result<(), Trouble> {
        match self.wanted.last_mut() {
            Some(wanted) => Ok(wanted.text.append(bytes)?),
            None => Err(Trouble::Unknown),
        }
    }

    /// Compares what each connection took. Each one that was there has its text.
    pub fn compare<T: Kept>(&self, kept: &T) -> Result<(), Trouble> {
        let mut number = 0u64;
        for wanted in &self.wanted {
            let taken = kept.taken(number).unwrap_or(b"no connection");
            wanted.compare(self.alloc, taken)?;
            number = number.saturating_add(1);
        }
        match kept.taken(number) {
            Some(taken) => compare(self.alloc, b"no connection", taken),
            None => Ok(()),
        }
    }
}
