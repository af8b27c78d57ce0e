// A door that counts how often it lets go a connection that it has answered.
use fsl_outside::{Accepted, Door, Failed, Link};

/// Another door, whether its connection took bytes yet, and how often one was let go that had: a worker that lets go before it
/// answers isn't counted.
#[derive(Drop)]
pub struct CountingDoor<D> {
    pub door: D,
    pub wrote: bool,
    pub left: u64,
}

impl<D: Link> Link for CountingDoor<D> {
    ghost state = { λ d. D.state d.door };

    fn faults(&self) -> u64 {
        self.door.faults()
    }

    fn read(&mut self, into: &mut [u8]) -> Result<usize, Failed> {
        self.door.read(into)
    }

    fn write(&mut self, piece: &[u8]) -> Result<usize, Failed> {
        self.wrote = true;
        self.door.write(piece)
    }
}

impl<D: Door> Door for CountingDoor<D> {
    fn accept_faults(&self) -> u64 {
        self.door.accept_faults()
    }

    fn closings(&self) -> u64 {
        self.door.closings()
    }

    fn accept(&mut self) -> Result<Accepted, Failed> {
        self.wrote = false;
        self.door.accept()
    }

    fn leave(&mut self) {
        if self.wrote {
            self.left = self.left.saturating_add(1);
        }
        self.door.leave();
    }
}
