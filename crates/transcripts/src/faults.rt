//! The calls of a step's objects that fail.
use crate::stop::Trouble;
use std::alloc::{AllocError, Global};

/// What fails.
#[derive(Clone, Copy, Drop)]
pub enum Device {
    /// The connections: their reads and writes, over all of them, and of a dial the beginnings too.
    Link,
    /// The accepts of the door.
    Accept,
    /// The users file.
    Users,
    /// The input.
    Input,
    /// The output.
    Output,
    /// The file of the repository, whose later calls fail too.
    Disk,
    /// The file of the peer, whose later calls fail too.
    Peer,
}

impl Device {
    /// The device of this name.
    pub fn named(name: &[u8]) -> Result<Device, Trouble> {
        match name {
            b"link" => Ok(Device::Link),
            b"accept" => Ok(Device::Accept),
            b"users" => Ok(Device::Users),
            b"input" => Ok(Device::Input),
            b"output" => Ok(Device::Output),
            b"disk" => Ok(Device::Disk),
            b"peer" => Ok(Device::Peer),
            _ => Err(Trouble::Unknown),
        }
    }
}

/// The numbers of the calls that fail, counted from 1, and how many calls the disks pass.
#[derive(Drop)]
pub struct Faults {
    pub link: Vec<u64>,
    pub accept: Vec<u64>,
    pub users: Vec<u64>,
    pub input: Vec<u64>,
    pub output: Vec<u64>,
    pub disk: u64,
    pub peer: u64,
}

impl Faults {
    /// No call fails.
    pub fn none(alloc: Global) -> Faults {
        Faults {
            link: Vec::new(alloc),
            accept: Vec::new(alloc),
            users: Vec::new(alloc),
            input: Vec::new(alloc),
            output: Vec::new(alloc),
            disk: u64::MAX,
            peer: u64::MAX,
        }
    }

    /// Lets the call of this number fail.
    pub fn add(&mut self, device: Device, call: u64) -> Result<(), AllocError> {
        match device {
            Device::Link => self.link.push(call)?,
            Device::Accept => self.accept.push(call)?,
            Device::Users => self.users.push(call)?,
            Device::Input => self.input.push(call)?,
            Device::Output => self.output.push(call)?,
            Device::Disk => self.disk = call.saturating_sub(1),
            Device::Peer => self.peer = call.saturating_sub(1),
        }
        Ok(())
    }
}
