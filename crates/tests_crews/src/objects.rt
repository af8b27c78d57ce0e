//! The objects that a server of two crews is handed, and the calls of them that fail.
use std::alloc::{AllocError, Global};

/// The object that fails.
#[derive(Clone, Copy, PartialEq, Eq)]
pub enum Object {
    Users,
    Output,
    PushLink,
    PullLink,
    PushDoor,
    PullDoor,
}

/// One call of one object, which fails.
#[derive(Clone, Copy)]
pub struct Fault {
    pub object: Object,
    pub call: u64,
}

/// The numbers of the calls of an object that fail: one, if it is the object of the fault.
pub fn fails_of(alloc: Global, fault: Fault, object: Object) -> Result<Vec<u64>, AllocError> {
    let mut fails = Vec::new(alloc);
    if fault.object == object {
        fails.push(fault.call)?;
    }
    Ok(fails)
}
