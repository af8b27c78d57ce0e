//! Reads what commands take: the file, messages, users and the artifacts in them.

pub(crate) mod arrivals;
pub(crate) mod checking;
pub(crate) mod gathering;
pub(crate) mod input;
pub(crate) mod load;
pub(crate) mod message;
pub(crate) mod users;
