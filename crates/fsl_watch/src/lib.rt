//! Reports of a running program. A door and a dial write a line for each connection, and a source and a disk say how far they
//! are. Each wraps another one of its kind, whose answers and states come through unchanged, and counts the bytes that move. Its
//! lines go to a sink. A line that can't be written is dropped, and changes nothing else.
#![tactic(auto)]

mod dial;
mod disk;
mod door;
mod lines;
mod pace;
mod source;
mod traffic;

pub use dial::LoggedDial;
pub use disk::WatchedDisk;
pub use door::LoggedDoor;
pub use lines::Whose;
pub use source::WatchedSource;
