//! Disks, by which all else reads and writes files. Their contracts say what each call does to the contents, and what a
//! crash at any moment may leave of them. A disk in memory tells both, and can be crashed. A fuse fails every call after so
//! many, and a flip gives one byte wrong. A disk over a real file promises nothing of contents. A shared file is read while
//! another process writes to it, and a front is a disk over the part of it that stays.
#![tactic(auto)]

mod change;
mod disk;
mod either;
mod file;
mod flip;
mod front;
mod fuse;
mod history;
mod law;
mod memory;
mod shared;
mod tearing;

pub use disk::Disk;
pub use either::EitherDisk;
pub use file::FileDisk;
pub use flip::FlipDisk;
pub use front::{Front, FrontDisk, Seen};
pub use fuse::FuseDisk;
pub use law::images_by_place;
pub use memory::MemoryDisk;
pub use shared::{Shared, SharedFile};
