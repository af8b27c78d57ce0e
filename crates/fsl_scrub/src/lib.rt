//! Writes a new file of a repository without the bytes of shunned artifacts. The file holds the same artifacts as the repository.
//! A crash at any moment leaves no repository there or the whole new one.
#![tactic(auto)]

mod faults;
mod gate;
mod growing;
mod laws;
mod reading;
mod scrubbing;

pub use faults::ScrubFault;
pub use laws::{
    each_moment_stands, each_written_moment_stands, held_have_blobs, honest_is_same,
    scrubbed_are_records, scrubbed_file_leaves_the_same, scrubbed_records_leave_the_same,
    unopened_file_stands_for_none, whole_file_stands_for_its_records, written_are_records,
    written_records_leave_the_same,
};
pub use scrubbing::{Scrubbed, scrub};
