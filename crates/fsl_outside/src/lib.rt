//! Bytes that come in and bytes that go out, connections with both, and clocks. A call of a source, a sink or a link answers
//! `Failed` only if its count of faults rose, and any other answer leaves the count. The forms over memory record what they hold.
//! The adapters record it as far as std's reader or writer tells it.
#![tactic(auto)]

mod clock;
mod dial;
mod door;
mod gate;
mod lines;
mod link;
mod memory;
mod memory_link;
mod outside;
mod std_forms;
mod tcp_dial;
mod tcp_door;
mod timed;
mod whole;

pub use clock::{Clock, SetClock, StdClock};
pub use dial::MemoryDial;
pub use door::MemoryDoor;
pub use gate::{Gate, NoGate, Point};
pub use link::{Accepted, Dial, Door, Link};
pub use memory::{MemorySink, MemorySource};
pub use memory_link::MemoryLink;
pub use outside::{Failed, Sink, Source};
pub use std_forms::{StdSink, StdSource};
pub use tcp_dial::TcpDial;
pub use tcp_door::TcpDoor;
pub use whole::{ReadFault, read_whole, write_whole};
