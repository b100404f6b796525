//! The outside of the service: what gives octets, what takes and keeps them, and how often each failed.
//! Each part is a trait, with objects in memory that tell what they hold, and adapters of a few lines
//! to the system, which tell nothing.
#![tactic(auto)]

mod again;
mod calls;
mod change;
mod clock;
mod disk;
mod files;
mod link;
mod note;
mod pick;
mod rig;
mod sink;
mod socket;
mod source;
mod streams;
mod traits;
mod values;

pub use change::{Change, Edit};
pub use clock::{MemClock, NoGate, WallClock};
pub use disk::MemDisk;
pub use files::{FileDisk, FileRig};
pub use link::MemLink;
pub use rig::MemRig;
pub use sink::{MemSink, NoSink};
pub use socket::UdpLink;
pub use source::{MemSource, SureSource};
pub use streams::{OutputRig, StdSink, StdSource};
pub use traits::{Clock, Disk, Gate, LONGEST_DATAGRAM, Link, Machine, Rig, Sink, Source};
pub use values::{Failed, FileId, Place};

#[cfg(test)]
mod adapter_tests;
#[cfg(test)]
mod memory_tests;
