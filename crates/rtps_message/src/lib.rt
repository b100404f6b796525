//! Messages of DDSI-RTPS (8.3, 9.4): the facts that a datagram tells, the samples and keys that they stand
//! for, and the messages that the service writes.
#![tactic(auto)]

mod context;
mod heard;
mod hearing;
mod key;
mod laws;
mod sample;
mod writing;

pub use context::{Context, begin};
pub use heard::{End, Heard};
pub use hearing::{facts, facts_of};
pub use laws::{changes_read_again, markers_read_again, one_hearing};
pub use sample::sample_of;
pub use writing::{write_acknack, write_data, write_heartbeat, write_marker, write_message};

#[cfg(test)]
mod tests;
