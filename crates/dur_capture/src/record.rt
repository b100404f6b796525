//! What a capture is made of.

use dur_base::{Payload, Ticks};

/// A datagram that came to a port at a moment. An empty one only brings its moment.
#[derive(Drop)]
pub struct Record {
    /// When it came, in ticks of 2^-32 s.
    pub moment: Ticks,
    /// The port that it came to.
    pub port: u16,
    /// Its octets, at most 65,507.
    pub bytes: Payload,
}
