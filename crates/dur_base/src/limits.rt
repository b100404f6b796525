//! Limits and units that several crates keep.

/// The most octets of a payload that is kept or sent: behind the longest head it fits in one UDP datagram.
pub const LONGEST_PAYLOAD: usize = 65_344;

/// The ticks of a second.
pub const TICKS_OF_A_SECOND: u64 = 0x1_0000_0000;

/// The greatest sequence number of a writer (DDSI-RTPS 8.3.5.4): 2^63 - 1.
pub const GREATEST_NUMBER: u64 = 0x7fff_ffff_ffff_ffff;
