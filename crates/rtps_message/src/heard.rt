//! What a message tells, and how it ends.

use dur_base::{Fact, List};
use rtps_submsg::SubKind;

/// How a message ends (DDSI-RTPS 8.3.4).
#[derive(Clone, Copy, Debug, PartialEq, Eq, Drop)]
pub enum End {
    /// Its last submessage is whole.
    Whole,
    /// It has fewer than 20 octets, does not begin with "RTPS", or its major version is not 2.
    BadHeader,
    /// A submessage is faulty. What comes before it stands.
    Stopped {
        /// The place of the fault, counted from the message's first octet.
        at: usize,
        /// What is wrong.
        kind: SubKind,
    },
}

/// What a message tells.
#[derive(Drop)]
pub struct Heard {
    /// The facts, in the order of their submessages.
    pub facts: List<Fact>,
    /// How the message ends.
    pub end: End,
}
