//! What the calls of a hub answer.

use dur_base::{Bits, EntityId, Guid, List, Number, OutOfMemory};
use dur_view::Limit;
use thiserror::Error;

/// An acknowledgement for a writer: an ACKNACK to be sent (DDSI-RTPS 8.3.8.1).
#[derive(Clone, Copy, Debug, PartialEq, Eq, Drop)]
pub struct Ack {
    /// Whom it is for.
    pub writer: Guid,
    /// From whom it is: the service's reader of the writer's topic.
    pub reader: EntityId,
    /// What is acknowledged, up to below its base, and what is asked for.
    pub set: Bits,
    /// Whether no HEARTBEAT is asked for.
    pub is_final: bool,
    /// How many acknowledgements the writer was given in this run, modulo 2^32.
    pub count: u32,
}

/// A sample that a limit refused.
#[derive(Clone, Copy, Debug, PartialEq, Eq, Drop)]
pub struct Refusal {
    pub writer: Guid,
    pub number: Number,
    /// The first limit that it would have passed.
    pub limit: Limit,
}

/// What a `receive` answers.
#[derive(Drop)]
pub struct Received {
    pub acks: List<Ack>,
    pub refused: List<Refusal>,
    /// How many facts were handled whole.
    pub handled: usize,
    /// Whether memory was wanting.
    pub stopped: bool,
}

/// Why a reader gets no snapshot.
#[derive(Clone, Copy, Debug, PartialEq, Eq, Drop, Error)]
pub enum SnapFault {
    /// The plan has no such reader.
    #[error("unknown reader")]
    Unknown,
    /// What it requests is not kept for it.
    #[error("not served")]
    NotServed,
    /// It was given one in this run.
    #[error("served already")]
    Already,
    /// There was no memory.
    #[error("out of memory")]
    OutOfMemory,
}

impl From<OutOfMemory> for SnapFault {
    fn from(_: OutOfMemory) -> SnapFault {
        SnapFault::OutOfMemory
    }
}

/// How those that work with a hub stand.
#[derive(Clone, Copy, Debug, PartialEq, Eq, Drop)]
pub struct HubState {
    /// How many work.
    pub working: u32,
    /// Whether they are to end.
    pub stopped: bool,
}

/// What a run did so far, modulo 2^64.
#[derive(Clone, Copy, Debug, PartialEq, Eq, Drop)]
pub struct Counts {
    pub entries: u64,
    pub acks: u64,
    pub refused: u64,
    pub replays: u64,
}
