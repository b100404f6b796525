//! What a list of calls has of each call. No value of these types is made.

use crate::{Ack, HubState, SnapFault};
use dur_base::{Entry, Fact, Guid, List, Number, OutOfMemory, Ticks};
use dur_view::{Batch, Limit, Snapshot, View};

/// Where the handling of a writer's numbers ends.
#[derive(Clone, Copy, Debug, Drop)]
pub enum End {
    /// Before a number that is not known.
    Waits,
    /// At a sample that a limit refuses.
    Refuses { number: Number, limit: Limit },
    /// Anywhere, for want of memory.
    Stopped,
}

/// What one fact does.
pub struct Step {
    pub fact: Fact,
    /// What is admitted.
    pub entries: List<Entry>,
    pub end: End,
    pub ack: Option<Ack>,
}

/// One call on a hub.
pub enum Event {
    /// A `receive`; a `tick` is one of no facts.
    Receive {
        /// The moment that was handed in.
        moment: Ticks,
        /// How many writers its lease step lost.
        lost: usize,
        /// What the facts did that were handled whole.
        steps: List<Step>,
        /// What the fact did, if there is one, that was cut off for want of memory.
        cut: List<Step>,
        /// Whether memory was wanting.
        stopped: bool,
    },
    Snapshot {
        /// The moment that was handed in.
        moment: Ticks,
        reader: Guid,
        /// How many writers its lease step lost.
        lost: usize,
        reply: Result<Snapshot, SnapFault>,
    },
    Take(Batch),
    TakeView(Result<(Batch, View), OutOfMemory>),
    /// All are durable up to a count that is this one modulo 2^64.
    Mark(u64),
    Stop,
    Leave,
    State(HubState),
}
