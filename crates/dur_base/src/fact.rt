//! What a message tells of one writer or reader.

use crate::{Bits, EntityId, Guid, Number, Raw};

/// What one submessage tells (DDSI-RTPS 8.3.8).
#[derive(Drop)]
pub enum Fact {
    /// A DATA that can be read.
    Data {
        /// Who wrote it.
        writer: Guid,
        /// Whom it is for, or zeros for every reader of the writer's topic.
        reader: EntityId,
        /// Its number.
        number: Number,
        /// The sample, before its key is read.
        raw: Raw,
    },
    /// A DATA that cannot be read: its number is known, and no sample stands there.
    Unreadable {
        /// Who wrote it.
        writer: Guid,
        /// Whom it is for.
        reader: EntityId,
        /// Its number.
        number: Number,
    },
    /// A GAP: the numbers from `start` to below the base of `set`, and those in `set`, are irrelevant.
    Gap {
        /// Whose numbers.
        writer: Guid,
        /// Whom it is for.
        reader: EntityId,
        /// The first of them.
        start: Number,
        /// Those that follow one by one.
        set: Bits,
    },
    /// A HEARTBEAT: the writer has the numbers from `first` to `last`.
    Beat {
        /// Who has them.
        writer: Guid,
        /// Whom it is for.
        reader: EntityId,
        /// The first number that is still there.
        first: Number,
        /// The last number, or `first - 1` where there is none.
        last: u64,
        /// Whether an answer is not asked for.
        is_final: bool,
    },
    /// An ACKNACK: the reader has all below the base of `set`, and asks for those in it.
    Nack {
        /// Who asks.
        reader: Guid,
        /// Whom it asks.
        writer: EntityId,
        /// What it asks for.
        set: Bits,
        /// Whether a HEARTBEAT is not asked for.
        is_final: bool,
    },
}
