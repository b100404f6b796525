//! What a submessage tells, and what may be wrong with it.

use dur_base::{Bits, EntityId, Form, Number, Prefix, Ticks};
use rtps_params::{Inline, ListKind};

/// A submessage (DDSI-RTPS 8.3.8, 9.4.5).
#[derive(Drop)]
pub enum Sub<'a> {
    /// It says nothing.
    Pad,
    /// The time of what follows, in ticks of 2^-32 s since the Unix epoch, or that there is none.
    InfoTs(Option<Ticks>),
    /// Whom what follows is for. Twelve zeros are everybody.
    InfoDst(Prefix),
    /// Whom what follows is from.
    InfoSrc(Prefix),
    /// A sample.
    Data(DataSub<'a>),
    /// The numbers that a writer has.
    Heartbeat {
        /// Whom it is for, or zeros for every reader.
        reader: EntityId,
        /// Who has them.
        writer: EntityId,
        /// The first number that is still there.
        first: Number,
        /// The last number, or `first - 1` where there is none; below 2^63.
        last: u64,
        /// Counts the writer's heartbeats.
        count: u32,
        /// Whether an answer is not asked for.
        is_final: bool,
        /// Whether it says that the writer lives.
        liveliness: bool,
    },
    /// What a reader has and what it asks for.
    AckNack {
        /// Who asks.
        reader: EntityId,
        /// Whom it asks.
        writer: EntityId,
        /// It has all below the base, and asks for those in the set.
        set: Bits,
        /// Counts the reader's answers.
        count: u32,
        /// Whether a heartbeat is not asked for.
        is_final: bool,
    },
    /// Numbers that are irrelevant: those from `start` to below the base of `set`, and those in `set`.
    Gap {
        /// Whom it is for, or zeros for every reader.
        reader: EntityId,
        /// Whose numbers.
        writer: EntityId,
        /// The first of them.
        start: Number,
        /// Those that follow one by one.
        set: Bits,
    },
    /// A submessage of another id, which is passed over by its length.
    Other(u8),
}

/// A DATA, which borrows its payload (DDSI-RTPS 9.4.5.3).
#[derive(Drop)]
pub struct DataSub<'a> {
    /// Whom it is for, or zeros for every reader.
    pub reader: EntityId,
    /// Who wrote it.
    pub writer: EntityId,
    /// Its number, at most 2^63 - 2.
    pub number: Number,
    /// What its inline QoS tells.
    pub inline: Inline,
    /// What its payload holds.
    pub form: Form,
    /// Its payload; none where the form is `Nothing`.
    pub payload: &'a [u8],
}

/// The first fault of a submessage.
#[derive(Clone, Copy, Debug, PartialEq, Eq, Drop)]
pub struct SubFault {
    /// The first octet of the faulty field, counted from the submessage's first octet.
    pub at: usize,
    /// What is wrong with it.
    pub kind: SubKind,
}

/// What is wrong with a submessage.
#[derive(Clone, Copy, Debug, PartialEq, Eq, Drop)]
pub enum SubKind {
    /// The header, the body or a field does not fit whole. The place is 0 for the header, and 4 for a
    /// body that is longer than what is left.
    Cut,
    /// A DATA has the flags D and K both; the place is 1.
    BothDataAndKey,
    /// A writerSN is below 1 or is 2^63 - 1, or a firstSN or gapStart is below 1.
    BadNumber,
    /// A set's base is below 1, but for base 0 without bits in an ACKNACK, or its numBits is above 256.
    BadSet,
    /// A lastSN is below firstSN - 1.
    BadRange,
    /// The inline QoS has this fault; the place is the parameter's.
    List(ListKind),
    /// octetsToInlineQos is below 16 or points past the body; the place is 6.
    BadOffset,
}
