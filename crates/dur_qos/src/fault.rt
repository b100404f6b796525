//! What may be wrong with the text of a plan.

ghost use Rattle.std.specs.Prelude.{◌≡◌};
ghost use Rattle.dur_qos.specs.declared.fault.PlanKind.TheVariants as kind;

use dur_base::OutOfMemory;
use thiserror::Error;

/// What is wrong with a line.
#[derive(Clone, Copy, Debug, PartialEq, Eq, Drop, Error)]
pub enum PlanKind {
    /// A bad, missing or surplus word that is no number; a first line that is no prefix line; a line of more than 512
    /// octets; or an input that ends in this line, before the line feed of `end`.
    #[error("a word is bad, missing or one too many")]
    Word,
    /// A bad number, depth, limit, lease or delay.
    #[error("a number, a depth, a limit, a lease or a delay is bad")]
    Number,
    /// A second prefix line, or a topic's name, a writer's GUID or a reader's GUID that stands already.
    #[error("it stands already")]
    Twice,
    /// No earlier line declares the topic.
    #[error("no earlier line declares the topic")]
    UnknownTopic,
    /// The depth of a history is above max_per_instance.
    #[error("the depth is above the most samples of an instance")]
    DepthAboveLimit,
    /// One line more of its kind than 1,024 topics, 4,096 writers and 1,024 readers.
    #[error("there is one line of its kind too many")]
    TooMany,
    /// There was not enough memory.
    #[error("out of memory")]
    OutOfMemory,
}

/// What is wrong with a plan, and in which line, from 1.
#[derive(Clone, Copy, Debug, PartialEq, Eq, Drop, Error)]
#[error("line {line} of the plan: {kind}")]
pub struct PlanFault {
    /// The line's number, from 1.
    pub line: u32,
    /// What is wrong with it.
    pub kind: PlanKind,
}

impl From<OutOfMemory> for PlanKind {
    ghost from_gives = { λ _ e. e ≡ kind.OutOfMemory };

    fn from(_: OutOfMemory) -> PlanKind {
        PlanKind::OutOfMemory
    }
}
