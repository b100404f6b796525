//! The fields of a line: each is one word, taken from the front of those that are left.

ghost use Rattle.dur_qos.specs.Words.{Gives};
ghost use Rattle.dur_qos.specs.Lines.{name_at, topic_kind_at, reader_kind_at, shape_at, history_at, limit_at, delay_at, prefix_at, guid_at};

use crate::PlanKind;
use crate::digits::{number, octets};
use crate::values::{history, limit, name, reader_kind, shape, topic_kind};
use crate::word::Words;
use dur_base::{Durability, Guid, Name, Shape};

/// A topic's name.
#[tactic(auto, unfolding(crate::specs::Lines::name_at))]
pub fn take_name<'a>(words: Words<'a>) -> Result<(Name, Words<'a>), PlanKind>
    ensures { Gives (λ x. (x.0, x.1)) result (name_at words.entry) }
{
    let (word, rest) = words.next()?;
    match name(word) {
        Some(name) => Ok((name, rest)),
        None => Err(PlanKind::Word),
    }
}

/// A topic's kind.
#[tactic(auto, unfolding(crate::specs::Lines::topic_kind_at))]
pub fn take_topic_kind<'a>(words: Words<'a>) -> Result<(Durability, Words<'a>), PlanKind>
    ensures { Gives (λ x. (x.0, x.1)) result (topic_kind_at words.entry) }
{
    let (word, rest) = words.next()?;
    match topic_kind(word) {
        Some(kind) => Ok((kind, rest)),
        None => Err(PlanKind::Word),
    }
}

/// A limit, or a lease.
#[tactic(auto, unfolding(crate::specs::Lines::limit_at))]
pub fn take_limit<'a>(words: Words<'a>) -> Result<(Option<u32>, Words<'a>), PlanKind>
    ensures { Gives (λ x. (x.0, x.1)) result (limit_at words.entry) }
{
    let (word, rest) = words.next()?;
    match limit(word) {
        Some(limit) => Ok((limit, rest)),
        None => Err(PlanKind::Number),
    }
}

/// The kind that a reader requests.
#[tactic(auto, unfolding(crate::specs::Lines::reader_kind_at))]
pub fn take_reader_kind<'a>(words: Words<'a>) -> Result<(Durability, Words<'a>), PlanKind>
    ensures { Gives (λ x. (x.0, x.1)) result (reader_kind_at words.entry) }
{
    let (word, rest) = words.next()?;
    match reader_kind(word) {
        Some(kind) => Ok((kind, rest)),
        None => Err(PlanKind::Word),
    }
}

/// A topic's shape.
#[tactic(auto, unfolding(crate::specs::Lines::shape_at))]
pub fn take_shape<'a>(words: Words<'a>) -> Result<(Shape, Words<'a>), PlanKind>
    ensures { Gives (λ x. (x.0, x.1)) result (shape_at words.entry) }
{
    let (word, rest) = words.next()?;
    match shape(word) {
        Some(shape) => Ok((shape, rest)),
        None => Err(PlanKind::Word),
    }
}

/// A topic's history.
#[tactic(auto, unfolding(crate::specs::Lines::history_at))]
pub fn take_history<'a>(words: Words<'a>) -> Result<(Option<u32>, Words<'a>), PlanKind>
    ensures { Gives (λ x. (x.0, x.1)) result (history_at words.entry) }
{
    let (word, rest) = words.next()?;
    match history(word) {
        Some(depth) => Ok((depth, rest)),
        None => Err(PlanKind::Number),
    }
}

/// A topic's delay.
#[tactic(auto, unfolding(crate::specs::Lines::delay_at))]
pub fn take_delay<'a>(words: Words<'a>) -> Result<(u32, Words<'a>), PlanKind>
    ensures { Gives (λ x. (x.0, x.1)) result (delay_at words.entry) }
{
    let (word, rest) = words.next()?;
    match number(word) {
        Some(delay) => Ok((delay, rest)),
        None => Err(PlanKind::Number),
    }
}

/// The prefix.
#[tactic(auto, unfolding(crate::specs::Lines::prefix_at))]
pub fn take_prefix<'a>(words: Words<'a>) -> Result<([u8; 8], Words<'a>), PlanKind>
    ensures { Gives (λ x. (x.0, x.1)) result (prefix_at words.entry) }
{
    let (word, rest) = words.next()?;
    match octets(word) {
        Some(octets) => Ok((octets, rest)),
        None => Err(PlanKind::Word),
    }
}

/// A GUID.
#[tactic(auto, unfolding(crate::specs::Lines::guid_at))]
pub fn take_guid<'a>(words: Words<'a>) -> Result<(Guid, Words<'a>), PlanKind>
    ensures { Gives (λ x. (x.0, x.1)) result (guid_at words.entry) }
{
    let (word, rest) = words.next()?;
    match octets(word) {
        Some(octets) => Ok((Guid(octets), rest)),
        None => Err(PlanKind::Word),
    }
}
