//! Which limit of its topic a sample would pass.

ghost use Rattle.std.specs.Prelude.{◌≡◌, ℕ, ◌+◌, ◌*◌, ◌^◌, ◌≤◌, ◌++◌, List as Sequence, Some, None, length, slice_get, unwrap_or};
ghost use Rattle.dur_base.specs.declared.sample.Sample.{Sample as Entered};
ghost use Rattle.dur_view.specs.declared.data.Held.{Held as Member};
ghost use Rattle.dur_view.specs.declared.change.TopicEvent.{TopicEvent};
ghost use Rattle.dur_view.specs.Past.{Past, ◌▹▹◌, no_topic};
ghost use Rattle.dur_view.specs.Fates.{settings};
ghost use Rattle.dur_view.specs.Refused.{is_over};
ghost use Rattle.dur_instances.specs.Trimmed.{Trimmed};
ghost use Rattle.dur_instances.specs.Stands.{Stands};
ghost use Rattle.dur_instances.specs.Would.{TakeEffect};
ghost use Rattle.dur_sets.specs.Tells.{left, if_held};
ghost use Rattle.dur_store.specs.Parts.{line_of};
ghost use Rattle.dur_store.specs.Members.{IsPassed};
ghost use Rattle.dur_store.specs.Limits.{held_for, members_in, members_then, limit_at};

use crate::writer::Writer;
use dur_sets::{Before, Effect, Now};
use dur_view::{Limit, View};

// How many members the open set of a writer of the topic has.
fn held_for(writer: &Writer, topic: u32) -> usize
    ensures { result ≡ held_for topic (line_of writer.now) }
{
    if writer.topic == topic {
        writer.held.len()
    } else {
        0
    }
}

// How many members the open sets of the topic have.
fn members_in(writers: &[Writer], topic: u32) -> u128
    ensures members { result ≡ members_in topic writers.now }
    ensures bound { result ≤ length writers.now * 2 ^ 64 }
{
    let mut count = 0;
    for writer in writers {
        count += held_for(writer, topic) as u128;
    }
    count
}

// How many members stay in a set of so many.
fn left_of(before: &Before, held: usize) -> usize
    ensures left { (members : Sequence Member) → length members ≡ held
        → result ≡ length (left before.now members) }
    ensures bound { result ≤ held }
{
    match before {
        Before::Nothing => held,
        Before::Close(count) => held.saturating_sub(*count),
    }
}

// How many members a writer holds after its next sample.
fn held_after(writer: &Writer, effect: &Effect) -> u128
    ensures held { (x : Member) → result ≡ length
        (left effect.entry.now.before writer.now.held.items ++ if_held effect.entry.now.now x) }
    ensures bound { result ≤ length writer.now.held.items + 1 }
{
    let left = left_of(&effect.before, writer.held.len()) as u128;
    match &effect.now {
        Now::Hold => left + 1,
        Now::Now | Now::Drop => left,
    }
}

// How many members the open sets of the writer's topic have after its next sample.
fn members_then(writers: &[Writer], writer: &Writer, effect: &Effect) -> u128
    ensures { (x : Member) → result ≡ members_then writers.now writer.now effect.entry.now x }
{
    let held = writer.held.len() as u128;
    let others = members_in(writers, writer.topic).saturating_sub(held);
    others + held_after(writer, effect)
}

fn is_over(limit: Option<u32>, count: u128) -> bool
    ensures { result ≡ is_over limit count }
{
    match limit {
        None => false,
        Some(limit) => count > limit as u128,
    }
}

/// Whether the open sets of the writer's topic have more members than the limit after its next sample. Without a limit
/// none is counted.
pub fn is_held_over(
    max_held: Option<u32>,
    writers: &[Writer],
    writer: &Writer,
    effect: &Effect,
) -> bool
    ensures { (x : Member) → result
        ≡ is_over max_held (members_then writers.now writer.now effect.entry.now x) }
{
    match max_held {
        None => false,
        Some(_) => is_over(max_held, members_then(writers, writer, effect)),
    }
}

/// The limit on the held members of the topic at a place.
pub fn max_held_of(outline: &View, topic: usize) -> Option<u32>
    ensures { result ≡ (unwrap_or (slice_get outline.now.topics topic) no_topic).max_held }
{
    match outline.topics.as_slice().get(topic) {
        Some(topic) => topic.max_held,
        None => None,
    }
}

/// The first limit that a topic passes, where this is the first one with no member held, and its open sets have too many
/// members or not.
pub fn limit_with(limit: Option<Limit>, is_held_over: bool) -> Option<Limit>
    ensures { (topic : Trimmed) (moment : ℕ) (samples : Sequence Entered) (p : Past) (es : Sequence TopicEvent) (members : ℕ)
        → IsPassed topic moment samples limit → Stands topic p → TakeEffect moment samples es
        → is_held_over ≡ is_over (settings p).max_held members
        → result ≡ limit_at (p ▹▹ es) moment members }
{
    match limit {
        Some(limit) => Some(limit),
        None => if is_held_over {
            Some(Limit::Held)
        } else {
            None
        },
    }
}
