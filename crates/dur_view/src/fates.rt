//! Which changes of a topic have a fate, over a start and the events after it.

ghost use Rattle.std.specs.Prelude.{◌≡◌, ℕ, ◌+◌, ◌*◌, ◌^◌, ◌<◌, ◌≤◌, ◌||◌, nat_le, length, IfOk};
ghost use Rattle.std.specs.Option.{option_copied};
ghost use Rattle.dur_view.specs.Past.{Begin, part, past_over};
ghost use Rattle.dur_view.specs.Fates.{line_in, delay, is_long, is_over_by, reaches, has_fate};
ghost use Rattle.dur_view.specs.Lines.{line_in_past};

use crate::state::{InstanceState, is_long};
use crate::{Instance, TopicEvent, View};
use dur_base::{Guid, Key, List, Number, OutOfMemory, Sample, Ticks};
use dur_qos::Topic;
use std::alloc::Global;

fn line_at<'a>(start: &'a View, topic: u32, key: Key) -> Option<&'a Instance>
    ensures { option_copied result ≡ line_in (part start.now topic).lines key }
{
    for line in start.instances.as_slice() {
        if line.topic == topic && line.key == key {
            return Some(line);
        }
    }
    None
}

fn places_of(alloc: Global, places: &[u32]) -> Result<List<usize>, OutOfMemory>
    ensures { IfOk result (λ l. l ≡ places.now) }
{
    let mut list = List::new(alloc);
    for place in places {
        list.push(*place as usize)?;
    }
    Ok(list)
}

fn first_line(
    alloc: Global,
    start: &View,
    topic: u32,
    key: Key,
) -> Result<InstanceState, OutOfMemory>
    ensures line { IfOk result (λ l. l ≡ line_in_past (Begin (part start.now topic)) key) }
    ensures bound { IfOk result (λ l. l.changes < 2 ^ 64) }
{
    match line_at(start, topic, key) {
        None => Ok(InstanceState {
            changes: 0,
            disposed: false,
            registered: List::new(alloc),
            quiet: None,
            purged: 0,
        }),
        Some(line) => {
            let registered = places_of(alloc, line.registered.as_slice())?;
            Ok(InstanceState {
                changes: line.changes as u128,
                disposed: line.disposed,
                registered,
                quiet: line.quiet,
                purged: 0,
            })
        }
    }
}

/// The settings of the topic at a place of the start.
pub fn settings_of<'a>(start: &'a View, topic: u32) -> &'a Topic
    requires { topic < length start.now.topics }
    ensures { result.now ≡ (part start.now topic).settings }
{
    &start.topics.as_slice()[topic as usize]
}

/// The instance of this key after the events, in the topic at a place of the start.
pub fn line_over(
    alloc: Global,
    start: &View,
    topic: u32,
    events: &[TopicEvent],
    key: Key,
) -> Result<InstanceState, OutOfMemory>
    requires { topic < length start.now.topics }
    ensures line { IfOk result (λ l. l ≡ line_in_past (past_over start.now topic events.now) key) }
    ensures bound { IfOk result (λ l. l.changes < 2 ^ 64 + length events.now) }
{
    let longest = settings_of(start, topic).delay as u64 * 4_294_967_296;
    let mut line = first_line(alloc, start, topic, key)?;
    for event in events {
        line = line.after(key, longest, event)?;
    }
    Ok(line)
}

fn is_over(sample: &Sample, now: Ticks) -> bool
    ensures { result ≡ is_over_by sample.now.lifespan sample.now.stamp now }
{
    match sample.lifespan {
        None => false,
        Some(lifespan) => sample.stamp.0 as u128 + lifespan.0 as u128 <= now.0 as u128,
    }
}

fn is_deep(depth: Option<u32>, later: u128) -> bool
    ensures { result ≡ reaches depth later }
{
    match depth {
        None => false,
        Some(most) => later >= most as u128,
    }
}

fn is_purged_by(line: &InstanceState, ordinal: u128, longest: u64, now: Ticks) -> bool
    ensures { result ≡ (nat_le ordinal line.now.purged || is_long line.now.quiet longest now) }
{
    ordinal <= line.purged || is_long(line.quiet, longest, now)
}

/// A change, with its place among those of its instance.
#[derive(Drop)]
pub struct Placed<'a> {
    pub ordinal: u128,
    pub writer: Guid,
    pub number: Number,
    pub arrived: Option<Ticks>,
    pub sample: &'a Sample,
}

/// Whether the change is expired, displaced or purged at the moment, after the events.
pub fn is_gone(
    alloc: Global,
    start: &View,
    topic: u32,
    events: &[TopicEvent],
    now: Ticks,
    change: &Placed,
) -> Result<bool, OutOfMemory>
    requires { topic < length start.now.topics }
    ensures { IfOk result (λ b. b ≡ has_fate (past_over start.now topic events.now) now record { ordinal = change.now.ordinal; writer = change.now.writer; number = change.now.number; arrived = change.now.arrived; sample = change.now.sample.now }) }
{
    let settings = settings_of(start, topic);
    let longest = settings.delay as u64 * 4_294_967_296;
    let line = line_over(alloc, start, topic, events, change.sample.key)?;
    let expired = is_over(change.sample, now);
    let displaced = is_deep(settings.depth, line.changes.saturating_sub(change.ordinal));
    let purged = is_purged_by(&line, change.ordinal, longest, now);
    Ok(expired | (displaced | purged))
}
