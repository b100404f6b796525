//! The changes of a topic that have no fate, over a start and the events after it.

ghost use Rattle.std.specs.Prelude.{◌≡◌, ◌<◌, ◌++◌, [], ◌∷◌, map, length, OnOk, IfOk};
ghost use Rattle.dur_view.specs.Past.{part, is_kept_of, past_over};
ghost use Rattle.dur_view.specs.Fates.{made_by, living};
ghost use Rattle.dur_view.specs.Living.{made_living, all_made, living_of};

use crate::fates::{Placed, is_gone, line_over};
use crate::state::changes;
use crate::{Kept, TopicEvent, View};
use dur_base::{Guid, List, Number, OutOfMemory, Sample, Ticks};
use std::alloc::Global;

/// A change without a fate, with its place among those of its instance.
#[derive(Drop)]
pub struct Living {
    pub ordinal: u128,
    pub writer: Guid,
    pub number: Number,
    pub arrived: Option<Ticks>,
    pub sample: Sample,
}

// Adds the change where it has no fate.
fn add(
    alloc: Global,
    list: &mut List<Living>,
    start: &View,
    topic: u32,
    events: &[TopicEvent],
    now: Ticks,
    change: &Placed,
) -> Result<(), OutOfMemory>
    requires { topic < length start.now.topics }
    ensures { OnOk result (all_made list.new ≡ all_made list.old ++ living_of (past_over start.now topic events.now) now (record { ordinal = change.now.ordinal; writer = change.now.writer; number = change.now.number; arrived = change.now.arrived; sample = change.now.sample.now } ∷ [])) }
{
    if is_gone(alloc, start, topic, events, now, change)? {
        return Ok(());
    }
    let sample = change.sample.copy()?;
    list.push(Living {
        ordinal: change.ordinal,
        writer: change.writer,
        number: change.number,
        arrived: change.arrived,
        sample,
    })
}

fn is_kept_of(start: &View, topic: u32, kept: &Kept) -> bool
    ensures { result ≡ is_kept_of start.now topic kept.now }
{
    match start.instances.as_slice().get(kept.instance as usize) {
        Some(line) => line.topic == topic,
        None => false,
    }
}

// Those without a fate of the changes that the start keeps.
fn of_start(
    alloc: Global,
    start: &View,
    topic: u32,
    events: &[TopicEvent],
    now: Ticks,
) -> Result<List<Living>, OutOfMemory>
    requires { topic < length start.now.topics }
    ensures { IfOk result (λ l. all_made l ≡ living_of (past_over start.now topic events.now) now (part start.now topic).kept) }
{
    let mut list = List::new(alloc);
    for kept in start.kept.as_slice() {
        if is_kept_of(start, topic, kept) {
            let change = Placed {
                ordinal: kept.ordinal as u128,
                writer: kept.writer,
                number: kept.number,
                arrived: kept.arrived,
                sample: &kept.sample,
            };
            add(alloc, &mut list, start, topic, events, now, &change)?;
        }
    }
    Ok(list)
}

// Adds the change that an event is, if it is one and has no fate. These events came before it.
fn add_event(
    alloc: Global,
    list: &mut List<Living>,
    start: &View,
    topic: u32,
    events: &[TopicEvent],
    now: Ticks,
    before: &[TopicEvent],
    event: &TopicEvent,
) -> Result<(), OutOfMemory>
    requires { topic < length start.now.topics }
    ensures { OnOk result (all_made list.new ≡ all_made list.old ++ living_of (past_over start.now topic events.now) now (made_by (past_over start.now topic before.now) event.now)) }
{
    if let TopicEvent::Effect {
        writer,
        number,
        arrived,
        sample,
        ..
    } = event
    {
        if changes(sample.act) {
            let line = line_over(alloc, start, topic, before, sample.key)?;
            let change = Placed {
                ordinal: line.changes + 1,
                writer: *writer,
                number: *number,
                arrived: Some(*arrived),
                sample,
            };
            add(alloc, list, start, topic, events, now, &change)?;
        }
    }
    Ok(())
}

/// The changes without a fate of the topic at a place of the start at a moment, after the events, in the order of effect.
pub fn living_over(
    alloc: Global,
    start: &View,
    topic: u32,
    events: &[TopicEvent],
    now: Ticks,
) -> Result<List<Living>, OutOfMemory>
    requires { topic < length start.now.topics }
    ensures { IfOk result (λ l. all_made l ≡ living (past_over start.now topic events.now) now) }
{
    let mut list = of_start(alloc, start, topic, events, now)?;
    for (at, event) in events.iter().enumerate() {
        add_event(
            alloc,
            &mut list,
            start,
            topic,
            events,
            now,
            &events[..at],
            event,
        )?;
    }
    Ok(list)
}
